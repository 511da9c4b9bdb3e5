//! The usage, and the sentence for a command line that is refused.
ghost use Rattle.std.specs.Prelude.{◌≡◌};
ghost use Rattle.gixp_fetch_cli.specs.Usage.{sentence_value, about, about_two, line_sentence, sentence_of};

use crate::command_line::LineError;
use crate::options::OptionError;

/// The version of the program.
pub(crate) const VERSION: &str = "gixp_fetch_pack 1.0";

/// What `--help` prints.
pub(crate) const USAGE: &str = "usage: gixp_fetch_pack [OPTION..] FROM TO PACK SPEC..
       gixp_fetch_pack --list [OPTION..] FROM TO

Fetches from the server whose output is FROM and whose input is TO. A dash is standard input or output. If TO is
standard output, --report or --quiet is needed, since the server would read the report.
Writes the pack to PACK, and the report to standard output. A value may be joined to its option: --depth=1.

  --version 0|1|2        the version of the protocol to request (2)
  --path PATH            the path of the repository, for a server of git://
  --host HOST            the host, sent with the path
  --agent NAME           the client's agent string
  --keep-open            with --list: don't end the session; a server of version 2 waits for the next command
  --refs FILE            the refs, as `git show-ref -d` lists them
  --commits FILE         the commits, as `git rev-list --all --timestamp --parents` lists them
  --objects FILE         objects that refs point at, each line with an id and a kind
  --ask FILE, --answers FILE
                         the input and the output of a program such as `git cat-file --batch-check`: it answers which of the
                         objects that the server's refs name the repository has. An object counts with all that it reaches
  --shallow FILE         the shallow boundary; a new one is written to FILE.new
  --depth N              N commits of each ref
  --deepen N             N commits more than the repository has
  --unshallow            the whole history
  --since SECONDS        the commits since this time
  --exclude REF          no commit that REF reaches; may be repeated
  --filter SPEC          leave out the objects that SPEC names (git-rev-list, --filter); a server without filters sends all, and
                         a warning is printed
  --tags all|included|none
                         the tags that are fetched with the refspecs (none)
  --reject-shallow       refuse a server whose repository is shallow
  --negotiator consecutive|skipping|noop|list
                         the negotiator, which chooses the commits to offer (consecutive). `list` offers the lines of --commits in
                         their order, and reads each line when it is needed, until the server has all that --refs reach; only
                         --objects and --ask then determine what the repository has
  --report FILE          write the report to FILE
  --progress             show the server's progress
  --quiet                print errors alone
  --help, -V             print this text, or the version

The report has a line `map ID NAME LOCAL` for each ref of a SPEC and `tag ID NAME LOCAL` for each other tag. The line begins with
the change of the ref LOCAL, where the files determine it: new, fast-forward, forced, same or refused.
The status is 0; 1 after an error, or where the server has no such ref; 2 where the words don't fit the usage.
";

// A sentence around two words.
struct Sentence<'a> {
    before: &'static str,
    one: &'a str,
    between: &'static str,
    other: &'a str,
    after: &'static str,
    // Whether the other word is quoted, with its special characters escaped.
    is_quoted: bool,
}

// A sentence around one word.
fn about<'a>(before: &'static str, one: &'a str, between: &'static str) -> Sentence<'a>
    ensures { sentence_value result ≡ about before.now one.now between.now }
{
    Sentence {
        before,
        one,
        between,
        other: "",
        after: "",
        is_quoted: false,
    }
}

fn about_two<'a>(
    one: &'a str,
    between: &'static str,
    other: &'a str,
    after: &'static str,
    is_quoted: bool,
) -> Sentence<'a>
    ensures { sentence_value result ≡ about_two one.now between.now other.now after.now is_quoted }
{
    Sentence {
        before: "",
        one,
        between,
        other,
        after,
        is_quoted,
    }
}

fn line_sentence<'a>(e: &LineError<'a>) -> Sentence<'a>
    ensures { sentence_value result ≡ line_sentence e.now }
{
    match e {
        LineError::Unknown(word) => about("unknown option ", word, ""),
        LineError::NoValue(name) => about("", name, " needs a value"),
        LineError::Memory => about("out of memory", "", ""),
    }
}

fn sentence_of<'a>(e: &OptionError<'a>) -> Sentence<'a>
    ensures { sentence_value result ≡ sentence_of e.now }
{
    match e {
        OptionError::Line(e) => line_sentence(e),
        OptionError::Value { name, value } => about_two(name, " can't be ", value, "", true),
        OptionError::Conflict(one, other) => {
            about_two(one, " and ", other, " can't be used together", false)
        }
        OptionError::Needs(one, other) => about_two(one, " needs ", other, "", false),
        OptionError::Operands => about("wrong number of operands; --help shows the usage", "", ""),
        OptionError::Memory => about("out of memory", "", ""),
    }
}

/// Prints why a command line is refused.
pub(crate) fn print_refusal(rt: &HostRuntime, e: OptionError<'_>) {
    let Sentence {
        before,
        one,
        between,
        other,
        after,
        is_quoted,
    } = sentence_of(&e);
    let _ = if is_quoted {
        eprintln!(rt; "gixp_fetch_pack: {before}{one}{between}{other:?}{after}")
    } else {
        eprintln!(rt; "gixp_fetch_pack: {before}{one}{between}{other}{after}")
    };
}
