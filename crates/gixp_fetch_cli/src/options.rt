//! The options of a command line.
ghost use Rattle.std.specs.Prelude.{◌≡◌, true, if◌then◌else◌, Some, None, codes, false, map, string_bytes, IsOk, IfOk, IfErr, IfSome, IfNone};
ghost use Rattle.bstr.specs.Owned.{bstring_bytes};
ghost use Rattle.gixp_fetch_cli.specs.CommandLine.{line_of, line_value};
ghost use Rattle.gixp_fetch_cli.specs.declared.options.OptionError.TheVariants.{Memory};
ghost use Rattle.gixp_fetch_cli.specs.Choices.{version_of, tags_of, value, has, IsHaves, mixes_report};
ghost use Rattle.gixp_fetch_cli.specs.Choices.{AsksQuestions, AsksFiles, AsksOutput, AsksFetch, AsksWork, AsksTask, AsksOptions};
ghost use Rattle.gixp_fetch_cli.specs.Refusals.{IsNoHaves, RefusesOptions, ReadsOptions};

use crate::command_line::{CommandLine, LineError};
use crate::history::kept_shallow_of;
use bstr::BString;
use gixp_fetch_common::Haves;
use gixp_negotiators::Algorithm;
use gixp_packetline::Protocol;
use gixp_refmap::fetch::Tags;
use gixp_shallow::Shallow;
use std::alloc::{AllocError, AllocFailed, Global};

/// The server, and the protocol's parameters.
#[derive(Clone, Copy)]
pub struct Server<'a> {
    /// FROM: the file to read, or `-` for standard input.
    pub from: &'a str,
    /// TO: the file to write, or `-` for standard output.
    pub to: &'a str,
    /// The version to request.
    pub version: Protocol,
    /// The path of the repository, for a server that needs it first.
    pub path: Option<&'a str>,
    /// The host, sent with the path.
    pub host: Option<&'a str>,
    /// The client's agent string.
    pub agent: &'a str,
}

/// The files of a program that answers which objects the repository has, as `git cat-file --batch-check` does.
#[derive(Clone, Copy)]
pub struct Questions<'a> {
    /// The file that the program reads: a line with an id for each question.
    pub ask: &'a str,
    /// The file that the program writes: a line for each answer.
    pub answers: &'a str,
}

/// The files of the repository's texts.
#[derive(Clone, Copy)]
pub struct Files<'a> {
    pub refs: Option<&'a str>,
    pub commits: Option<&'a str>,
    pub objects: Option<&'a str>,
    /// The program that answers for other objects.
    pub questions: Option<Questions<'a>>,
    pub shallow: Option<&'a str>,
}

/// What is printed, and where.
#[derive(Clone, Copy)]
pub struct OutputOptions<'a> {
    /// The file of the report, instead of standard output.
    pub report: Option<&'a str>,
    /// Whether the server's progress is shown.
    pub shows_progress: bool,
    /// Whether errors alone are printed.
    pub is_quiet: bool,
}

/// The arguments of a fetch.
#[derive(Drop)]
pub struct FetchArgs<'a> {
    /// PACK: the file of the pack.
    pub pack: &'a str,
    pub shallow: Shallow,
    pub tags: Tags,
    /// Whether to reject a server whose repository is shallow.
    pub rejects_shallow: bool,
    pub haves: Haves,
    pub specs: Vec<BString>,
}

/// The task of a run.
#[derive(Drop)]
pub enum Task<'a> {
    /// Print the usage.
    Help,
    /// Print the version.
    Version,
    /// List the refs.
    List {
        /// Whether the session stays open, for a process that uses the connection next.
        keeps_open: bool,
    },
    Fetch(FetchArgs<'a>),
}

/// All options of a command line.
#[derive(Drop)]
pub struct ProgramOptions<'a> {
    pub task: Task<'a>,
    pub server: Server<'a>,
    /// The filter of a fetch (git-rev-list, `--filter`), for servers that support filters.
    pub filter: Option<&'a str>,
    pub files: Files<'a>,
    pub output: OutputOptions<'a>,
}

/// Why a command line is refused.
#[derive(Debug, Drop)]
pub enum OptionError<'a> {
    /// The command line can't be parsed.
    Line(LineError<'a>),
    /// The option can't have this value.
    Value { name: &'static str, value: &'a str },
    /// These options can't be used together.
    Conflict(&'static str, &'static str),
    /// The first option needs the second.
    Needs(&'static str, &'static str),
    /// There are too few operands, or too many.
    Operands,
    /// An allocation failed.
    Memory,
}

impl From<AllocError> for OptionError<'_> {
    ghost from_gives = { λ _ e. e ≡ Memory };

    fn from(_e: AllocError) -> Self {
        OptionError::Memory
    }
}

impl<T: Drop> From<AllocFailed<T>> for OptionError<'_> {
    ghost from_gives = { λ _ e. e ≡ Memory };

    fn from(_e: AllocFailed<T>) -> Self {
        OptionError::Memory
    }
}

fn version_of(word: &str) -> Option<Protocol>
    ensures { result ≡ version_of (Some word.now) }
{
    if word == "0" {
        Some(Protocol::V0)
    } else if word == "1" {
        Some(Protocol::V1)
    } else if word == "2" {
        Some(Protocol::V2)
    } else {
        None
    }
}

fn version_in<'a>(line: &CommandLine<'a>) -> Result<Protocol, OptionError<'a>>
    ensures ok { IfOk result (λ version. version_of (value (line_value line.now) (codes "--version")) ≡ Some version) }
    ensures err { IfErr result (λ e. RefusesOptions (line_value line.now) e) }
{
    let Some(word) = line.value("--version") else {
        return Ok(Protocol::V2);
    };
    match version_of(word) {
        Some(version) => Ok(version),
        None => Err(OptionError::Value {
            name: "--version",
            value: word,
        }),
    }
}

fn tags_of(word: &str) -> Option<Tags>
    ensures { result ≡ tags_of (Some word.now) }
{
    if word == "all" {
        Some(Tags::All)
    } else if word == "included" {
        Some(Tags::Included)
    } else if word == "none" {
        Some(Tags::None)
    } else {
        None
    }
}

fn tags_in<'a>(line: &CommandLine<'a>) -> Result<Tags, OptionError<'a>>
    ensures ok { IfOk result (λ tags. tags_of (value (line_value line.now) (codes "--tags")) ≡ Some tags) }
    ensures err { IfErr result (λ e. RefusesOptions (line_value line.now) e) }
{
    let Some(word) = line.value("--tags") else {
        return Ok(Tags::None);
    };
    match tags_of(word) {
        Some(tags) => Ok(tags),
        None => Err(OptionError::Value {
            name: "--tags",
            value: word,
        }),
    }
}

fn haves_of(word: &str) -> Option<Haves>
    ensures some { IfSome result (λ haves. IsHaves (Some word.now) haves) }
    ensures none { IfNone result (IsNoHaves word.now) }
{
    if word == "list" {
        return Some(Haves::InOrder);
    }
    match Algorithm::from_name(word) {
        Some(algorithm) => Some(Haves::By(algorithm)),
        None => None,
    }
}

fn haves_in<'a>(line: &CommandLine<'a>) -> Result<Haves, OptionError<'a>>
    ensures ok { IfOk result (λ haves. IsHaves (value (line_value line.now) (codes "--negotiator")) haves) }
    ensures err { IfErr result (λ e. RefusesOptions (line_value line.now) e) }
{
    let Some(word) = line.value("--negotiator") else {
        return Ok(Haves::By(Algorithm::Consecutive));
    };
    match haves_of(word) {
        Some(haves) => Ok(haves),
        None => Err(OptionError::Value {
            name: "--negotiator",
            value: word,
        }),
    }
}

fn texts_of(alloc: Global, words: &[&str]) -> Result<Vec<BString>, AllocError>
    ensures { IfOk result (λ texts. map bstring_bytes texts.items ≡ map (λ w. w.now) words.now) }
{
    let mut texts = Vec::new(alloc);
    for word in words {
        texts.push(BString::from_slice(alloc, word.as_bytes())?)?;
    }
    Ok(texts)
}

// True also without `--shallow`, since no boundary can be kept then.
fn rejects_shallow(line: &CommandLine<'_>) -> bool
    ensures { result ≡ (if has (line_value line.now) (codes "--shallow")
        then has (line_value line.now) (codes "--reject-shallow") else true) }
{
    !line.has("--shallow") || line.has("--reject-shallow")
}

fn fetch_args_of<'a>(
    alloc: Global,
    line: &CommandLine<'a>,
    pack: &'a str,
    specs: &[&'a str],
) -> Result<FetchArgs<'a>, OptionError<'a>>
    ensures fetch_args { IfOk result (λ fetch_args. AsksFetch (line_value line.now) fetch_args) }
    ensures pack { IfOk result (λ fetch_args. fetch_args.pack.now ≡ pack.now) }
    ensures specs { IfOk result (λ fetch_args. map bstring_bytes fetch_args.specs.items ≡ map (λ w. w.now) specs.now) }
    ensures err { IfErr result (λ e. RefusesOptions (line_value line.now) e) }
{
    let shallow = kept_shallow_of(alloc, line)?;
    let tags = tags_in(line)?;
    let haves = haves_in(line)?;
    Ok(FetchArgs {
        pack,
        shallow,
        tags,
        rejects_shallow: rejects_shallow(line),
        haves,
        specs: texts_of(alloc, specs)?,
    })
}

// The task by the operands, and the operands FROM and TO.
fn work_of<'a>(
    alloc: Global,
    line: &CommandLine<'a>,
) -> Result<(Task<'a>, &'a str, &'a str), OptionError<'a>>
    ensures ok { IfOk result (λ found. AsksWork (line_value line.now) found.1.now found.2.now found.0) }
    ensures err { IfErr result (λ e. RefusesOptions (line_value line.now) e) }
{
    let lists = line.has("--list");
    let keeps_open = line.has("--keep-open");
    match line.operands.as_slice() {
        [from, to] => {
            if lists {
                return Ok((Task::List { keeps_open }, from, to));
            }
            Err(OptionError::Operands)
        }
        [from, to, pack, specs @ ..] => {
            if specs.is_empty() || lists {
                return Err(OptionError::Operands);
            }
            if keeps_open {
                return Err(OptionError::Needs("--keep-open", "--list"));
            }
            let fetch_args = fetch_args_of(alloc, line, pack, specs)?;
            Ok((Task::Fetch(fetch_args), from, to))
        }
        _ => Err(OptionError::Operands),
    }
}

// Fails if the report would follow the requests on standard output, which the server reads.
fn expect_report_apart<'a>(line: &CommandLine<'a>, to: &str) -> Result<(), OptionError<'a>>
    ensures ok { IsOk result → mixes_report (line_value line.now) to.now ≡ false }
    ensures err { IfErr result (λ e. (mixes_report (line_value line.now) to.now ≡ true) × RefusesOptions (line_value line.now) e) }
{
    if to == "-" && !line.has("--report") && !line.has("--quiet") {
        Err(OptionError::Needs("standard output as TO", "--report or --quiet"))
    } else {
        Ok(())
    }
}

// The task, and the operands FROM and TO.
fn task_of<'a>(
    alloc: Global,
    line: &CommandLine<'a>,
) -> Result<(Task<'a>, &'a str, &'a str), OptionError<'a>>
    ensures ok { IfOk result (λ found. AsksTask (line_value line.now) found.1.now found.2.now found.0) }
    ensures apart { IfOk result (λ found. mixes_report (line_value line.now) found.2.now ≡ false) }
    ensures err { IfErr result (λ e. RefusesOptions (line_value line.now) e) }
{
    if line.has("--help") {
        return Ok((Task::Help, "", ""));
    }
    if line.has("-V") {
        return Ok((Task::Version, "", ""));
    }
    let found = work_of(alloc, line)?;
    expect_report_apart(line, found.2)?;
    Ok(found)
}

impl<'a> ProgramOptions<'a> {
    /// The options in the words after the program's name.
    ///
    /// # Errors
    ///
    /// The first word that can't be parsed. Otherwise an option that can't have its value, two options that can't be used together,
    /// an option that needs another, or operands that fit neither usage.
    pub fn read(alloc: Global, words: &'a [String]) -> Result<ProgramOptions<'a>, OptionError<'a>>
        ensures { ReadsOptions (line_of (map string_bytes words.now)) result }
    {
        match CommandLine::read(alloc, words) {
            Ok(line) => ProgramOptions::of(alloc, &line),
            Err(LineError::Unknown(word)) => Err(OptionError::Line(LineError::Unknown(word))),
            Err(LineError::NoValue(name)) => Err(OptionError::Line(LineError::NoValue(name))),
            Err(LineError::Memory) => Err(OptionError::Memory),
        }
    }

    // The options of a parsed command line.
    fn of(alloc: Global, line: &CommandLine<'a>) -> Result<ProgramOptions<'a>, OptionError<'a>>
        ensures ok { IfOk result (λ options. AsksOptions (line_value line.now) options) }
        ensures err { IfErr result (λ e. RefusesOptions (line_value line.now) e) }
    {
        let (task, from, to) = task_of(alloc, line)?;
        let version = version_in(line)?;
        let server = Server {
            from,
            to,
            version,
            path: line.value("--path"),
            host: line.value("--host"),
            agent: line.value("--agent").unwrap_or("gixp"),
        };
        Ok(ProgramOptions {
            task,
            server,
            filter: line.value("--filter"),
            files: files_of(line)?,
            output: output_of(line),
        })
    }
}

fn questions_of<'a>(line: &CommandLine<'a>) -> Result<Option<Questions<'a>>, OptionError<'a>>
    ensures ok { IfOk result (λ questions. AsksQuestions (line_value line.now) questions) }
    ensures err { IfErr result (λ e. RefusesOptions (line_value line.now) e) }
{
    match (line.value("--ask"), line.value("--answers")) {
        (Some(ask), Some(answers)) => Ok(Some(Questions { ask, answers })),
        (None, None) => Ok(None),
        (Some(_), None) => Err(OptionError::Needs("--ask", "--answers")),
        (None, Some(_)) => Err(OptionError::Needs("--answers", "--ask")),
    }
}

fn files_of<'a>(line: &CommandLine<'a>) -> Result<Files<'a>, OptionError<'a>>
    ensures ok { IfOk result (λ files. AsksFiles (line_value line.now) files) }
    ensures err { IfErr result (λ e. RefusesOptions (line_value line.now) e) }
{
    Ok(Files {
        refs: line.value("--refs"),
        commits: line.value("--commits"),
        objects: line.value("--objects"),
        questions: questions_of(line)?,
        shallow: line.value("--shallow"),
    })
}

fn output_of<'a>(line: &CommandLine<'a>) -> OutputOptions<'a>
    ensures { AsksOutput (line_value line.now) result }
{
    let is_quiet = line.has("--quiet");
    OutputOptions {
        report: line.value("--report"),
        shows_progress: line.has("--progress") && !is_quiet,
        is_quiet,
    }
}
