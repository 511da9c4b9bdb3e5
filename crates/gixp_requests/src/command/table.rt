//! The features and arguments that a client requests by default.
ghost use Rattle.std.specs.Prelude.{◌≡◌, [], ◌∷◌, ◌++◌, OnOk, IfOk};
ghost use Rattle.std.specs.List.{list_any};
ghost use Rattle.std.specs.Option.{option_copied};
ghost use Rattle.std.specs.Str.{bytes_eq};
ghost use Rattle.gixp_requests.specs.Feature.{feature_values, has_feature};
ghost use Rattle.gixp_requests.specs.Command.{entry_of, entries_of, words_of, goes_with, lines_with, texts};

use crate::command::{Command, Feature};
use bstr::BString;
use std::alloc::{AllocError, Global};

/// The features and arguments that a client requests by default, and the arguments that it may send (gitprotocol-v2,
/// "ls-refs", "fetch"; gitprotocol-capabilities).
///
/// Any lists are allowed.
#[derive(Clone, Copy, Debug)]
pub struct CommandTable {
    /// The features of `fetch` under versions 0 and 1: a name, and the capability that excludes it if the server has it.
    pub v1_fetch: &'static [(&'static str, Option<&'static str>)],
    /// The features of `fetch` under version 2.
    pub v2_fetch: &'static [&'static str],
    /// The features of `ls-refs` under version 2.
    pub v2_ls_refs: &'static [&'static str],
    /// The first argument lines of a `fetch` of version 2: a line, and the feature without which it isn't sent.
    pub fetch_arguments: &'static [(&'static str, Option<&'static str>)],
    /// The first argument lines of an `ls-refs`.
    pub ls_refs_arguments: &'static [&'static str],
    /// The words that an argument of `fetch` may begin with.
    pub fetch_prefixes: &'static [&'static str],
    /// The words that an argument of `ls-refs` may begin with.
    pub ls_refs_prefixes: &'static [&'static str],
}

static V1_FETCH: [(&str, Option<&str>); 12] = [
    ("multi_ack", Some("multi_ack_detailed")),
    ("thin-pack", None),
    ("side-band", Some("side-band-64k")),
    ("side-band-64k", None),
    ("ofs-delta", None),
    ("shallow", None),
    ("deepen-since", None),
    ("deepen-not", None),
    ("deepen-relative", None),
    ("include-tag", None),
    ("multi_ack_detailed", None),
    ("filter", None),
];

static FETCH_ARGUMENTS: [(&str, Option<&str>); 3] = [
    ("thin-pack", None),
    ("ofs-delta", None),
    ("sideband-all", Some("sideband-all")),
];

impl CommandTable {
    ghost use Rattle.gixp_requests.specs.Command.{table_of, git_table, initial_arguments};

    /// The lists of git's own client, as far as this one uses them.
    pub fn git() -> CommandTable
        ensures { table_of result ≡ git_table }
    {
        CommandTable {
            v1_fetch: &V1_FETCH,
            v2_fetch: &["shallow", "filter", "ref-in-want", "sideband-all"],
            v2_ls_refs: &[],
            fetch_arguments: &FETCH_ARGUMENTS,
            ls_refs_arguments: &["symrefs", "peel"],
            fetch_prefixes: &[
                "want ",
                "have ",
                "done",
                "thin-pack",
                "no-progress",
                "include-tag",
                "ofs-delta",
                "shallow ",
                "deepen ",
                "deepen-relative",
                "deepen-since ",
                "deepen-not ",
                "filter ",
                "want-ref ",
                "sideband-all",
            ],
            ls_refs_prefixes: &["symrefs", "peel", "ref-prefix ", "unborn"],
        }
    }
    /// The first argument lines of a request of version 2, in the order of the table.
    ///
    /// # Errors
    ///
    /// Only an allocation failure.
    pub fn initial_v2_arguments(
        &self,
        alloc: Global,
        command: Command,
        features: &[Feature],
    ) -> Result<Vec<BString>, AllocError>
        ensures { IfOk result (λ lines. texts lines ≡ initial_arguments (table_of self.now) command (feature_values features.now)) }
    {
        match command {
            Command::LsRefs => copies(alloc, self.ls_refs_arguments),
            Command::Fetch => lines_with(alloc, self.fetch_arguments, features),
        }
    }
}

fn push_copy(alloc: Global, lines: &mut Vec<BString>, line: &str) -> Result<(), AllocError>
    ensures { OnOk result (texts lines.new ≡ texts lines.old ++ line.now ∷ []) }
{
    lines.push(BString::from_slice(alloc, line)?)?;
    Ok(())
}

fn copies(alloc: Global, words: &[&'static str]) -> Result<Vec<BString>, AllocError>
    ensures { IfOk result (λ lines. texts lines ≡ words_of words.now) }
{
    let mut lines = Vec::new(alloc);
    for word in words {
        push_copy(alloc, &mut lines, word)?;
    }
    Ok(lines)
}

pub(crate) fn is_named(features: &[Feature], name: &str) -> bool
    ensures { result ≡ list_any (λ f. bytes_eq f.0.now name.now) features.now }
{
    features.iter().any(|feature| feature.0 == name)
}

pub(crate) fn has_feature(features: &[Feature], name: &str) -> bool
    ensures { result ≡ has_feature name.now (feature_values features.now) }
{
    is_named(features, name)
}

// Whether a line is sent with these features.
fn goes_with(features: &[Feature], only_with: Option<&'static str>) -> bool
    ensures { result ≡ goes_with (feature_values features.now) (option_copied only_with.entry) }
{
    match only_with {
        Some(name) => has_feature(features, name),
        None => true,
    }
}

// Appends the line of an entry if it is sent with these features.
fn push_given(
    alloc: Global,
    lines: &mut Vec<BString>,
    entry: &(&'static str, Option<&'static str>),
    features: &[Feature],
) -> Result<(), AllocError>
    ensures { OnOk result (texts lines.new ≡ texts lines.old ++ lines_with (feature_values features.now) (entry_of entry.now ∷ [])) }
{
    if goes_with(features, entry.1) {
        push_copy(alloc, lines, entry.0)?;
    }
    Ok(())
}

// The lines of the entries that are sent with these features.
fn lines_with(
    alloc: Global,
    entries: &[(&'static str, Option<&'static str>)],
    features: &[Feature],
) -> Result<Vec<BString>, AllocError>
    ensures { IfOk result (λ lines. texts lines ≡ lines_with (feature_values features.now) (entries_of entries.now)) }
{
    let mut lines = Vec::new(alloc);
    for entry in entries {
        push_given(alloc, &mut lines, entry, features)?;
    }
    Ok(lines)
}
