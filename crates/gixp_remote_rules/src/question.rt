//! The questions to git: arguments and environment variables.
ghost use Rattle.std.specs.Prelude.{◌≡◌, ◌++◌, IfOk, OnOk, map};
ghost use Rattle.std.specs.Option.{option_map};
ghost use Rattle.bstr.specs.Owned.{bstring_bytes};
ghost use Rattle.gixp_remote_rules.specs.Questions.{commit_argv, object_argv, number_argv, path_argv, time_argv, message_argv, connected_argv, question_argv, limit_argv, listing_argv};
ghost use Rattle.gixp_remote_rules.specs.Questions.{within_of, question_variables, pack_variables};

use crate::argv::{add, add_all, add_names, concat, shallow_argv};
use bstr::BString;
use std::alloc::{AllocError, Global};

/// A question to git about the repository or the configuration.
#[derive(Clone, Copy)]
pub enum Question<'a> {
    /// The hash function, and the paths of the shallow boundary and the objects.
    Paths,
    /// The objects that refs point to, and what tags among them point to. Refs of alternates count
    /// too.
    Refs,
    /// The commits that the refs reach.
    Commits,
    /// The path of a list of objects that aren't checked, by the value of its entry.
    SkipList(&'a [u8]),
    /// The number in a configuration entry.
    Number(&'a [u8]),
    /// A time in seconds.
    Time(&'a [u8]),
    /// Whether git knows this fsck message. The arguments have an unknown option, so git prints its
    /// usage then.
    Check(&'a [u8]),
    /// Which of these ids are present.
    Present,
    /// Whether everything that ids reach is present, under the boundary in this file. An empty path
    /// means no boundary.
    Connected(&'a [u8]),
    /// Whether everything that ids reach is present. What the refs reach isn't checked.
    ConnectedToRefs,
}

fn argv_of(alloc: Global, names: &[&str]) -> Result<Vec<BString>, AllocError>
    ensures { IfOk result (λ argv. map bstring_bytes argv.items ≡ map (λ n. n.now) names.now) }
{
    let mut argv = Vec::new(alloc);
    add_names(alloc, &mut argv, names)?;
    Ok(argv)
}

// The arguments that list the commits. git skips a ref whose object is missing only if
// `--ignore-missing` precedes `--all`.
fn commit_argv(alloc: Global) -> Result<Vec<BString>, AllocError>
    ensures { IfOk result (λ argv. map bstring_bytes argv.items ≡ commit_argv) }
{
    argv_of(
        alloc,
        &[
            "rev-list",
            "--missing=allow-any",
            "--ignore-missing",
            "--timestamp",
            "--parents",
            "--all",
            "--alternate-refs",
        ],
    )
}

// The arguments that list objects, and what tags among them point to. Missing objects are skipped.
fn object_argv(alloc: Global, named: &[&str]) -> Result<Vec<BString>, AllocError>
    ensures { IfOk result (λ argv. map bstring_bytes argv.items ≡ object_argv (map (λ n. n.now) named.now)) }
{
    let mut argv = argv_of(
        alloc,
        &[
            "rev-list",
            "--missing=allow-any",
            "--ignore-missing",
            "--no-walk=unsorted",
            "--objects",
            "--filter=tree:0",
        ],
    )?;
    add_names(alloc, &mut argv, named)?;
    Ok(argv)
}

// The arguments that check connectivity without listing objects.
fn connected_argv(
    alloc: Global,
    shallow: Option<&[u8]>,
    named: &[&str],
) -> Result<Vec<BString>, AllocError>
    ensures { IfOk result (λ argv. map bstring_bytes argv.items
        ≡ connected_argv (option_map (λ s. s.now) shallow.entry) (map (λ n. n.now) named.now)) }
{
    let mut argv = shallow_argv(alloc, shallow)?;
    add_names(
        alloc,
        &mut argv,
        &[
            "rev-list",
            "--objects",
            "--quiet",
            "--exclude-promisor-objects",
            "--stdin",
        ],
    )?;
    add_names(alloc, &mut argv, named)?;
    Ok(argv)
}

fn time_argv(alloc: Global, since: &[u8]) -> Result<Vec<BString>, AllocError>
    ensures { IfOk result (λ argv. map bstring_bytes argv.items ≡ time_argv since.now) }
{
    let time = concat(alloc, &[b"--since=", since])?;
    let mut argv = argv_of(alloc, &["rev-parse"])?;
    add(alloc, &mut argv, &time)?;
    Ok(argv)
}

fn number_argv(alloc: Global, name: &[u8]) -> Result<Vec<BString>, AllocError>
    ensures { IfOk result (λ argv. map bstring_bytes argv.items ≡ number_argv name.now) }
{
    let mut argv = argv_of(alloc, &["config", "--type=int", "--get"])?;
    add(alloc, &mut argv, name)?;
    Ok(argv)
}

// The arguments that print the path in an entry. git expands `~`, and prints a NUL byte after it.
fn path_argv(alloc: Global, value: &[u8]) -> Result<Vec<BString>, AllocError>
    ensures { IfOk result (λ argv. map bstring_bytes argv.items ≡ path_argv value.now) }
{
    let mut argv = argv_of(
        alloc,
        &[
            "config",
            "--type=path",
            "--null",
            "--fixed-value",
            "--get",
            "fetch.fsck.skiplist",
        ],
    )?;
    add(alloc, &mut argv, value)?;
    Ok(argv)
}

fn message_argv(alloc: Global, name: &[u8]) -> Result<Vec<BString>, AllocError>
    ensures { IfOk result (λ argv. map bstring_bytes argv.items ≡ message_argv name.now) }
{
    let strict = concat(alloc, &[b"--strict=", name, b"=error"])?;
    let mut argv = argv_of(alloc, &["index-pack"])?;
    add(alloc, &mut argv, &strict)?;
    add(alloc, &mut argv, b"--no-such-word")?;
    Ok(argv)
}

/// The arguments of a question.
///
/// # Errors
///
/// Only when an allocation fails.
pub fn question_argv(alloc: Global, question: Question<'_>) -> Result<Vec<BString>, AllocError>
    ensures { IfOk result (λ argv. map bstring_bytes argv.items ≡ question_argv question.entry) }
{
    match question {
        Question::Paths => argv_of(
            alloc,
            &[
                "rev-parse",
                "--show-object-format",
                "--path-format=absolute",
                "--git-path",
                "shallow",
                "--git-path",
                "objects",
            ],
        ),
        Question::Refs => object_argv(alloc, &["--all", "--alternate-refs"]),
        Question::Commits => commit_argv(alloc),
        Question::SkipList(value) => path_argv(alloc, value),
        Question::Number(name) => number_argv(alloc, name),
        Question::Time(since) => time_argv(alloc, since),
        Question::Check(name) => message_argv(alloc, name),
        Question::Present => object_argv(alloc, &["--stdin"]),
        Question::Connected(shallow) => connected_argv(alloc, Some(shallow), &[]),
        Question::ConnectedToRefs => {
            connected_argv(alloc, None, &["--not", "--all", "--alternate-refs"])
        }
    }
}

fn add_limit(alloc: Global, argv: &mut Vec<BString>, limit: Option<&[u8]>) -> Result<(), AllocError>
    ensures { OnOk result (map bstring_bytes argv.new.items
        ≡ map bstring_bytes argv.old.items ++ limit_argv (option_map (λ m. m.now) limit.entry)) }
{
    if let Some(limit) = limit {
        add(alloc, argv, b"-n")?;
        add(alloc, argv, limit)?;
    }
    Ok(())
}

/// The arguments that list the commits for haves, at most `limit` of them.
///
/// # Errors
///
/// Only when an allocation fails.
pub fn listing_argv(alloc: Global, limit: Option<&[u8]>) -> Result<Vec<BString>, AllocError>
    ensures { IfOk result (λ argv. map bstring_bytes argv.items ≡ listing_argv (option_map (λ m. m.now) limit.entry)) }
{
    let mut argv = commit_argv(alloc)?;
    add_limit(alloc, &mut argv, limit)?;
    Ok(argv)
}

/// The work of an outer helper that made git start this one (`GIXP_WITHIN`).
#[derive(Clone, Copy, Debug, PartialEq, Eq)]
pub enum Within {
    /// There is no outer helper.
    Nothing,
    /// git indexes the outer helper's pack. Promised objects that the pack needs may be fetched.
    Pack,
    /// git answers a question of the outer helper. Nothing may be fetched.
    Question,
}

/// The work of the outer helper, by the variable.
pub fn within_of(variable: Option<&[u8]>) -> Within
    ensures { result ≡ within_of (option_map (λ v. v.now) variable.entry) }
{
    match variable {
        None => Within::Nothing,
        Some(word) if word == b"pack".as_slice() => Within::Pack,
        Some(_) => Within::Question,
    }
}

/// The variables of git when it answers a question, followed by `more`. git must not fetch promised
/// objects. A newer git obeys the first variable. An older one starts a helper, which sees the
/// second and ends.
///
/// # Errors
///
/// Only when an allocation fails.
pub fn question_variables(alloc: Global, more: &[BString]) -> Result<Vec<BString>, AllocError>
    ensures { IfOk result (λ all. map bstring_bytes all.items ≡ question_variables (map bstring_bytes more.now)) }
{
    let mut all = argv_of(alloc, &["GIT_NO_LAZY_FETCH=1", "GIXP_WITHIN=question"])?;
    add_all(alloc, &mut all, more)?;
    Ok(all)
}

/// The variables of git when it indexes a pack, followed by `more`. git may fetch promised objects
/// that the pack needs. A helper that it starts for that may not.
///
/// # Errors
///
/// Only when an allocation fails.
pub fn pack_variables(
    alloc: Global,
    within: Within,
    more: &[BString],
) -> Result<Vec<BString>, AllocError>
    ensures { IfOk result (λ all. map bstring_bytes all.items ≡ pack_variables within (map bstring_bytes more.now)) }
{
    match within {
        Within::Pack | Within::Question => question_variables(alloc, more),
        Within::Nothing => {
            let mut all = argv_of(alloc, &["GIXP_WITHIN=pack"])?;
            add_all(alloc, &mut all, more)?;
            Ok(all)
        }
    }
}
