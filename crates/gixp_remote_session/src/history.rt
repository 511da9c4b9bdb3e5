//! The depth of a fetch.
ghost use Rattle.std.specs.Prelude.{◌≡◌, ◌∷◌, [], ◌++◌, false, map, is_some, IfOk, IsOk, OnOk};
ghost use Rattle.bstr.specs.Owned.{bstring_bytes};
ghost use Rattle.gix_protocol.specs.PartialName.{name_bytes};
ghost use Rattle.gix_protocol.specs.Shallow.{shallow_value};
ghost use Rattle.gixp_remote_session.specs.History.{has_two_limits, limits_by, IsPart, IsRequested};

use crate::error::Error;
use crate::shell::Shell;
use bstr::{BString, ByteSlice};
use gix_protocol::fetch::Shallow;
use gix_protocol::refspec::PartialName;
use gixp_remote_rules::{Depth, HelperOptions, Question, time_answer};
use std::alloc::Global;
use std::num::NonZeroU32;

// A time in seconds, as git parses it.
fn seconds_of(rt: &HostRuntime, shell: &mut Shell, since: &[u8]) -> Result<i64, Error> {
    let alloc = rt.alloc();
    let output = shell.ask_git(rt, Question::Time(since))?;
    let Some(digits) = time_answer(&output.text, output.status) else {
        return Err(Error::with_text(alloc, "this is not a time:", since));
    };
    match digits.to_str() {
        Ok(digits) => match digits.parse::<i64>() {
            Ok(seconds) => Ok(seconds),
            Err(_) => Err(Error::with_text(alloc, "this is not a time:", since)),
        },
        Err(_) => Err(Error::with_text(alloc, "this is not a time:", since)),
    }
}

fn add_name(alloc: Global, names: &mut Vec<PartialName>, word: &[u8]) -> Result<(), Error>
    ensures { OnOk result (map name_bytes names.new.items ≡ map name_bytes names.old.items ++ word.now ∷ []) }
{
    match PartialName::new(BString::from_slice(alloc, word)?) {
        Ok(name) => {
            names.push(name)?;
            Ok(())
        }
        Err(_) => Err(Error::with_text(alloc, "this is not the name of a ref:", word)),
    }
}

// The names of the excluded refs.
fn names_of(alloc: Global, excluded: &[BString]) -> Result<Vec<PartialName>, Error>
    ensures { IfOk result (λ names. map name_bytes names.items ≡ map bstring_bytes excluded.now) }
{
    let mut names = Vec::new(alloc);
    for word in excluded {
        add_name(alloc, &mut names, word.as_bytes())?;
    }
    Ok(names)
}

// The limits by excluded refs and by a time in seconds.
fn limits_by(
    alloc: Global,
    excluded: &[BString],
    since_cutoff: Option<i64>,
) -> Result<Shallow, Error>
    ensures limits { IfOk result (λ s. shallow_value s ≡ limits_by excluded.now since_cutoff) }
    ensures part { IfOk result (λ s. IsPart excluded.now (is_some since_cutoff) (shallow_value s)) }
{
    if !excluded.is_empty() {
        return Ok(Shallow::Exclude {
            remote_refs: names_of(alloc, excluded)?,
            since_cutoff,
        });
    }
    match since_cutoff {
        Some(cutoff) => Ok(Shallow::Since { cutoff }),
        None => Ok(Shallow::NoChange),
    }
}

// The limits by a time and by excluded refs.
fn limits_of(rt: &HostRuntime, shell: &mut Shell, options: &HelperOptions) -> Result<Shallow, Error>
    ensures { IfOk result (λ s. IsPart options.now.excluded.items (is_some options.now.since) (shallow_value s)) }
{
    let since_cutoff = match &options.since {
        Some(since) => Some(seconds_of(rt, shell, since.as_bytes())?),
        None => None,
    };
    limits_by(rt.alloc(), &options.excluded, since_cutoff)
}

// Whether a depth is set and a time or an excluded ref too. No server accepts both.
fn has_two_limits(options: &HelperOptions) -> bool
    ensures { result ≡ has_two_limits options.now.depth options.now.excluded.items (is_some options.now.since) }
{
    match options.depth {
        Depth::Any => false,
        Depth::Commits(_) | Depth::All => options.since.is_some() || !options.excluded.is_empty(),
    }
}

/// The limits that git's options ask for.
pub(crate) fn shallow_of(
    rt: &HostRuntime,
    shell: &mut Shell,
    options: &HelperOptions,
) -> Result<Shallow, Error>
    ensures requested { IfOk result (λ s. IsRequested options.now.depth options.now.is_relative options.now.excluded.items
        (is_some options.now.since) (shallow_value s)) }
    ensures single { IsOk result → has_two_limits options.now.depth options.now.excluded.items (is_some options.now.since) ≡ false }
{
    if has_two_limits(options) {
        return Err(Error::Fatal("deepen and deepen-since (or deepen-not) cannot be used together"));
    }
    match options.depth {
        Depth::All => Ok(Shallow::undo()),
        Depth::Commits(count) => match NonZeroU32::new(count) {
            Some(depth) => {
                if options.is_relative {
                    Ok(Shallow::Deepen(count))
                } else {
                    Ok(Shallow::DepthAtRemote(depth))
                }
            }
            None => Ok(Shallow::NoChange),
        },
        Depth::Any => limits_of(rt, shell, options),
    }
}
