//! The options for the depth of the history.
ghost use Rattle.std.specs.Prelude.{◌≡◌, ◌||◌, ℕ, List, None, Some, true, false, codes, map, MatchOption, IfOk, IfErr, IfSome, IfNone, OnSome};
ghost use Rattle.gixp_refspec.specs.PartialName.{name_bytes};
ghost use Rattle.gixp_shallow.specs.Shallow.{no_change, at_remote, deepens, shallow_value};
ghost use Rattle.gixp_fetch_cli.specs.CommandLine.{line_value};
ghost use Rattle.gixp_fetch_cli.specs.Choices.{value, has, values, has_cut, has_conflict, has_extent, has_two_extents, has_history, IsNumber, IsSeconds, CutsHistory, AsksHistory};
ghost use Rattle.gixp_fetch_cli.specs.Refusals.{is_cut, is_counted, is_extent, excludes_other, IsNoDepth, IsNoNumber, IsNoTime};
ghost use Rattle.gixp_fetch_cli.specs.Refusals.{RefusesOptions};

use crate::command_line::CommandLine;
use crate::options::OptionError;
use bstr::BString;
use gixp_refspec::PartialName;
use gixp_shallow::Shallow;
use std::alloc::Global;
use std::num::NonZeroU32;

fn depth_of(word: &str) -> Option<Shallow>
    ensures some { IfSome result (λ s. (n : ℕ) × IsNumber word.now n × (shallow_value s ≡ at_remote n)) }
    ensures none { IfNone result (IsNoDepth word.now) }
{
    match word.parse::<u32>() {
        Ok(number) => match NonZeroU32::new(number) {
            Some(depth) => Some(Shallow::DepthAtRemote(depth)),
            None => None,
        },
        Err(_) => None,
    }
}

fn deepening_of(word: &str) -> Option<Shallow>
    ensures some { IfSome result (λ s. (n : ℕ) × IsNumber word.now n × (shallow_value s ≡ deepens n)) }
    ensures none { IfNone result (IsNoNumber word.now) }
{
    match word.parse::<u32>() {
        Ok(number) => Some(Shallow::Deepen(number)),
        Err(_) => None,
    }
}

fn seconds_of(word: &str) -> Option<i64>
    ensures some { IfSome result (λ seconds. IsSeconds word.now seconds) }
    ensures none { IfNone result (IsNoTime word.now) }
{
    match word.parse::<i64>() {
        Ok(seconds) => Some(seconds),
        Err(_) => None,
    }
}

// The values of `--exclude`.
fn excluded<'a>(alloc: Global, line: &CommandLine<'a>) -> Result<Vec<PartialName>, OptionError<'a>>
    ensures ok { IfOk result (λ names. map name_bytes names.items ≡ values (line_value line.now) (codes "--exclude")) }
    ensures err { IfErr result (λ e. RefusesOptions (line_value line.now) e) }
{
    let mut names = Vec::new(alloc);
    for setting in &line.settings {
        if setting.name == "--exclude" {
            match PartialName::new(BString::from_slice(alloc, setting.value.as_bytes())?) {
                Ok(name) => names.push(name)?,
                Err(_) => {
                    return Err(OptionError::Value {
                        name: "--exclude",
                        value: setting.value,
                    });
                }
            }
        }
    }
    Ok(names)
}

// The value of `--since`, if it is present.
fn cutoff_of<'a>(line: &CommandLine<'a>) -> Result<Option<i64>, OptionError<'a>>
    ensures ok { IfOk result (λ cutoff. MatchOption cutoff (value (line_value line.now) (codes "--since") ≡ None)
        (λ t. (word : List ℕ) × (value (line_value line.now) (codes "--since") ≡ Some word) × IsSeconds word t)) }
    ensures err { IfErr result (λ e. RefusesOptions (line_value line.now) e) }
{
    let Some(word) = line.value("--since") else {
        return Ok(None);
    };
    match seconds_of(word) {
        Some(seconds) => Ok(Some(seconds)),
        None => Err(OptionError::Value {
            name: "--since",
            value: word,
        }),
    }
}

// The history by `--since` and `--exclude`.
fn cut<'a>(alloc: Global, line: &CommandLine<'a>) -> Result<Shallow, OptionError<'a>>
    ensures ok { IfOk result (λ s. CutsHistory (line_value line.now) (shallow_value s)) }
    ensures err { IfErr result (λ e. RefusesOptions (line_value line.now) e) }
{
    let since_cutoff = cutoff_of(line)?;
    if line.has("--exclude") {
        return Ok(Shallow::Exclude {
            remote_refs: excluded(alloc, line)?,
            since_cutoff,
        });
    }
    match since_cutoff {
        Some(cutoff) => Ok(Shallow::Since { cutoff }),
        None => Ok(Shallow::NoChange),
    }
}

// `--since` or `--exclude`, if one is present.
fn cut_in(line: &CommandLine<'_>) -> Option<&'static str>
    ensures there { IfSome result (λ name. has (line_value line.now) name.now ≡ true) }
    ensures cut { IfSome result (λ name. is_cut name.now ≡ true) }
    ensures some { OnSome result (has_cut (line_value line.now) ≡ true) }
    ensures none { IfNone result (has_cut (line_value line.now) ≡ false) }
{
    if line.has("--since") {
        Some("--since")
    } else if line.has("--exclude") {
        Some("--exclude")
    } else {
        None
    }
}

// `--depth` or `--deepen`, if one is present.
fn counted_in(line: &CommandLine<'_>) -> Option<&'static str>
    ensures there { IfSome result (λ name. has (line_value line.now) name.now ≡ true) }
    ensures counted { IfSome result (λ name. is_counted name.now ≡ true) }
    ensures some { OnSome result ((has (line_value line.now) (codes "--depth") || has (line_value line.now) (codes "--deepen")) ≡ true) }
    ensures none { IfNone result ((has (line_value line.now) (codes "--depth") || has (line_value line.now) (codes "--deepen")) ≡ false) }
{
    if line.has("--depth") {
        Some("--depth")
    } else if line.has("--deepen") {
        Some("--deepen")
    } else {
        None
    }
}

// `--unshallow`, `--depth` or `--deepen`, if one is present.
fn extent_in(line: &CommandLine<'_>) -> Option<&'static str>
    ensures there { IfSome result (λ name. has (line_value line.now) name.now ≡ true) }
    ensures extent { IfSome result (λ name. is_extent name.now ≡ true) }
    ensures some { OnSome result (has_extent (line_value line.now) ≡ true) }
    ensures none { IfNone result (has_extent (line_value line.now) ≡ false) }
{
    if line.has("--unshallow") {
        Some("--unshallow")
    } else {
        counted_in(line)
    }
}

// Two options of `--unshallow`, `--depth` and `--deepen`, if two are present.
#[tactic(auto, using(crate::proofs::OptionLemmas::two_extents))]
fn two_extents(line: &CommandLine<'_>) -> Option<(&'static str, &'static str)>
    ensures none { IfNone result (has_two_extents (line_value line.now) ≡ false) }
    ensures some { OnSome result (has_two_extents (line_value line.now) ≡ true) }
    ensures one { IfSome result (λ pair. has (line_value line.now) pair.0.now ≡ true) }
    ensures other { IfSome result (λ pair. has (line_value line.now) pair.1.now ≡ true) }
    ensures apart { IfSome result (λ pair. excludes_other pair.0.now pair.1.now ≡ true) }
{
    if line.has("--unshallow") {
        return match counted_in(line) {
            Some(counted) => Some(("--unshallow", counted)),
            None => None,
        };
    }
    if !line.has("--depth") {
        return None;
    }
    if !line.has("--deepen") {
        return None;
    }
    Some(("--depth", "--deepen"))
}

// Two options that are present and can't be used together.
#[tactic(auto, using(crate::proofs::OptionLemmas::conflicts))]
fn conflict(line: &CommandLine<'_>) -> Option<(&'static str, &'static str)>
    ensures none { MatchOption result (has_conflict (line_value line.now) ≡ false) (λ pair. has_conflict (line_value line.now) ≡ true) }
    ensures one { IfSome result (λ pair. has (line_value line.now) pair.0.now ≡ true) }
    ensures other { IfSome result (λ pair. has (line_value line.now) pair.1.now ≡ true) }
    ensures apart { IfSome result (λ pair. excludes_other pair.0.now pair.1.now ≡ true) }
{
    match two_extents(line) {
        Some(pair) => return Some(pair),
        None => {}
    }
    match cut_in(line) {
        Some(cut) => match extent_in(line) {
            Some(extent) => Some((cut, extent)),
            None => None,
        },
        None => None,
    }
}

// The depth that the options ask for.
fn shallow_of<'a>(alloc: Global, line: &CommandLine<'a>) -> Result<Shallow, OptionError<'a>>
    ensures ok { IfOk result (λ s. AsksHistory (line_value line.now) (shallow_value s)) }
    ensures err { IfErr result (λ e. RefusesOptions (line_value line.now) e) }
{
    if let Some((one, other)) = conflict(line) {
        return Err(OptionError::Conflict(one, other));
    }
    if line.has("--unshallow") {
        return Ok(Shallow::undo());
    }
    if let Some(word) = line.value("--depth") {
        return match depth_of(word) {
            Some(shallow) => Ok(shallow),
            None => Err(OptionError::Value {
                name: "--depth",
                value: word,
            }),
        };
    }
    if let Some(word) = line.value("--deepen") {
        return match deepening_of(word) {
            Some(shallow) => Ok(shallow),
            None => Err(OptionError::Value {
                name: "--deepen",
                value: word,
            }),
        };
    }
    cut(alloc, line)
}

// Whether an option for the depth is present.
fn has_history(line: &CommandLine<'_>) -> bool
    ensures { result ≡ has_history (line_value line.now) }
{
    cut_in(line).is_some() || extent_in(line).is_some()
}

/// The depth that the options ask for.
///
/// # Errors
///
/// A value that can't be read, options that can't be used together, or a depth without `--shallow`, the file of the boundary.
pub(crate) fn kept_shallow_of<'a>(
    alloc: Global,
    line: &CommandLine<'a>,
) -> Result<Shallow, OptionError<'a>>
    ensures ok { IfOk result (λ s. AsksHistory (line_value line.now) (shallow_value s)) }
    ensures kept { IfOk result (λ s. has (line_value line.now) (codes "--shallow") ≡ false → shallow_value s ≡ no_change) }
    ensures err { IfErr result (λ e. RefusesOptions (line_value line.now) e) }
{
    let shallow = shallow_of(alloc, line)?;
    if line.has("--shallow") || !has_history(line) {
        return Ok(shallow);
    }
    Err(OptionError::Needs("a depth", "--shallow"))
}
