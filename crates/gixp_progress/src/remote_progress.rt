//! A progress line.
ghost use Rattle.std.specs.Prelude.{◌≡◌, ◌≤◌, length};
ghost use Rattle.std.specs.Option.{option_map};
ghost use Rattle.std.specs.List.{position, position_or_len, before_first, after_first};
ghost use Rattle.gixp_progress.specs.Line.{is_colon, line_value, has_numbers, with_numbers, progress_line};

use crate::numbers::{Numbers, dealt};
use bstr::BStr;

/// The progress that a server reports in a line such as `Counting objects: 45% (9/20)` (gitprotocol-pack, "Packfile Data", band 2).
#[derive(Clone, Copy, Debug, PartialEq, Eq, PartialOrd, Ord, Hash)]
pub struct RemoteProgress<'a> {
    /// What the server is doing, such as `Counting objects`.
    pub action: BStr<'a>,
    /// The percentage done, as the server sent it. It may exceed 100.
    pub percent: Option<u32>,
    /// The number of steps done.
    pub step: Option<usize>,
    /// The number of all steps.
    pub max: Option<usize>,
}

// The offset of the first colon.
fn colon_in(line: &[u8]) -> Option<usize>
    ensures { result ≡ position is_colon line.now }
{
    line.iter().position(|byte| *byte == b':')
}

// The offset of the first colon, or the end.
fn colon_at(line: &[u8]) -> usize
    ensures place { result ≡ position_or_len is_colon line.now }
    ensures within { result ≤ length line.now }
{
    colon_in(line).unwrap_or(line.len())
}

// The text before the first colon.
fn action_in(line: &[u8]) -> &[u8]
    ensures { result.now ≡ before_first is_colon line.now }
{
    &line[..colon_at(line)]
}

// The text after the first colon.
fn after_colon(line: &[u8]) -> &[u8]
    ensures { result.now ≡ after_first is_colon line.now }
{
    let at = colon_at(line);
    if at < line.len() {
        &line[at + 1..]
    } else {
        b""
    }
}

fn has_numbers(numbers: Numbers) -> bool
    ensures { result ≡ has_numbers numbers }
{
    numbers.percent.is_some() || numbers.step.is_some() || numbers.max.is_some()
}

// `None` where all numbers are absent.
fn with_numbers(action: &[u8], numbers: Numbers) -> Option<RemoteProgress<'_>>
    ensures { option_map line_value result ≡ with_numbers action.now numbers }
{
    if !has_numbers(numbers) {
        return None;
    }
    Some(RemoteProgress {
        action: BStr::new(action),
        percent: numbers.percent,
        step: numbers.step,
        max: numbers.max,
    })
}

impl<'a> RemoteProgress<'a> {
    /// Reads a progress line. The text before its first colon is the action. The numbers are the runs of decimal digits after
    /// the colon, each as long as possible.
    ///
    /// - The first run is the percentage if `%` follows it. The percentage is `None` where it exceeds 32 bits.
    /// - The first run after the percentage is the step, the next one the maximum. Each is `None` where it exceeds 64 bits.
    /// - A first run that exceeds 64 bits is skipped.
    ///
    /// Returns `None` for a line without an action or without a number. It allocates nothing.
    pub fn from_bytes(line: &'a [u8]) -> Option<RemoteProgress<'a>>
        ensures { option_map line_value result ≡ progress_line line.now }
    {
        let action = action_in(line);
        if action.is_empty() {
            return None;
        }
        with_numbers(action, dealt(after_colon(line)))
    }
}
