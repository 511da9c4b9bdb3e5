//! The environment of a process. A variable may have any bytes but NUL.
ghost use Rattle.std.specs.Prelude.{◌≡◌, ◌++◌, ◌∷◌, [], IfOk, map};
ghost use Rattle.std.specs.Option.{option_map};
ghost use Rattle.bstr.specs.BStr.{bstr_bytes};
ghost use Rattle.gixp_remote_rules.specs.Environment.{value_after, first_value, variable_in};

use crate::config::pieces_of;
use bstr::BStr;
use std::alloc::{AllocError, Global};

// The value of a line that begins with a name and an equals sign.
fn value_after<'a>(line: &'a [u8], front: &[u8]) -> Option<&'a [u8]>
    ensures { option_map (λ v. v.now) result ≡ value_after line.now front.now }
{
    match line.strip_prefix(front) {
        Some(value) => Some(value),
        None => None,
    }
}

// The value in the first such line.
fn first_value<'a>(lines: &[BStr<'a>], front: &[u8]) -> Option<&'a [u8]>
    ensures { option_map (λ v. v.now) result ≡ first_value (map bstr_bytes lines.now) front.now }
{
    'lines: for line in lines {
        if let Some(value) = value_after(line.as_bytes(), front) {
            return Some(value);
        }
    }
    None
}

fn front_of(alloc: Global, name: &[u8]) -> Result<Vec<u8>, AllocError>
    ensures { IfOk result (λ front. front.items ≡ name.now ++ 61 ∷ []) }
{
    let mut front = Vec::from_slice(alloc, name)?;
    front.push(b'=')?;
    Ok(front)
}

/// The value of a variable in the environment of a process (proc(5), `/proc/PID/environ`). `None` if
/// it isn't set.
///
/// # Errors
///
/// Only when an allocation fails.
pub fn variable_in<'a>(
    alloc: Global,
    environment: &'a [u8],
    name: &[u8],
) -> Result<Option<&'a [u8]>, AllocError>
    ensures { IfOk result (λ value. option_map (λ v. v.now) value ≡ variable_in environment.now name.now) }
{
    let front = front_of(alloc, name)?;
    let lines = pieces_of(alloc, environment)?;
    Ok(first_value(&lines, &front))
}
