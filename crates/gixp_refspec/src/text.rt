//! Texts joined from parts, for crates above too.
ghost use Rattle.std.specs.Prelude.{◌≡◌, ◌++◌, IfOk};
ghost use Rattle.bstr.specs.Owned.{bstring_bytes};

use bstr::BString;
use std::alloc::{AllocError, Global};

/// The three texts, one after another.
pub fn joined(
    alloc: Global,
    front: &[u8],
    middle: &[u8],
    back: &[u8],
) -> Result<BString, AllocError>
    ensures { IfOk result (λ text. bstring_bytes text ≡ front.now ++ (middle.now ++ back.now)) }
{
    let length = front.len().saturating_add(middle.len());
    let mut text = Vec::with_capacity(alloc, length.saturating_add(back.len()))?;
    text.extend_from_slice(front)?;
    text.extend_from_slice(middle)?;
    text.extend_from_slice(back)?;
    Ok(BString::new(text))
}
