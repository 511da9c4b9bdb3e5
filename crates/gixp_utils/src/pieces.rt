//! A text made of pieces.
ghost use Rattle.std.specs.Prelude.{ℕ, ◌≡◌, ◌++◌, OnOk, OnErr, flat_map, take};

use std::alloc::AllocError;

/// Appends these pieces to the text, one after the other.
///
/// # Errors
///
/// An allocation failure. The text then has the pieces before the one that failed.
#[inline(always)]
pub fn append(text: &mut Vec<u8>, pieces: &[&[u8]]) -> Result<(), AllocError>
    ensures all { OnOk result (text.new.items ≡ text.old.items ++ flat_map (λ piece. piece.now) pieces.now) }
    ensures some { OnErr result ((n : ℕ) × (text.new.items ≡ text.old.items ++ flat_map (λ piece. piece.now) (take n pieces.now))) }
{
    for piece in pieces {
        text.extend_from_slice(piece)?;
    }
    Ok(())
}
