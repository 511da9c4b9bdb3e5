//! Ids of small histories.
ghost use Rattle.std.specs.Prelude.{◌≡◌, IfOk, map};
ghost use Rattle.gixp_doubles.specs.Ids.{numbered};

use gixp_hash::ObjectId;
use std::alloc::{AllocError, Global};

/// The id in which each byte is this number.
pub fn numbered_id(number: u8) -> ObjectId
    ensures { result ≡ numbered number }
{
    ObjectId {
        bytes: [number; 20],
    }
}

/// The ids with these numbers.
///
/// # Errors
///
/// Only when an allocation fails.
pub fn numbered_ids(alloc: Global, numbers: &[u8]) -> Result<Vec<ObjectId>, AllocError>
    ensures { IfOk result (λ ids. ids.items ≡ map numbered numbers.now) }
{
    numbers
        .iter()
        .map(|number| numbered_id(*number))
        .collect(alloc)
}
