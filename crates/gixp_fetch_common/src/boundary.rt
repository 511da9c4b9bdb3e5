//! The shallow boundary that a fetch writes.
ghost use Rattle.std.specs.Prelude.{option_map, IfOk};
ghost use Rattle.gixp_fetch_common.specs.ChangedBoundary.{ChangesTo};

use gixp_hash::ObjectId;
use std::alloc::{AllocError, Global};

/// The boundary to write after a fetch: a copy of the new one, or none if it is the old one (gitrepository-layout, "shallow").
///
/// # Errors
///
/// Only when an allocation fails.
pub fn boundary_to_write(
    alloc: Global,
    old: &[ObjectId],
    new: &[ObjectId],
) -> Result<Option<Vec<ObjectId>>, AllocError>
    ensures { IfOk result (λ written. ChangesTo old.now new.now (option_map (λ v. v.items) written)) }
{
    if new == old {
        Ok(None)
    } else {
        Ok(Some(Vec::from_slice(alloc, new)?))
    }
}
