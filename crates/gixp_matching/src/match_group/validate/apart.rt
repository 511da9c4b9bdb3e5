//! Whether mappings have different local names.
ghost use Rattle.std.specs.Prelude.{List, ◌≡◌, ◌++◌, IsTrue, IfOk, OnOk, map, option_to_list};
ghost use Rattle.std.specs.List.{IsDistinct};
ghost use Rattle.std.specs.Str.{bytes_eq};
ghost use Rattle.gixp_matching.specs.Apart.{by_bytes, locals};
ghost use Rattle.gixp_matching.specs.Digest.{digest};
ghost use Rattle.gixp_matching.specs.MatchGroup.{key_bytes};
ghost use Rattle.gixp_matching.specs.Rising.{RisesTo};

use crate::match_group::digest::name_digest;
use crate::match_group::key::{AsMapping, KeyBytes};
use crate::match_group::sorted::{are_distinct, rises};
use std::alloc::{AllocError, Global};

/// Makes the local name of a mapping, if it has one, the last one. Returns whether it is above the previous one.
pub(crate) fn local_rises<'a, M: AsMapping>(last: &mut Option<KeyBytes<'a>>, mapping: &'a M) -> bool
    ensures { IsTrue result → (keys : List KeyBytes) → RisesTo by_bytes keys last.old → (more : List KeyBytes)
        × (map key_bytes more ≡ option_to_list (M.mapped mapping.now).local) × RisesTo by_bytes (keys ++ more) last.new }
{
    match mapping.key().1 {
        None => true,
        Some(name) => rises(last, name),
    }
}

// Whether each local name is above the previous one, so that no two are equal.
fn are_in_order<M: AsMapping>(mappings: &[M]) -> bool
    ensures { IsTrue result → IsDistinct bytes_eq (locals (map M.mapped mappings.now)) }
{
    let mut last = None;
    'mappings: for mapping in mappings {
        if !local_rises(&mut last, mapping) {
            return false;
        }
    }
    true
}

// Appends the hash of the local name of a mapping, if it has one.
fn push_digest<M: AsMapping>(mapping: &M, digests: &mut Vec<u64>) -> Result<(), AllocError>
    ensures { OnOk result (digests.new.items ≡ digests.old.items ++ map digest (option_to_list (M.mapped mapping.now).local)) }
{
    if let Some(name) = mapping.key().1 {
        digests.push(name_digest(&name))?;
    }
    Ok(())
}

// The hashes of the local names.
fn local_digests<M: AsMapping>(alloc: Global, mappings: &[M]) -> Result<Vec<u64>, AllocError>
    ensures { IfOk result (λ digests. digests.items ≡ map digest (locals (map M.mapped mappings.now))) }
{
    let mut digests = Vec::with_capacity(alloc, mappings.len())?;
    'mappings: for mapping in mappings {
        push_digest(mapping, &mut digests)?;
    }
    Ok(digests)
}

/// Whether the order of the local names, or their hashes, show that no two are equal.
pub(crate) fn are_apart<M: AsMapping>(alloc: Global, mappings: &[M]) -> Result<bool, AllocError>
    ensures { IfOk result (λ d. IsTrue d → IsDistinct bytes_eq (locals (map M.mapped mappings.now))) }
{
    if are_in_order(mappings) {
        return Ok(true);
    }
    let digests = local_digests(alloc, mappings)?;
    Ok(are_distinct(digests))
}
