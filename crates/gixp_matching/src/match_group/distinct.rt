//! Keeps the first of equal mappings.
ghost use Rattle.std.specs.Prelude.{◌≡◌, ◌∷◌, ◌++◌, IfOk, IsTrue, OnOk, [], map};
ghost use Rattle.std.specs.List.{list_all};
ghost use Rattle.gixp_matching.specs.Apart.{parts, key_parts};
ghost use Rattle.gixp_matching.specs.Digest.{number_parts, parts_digest, with_digest};
ghost use Rattle.gixp_matching.specs.Mappings.{firsts};
ghost use Rattle.gixp_matching.specs.Firsts.{first_flags, flagged, FlagsFirsts};
ghost use Rattle.gixp_matching.specs.Placed.{placed, placed_from};

use crate::match_group::digest::key_digest;
use crate::match_group::key::{AsMapping, Key};
use crate::match_group::sorted::{are_distinct, rises};
use gixp_utils::first_flags;
use std::alloc::{AllocError, Global};

// A source and a local name after their hash, so that mostly only hashes are compared.
type Numbered<'k, 'a> = (u64, &'k Key<'a>);

// Whether the source and the local name of each mapping are above the previous mapping's, so that no two are equal.
fn are_in_order<M: AsMapping>(mappings: &[M]) -> bool
    ensures { IsTrue result → firsts (map M.mapped mappings.now) ≡ map M.mapped mappings.now }
{
    let mut last = None;
    'mappings: for mapping in mappings {
        if !rises(&mut last, mapping.key()) {
            return false;
        }
    }
    true
}

// The hash of the source and the local name of each mapping.
fn key_digests<M: AsMapping>(alloc: Global, mappings: &[M]) -> Result<Vec<u64>, AllocError>
    ensures { IfOk result (λ digests. digests.items ≡ map (λ m. parts_digest (parts m)) (map M.mapped mappings.now)) }
{
    let mut digests = Vec::with_capacity(alloc, mappings.len())?;
    'mappings: for mapping in mappings {
        digests.push(key_digest(&mapping.key()))?;
    }
    Ok(digests)
}

// Whether all hashes differ, so that no two mappings have the same source and local name.
fn are_apart<M: AsMapping>(alloc: Global, mappings: &[M]) -> Result<bool, AllocError>
    ensures { IfOk result (λ d. IsTrue d → firsts (map M.mapped mappings.now) ≡ map M.mapped mappings.now) }
{
    let digests = key_digests(alloc, mappings)?;
    Ok(are_distinct(digests))
}

fn push_key<'a, M: AsMapping>(mapping: &'a M, keys: &mut Vec<Key<'a>>) -> Result<(), AllocError>
    ensures { OnOk result (map key_parts keys.new.items ≡ map key_parts keys.old.items ++ parts (M.mapped mapping.now) ∷ []) }
{
    keys.push(mapping.key())?;
    Ok(())
}

fn keys_of<M: AsMapping>(alloc: Global, mappings: &[M]) -> Result<Vec<Key<'_>>, AllocError>
    ensures { IfOk result (λ keys. map key_parts keys.items ≡ map parts (map M.mapped mappings.now)) }
{
    let mut keys = Vec::with_capacity(alloc, mappings.len())?;
    'mappings: for mapping in mappings {
        push_key(mapping, &mut keys)?;
    }
    Ok(keys)
}

// Appends a key with its hash and its index.
fn push_row<'k, 'a>(
    rows: &mut Vec<(Numbered<'k, 'a>, usize)>,
    place: usize,
    key: &'k Key<'a>,
) -> Result<(), AllocError>
    ensures { OnOk result (map (placed number_parts) rows.new.items
        ≡ map (placed number_parts) rows.old.items ++ (with_digest (key_parts key.now), place) ∷ []) }
{
    rows.push(((key_digest(key), key), place))?;
    Ok(())
}

// The keys with their hashes and indices.
fn rows_of<'k, 'a>(
    alloc: Global,
    keys: &'k [Key<'a>],
) -> Result<Vec<(Numbered<'k, 'a>, usize)>, AllocError>
    ensures { IfOk result (λ rows. map (placed number_parts) rows.items
        ≡ placed_from 0 (map (λ key. with_digest (key_parts key)) keys.now)) }
{
    let mut rows = Vec::with_capacity(alloc, keys.len())?;
    'keys: for (place, key) in keys.iter().enumerate() {
        push_row(&mut rows, place, key)?;
    }
    Ok(rows)
}

// For each mapping, whether it is the first with its source and local name. None where their order or their hashes
// show that each is; no list of keys is made then.
fn flags_of<M: AsMapping>(alloc: Global, mappings: &[M]) -> Result<Option<Vec<bool>>, AllocError>
    ensures { IfOk result (FlagsFirsts (map M.mapped mappings.now)) }
{
    if are_in_order(mappings) {
        return Ok(None);
    }
    if are_apart(alloc, mappings)? {
        return Ok(None);
    }
    let keys = keys_of(alloc, mappings)?;
    let rows = rows_of(alloc, &keys)?;
    let flags = first_flags(alloc, rows)?;
    Ok(Some(flags))
}

// The mappings whose flag is set.
fn flagged<M: Drop>(alloc: Global, mappings: Vec<M>, flags: Vec<bool>) -> Result<Vec<M>, AllocError>
    ensures { IfOk result (λ kept. kept.items ≡ flagged mappings.items flags.items) }
{
    mappings
        .into_iter()
        .zip(flags)
        .filter(|(_, is_first)| *is_first)
        .map(|(mapping, _)| mapping)
        .collect(alloc)
}

// Whether all flags are set.
fn are_all(flags: &[bool]) -> bool
    ensures { result ≡ list_all (λ flag. flag) flags.now }
{
    flags.iter().all(|flag| *flag)
}

/// Keeps the first of the mappings with equal source and local name. Mostly no two are equal; then no mapping is moved.
///
/// # Errors
///
/// Only an allocation failure. The mappings are dropped then.
pub fn firsts<M: AsMapping + Drop>(alloc: Global, mappings: Vec<M>) -> Result<Vec<M>, AllocError>
    ensures values { IfOk result (λ kept. map M.mapped kept.items ≡ firsts (map M.mapped mappings.items)) }
    ensures flags { IfOk result (λ kept. kept.items ≡ flagged mappings.items (first_flags [] (map M.mapped mappings.items))) }
{
    let Some(flags) = flags_of(alloc, &mappings)? else {
        return Ok(mappings);
    };
    if are_all(&flags) {
        return Ok(mappings);
    }
    flagged(alloc, mappings, flags)
}
