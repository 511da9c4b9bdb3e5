//! Mappings whose local name isn't a full name of a ref.
ghost use Rattle.std.specs.Prelude.{◌≡◌, [], ◌∷◌, ◌++◌, not, IfOk, OnOk, filter, map};
ghost use Rattle.std.specs.List.{list_any};
ghost use Rattle.bstr.specs.Owned.{bstring_bytes};
ghost use Rattle.gixp_matching.specs.MatchGroup.{values};
ghost use Rattle.gixp_matching.specs.Validation.{spec_text, is_partial, removed_at, fixes};
ghost use Rattle.gixp_matching.specs.Validate.{fixes_in};

use crate::match_group::key::AsMapping;
use crate::match_group::validate::Fix;
use bstr::BString;
use gixp_refspec::spec::{RefSpecRef, is_full};
use std::alloc::{AllocError, Global};

pub(crate) fn spec_text<M: AsMapping>(
    alloc: Global,
    specs: &[RefSpecRef<'_>],
    mapping: &M,
) -> Result<BString, AllocError>
    ensures { IfOk result (λ text. bstring_bytes text ≡ spec_text (values specs.now) (M.mapped mapping.now)) }
{
    let place = mapping.spec_index();
    if place < specs.len() {
        specs[place].to_bstring(alloc)
    } else {
        BString::from_slice(alloc, b"")
    }
}

/// Whether the mapping has a local name that isn't a full name of a ref.
pub(crate) fn is_partial<M: AsMapping>(mapping: &M) -> bool
    ensures { result ≡ is_partial (M.mapped mapping.now) }
{
    match mapping.key().1 {
        None => false,
        Some(name) => !is_full(name.bytes),
    }
}

// Whether a mapping has a local name that isn't a full name of a ref.
fn has_partial<M: AsMapping>(mappings: &[M]) -> bool
    ensures { result ≡ list_any (λ mapping. is_partial (M.mapped mapping)) mappings.now }
{
    mappings.iter().any(|mapping| is_partial(mapping))
}

// Appends the fix for a mapping that is removed.
fn push_fix<M: AsMapping>(
    alloc: Global,
    specs: &[RefSpecRef<'_>],
    mapping: &M,
    found: &mut Vec<Fix>,
) -> Result<(), AllocError>
    ensures { OnOk result (fixes_in found.new ≡ fixes_in found.old
        ++ map (removed_at (values specs.now)) (filter is_partial (M.mapped mapping.now ∷ []))) }
{
    match mapping.key().1 {
        None => Ok(()),
        Some(name) => {
            if is_full(name.bytes) {
                return Ok(());
            }
            let name = BString::from_slice(alloc, name.bytes)?;
            let spec = spec_text(alloc, specs, mapping)?;
            found.push(Fix::MappingWithPartialDestinationRemoved { name, spec })?;
            Ok(())
        }
    }
}

// The fixes for the mappings that are removed.
#[tactic(auto, unfolding(crate::specs::Validation::fixes))]
fn fixes_of<M: AsMapping>(
    alloc: Global,
    specs: &[RefSpecRef<'_>],
    mappings: &[M],
) -> Result<Vec<Fix>, AllocError>
    ensures { IfOk result (λ v. fixes_in v ≡ fixes (values specs.now) (map M.mapped mappings.now)) }
{
    let mut found = Vec::new(alloc);
    'mappings: for mapping in mappings {
        push_fix(alloc, specs, mapping, &mut found)?;
    }
    Ok(found)
}

// Keeps the mappings whose local name is a full name of a ref, or that have none.
fn keep_whole<M: AsMapping + Drop>(mappings: &mut Vec<M>)
    ensures { mappings.new.items ≡ filter (λ m. not (is_partial (M.mapped m))) mappings.old.items }
{
    mappings.retain(|mapping| !is_partial(mapping));
}

/// Removes the mappings whose local name isn't a full name of a ref, and returns a fix for each. Mostly there are
/// none, which one pass over the local names shows.
pub(crate) fn take_out_partial<M: AsMapping + Drop>(
    alloc: Global,
    specs: &[RefSpecRef<'_>],
    mappings: &mut Vec<M>,
) -> Result<Vec<Fix>, AllocError>
    ensures noted { IfOk result (λ v. fixes_in v ≡ fixes (values specs.now) (map M.mapped mappings.old.items)) }
    ensures kept { OnOk result (mappings.new.items ≡ filter (λ m. not (is_partial (M.mapped m))) mappings.old.items) }
{
    if !has_partial(mappings) {
        return Ok(Vec::new(alloc));
    }
    let found = fixes_of(alloc, specs, mappings)?;
    keep_whole(mappings);
    Ok(found)
}
