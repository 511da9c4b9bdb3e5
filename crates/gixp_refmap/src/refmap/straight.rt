//! The mappings of refs by a single refspec: each ref is compared with it and moved, without a list of places.
ghost use Rattle.std.specs.Prelude.{◌≡◌, ◌++◌, IfOk, List, OnOk, map, option_to_list};
ghost use Rattle.std.specs.List.{AllZip};
ghost use Rattle.gixp_refs.specs.Ref.{ref_value};
ghost use Rattle.gixp_refspec.specs.Spec.{Spec};
ghost use Rattle.gixp_matching.specs.Places.{repeated};
ghost use Rattle.gixp_matching.specs.Single.{IsSingle};
ghost use Rattle.gixp_refmap.specs.Mapping.{value_names};
ghost use Rattle.gixp_refmap.specs.Made.{IsUnplaced, IsOfSingle};

use crate::refmap::made::FREED_AT_ONCE;
use crate::refmap::mapping::{Mapping, Source, SpecIndex};
use gixp_matching::match_group::single::Single;
use gixp_refs::handshake::Ref;
use std::alloc::{AllocError, Global};

// The mapping of a ref, if the refspec maps it.
#[inline(always)]
fn of_ref(alloc: Global, single: &Single<'_>, found: Ref) -> Result<Option<Mapping>, AllocError>
    requires { (specs : List Spec) × IsSingle specs single.now }
    ensures { IfOk result (IsOfSingle single.now found) }
{
    match single.local_name(alloc, found.name().as_bytes())? {
        Some(local) => Ok(Some(Mapping {
            remote: Source::Ref(found),
            local,
            spec_index: SpecIndex::ExplicitInRemote(single.spec_index()),
        })),
        None => Ok(None),
    }
}

// Appends a mapping, if there is one.
#[inline(always)]
fn push_one(made: &mut Vec<Mapping>, one: Option<Mapping>) -> Result<(), AllocError>
    ensures { OnOk result (made.new.items ≡ made.old.items ++ option_to_list one) }
{
    if let Some(mapping) = one {
        made.push(mapping)?;
    }
    Ok(())
}

// Frees the memory of refs that were taken.
fn give_back(refs: &mut Vec<Ref>)
    ensures { refs.new.items ≡ refs.old.items }
{
    if refs.len().is_multiple_of(FREED_AT_ONCE) {
        refs.shrink_to_fit();
    }
}

// The mappings of the refs by the single refspec that makes all mappings, in the order of the list.
pub(crate) fn straight(
    alloc: Global,
    single: &Single<'_>,
    mut refs: Vec<Ref>,
) -> Result<Vec<Mapping>, AllocError>
    requires { (specs : List Spec) × IsSingle specs single.now }
    ensures { IfOk result (λ made. (specs : List Spec) → IsSingle specs single.now
        → AllZip (IsUnplaced (map ref_value refs.items)) (repeated specs (value_names (map ref_value refs.items))) made.items) }
{
    let mut made = Vec::with_capacity(alloc, refs.len())?;
    'refs: while let Some(found) = refs.pop() {
        give_back(&mut refs);
        push_one(&mut made, of_ref(alloc, single, found)?)?;
    }
    made.reverse();
    Ok(made)
}
