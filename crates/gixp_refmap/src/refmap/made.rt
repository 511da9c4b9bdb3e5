//! Makes mappings from places, with copies of the refs or with the refs themselves.
ghost use Rattle.std.specs.Prelude.{◌≡◌, ◌<◌, ◌∷◌, ◌++◌, IfOk, IfSome, IsSome, IsTrue, List, Option, ℕ, [], length, map, reverse, take};
ghost use Rattle.std.specs.Option.{option_map};
ghost use Rattle.std.specs.List.{AllByRecursion, AllZip, slice_get};
ghost use Rattle.bstr.specs.Owned.{bstring_bytes};
ghost use Rattle.gixp_hash.specs.declared.object_id.ObjectId.{ObjectId as Id};
ghost use Rattle.gixp_refs.specs.Ref.{ref_value};
ghost use Rattle.gixp_matching.specs.MatchGroup.{group_specs};
ghost use Rattle.gixp_matching.specs.Places.{local_for, id_for};
ghost use Rattle.gixp_refmap.specs.Made.{taken_from, refs_before, IsThere, IsMade, Falls};

use crate::refmap::mapping::{Mapping, Source, SpecIndex, copy_of};
use gixp_matching::match_group::{MatchGroup, Place};
use gixp_refs::handshake::Ref;
use std::alloc::{AllocError, Global};

// The mapping of a ref by the refspec at this index.
#[inline(always)]
fn of_ref(
    alloc: Global,
    group: &MatchGroup<'_>,
    spec_index: usize,
    found: Ref,
) -> Result<Mapping, AllocError>
    ensures remote { IfOk result (λ x. x.remote ≡ Source.Ref found) }
    ensures local { IfOk result (λ x. option_map bstring_bytes x.local
        ≡ local_for (slice_get (group_specs group.now) spec_index) (taken_from x.remote)) }
    ensures place { IfOk result (λ x. x.spec_index ≡ SpecIndex.ExplicitInRemote spec_index) }
{
    let local = group.local_name(alloc, spec_index, found.name().as_bytes())?;
    Ok(Mapping {
        remote: Source::Ref(found),
        local,
        spec_index: SpecIndex::ExplicitInRemote(spec_index),
    })
}

// The mapping of the id that the refspec at this index names.
fn of_id(alloc: Global, group: &MatchGroup<'_>, spec_index: usize) -> Result<Mapping, AllocError>
    requires { IsSome (id_for (slice_get (group_specs group.now) spec_index)) }
    ensures remote { IfOk result (λ x. (id : Id) × (x.remote ≡ Source.ObjectId id)
        × (id_for (slice_get (group_specs group.now) spec_index) ≡ Some id.bytes)) }
    ensures local { IfOk result (λ x. option_map bstring_bytes x.local
        ≡ local_for (slice_get (group_specs group.now) spec_index) (taken_from x.remote)) }
    ensures place { IfOk result (λ x. x.spec_index ≡ SpecIndex.ExplicitInRemote spec_index) }
{
    let Some(id) = group.id_at(spec_index) else {
        unreachable!()
    };
    let local = group.local_name_of_id(alloc, spec_index)?;
    Ok(Mapping {
        remote: Source::ObjectId(id),
        local,
        spec_index: SpecIndex::ExplicitInRemote(spec_index),
    })
}

// The mapping at a place, with a copy of its ref.
fn copied_one(
    alloc: Global,
    group: &MatchGroup<'_>,
    place: Place,
    refs: &[Ref],
) -> Result<Mapping, AllocError>
    requires { IsThere (length refs.now) (group_specs group.now) place }
    ensures { IfOk result (IsMade (map ref_value refs.now) (group_specs group.now) place) }
{
    match place.item_index {
        Some(index) => of_ref(alloc, group, place.spec_index, copy_of(&refs[index])?),
        None => of_id(alloc, group, place.spec_index),
    }
}

// The mappings at the places, with copies of the refs.
pub(crate) fn copied(
    alloc: Global,
    group: &MatchGroup<'_>,
    places: &[Place],
    refs: &[Ref],
) -> Result<Vec<Mapping>, AllocError>
    requires { AllByRecursion (IsThere (length refs.now) (group_specs group.now)) places.now }
    ensures { IfOk result (λ made. AllZip (IsMade (map ref_value refs.now) (group_specs group.now)) places.now made.items) }
{
    let mut made = Vec::with_capacity(alloc, places.len())?;
    'places: for place in places {
        made.push(copied_one(alloc, group, *place, refs)?)?;
    }
    Ok(made)
}

// Takes the ref at this index out of the list, and drops those after it.
#[inline(always)]
fn take_ref(refs: &mut Vec<Ref>, index: usize) -> Ref
    requires { index < length refs.old.items }
    ensures found { slice_get refs.old.items index ≡ Some result }
    ensures left { refs.new.items ≡ take index refs.old.items }
{
    refs.truncate(index + 1);
    let Some(found) = refs.pop() else {
        unreachable!()
    };
    found
}

// The mapping at a place, with its ref, which leaves the list; those after it are dropped.
#[inline(always)]
fn moved_one(
    alloc: Global,
    group: &MatchGroup<'_>,
    place: Place,
    refs: &mut Vec<Ref>,
) -> Result<Mapping, AllocError>
    requires { IsThere (length refs.old.items) (group_specs group.now) place }
    ensures made { IfOk result (IsMade (map ref_value refs.old.items) (group_specs group.now) place) }
    ensures left { refs.new.items ≡ refs_before place.item_index refs.old.items }
{
    match place.item_index {
        Some(index) => of_ref(alloc, group, place.spec_index, take_ref(refs, index)),
        None => of_id(alloc, group, place.spec_index),
    }
}

// How many places or refs are taken before their memory is freed.
pub(crate) const FREED_AT_ONCE: usize = 4_096;

// Frees the memory of places and refs that were taken.
fn give_back(places: &mut Vec<Place>, refs: &mut Vec<Ref>)
    ensures places { places.new.items ≡ places.old.items }
    ensures refs { refs.new.items ≡ refs.old.items }
{
    if places.len().is_multiple_of(FREED_AT_ONCE) {
        places.shrink_to_fit();
        refs.shrink_to_fit();
    }
}

// The mappings at the places, with the refs themselves. Places and refs are freed on the way, so a long list isn't
// in memory twice.
fn moved(
    alloc: Global,
    group: &MatchGroup<'_>,
    mut places: Vec<Place>,
    mut refs: Vec<Ref>,
) -> Result<Vec<Mapping>, AllocError>
    requires there { AllByRecursion (IsThere (length refs.items) (group_specs group.now)) places.items }
    requires falls { Falls (length refs.items) (map (λ p. p.item_index) (reverse places.items)) }
    ensures { IfOk result (λ made. AllZip (IsMade (map ref_value refs.items) (group_specs group.now)) places.items made.items) }
{
    let mut made = Vec::with_capacity(alloc, places.len())?;
    'places: while let Some(place) = places.pop() {
        give_back(&mut places, &mut refs);
        made.push(moved_one(alloc, group, place, &mut refs)?)?;
    }
    made.reverse();
    Ok(made)
}

// How many refs are left once this one of so many is taken and those after it are dropped. None where it isn't one of them.
fn left_of(count: usize, item_index: Option<usize>) -> Option<usize>
    ensures { IfSome result (λ left. (items : List (Option ℕ)) → Falls left items → Falls count (item_index ∷ items)) }
{
    match item_index {
        None => Some(count),
        Some(index) if index < count => Some(index),
        Some(_) => None,
    }
}

// Whether the refs of the places are among so many, and each comes after the refs of the places before it.
fn are_in_order(count: usize, places: &[Place]) -> bool
    ensures { IsTrue result → Falls count (map (λ p. p.item_index) (reverse places.now)) }
{
    let mut left = count;
    let mut index = places.len();
    'places: while index > 0 {
        index -= 1;
        match left_of(left, places[index].item_index) {
            Some(fewer) => left = fewer,
            None => return false,
        }
    }
    true
}

// The mappings at the places, with the refs themselves where each is mapped at most once and in the order of the
// list, else with copies.
pub(crate) fn moved_or_copied(
    alloc: Global,
    group: &MatchGroup<'_>,
    places: Vec<Place>,
    refs: Vec<Ref>,
) -> Result<Vec<Mapping>, AllocError>
    requires { AllByRecursion (IsThere (length refs.items) (group_specs group.now)) places.items }
    ensures { IfOk result (λ made. AllZip (IsMade (map ref_value refs.items) (group_specs group.now)) places.items made.items) }
{
    if are_in_order(refs.len(), &places) {
        moved(alloc, group, places, refs)
    } else {
        copied(alloc, group, &places, &refs)
    }
}
