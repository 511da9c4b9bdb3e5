//! Makes the mappings of a ref map.
ghost use Rattle.std.specs.Prelude.{◌≡◌, ◌++◌, IfOk, OnOk, IsSome, List, length, map};
ghost use Rattle.std.specs.List.{AllByRecursion, AllZip};
ghost use Rattle.gixp_refs.specs.Ref.{RefValue, ref_value};
ghost use Rattle.gixp_refspec.specs.RefSpec.{value_of, owned_value_of};
ghost use Rattle.gixp_matching.specs.MatchGroup.{group_specs, name_of, names, values};
ghost use Rattle.gixp_matching.specs.Places.{repeated, place_of, place_value, FollowsFromPlace};
ghost use Rattle.gixp_refmap.specs.Mapping.{value_name, value_names, joined_specs, spec_at, spec_place, Maps, HoldsOfAll};
ghost use Rattle.gixp_refmap.specs.Made.{in_its_list, IsThere, IsUnplaced};
ghost use Rattle.gixp_refmap.specs.RefMapItems.{item_value, item_values, item_of};

use crate::refmap::as_mapping::number;
use crate::refmap::init::Error;
use crate::refmap::made::{copied, moved_or_copied};
use crate::refmap::mapping::{Mapping, SpecIndex};
use crate::refmap::straight::straight;
use gixp_hash::ObjectId;
use gixp_matching::laws;
use gixp_matching::match_group::validate::Fix;
use gixp_matching::match_group::{Item, MatchGroup, Place, checked};
use gixp_refs::handshake::Ref;
use gixp_refspec::{RefSpec, RefSpecRef};
use std::alloc::{AllocError, Global};

// Appends the refspecs, borrowed.
fn push_specs<'s>(out: &mut Vec<RefSpecRef<'s>>, specs: &'s [RefSpec]) -> Result<(), AllocError>
    ensures { OnOk result (map value_of out.new.items ≡ map value_of out.old.items ++ map owned_value_of specs.now) }
{
    'specs: for spec in specs {
        out.push(spec.to_ref())?;
    }
    Ok(())
}

// The refspecs, the explicit ones before the extra ones.
fn all_specs<'s>(
    alloc: Global,
    explicit: &'s [RefSpec],
    extra: &'s [RefSpec],
) -> Result<Vec<RefSpecRef<'s>>, AllocError>
    ensures { IfOk result (λ specs. map value_of specs.items ≡ joined_specs explicit.now extra.now) }
{
    let mut specs = Vec::new(alloc);
    push_specs(&mut specs, explicit)?;
    push_specs(&mut specs, extra)?;
    Ok(specs)
}

// The parts of a ref that are matched.
fn item<'a>(found: &'a Ref, null: &'a ObjectId) -> Item<'a>
    ensures name { name_of result ≡ value_name (ref_value found.now) }
    ensures value { item_value result ≡ item_of null.now found.now }
{
    let (full_ref_name, target, object) = found.unpack();
    Item {
        full_ref_name,
        target: target.unwrap_or(null),
        object,
    }
}

// The parts of the refs that are matched.
fn items<'a>(
    alloc: Global,
    refs: &'a [Ref],
    null: &'a ObjectId,
) -> Result<Vec<Item<'a>>, AllocError>
    ensures names { IfOk result (λ items. names items.items ≡ value_names (map ref_value refs.now)) }
    ensures values { IfOk result (λ items. item_values items.items ≡ map (item_of null.now) refs.now) }
{
    let mut items = Vec::with_capacity(alloc, refs.len())?;
    'refs: for found in refs {
        items.push(item(found, null))?;
    }
    Ok(items)
}

fn places_of(alloc: Global, group: &MatchGroup<'_>, refs: &[Ref]) -> Result<Vec<Place>, AllocError>
    ensures places { IfOk result (λ places. map place_value places.items
        ≡ map place_of (repeated (group_specs group.now) (value_names (map ref_value refs.now)))) }
    ensures reported { IfOk result (λ _. AllByRecursion (FollowsFromPlace (group_specs group.now) (value_names (map ref_value refs.now)))
        (repeated (group_specs group.now) (value_names (map ref_value refs.now)))) }
    ensures there { IfOk result (λ places. AllByRecursion (IsThere (length refs.now) (group_specs group.now)) places.items) }
{
    let null = ObjectId::null();
    let items = items(alloc, refs, &null)?;
    let places = group.places(alloc, &items)?;
    Ok(places)
}

// The index of a refspec in its own list.
fn place(explicit: usize, index: usize) -> SpecIndex
    ensures { result ≡ spec_place explicit index }
{
    if index < explicit {
        SpecIndex::ExplicitInRemote(index)
    } else {
        SpecIndex::Implicit(index - explicit)
    }
}

// Changes the index of each mapping's refspec to the one in its own list.
fn put_in_lists(explicit: usize, mappings: &mut Vec<Mapping>)
    ensures { mappings.new.items ≡ map (in_its_list explicit) mappings.old.items }
{
    'mappings: for mapping in mappings.iter_mut() {
        mapping.spec_index = place(explicit, number(mapping.spec_index));
    }
}

// Keeps the first of equal mappings, validates them, and changes the index of each refspec to the one in its own list.
fn finished(
    alloc: Global,
    specs: &[RefSpecRef<'_>],
    explicit: usize,
    made: Vec<Mapping>,
) -> Result<(Vec<Mapping>, Vec<Fix>), Error>
    ensures { (refs : List RefValue) → AllZip (IsUnplaced refs) (repeated (values specs.now) (value_names refs)) made.items
        → Maps (values specs.now) explicit refs result }
{
    laws::mappings_have_origins();
    let (mut mappings, fixes) = checked(alloc, specs, made)??;
    if specs.len() <= explicit {
        return Ok((mappings, fixes));
    }
    put_in_lists(explicit, &mut mappings);
    Ok((mappings, fixes))
}

// The mappings with copies of the refs, and the fixes for those that were removed.
pub(crate) fn find_mappings(
    alloc: Global,
    refs: &[Ref],
    explicit: &[RefSpec],
    extra: &[RefSpec],
) -> Result<(Vec<Mapping>, Vec<Fix>), Error>
    ensures maps { Maps (joined_specs explicit.now extra.now) (length explicit.now) (map ref_value refs.now) result }
    ensures filtered { HoldsOfAll (joined_specs explicit.now extra.now) (map ref_value refs.now)
        (λ all. Maps (joined_specs explicit.now extra.now) (length explicit.now) all result) }
    ensures found { IfOk result (λ found. AllByRecursion (λ x. IsSome (spec_at x.spec_index explicit.now extra.now)) found.0.items) }
{
    laws::filtering_keeps_answers();
    laws::mappings_have_origins();
    let specs = all_specs(alloc, explicit, extra)?;
    let group = MatchGroup::from_fetch_specs(&specs);
    let places = places_of(alloc, &group, refs)?;
    let made = copied(alloc, &group, &places, refs)?;
    drop(places);
    finished(alloc, &specs, explicit.len(), made)
}

// The mappings with the refs themselves, from the places of all mappings.
fn made_of_places(
    alloc: Global,
    group: &MatchGroup<'_>,
    refs: Vec<Ref>,
) -> Result<Vec<Mapping>, AllocError>
    ensures { IfOk result (λ made. AllZip (IsUnplaced (map ref_value refs.items))
        (repeated (group_specs group.now) (value_names (map ref_value refs.items))) made.items) }
{
    let places = places_of(alloc, group, &refs)?;
    moved_or_copied(alloc, group, places, refs)
}

// The mappings with the refs themselves. Without places where one refspec makes all mappings.
fn made_of_refs(
    alloc: Global,
    group: &MatchGroup<'_>,
    refs: Vec<Ref>,
) -> Result<Vec<Mapping>, AllocError>
    ensures { IfOk result (λ made. AllZip (IsUnplaced (map ref_value refs.items))
        (repeated (group_specs group.now) (value_names (map ref_value refs.items))) made.items) }
{
    match group.single(alloc)? {
        Some(single) => straight(alloc, &single, refs),
        None => made_of_places(alloc, group, refs),
    }
}

// The mappings with the refs themselves, which move into them, and the fixes for those that were removed.
pub(crate) fn move_mappings(
    alloc: Global,
    refs: Vec<Ref>,
    explicit: &[RefSpec],
    extra: &[RefSpec],
) -> Result<(Vec<Mapping>, Vec<Fix>), Error>
    ensures maps { Maps (joined_specs explicit.now extra.now) (length explicit.now) (map ref_value refs.items) result }
    ensures filtered { HoldsOfAll (joined_specs explicit.now extra.now) (map ref_value refs.items)
        (λ all. Maps (joined_specs explicit.now extra.now) (length explicit.now) all result) }
    ensures found { IfOk result (λ found. AllByRecursion (λ x. IsSome (spec_at x.spec_index explicit.now extra.now)) found.0.items) }
{
    laws::filtering_keeps_answers();
    laws::mappings_have_origins();
    let specs = all_specs(alloc, explicit, extra)?;
    let group = MatchGroup::from_fetch_specs(&specs);
    let made = made_of_refs(alloc, &group, refs)?;
    finished(alloc, &specs, explicit.len(), made)
}
