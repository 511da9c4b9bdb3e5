//! Makes mappings from their places.
ghost use Rattle.std.specs.Prelude.{◌≡◌, ◌++◌, IfOk, OnOk, map, option_to_list};
ghost use Rattle.std.specs.Option.{option_map};
ghost use Rattle.std.specs.List.{slice_get};
ghost use Rattle.bstr.specs.Owned.{bstring_bytes};
ghost use Rattle.gixp_matching.specs.Mappings.{FullName};
ghost use Rattle.gixp_matching.specs.MatchGroup.{source_of, mapped_of, mapped_in, names, group_specs};
ghost use Rattle.gixp_matching.specs.Places.{place_value, local_for, source_at, made_at, made_of, repeated};

use crate::match_group::{Item, Mapping, MatchGroup, Place, SourceRef};
use bstr::BString;
use std::alloc::{AllocError, Global};

// The name of the ref at this index.
fn name_at(alloc: Global, items: &[Item<'_>], index: usize) -> Result<Option<SourceRef>, AllocError>
    ensures { IfOk result (λ found. option_map source_of found ≡ option_map FullName (slice_get (names items.now) index)) }
{
    match items.get(index) {
        None => Ok(None),
        Some(item) => {
            let name = BString::from_slice(alloc, item.full_ref_name.as_bytes())?;
            Ok(Some(SourceRef::FullName(name)))
        }
    }
}

// The source of the mapping at a place.
fn source_at(
    alloc: Global,
    group: &MatchGroup<'_>,
    items: &[Item<'_>],
    place: Place,
) -> Result<Option<SourceRef>, AllocError>
    ensures { IfOk result (λ found. option_map source_of found
        ≡ source_at (group_specs group.now) (names items.now) place.item_index place.spec_index) }
{
    match place.item_index {
        Some(index) => name_at(alloc, items, index),
        None => Ok(group.id_at(place.spec_index).map(SourceRef::ObjectId)),
    }
}

// The local name that the refspec at this index makes of the source.
fn local_at(
    alloc: Global,
    group: &MatchGroup<'_>,
    source: &SourceRef,
    spec_index: usize,
) -> Result<Option<BString>, AllocError>
    ensures { IfOk result (λ local. option_map bstring_bytes local
        ≡ local_for (slice_get (group_specs group.now) spec_index) (source_of source.now)) }
{
    match source {
        SourceRef::FullName(name) => group.local_name(alloc, spec_index, name.as_bytes()),
        SourceRef::ObjectId(_) => group.local_name_of_id(alloc, spec_index),
    }
}

// The mapping at a place. None where the ref or the refspec doesn't exist.
fn mapping_at(
    alloc: Global,
    group: &MatchGroup<'_>,
    items: &[Item<'_>],
    place: Place,
) -> Result<Option<Mapping>, AllocError>
    ensures { IfOk result (λ found. option_map mapped_of found ≡ made_at (group_specs group.now) (names items.now) (place_value place)) }
{
    let Some(lhs) = source_at(alloc, group, items, place)? else {
        return Ok(None);
    };
    let rhs = local_at(alloc, group, &lhs, place.spec_index)?;
    Ok(Some(Mapping {
        item_index: place.item_index,
        lhs,
        rhs,
        spec_index: place.spec_index,
    }))
}

// Appends a mapping, if there is one.
fn push_found(out: &mut Vec<Mapping>, found: Option<Mapping>) -> Result<(), AllocError>
    ensures { OnOk result (mapped_in out.new ≡ mapped_in out.old ++ option_to_list (option_map mapped_of found)) }
{
    if let Some(mapping) = found {
        out.push(mapping)?;
    }
    Ok(())
}

// The mappings at these places.
fn mappings_at(
    alloc: Global,
    group: &MatchGroup<'_>,
    items: &[Item<'_>],
    places: &[Place],
) -> Result<Vec<Mapping>, AllocError>
    ensures { IfOk result (λ made. mapped_in made ≡ made_of (group_specs group.now) (names items.now) (map place_value places.now)) }
{
    let mut made = Vec::with_capacity(alloc, places.len())?;
    'places: for place in places {
        let found = mapping_at(alloc, group, items, *place)?;
        push_found(&mut made, found)?;
    }
    Ok(made)
}

/// The mappings of the refs, including those that repeat the source and local name of an earlier one.
pub(crate) fn repeated_mappings(
    alloc: Global,
    group: &MatchGroup<'_>,
    items: &[Item<'_>],
) -> Result<Vec<Mapping>, AllocError>
    ensures { IfOk result (λ made. mapped_in made ≡ repeated (group_specs group.now) (names items.now)) }
{
    let places = group.places(alloc, items)?;
    mappings_at(alloc, group, items, &places)
}
