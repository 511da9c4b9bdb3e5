//! The places of the mappings, in their order and with repeats.
ghost use Rattle.std.specs.Prelude.{◌≡◌, ◌++◌, OnOk, map, option_to_list};
ghost use Rattle.std.specs.Option.{option_map};
ghost use Rattle.std.specs.List.{flat_map};
ghost use Rattle.gixp_refspec.specs.RefSpec.{value_of};
ghost use Rattle.gixp_matching.specs.Mappings.{id_mappings, pairs};
ghost use Rattle.gixp_matching.specs.MatchGroup.{values, names};
ghost use Rattle.gixp_matching.specs.Places.{place_of, place_value, places_in, id_places, pair_places, places_with};
ghost use Rattle.gixp_matching.specs.Rows.{shown, ref_at, numbered_value, IsLookedAt, HasSoughtNames, IsPrepared, IsRowTable};
ghost use Rattle.gixp_matching.specs.Sought.{sought};

use crate::match_group::negatives::{Prepared, is_excluded};
use crate::match_group::rows::{Row, places_meant, rows_named, table_of};
use crate::match_group::{Item, Place};
use gixp_refspec::needle::Needle;
use gixp_refspec::spec::{RefSpecRef, id_in, is_negative};
use std::alloc::{AllocError, Global};

// Appends a place, if there is one.
fn push_found(out: &mut Vec<Place>, found: Option<Place>) -> Result<(), AllocError>
    ensures { OnOk result (places_in out.new ≡ places_in out.old ++ option_to_list (option_map place_value found)) }
{
    if let Some(place) = found {
        out.push(place)?;
    }
    Ok(())
}

// The place of the id that a positive refspec names.
#[tactic(auto, unfolding(crate::specs::Mappings::id_mapping))]
fn id_place(index: usize, spec: &RefSpecRef<'_>) -> Option<Place>
    ensures { option_to_list (option_map place_value result) ≡ id_places (index, value_of spec.now) }
{
    if is_negative(spec.sign) || id_in(spec.source).is_none() {
        return None;
    }
    Some(Place {
        item_index: None,
        spec_index: index,
    })
}

// Appends the place of the id that a positive refspec names.
fn push_id(index: usize, spec: &RefSpecRef<'_>, out: &mut Vec<Place>) -> Result<(), AllocError>
    ensures { OnOk result (places_in out.new ≡ places_in out.old ++ id_places (index, value_of spec.now)) }
{
    push_found(out, id_place(index, spec))
}

/// Appends the places of the ids that positive refspecs name.
pub(crate) fn push_ids(specs: &[RefSpecRef<'_>], out: &mut Vec<Place>) -> Result<(), AllocError>
    ensures { OnOk result (places_in out.new ≡ places_in out.old ++ map place_of (id_mappings (values specs.now))) }
{
    'specs: for (index, spec) in specs.iter().enumerate() {
        push_id(index, spec, out)?;
    }
    Ok(())
}

// A refspec with its index in a group.
#[derive(Clone, Copy)]
struct Numbered<'m, 's> {
    index: usize,
    spec: &'m RefSpecRef<'s>,
    needle: Needle<'s>,
}

impl<'m, 's> Numbered<'m, 's> {
    // A refspec with its index, and its source as a needle.
    fn new(index: usize, spec: &'m RefSpecRef<'s>) -> Numbered<'m, 's>
        ensures value { numbered_value result ≡ (index, value_of spec.now) }
        ensures needle { IsLookedAt result }
    {
        Numbered {
            index,
            spec,
            needle: Needle::new(spec.source),
        }
    }
}

/// A group of refspecs, and the refs that it is matched against.
#[derive(Clone, Copy)]
pub(crate) struct Matching<'m, 's, 'a> {
    pub(crate) alloc: Global,
    pub(crate) prepared: &'m Prepared<'s>,
    pub(crate) items: &'m [Item<'a>],
}

impl Matching<'_, '_, '_> {
    // The place of a refspec and a ref, if the refspec matches the ref.
    #[inline(always)]
    fn pair(&self, numbered: &Numbered<'_, '_>, row: &Row<'_>) -> Option<Place>
        requires needle { IsLookedAt numbered.now }
        requires prepared { IsPrepared self.now.prepared.now }
        ensures { option_to_list (option_map place_value result)
            ≡ pair_places (values self.now.prepared.now.specs.now) (numbered_value numbered.now) (shown row.now) }
    {
        if is_negative(numbered.spec.sign)
            || numbered.needle.middle(row.name).is_none()
            || is_excluded(self.prepared, row.name)
        {
            return None;
        }
        Some(Place {
            item_index: Some(row.place),
            spec_index: numbered.index,
        })
    }

    // Appends the place of a refspec and a ref, if the refspec matches the ref.
    #[inline(always)]
    fn push_pair(
        &self,
        numbered: &Numbered<'_, '_>,
        row: &Row<'_>,
        out: &mut Vec<Place>,
    ) -> Result<(), AllocError>
        requires needle { IsLookedAt numbered.now }
        requires prepared { IsPrepared self.now.prepared.now }
        ensures { OnOk result (places_in out.new ≡ places_in out.old
            ++ pair_places (values self.now.prepared.now.specs.now) (numbered_value numbered.now) (shown row.now)) }
    {
        push_found(out, self.pair(numbered, row))
    }

    // Appends the places of a refspec by comparing it with each ref. A negative one has none.
    fn push_compared(
        &self,
        numbered: &Numbered<'_, '_>,
        out: &mut Vec<Place>,
    ) -> Result<(), AllocError>
        requires needle { IsLookedAt numbered.now }
        requires prepared { IsPrepared self.now.prepared.now }
        ensures { OnOk result (places_in out.new ≡ places_in out.old
            ++ places_with (values self.now.prepared.now.specs.now) (names self.now.items.now) (numbered_value numbered.now)) }
    {
        if is_negative(numbered.spec.sign) {
            return Ok(());
        }
        'items: for (place, item) in self.items.iter().enumerate() {
            let name = item.full_ref_name.as_bytes();
            self.push_pair(numbered, &Row { name, place }, out)?;
        }
        Ok(())
    }

    // Appends the places of a refspec and these refs.
    fn push_rows(
        &self,
        numbered: &Numbered<'_, '_>,
        rows: &[Row<'_>],
        out: &mut Vec<Place>,
    ) -> Result<(), AllocError>
        requires needle { IsLookedAt numbered.now }
        requires prepared { IsPrepared self.now.prepared.now }
        ensures { OnOk result (places_in out.new ≡ places_in out.old
            ++ flat_map (pair_places (values self.now.prepared.now.specs.now) (numbered_value numbered.now)) (map shown rows.now)) }
    {
        'rows: for row in rows {
            self.push_pair(numbered, row, out)?;
        }
        Ok(())
    }

    // Appends the place of a refspec and the ref at this index.
    fn push_at(
        &self,
        numbered: &Numbered<'_, '_>,
        place: usize,
        out: &mut Vec<Place>,
    ) -> Result<(), AllocError>
        requires needle { IsLookedAt numbered.now }
        requires prepared { IsPrepared self.now.prepared.now }
        ensures { OnOk result (places_in out.new ≡ places_in out.old
            ++ flat_map (pair_places (values self.now.prepared.now.specs.now) (numbered_value numbered.now))
            (ref_at (names self.now.items.now) place)) }
    {
        match self.items.get(place) {
            None => Ok(()),
            Some(item) => {
                let name = item.full_ref_name.as_bytes();
                self.push_pair(numbered, &Row { name, place }, out)
            }
        }
    }

    // Appends the places of a refspec and the refs at these indices.
    fn push_places(
        &self,
        numbered: &Numbered<'_, '_>,
        places: &[usize],
        out: &mut Vec<Place>,
    ) -> Result<(), AllocError>
        requires needle { IsLookedAt numbered.now }
        requires prepared { IsPrepared self.now.prepared.now }
        ensures { OnOk result (places_in out.new ≡ places_in out.old
            ++ flat_map (λ place. flat_map (pair_places (values self.now.prepared.now.specs.now) (numbered_value numbered.now))
            (ref_at (names self.now.items.now) place)) places.now) }
    {
        'places: for place in places {
            self.push_at(numbered, *place, out)?;
        }
        Ok(())
    }

    // Appends the places of a refspec. The refs of an exact name, and those that a short name may mean, are looked up.
    // Only a pattern is compared with each ref.
    fn push_looked_up(
        &self,
        numbered: &Numbered<'_, '_>,
        table: &[Row<'_>],
        out: &mut Vec<Place>,
    ) -> Result<(), AllocError>
        requires needle { IsLookedAt numbered.now }
        requires prepared { IsPrepared self.now.prepared.now }
        requires sought { HasSoughtNames (values self.now.prepared.now.specs.now) numbered.now }
        requires table { IsRowTable (sought (values self.now.prepared.now.specs.now)) (names self.now.items.now) table.now }
        ensures { OnOk result (places_in out.new ≡ places_in out.old
            ++ places_with (values self.now.prepared.now.specs.now) (names self.now.items.now) (numbered_value numbered.now)) }
    {
        if is_negative(numbered.spec.sign) {
            return Ok(());
        }
        match numbered.needle {
            Needle::Id => Ok(()),
            Needle::Exact(name) => {
                let run = rows_named(table, name);
                self.push_rows(numbered, run, out)
            }
            Needle::Short(name) => {
                let places = places_meant(self.alloc, table, name)?;
                self.push_places(numbered, &places, out)
            }
            Needle::Pattern { .. } => self.push_compared(numbered, out),
        }
    }

    /// Appends the places of each refspec and each ref, with the table of the refs that are looked up.
    pub(crate) fn push_pairs(&self, out: &mut Vec<Place>) -> Result<(), AllocError>
        requires { IsPrepared self.now.prepared.now }
        ensures { OnOk result (places_in out.new ≡ places_in out.old
            ++ map place_of (pairs (values self.now.prepared.now.specs.now) (names self.now.items.now))) }
    {
        let table = table_of(self.alloc, self.prepared.specs, self.items)?;
        'specs: for (index, spec) in self.prepared.specs.iter().enumerate() {
            self.push_looked_up(&Numbered::new(index, spec), &table, out)?;
        }
        Ok(())
    }
}
