//! Refs sorted by name, so that a name is looked up instead of compared with each ref.
ghost use Rattle.std.specs.Prelude.{ℕ, List, ◌≡◌, ◌∷◌, ◌++◌, [], IfOk, OnOk, not, map, filter};
ghost use Rattle.std.specs.BTreeSet.{IsOrdered};
ghost use Rattle.std.specs.List.{enumerate_from};
ghost use Rattle.std.specs.Ordering.{nat_cmp};
ghost use Rattle.std.specs.List.Sorted.{IsPermutation};
ghost use Rattle.gixp_refspec.specs.Matching.{candidates, joined, rule_of};
ghost use Rattle.gixp_matching.specs.MatchGroup.{name_of, names, values};
ghost use Rattle.gixp_matching.specs.Rows.{shown, is_row_of, AreByName, IsRowTable, AddsPlaces, HasPlaces, ArePlaces};
ghost use Rattle.gixp_matching.specs.Sought.{sought, has_name, HasTails};
ghost use Rattle.gixp_matching.specs.Validation.{is_below};

use crate::match_group::Item;
use crate::match_group::sought::{NameSet, set_of, sought_names};
use gixp_refspec::needle::RULES;
use gixp_refspec::spec::RefSpecRef;
use gixp_refspec::text::joined;
use std::alloc::{AllocError, Global};
use std::collections::BTreeSet;

/// The name of a ref, and its index among the refs that are matched.
#[derive(Clone, Copy)]
pub(crate) struct Row<'a> {
    pub(crate) name: &'a [u8],
    pub(crate) place: usize,
}

// Appends a ref, if its name is in the set.
fn push_row<'a>(
    rows: &mut Vec<Row<'a>>,
    set: &NameSet<'_>,
    place: usize,
    item: &Item<'a>,
) -> Result<(), AllocError>
    requires { HasTails set.now }
    ensures { OnOk result (map shown rows.new.items ≡ map shown rows.old.items
        ++ filter (λ ref. has_name set.now ref.1) ((place, name_of item.now) ∷ [])) }
{
    let name = item.full_ref_name.as_bytes();
    if set.contains(name) {
        rows.push(Row { name, place })?;
    }
    Ok(())
}

// The refs whose names are in the set, in their order.
fn rows_of<'a>(
    alloc: Global,
    set: &NameSet<'_>,
    items: &[Item<'a>],
) -> Result<Vec<Row<'a>>, AllocError>
    requires { HasTails set.now }
    ensures { IfOk result (λ rows. map shown rows.items ≡ filter (λ ref. has_name set.now ref.1) (enumerate_from 0 (names items.now))) }
{
    let mut rows = Vec::new(alloc);
    'items: for (place, item) in items.iter().enumerate() {
        push_row(&mut rows, set, place, item)?;
    }
    Ok(rows)
}

/// Sorts refs by the bytes of their names. Refs with the same name keep their order.
pub(crate) fn sort_by_name(rows: &mut Vec<Row<'_>>) -> Result<(), AllocError>
    ensures permutation { IsPermutation rows.old.items rows.new.items }
    ensures order { OnOk result (AreByName rows.new.items) }
    ensures same { OnOk result ((name : List ℕ) → filter (is_row_of name) rows.new.items ≡ filter (is_row_of name) rows.old.items) }
{
    rows.sort_by_key(|row| row.name)?;
    Ok(())
}

/// The refs whose names refspecs may mean, sorted by name. One pass over the refs finds them, so only these are
/// sorted, in whatever order a server sends the refs.
pub(crate) fn table_of<'a>(
    alloc: Global,
    specs: &[RefSpecRef<'_>],
    items: &[Item<'a>],
) -> Result<Vec<Row<'a>>, AllocError>
    ensures { IfOk result (λ rows. IsRowTable (sought (values specs.now)) (names items.now) rows.items) }
{
    let looked_up = sought_names(alloc, specs)?;
    if looked_up.is_empty() {
        return Ok(Vec::new(alloc));
    }
    let set = set_of(alloc, &looked_up)?;
    let mut rows = rows_of(alloc, &set, items)?;
    sort_by_name(&mut rows)?;
    Ok(rows)
}

// Whether the ref's name is below this name.
fn is_before(row: &Row<'_>, name: &[u8]) -> bool
    ensures { result ≡ is_below row.now.name.now name.now }
{
    row.name.cmp(name).is_lt()
}

// Whether the ref's name is below this name or equal to it.
fn is_until(row: &Row<'_>, name: &[u8]) -> bool
    ensures { result ≡ not (is_below name.now row.now.name.now) }
{
    !name.cmp(row.name).is_lt()
}

/// The refs with this name.
pub(crate) fn rows_named<'r, 'a>(rows: &'r [Row<'a>], name: &[u8]) -> &'r [Row<'a>]
    requires { AreByName rows.now }
    ensures { result.now ≡ filter (is_row_of name.now) rows.now }
{
    let start = rows.partition_point(|row| is_before(row, name));
    let rest = &rows[start..];
    let count = rest.partition_point(|row| is_until(row, name));
    &rest[..count]
}

// Adds the index of a ref.
fn add_place(places: &mut BTreeSet<usize>, row: &Row<'_>) -> Result<(), AllocError>
    ensures { OnOk result (AddsPlaces (shown row.now ∷ []) places.old places.new) }
{
    places.insert(row.place)?;
    Ok(())
}

// Adds the indices of refs.
fn add_places(places: &mut BTreeSet<usize>, run: &[Row<'_>]) -> Result<(), AllocError>
    ensures { OnOk result (AddsPlaces (map shown run.now) places.old places.new) }
{
    'rows: for row in run {
        add_place(places, row)?;
    }
    Ok(())
}

// The numbers of a set, in ascending order.
fn in_order(alloc: Global, places: BTreeSet<usize>) -> Result<Vec<usize>, AllocError>
    ensures same { IfOk result (λ list. list.items ≡ places.keys) }
    ensures ordered { IsOrdered nat_cmp places }
{
    let _ = places.len();
    places.into_iter().collect(alloc)
}

// The indices of the refs with the full names that a short name may mean.
fn places_made(
    alloc: Global,
    rows: &[Row<'_>],
    rules: &[(&[u8], &[u8])],
    short: &[u8],
) -> Result<BTreeSet<usize>, AllocError>
    requires { AreByName rows.now }
    ensures { IfOk result (HasPlaces (map (λ rule. joined short.now (rule_of rule)) rules.now) rows.now) }
{
    let mut places = BTreeSet::new(alloc);
    'rules: for (front, back) in rules {
        let name = joined(alloc, front, short, back)?;
        let run = rows_named(rows, name.as_bytes());
        add_places(&mut places, run)?;
    }
    Ok(places)
}

/// The indices of the refs that a short name may mean, in ascending order.
#[tactic(auto, unfolding(gixp_refspec::specs::Matching::candidates))]
pub(crate) fn places_meant(
    alloc: Global,
    rows: &[Row<'_>],
    short: &[u8],
) -> Result<Vec<usize>, AllocError>
    requires { AreByName rows.now }
    ensures { IfOk result (λ places. ArePlaces (candidates short.now) rows.now places.items) }
{
    let places = places_made(alloc, rows, &RULES, short)?;
    in_order(alloc, places)
}
