//! Mappings grouped by the hashes of their local names.
ghost use Rattle.std.specs.Prelude.{ℕ, List, ◌≡◌, ◌++◌, ◌≤◌, not, drop, filter, length, map, OnOk, IfOk};
ghost use Rattle.std.specs.List.{flat_map, position, position_or_len};
ghost use Rattle.std.specs.List.Sorted.{IsPermutation};
ghost use Rattle.gixp_matching.specs.Groups.{shown, numbered, has_number, run_of, after_run, several, AreTogether, AreGroups, ListsNumbered, mappings_of, grouped};

use crate::match_group::digest::name_digest;
use crate::match_group::key::AsMapping;
use std::alloc::{AllocError, Global};

/// A mapping with a local name, the name's hash, and the index of the row.
#[derive(Drop)]
pub(crate) struct Named<'a, M> {
    pub(crate) number: u64,
    pub(crate) place: usize,
    pub(crate) mapping: &'a M,
}

/// The mappings whose local names have one hash, and the index of the first.
#[derive(Drop)]
pub(crate) struct Group<'r, 'a, M> {
    pub(crate) number: u64,
    pub(crate) place: usize,
    pub(crate) rows: &'r [Named<'a, M>],
}

// Appends a mapping, if it has a local name.
fn push_named<'a, M: AsMapping>(
    mapping: &'a M,
    rows: &mut Vec<Named<'a, M>>,
) -> Result<(), AllocError>
    ensures { OnOk result (map (shown M.mapped) rows.new.items ≡ map (shown M.mapped) rows.old.items ++ numbered (M.mapped mapping.now)) }
{
    if let Some(local) = mapping.key().1 {
        let number = name_digest(&local);
        let place = rows.len();
        rows.push(Named {
            number,
            place,
            mapping,
        })?;
    }
    Ok(())
}

// The mappings with a local name, in their order.
fn rows_of<M: AsMapping>(alloc: Global, mappings: &[M]) -> Result<Vec<Named<'_, M>>, AllocError>
    ensures { IfOk result (λ rows. map (shown M.mapped) rows.items ≡ flat_map numbered (map M.mapped mappings.now)) }
{
    let mut rows = Vec::with_capacity(alloc, mappings.len())?;
    'mappings: for mapping in mappings {
        push_named(mapping, &mut rows)?;
    }
    Ok(rows)
}

// Moves the mappings with the same hash next to each other. They keep their order.
fn put_together<M>(rows: &mut Vec<Named<'_, M>>) -> Result<(), AllocError>
    ensures together { OnOk result (AreTogether rows.new.items) }
    ensures same { OnOk result ((n : ℕ) → filter (has_number n) rows.new.items ≡ filter (has_number n) rows.old.items) }
{
    rows.sort_by_key(|row| row.number)?;
    Ok(())
}

/// The mappings with a local name. Those with the same hash follow one another, in their order.
pub(crate) fn table_of<M: AsMapping>(
    alloc: Global,
    mappings: &[M],
) -> Result<Vec<Named<'_, M>>, AllocError>
    ensures { IfOk result (λ rows. ListsNumbered M.mapped (map M.mapped mappings.now) rows.items) }
{
    let mut rows = rows_of(alloc, mappings)?;
    put_together(&mut rows)?;
    Ok(rows)
}

// The index of the first row with another hash.
fn other_in<M>(rows: &[Named<'_, M>], number: u64) -> Option<usize>
    ensures { result ≡ position (λ row. not (has_number number row)) rows.now }
{
    rows.iter().position(|row| row.number != number)
}

// The number of leading rows with this hash.
fn run_len<M>(rows: &[Named<'_, M>], number: u64) -> usize
    ensures place { result ≡ position_or_len (λ row. not (has_number number row)) rows.now }
    ensures within { result ≤ length rows.now }
{
    other_in(rows, number).unwrap_or(rows.len())
}

// The leading rows with this hash.
fn run_of<'r, 'a, M>(rows: &'r [Named<'a, M>], number: u64) -> &'r [Named<'a, M>]
    ensures run { result.now ≡ run_of number rows.now }
    ensures rest { drop (length result.now) rows.now ≡ after_run number rows.now }
    ensures within { length result.now ≤ length rows.now }
{
    &rows[..run_len(rows, number)]
}

// Appends a group, if it has several rows.
fn push_several<'r, 'a, M>(
    groups: &mut Vec<Group<'r, 'a, M>>,
    group: Group<'r, 'a, M>,
) -> Result<(), AllocError>
    ensures { OnOk result (groups.new.items ≡ groups.old.items ++ several group.entry) }
{
    if group.rows.len() > 1 {
        groups.push(group)?;
    }
    Ok(())
}

// The groups of all hashes with several rows, in the order of the rows.
fn several_of<'r, 'a, M>(
    alloc: Global,
    rows: &'r [Named<'a, M>],
) -> Result<Vec<Group<'r, 'a, M>>, AllocError>
    requires { AreTogether rows.now }
    ensures { IfOk result (λ groups. AreGroups rows.now groups.items) }
{
    let mut groups = Vec::new(alloc);
    let mut start = 0;
    while let Some(first) = rows.get(start) {
        let number = first.number;
        let place = first.place;
        let run = run_of(&rows[start..], number);
        push_several(
            &mut groups,
            Group {
                number,
                place,
                rows: run,
            },
        )?;
        start += run.len();
    }
    Ok(groups)
}

// Sorts groups by their first rows, so that their mappings are read in memory order. No contract promises this order.
fn sort_groups<M>(groups: &mut Vec<Group<'_, '_, M>>)
    ensures { IsPermutation groups.old.items groups.new.items }
{
    groups.sort_unstable_by_key(|group| group.place);
}

/// The groups of all hashes with several rows.
pub(crate) fn groups_of<'r, 'a, M>(
    alloc: Global,
    rows: &'r [Named<'a, M>],
) -> Result<Vec<Group<'r, 'a, M>>, AllocError>
    requires { AreTogether rows.now }
    ensures { IfOk result (λ groups. AreGroups rows.now groups.items) }
{
    let mut groups = several_of(alloc, rows)?;
    sort_groups(&mut groups);
    Ok(groups)
}

fn push_mappings<'a, M>(rows: &[Named<'a, M>], mappings: &mut Vec<&'a M>) -> Result<(), AllocError>
    ensures { OnOk result (mappings.new.items ≡ mappings.old.items ++ mappings_of rows.now) }
{
    'rows: for row in rows {
        mappings.push(row.mapping)?;
    }
    Ok(())
}

/// The mappings of groups, group by group.
pub(crate) fn mappings_of<'a, M>(
    alloc: Global,
    groups: &[Group<'_, 'a, M>],
) -> Result<Vec<&'a M>, AllocError>
    ensures { IfOk result (λ mappings. mappings.items ≡ grouped groups.now) }
{
    let mut mappings = Vec::new(alloc);
    'groups: for group in groups {
        push_mappings(group.rows, &mut mappings)?;
    }
    Ok(mappings)
}
