//! The mappings that refspecs make from refs, as records (git-fetch, "<refspec>").
ghost use Rattle.std.specs.Prelude.{◌≡◌, ◌↔◌, ◌++◌, IsTrue, IfOk, OnOk, true, false, length, map};
ghost use Rattle.gixp_refspec.specs.RefSpec.{value_of};
ghost use Rattle.gixp_refspec.specs.Texts.{texts};
ghost use Rattle.gixp_matching.specs.Mappings.{mappings};
ghost use Rattle.gixp_matching.specs.MatchGroup.{mapped_of, names};
ghost use Rattle.gixp_matching.specs.Validate.{removed_of, conflict_of, Validates};
ghost use Rattle.gixp_records.specs.Span.{IsWithin};
ghost use Rattle.gixp_records.specs.MappingEntry.{entry_value, buffers, WritesOrFails};
ghost use Rattle.gixp_records.specs.Spelling.{spec_lines};
ghost use Rattle.gixp_records.specs.MapRecords.{names_in, AreNamesWithin, mapping_entry, removed_entry, conflict_entry, end_of, MapsRecords};

use crate::mapping_entry::{MappedRecord, MappingEntry, MappingRecord, tell};
use crate::refs::RefRecord;
use crate::span::{Span, text_at};
use crate::spec_text::{SpecsRefused, specs_in};
use crate::spelling::spec_lines;
use bstr::{BStr, BString};
use gixp_hash::ObjectId;
use gixp_matching::match_group::validate::{Error as Conflicting, Fix, Issue};
use gixp_matching::match_group::{Item, Mapping, MatchGroup, Outcome};
use gixp_refspec::RefSpecRef;
use gixp_refspec::parse::Error as SpecError;
use std::alloc::{AllocError, Global};

/// The result of a call that maps refs.
#[derive(Clone, Copy, Debug)]
pub enum MapEnd {
    /// The records are the mappings, then the removed ones.
    Mapped,
    /// Mappings conflict. The records are the conflicts.
    Conflicts,
    /// A buffer is too small. `counts` has the required sizes. Nothing else is changed.
    NoRoom,
}

/// The error of a call that maps refs.
#[derive(Clone, Copy, Debug, Drop)]
pub enum MapRefused {
    /// The span of a ref's name isn't within the bytes.
    Place,
    /// The first line that isn't a valid refspec.
    Spec(SpecError),
    /// An allocation failed.
    Memory,
}

fn is_within(bytes: &[u8], span: Span) -> bool
    ensures { IsTrue result ↔ IsWithin bytes.now span }
{
    span.at <= bytes.len() && span.len <= bytes.len() - span.at
}

// Whether the names of all records are within the bytes.
fn are_names_within(bytes: &[u8], refs: &[RefRecord]) -> bool
    ensures within { result ≡ true → AreNamesWithin bytes.now refs.now }
    ensures beyond { result ≡ false → ¬ (AreNamesWithin bytes.now refs.now) }
{
    for found in refs {
        if !is_within(bytes, found.name) {
            return false;
        }
    }
    true
}

// The refs as items to match. Matching uses only names.
fn items_of<'a>(
    alloc: Global,
    bytes: &'a [u8],
    refs: &[RefRecord],
    none: &'a ObjectId,
) -> Result<Vec<Item<'a>>, AllocError>
    requires { AreNamesWithin bytes.now refs.now }
    ensures { IfOk result (λ items. names items.items ≡ names_in bytes.now refs.now) }
{
    let mut items = Vec::new(alloc);
    for found in refs {
        let name = text_at(bytes, found.name);
        items.push(Item {
            full_ref_name: BStr::new(name),
            target: none,
            object: None,
        })?;
    }
    Ok(items)
}

// The record of a mapping.
fn reported_of<'a>(mapping: &'a Mapping, refs: usize) -> MappingEntry<'a>
    ensures { entry_value result ≡ mapping_entry refs (mapped_of mapping.now) }
{
    MappingEntry {
        item: mapping.item_index.unwrap_or(refs),
        spec: mapping.spec_index,
        local: match &mapping.rhs {
            Some(name) => Some(name.as_bytes()),
            None => None,
        },
    }
}

// The record of a removed mapping.
fn entry_of_fix<'a>(fix: &'a Fix, refs: usize, specs: usize) -> MappingEntry<'a>
    ensures { entry_value result ≡ removed_entry refs specs (removed_of fix.now) }
{
    let Fix::MappingWithPartialDestinationRemoved { name, .. } = fix;
    MappingEntry {
        item: refs,
        spec: specs,
        local: Some(name.as_bytes()),
    }
}

// The record of a conflict.
fn entry_of_issue<'a>(issue: &'a Issue, specs: usize) -> MappingEntry<'a>
    ensures { entry_value result ≡ conflict_entry specs (conflict_of issue.now) }
{
    let Issue::Conflict {
        destination_full_ref_name,
        sources,
        ..
    } = issue;
    MappingEntry {
        item: sources.len(),
        spec: specs,
        local: Some(destination_full_ref_name.as_bytes()),
    }
}

// The records of mappings.
fn tell_of_mappings<'a>(
    alloc: Global,
    found: &'a [Mapping],
    refs: usize,
) -> Result<Vec<MappingEntry<'a>>, AllocError>
    ensures { IfOk result (λ all. map entry_value all.items ≡ map (mapping_entry refs) (map mapped_of found.now)) }
{
    let mut all = Vec::new(alloc);
    for mapping in found {
        all.push(reported_of(mapping, refs))?;
    }
    Ok(all)
}

// Adds the records of removed mappings.
fn push_fixes<'a>(
    all: &mut Vec<MappingEntry<'a>>,
    fixes: &'a [Fix],
    refs: usize,
    specs: usize,
) -> Result<(), AllocError>
    ensures { OnOk result (map entry_value all.new.items
        ≡ map entry_value all.old.items ++ map (removed_entry refs specs) (map removed_of fixes.now)) }
{
    for fix in fixes {
        all.push(entry_of_fix(fix, refs, specs))?;
    }
    Ok(())
}

// The records of conflicts.
fn tell_of_issues<'a>(
    alloc: Global,
    issues: &'a [Issue],
    specs: usize,
) -> Result<Vec<MappingEntry<'a>>, AllocError>
    ensures { IfOk result (λ all. map entry_value all.items ≡ map (conflict_entry specs) (map conflict_of issues.now)) }
{
    let mut all = Vec::new(alloc);
    for issue in issues {
        all.push(entry_of_issue(issue, specs))?;
    }
    Ok(all)
}

// Writes the mappings, then the removed ones. `given` is the number of refs and of refspecs.
fn tell_mappings(
    alloc: Global,
    mapped: (&[Mapping], &[Fix]),
    given: (usize, usize),
    records: &mut [MappingRecord],
    names: &mut [u8],
    counts: &mut MappedRecord,
) -> Result<bool, AllocError>
    ensures { WritesOrFails (map (mapping_entry given.0) (map mapped_of mapped.entry.0.now)
        ++ map (removed_entry given.0 given.1) (map removed_of mapped.entry.1.now)) (length mapped.entry.1.now)
        (buffers records.old names.old counts.old) (buffers records.new names.new counts.new) result }
{
    let (found, fixes) = mapped;
    let (refs, specs) = given;
    let mut all = tell_of_mappings(alloc, found, refs)?;
    push_fixes(&mut all, fixes, refs, specs)?;
    Ok(tell(&all, fixes.len(), records, names, counts))
}

// Writes the conflicts.
fn tell_conflicts(
    alloc: Global,
    issues: &[Issue],
    specs: usize,
    records: &mut [MappingRecord],
    names: &mut [u8],
    counts: &mut MappedRecord,
) -> Result<bool, AllocError>
    ensures { WritesOrFails (map (conflict_entry specs) (map conflict_of issues.now)) 0
        (buffers records.old names.old counts.old) (buffers records.new names.new counts.new) result }
{
    let all = tell_of_issues(alloc, issues, specs)?;
    Ok(tell(&all, 0, records, names, counts))
}

// The mappings of the refs, validated.
fn validated<'s>(
    alloc: Global,
    bytes: &[u8],
    refs: &[RefRecord],
    specs: &'s [RefSpecRef<'s>],
) -> Result<Result<(Outcome<'s>, Vec<Fix>), Conflicting>, AllocError>
    requires { AreNamesWithin bytes.now refs.now }
    ensures { IfOk result (Validates (map value_of specs.now) (mappings (map value_of specs.now) (names_in bytes.now refs.now))) }
{
    let none = ObjectId::null();
    let items = items_of(alloc, bytes, refs, &none)?;
    let outcome = MatchGroup::from_fetch_specs(specs).match_lhs(alloc, &items)?;
    outcome.validated(alloc)
}

// The result of a call. `entries` says whether the buffers were large enough.
fn end_of(entries: Result<bool, AllocError>, whole: MapEnd) -> Result<MapEnd, MapRefused>
    ensures { result ≡ end_of entries whole }
{
    match entries {
        Ok(true) => Ok(whole),
        Ok(false) => Ok(MapEnd::NoRoom),
        Err(_) => Err(MapRefused::Memory),
    }
}

// Maps refs by the refspecs of lines.
fn map_lines(
    alloc: Global,
    bytes: &[u8],
    refs: &[RefRecord],
    lines: &Vec<BString>,
    records: &mut [MappingRecord],
    names: &mut [u8],
    counts: &mut MappedRecord,
) -> Result<MapEnd, MapRefused>
    ensures { MapsRecords bytes.now refs.now (texts lines.now) (buffers records.old names.old counts.old)
        (buffers records.new names.new counts.new) result }
{
    let specs = match specs_in(alloc, lines) {
        Ok(specs) => specs,
        Err(SpecsRefused::Spec(e)) => return Err(MapRefused::Spec(e)),
        Err(SpecsRefused::Memory) => return Err(MapRefused::Memory),
    };
    if !are_names_within(bytes, refs) {
        return Err(MapRefused::Place);
    }
    let given = (refs.len(), specs.len());
    match validated(alloc, bytes, refs, &specs) {
        Ok(Ok((outcome, fixes))) => {
            let mapped = (outcome.mappings.as_slice(), fixes.as_slice());
            let entries = tell_mappings(alloc, mapped, given, records, names, counts);
            end_of(entries, MapEnd::Mapped)
        }
        Ok(Err(e)) => {
            let entries = tell_conflicts(alloc, &e.issues, given.1, records, names, counts);
            end_of(entries, MapEnd::Conflicts)
        }
        Err(_) => Err(MapRefused::Memory),
    }
}

/// Maps refs by refspecs, one per line of `text` (git-fetch, "<refspec>"). A source that is `@` alone means `HEAD`. The names of the
/// refs are spans of `bytes`. The records become the mappings, then the removed ones; or the conflicts, if there are any. The buffer
/// `names` becomes their local names, one after another.
///
/// # Errors
///
/// Those of [`MapRefused`]. Then nothing is changed.
pub fn map_records(
    alloc: Global,
    bytes: &[u8],
    refs: &[RefRecord],
    text: &[u8],
    records: &mut [MappingRecord],
    names: &mut [u8],
    counts: &mut MappedRecord,
) -> Result<MapEnd, MapRefused>
    ensures { MapsRecords bytes.now refs.now (spec_lines text.now) (buffers records.old names.old counts.old)
        (buffers records.new names.new counts.new) result }
{
    let Ok(lines) = spec_lines(alloc, text) else {
        return Err(MapRefused::Memory);
    };
    map_lines(alloc, bytes, refs, &lines, records, names, counts)
}
