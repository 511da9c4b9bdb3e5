//! The mappings of refs by refspecs, and the prefixes of refspecs.
ghost use Rattle.std.specs.Prelude.{◌≡◌};
ghost use Rattle.gixp_records.specs.MappingEntry.{buffers};
ghost use Rattle.gixp_calls.specs.Exports.{ExportsMap, ExportsPrefixes};
ghost use Rattle.gixp_calls.specs.Codes.{map_end_code, map_refused_code, specs_code};

use crate::code::{BAD_PLACE, CONFLICT, NO_MEMORY, NO_ROOM, OK, spec_code};
use crate::texts::write_text;
use gixp_records::{
    MapEnd, MapRefused, MappedRecord, MappingRecord, RefRecord, SpecsRefused, map_records,
    prefix_text,
};
use std::alloc::Global;

fn end_code(end: MapEnd) -> u32
    ensures { result ≡ map_end_code end }
{
    match end {
        MapEnd::Mapped => OK,
        MapEnd::Conflicts => CONFLICT,
        MapEnd::NoRoom => NO_ROOM,
    }
}

fn refused_code(e: MapRefused) -> u32
    ensures { result ≡ map_refused_code e }
{
    match e {
        MapRefused::Place => BAD_PLACE,
        MapRefused::Spec(e) => spec_code(&e),
        MapRefused::Memory => NO_MEMORY,
    }
}

fn specs_code(e: SpecsRefused) -> u32
    ensures { result ≡ specs_code e }
{
    match e {
        SpecsRefused::Spec(e) => spec_code(&e),
        SpecsRefused::Memory => NO_MEMORY,
    }
}

/// Maps refs by refspecs, one per line (git-fetch, "<refspec>"). A source that is `@` alone means `HEAD`. The names of the refs are
/// spans of `answer`.
///
/// Returns:
///
/// - 0 if the records are the mappings, then the removed ones, and the buffer has their local names;
/// - 51 if mappings conflict: the records are the conflicts;
/// - 2 if a buffer is too small: `counts` has the required sizes, and nothing else is changed;
/// - 3 if a name isn't within `answer`, 4 if an allocation failed, another number for a line that isn't a valid refspec. Then
///   nothing is changed.
pub fn map_refs(
    alloc: Global,
    answer: &[u8],
    refs: &[RefRecord],
    specs: &[u8],
    mappings: &mut [MappingRecord],
    names: &mut [u8],
    counts: &mut MappedRecord,
) -> u32
    ensures { ExportsMap answer.now refs.now specs.now (buffers mappings.old names.old counts.old)
        result (buffers mappings.new names.new counts.new) }
{
    match map_records(alloc, answer, refs, specs, mappings, names, counts) {
        Ok(end) => end_code(end),
        Err(e) => refused_code(e),
    }
}

/// Writes the ref prefixes of refspecs, one per line, each followed by an LF, and their length (gitprotocol-v2, `ref-prefix`).
///
/// Returns:
///
/// - 0 if the buffer has them;
/// - 2 if the buffer is too small: only the length is written;
/// - 4 if an allocation failed, another number for a line that isn't a valid refspec. Then nothing is changed.
pub fn write_prefixes(alloc: Global, specs: &[u8], buffer: &mut [u8], len: &mut usize) -> u32
    ensures { ExportsPrefixes specs.now buffer.old len.old result buffer.new len.new }
{
    match prefix_text(alloc, specs) {
        Ok(text) => write_text(text.as_slice(), buffer, len),
        Err(e) => specs_code(e),
    }
}
