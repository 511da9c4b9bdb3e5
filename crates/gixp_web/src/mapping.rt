//! The exports that map refs by refspecs.
ghost use Rattle.gixp_records.specs.MappingEntry.{buffers};
ghost use Rattle.gixp_calls.specs.Exports.{ExportsMap, ExportsPrefixes};

use gixp_calls::{map_refs, write_prefixes};
use gixp_records::{MappedRecord, MappingRecord, RefRecord};
use std::alloc::Global;

/// Maps refs by refspecs, one per line (git-fetch, "<refspec>"). A source that is `@` alone means `HEAD`. The names of the refs are
/// spans of `answer`.
///
/// Returns:
///
/// - 0 if the records are the mappings, then the removed ones, and the buffer has their local names;
/// - 51 if mappings conflict: the records are the conflicts;
/// - 2 if a buffer is too small: `counts` has the required sizes, and nothing else is changed;
/// - 3 if a name isn't within `answer`, 4 if an allocation failed, another number for a line that isn't a valid refspec. Then
///   nothing is changed.
#[unsafe(no_mangle)]
pub extern "C" fn gixp_map(
    alloc: Global,
    answer: &[u8],
    refs: &[RefRecord],
    specs: &[u8],
    mappings: &mut [MappingRecord],
    names: &mut [u8],
    counts: &mut MappedRecord,
) -> u32
    ensures { ExportsMap answer.now refs.now specs.now (buffers mappings.old names.old counts.old)
        result (buffers mappings.new names.new counts.new) }
{
    map_refs(alloc, answer, refs, specs, mappings, names, counts)
}

/// Writes the ref prefixes of refspecs, one per line, each followed by an LF, and their length (gitprotocol-v2, `ref-prefix`).
///
/// Returns:
///
/// - 0 if the buffer has them;
/// - 2 if the buffer is too small: only the length is written;
/// - 4 if an allocation failed, another number for a line that isn't a valid refspec. Then nothing is changed.
#[unsafe(no_mangle)]
pub extern "C" fn gixp_prefixes(
    alloc: Global,
    specs: &[u8],
    buffer: &mut [u8],
    len: &mut usize,
) -> u32
    ensures { ExportsPrefixes specs.now buffer.old len.old result buffer.new len.new }
{
    write_prefixes(alloc, specs, buffer, len)
}
