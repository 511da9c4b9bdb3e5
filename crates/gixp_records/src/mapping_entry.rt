//! Mappings as records of numbers, and their local names one after another.
ghost use Rattle.std.specs.Prelude.{◌≡◌, ◌++◌, ◌+◌, ◌-◌, ◌^◌, ◌≤◌, min, length, map, take, drop};
ghost use Rattle.gixp_records.specs.MappingEntry.{entry_value, local_bytes, local_names, record_at, records_from, counts_of, buffers, WritesBy};

use crate::span::Span;

/// A mapping, a removed mapping, or a conflict.
#[repr(C)]
#[derive(Clone, Copy)]
pub struct MappingRecord {
    /// The index of the ref. If the source of a mapping is an object id, the number of refs. Of a conflict, the number of mappings
    /// with this local name.
    pub item: usize,
    /// The index of the refspec. Of a removed mapping or a conflict, the number of refspecs.
    pub spec: usize,
    /// 1 if there is a local name, otherwise 0.
    pub has_local: u32,
    /// The span of the local name in the buffer of names.
    pub local: Span,
}

/// The sizes of the result.
#[repr(C)]
#[derive(Clone, Copy)]
pub struct MappedRecord {
    /// The number of mappings, or of conflicts.
    pub mappings: usize,
    /// The number of removed mappings. Their local name isn't `HEAD` and doesn't begin with `refs/`. They follow the others.
    pub fixes: usize,
    /// The length of all local names together, in bytes.
    pub names: usize,
}

// The content of a record.
#[derive(Clone, Copy)]
pub(crate) struct MappingEntry<'a> {
    pub(crate) item: usize,
    pub(crate) spec: usize,
    pub(crate) local: Option<&'a [u8]>,
}

// The local name, empty if there is none.
fn local_bytes<'a>(entries: MappingEntry<'a>) -> &'a [u8]
    ensures { result.now ≡ local_bytes (entry_value entries.entry) }
{
    match entries.local {
        Some(name) => name,
        None => &[],
    }
}

// The record whose local name is at this offset of the buffer.
fn record_at(entries: MappingEntry<'_>, at: usize) -> MappingRecord
    ensures { result ≡ record_at at (entry_value entries.entry) }
{
    match entries.local {
        Some(name) => MappingRecord {
            item: entries.item,
            spec: entries.spec,
            has_local: 1,
            local: Span {
                at,
                len: name.len(),
            },
        },
        None => MappingRecord {
            item: entries.item,
            spec: entries.spec,
            has_local: 0,
            local: Span { at, len: 0 },
        },
    }
}

// Writes a name at an offset.
fn write_name(names: &mut [u8], at: usize, name: &[u8])
    requires { at + length name.now ≤ length names.old }
    ensures { names.new ≡ take at names.old ++ name.now ++ drop (at + length name.now) names.old }
{
    names[at..at + name.len()].copy_from_slice(name);
}

// The length of all local names, or the greatest number if that is less.
fn names_len(all: &[MappingEntry<'_>]) -> usize
    ensures { result ≡ min (length (local_names (map entry_value all.now))) (2 ^ 64 - 1) }
{
    let mut len: usize = 0;
    for entries in all {
        len = len.saturating_add(local_bytes(*entries).len());
    }
    len
}

// Writes all records and names. The buffers must be large enough.
fn write_all(all: &[MappingEntry<'_>], records: &mut [MappingRecord], names: &mut [u8])
    requires records { length all.now ≤ length records.old }
    requires names { length (local_names (map entry_value all.now)) ≤ length names.old }
    ensures records { records.new ≡ records_from 0 (map entry_value all.now) ++ drop (length all.now) records.old }
    ensures names { names.new ≡ local_names (map entry_value all.now)
        ++ drop (length (local_names (map entry_value all.now))) names.old }
{
    let mut at = 0;
    for (place, entries) in all.iter().enumerate() {
        let name = local_bytes(*entries);
        records[place] = record_at(*entries, at);
        write_name(names, at, name);
        at += name.len();
    }
}

// The sizes. The last `fixes` records are removed mappings.
fn counts_of(all: &[MappingEntry<'_>], fixes: usize) -> MappedRecord
    ensures { result ≡ counts_of (map entry_value all.now) fixes }
{
    MappedRecord {
        mappings: all.len().saturating_sub(fixes),
        fixes,
        names: names_len(all),
    }
}

// Writes all records and names if the buffers are large enough. Writes the sizes in either case.
pub(crate) fn tell(
    all: &[MappingEntry<'_>],
    fixes: usize,
    records: &mut [MappingRecord],
    names: &mut [u8],
    counts: &mut MappedRecord,
) -> bool
    ensures { WritesBy (map entry_value all.now) fixes (buffers records.old names.old counts.old)
        (buffers records.new names.new counts.new) result }
{
    *counts = counts_of(all, fixes);
    if all.len() > records.len() || counts.names > names.len() {
        return false;
    }
    write_all(all, records, names);
    true
}
