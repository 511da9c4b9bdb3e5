//! The exports that read refs and packs.
ghost use Rattle.gixp_calls.specs.Exports.{ExportsRefs, ExportsAdvertised, ExportsPiece};

use gixp_calls::{FoundRecord, PieceRecord, list_advertised, list_refs, read_piece};
use gixp_records::RefRecord;
use std::alloc::Global;

/// Reads refs of a version 2 `ls-refs` response from an offset on, until the records are full (gitprotocol-v2, "ls-refs").
///
/// Returns:
///
/// - 0 if the response's stop was read;
/// - 1 if the next call has to continue at `next`;
/// - 2 if `records` is empty: only `count` is changed, to 1;
/// - 3 if `from` is beyond the bytes: nothing is changed;
/// - another number for an error at `next`, 10 if the response continues after the end of `answer`. The records have the refs
///   before the error.
#[unsafe(no_mangle)]
pub extern "C" fn gixp_refs(
    answer: &[u8],
    from: usize,
    records: &mut [RefRecord],
    found: &mut FoundRecord,
) -> u32
    ensures { ExportsRefs answer.now from records.old found.old result records.new found.new }
{
    list_refs(answer, from, records, found)
}

/// Reads refs of a version 0 or 1 advertisement from an offset on, until the records are full (gitprotocol-pack, "Reference
/// Discovery"). `answer` begins with the server's first packet line. The first call reads from offset 0.
///
/// Returns:
///
/// - 0 if the advertisement's stop was read;
/// - 1 if the next call has to continue at `next`;
/// - 2 if `records` is empty: only `count` is changed, to 1;
/// - 3 if `from` is beyond the bytes: nothing is changed;
/// - another number for an error at `next` or after it, 10 if the advertisement continues after the end of `answer`. The records
///   have the refs before the error.
#[unsafe(no_mangle)]
pub extern "C" fn gixp_advertised(
    alloc: Global,
    answer: &[u8],
    from: usize,
    records: &mut [RefRecord],
    found: &mut FoundRecord,
) -> u32
    ensures { ExportsAdvertised answer.now from records.old found.old result records.new found.new }
{
    list_advertised(alloc, answer, from, records, found)
}

/// Reads the packet line at an offset of a response, after the sections, as bytes of the pack or a message of the server
/// (gitprotocol-pack, "Packfile Data").
///
/// Returns 0 if it was read: the next one begins at `next`. Returns 3 if `from` is beyond the bytes. Any other number is the error,
/// 10 if the response continues after the end of `answer`. Then the record is unchanged, unless the server sent an error: its text
/// is the server's message.
#[unsafe(no_mangle)]
pub extern "C" fn gixp_piece(answer: &[u8], from: usize, piece: &mut PieceRecord) -> u32
    ensures { ExportsPiece answer.now from piece.old result piece.new }
{
    read_piece(answer, from, piece)
}
