//! The refs of an `ls-refs` response.
ghost use Rattle.std.specs.Prelude.{◌≡◌, ◌<◌, length};
ghost use Rattle.gixp_calls.specs.Exports.{words_of, ExportsRefs};
ghost use Rattle.gixp_calls.specs.Codes.{end_code};

use crate::code::{BAD_PLACE, MORE, NO_ROOM, OK, refs_code};
use gixp_records::{PacketRefused, RefRecord, RefsEnd, RefsRefused, Span, read_refs};

/// The result of a call.
#[repr(C)]
#[derive(Clone, Copy)]
pub struct FoundRecord {
    /// The number of records written. If there was no record, the number required at least.
    pub count: usize,
    /// The offset after what was read.
    pub next: usize,
    /// The span of the server's message, if the server sent an error.
    pub words: Span,
}

// The number of an end, and the span of the server's message.
fn code_of(end: RefsEnd) -> (u32, Span)
    ensures code { result.0 ≡ end_code end }
    ensures words { result.1 ≡ words_of end }
{
    match end {
        RefsEnd::Stop => (OK, Span::NONE),
        RefsEnd::Full => (MORE, Span::NONE),
        RefsEnd::Refused(RefsRefused::Packet(PacketRefused::Server(words))) => {
            (
                refs_code(RefsRefused::Packet(PacketRefused::Server(words))),
                words,
            )
        }
        RefsEnd::Refused(e) => (refs_code(e), Span::NONE),
    }
}

/// Reads refs of a version 2 `ls-refs` response from an offset on, until the records are full (gitprotocol-v2, "ls-refs").
///
/// Returns:
///
/// - 0 if the response's stop was read;
/// - 1 if the next call has to continue at `next`;
/// - 2 if `records` is empty: only `count` is changed, to 1;
/// - 3 if `from` is beyond the bytes: nothing is changed;
/// - another number for an error at `next`, 10 if the response continues after the end of `answer`. The records have the refs
///   before the error.
pub fn list_refs(
    answer: &[u8],
    from: usize,
    records: &mut [RefRecord],
    found: &mut FoundRecord,
) -> u32
    ensures { ExportsRefs answer.now from records.old found.old result records.new found.new }
{
    if from > answer.len() {
        return BAD_PLACE;
    }
    if records.is_empty() {
        found.count = 1;
        return NO_ROOM;
    }
    let read = read_refs(answer, from, records);
    let (code, words) = code_of(read.end);
    found.count = read.count;
    found.next = read.next;
    found.words = words;
    code
}
