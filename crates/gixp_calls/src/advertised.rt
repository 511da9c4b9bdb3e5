//! The refs of an advertisement.
ghost use Rattle.std.specs.Prelude.{◌≡◌};
ghost use Rattle.gixp_calls.specs.Exports.{advertised_words, ExportsAdvertised};
ghost use Rattle.gixp_calls.specs.Codes.{advertised_end_code};

use crate::code::{BAD_PLACE, MORE, NO_ROOM, OK, advertised_code};
use crate::refs::FoundRecord;
use gixp_records::{
    AdvertisedEnd, AdvertisedRefused, PacketRefused, RefRecord, Span, read_advertised,
};
use std::alloc::Global;

// The number of an end, and the span of the server's message.
fn code_of(end: AdvertisedEnd) -> (u32, Span)
    ensures code { result.0 ≡ advertised_end_code end }
    ensures words { result.1 ≡ advertised_words end }
{
    match end {
        AdvertisedEnd::Stop => (OK, Span::NONE),
        AdvertisedEnd::Full => (MORE, Span::NONE),
        AdvertisedEnd::Refused(AdvertisedRefused::Packet(PacketRefused::Server(words))) => {
            (
                advertised_code(AdvertisedRefused::Packet(PacketRefused::Server(words))),
                words,
            )
        }
        AdvertisedEnd::Refused(e) => (advertised_code(e), Span::NONE),
    }
}

/// Reads refs of a version 0 or 1 advertisement from an offset on, until the records are full (gitprotocol-pack, "Reference
/// Discovery"). `answer` begins with the server's first packet line. The first call reads from offset 0.
///
/// Returns:
///
/// - 0 if the advertisement's stop was read;
/// - 1 if the next call has to continue at `next`;
/// - 2 if `records` is empty: only `count` is changed, to 1;
/// - 3 if `from` is beyond the bytes: nothing is changed;
/// - another number for an error at `next` or after it, 10 if the advertisement continues after the end of `answer`. The records
///   have the refs before the error.
pub fn list_advertised(
    alloc: Global,
    answer: &[u8],
    from: usize,
    records: &mut [RefRecord],
    found: &mut FoundRecord,
) -> u32
    ensures { ExportsAdvertised answer.now from records.old found.old result records.new found.new }
{
    if from > answer.len() {
        return BAD_PLACE;
    }
    if records.is_empty() {
        found.count = 1;
        return NO_ROOM;
    }
    let read = read_advertised(alloc, answer, from, records);
    let (code, words) = code_of(read.end);
    found.count = read.count;
    found.next = read.next;
    found.words = words;
    code
}
