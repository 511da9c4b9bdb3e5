//! The refs of an advertisement under version 0 or 1 as records (gitprotocol-pack, "Reference Discovery").
ghost use Rattle.std.specs.Prelude.{◌≡◌, ◌≤◌, true, All, length, map};
ghost use Rattle.gixp_packetline.specs.Lines.{lines_of};
ghost use Rattle.gixp_transport.specs.CapabilityAdvertisement.{advertisement};
ghost use Rattle.gixp_packetline.specs.Pieces.{stream_pieces};
ghost use Rattle.gixp_records.specs.Packets.{pieces_at};
ghost use Rattle.gixp_records.specs.ListedLine.{lines_lose_white_space, refs_lose_white_space};
ghost use Rattle.gixp_records.specs.RefsOpening.{cut_lines};
ghost use Rattle.gixp_records.specs.V1RecordLine.{symref_at, IsSymrefWithin};
ghost use Rattle.gixp_records.specs.AdvertisedRecords.{ReadsGroups, ReadsAdvertised};

use crate::packets::{NextPacket, next_packet};
use crate::refs::RefRecord;
use crate::span::text_at;
use crate::white_space::{lines_lose_white_space, loses_white_space};
use std::alloc::Global;

mod groups;
mod opening;
mod ref_line;
mod refused;
mod symrefs;

use groups::{Scan, SymrefScope, read_step};
use opening::{Opened, RefsOpening, open_advertisement};
pub use refused::{AdvertisedLineRefused, AdvertisedRefused};
use symrefs::{SymrefSpan, read_symrefs};

/// Why a call stopped reading refs.
#[derive(Clone, Copy, Debug, PartialEq, Eq)]
pub enum AdvertisedEnd {
    /// The records are full. The next call continues.
    Full,
    /// The advertisement's stop was read. `next` is the offset after it.
    Stop,
    /// An error at the offset `next` or after it.
    Refused(AdvertisedRefused),
}

/// The result of a call that reads refs.
#[derive(Clone, Copy, Debug, PartialEq, Eq)]
pub struct AdvertisedFound {
    /// The number of records written.
    pub count: usize,
    /// The offset after the lines of these records.
    pub next: usize,
    /// Why the call stopped.
    pub end: AdvertisedEnd,
}

// Reads refs from an offset on, until the records are full.
fn read_groups(
    bytes: &[u8],
    opening: &RefsOpening,
    symrefs: &[SymrefSpan],
    from: usize,
    records: &mut [RefRecord],
) -> AdvertisedFound
    requires symrefs { All (IsSymrefWithin bytes.now) symrefs.now }
    requires first { opening.now.first ≤ from }
    requires from { from ≤ length bytes.now }
    ensures { ReadsGroups bytes.now opening.now (map (symref_at bytes.now) symrefs.now) from records.old result records.new }
{
    let mut scope = SymrefScope {
        at: from,
        place: from,
        last: None,
    };
    let mut count = 0;
    while count < records.len() {
        match read_step(bytes, opening, symrefs, scope) {
            Ok(Scan::On(following)) => scope = following,
            Ok(Scan::Record(record, following)) => {
                records[count] = record;
                count += 1;
                scope = following;
            }
            Ok(Scan::Last(record, next)) => {
                records[count] = record;
                let count = count + 1;
                let end = AdvertisedEnd::Stop;
                return AdvertisedFound { count, next, end };
            }
            Ok(Scan::Stop(next)) => {
                let end = AdvertisedEnd::Stop;
                return AdvertisedFound { count, next, end };
            }
            Err(e) => {
                let next = scope.place;
                let end = AdvertisedEnd::Refused(e);
                return AdvertisedFound { count, next, end };
            }
        }
    }
    let next = scope.place;
    let end = AdvertisedEnd::Full;
    AdvertisedFound { count, next, end }
}

/// Reads refs of a version 0 or 1 advertisement from an offset on, until the records are full (gitprotocol-pack, "Reference
/// Discovery"). `bytes` begins with the server's first packet line. An offset before the first ref line means that line. A tag has
/// one record for its ref line and its peeled line. Shallow lines have none.
///
/// Only the list of symrefs in the first ref line is allocated. An error is at the offset `next` or after it, and the records have
/// the refs before it. The error is `Incomplete` if the advertisement continues after the end of `bytes`: a ref line is read only
/// when the next line is known. The other records are unchanged.
pub fn read_advertised(
    alloc: Global,
    bytes: &[u8],
    from: usize,
    records: &mut [RefRecord],
) -> AdvertisedFound
    requires { from ≤ length bytes.now }
    ensures { ReadsAdvertised bytes.now from records.old result records.new }
{
    let opening = match open_advertisement(bytes) {
        Ok(Opened::Refs(opening)) => opening,
        Ok(Opened::Empty(next)) => {
            return AdvertisedFound {
                count: 0,
                next,
                end: AdvertisedEnd::Stop,
            };
        }
        Err(e) => {
            return AdvertisedFound {
                count: 0,
                next: from,
                end: AdvertisedEnd::Refused(e),
            };
        }
    };
    let symrefs = match read_symrefs(alloc, bytes, opening.capabilities) {
        Ok(symrefs) => symrefs,
        Err(e) => {
            return AdvertisedFound {
                count: 0,
                next: from,
                end: AdvertisedEnd::Refused(e),
            };
        }
    };
    read_groups(bytes, &opening, &symrefs, from.max(opening.first), records)
}

// Whether a ref line from the first one on loses white space.
fn refs_lose_white_space(bytes: &[u8], opening: &RefsOpening) -> bool
    requires { opening.now.first ≤ length bytes.now }
    ensures { result ≡ lines_lose_white_space
        (cut_lines true opening.now.cut (lines_of opening.now.version (pieces_at bytes.now opening.now.first))) }
{
    match next_packet(bytes, opening.first) {
        Ok(NextPacket::Line(line, next)) => {
            let text = text_at(bytes, line);
            if loses_white_space(&text[..opening.cut.min(text.len())]) {
                return true;
            }
            lines_lose_white_space(bytes, next)
        }
        Ok(NextPacket::Mark(_, _)) => false,
        Err(_) => false,
    }
}

/// Whether a line of the refs of a version 0 or 1 advertisement loses white space outside ASCII at its end, which git allows in names
/// of refs (gitprotocol-pack, "Reference Discovery"; git-check-ref-format). The capabilities of the first ref line don't count. An
/// advertisement of another version has no refs. The lines end at the stop, or at an error.
pub fn advertisement_loses_white_space(bytes: &[u8]) -> bool
    ensures { result ≡ refs_lose_white_space (advertisement (stream_pieces bytes.now)) }
{
    match open_advertisement(bytes) {
        Ok(Opened::Refs(opening)) => refs_lose_white_space(bytes, &opening),
        Ok(Opened::Empty(_)) => false,
        Err(_) => false,
    }
}
