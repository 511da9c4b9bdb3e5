//! The offset of the pack in a response to a fetch (gitprotocol-v2, "fetch"; gitprotocol-pack, "Packfile Negotiation").
ghost use Rattle.std.specs.Prelude.{◌≡◌, ◌≤◌, MatchResult, length};
ghost use Rattle.gixp_records.specs.Place.{is_header, precedes_pack, FollowsHeader, FollowsAcknowledgements, RefusedFrom};

use crate::packets::{NextPacket, PacketRefused, next_packet};
use crate::span::text_at;

// Whether the line is the header `packfile`.
#[inline(always)]
fn is_header(line: &[u8]) -> bool
    ensures { result ≡ is_header line.now }
{
    line.starts_with(b"packfile")
}

// Whether the line is an acknowledgement or a shallow update.
#[inline(always)]
fn precedes_pack(line: &[u8]) -> bool
    ensures { result ≡ precedes_pack line.now }
{
    line.starts_with(b"NAK")
        || line.starts_with(b"ACK ")
        || line.starts_with(b"shallow ")
        || line.starts_with(b"unshallow ")
}

/// The offset of the pack in a version 2 response: after the header `packfile`.
///
/// # Errors
///
/// The error of a packet line before such a header. `Incomplete` if the header may follow after the end of `bytes`.
pub fn pack_start_v2(bytes: &[u8], from: usize) -> Result<usize, PacketRefused>
    requires { from ≤ length bytes.now }
    ensures { MatchResult result (FollowsHeader bytes.now from) (RefusedFrom bytes.now from) }
{
    let mut at = from;
    'packets: loop {
        match next_packet(bytes, at) {
            Ok(NextPacket::Line(payload, next)) => {
                if is_header(text_at(bytes, payload)) {
                    return Ok(next);
                }
                at = next;
            }
            Ok(NextPacket::Mark(_, next)) => at = next,
            Err(e) => return Err(e),
        }
    }
}

/// The offset of the pack in a version 0 or 1 response: the first line that is neither an acknowledgement nor a shallow update.
///
/// # Errors
///
/// The error of a packet line before such a line. `Incomplete` if the line may follow after the end of `bytes`.
pub fn pack_start_v0(bytes: &[u8], from: usize) -> Result<usize, PacketRefused>
    requires { from ≤ length bytes.now }
    ensures { MatchResult result (FollowsAcknowledgements bytes.now from) (RefusedFrom bytes.now from) }
{
    let mut at = from;
    'packets: loop {
        match next_packet(bytes, at) {
            Ok(NextPacket::Line(payload, next)) => {
                if !precedes_pack(text_at(bytes, payload)) {
                    return Ok(at);
                }
                at = next;
            }
            Ok(NextPacket::Mark(_, next)) => at = next,
            Err(e) => return Err(e),
        }
    }
}
