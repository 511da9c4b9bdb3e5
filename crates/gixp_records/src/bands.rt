//! The bands of a pack, packet line by packet line (gitprotocol-pack, "Packfile Data").
ghost use Rattle.std.specs.Prelude.{◌≡◌, ◌≤◌, length};
ghost use Rattle.gixp_records.specs.Span.{text_at, IsWithin};
ghost use Rattle.gixp_records.specs.Bands.{IsPieceOf, IsNextPiece};

use crate::packets::{NextPacket, PacketRefused, following, next_packet, without_line_end};
use crate::span::{Span, text_at};
use gixp_packetline::MessageKind;

/// The content of a packet line of a pack.
#[derive(Clone, Copy, Debug, PartialEq, Eq)]
pub enum BandPiece {
    /// Bytes of the pack, possibly none.
    Content(Span),
    /// A progress message without one trailing LF, possibly empty.
    Progress(Span),
    /// An error message of the server in the same form. The pack may continue after it.
    Error(Span),
    /// The packet after the pack.
    Stop(MessageKind),
}

#[inline(always)]
fn piece_of(bytes: &[u8], line: Span) -> Result<BandPiece, PacketRefused>
    requires { IsWithin bytes.now line }
    ensures { IsPieceOf bytes.now (text_at bytes.now line) result }
{
    match text_at(bytes, line) {
        [] => Ok(BandPiece::Content(line)),
        [1, ..] => Ok(BandPiece::Content(following(bytes, line, 1))),
        [2, ..] => Ok(BandPiece::Progress(without_line_end(bytes, following(bytes, line, 1)))),
        [3, ..] => Ok(BandPiece::Error(without_line_end(bytes, following(bytes, line, 1)))),
        [band, ..] => Err(PacketRefused::UnknownBand(*band)),
    }
}

/// Reads the packet line at an offset of a response, and returns its content and the offset after it. The offset must be after the
/// sections of the response (gitprotocol-pack, "Packfile Data"). It allocates nothing.
///
/// # Errors
///
/// The error of the packet line. `Incomplete` if it continues after the end of `bytes`.
pub fn next_piece(bytes: &[u8], at: usize) -> Result<(BandPiece, usize), PacketRefused>
    requires { at ≤ length bytes.now }
    ensures { IsNextPiece bytes.now at result }
{
    match next_packet(bytes, at)? {
        NextPacket::Line(line, next) => Ok((piece_of(bytes, line)?, next)),
        NextPacket::Mark(kind, next) => Ok((BandPiece::Stop(kind), next)),
    }
}
