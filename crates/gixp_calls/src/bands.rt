//! The bands of a pack.
ghost use Rattle.std.specs.Prelude.{◌≡◌};
ghost use Rattle.gixp_calls.specs.Exports.{ExportsPiece, piece_band, piece_text, words_or};

use crate::code::{BAD_PLACE, OK, packet_code};
use gixp_records::{BandPiece, PacketRefused, Span, next_piece};

/// A packet line of a pack.
#[repr(C)]
#[derive(Clone, Copy)]
pub struct PieceRecord {
    /// 0 for the packet after the pack, 1 for bytes of the pack, 2 for a progress message, 3 for an error message.
    pub band: u32,
    /// The span of the bytes or the message. If the server sent an error instead, the span of its message.
    pub text: Span,
    /// The offset after the packet line.
    pub next: usize,
}

fn band_of(piece: BandPiece) -> u32
    ensures { result ≡ piece_band piece }
{
    match piece {
        BandPiece::Stop(_) => 0,
        BandPiece::Content(_) => 1,
        BandPiece::Progress(_) => 2,
        BandPiece::Error(_) => 3,
    }
}

fn text_of(piece: BandPiece) -> Span
    ensures { result ≡ piece_text piece }
{
    match piece {
        BandPiece::Stop(_) => Span::NONE,
        BandPiece::Content(text) | BandPiece::Progress(text) | BandPiece::Error(text) => text,
    }
}

// The span of the server's message, or else another text.
fn words_or(e: PacketRefused, other: Span) -> Span
    ensures { result ≡ words_or e other }
{
    match e {
        PacketRefused::Server(words) => words,
        _ => other,
    }
}

/// Reads the packet line at an offset of a response, after the sections, as bytes of the pack or a message of the server
/// (gitprotocol-pack, "Packfile Data").
///
/// Returns 0 if it was read: the next one begins at `next`. Returns 3 if `from` is beyond the bytes. Any other number is the error,
/// 10 if the response continues after the end of `answer`. Then the record is unchanged, unless the server sent an error: its text
/// is the server's message.
pub fn read_piece(answer: &[u8], from: usize, piece: &mut PieceRecord) -> u32
    ensures { ExportsPiece answer.now from piece.old result piece.new }
{
    if from > answer.len() {
        return BAD_PLACE;
    }
    match next_piece(answer, from) {
        Ok((found, next)) => {
            *piece = PieceRecord {
                band: band_of(found),
                text: text_of(found),
                next,
            };
            OK
        }
        Err(e) => {
            piece.text = words_or(e, piece.text);
            packet_code(e)
        }
    }
}
