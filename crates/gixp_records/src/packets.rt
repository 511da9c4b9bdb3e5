//! Packet lines by offsets (gitprotocol-common, "pkt-line Format").
ghost use Rattle.std.specs.Prelude.{◌≡◌, ◌≤◌, length};
ghost use Rattle.std.specs.Io.BufRead.{strip_last};
ghost use Rattle.std.specs.Prelude.{drop};
ghost use Rattle.gixp_packetline.specs.Pieces.{is_error};
ghost use Rattle.gixp_packetline.specs.PacketLine.{frame_of};
ghost use Rattle.gixp_records.specs.Span.{text_at, IsWithin};
ghost use Rattle.gixp_records.specs.Packets.{HasFront, IsNextPacket};

use crate::span::{Span, text_at};
use gixp_packetline::laws::frames_are_grammar;
use gixp_packetline::{MessageKind, PacketError, PacketLine, split_packet_line};

/// The error of reading a packet line. Earlier packet lines are unaffected.
#[derive(Clone, Copy, Debug, PartialEq, Eq)]
pub enum PacketRefused {
    /// The bytes end before the packet line does.
    Incomplete,
    /// The length of the packet line is invalid.
    Malformed(PacketError),
    /// The server sent an error. The span is its message without one trailing LF (gitprotocol-pack, "pkt-line Format").
    Server(Span),
    /// A packet without a payload that isn't a stop.
    Unexpected,
    /// The first byte of a payload isn't a band (gitprotocol-pack, "Packfile Data").
    UnknownBand(u8),
}

// A packet line, and the offset after it.
#[derive(Clone, Copy)]
pub(crate) enum NextPacket {
    // A payload, by its span.
    Line(Span, usize),
    // A packet without a payload.
    Mark(MessageKind, usize),
}

// Whether a payload is an error message of the server.
#[inline(always)]
fn is_error(text: &[u8]) -> bool
    ensures { result ≡ is_error text.now }
{
    text.starts_with(b"ERR ")
}

// The span of a text without one trailing LF.
#[inline(always)]
pub(crate) fn without_line_end(bytes: &[u8], span: Span) -> Span
    requires { IsWithin bytes.now span }
    ensures text { text_at bytes.now result ≡ strip_last 10 (text_at bytes.now span) }
    ensures within { IsWithin bytes.now result }
{
    match text_at(bytes, span) {
        [front @ .., b'\n'] => Span {
            at: span.at,
            len: front.len(),
        },
        _ => span,
    }
}

// The span of a text without its first bytes.
#[inline(always)]
pub(crate) fn following(bytes: &[u8], span: Span, amount: usize) -> Span
    requires within { IsWithin bytes.now span }
    requires amount { amount ≤ span.len }
    ensures text { text_at bytes.now result ≡ drop amount (text_at bytes.now span) }
    ensures within { IsWithin bytes.now result }
{
    Span {
        at: span.at + amount,
        len: span.len - amount,
    }
}

// The packet line that was split off at an offset.
#[inline(always)]
fn packet_of(
    bytes: &[u8],
    at: usize,
    line: PacketLine<'_>,
    rest: &[u8],
) -> Result<NextPacket, PacketRefused>
    requires { HasFront bytes.now at (frame_of line) rest.now }
    ensures { IsNextPacket bytes.now at result }
{
    let next = bytes.len() - rest.len();
    match line {
        PacketLine::Special(kind) => Ok(NextPacket::Mark(kind, next)),
        PacketLine::Data(text) => {
            let span = Span {
                at: at + 4,
                len: text.len(),
            };
            if is_error(text) {
                let words = without_line_end(bytes, following(bytes, span, 4));
                return Err(PacketRefused::Server(words));
            }
            Ok(NextPacket::Line(span, next))
        }
    }
}

// The packet line at an offset.
#[inline(always)]
pub(crate) fn next_packet(bytes: &[u8], at: usize) -> Result<NextPacket, PacketRefused>
    requires { at ≤ length bytes.now }
    ensures { IsNextPacket bytes.now at result }
{
    frames_are_grammar();
    match split_packet_line(&bytes[at..]) {
        Ok(Some((line, rest))) => packet_of(bytes, at, line, rest),
        Ok(None) => Err(PacketRefused::Incomplete),
        Err(e) => Err(PacketRefused::Malformed(e)),
    }
}
