//! Packet lines at the front of some bytes.
ghost use Rattle.std.specs.Prelude.{◌≡◌};
ghost use Rattle.gixp_packetline.specs.PacketLine.{SplitsPacketLine};

use crate::packet::{Head, PacketError, read_head};
use crate::protocol::MessageKind;

/// A packet line (gitprotocol-common, "pkt-line Format").
#[derive(Clone, Copy, Debug, PartialEq, Eq)]
pub enum PacketLine<'a> {
    /// A data packet with this payload of 1 to 65,516 bytes.
    Data(&'a [u8]),
    /// A packet without a payload: a flush, delimiter or response-end packet.
    Special(MessageKind),
}

/// Splits the packet line at the front of some bytes from the bytes after it. `None` where they are less than a whole
/// packet line (gitprotocol-common, "pkt-line Format"). It allocates nothing.
///
/// # Errors
///
/// Why the first four bytes begin no packet line.
pub fn split_packet_line(bytes: &[u8]) -> Result<Option<(PacketLine<'_>, &[u8])>, PacketError>
    ensures { SplitsPacketLine bytes.now result }
{
    match read_head(bytes) {
        Head::Partial => Ok(None),
        Head::Bad(e) => Err(e),
        Head::Special(kind) => {
            let (_, rest) = bytes.split_at(4);
            Ok(Some((PacketLine::Special(kind), rest)))
        }
        Head::Data(size) => {
            let (whole, rest) = bytes.split_at(size);
            let (_, text) = whole.split_at(4);
            Ok(Some((PacketLine::Data(text), rest)))
        }
    }
}
