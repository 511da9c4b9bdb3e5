//! Packet lines: four hexadecimal digits, and the payload that they count.
ghost use Rattle.std.specs.Prelude.{◌≡◌, length};
ghost use Rattle.gixp_packetline.specs.Frames.{head_of, size_of};
ghost use Rattle.gixp_packetline.specs.FrameKind.{kind_of};

use crate::digits;
use crate::protocol::MessageKind;
use hex;
use thiserror::Error;

/// The number of bytes of the longest packet line, its four digits included (gitprotocol-common, "pkt-line Format").
pub(crate) const MAX_FRAME: usize = 65520;

/// The kinds of packet lines (gitprotocol-common, "pkt-line Format"; gitprotocol-v2, "Packet-Line Framing").
#[derive(Clone, Copy, Debug, PartialEq, Eq)]
pub enum Frame {
    /// A payload of 1 to 65,516 bytes.
    Data,
    /// A flush packet, `0000`.
    Flush,
    /// A delimiter packet, `0001`.
    Delimiter,
    /// A response-end packet, `0002`.
    ResponseEnd,
}

impl From<MessageKind> for Frame {
    ghost from_gives = { λ kind frame. frame ≡ kind_of kind };

    fn from(kind: MessageKind) -> Frame {
        match kind {
            MessageKind::Flush => Frame::Flush,
            MessageKind::Delimiter => Frame::Delimiter,
            MessageKind::ResponseEnd => Frame::ResponseEnd,
            MessageKind::Text => Frame::Data,
        }
    }
}

/// Why four bytes begin no packet line (gitprotocol-common, "pkt-line Format"). A reader that found such bytes returns
/// the error again at each later read.
#[derive(Clone, Copy, Debug, PartialEq, Eq, Drop, Error)]
pub enum PacketError {
    /// They are not four hexadecimal digits.
    #[error("HexDecode")]
    HexDecode,
    /// They count more than 65,520 bytes.
    #[error("DataLengthLimitExceeded")]
    DataLengthLimitExceeded,
    /// They count only themselves: `0004`, an empty payload.
    #[error("DataIsEmpty")]
    DataIsEmpty,
    /// They count fewer bytes than they are: `0003`.
    #[error("InvalidLineLength")]
    InvalidLineLength,
}

/// The head of the packet line at the front of some bytes.
#[derive(Clone, Copy)]
pub(crate) enum Head {
    /// Less than a whole packet line.
    Partial,
    /// Four bytes that begin no packet line.
    Bad(PacketError),
    /// A packet without a payload.
    Special(MessageKind),
    /// A data packet of this many bytes, its four digits included.
    Data(usize),
}

// `None` where a byte is not a hexadecimal digit.
#[inline(always)]
fn size_of_digits(digits: &[u8]) -> Option<usize>
    requires { length digits.now ≡ 4 }
    ensures { result ≡ size_of digits.now }
{
    if let Some(size) = digits::number(digits) {
        return Some(size);
    }
    let mut pair = [0; 2];
    match hex::decode_to_slice(digits, &mut pair) {
        Ok(()) => {
            let [high, low] = pair;
            Some(usize::from(high) * 256 + usize::from(low))
        }
        Err(_) => None,
    }
}

pub(crate) fn read_head(bytes: &[u8]) -> Head
    ensures { result ≡ head_of bytes.now }
{
    if bytes.len() < 4 {
        return Head::Partial;
    }
    match size_of_digits(&bytes[..4]) {
        None => Head::Bad(PacketError::HexDecode),
        Some(0) => Head::Special(MessageKind::Flush),
        Some(1) => Head::Special(MessageKind::Delimiter),
        Some(2) => Head::Special(MessageKind::ResponseEnd),
        Some(3) => Head::Bad(PacketError::InvalidLineLength),
        Some(4) => Head::Bad(PacketError::DataIsEmpty),
        Some(size) => {
            if size > MAX_FRAME {
                Head::Bad(PacketError::DataLengthLimitExceeded)
            } else if bytes.len() < size {
                Head::Partial
            } else {
                Head::Data(size)
            }
        }
    }
}
