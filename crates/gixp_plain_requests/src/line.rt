//! Packet lines with a payload.
ghost use Rattle.std.specs.Prelude.{◌≡◌, ◌+◌, ◌<◌, ◌≤◌, [], ◌∷◌, ◌++◌, length, drop, OnOk, IfSome, IfNone};
ghost use Rattle.gixp_packetline.specs.FrameText.{payload_text};
ghost use Rattle.gixp_plain_requests.specs.Lines.{lines_of};

use gixp_packetline::digits::encode_number;
use gixp_packetline::laws::frames_are_grammar;
use gixp_packetline::{PacketLine, split_packet_line};
use std::alloc::AllocError;

/// The number of bytes of the longest packet line.
pub(crate) const MOST_BYTES: usize = 65520;

/// The payload of the packet line at the front of some bytes, and the bytes after it. `None` if there is none.
pub(crate) fn split_line(bytes: &[u8]) -> Option<(&[u8], &[u8])>
    ensures fits { IfSome result (λ r. length r.0.now ≤ 65516) }
    ensures rest { IfSome result (λ r. r.1.now ≡ drop (4 + length r.0.now) bytes.now) }
    ensures lines { IfSome result (λ r. lines_of bytes.now ≡ r.0.now ∷ lines_of r.1.now) }
    ensures no_lines { IfNone result (lines_of bytes.now ≡ []) }
    ensures shorter { IfSome result (λ r. length r.1.now < length bytes.now) }
{
    frames_are_grammar();
    match split_packet_line(bytes) {
        Ok(Some((PacketLine::Data(line), rest))) => Some((line, rest)),
        _ => None,
    }
}

/// Appends a payload after the digits of its length.
pub(crate) fn push_line(text: &mut Vec<u8>, line: &[u8]) -> Result<(), AllocError>
    requires { length line.now ≤ 65516 }
    ensures { OnOk result (text.new.items ≡ text.old.items ++ payload_text line.now) }
{
    text.extend_from_slice(&encode_number(line.len() + 4))?;
    text.extend_from_slice(line)
}
