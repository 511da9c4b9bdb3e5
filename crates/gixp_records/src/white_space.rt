//! White space that the lines of a list of refs lose (git-check-ref-format).
ghost use Rattle.std.specs.Prelude.{◌≡◌, ◌≤◌, length};
ghost use Rattle.gixp_packetline.specs.Lines.{lines_of};
ghost use Rattle.gixp_packetline.specs.Pieces.{stream_pieces};
ghost use Rattle.gixp_packetline.specs.declared.protocol.Protocol.{Protocol};
ghost use Rattle.gixp_packetline.specs.declared.protocol.Protocol.TheVariants.{V2};
ghost use Rattle.gixp_records.specs.Packets.{pieces_at};
ghost use Rattle.gixp_records.specs.ListedLine.{loses_white_space, lines_lose_white_space};

use crate::packets::{NextPacket, next_packet};
use crate::span::text_at;
use gixp_refs::handshake::refs;

// Whether a line loses white space.
#[inline(always)]
pub(crate) fn loses_white_space(line: &[u8]) -> bool
    ensures { result ≡ loses_white_space line.now }
{
    refs::loses_white_space(line)
}

// Whether a line from an offset on loses white space. The lines end at the first packet without a payload, or at an error.
pub(crate) fn lines_lose_white_space(bytes: &[u8], from: usize) -> bool
    requires { from ≤ length bytes.now }
    ensures { (version : Protocol) → result ≡ lines_lose_white_space (lines_of version (pieces_at bytes.now from)) }
{
    let mut at = from;
    'lines: loop {
        match next_packet(bytes, at) {
            Ok(NextPacket::Line(line, next)) => {
                if loses_white_space(text_at(bytes, line)) {
                    return true;
                }
                at = next;
            }
            Ok(NextPacket::Mark(_, _)) => return false,
            Err(_) => return false,
        }
    }
}

/// Whether a line of an `ls-refs` response loses white space outside ASCII at its end, which git allows in names of refs
/// (gitprotocol-v2, "ls-refs"; git-check-ref-format). The lines end at the response's stop, or at an error.
pub fn list_loses_white_space(bytes: &[u8]) -> bool
    ensures { result ≡ lines_lose_white_space (lines_of V2 (stream_pieces bytes.now)) }
{
    lines_lose_white_space(bytes, 0)
}
