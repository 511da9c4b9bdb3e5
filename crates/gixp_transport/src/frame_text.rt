//! Packet lines as text.
ghost use Rattle.std.specs.Prelude.{◌≡◌, ◌≤◌, ◌+◌, ◌++◌, OnOk, OnErr, length};
ghost use Rattle.std.specs.Io.{StartsWith};
ghost use Rattle.gixp_packetline.specs.FrameText.{digits_of, message_text, frame_text};
ghost use Rattle.gixp_transport.specs.Message.{line_frame};

use crate::message::MAX_LINE;
use gixp_packetline::{MessageKind, digits};
use std::alloc::AllocError;

/// The four digits before a line of this many bytes and its LF.
pub(crate) fn line_digits(len: usize) -> [u8; 4]
    requires { len ≤ MAX_LINE }
    ensures { result ≡ digits_of (len + 5) }
{
    digits::encode_number(len + 5)
}

/// The four digits before a payload of this many bytes.
pub(crate) fn payload_digits(len: usize) -> [u8; 4]
    requires { len ≤ 65516 }
    ensures { result ≡ digits_of (4 + len) }
{
    digits::encode_number(4 + len)
}

/// The digits of a flush, delimiter or response-end packet. `Text` has none.
pub(crate) fn of_message(kind: MessageKind) -> &'static [u8]
    ensures { result.now ≡ message_text kind }
{
    match kind {
        MessageKind::Flush => b"0000",
        MessageKind::Delimiter => b"0001",
        MessageKind::ResponseEnd => b"0002",
        MessageKind::Text => b"",
    }
}

// Appends the digits, the line and an LF.
fn push_line(out: &mut Vec<u8>, line: &[u8]) -> Result<(), AllocError>
    requires { length line.now ≤ MAX_LINE }
    ensures front { StartsWith out.new.items out.old.items }
    ensures ok { OnOk result (out.new.items ≡ out.old.items ++ frame_text (line_frame line.now)) }
{
    out.extend_from_slice(&line_digits(line.len()))?;
    out.extend_from_slice(line)?;
    out.extend_from_slice(b"\n")
}

/// Appends the packet line of a line. If its allocation fails, nothing changes.
pub(crate) fn append_line(out: &mut Vec<u8>, line: &[u8]) -> Result<(), AllocError>
    requires { length line.now ≤ MAX_LINE }
    ensures ok { OnOk result (out.new.items ≡ out.old.items ++ frame_text (line_frame line.now)) }
    ensures err { OnErr result (out.new.items ≡ out.old.items) }
{
    let len = out.len();
    let pushed = push_line(out, line);
    if pushed.is_err() {
        out.truncate(len);
    }
    pushed
}
