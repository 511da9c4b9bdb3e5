//! The messages of a request.
ghost use Rattle.std.specs.Prelude.{◌≡◌};
ghost use Rattle.gixp_transport.specs.Message.{fits, message_fits, all_fit, lines_fit};

use bstr::BString;

/// The length of the longest line that can be sent, without its LF. A packet line has at most 65,520 bytes, its four
/// digits and the LF included (gitprotocol-common, "pkt-line Format").
pub const MAX_LINE: usize = 65515;

/// Whether a line can be sent: it has at most 65,515 bytes without its LF.
pub fn fits_line(line: &[u8]) -> bool
    ensures { result ≡ fits line.now }
{
    line.len() <= MAX_LINE
}

/// A capability that a request names, with or without a value.
pub type Feature = (&'static str, Option<String>);

/// One message of a request (gitprotocol-common, "pkt-line Format"; gitprotocol-v2, "Packet-Line
/// Framing").
#[derive(Clone, Copy, Debug)]
pub enum Message<'a> {
    /// A line of text without its LF. The LF is written after it.
    Line(&'a [u8]),
    /// A flush packet: the end of a request, or of a part of it under versions 0 and 1.
    Flush,
    /// A delimiter packet: the end of a section.
    Delimiter,
}

impl<'a> Message<'a> {
    /// Whether the message can be sent: its line fits into a packet line.
    pub fn fits(&self) -> bool
        ensures { result ≡ message_fits self.now }
    {
        match self {
            Message::Line(text) => fits_line(text),
            Message::Flush | Message::Delimiter => true,
        }
    }
}

pub(crate) fn all_fit(messages: &[Message<'_>]) -> bool
    ensures { result ≡ all_fit messages.now }
{
    messages.iter().all(|message| message.fits())
}

pub(crate) fn lines_fit(lines: &[BString]) -> bool
    ensures { result ≡ lines_fit lines.now }
{
    lines.iter().all(|line| fits_line(line.as_bytes()))
}
