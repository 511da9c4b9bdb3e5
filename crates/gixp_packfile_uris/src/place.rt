//! Where a reader of packet lines is.
ghost use Rattle.std.specs.Prelude.{List, [], ◌∷◌, ℕ, Option, None, vec_len};
ghost use Rattle.gixp_packfile_uris.specs.Sink.{TakesLines};
ghost use Rattle.gixp_packfile_uris.specs.Order.{IsHeldInOrder};

/// The number of URIs that a response may name.
pub const MOST_URIS: usize = 1000;

/// Receives the lines of the section `packfile-uris`.
pub trait UriSink {
    /// The lines received, where they are known.
    ghost lines: { Self → Option (List (List ℕ)) } = { λ _. None };

    /// Receives a line: the 40 hexadecimal digits of a pack's hash, a space, and the URI, without an LF.
    fn take(&mut self, line: &[u8])
        ensures { TakesLines (lines self.old) (lines self.new) (line.now ∷ []) };
}

/// Where a packet line occurs in a response of version 2.
#[derive(Clone, Copy)]
pub(crate) enum LinePlace {
    /// At the start of a section, where `packfile-uris` may begin.
    SectionStart,
    /// In another section.
    Section,
    /// In the section `packfile-uris`, after this many lines.
    Uris(usize),
    /// After that section.
    Over,
}

/// What happens to a packet line, and where the next one occurs.
#[derive(Clone, Copy)]
pub(crate) enum Fate {
    /// It is passed on.
    Pass(LinePlace),
    /// It belongs to the section `packfile-uris`.
    Take(LinePlace),
    /// It is not a valid line of that section, and ends the stream.
    Refuse,
}

/// What comes after the held bytes.
#[derive(Clone, Copy)]
pub(crate) enum Next {
    /// More of a packet line, until this many bytes of it are held: its four digits, or all of it.
    Hold(usize),
    /// This many bytes of a payload, which are passed on as they come.
    Payload(usize),
    /// Bytes that are not a packet line, or less than one.
    Rest,
    /// Nothing, because a line was invalid.
    Refused,
}

/// What comes after a held packet line, and how many of its bytes are passed on before that.
#[derive(Clone, Copy)]
pub(crate) struct After {
    pub(crate) place: LinePlace,
    pub(crate) next: Next,
    pub(crate) count: usize,
}

/// The packet lines of a server without the section `packfile-uris` of each response: its header, its lines, and the
/// delimiter packet after it. The sink receives the lines.
///
/// A section begins after a flush packet and after a delimiter packet. Where all lines have a band (gitprotocol-v2,
/// "sideband-all"), messages of bands 2 and 3 are passed on wherever they occur, and belong to no section. Only the
/// first section `packfile-uris` of a response is removed; any other is passed on.
///
/// A line of the section is 40 hexadecimal digits, a space, and a URI without blanks or control characters. The section
/// has at most `MOST_URIS` lines. Any other line, and a flush packet in the section, end the stream: from then on every
/// read returns the error `InvalidData`. After four bytes that begin no packet line, all bytes are passed on as they
/// come.
///
/// It never reads beyond the next packet line. A line at the start of a section is held until it is whole, and so is
/// each line of `packfile-uris`. The payload of any other line is read directly into the caller's buffer. A failed read
/// loses nothing.
#[derive(Drop)]
pub struct PackfileUris<R, S> {
    pub(crate) reader: R,
    pub(crate) sink: S,
    pub(crate) place: LinePlace,
    pub(crate) next: Next,
    // Space for one packet line. The bytes from `start` to `end` were read and not yet passed on.
    pub(crate) room: Vec<u8>,
    pub(crate) start: usize,
    pub(crate) end: usize,
    ghost in_order: { IsHeldInOrder (vec_len room) start end place next },
}
