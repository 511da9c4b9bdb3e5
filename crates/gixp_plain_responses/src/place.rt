//! Where a reader of packet lines is.
ghost use Rattle.std.specs.Prelude.{vec_len};
ghost use Rattle.gixp_plain_responses.specs.Order.{IsRoomInOrder};

/// What is held until it is whole.
#[derive(Clone, Copy)]
pub(crate) enum Wanted {
    /// The four digits of a packet line.
    Digits,
    /// A packet line of this size, its digits included, that may be an acknowledgement.
    Line(usize),
    /// The content of a packet of band 1, which is part of a pack.
    Content,
}

/// What comes after the held bytes.
#[derive(Clone, Copy)]
pub(crate) enum Next {
    /// More bytes of what is wanted.
    Hold(Wanted),
    /// This many bytes of a payload, which are passed on as they come.
    Payload(usize),
    /// More of the pack, after the held packet of band 1.
    Pack,
    /// Bytes that are not a packet line, or less than one.
    Rest,
    /// Nothing, because the pack has ended.
    Nothing,
}

/// The packet lines of a server that lacks `multi_ack_detailed` or a side-band, as a server with both sends them.
///
/// A line `ACK <id> continue` becomes `ACK <id> common`. A pack begins with `PACK` in place of the digits of a packet line,
/// and extends to the end of the stream. It becomes packets of band 1, and a flush packet follows it. Each packet but the
/// last one has 65,515 bytes of the pack. All other packet lines are passed on unchanged. After four bytes that begin
/// neither a packet line nor a pack, all bytes are passed on as they come.
///
/// A pack that is cut off ends like a whole one, since only the stream's end shows where it ends. Whoever reads the pack
/// must check it.
///
/// Outside a pack the reader never reads beyond the next packet line. A line that may be an acknowledgement is held until
/// it is whole. The payload of any other line is read directly into the caller's buffer. A failed read loses nothing.
#[derive(Drop)]
pub struct PlainResponses<R> {
    pub(crate) reader: R,
    pub(crate) next: Next,
    // Space for a packet of band 1 and a flush packet. The bytes from `start` to `end` were read and not yet passed on.
    pub(crate) room: Vec<u8>,
    pub(crate) start: usize,
    pub(crate) end: usize,
    ghost in_order: { IsRoomInOrder (vec_len room) start end next },
}
