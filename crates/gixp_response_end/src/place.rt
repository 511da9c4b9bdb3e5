//! Where a reader of packet lines is.
ghost use Rattle.gixp_response_end.specs.Order.{IsInOrder};

/// What comes after the held digits.
#[derive(Clone, Copy)]
pub(crate) enum Next {
    /// More digits of a packet line.
    Line,
    /// More digits of the response-end packet of a response. The flush packet of the response isn't passed on yet.
    AnswerEnd,
    /// This many bytes of a payload.
    Payload(usize),
    /// Bytes that are not a packet line, or less than one.
    Rest,
    /// Nothing, because a response wasn't whole.
    Nothing,
}

/// The packet lines of a capability advertisement and of the responses after it, without the response-end packet of each response.
///
/// A response is packet lines and a flush packet, with a response-end packet directly after it. The flush packet is
/// passed on only once the response-end packet was read. A response-end packet anywhere else, or anything else after
/// the flush packet of a response, ends the stream: from then on every read returns `Ok(0)`. After four bytes in place
/// of digits that are not hexadecimal, all bytes are passed on as they come.
///
/// It never reads beyond the next packet line, and after the flush packet of a response never beyond the response-end
/// packet. A payload is read directly into the caller's buffer. A failed read loses nothing.
#[derive(Drop)]
pub struct Answers<R> {
    pub(crate) reader: R,
    // Whether the flush packet of the advertisement was read.
    pub(crate) advertised: bool,
    // The digits from `start` to `end` were read and not yet passed on.
    pub(crate) digits: [u8; 4],
    pub(crate) start: usize,
    pub(crate) end: usize,
    pub(crate) next: Next,
    ghost in_order: { IsInOrder start end next },
}
