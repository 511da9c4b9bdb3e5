//! The text of each number.
ghost use Rattle.std.specs.Prelude.{◌≡◌, ◌⊎◌, ◌<◌, ◌≤◌, ◌++◌, ℕ, List, ◌↔◌, IsTrue, false, length, drop};
ghost use Rattle.std.specs.Bool.{OnTrue};
ghost use Rattle.gixp_calls.specs.Exports.{CopiesIfFits, WritesText};

use crate::code::{NO_ROOM, OK};

fn text_of(code: u32) -> &'static str {
    match code {
        0 => "the input is read completely",
        1 => "the next call continues",
        2 => "a buffer is too small",
        3 => "an offset or a length is out of range",
        4 => "an allocation failed",
        10 => "the response ends too early",
        11 => "a packet line begins without a hexadecimal length",
        12 => "a packet line is longer than 65520 bytes",
        13 => "a packet line has no payload",
        14 => "a packet line is shorter than its length",
        15 => "the server sent an error",
        16 => "a packet line without a payload is out of place",
        17 => "a packet line belongs to no band",
        20 => "an object id isn't 40 hexadecimal digits",
        21 => "a ref line is malformed, or ends in white space outside ASCII",
        22 => "a ref line has an unknown attribute",
        23 => "a ref line without an id has more than a target",
        24 => "a peeled line doesn't follow the ref line of its name",
        25 => "a capability symref isn't a name and a target",
        30 => "there is no response yet",
        31 => "there are more responses than requests",
        32 => "a negative refspec has a destination",
        33 => "a negative refspec is an object id",
        34 => "a negative refspec is not a full name",
        35 => "only one side of a refspec is a pattern",
        36 => "a refspec has more than one star on a side",
        37 => "a refspec has an invalid ref name",
        40 | 41 | 42 => "the server wants an account",
        43 => "the server's first response is not an advertisement",
        44 => "the client doesn't accept the server's version",
        45 => "a ref of the server's first response is malformed",
        46 => "the first ref line has no capabilities",
        47 => "the server speaks version 2 and lists its refs only on request",
        48 => "the server speaks an unknown version",
        50 => "the server uses another hash function",
        51 => "two refs map to one local name",
        52 => "the response to ls-refs is an error",
        53 => "expected flush after ref listing",
        60 => "the response to a fetch is an error",
        61 => "the negotiation ended without a pack",
        62 => "a request can't be made",
        63 => "the server lacks a requested feature",
        64 | 65 | 66 => "the shallow boundary can't be changed",
        67 => "the server's repository is shallow",
        68 | 69 => "the pack can't be read",
        70 => "the server offers no filters",
        80 => "the filter isn't UTF-8",
        81 => "an excluded ref has an invalid name",
        82 => "the limit of the history is unknown",
        _ => "unknown",
    }
}

// Copies a text to the start of a buffer if that is large enough.
pub(crate) fn copy_text(text: &[u8], buffer: &mut [u8]) -> bool
    ensures fits { OnTrue result (buffer.new ≡ text.now ++ drop (length text.now) buffer.old) }
    ensures short { result ≡ false → buffer.new ≡ buffer.old }
    ensures puts { CopiesIfFits text.now buffer.old buffer.new result }
    ensures room { IsTrue result ↔ (length text.now ≤ length buffer.old) }
{
    if text.len() > buffer.len() {
        return false;
    }
    buffer[..text.len()].copy_from_slice(text);
    true
}

// Copies a text to the start of a buffer, and writes its length.
pub(crate) fn write_text(text: &[u8], buffer: &mut [u8], len: &mut usize) -> u32
    ensures { WritesText text.now buffer.old result buffer.new len.new }
{
    *len = text.len();
    if copy_text(text, buffer) { OK } else { NO_ROOM }
}

/// Writes the text of a number that a call returned to the start of a buffer, and its length.
///
/// Returns 0, or 2 if the buffer is too small. Then only the length is written.
pub fn write_error_text(code: u32, buffer: &mut [u8], len: &mut usize) -> u32
    ensures number { ((result ≡ 0) × (len.new ≤ length buffer.old)) ⊎ ((result ≡ 2) × (length buffer.old < len.new)) }
    ensures input_record { result ≡ 0 → (text : List ℕ) × (length text ≡ len.new) × (buffer.new ≡ text ++ drop (length text) buffer.old) }
    ensures no_room { result ≡ 2 → (buffer.new ≡ buffer.old) × (length buffer.old < len.new) }
{
    write_text(text_of(code).as_bytes(), buffer, len)
}
