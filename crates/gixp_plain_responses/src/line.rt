//! What comes after the digits of a packet line, and which lines are acknowledgements.
ghost use Rattle.std.specs.Prelude.{◌≡◌, length};
ghost use Rattle.gixp_packetline.specs.Frames.{size_of};
ghost use Rattle.gixp_plain_responses.specs.Acknowledgement.{is_continue_status, is_continue};
ghost use Rattle.gixp_plain_responses.specs.Translation.{begins_pack, is_line_size, next_by, next_of};

use crate::place::{Next, Wanted};
use hex;

/// The number of bytes of the longest packet line.
pub(crate) const MOST_BYTES: usize = 65520;

// `None` where a byte is not a hexadecimal digit.
fn size_of(digits: &[u8]) -> Option<usize>
    requires { length digits.now ≡ 4 }
    ensures { result ≡ size_of digits.now }
{
    let mut pair = [0; 2];
    match hex::decode_to_slice(digits, &mut pair) {
        Ok(()) => {
            let [high, low] = pair;
            Some(usize::from(high) * 256 + usize::from(low))
        }
        Err(_) => None,
    }
}

// Whether a packet line of this size may be an acknowledgement `ACK <id> continue`, without or with an LF.
fn is_line_size(size: usize) -> bool
    ensures { result ≡ is_line_size size }
{
    size == 57 || size == 58
}

// What comes after the digits of a packet line of this size.
fn next_by(size: Option<usize>) -> Next
    ensures { result ≡ next_by size }
{
    let Some(size) = size else {
        return Next::Rest;
    };
    if size < 3 {
        Next::Payload(0)
    } else if size < 5 {
        Next::Rest
    } else if size > MOST_BYTES {
        Next::Rest
    } else if is_line_size(size) {
        Next::Hold(Wanted::Line(size))
    } else {
        Next::Payload(size - 4)
    }
}

// Whether these four bytes are the first of a pack.
fn begins_pack(digits: &[u8]) -> bool
    requires { length digits.now ≡ 4 }
    ensures { result ≡ begins_pack digits.now }
{
    digits == b"PACK".as_slice()
}

/// What comes after the four bytes in place of digits.
pub(crate) fn next_of(digits: &[u8]) -> Next
    requires { length digits.now ≡ 4 }
    ensures { result ≡ next_of digits.now }
{
    if begins_pack(digits) {
        Next::Hold(Wanted::Content)
    } else {
        next_by(size_of(digits))
    }
}

fn is_status(status: &[u8]) -> bool
    ensures { result ≡ is_continue_status status.now }
{
    status == b" continue".as_slice() || status == b" continue\n".as_slice()
}

/// Whether a line is `ACK <id> continue`.
pub(crate) fn is_continue(line: &[u8]) -> bool
    ensures { result ≡ is_continue line.now }
{
    if line.len() < 44 {
        return false;
    }
    line.starts_with(b"ACK ") && is_status(&line[44..])
}
