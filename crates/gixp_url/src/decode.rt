//! Percent-decoding (RFC 3986, "Percent-Encoding").
ghost use Rattle.std.specs.Prelude.{◌≡◌, ◌<◌, IfOk, IfSome};
ghost use Rattle.gixp_url.specs.Decoded.{digit, digits, escaped, decoded};

use std::alloc::{AllocError, Global};

fn digit(byte: u8) -> Option<u8>
    ensures value { result ≡ digit byte }
    ensures small { IfSome result (λ value. value < 16) }
{
    match byte {
        b'0'..=b'9' => Some(byte - b'0'),
        b'a'..=b'f' => Some(byte - b'a' + 10),
        b'A'..=b'F' => Some(byte - b'A' + 10),
        _ => None,
    }
}

// The byte that two hexadecimal digits encode. `None` for NUL.
fn digits(high: u8, low: u8) -> Option<u8>
    ensures { result ≡ digits high low }
{
    match (digit(high), digit(low)) {
        (Some(high), Some(low)) => {
            if high == 0 && low == 0 {
                None
            } else {
                Some(16 * high + low)
            }
        }
        _ => None,
    }
}

// The byte that a text begins with in percent-encoding.
fn escaped(text: &[u8]) -> Option<u8>
    ensures { result ≡ escaped text.now }
{
    match text {
        [percent, high, low, ..] => {
            if *percent == b'%' {
                digits(*high, *low)
            } else {
                None
            }
        }
        _ => None,
    }
}

// Decodes a text. A percent sign stays if two digits don't follow it, or if they encode NUL.
pub(crate) fn decoded(alloc: Global, text: &[u8]) -> Result<Vec<u8>, AllocError>
    ensures { IfOk result (λ bytes. bytes.items ≡ decoded 0 text.now) }
{
    let mut bytes = Vec::new(alloc);
    let mut skipped = 0u8;
    let mut rest = text;
    'bytes: while let Some((first, after)) = rest.split_first() {
        if skipped > 0 {
            skipped -= 1;
        } else {
            match escaped(rest) {
                Some(byte) => {
                    bytes.push(byte)?;
                    skipped = 2;
                }
                None => bytes.push(*first)?,
            }
        }
        rest = after;
    }
    Ok(bytes)
}
