//! The four hexadecimal digits in front of a packet line.
ghost use Rattle.std.specs.Prelude.{◌≡◌, ◌<◌, length, IfSome};
ghost use Rattle.gixp_packetline.specs.Frames.{size_of};
ghost use Rattle.gixp_packetline.specs.FrameText.{digits_of};

use gixp_hash::digits::{digit_of, digit_value};

// `None` where a byte is not a hexadecimal digit.
#[inline(always)]
pub(crate) fn number(digits: &[u8]) -> Option<usize>
    requires { length digits.now ≡ 4 }
    ensures { IfSome result (λ n. size_of digits.now ≡ Some n) }
{
    let a = digit_value(digits[0]);
    let b = digit_value(digits[1]);
    let c = digit_value(digits[2]);
    let d = digit_value(digits[3]);
    if a.max(b).max(c).max(d) < 16 {
        let high = usize::from(a) * 16 + usize::from(b);
        Some(high * 256 + usize::from(c) * 16 + usize::from(d))
    } else {
        None
    }
}

/// The four lower-case digits of a number below 65,536 (gitprotocol-common, "pkt-line Format").
pub fn encode_number(number: usize) -> [u8; 4]
    requires { number < 65536 }
    ensures { result ≡ digits_of number }
{
    let high = (number / 256) as u8;
    let low = (number % 256) as u8;
    [
        digit_of(high / 16),
        digit_of(high % 16),
        digit_of(low / 16),
        digit_of(low % 16),
    ]
}
