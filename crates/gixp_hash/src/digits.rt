//! Hexadecimal digits, read and written without a branch for each digit. The digits of an id are as good as random, so
//! a processor would mispredict half of these branches. The functions are inlined so that an id isn't copied through
//! memory at each step.
ghost use Rattle.std.specs.Prelude.{◌≡◌, ◌<◌, length, slice_index, IfSome, unwrap_or};
ghost use Rattle.hex.specs.Hex.{hex_digit_value, lower_digits, encode_lower, decode_of};
ghost use Rattle.gixp_hash.specs.Digits.{AreValues};

/// The value of a hexadecimal digit of either case, 0 to 15; 255 for any other byte.
pub fn digit_value(digit: u8) -> u8
    ensures { result ≡ unwrap_or (hex_digit_value digit) 255 }
{
    match digit {
        b'0'..=b'9' => digit - b'0',
        b'a'..=b'f' => digit - b'a' + 10,
        b'A'..=b'F' => digit - b'A' + 10,
        _ => 255,
    }
}

/// The lower-case hexadecimal digit of a value from 0 to 15.
pub fn digit_of(value: u8) -> u8
    requires { value < 16 }
    ensures { result ≡ slice_index lower_digits value }
{
    if value < 10 {
        value + b'0'
    } else {
        value - 10 + b'a'
    }
}

// `None` where a byte is not a hexadecimal digit.
#[tactic(auto, using(crate::proofs::DigitLemmas::digit_reads))]
#[inline(always)]
fn values_of(digits: &[u8]) -> Option<[u8; 40]>
    requires { length digits.now ≡ 40 }
    ensures { IfSome result (AreValues digits.now) }
{
    let mut values = [0; 40];
    let mut all = true;
    for i in 0..40 {
        let value = digit_value(digits[i]);
        all &= value < 16;
        values[i] = value;
    }
    if all { Some(values) } else { None }
}

// `None` where a byte is not a hexadecimal digit.
#[inline(always)]
pub(crate) fn decode(digits: &[u8]) -> Option<[u8; 20]>
    requires { length digits.now ≡ 40 }
    ensures { IfSome result (λ bytes. decode_of digits.now ≡ Ok bytes) }
{
    let values = values_of(digits)?;
    let mut bytes = [0; 20];
    for i in 0..20 {
        bytes[i] = values[2 * i] % 16 * 16 + values[2 * i + 1] % 16;
    }
    Some(bytes)
}

#[inline(always)]
pub(crate) fn encode(bytes: &[u8; 20]) -> [u8; 40]
    ensures { result ≡ encode_lower bytes.now }
{
    let mut digits = [0; 40];
    for i in 0..20 {
        digits[2 * i] = digit_of(bytes[i] / 16);
        digits[2 * i + 1] = digit_of(bytes[i] % 16);
    }
    digits
}
