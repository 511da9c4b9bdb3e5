//! Numbers of 32 bits in decimal digits.
ghost use Rattle.std.specs.Prelude.{◌≡◌};
ghost use Rattle.gixp_remote_rules.specs.Number.{with_digit, number_after, number_of};

// Appends a digit to a number. `None` if the result doesn't fit.
fn with_digit(number: u32, digit: u8) -> Option<u32>
    ensures { result ≡ with_digit number digit }
{
    if digit < b'0' || b'9' < digit {
        return None;
    }
    let more = 10 * u64::from(number) + u64::from(digit - b'0');
    if more < 4294967296 {
        Some(more as u32)
    } else {
        None
    }
}

// The number in decimal digits. An empty text is 0.
fn number_in(digits: &[u8]) -> Option<u32>
    ensures { result ≡ number_after 0 digits.now }
{
    let mut number = 0u32;
    let mut rest = digits;
    'digits: while let Some((digit, after)) = rest.split_first() {
        match with_digit(number, *digit) {
            Some(more) => number = more,
            None => return None,
        }
        rest = after;
    }
    Some(number)
}

/// Parses a number. `None` if it doesn't fit, or if the text is empty or has other bytes.
pub fn number_of(digits: &[u8]) -> Option<u32>
    ensures { result ≡ number_of digits.now }
{
    if digits.is_empty() {
        None
    } else {
        number_in(digits)
    }
}
