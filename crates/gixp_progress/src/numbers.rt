//! The numbers of a progress line.
ghost use Rattle.std.specs.Prelude.{◌≡◌, ◌≤◌, length};
ghost use Rattle.std.specs.List.{position, position_or_len};
ghost use Rattle.gixp_progress.specs.Numbers.{is_digit, is_other, from_digit, first_run, after_run, with_digit, fit_number, number_in, small, is_percentage, dealt_after, dealt};

/// The numbers of a progress line.
#[derive(Clone, Copy)]
pub(crate) struct Numbers {
    pub(crate) percent: Option<u32>,
    pub(crate) step: Option<usize>,
    pub(crate) max: Option<usize>,
}

fn is_digit(byte: u8) -> bool
    ensures { result ≡ is_digit byte }
{
    b'0' <= byte && byte <= b'9'
}

// Whether a byte is not a decimal digit.
fn is_other(byte: u8) -> bool
    ensures { result ≡ is_other byte }
{
    !is_digit(byte)
}

// The offset of the first digit.
fn digit_in(text: &[u8]) -> Option<usize>
    ensures { result ≡ position is_digit text.now }
{
    text.iter().position(|byte| is_digit(*byte))
}

// The offset of the first digit, or the end.
fn digit_at(text: &[u8]) -> usize
    ensures place { result ≡ position_or_len is_digit text.now }
    ensures within { result ≤ length text.now }
{
    digit_in(text).unwrap_or(text.len())
}

// The offset of the first byte that is not a digit.
fn other_in(text: &[u8]) -> Option<usize>
    ensures { result ≡ position is_other text.now }
{
    text.iter().position(|byte| is_other(*byte))
}

// The offset of the first byte that is not a digit, or the end.
fn other_at(text: &[u8]) -> usize
    ensures place { result ≡ position_or_len is_other text.now }
    ensures within { result ≤ length text.now }
{
    other_in(text).unwrap_or(text.len())
}

fn from_digit(text: &[u8]) -> &[u8]
    ensures { result.now ≡ from_digit text.now }
{
    &text[digit_at(text)..]
}

// The first run of digits, in full.
fn first_run(text: &[u8]) -> &[u8]
    ensures { result.now ≡ first_run text.now }
{
    let rest = from_digit(text);
    &rest[..other_at(rest)]
}

// The text after the first run of digits.
fn after_run(text: &[u8]) -> &[u8]
    ensures { result.now ≡ after_run text.now }
{
    let rest = from_digit(text);
    &rest[other_at(rest)..]
}

// `None` where the number exceeds 64 bits.
fn with_digit(number: usize, digit: u8) -> Option<usize>
    ensures { result ≡ with_digit number digit }
{
    let Some(tens) = number.checked_mul(10) else {
        return None;
    };
    tens.checked_add(digit.saturating_sub(b'0') as usize)
}

// `None` where the number exceeds 64 bits.
fn fit_number(run: &[u8]) -> Option<usize>
    ensures { result ≡ fit_number run.now }
{
    let mut number: usize = 0;
    'digits: for digit in run {
        match with_digit(number, *digit) {
            Some(more) => number = more,
            None => return None,
        }
    }
    Some(number)
}

// `None` where the run is empty or its number exceeds 64 bits.
fn number_in(run: &[u8]) -> Option<usize>
    ensures { result ≡ number_in run.now }
{
    if run.is_empty() {
        return None;
    }
    fit_number(run)
}

// `None` where the number exceeds 32 bits.
fn small(number: Option<usize>) -> Option<u32>
    ensures { result ≡ small number }
{
    match number {
        None => None,
        Some(number) => {
            if number < 4294967296 {
                Some(number as u32)
            } else {
                None
            }
        }
    }
}

// Whether the run before this text is a percentage.
fn is_percentage(rest: &[u8]) -> bool
    ensures { result ≡ is_percentage rest.now }
{
    rest.starts_with(b"%")
}

// The first run of this text is the step, the next one the maximum.
fn dealt_after(percent: Option<u32>, text: &[u8]) -> Numbers
    ensures { result ≡ dealt_after percent text.now }
{
    Numbers {
        percent,
        step: number_in(first_run(text)),
        max: number_in(first_run(after_run(text))),
    }
}

// The numbers of the text after the colon of a progress line.
pub(crate) fn dealt(text: &[u8]) -> Numbers
    ensures { result ≡ dealt text.now }
{
    let run = first_run(text);
    let rest = after_run(text);
    match fit_number(run) {
        None => dealt_after(None, rest),
        Some(_) => {
            if is_percentage(rest) {
                dealt_after(small(number_in(run)), rest)
            } else {
                dealt_after(None, text)
            }
        }
    }
}
