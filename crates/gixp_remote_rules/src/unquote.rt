//! Values of options that git puts in quotes, as C has them (gitremote-helpers, "OPTIONS").
ghost use Rattle.std.specs.Prelude.{◌≡◌, ◌++◌, [], IfOk, OnOk};
ghost use Rattle.std.specs.Option.{option_map, option_to_list};
ghost use Rattle.bstr.specs.Owned.{bstring_bytes};
ghost use Rattle.gixp_remote_rules.specs.CQuoting.{escape_letter, is_octal_digit, octal_number, escape_step, number_step, step, is_closed, unquoted_after, text_value};
ghost use Rattle.gixp_remote_rules.specs.declared.unquote.Part.TheVariants.{Plain as PlainPart};

use bstr::BString;
use std::alloc::{AllocError, Global};

// What precedes the next byte of a text in quotes.
#[derive(Clone, Copy)]
pub(crate) enum Part {
    // A whole byte of the value, or the opening quotation mark.
    Plain,
    // A backslash.
    Escape,
    // A backslash and an octal digit.
    Digit(u8),
    // A backslash and two octal digits.
    Digits(u8, u8),
    // The closing quotation mark.
    Closed,
}

// The byte that a letter after a backslash means.
fn escape_letter(letter: u8) -> Option<u8>
    ensures { result ≡ escape_letter letter }
{
    match letter {
        b'a' => Some(7),
        b'b' => Some(8),
        b't' => Some(9),
        b'n' => Some(10),
        b'v' => Some(11),
        b'f' => Some(12),
        b'r' => Some(13),
        b'"' | b'\\' => Some(letter),
        _ => None,
    }
}

fn is_octal_digit(digit: u8) -> bool
    ensures { result ≡ is_octal_digit digit }
{
    b'0' <= digit && digit <= b'7'
}

// The number in three octal digits.
fn octal_number(first: u8, second: u8, third: u8) -> u32
    ensures { result ≡ octal_number first second third }
{
    64 * u32::from(first.saturating_sub(48))
        + 8 * u32::from(second.saturating_sub(48))
        + u32::from(third.saturating_sub(48))
}

// The step after a backslash.
fn escape_step(byte: u8) -> Option<(Part, Option<u8>)>
    ensures { result ≡ escape_step byte (escape_letter byte) }
{
    match escape_letter(byte) {
        Some(meant) => Some((Part::Plain, Some(meant))),
        None if is_octal_digit(byte) => Some((Part::Digit(byte), None)),
        None => None,
    }
}

// The step after three octal digits.
fn number_step(number: u32) -> Option<(Part, Option<u8>)>
    ensures { result ≡ number_step number }
{
    if 0 < number && number < 256 {
        Some((Part::Plain, Some(number as u8)))
    } else {
        None
    }
}

// The part before the byte after this one, and a byte of the value if it is complete. `None` if the
// quoting is malformed.
fn step(part: Part, byte: u8) -> Option<(Part, Option<u8>)>
    ensures { result ≡ step part byte }
{
    match part {
        Part::Plain => match byte {
            b'"' => Some((Part::Closed, None)),
            b'\\' => Some((Part::Escape, None)),
            _ => Some((Part::Plain, Some(byte))),
        },
        Part::Escape => escape_step(byte),
        Part::Digit(first) => {
            if is_octal_digit(byte) {
                Some((Part::Digits(first, byte), None))
            } else {
                None
            }
        }
        Part::Digits(first, second) => {
            if is_octal_digit(byte) {
                number_step(octal_number(first, second, byte))
            } else {
                None
            }
        }
        Part::Closed => None,
    }
}

fn is_closed(part: Part) -> bool
    ensures { result ≡ is_closed part }
{
    match part {
        Part::Closed => true,
        Part::Plain | Part::Escape | Part::Digit(_) | Part::Digits(_, _) => false,
    }
}

fn push_found(value: &mut Vec<u8>, found: Option<u8>) -> Result<(), AllocError>
    ensures { OnOk result (value.new.items ≡ value.old.items ++ option_to_list found) }
{
    if let Some(byte) = found {
        value.push(byte)?;
    }
    Ok(())
}

// The value of a text after the opening quotation mark.
fn unquoted(alloc: Global, text: &[u8]) -> Result<Option<Vec<u8>>, AllocError>
    ensures { IfOk result (λ value. option_map (λ v. v.items) value ≡ unquoted_after [] PlainPart text.now) }
{
    let mut value = Vec::new(alloc);
    let mut part = Part::Plain;
    let mut rest = text;
    'bytes: while let Some((byte, after)) = rest.split_first() {
        let Some((next, found)) = step(part, *byte) else {
            return Ok(None);
        };
        push_found(&mut value, found)?;
        part = next;
        rest = after;
    }
    if is_closed(part) {
        Ok(Some(value))
    } else {
        Ok(None)
    }
}

/// The value of an option. git puts it in quotes if it has a quotation mark, a backslash, a control
/// character or, by `core.quotePath`, a byte above 127. `None` if the quoting is malformed.
pub(crate) fn text_value(alloc: Global, text: &[u8]) -> Result<Option<BString>, AllocError>
    ensures { IfOk result (λ value. option_map bstring_bytes value ≡ text_value text.now) }
{
    let Some((first, rest)) = text.split_first() else {
        return Ok(Some(BString::from_slice(alloc, text)?));
    };
    if *first != b'"' {
        return Ok(Some(BString::from_slice(alloc, text)?));
    }
    match unquoted(alloc, rest)? {
        Some(value) => Ok(Some(BString::from(value))),
        None => Ok(None),
    }
}
