//! Lines of refs, as git writes them (gitprotocol-v2, "ls-refs").
ghost use Rattle.std.specs.Prelude.{◌≡◌, ◌++◌, ◌∷◌, ℕ, List, true, IfSome, codes};
ghost use Rattle.std.specs.List.{list_all};
ghost use Rattle.gixp_refs.specs.WrittenLine.{is_lower, is_written_id, IsWrittenLine};

use crate::trim::trim_end;
use gixp_capabilities::text::cut;

// Whether this is a lower-case hexadecimal digit.
#[inline(always)]
fn is_lower(digit: u8) -> bool
    ensures { result ≡ is_lower digit }
{
    matches!(digit, b'0'..=b'9' | b'a'..=b'f')
}

// Whether all are lower-case hexadecimal digits. It tests each of them, so that there is no branch for each.
#[inline(always)]
fn are_lower(digits: &[u8]) -> bool
    ensures { result ≡ list_all is_lower digits.now }
{
    let mut all = true;
    for digit in digits {
        all &= is_lower(*digit);
    }
    all
}

// Whether a text is an id as git writes it.
#[inline(always)]
fn is_written_id(text: &[u8]) -> bool
    ensures { result ≡ is_written_id text.now }
{
    text.len() == 40 && are_lower(text)
}

// The text after such an id and a blank.
#[inline(always)]
fn after_id(text: &[u8]) -> Option<&[u8]>
    ensures { IfSome result (λ rest. (id : List ℕ) × (is_written_id id ≡ true) × (text.now ≡ id ++ 32 ∷ rest.now)) }
{
    if text.len() <= 40 {
        return None;
    }
    let (id, rest) = text.split_at(40);
    match rest {
        [b' ', rest @ ..] if is_written_id(id) => Some(rest),
        _ => None,
    }
}

// Whether this is the attribute `peeled`.
#[inline(always)]
fn is_peeled(attribute: &[u8]) -> bool
    ensures { result ≡ true → (id : List ℕ) × (is_written_id id ≡ true) × (attribute.now ≡ codes "peeled:" ++ id) }
{
    match attribute.strip_prefix(b"peeled:") {
        Some(id) => is_written_id(id),
        None => false,
    }
}

/// Returns the line without the white space at its end, if git writes exactly this line, and an LF, for its ref. It
/// does so for lines with ids in lower case and without a target. `None` says nothing about a line.
///
/// Programs that print lines as git does save reading the ids.
#[inline(always)]
pub fn written_text(line: &[u8]) -> Option<&[u8]>
    ensures { IfSome result (λ text. IsWrittenLine line.now text.now) }
{
    let text = trim_end(line);
    let rest = match after_id(text) {
        Some(rest) => rest,
        None => return None,
    };
    let (name, attribute) = cut(rest, b' ');
    if name.is_empty() {
        return None;
    }
    match attribute {
        None => Some(text),
        Some(attribute) if is_peeled(attribute) => Some(text),
        Some(_) => None,
    }
}
