//! Ids, kinds and numbers in the output of git commands.
ghost use Rattle.std.specs.Prelude.{◌≡◌, ◌<◌, ◌^◌, IfOk, IfSome, map, option_map};
ghost use Rattle.bstr.specs.BStr.{bstr_bytes};
ghost use Rattle.gixp_memory.specs.Repository.{named_id, named_ids, named_kind, one_digit_more, digits_more, seconds};

use bstr::BStr;
use gixp_graph::ObjectKind;
use gixp_hash::ObjectId;
use std::alloc::{AllocError, AllocFailed, Global};
use thiserror::Error;

/// Why a text isn't read to its end. The lines before the error are added.
#[derive(Clone, Copy, Debug, PartialEq, Eq, Drop, Error)]
pub enum TextError {
    /// The line with this number, counted from 1, isn't of the text's form.
    #[error("line {0} is malformed")]
    Line(usize),
    /// An allocation failed.
    #[error("Memory")]
    Memory,
}

impl From<AllocError> for TextError {
    ghost use Rattle.gixp_memory.specs.declared.texts.TextError.TheVariants.{Memory};

    ghost from_gives = { λ _ e. e ≡ Memory };

    fn from(_error: AllocError) -> TextError {
        TextError::Memory
    }
}

impl<T: Drop> From<AllocFailed<T>> for TextError {
    ghost use Rattle.gixp_memory.specs.declared.texts.TextError.TheVariants.{Memory};

    ghost from_gives = { λ _ e. e ≡ Memory };

    fn from(_error: AllocFailed<T>) -> TextError {
        TextError::Memory
    }
}

pub(crate) fn named_id(word: &[u8]) -> Option<ObjectId>
    ensures { result ≡ named_id word.now }
{
    ObjectId::from_hex(word).ok()
}

// The ids of all words. None where a word isn't an id.
pub(crate) fn named_ids(
    alloc: Global,
    words: &[BStr<'_>],
) -> Result<Option<Vec<ObjectId>>, AllocError>
    ensures { IfOk result (λ found. option_map (λ ids. ids.items) found ≡ named_ids (map bstr_bytes words.now)) }
{
    let mut ids = Vec::new(alloc);
    for word in words {
        let Some(id) = named_id(word.as_bytes()) else {
            return Ok(None);
        };
        ids.push(id)?;
    }
    Ok(Some(ids))
}

pub(crate) fn named_kind(word: &[u8]) -> Option<ObjectKind>
    ensures { result ≡ named_kind word.now }
{
    if word == b"commit".as_slice() {
        Some(ObjectKind::Commit)
    } else if word == b"tree".as_slice() {
        Some(ObjectKind::Tree)
    } else if word == b"blob".as_slice() {
        Some(ObjectKind::Blob)
    } else if word == b"tag".as_slice() {
        Some(ObjectKind::Tag)
    } else {
        None
    }
}

// Appends a decimal digit to a number. None where the result isn't below 2^63.
fn one_digit_more(number: u64, digit: u8) -> Option<u64>
    ensures value { result ≡ one_digit_more number digit }
    ensures fits { IfSome result (λ n. n < 2 ^ 63) }
{
    if !digit.is_ascii_digit() {
        return None;
    }
    let tens = number.checked_mul(10)?;
    let more = tens.checked_add(u64::from(digit - b'0'))?;
    if more < 1 << 63 { Some(more) } else { None }
}

// The number that decimal digits write. 0 for an empty word.
fn digits(word: &[u8]) -> Option<u64>
    ensures value { result ≡ digits_more 0 word.now }
    ensures fits { IfSome result (λ n. n < 2 ^ 63) }
{
    let mut number: u64 = 0;
    'digits: for digit in word {
        match one_digit_more(number, *digit) {
            Some(more) => number = more,
            None => return None,
        }
    }
    Some(number)
}

pub(crate) fn seconds(word: &[u8]) -> Option<i64>
    ensures { result ≡ seconds word.now }
{
    if word.is_empty() {
        return None;
    }
    match digits(word) {
        Some(number) => Some(number as i64),
        None => None,
    }
}
