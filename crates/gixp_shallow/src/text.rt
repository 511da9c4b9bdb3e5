//! The text of a shallow boundary.
ghost use Rattle.std.specs.Prelude.{◌≡◌, ◌<◌, ◌==◌, [], ◌∷◌, IfOk, IfErr, length, MatchResult};
ghost use Rattle.std.specs.List.{position, AllZip};
ghost use Rattle.gixp_shallow.specs.ShallowText.{lines, text_of, IsTextOf, IsIdOf, ReadsIds, IdTextFails, IsNoId};

use crate::boundary::sorted_ids;
use crate::store::ShallowError;
use bstr::BString;
use gixp_hash::ObjectId;
use std::alloc::{AllocError, Global};

/// The text of a shallow boundary, as git stores it: a line for each id, of 40 lower-case hexadecimal digits and LF,
/// sorted by the ids, each once.
///
/// # Errors
///
/// An allocation failed.
pub fn shallow_text(alloc: Global, ids: &[ObjectId]) -> Result<Vec<u8>, AllocError>
    ensures { IfOk result (λ text. IsTextOf ids.now text.items) }
{
    let ids = sorted_ids(alloc, ids)?;
    id_lines(alloc, &ids)
}

fn id_lines(alloc: Global, ids: &[ObjectId]) -> Result<Vec<u8>, AllocError>
    ensures { IfOk result (λ text. text.items ≡ text_of ids.now) }
{
    let mut text = Vec::new(alloc);
    let mut rest = ids;
    while let Some((id, following)) = rest.split_first() {
        text.extend_from_slice(&id.to_hex())?;
        text.push(b'\n')?;
        rest = following;
    }
    Ok(text)
}

/// The ids of the text of a shallow boundary, sorted, each once. Each line is an id of hexadecimal digits in either
/// case. Lines may repeat and come in any order, and the last one may lack its LF.
///
/// # Errors
///
/// `Decode` with the first line that is not an id, without its LF. Such lines are an empty one and one that ends in a
/// CR. `Memory` where an allocation fails.
pub fn shallow_ids(alloc: Global, text: &[u8]) -> Result<Vec<ObjectId>, ShallowError>
    ensures ids { IfOk result (λ ids. ReadsIds text.now ids.items) }
    ensures refused { IfErr result (IdTextFails text.now) }
{
    let ids = line_ids(alloc, text)?;
    match sorted_ids(alloc, &ids) {
        Ok(ids) => Ok(ids),
        Err(_) => Err(ShallowError::Memory),
    }
}

// The ids of the lines, in their order.
fn line_ids(alloc: Global, text: &[u8]) -> Result<Vec<ObjectId>, ShallowError>
    ensures ids { IfOk result (λ ids. AllZip IsIdOf (lines text.now) ids.items) }
    ensures refused { IfErr result (IdTextFails text.now) }
{
    let mut ids = Vec::new(alloc);
    let mut rest = text;
    while !rest.is_empty() {
        let (line, following) = first_line(rest);
        let id = line_id(alloc, line)?;
        match ids.push(id) {
            Ok(()) => {}
            Err(_) => return Err(ShallowError::Memory),
        }
        rest = following;
    }
    Ok(ids)
}

fn line_id(alloc: Global, line: &[u8]) -> Result<ObjectId, ShallowError>
    ensures { MatchResult result (IsIdOf line.now) (IsNoId line.now) }
{
    match ObjectId::from_hex(line) {
        Ok(id) => Ok(id),
        Err(_) => match Vec::from_slice(alloc, line) {
            Ok(line) => Err(ShallowError::Decode {
                line: BString::from(line),
            }),
            Err(_) => Err(ShallowError::Memory),
        },
    }
}

// The offset of the first LF.
fn line_end(text: &[u8]) -> Option<usize>
    ensures { result ≡ position (λ b. b == 10) text.now }
{
    text.iter().position(|byte| *byte == b'\n')
}

// The first line of a nonempty text, and the text after it.
fn first_line(text: &[u8]) -> (&[u8], &[u8])
    requires { 0 < length text.now }
    ensures lines { lines text.now ≡ result.0.now ∷ lines result.1.now }
    ensures shorter { length result.1.now < length text.now }
{
    match line_end(text) {
        Some(at) => (&text[..at], &text[at + 1..]),
        None => (text, &[]),
    }
}
