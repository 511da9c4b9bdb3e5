//! Lines of responses (gitprotocol-v2, "fetch"; gitprotocol-pack, "Packfile Negotiation").
ghost use Rattle.std.specs.Prelude.{◌≡◌, Some, None, Option};
ghost use Rattle.std.specs.Option.{option_copied};
ghost use Rattle.gixp_response.specs.AnswerLine.{following, is_word, described, acknowledged, acknowledgement_line, common_id, shallow_update_line, wanted_ref_line, wanted_value};
ghost use Rattle.gixp_response.specs.ResponseError.{IsAnswerRefusal, unknown_line, ReadsLine, ReadsOwned};

use crate::fetch::response::error::Error;
use bstr::{BString, ByteSlice};
use gixp_capabilities::text::cut;
use gixp_hash::ObjectId;
use gixp_shallow::ShallowUpdate;
use std::alloc::{AllocError, Global};

/// The server's acknowledgement of the commits that the client has (gitprotocol-pack, "Packfile Negotiation";
/// gitprotocol-v2, "fetch", `acknowledgments`).
#[derive(Clone, Copy, Debug, PartialEq, Eq, PartialOrd, Ord, Hash)]
pub enum Acknowledgement {
    /// The server has this commit too.
    Common(ObjectId),
    /// The server is ready to send a pack.
    Ready,
    /// The server has none of the commits that this request named.
    Nak,
}

/// The object of a ref that the request named by `want-ref` (gitprotocol-v2, "fetch", `wanted-refs`).
#[derive(Debug, Drop, PartialEq, Eq, PartialOrd, Ord, Hash)]
pub struct WantedRef {
    /// The object that this ref has on the server.
    pub id: ObjectId,
    /// The name of the ref, as in the request.
    pub path: BString,
}

impl Clone for WantedRef {
    ghost is_clone = { λ s t. wanted_value t ≡ wanted_value s };

    fn clone(&self) -> Result<WantedRef, AllocError> {
        Ok(WantedRef {
            id: self.id,
            path: self.path.clone()?,
        })
    }
}

impl Acknowledgement {
    /// Reads a line: `ready` or `NAK`, alone or followed by a blank and any text; or `ACK <id>`, alone or followed by
    /// `common` or `ready`. White space at the end is ignored.
    ///
    /// # Errors
    ///
    /// `UnknownLineType` with the line for any other. `Memory` where an allocation fails for that error.
    pub fn from_line(alloc: Global, line: &str) -> Result<Acknowledgement, Error>
        ensures { ReadsLine (acknowledgement_line line.now) line.now result }
    {
        match read_acknowledgement(line.as_bytes()) {
            Some(found) => Ok(found),
            None => Err(unknown_line(alloc, line)),
        }
    }

    /// The commit that the server has too, if this names one.
    pub fn id(&self) -> Option<&ObjectId>
        ensures { option_copied result ≡ common_id self.now }
    {
        match self {
            Acknowledgement::Common(id) => Some(id),
            _ => None,
        }
    }
}

/// Reads a line `shallow <id>` or `unshallow <id>`. White space at the end is ignored.
///
/// # Errors
///
/// `UnknownLineType` with the line for any other. `Memory` where an allocation fails for that error.
pub fn shallow_update_from_line(alloc: Global, line: &str) -> Result<ShallowUpdate, Error>
    ensures { ReadsLine (shallow_update_line line.now) line.now result }
{
    match read_shallow_update(line.as_bytes()) {
        Some(found) => Ok(found),
        None => Err(unknown_line(alloc, line)),
    }
}

impl WantedRef {
    /// Reads a line `<id> <path>`, split at its first blank. White space at the end is ignored.
    ///
    /// # Errors
    ///
    /// `UnknownLineType` with the line for any other. `Memory` where an allocation fails, for the path or for that error.
    pub fn from_line(alloc: Global, line: &str) -> Result<WantedRef, Error>
        ensures { ReadsOwned wanted_value (wanted_ref_line line.now) line.now result }
    {
        let (left, path) = cut(line.as_bytes().trim_end(), b' ');
        let path = match path {
            Some(path) => path,
            None => return Err(unknown_line(alloc, line)),
        };
        let id = match ObjectId::from_hex(left) {
            Ok(id) => id,
            Err(_) => return Err(unknown_line(alloc, line)),
        };
        let path = BString::from_slice(alloc, path)?;
        Ok(WantedRef { id, path })
    }
}

fn unknown_line(alloc: Global, line: &str) -> Error
    ensures { IsAnswerRefusal result (unknown_line line.now) }
{
    match String::from_str(alloc, line) {
        Ok(line) => Error::UnknownLineType { line },
        Err(_) => Error::Memory,
    }
}

// The text after this word, if the text begins with it.
fn following<'a>(text: &'a [u8], word: &[u8]) -> Option<&'a [u8]>
    ensures { option_copied result ≡ following word.now text.now }
{
    text.strip_prefix(word)
}

// Whether a text is this word, or begins with it and a blank.
fn is_word(text: &[u8], word: &[u8]) -> bool
    ensures { result ≡ is_word word.now text.now }
{
    match following(text, word) {
        Some([]) => true,
        Some([next, ..]) => *next == b' ',
        None => false,
    }
}

// The acknowledgement of an id with this status.
fn describe(id: ObjectId, description: &[u8]) -> Option<Acknowledgement>
    ensures { result ≡ described (Some id.bytes) description.now }
{
    if description == b"".as_slice() || description == b" common".as_slice() {
        Some(Acknowledgement::Common(id))
    } else if description == b" ready".as_slice() {
        Some(Acknowledgement::Ready)
    } else {
        None
    }
}

// The acknowledgement of the text after `ACK `.
fn read_acknowledged(text: &[u8]) -> Option<Acknowledgement>
    ensures { result ≡ acknowledged (Some text.now) }
{
    if text.len() < 40 {
        return None;
    }
    let (digits, description) = text.split_at(40);
    match ObjectId::from_hex(digits) {
        Ok(id) => describe(id, description),
        Err(_) => None,
    }
}

pub(crate) fn read_acknowledgement(line: &[u8]) -> Option<Acknowledgement>
    ensures { result ≡ acknowledgement_line line.now }
{
    let text = line.trim_end();
    if is_word(text, b"ready") {
        Some(Acknowledgement::Ready)
    } else if is_word(text, b"NAK") {
        Some(Acknowledgement::Nak)
    } else {
        match following(text, b"ACK ") {
            Some(rest) => read_acknowledged(rest),
            None => None,
        }
    }
}

pub(crate) fn read_shallow_update(line: &[u8]) -> Option<ShallowUpdate>
    ensures { result ≡ shallow_update_line line.now }
{
    let text = line.trim_end();
    if let Some(digits) = following(text, b"shallow ") {
        return match ObjectId::from_hex(digits) {
            Ok(id) => Some(ShallowUpdate::Shallow(id)),
            Err(_) => None,
        };
    }
    match following(text, b"unshallow ") {
        Some(digits) => match ObjectId::from_hex(digits) {
            Ok(id) => Some(ShallowUpdate::Unshallow(id)),
            Err(_) => None,
        },
        None => None,
    }
}
