//! Lines of an `ls-refs` response (gitprotocol-v2, "ls-refs").
ghost use Rattle.std.specs.Prelude.{◌≡◌, None, Some, codes};
ghost use Rattle.std.specs.Option.{option_copied};
ghost use Rattle.bstr.specs.Owned.{bstring_bytes};
ghost use Rattle.gixp_hash.specs.declared.object_id.ObjectId.{ObjectId};
ghost use Rattle.gixp_refs.specs.Ref.{ref_value};
ghost use Rattle.gixp_refs.specs.RefLine.{malformed_v2, unknown_attribute, id_value, with_attribute, attributes_of, first_piece, value_of, v2_line};
ghost use Rattle.gixp_capabilities.specs.Capabilities.{is_text};
ghost use Rattle.gixp_refs.specs.ParseError.{AnswersRefs, IsParseRefusal, attribute_values, object_of};

use crate::handshake::Ref;
use crate::handshake::refs::parse::{Error, Invariant};
use crate::trim::trim_end;
use bstr::BString;
use gixp_capabilities::text::cut;
use gixp_hash::ObjectId;
use std::alloc::Global;

#[derive(Clone, Copy)]
pub(crate) struct Attributes<'a> {
    symref_target: Option<&'a [u8]>,
    peeled: Option<ObjectId>,
}

// Whether a target is `(null)`, which means none.
pub(super) fn is_null(target: &[u8]) -> bool
    ensures { result ≡ is_text target.now (codes "(null)") }
{
    target == b"(null)".as_slice()
}

#[inline(always)]
pub(super) fn read_id(text: &[u8]) -> Result<ObjectId, Error>
    ensures { AnswersRefs (λ (id : ObjectId). id.bytes) (id_value text.now) result }
{
    Ok(ObjectId::from_hex(text)?)
}

fn malformed(alloc: Global, line: &[u8]) -> Error
    ensures { IsParseRefusal result (malformed_v2 line.now) }
{
    match BString::from_slice(alloc, line) {
        Ok(line) => Error::MalformedV2RefLine(line),
        Err(_) => Error::Memory,
    }
}

fn unknown_attribute(alloc: Global, attribute: &[u8], line: &[u8]) -> Error
    ensures { IsParseRefusal result (unknown_attribute attribute.now line.now) }
{
    match (
        BString::from_slice(alloc, attribute),
        BString::from_slice(alloc, line),
    ) {
        (Ok(attribute), Ok(line)) => Error::UnknownAttribute { attribute, line },
        _ => Error::Memory,
    }
}

// Adds one more attribute of the line.
fn read_attribute<'a>(
    alloc: Global,
    line: &[u8],
    piece: &'a [u8],
    had: Attributes<'a>,
) -> Result<Attributes<'a>, Error>
    ensures { AnswersRefs attribute_values (with_attribute line.now piece.now (attribute_values had.entry)) result }
{
    let (name, value) = cut(piece, b':');
    let value = match value {
        Some(value) => value,
        None => return Err(malformed(alloc, line)),
    };
    if value.is_empty() {
        return Err(malformed(alloc, line));
    }
    if name == b"peeled".as_slice() {
        let id = read_id(value)?;
        Ok(Attributes {
            symref_target: had.symref_target,
            peeled: Some(id),
        })
    } else if name == b"symref-target".as_slice() {
        Ok(Attributes {
            symref_target: Some(value),
            peeled: had.peeled,
        })
    } else {
        Err(unknown_attribute(alloc, name, line))
    }
}

fn read_attributes<'a>(
    alloc: Global,
    line: &[u8],
    rest: Option<&'a [u8]>,
) -> Result<Attributes<'a>, Error>
    ensures { AnswersRefs attribute_values (attributes_of line.now (option_copied rest.entry)) result }
{
    let none = Attributes {
        symref_target: None,
        peeled: None,
    };
    let rest = match rest {
        Some(rest) => rest,
        None => return Ok(none),
    };
    let (third, fourth) = cut(rest, b' ');
    let first = read_attribute(alloc, line, third, none)?;
    match fourth {
        Some(fourth) => read_attribute(alloc, line, fourth, first),
        None => Ok(first),
    }
}

// Reads an id; `None` for `unborn`.
#[inline(always)]
fn read_first(text: &[u8]) -> Result<Option<ObjectId>, Error>
    ensures { AnswersRefs object_of (first_piece text.now) result }
{
    if text == b"unborn".as_slice() {
        return Ok(None);
    }
    Ok(Some(read_id(text)?))
}

#[inline(always)]
fn make_born(
    alloc: Global,
    object: ObjectId,
    full_ref_name: BString,
    had: Attributes<'_>,
) -> Result<Ref, Error>
    ensures { AnswersRefs ref_value (value_of (Some object.bytes) (bstring_bytes full_ref_name) (attribute_values had.entry)) result }
{
    let target = match had.symref_target {
        Some(target) if is_null(target) => None,
        Some(target) => Some(BString::from_slice(alloc, target)?),
        None => None,
    };
    match (target, had.peeled) {
        (None, None) => Ok(Ref::Direct {
            full_ref_name,
            object,
        }),
        (None, Some(peeled)) => Ok(Ref::Peeled {
            full_ref_name,
            tag: object,
            object: peeled,
        }),
        (Some(target), None) => Ok(Ref::Symbolic {
            full_ref_name,
            target,
            tag: None,
            object,
        }),
        (Some(target), Some(peeled)) => Ok(Ref::Symbolic {
            full_ref_name,
            target,
            tag: Some(object),
            object: peeled,
        }),
    }
}

// Makes a ref without an id. It needs a target; a peeled value is then ignored.
fn make_unborn(alloc: Global, full_ref_name: BString, had: Attributes<'_>) -> Result<Ref, Error>
    ensures { AnswersRefs ref_value (value_of None (bstring_bytes full_ref_name) (attribute_values had.entry)) result }
{
    let message = match (had.symref_target, had.peeled) {
        (Some(target), _) if is_null(target) => Invariant::UnbornNullTarget,
        (Some(target), _) => {
            let target = BString::from_slice(alloc, target)?;
            return Ok(Ref::Unborn {
                full_ref_name,
                target,
            });
        }
        (None, Some(_)) => Invariant::UnbornTag,
        (None, None) => Invariant::UnbornObject,
    };
    Err(Error::InvariantViolation { message })
}

/// Reads the ref of a line of an `ls-refs` response, for callers that read the lines themselves (gitprotocol-v2, "ls-refs").
///
/// # Errors
///
/// The first error of the line; [`Error`] lists them.
#[inline(always)]
pub fn parse_v2(alloc: Global, line: &[u8]) -> Result<Ref, Error>
    ensures { AnswersRefs ref_value (v2_line line.now) result }
{
    let line = trim_end(line);
    let (first, rest) = cut(line, b' ');
    let rest = match rest {
        Some(rest) => rest,
        None => return Err(malformed(alloc, line)),
    };
    let object = read_first(first)?;
    let (name, rest) = cut(rest, b' ');
    if name.is_empty() {
        return Err(malformed(alloc, line));
    }
    let had = read_attributes(alloc, line, rest)?;
    let name = BString::from_slice(alloc, name)?;
    match object {
        Some(object) => make_born(alloc, object, name, had),
        None => make_unborn(alloc, name, had),
    }
}
