//! One line of an `ls-refs` response, as spans (gitprotocol-v2, "ls-refs").
ghost use Rattle.std.specs.Prelude.{◌≡◌, Ok, Err, MatchResult, IfOk, IfSome, codes, List, ℕ};
ghost use Rattle.std.specs.Option.{option_map};
ghost use Rattle.std.specs.Char.{is_whitespace};
ghost use Rattle.bstr.specs.Trim.{trim_end_by};
ghost use Rattle.gixp_capabilities.specs.Cut.{cut};
ghost use Rattle.gixp_capabilities.specs.Capabilities.{is_text};
ghost use Rattle.gixp_refs.specs.ParseError.{object_of};
ghost use Rattle.gixp_refs.specs.RefLine.{bad_id, id_value, first_piece, named_attribute, with_attribute, attributes_of, named, v2_line};
ghost use Rattle.gixp_records.specs.Span.{text_at, IsWithin};
ghost use Rattle.gixp_records.specs.RecordLine.{Judges, attributes_in, AreAttributesWithin, line_ref_value, IsLineWithin};

use crate::span::{Span, cut_at, text_at};
use bstr::ByteSlice;
use gixp_hash::{ObjectId, decode};

/// The error of reading a line of an `ls-refs` response.
#[derive(Clone, Copy, Debug, PartialEq, Eq)]
pub enum LineRefused {
    /// The object id is invalid.
    Id,
    /// The line has no name, or an attribute without a value, or white space outside ASCII at its end, which git allows in names.
    Malformed,
    /// The line has an attribute other than `peeled` and `symref-target`.
    UnknownAttribute,
    /// An unborn ref has no target.
    Unborn,
}

// The attributes of a line.
#[derive(Clone, Copy)]
pub(crate) struct LineAttributes {
    pub(crate) target: Option<Span>,
    pub(crate) peeled: Option<ObjectId>,
}

// The parts of a line.
#[derive(Clone, Copy)]
pub(crate) struct LineRef {
    pub(crate) object: Option<ObjectId>,
    pub(crate) name: Span,
    pub(crate) attributes: LineAttributes,
}

#[inline(always)]
pub(crate) fn id_in(text: &[u8]) -> Result<ObjectId, decode::Error>
    ensures { MatchResult result (λ id. id_value text.now ≡ Ok id.bytes) (λ e. id_value text.now ≡ Err (bad_id e)) }
{
    ObjectId::from_hex(text)
}

#[inline(always)]
fn read_id(text: &[u8]) -> Result<ObjectId, LineRefused>
    ensures { MatchResult result (λ id. id_value text.now ≡ Ok id.bytes) (Judges (id_value text.now)) }
{
    match id_in(text) {
        Ok(id) => Ok(id),
        Err(_) => Err(LineRefused::Id),
    }
}

// Parses the id of a line, or `unborn`.
#[inline(always)]
fn read_first(text: &[u8]) -> Result<Option<ObjectId>, LineRefused>
    ensures { MatchResult result (λ id. first_piece text.now ≡ Ok (object_of id)) (Judges (first_piece text.now)) }
{
    if text == b"unborn".as_slice() {
        return Ok(None);
    }
    match read_id(text) {
        Ok(id) => Ok(Some(id)),
        Err(e) => Err(e),
    }
}

// Adds an attribute to those read so far, by its name and its value.
fn name_attribute(
    bytes: &[u8],
    name: &[u8],
    value: Span,
    had: LineAttributes,
) -> Result<LineAttributes, LineRefused>
    requires value { IsWithin bytes.now value }
    requires had { AreAttributesWithin bytes.now had }
    ensures attributes { (line : List ℕ) → MatchResult result
        (λ attributes. named_attribute line name.now (text_at bytes.now value) (attributes_in bytes.now had) ≡ Ok (attributes_in bytes.now attributes))
        (Judges (named_attribute line name.now (text_at bytes.now value) (attributes_in bytes.now had))) }
    ensures within { IfOk result (AreAttributesWithin bytes.now) }
{
    if name == b"peeled".as_slice() {
        return match read_id(text_at(bytes, value)) {
            Ok(id) => Ok(LineAttributes {
                target: had.target,
                peeled: Some(id),
            }),
            Err(e) => Err(e),
        };
    }
    if name == b"symref-target".as_slice() {
        return Ok(LineAttributes {
            target: Some(value),
            peeled: had.peeled,
        });
    }
    Err(LineRefused::UnknownAttribute)
}

// Adds an attribute to those read so far.
fn read_attribute(
    bytes: &[u8],
    piece: Span,
    had: LineAttributes,
) -> Result<LineAttributes, LineRefused>
    requires piece { IsWithin bytes.now piece }
    requires had { AreAttributesWithin bytes.now had }
    ensures attributes { (line : List ℕ) → MatchResult result
        (λ attributes. with_attribute line (text_at bytes.now piece) (attributes_in bytes.now had) ≡ Ok (attributes_in bytes.now attributes))
        (Judges (with_attribute line (text_at bytes.now piece) (attributes_in bytes.now had))) }
    ensures within { IfOk result (AreAttributesWithin bytes.now) }
{
    let (name, value) = cut_at(bytes, piece, b':');
    match value {
        Some(value) => {
            if value.len == 0 {
                return Err(LineRefused::Malformed);
            }
            name_attribute(bytes, text_at(bytes, name), value, had)
        }
        None => Err(LineRefused::Malformed),
    }
}

// Reads the attributes after a name.
fn read_attributes(bytes: &[u8], rest: Option<Span>) -> Result<LineAttributes, LineRefused>
    requires { IfSome rest (IsWithin bytes.now) }
    ensures attributes { (line : List ℕ) → MatchResult result
        (λ attributes. attributes_of line (option_map (text_at bytes.now) rest) ≡ Ok (attributes_in bytes.now attributes))
        (Judges (attributes_of line (option_map (text_at bytes.now) rest))) }
    ensures within { IfOk result (AreAttributesWithin bytes.now) }
{
    let none = LineAttributes {
        target: None,
        peeled: None,
    };
    let rest = match rest {
        Some(rest) => rest,
        None => return Ok(none),
    };
    let (third, fourth) = cut_at(bytes, rest, b' ');
    let first = match read_attribute(bytes, third, none) {
        Ok(first) => first,
        Err(e) => return Err(e),
    };
    match fourth {
        Some(fourth) => read_attribute(bytes, fourth, first),
        None => Ok(first),
    }
}

// The span of a line without trailing white space.
#[inline(always)]
pub(crate) fn trimmed(bytes: &[u8], line: Span) -> Span
    requires { IsWithin bytes.now line }
    ensures text { text_at bytes.now result ≡ trim_end_by is_whitespace (text_at bytes.now line) }
    ensures within { IsWithin bytes.now result }
{
    let text = text_at(bytes, line);
    Span {
        at: line.at,
        len: text.trim_end().len(),
    }
}

// Reads the part of a line after the id.
#[inline(always)]
fn read_named(bytes: &[u8], object: Option<ObjectId>, rest: Span) -> Result<LineRef, LineRefused>
    requires { IsWithin bytes.now rest }
    ensures attributes { (line : List ℕ) → MatchResult result
        (λ l. named line (object_of object) (cut 32 (text_at bytes.now rest)) ≡ line_ref_value bytes.now l)
        (Judges (named line (object_of object) (cut 32 (text_at bytes.now rest)))) }
    ensures within { IfOk result (IsLineWithin bytes.now) }
{
    let (name, rest) = cut_at(bytes, rest, b' ');
    if name.len == 0 {
        return Err(LineRefused::Malformed);
    }
    match read_attributes(bytes, rest) {
        Ok(attributes) => Ok(LineRef {
            object,
            name,
            attributes,
        }),
        Err(e) => Err(e),
    }
}

#[inline(always)]
pub(crate) fn read_line(bytes: &[u8], line: Span) -> Result<LineRef, LineRefused>
    requires { IsWithin bytes.now line }
    ensures attributes { MatchResult result
        (λ l. v2_line (text_at bytes.now line) ≡ line_ref_value bytes.now l)
        (Judges (v2_line (text_at bytes.now line))) }
    ensures within { IfOk result (IsLineWithin bytes.now) }
{
    let (first, rest) = cut_at(bytes, trimmed(bytes, line), b' ');
    let rest = match rest {
        Some(rest) => rest,
        None => return Err(LineRefused::Malformed),
    };
    match read_first(text_at(bytes, first)) {
        Ok(object) => read_named(bytes, object, rest),
        Err(e) => Err(e),
    }
}

// Whether a symref's target is `(null)`, which means none.
#[inline(always)]
pub(crate) fn is_null(target: &[u8]) -> bool
    ensures { result ≡ is_text target.now (codes "(null)") }
{
    target == b"(null)".as_slice()
}
