//! One line of a version 0 or 1 advertisement, as spans (gitprotocol-pack, "Reference Discovery").
ghost use Rattle.std.specs.Prelude.{◌≡◌, ◌==◌, Ok, MatchResult, IfOk};
ghost use Rattle.std.specs.List.{list_all};
ghost use Rattle.gixp_refs.specs.RefLine.{id_value};
ghost use Rattle.gixp_refs.specs.RefAdvertisement.{line_by_path, plain_line, peeled_line, v1_line};
ghost use Rattle.gixp_records.specs.Span.{text_at, IsWithin};
ghost use Rattle.gixp_records.specs.ListedLine.{listed_v1};
ghost use Rattle.gixp_records.specs.V1RecordLine.{IsRefusedAs, line_in, IsAdvertisedWithin};

use crate::advertised::refused::AdvertisedLineRefused;
use crate::line::{id_in, trimmed};
use crate::span::{Span, cut_at, text_at};
use crate::white_space::loses_white_space;
use gixp_hash::ObjectId;

#[derive(Clone, Copy)]
pub(crate) struct NamedLine {
    pub(crate) object: ObjectId,
    pub(crate) name: Span,
}

#[derive(Clone, Copy)]
pub(crate) enum AdvertisedLine {
    // The line `capabilities^{}` of an empty repository.
    Nothing,
    // A peeled line: the id and the name before `^{}`.
    Peeled { left: Span, base: Span },
    Named(NamedLine),
    // A commit of the server's shallow boundary.
    Shallow(ObjectId),
}

#[inline(always)]
fn is_zeros(text: &[u8]) -> bool
    ensures { result ≡ list_all (λ b. b == 48) text.now }
{
    text.iter().all(|byte| *byte == b'0')
}

// A line whose name ends in `^{}`.
#[inline(always)]
fn peeled_line(bytes: &[u8], left: Span, base: Span) -> AdvertisedLine
    requires left { IsWithin bytes.now left }
    requires base { IsWithin bytes.now base }
    ensures line { line_in bytes.now result ≡ peeled_line (text_at bytes.now left) (text_at bytes.now base) }
    ensures within { IsAdvertisedWithin bytes.now result }
{
    if is_zeros(text_at(bytes, left)) && text_at(bytes, base) == b"capabilities".as_slice() {
        AdvertisedLine::Nothing
    } else {
        AdvertisedLine::Peeled { left, base }
    }
}

#[inline(always)]
pub(crate) fn read_id(text: &[u8]) -> Result<ObjectId, AdvertisedLineRefused>
    ensures { MatchResult result (λ id. id_value text.now ≡ Ok id.bytes) (IsRefusedAs (id_value text.now)) }
{
    match id_in(text) {
        Ok(id) => Ok(id),
        Err(_) => Err(AdvertisedLineRefused::Id),
    }
}

// A line whose name doesn't end in `^{}`.
#[inline(always)]
fn read_plain(bytes: &[u8], left: Span, path: Span) -> Result<AdvertisedLine, AdvertisedLineRefused>
    requires left { IsWithin bytes.now left }
    requires path { IsWithin bytes.now path }
    ensures value { MatchResult result
        (λ l. plain_line (text_at bytes.now left) (text_at bytes.now path) (id_value (text_at bytes.now left)) ≡ Ok (line_in bytes.now l))
        (IsRefusedAs (plain_line (text_at bytes.now left) (text_at bytes.now path) (id_value (text_at bytes.now left)))) }
    ensures within { IfOk result (IsAdvertisedWithin bytes.now) }
{
    match read_id(text_at(bytes, left)) {
        Ok(object) => Ok(AdvertisedLine::Named(NamedLine { object, name: path })),
        Err(e) => {
            if text_at(bytes, left) != b"shallow".as_slice() {
                return Err(e);
            }
            match read_id(text_at(bytes, path)) {
                Ok(id) => Ok(AdvertisedLine::Shallow(id)),
                Err(e) => Err(e),
            }
        }
    }
}

#[inline(always)]
fn read_path(bytes: &[u8], left: Span, path: Span) -> Result<AdvertisedLine, AdvertisedLineRefused>
    requires left { IsWithin bytes.now left }
    requires path { IsWithin bytes.now path }
    ensures value { MatchResult result
        (λ l. line_by_path (text_at bytes.now left) (text_at bytes.now path) ≡ Ok (line_in bytes.now l))
        (IsRefusedAs (line_by_path (text_at bytes.now left) (text_at bytes.now path))) }
    ensures within { IfOk result (IsAdvertisedWithin bytes.now) }
{
    match text_at(bytes, path).strip_suffix(b"^{}") {
        Some(base) => {
            let base = Span {
                at: path.at,
                len: base.len(),
            };
            Ok(peeled_line(bytes, left, base))
        }
        None => read_plain(bytes, left, path),
    }
}

// Reads a line without the white space at its end.
#[inline(always)]
fn read_trimmed_line(bytes: &[u8], line: Span) -> Result<AdvertisedLine, AdvertisedLineRefused>
    requires { IsWithin bytes.now line }
    ensures value { MatchResult result
        (λ l. v1_line (text_at bytes.now line) ≡ Ok (line_in bytes.now l)) (IsRefusedAs (v1_line (text_at bytes.now line))) }
    ensures within { IfOk result (IsAdvertisedWithin bytes.now) }
{
    let (left, path) = cut_at(bytes, trimmed(bytes, line), b' ');
    match path {
        Some(path) => {
            if path.len == 0 {
                return Err(AdvertisedLineRefused::Malformed);
            }
            read_path(bytes, left, path)
        }
        None => Err(AdvertisedLineRefused::Malformed),
    }
}

// Reads a line, which is malformed if it loses white space.
#[inline(always)]
pub(crate) fn read_advertised_line(
    bytes: &[u8],
    line: Span,
) -> Result<AdvertisedLine, AdvertisedLineRefused>
    requires { IsWithin bytes.now line }
    ensures value { MatchResult result
        (λ l. listed_v1 (text_at bytes.now line) ≡ Ok (line_in bytes.now l)) (IsRefusedAs (listed_v1 (text_at bytes.now line))) }
    ensures within { IfOk result (IsAdvertisedWithin bytes.now) }
{
    match read_trimmed_line(bytes, line) {
        Ok(found) => {
            if loses_white_space(text_at(bytes, line)) {
                return Err(AdvertisedLineRefused::Malformed);
            }
            Ok(found)
        }
        Err(e) => Err(e),
    }
}
