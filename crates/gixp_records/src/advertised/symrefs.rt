//! The symbolic refs in the capabilities of a first ref line (gitprotocol-capabilities, "symref").
ghost use Rattle.std.specs.Prelude.{◌≡◌, Ok, All, IfOk, IfSome, MatchResult, map};
ghost use Rattle.std.specs.Option.{option_map};
ghost use Rattle.gixp_capabilities.specs.Capabilities.{capability_of, capabilities_of_words};
ghost use Rattle.gixp_capabilities.specs.Cut.{cut};
ghost use Rattle.gixp_refs.specs.RefAdvertisement.{symref_by, symref_in, symref_named, symref_table};
ghost use Rattle.gixp_records.specs.Span.{text_at, IsWithin};
ghost use Rattle.gixp_records.specs.V1RecordLine.{IsRefusedAs, symref_at, IsSymrefWithin};
ghost use Rattle.gixp_records.specs.RefsOpening.{AnswersSymrefs};

use crate::advertised::refused::{AdvertisedLineRefused, AdvertisedRefused};
use crate::line::is_null;
use crate::span::{Span, cut_at, text_at};
use std::alloc::Global;

// A symbolic ref, and its target if the server names one.
#[derive(Clone, Copy)]
pub(crate) struct SymrefSpan {
    pub(crate) name: Span,
    pub(crate) target: Option<Span>,
}

// Parses the value of a capability `symref`.
fn read_value(bytes: &[u8], value: Span) -> Result<SymrefSpan, AdvertisedLineRefused>
    requires { IsWithin bytes.now value }
    ensures value { MatchResult result
        (λ s. symref_by (text_at bytes.now value) (cut 58 (text_at bytes.now value)) ≡ Ok (symref_at bytes.now s))
        (IsRefusedAs (symref_by (text_at bytes.now value) (cut 58 (text_at bytes.now value)))) }
    ensures within { IfOk result (IsSymrefWithin bytes.now) }
{
    let (name, target) = cut_at(bytes, value, b':');
    let target = match target {
        Some(target) => target,
        None => return Err(AdvertisedLineRefused::Symref),
    };
    if name.len == 0 {
        return Err(AdvertisedLineRefused::Symref);
    }
    if target.len == 0 {
        return Err(AdvertisedLineRefused::Symref);
    }
    if is_null(text_at(bytes, target)) {
        return Ok(SymrefSpan { name, target: None });
    }
    Ok(SymrefSpan {
        name,
        target: Some(target),
    })
}

// Parses a capability. Returns `None` unless it is a `symref` with a value.
fn read_symref(bytes: &[u8], word: Span) -> Result<Option<SymrefSpan>, AdvertisedLineRefused>
    requires { IsWithin bytes.now word }
    ensures value { MatchResult result
        (λ s. symref_in (capability_of (text_at bytes.now word)) ≡ Ok (option_map (symref_at bytes.now) s))
        (IsRefusedAs (symref_in (capability_of (text_at bytes.now word)))) }
    ensures within { IfOk result (λ s. IfSome s (IsSymrefWithin bytes.now)) }
{
    let (name, value) = cut_at(bytes, word, b'=');
    if text_at(bytes, name) != b"symref".as_slice() {
        return Ok(None);
    }
    match value {
        Some(value) => match read_value(bytes, value) {
            Ok(symref) => Ok(Some(symref)),
            Err(e) => Err(e),
        },
        None => Ok(None),
    }
}

// The symbolic refs in the capabilities of a first ref line, in order.
pub(crate) fn read_symrefs(
    alloc: Global,
    bytes: &[u8],
    capabilities: Span,
) -> Result<Vec<SymrefSpan>, AdvertisedRefused>
    requires { IsWithin bytes.now capabilities }
    ensures value { AnswersSymrefs bytes.now (symref_table (capabilities_of_words (text_at bytes.now capabilities))) result }
    ensures within { IfOk result (λ found. All (IsSymrefWithin bytes.now) found.items) }
{
    let mut found = Vec::new(alloc);
    let mut rest = Some(capabilities);
    while let Some(text) = rest {
        let (word, others) = cut_at(bytes, text, b' ');
        if word.len != 0 {
            match read_symref(bytes, word) {
                Ok(Some(symref)) => match found.push(symref) {
                    Ok(()) => {}
                    Err(_) => return Err(AdvertisedRefused::Memory),
                },
                Ok(None) => {}
                Err(e) => return Err(AdvertisedRefused::Line(e)),
            }
        }
        rest = others;
    }
    Ok(found)
}

#[inline(always)]
pub(crate) fn find_symref(bytes: &[u8], symrefs: &[SymrefSpan], name: &[u8]) -> Option<SymrefSpan>
    requires { All (IsSymrefWithin bytes.now) symrefs.now }
    ensures found { option_map (symref_at bytes.now) result ≡ symref_named (map (symref_at bytes.now) symrefs.now) name.now }
    ensures within { IfSome result (IsSymrefWithin bytes.now) }
{
    let mut rest = symrefs;
    while let Some((symref, tail)) = rest.split_first() {
        if text_at(bytes, symref.name) == name {
            return Some(*symref);
        }
        rest = tail;
    }
    None
}
