//! The lines of a request, in git's order and without capabilities that the server lacks.
ghost use Rattle.std.specs.Prelude.{◌≡◌, ◌≤◌, [], ◌∷◌, ◌++◌, length, map, OnOk, IfOk};
ghost use Rattle.bstr.specs.BStr.{bstr_bytes};
ghost use Rattle.gixp_utils.specs.Lines.{line_words};
ghost use Rattle.gixp_plain_requests.specs.Lines.{lines_of, after_lines, FitLines};
ghost use Rattle.gixp_plain_requests.specs.Request.{kind_of, is_kind, of_kind, is_left_out, acknowledgement_words, sent_words, after_blanks, all_sent_words, sent_want, texts_of_lines, request_sent};

use crate::line::{push_line, split_line};
use crate::missing::Missing;
use bstr::BStr;
use gixp_utils::{line_words, without_line_end};
use std::alloc::{AllocError, Global};

// The lines before the first flush packet of a request (gitprotocol-pack, "Packfile Negotiation").
#[derive(Clone, Copy)]
enum LineKind {
    Want,
    Shallow,
    Depth,
    Other,
}

fn kind_of(line: &[u8]) -> LineKind
    ensures { result ≡ kind_of line.now }
{
    if line.starts_with(b"want ") {
        LineKind::Want
    } else if line.starts_with(b"shallow ") {
        LineKind::Shallow
    } else if line.starts_with(b"deepen") {
        LineKind::Depth
    } else {
        LineKind::Other
    }
}

fn is_kind(kind: LineKind, other: LineKind) -> bool
    ensures { result ≡ is_kind kind other }
{
    match (kind, other) {
        (LineKind::Want, LineKind::Want)
        | (LineKind::Shallow, LineKind::Shallow)
        | (LineKind::Depth, LineKind::Depth)
        | (LineKind::Other, LineKind::Other) => true,
        _ => false,
    }
}

// Whether the server lacks this capability, and no other takes its place.
fn is_left_out(missing: Missing, word: &[u8]) -> bool
    ensures { result ≡ is_left_out missing word.now }
{
    if word == b"side-band-64k".as_slice() {
        missing.side_band
    } else if word == b"include-tag".as_slice() {
        missing.include_tag
    } else {
        missing.agent && word.starts_with(b"agent=")
    }
}

fn push_spaced(text: &mut Vec<u8>, word: &[u8]) -> Result<(), AllocError>
    ensures { OnOk result (text.new.items ≡ text.old.items ++ after_blanks (word.now ∷ [])) }
{
    text.push(b' ')?;
    text.extend_from_slice(word)
}

// Appends what is requested in place of `multi_ack_detailed`.
fn push_acknowledgement(text: &mut Vec<u8>, missing: Missing) -> Result<(), AllocError>
    ensures { OnOk result (text.new.items ≡ text.old.items ++ after_blanks (acknowledgement_words missing)) }
{
    if !missing.multi_ack_detailed {
        push_spaced(text, b"multi_ack_detailed")
    } else if !missing.multi_ack {
        push_spaced(text, b"multi_ack")
    } else {
        Ok(())
    }
}

// Appends what is requested in place of a word.
fn push_word(text: &mut Vec<u8>, missing: Missing, word: &[u8]) -> Result<(), AllocError>
    ensures { OnOk result (text.new.items ≡ text.old.items ++ after_blanks (sent_words missing word.now)) }
{
    if word == b"multi_ack_detailed".as_slice() {
        push_acknowledgement(text, missing)
    } else if is_left_out(missing, word) {
        Ok(())
    } else {
        push_spaced(text, word)
    }
}

fn push_each(text: &mut Vec<u8>, missing: Missing, words: &[BStr<'_>]) -> Result<(), AllocError>
    ensures { OnOk result (text.new.items ≡ text.old.items ++ after_blanks (all_sent_words missing (map bstr_bytes words.now))) }
{
    for word in words {
        push_word(text, missing, word.as_bytes())?;
    }
    Ok(())
}

// Appends what is requested in place of the words of a text.
fn push_words(
    alloc: Global,
    text: &mut Vec<u8>,
    missing: Missing,
    words: &[u8],
) -> Result<(), AllocError>
    ensures { OnOk result (text.new.items ≡ text.old.items ++ after_blanks (all_sent_words missing (line_words words.now))) }
{
    push_each(text, missing, &line_words(alloc, words)?)
}

// A `want` line without the capabilities that the server lacks.
fn sent_want(alloc: Global, missing: Missing, line: &[u8]) -> Result<Vec<u8>, AllocError>
    requires { kind_of line.now ≡ LineKind.Want }
    ensures text { IfOk result (λ text. text.items ≡ sent_want missing line.now) }
    ensures size { IfOk result (λ text. length text.items ≤ length line.now) }
{
    let front = without_line_end(line);
    let mut text = Vec::from_slice(alloc, b"want")?;
    push_words(alloc, &mut text, missing, &front[5..])?;
    text.extend_from_slice(&line[front.len()..])?;
    Ok(text)
}

// Appends a line if it is a `want` line.
fn push_want(
    alloc: Global,
    sent: &mut Vec<u8>,
    missing: Missing,
    line: &[u8],
) -> Result<(), AllocError>
    requires { length line.now ≤ 65516 }
    ensures { OnOk result (sent.new.items ≡ sent.old.items
        ++ texts_of_lines (map (sent_want missing) (of_kind LineKind.Want (line.now ∷ [])))) }
{
    if is_kind(LineKind::Want, kind_of(line)) {
        let line = sent_want(alloc, missing, line)?;
        return push_line(sent, &line);
    }
    Ok(())
}

fn push_wants(
    alloc: Global,
    sent: &mut Vec<u8>,
    missing: Missing,
    lines: &[&[u8]],
) -> Result<(), AllocError>
    requires { FitLines lines.now }
    ensures { OnOk result (sent.new.items ≡ sent.old.items
        ++ texts_of_lines (map (sent_want missing) (of_kind LineKind.Want (map (λ l. l.now) lines.now)))) }
{
    for line in lines {
        push_want(alloc, sent, missing, line)?;
    }
    Ok(())
}

// Appends a line if it is of this kind.
fn push_if(sent: &mut Vec<u8>, kind: LineKind, line: &[u8]) -> Result<(), AllocError>
    requires { length line.now ≤ 65516 }
    ensures { OnOk result (sent.new.items ≡ sent.old.items ++ texts_of_lines (of_kind kind (line.now ∷ []))) }
{
    if is_kind(kind, kind_of(line)) {
        return push_line(sent, line);
    }
    Ok(())
}

fn push_lines(sent: &mut Vec<u8>, kind: LineKind, lines: &[&[u8]]) -> Result<(), AllocError>
    requires { FitLines lines.now }
    ensures { OnOk result (sent.new.items ≡ sent.old.items ++ texts_of_lines (of_kind kind (map (λ l. l.now) lines.now))) }
{
    for line in lines {
        push_if(sent, kind, line)?;
    }
    Ok(())
}

// The lines before the first packet without a payload, and the bytes from that packet on.
fn first_lines(alloc: Global, request: &[u8]) -> Result<(Vec<&[u8]>, &[u8]), AllocError>
    ensures lines { IfOk result (λ r. map (λ l. l.now) r.0.items ≡ lines_of request.now) }
    ensures fit { IfOk result (λ r. FitLines r.0.items) }
    ensures rest { IfOk result (λ r. r.1.now ≡ after_lines request.now) }
{
    let mut lines = Vec::new(alloc);
    let mut rest = request;
    while let Some((line, after)) = split_line(rest) {
        lines.push(line)?;
        rest = after;
    }
    Ok((lines, rest))
}

/// A request as a server receives it that lacks these capabilities.
///
/// Of the lines before the first flush packet, the `want` lines come first, then the lines of the boundary, of a depth,
/// and all others, each in their order. git sends them so. The first `want` line has no capability that the server lacks.
/// If the server lacks `multi_ack_detailed`, `multi_ack` takes its place, if the server has that. The bytes from the first
/// flush packet on are unchanged.
///
/// # Errors
///
/// Only an allocation failure.
pub fn sent_request(alloc: Global, missing: Missing, request: &[u8]) -> Result<Vec<u8>, AllocError>
    ensures { IfOk result (λ sent. sent.items ≡ request_sent missing request.now) }
{
    let (lines, rest) = first_lines(alloc, request)?;
    let mut sent = Vec::new(alloc);
    push_wants(alloc, &mut sent, missing, &lines)?;
    push_lines(&mut sent, LineKind::Shallow, &lines)?;
    push_lines(&mut sent, LineKind::Depth, &lines)?;
    push_lines(&mut sent, LineKind::Other, &lines)?;
    sent.extend_from_slice(rest)?;
    Ok(sent)
}
