//! Argument lines and haves. A line of a word and an id is stored as the id, so that a request for very many objects
//! needs no text for each.
ghost use Rattle.std.specs.Prelude.{◌≡◌, ◌<◌, [], ◌∷◌, ◌++◌, length, map, position, IfOk, IfSome, OnOk, OnErr};
ghost use Rattle.std.specs.List.{list_any};
ghost use Rattle.gixp_requests.specs.Command.{texts};
ghost use Rattle.gixp_requests.specs.Arguments.{id_text, is_want};
ghost use Rattle.gixp_requests.specs.Line.{line_text, line_texts, have_text, have_texts};
ghost use Rattle.gixp_requests.specs.Request.{exchanged};

use bstr::BString;
use gixp_hash::ObjectId;
use std::alloc::{AllocError, Global};

/// An argument line.
#[derive(Debug, Drop)]
pub(crate) enum Line {
    /// The line `want <id>`.
    Want(ObjectId),
    /// Any other line as text; also the first want if it has features.
    Text(BString),
}

pub(crate) fn push_line(lines: &mut Vec<Line>, line: Line) -> Result<(), AllocError>
    ensures ok { OnOk result (line_texts lines.new ≡ line_texts lines.old ++ line_text line ∷ []) }
    ensures err { OnErr result (line_texts lines.new ≡ line_texts lines.old) }
{
    lines.push(line)?;
    Ok(())
}

pub(crate) fn push_have(haves: &mut Vec<ObjectId>, id: ObjectId) -> Result<(), AllocError>
    ensures ok { OnOk result (have_texts haves.new ≡ have_texts haves.old ++ have_text id ∷ []) }
    ensures err { OnErr result (have_texts haves.new ≡ have_texts haves.old) }
{
    haves.push(id)?;
    Ok(())
}

pub(crate) fn text_lines(alloc: Global, words: Vec<BString>) -> Result<Vec<Line>, AllocError>
    ensures { IfOk result (λ lines. line_texts lines ≡ texts words) }
{
    let mut lines = Vec::with_capacity(alloc, words.len())?;
    'words: for text in words {
        push_line(&mut lines, Line::Text(text))?;
    }
    Ok(lines)
}

// A word of five bytes, the last of them a blank, and an id.
pub(crate) fn id_line(word: &[u8; 5], id: &ObjectId) -> [u8; 45]
    ensures { result ≡ word.now ++ id_text id.now }
{
    let mut line = [0; 45];
    line[..5].copy_from_slice(word);
    line[5..].copy_from_slice(&id.to_hex());
    line
}

fn is_want(line: &Line) -> bool
    ensures { result ≡ is_want (line_text line.now) }
{
    match line {
        Line::Want(_) => true,
        Line::Text(text) => text.as_bytes().starts_with(b"want "),
    }
}

fn any_want(lines: &[Line]) -> bool
    ensures { result ≡ list_any (λ line. is_want (line_text line)) lines.now }
{
    lines.iter().any(|line| is_want(line))
}

pub(crate) fn has_want(lines: &[Line]) -> bool
    ensures { result ≡ list_any is_want (map line_text lines.now) }
{
    any_want(lines)
}

fn want_at(lines: &[Line]) -> Option<usize>
    ensures place { result ≡ position (λ line. is_want (line_text line)) lines.now }
    ensures within { IfSome result (λ i. i < length lines.now) }
{
    lines.iter().position(|line| is_want(line))
}

// The index of the first want.
pub(crate) fn first_want(lines: &[Line]) -> Option<usize>
    ensures place { result ≡ position is_want (map line_text lines.now) }
    ensures within { IfSome result (λ i. i < length lines.now) }
{
    want_at(lines)
}

// Exchanges the line at this index, if there is one, with the first line.
pub(crate) fn exchange(lines: &mut [Line], place: Option<usize>)
    requires { IfSome place (λ i. i < length lines.old) }
    ensures { lines.new ≡ exchanged lines.old place }
{
    if let Some(place) = place {
        lines.swap(0, place);
    }
}
