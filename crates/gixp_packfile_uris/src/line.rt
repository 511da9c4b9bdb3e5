//! What happens to a packet line of a response.
ghost use Rattle.std.specs.Prelude.{◌≡◌, length};
ghost use Rattle.std.specs.Char.{is_ascii_hexdigit};
ghost use Rattle.std.specs.List.{list_all};
ghost use Rattle.gixp_packfile_uris.specs.Line.{without_band, text_of, is_message, is_header, is_uri_byte, is_uri_line, start_fate, uri_fate, fate};

use crate::place::{Fate, LinePlace, MOST_URIS};
use gixp_utils::without_line_end;

// A line without band 1, where all lines have a band.
fn without_band(line: &[u8]) -> &[u8]
    ensures { result.now ≡ without_band line.now }
{
    match line.strip_prefix(b"\x01") {
        Some(text) => text,
        None => line,
    }
}

/// The text of a line, without its band and LF.
pub(crate) fn text_of(line: &[u8]) -> &[u8]
    ensures { result.now ≡ text_of line.now }
{
    without_line_end(without_band(line))
}

fn is_message(line: &[u8]) -> bool
    ensures { result ≡ is_message line.now }
{
    match line.first() {
        Some(band) => *band == 2 || *band == 3,
        None => false,
    }
}

// Whether the section `packfile-uris` begins with this line.
fn is_header(line: &[u8]) -> bool
    ensures { result ≡ is_header line.now }
{
    text_of(line) == b"packfile-uris".as_slice()
}

// Whether a byte may occur in a URI.
fn is_uri_byte(byte: u8) -> bool
    ensures { result ≡ is_uri_byte byte }
{
    byte > b' ' && byte != 127
}

fn are_digits(text: &[u8]) -> bool
    ensures { result ≡ list_all is_ascii_hexdigit text.now }
{
    text.iter().all(|b| b.is_ascii_hexdigit())
}

// Whether all bytes may occur in a URI.
fn are_uri_bytes(text: &[u8]) -> bool
    ensures { result ≡ list_all is_uri_byte text.now }
{
    text.iter().all(|b| is_uri_byte(*b))
}

// Whether a text is the hash of a pack, a space and a URI.
fn is_uri_line(text: &[u8]) -> bool
    ensures { result ≡ is_uri_line text.now }
{
    if text.len() < 42 {
        return false;
    }
    let digits = &text[..40];
    let gap = &text[40..41];
    let uri = &text[41..];
    are_digits(digits) && (gap == b" ".as_slice() && are_uri_bytes(uri))
}

// What happens to a line at the start of a section.
fn start_fate(line: &[u8]) -> Fate
    ensures { result ≡ start_fate line.now }
{
    if is_header(line) {
        Fate::Take(LinePlace::Uris(0))
    } else {
        Fate::Pass(LinePlace::Section)
    }
}

// What happens to a line of the section `packfile-uris`, after `count` others.
fn uri_fate(count: usize, line: &[u8]) -> Fate
    ensures { result ≡ uri_fate count line.now }
{
    if count < MOST_URIS && is_uri_line(text_of(line)) {
        Fate::Take(LinePlace::Uris(count + 1))
    } else {
        Fate::Refuse
    }
}

/// What happens to a line.
pub(crate) fn fate(place: LinePlace, line: &[u8]) -> Fate
    ensures { result ≡ fate place line.now }
{
    if is_message(line) {
        return Fate::Pass(place);
    }
    match place {
        LinePlace::SectionStart => start_fate(line),
        LinePlace::Uris(count) => uri_fate(count, line),
        LinePlace::Section => Fate::Pass(LinePlace::Section),
        LinePlace::Over => Fate::Pass(LinePlace::Over),
    }
}
