//! Displays server messages without control characters.
ghost use Rattle.std.specs.Prelude.{◌≡◌};
ghost use Rattle.gixp_client.specs.ServerWords.{visible_ascii};

use gixp_utils::{visible, visible_char, without_line_end};
use std::fmt;
use std::fmt::Display;

// The replacement of a byte in a text that isn't UTF-8.
fn visible_ascii(byte: u8) -> u8
    ensures { result ≡ visible_ascii byte }
{
    if byte.is_ascii() {
        visible(0, byte)
    } else {
        b'?'
    }
}

// Displays a text, with a question mark for each control character.
#[derive(Drop)]
struct Text<'a> {
    text: &'a str,
}

impl Display for Text<'_> {
    fn fmt<W: fmt::Write>(&self, f: &mut fmt::Formatter<W>) -> fmt::Result {
        for c in self.text.chars() {
            f.write_char(visible_char(c))?;
        }
        Ok(())
    }
}

// Displays bytes, with a question mark for each that isn't ASCII, too.
#[derive(Drop)]
struct Bytes<'a> {
    bytes: &'a [u8],
}

impl Display for Bytes<'_> {
    fn fmt<W: fmt::Write>(&self, f: &mut fmt::Formatter<W>) -> fmt::Result {
        for byte in self.bytes {
            f.write_char(visible_ascii(*byte) as char)?;
        }
        Ok(())
    }
}

/// Displays a server message without one trailing LF, so that a terminal executes nothing in it. A question mark replaces each
/// control character that isn't a tab, and each byte that isn't ASCII if the message isn't UTF-8.
#[derive(Drop)]
pub(crate) struct Words<'a> {
    pub(crate) words: &'a [u8],
}

impl Display for Words<'_> {
    fn fmt<W: fmt::Write>(&self, f: &mut fmt::Formatter<W>) -> fmt::Result {
        let bytes = without_line_end(self.words);
        match str::from_utf8(bytes) {
            Ok(text) => Text { text }.fmt(f),
            Err(_) => Bytes { bytes }.fmt(f),
        }
    }
}
