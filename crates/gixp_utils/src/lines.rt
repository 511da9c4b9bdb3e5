//! The lines of a text, and the words of a line.
ghost use Rattle.std.specs.Prelude.{◌≡◌, IfOk, map};
ghost use Rattle.std.specs.Io.BufRead.{strip_last};
ghost use Rattle.bstr.specs.BStr.{bstr_bytes};
ghost use Rattle.gixp_utils.specs.Lines.{text_pieces, text_lines, line_words};

use bstr::BStr;
use std::alloc::{AllocError, Global};

/// The text without its last LF, if it ends in one.
pub fn without_line_end(text: &[u8]) -> &[u8]
    ensures { result.now ≡ strip_last 10 text.now }
{
    match text {
        [front @ .., b'\n'] => front,
        _ => text,
    }
}

/// The pieces of a text between its LFs. A text that ends in an LF has an empty last piece.
///
/// # Errors
///
/// An allocation failure.
pub fn text_pieces(alloc: Global, text: &[u8]) -> Result<Vec<BStr<'_>>, AllocError>
    ensures { IfOk result (λ found. map bstr_bytes found.items ≡ text_pieces text.now) }
{
    text.split(|byte| *byte == b'\n')
        .map(BStr::new)
        .collect(alloc)
}

/// The lines of a text, each without its LF. The last line may lack it.
///
/// # Errors
///
/// An allocation failure.
pub fn text_lines(alloc: Global, text: &[u8]) -> Result<Vec<BStr<'_>>, AllocError>
    ensures { IfOk result (λ found. map bstr_bytes found.items ≡ text_lines text.now) }
{
    if text.is_empty() {
        return Ok(Vec::new(alloc));
    }
    text_pieces(alloc, without_line_end(text))
}

/// The words of a line, split at each single blank. Two blanks in a row have an empty word between them.
///
/// # Errors
///
/// An allocation failure.
pub fn line_words(alloc: Global, line: &[u8]) -> Result<Vec<BStr<'_>>, AllocError>
    ensures { IfOk result (λ found. map bstr_bytes found.items ≡ line_words line.now) }
{
    line.split(|byte| *byte == b' ')
        .map(BStr::new)
        .collect(alloc)
}
