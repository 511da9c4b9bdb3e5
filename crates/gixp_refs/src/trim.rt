//! White space at the end of a line.
ghost use Rattle.std.specs.Prelude.{◌≡◌, MatchBool};
ghost use Rattle.std.specs.Char.{is_whitespace};
ghost use Rattle.std.specs.Str.{IsAscii, IsNotAscii};
ghost use Rattle.bstr.specs.Trim.{trim_end_by};
ghost use Rattle.gixp_refs.specs.RefLine.{trimmed_space};

use bstr::ByteSlice;

// The line without the white space at its end. Mostly that is one LF after a letter or digit. These two bytes are
// recognized without decoding characters.
#[inline(always)]
pub(crate) fn trim_end(line: &[u8]) -> &[u8]
    ensures { result.now ≡ trim_end_by is_whitespace line.now }
{
    if let [text @ .., end] = line
        && *end == b'\n'
        && let [.., last] = text
        && *last > b' '
        && *last < 0x80
    {
        return text;
    }
    line.trim_end()
}

/// Whether the name of a ref loses white space when this line of a list of refs is read. git allows white space outside ASCII in
/// names (git-check-ref-format), so a name without it may be another ref's.
pub fn loses_white_space(line: &[u8]) -> bool
    ensures { MatchBool result (IsNotAscii (trimmed_space line.now)) (IsAscii (trimmed_space line.now)) }
{
    !line[trim_end(line).len()..].is_ascii()
}
