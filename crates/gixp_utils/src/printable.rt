//! Text of a server, as a terminal may show it.
ghost use Rattle.std.specs.Prelude.{◌≡◌};
ghost use Rattle.gixp_utils.specs.Printable.{is_control, visible, visible_char};

// Whether a terminal may interpret the byte as a control character. In UTF-8 the C1 control characters are 194 and a byte from
// 128 to 159.
fn is_control(before: u8, byte: u8) -> bool
    ensures { result ≡ is_control before byte }
{
    (byte < 32 && byte != b'\t') || byte == 127 || (before == 194 && 128 <= byte && byte < 160)
}

/// The byte, or a question mark in place of a control character that isn't a tab. `before` is the byte before it.
#[inline(always)]
pub fn visible(before: u8, byte: u8) -> u8
    ensures { result ≡ visible before byte }
{
    if is_control(before, byte) { b'?' } else { byte }
}

/// The character, or a question mark in place of a control character that isn't a tab.
pub fn visible_char(c: char) -> char
    ensures { result ≡ visible_char c }
{
    if c.is_control() && c != '\t' { '?' } else { c }
}
