//! Texts with a separator.
ghost use Rattle.std.specs.Prelude.{◌≡◌};
ghost use Rattle.std.specs.Option.{option_copied};
ghost use Rattle.gixp_capabilities.specs.Cut.{cut};

use bstr::ByteSlice;

/// The text before the first such byte, and the text after it. `None` and the whole text where the byte doesn't occur.
#[inline(always)]
pub fn cut(text: &[u8], byte: u8) -> (&[u8], Option<&[u8]>)
    ensures { cut byte text.now ≡ (result.0.now, option_copied result.1) }
{
    match text.find_byte(byte) {
        Some(i) => {
            let (front, rest) = text.split_at(i);
            (front, Some(&rest[1..]))
        }
        None => (text, None),
    }
}
