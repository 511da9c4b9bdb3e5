//! Texts by offset and length.
ghost use Rattle.std.specs.Prelude.{◌≡◌, ◌≤◌, IfSome};
ghost use Rattle.std.specs.Option.{option_map};
ghost use Rattle.gixp_capabilities.specs.Cut.{cut};
ghost use Rattle.gixp_records.specs.Span.{text_at, IsWithin};

use gixp_capabilities::text::cut;

/// A text, by its offset in some bytes and its length.
#[repr(C)]
#[derive(Clone, Copy, Debug, PartialEq, Eq)]
pub struct Span {
    /// The offset of its first byte.
    pub at: usize,
    /// Its length in bytes.
    pub len: usize,
}

impl Span {
    /// No text.
    pub const NONE: Span = Span { at: 0, len: 0 };
}

#[inline(always)]
pub(crate) fn text_at(bytes: &[u8], span: Span) -> &[u8]
    requires { IsWithin bytes.now span }
    ensures { result.now ≡ text_at bytes.now span }
{
    &bytes[span.at..span.at + span.len]
}

// The spans before and after the first such byte. Without one, the whole text and `None`.
#[inline(always)]
pub(crate) fn cut_at(bytes: &[u8], span: Span, byte: u8) -> (Span, Option<Span>)
    requires { IsWithin bytes.now span }
    ensures parts { cut byte (text_at bytes.now span) ≡ (text_at bytes.now result.0, option_map (text_at bytes.now) result.1) }
    ensures first { IsWithin bytes.now result.0 }
    ensures rest { IfSome result.1 (IsWithin bytes.now) }
{
    let (first, rest) = cut(text_at(bytes, span), byte);
    let before = Span {
        at: span.at,
        len: first.len(),
    };
    match rest {
        Some(rest) => {
            let following = Span {
                at: span.at + span.len - rest.len(),
                len: rest.len(),
            };
            (before, Some(following))
        }
        None => (before, None),
    }
}
