//! Equality of `TextError`.
ghost use Rattle.std.specs.Prelude.{◌≡◌, ◌↔◌, IsTrue};

use crate::texts::TextError;

fn is_same_text_error(a: &TextError, b: &TextError) -> bool
    ensures { IsTrue result ↔ (a.now ≡ b.now) }
{
    a == b
}
