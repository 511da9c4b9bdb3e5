//! Equality of algorithms.
ghost use Rattle.std.specs.Prelude.{◌≡◌, ◌↔◌, IsTrue};

use crate::algorithm::Algorithm;

fn is_same_algorithm(a: &Algorithm, b: &Algorithm) -> bool
    ensures { IsTrue result ↔ (a.now ≡ b.now) }
{
    a == b
}
