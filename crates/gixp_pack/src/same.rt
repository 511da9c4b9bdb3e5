//! Laws of the derived equality.
ghost use Rattle.std.specs.Prelude.{◌≡◌, ◌↔◌, IsTrue};

use crate::check::{CheckError, PackSummary};

fn is_same_summary(a: &PackSummary, b: &PackSummary) -> bool
    ensures { IsTrue result ↔ (a.now ≡ b.now) }
{
    a == b
}

fn is_same_error(left: &CheckError, right: &CheckError) -> bool
    ensures { IsTrue result ↔ (left.now ≡ right.now) }
{
    left == right
}
