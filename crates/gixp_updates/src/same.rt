//! Equality of modes, updates and errors.
ghost use Rattle.std.specs.Prelude.{◌≡◌, ◌↔◌, IsTrue};

use crate::refs::unmatched::UnmatchedSpec;
use crate::refs::update::{Error, Mode};
use crate::refs::{Edit, Update};

fn is_same_mode(a: &Mode, b: &Mode) -> bool
    ensures { IsTrue result ↔ (a.now ≡ b.now) }
{
    a == b
}

fn is_same_edit(left: &Edit, right: &Edit) -> bool
    ensures { IsTrue result ↔ (left.now ≡ right.now) }
{
    left == right
}

fn is_same_update(one: &Update, other: &Update) -> bool
    ensures { IsTrue result ↔ (one.now ≡ other.now) }
{
    one == other
}

fn is_same_note(x: &UnmatchedSpec, y: &UnmatchedSpec) -> bool
    ensures { IsTrue result ↔ (x.now ≡ y.now) }
{
    x == y
}

fn is_same_error(first: &Error, second: &Error) -> bool
    ensures { IsTrue result ↔ (first.now ≡ second.now) }
{
    first == second
}
