//! Equality of kinds of objects, errors and marks.
ghost use Rattle.std.specs.Prelude.{◌≡◌, ◌↔◌, IsTrue};

use crate::flags::Flags;
use crate::negotiator::NegotiatorError;
use crate::objects::{ObjectError, ObjectKind};
use crate::refs::RefStoreError;

fn is_same_kind(a: &ObjectKind, b: &ObjectKind) -> bool
    ensures { IsTrue result ↔ (a.now ≡ b.now) }
{
    a == b
}

fn is_same_object_error(left: &ObjectError, right: &ObjectError) -> bool
    ensures { IsTrue result ↔ (left.now ≡ right.now) }
{
    left == right
}

fn is_same_ref_error(x: &RefStoreError, y: &RefStoreError) -> bool
    ensures { IsTrue result ↔ (x.now ≡ y.now) }
{
    x == y
}

fn is_same_negotiator_error(one: &NegotiatorError, other: &NegotiatorError) -> bool
    ensures { IsTrue result ↔ (one.now ≡ other.now) }
{
    one == other
}

fn is_same_set(first: &Flags, second: &Flags) -> bool
    ensures { IsTrue result ↔ (first.now ≡ second.now) }
{
    first == second
}
