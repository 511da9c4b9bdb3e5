//! Equality and order of refs; equality of contradictions.
ghost use Rattle.std.specs.Prelude.{◌≡◌, ◌↔◌, IsTrue};
ghost use Rattle.gixp_refs.specs.Ref.{ref_value};
ghost use Rattle.gixp_refs.specs.Order.{ref_cmp};

use crate::handshake::Ref;
use crate::handshake::refs::parse::Invariant;
use std::cmp::Ordering;

fn is_same_ref(one: &Ref, other: &Ref) -> bool
    ensures { IsTrue result ↔ (ref_value one.now ≡ ref_value other.now) }
{
    one == other
}

// Refs are ordered by kind, then by name, then by what they point to.
fn order_of_refs(first: &Ref, second: &Ref) -> Ordering
    ensures { result ≡ ref_cmp (ref_value first.now) (ref_value second.now) }
{
    first.cmp(second)
}

fn is_same_invariant(left: &Invariant, right: &Invariant) -> bool
    ensures { IsTrue result ↔ (left.now ≡ right.now) }
{
    left == right
}
