//! Equality and order of ids; equality of hash functions and errors.
ghost use Rattle.std.specs.Prelude.{◌≡◌, ◌↔◌, IsTrue};
ghost use Rattle.gixp_hash.specs.ObjectId.{id_cmp};

use crate::decode;
use crate::kind::Kind;
use crate::object_id::ObjectId;
use std::cmp::Ordering;

fn is_same_id(a: &ObjectId, b: &ObjectId) -> bool
    ensures { IsTrue result ↔ (a.now.bytes ≡ b.now.bytes) }
{
    a == b
}

fn order_of_ids(first: &ObjectId, second: &ObjectId) -> Ordering
    ensures { result ≡ id_cmp first.now second.now }
{
    first.cmp(second)
}

fn is_same_kind(left: &Kind, right: &Kind) -> bool
    ensures { IsTrue result ↔ (left.now ≡ right.now) }
{
    left == right
}

fn is_same_error(one: &decode::Error, other: &decode::Error) -> bool
    ensures { IsTrue result ↔ (one.now ≡ other.now) }
{
    one == other
}
