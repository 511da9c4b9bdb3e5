//! Equality and order of the items of a response.
ghost use Rattle.std.specs.Prelude.{◌≡◌, ◌↔◌, IsTrue};
ghost use Rattle.gixp_response.specs.AnswerLine.{wanted_value};
ghost use Rattle.gixp_response.specs.Order.{acknowledgement_cmp, wanted_cmp};

use crate::fetch::response;
use crate::fetch::response::RequiredFeature;
use std::cmp::Ordering;

fn is_same_acknowledgement(
    one: &response::Acknowledgement,
    other: &response::Acknowledgement,
) -> bool
    ensures { IsTrue result ↔ (one.now ≡ other.now) }
{
    one == other
}

// Common commits come first, ordered by their ids, and `NAK` last.
fn order_of_acknowledgements(
    first: &response::Acknowledgement,
    second: &response::Acknowledgement,
) -> Ordering
    ensures { result ≡ acknowledgement_cmp first.now second.now }
{
    first.cmp(second)
}

fn is_same_wanted(a: &response::WantedRef, b: &response::WantedRef) -> bool
    ensures { IsTrue result ↔ (wanted_value a.now ≡ wanted_value b.now) }
{
    a == b
}

// Wanted refs are ordered by their ids, and then by their paths.
fn order_of_wanted(x: &response::WantedRef, y: &response::WantedRef) -> Ordering
    ensures { result ≡ wanted_cmp (wanted_value x.now) (wanted_value y.now) }
{
    x.cmp(y)
}

fn is_same_feature(feature: &RequiredFeature, next: &RequiredFeature) -> bool
    ensures { IsTrue result ↔ (feature.now ≡ next.now) }
{
    feature == next
}
