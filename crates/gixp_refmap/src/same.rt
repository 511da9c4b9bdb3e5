//! Equality and order of indices of refspecs; equality and default of `Tags`.
ghost use Rattle.std.specs.Prelude.{◌≡◌, ◌↔◌, IsTrue, Some};
ghost use Rattle.gixp_refmap.specs.declared.fetch.Tags.TheVariants.{Included};
ghost use Rattle.gixp_refmap.specs.Places.{place_cmp};

use crate::fetch::Tags;
use crate::refmap::SpecIndex;
use std::cmp::Ordering;

fn is_same_place(a: &SpecIndex, b: &SpecIndex) -> bool
    ensures { IsTrue result ↔ (a.now ≡ b.now) }
{
    a == b
}

// The indices of explicit refspecs come first, and each kind is ordered by number.
fn order_of_places(one: &SpecIndex, other: &SpecIndex) -> Ordering
    ensures { result ≡ place_cmp one.now other.now }
{
    one.cmp(other)
}

fn order_of_any_places(x: &SpecIndex, y: &SpecIndex) -> Option<Ordering>
    ensures { result ≡ Some (place_cmp x.now y.now) }
{
    x.partial_cmp(y)
}

fn is_same_choice(left: &Tags, right: &Tags) -> bool
    ensures { IsTrue result ↔ (left.now ≡ right.now) }
{
    left == right
}

// The default of git: tags that point at objects that are fetched.
fn usual_tags() -> Tags
    ensures { result ≡ Included }
{
    Tags::default()
}
