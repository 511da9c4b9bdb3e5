//! Equality, order and defaults.
ghost use Rattle.std.specs.Prelude.{◌≡◌, ◌↔◌, IsTrue};
ghost use Rattle.gixp_shallow.specs.UpdateOrder.{update_cmp};
ghost use Rattle.gixp_shallow.specs.declared.shallow.Shallow.TheVariants.{NoChange};
ghost use Rattle.gixp_shallow.specs.Shallow.{shallow_value};

use crate::shallow::Shallow;
use crate::update::ShallowUpdate;
use std::cmp::Ordering;

fn is_same_update(left: &ShallowUpdate, right: &ShallowUpdate) -> bool
    ensures { IsTrue result ↔ (left.now ≡ right.now) }
{
    left == right
}

// `Shallow` before `Unshallow`, each ordered by the ids.
fn order_of_updates(earlier: &ShallowUpdate, later: &ShallowUpdate) -> Ordering
    ensures { result ≡ update_cmp earlier.now later.now }
{
    earlier.cmp(later)
}

fn usual_boundary() -> Shallow
    ensures { result ≡ NoChange }
{
    Shallow::default()
}

fn is_same_boundary(a: &Shallow, b: &Shallow) -> bool
    ensures { IsTrue result ↔ (shallow_value a.now ≡ shallow_value b.now) }
{
    a == b
}
