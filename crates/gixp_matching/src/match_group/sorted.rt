//! Whether keys are all different, shown by their order or by sorting them.
ghost use Rattle.std.specs.Prelude.{◌≡◌, ◌∷◌, ◌++◌, [], List, IsTrue, length};
ghost use Rattle.std.specs.List.{AllAdjacentBelow, IsDistinct};
ghost use Rattle.std.specs.Ordering.{eq_by_cmp};
ghost use Rattle.gixp_matching.specs.Rising.{IsAbove, RisesTo};

use std::cmp::Ordering;

// Whether a key is above the last one, if there is one.
fn is_above<K: Ord>(key: &K, last: &Option<K>) -> bool
    ensures { IsTrue result → IsAbove K.cmp last.now key.now }
{
    match last {
        None => true,
        Some(before) => before.cmp(key).is_lt(),
    }
}

/// Makes a key the last of several. Returns whether it is above the previous one. Servers send refs in order, so mostly
/// each key is; then no two are equal.
pub(crate) fn rises<K: Ord>(last: &mut Option<K>, key: K) -> bool
where
    K: Drop,
    ensures { IsTrue result → (keys : List K) → RisesTo K.cmp keys last.old → RisesTo K.cmp (keys ++ key ∷ []) last.new }
{
    let is_next = is_above(&key, last);
    *last = Some(key);
    is_next
}

// Whether each key is below the next.
fn is_rising<K: Ord>(keys: &[K]) -> bool
    ensures { IsTrue result → AllAdjacentBelow (λ x y. K.cmp x y ≡ Ordering.Less) keys.now (length keys.now) }
{
    'keys: for next in 1..keys.len() {
        if !keys[next - 1].cmp(&keys[next]).is_lt() {
            return false;
        }
    }
    true
}

/// Whether no two keys are equal.
pub(crate) fn are_distinct<K: Ord>(keys: Vec<K>) -> bool
where
    K: Drop,
    ensures { IsTrue result → IsDistinct (eq_by_cmp K.cmp) keys.items }
{
    let mut keys = keys;
    keys.sort_unstable();
    is_rising(&keys)
}
