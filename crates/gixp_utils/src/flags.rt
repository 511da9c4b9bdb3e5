//! Finds the keys of a list that repeat an earlier key, by sorting them.
ghost use Rattle.std.specs.Prelude.{◌≡◌, ◌==◌, false, true, if◌then◌else◌, IfOk};
ghost use Rattle.std.specs.List.{IsDistinct, slice_set};
ghost use Rattle.gixp_utils.specs.Repeats.{is_first, marked, tested_from};

use std::alloc::{AllocError, Global};

// Clears the flag at this position.
fn take_flag(flags: &mut Vec<bool>, place: usize, is_same: bool)
    ensures { flags.new.items ≡ (if is_same then slice_set flags.old.items place false else flags.old.items) }
{
    if is_same && place < flags.len() {
        flags[place] = false;
    }
}

/// Clears the flag of each row whose key equals the key of the row before it. A row is a key and its position.
pub fn mark<K: Ord>(rows: &[(K, usize)], flags: &mut Vec<bool>)
    ensures { flags.new.items ≡ marked K.cmp flags.old.items rows.now }
{
    let Some((first, rest)) = rows.split_first() else {
        return;
    };
    let mut last = first;
    'rest: for row in rest {
        take_flag(flags, row.1, last.0.cmp(&row.0).is_eq());
        last = row;
    }
}

fn untaken<K>(alloc: Global, rows: &[(K, usize)]) -> Result<Vec<bool>, AllocError>
    ensures { IfOk result (λ flags. flags.items ≡ tested_from (λ place. true) 0 rows.now) }
{
    vec![in alloc; true; rows.len()]
}

/// For each position below the number of rows, whether no earlier position has the same key. A row is a key and its
/// position. No two rows may have the same position.
///
/// # Errors
///
/// An allocation failure.
pub fn first_flags<K: Ord>(alloc: Global, rows: Vec<(K, usize)>) -> Result<Vec<bool>, AllocError>
where
    K: Drop,
    requires { IsDistinct (λ a b. a.1 == b.1) rows.items }
    ensures { IfOk result (λ flags. flags.items ≡ tested_from (is_first K.cmp rows.items) 0 rows.items) }
{
    let mut flags = untaken(alloc, &rows)?;
    let mut rows = rows;
    rows.sort_unstable();
    mark(&rows, &mut flags);
    Ok(flags)
}
