//! The set of a list of ids.
ghost use Rattle.std.specs.Prelude.{◌≡◌, ◌||◌, IfOk, OnOk};
ghost use Rattle.std.specs.BTreeSet.{contains};
ghost use Rattle.std.specs.Ordering.{eq_by_cmp};
ghost use Rattle.gixp_hash.specs.ObjectId.{id_cmp};
ghost use Rattle.gixp_hash.specs.declared.object_id.ObjectId.{ObjectId as Id};
ghost use Rattle.gixp_reachable.specs.Ids.{has_id};

use gixp_hash::ObjectId;
use std::alloc::{AllocError, Global};
use std::collections::BTreeSet;

fn insert_id(set: &mut BTreeSet<ObjectId>, id: ObjectId) -> Result<(), AllocError>
    ensures { OnOk result ((q : Id) → contains id_cmp set.new q ≡ (eq_by_cmp id_cmp id q || contains id_cmp set.old q)) }
{
    set.insert(id)?;
    Ok(())
}

/// The set of these ids.
///
/// # Errors
///
/// Only when an allocation fails.
pub fn set_of(alloc: Global, ids: &[ObjectId]) -> Result<BTreeSet<ObjectId>, AllocError>
    ensures { IfOk result (λ set. (id : Id) → contains id_cmp set id ≡ has_id ids.now id) }
{
    let mut set = BTreeSet::new(alloc);
    let mut rest = ids;
    while let Some((id, tail)) = rest.split_first() {
        insert_id(&mut set, *id)?;
        rest = tail;
    }
    Ok(set)
}
