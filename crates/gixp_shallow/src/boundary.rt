//! The boundary after the updates of a server.
ghost use Rattle.std.specs.Prelude.{◌≡◌, IfOk, OnOk, ◌∷◌, []};
ghost use Rattle.gixp_shallow.specs.Boundary.{with_ids, with_updates, boundary};

use crate::update::ShallowUpdate;
use gixp_hash::ObjectId;
use std::alloc::{AllocError, Global};
use std::collections::BTreeSet;

fn add_ids(set: &mut BTreeSet<ObjectId>, ids: &[ObjectId]) -> Result<(), AllocError>
    ensures { OnOk result (set.new.keys ≡ with_ids set.old.keys ids.now) }
{
    let mut rest = ids;
    while let Some((id, tail)) = rest.split_first() {
        if set.insert(*id).is_err() {
            return Err(AllocError);
        }
        rest = tail;
    }
    Ok(())
}

fn apply(set: &mut BTreeSet<ObjectId>, update: &ShallowUpdate) -> Result<(), AllocError>
    ensures { OnOk result (set.new.keys ≡ with_updates set.old.keys (update.now ∷ [])) }
{
    match update {
        ShallowUpdate::Shallow(id) => {
            if set.insert(*id).is_err() {
                return Err(AllocError);
            }
            Ok(())
        }
        ShallowUpdate::Unshallow(id) => {
            set.remove(id);
            Ok(())
        }
    }
}

fn apply_all(set: &mut BTreeSet<ObjectId>, updates: &[ShallowUpdate]) -> Result<(), AllocError>
    ensures { OnOk result (set.new.keys ≡ with_updates set.old.keys updates.now) }
{
    let mut rest = updates;
    while let Some((update, tail)) = rest.split_first() {
        apply(set, update)?;
        rest = tail;
    }
    Ok(())
}

/// The boundary with these ids after these updates, sorted, each id once.
///
/// # Errors
///
/// An allocation failed.
pub fn new_boundary(
    alloc: Global,
    ids: &[ObjectId],
    updates: &[ShallowUpdate],
) -> Result<Vec<ObjectId>, AllocError>
    ensures { IfOk result (λ v. v.items ≡ boundary ids.now updates.now) }
{
    let mut set = BTreeSet::new(alloc);
    add_ids(&mut set, ids)?;
    apply_all(&mut set, updates)?;
    set.iter().copied().collect(alloc)
}

/// The ids, sorted, each once.
pub(crate) fn sorted_ids(alloc: Global, ids: &[ObjectId]) -> Result<Vec<ObjectId>, AllocError>
    ensures { IfOk result (λ v. v.items ≡ with_ids [] ids.now) }
{
    new_boundary(alloc, ids, &[])
}
