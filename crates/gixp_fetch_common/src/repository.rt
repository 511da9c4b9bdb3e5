//! What a fetch knows of the repository.
ghost use Rattle.std.specs.Prelude.{◌≡◌, ◌&&◌, ◌||◌, ◌∷◌, [], IfOk, OnOk};
ghost use Rattle.std.specs.Ordering.{is_eq};
ghost use Rattle.std.specs.BTreeSet.{contains};
ghost use Rattle.gix_protocol.specs.ObjectId.{id_cmp};
ghost use Rattle.gix_protocol.specs.ObjectIdType.{ObjectId};
ghost use Rattle.gix_protocol.specs.Repository.{peeled_ids};
ghost use Rattle.gixp_fetch_common.specs.Tips.{may_be_commit, AddsTips, HasTips};

use crate::failure::Failure;
use gix_protocol::fetch::negotiate::{Find, ObjectKind, RefStore, StoredObjects, StoredRefs};
use gix_protocol::transport::ObjectId;
use std::alloc::Global;
use std::collections::BTreeSet;

/// A repository's objects, refs and shallow boundary, as far as a fetch knows them.
#[derive(Drop)]
pub struct KnownRepository {
    pub objects: StoredObjects,
    pub refs: StoredRefs,
    /// The commits that the refs point at, where the refs are known.
    pub tips: Option<BTreeSet<ObjectId>>,
    pub boundary: Vec<ObjectId>,
}

// True for an unknown kind too.
fn may_be_commit(kind: Option<ObjectKind>) -> bool
    ensures { result ≡ may_be_commit kind }
{
    match kind {
        Some(ObjectKind::Commit) | None => true,
        Some(_) => false,
    }
}

fn add_wanted(ids: &mut BTreeSet<ObjectId>, id: &ObjectId, is_wanted: bool) -> Result<(), Failure>
    ensures { OnOk result ((other : ObjectId) → contains id_cmp ids.new other
        ≡ (contains id_cmp ids.old other || (is_wanted && is_eq (id_cmp id.now other)))) }
{
    if is_wanted {
        ids.insert(*id)?;
    }
    Ok(())
}

// Adds the object of a ref, unless it is known to be no commit.
fn add_tip(
    tips: &mut BTreeSet<ObjectId>,
    objects: &StoredObjects,
    id: &ObjectId,
) -> Result<(), Failure>
    ensures { OnOk result (AddsTips objects.now (id.now ∷ []) tips.old tips.new) }
{
    add_wanted(tips, id, may_be_commit(objects.find_kind(id)))
}

/// The objects that the refs point at, peeled, without those that are known to be no commits.
pub fn tips_of(
    alloc: Global,
    refs: &mut StoredRefs,
    objects: &StoredObjects,
) -> Result<BTreeSet<ObjectId>, Failure>
    ensures tips { IfOk result (HasTips objects.now (peeled_ids refs.old)) }
    ensures refs { peeled_ids refs.new ≡ peeled_ids refs.old }
{
    let Ok(ids) = refs.peeled(alloc) else {
        return Err(Failure::Memory);
    };
    let mut tips = BTreeSet::new(alloc);
    for id in &ids {
        add_tip(&mut tips, objects, id)?;
    }
    Ok(tips)
}
