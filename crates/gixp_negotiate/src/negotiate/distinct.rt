//! Ids without repeats.
ghost use Rattle.std.specs.Prelude.{◌≡◌, [], OnOk, OnErr};
ghost use Rattle.gixp_negotiate.specs.Rounds.{keeping};
ghost use Rattle.gixp_negotiate.specs.Distinct.{IsIndex};

use gixp_hash::ObjectId;
use std::alloc::{AllocError, Global};
use std::collections::BTreeSet;
use std::marker::Model;

/// Ids without repeats, in the order in which they were added first.
///
/// They are looked up in a set, so n ids cost n log n, whoever chose them.
#[derive(Debug, Drop)]
pub(crate) struct DistinctIds {
    ids: Vec<ObjectId>,
    seen: BTreeSet<ObjectId>,
}

impl Model for DistinctIds {
    ghost use Rattle.std.specs.Prelude.{List};
    ghost use Rattle.gixp_hash.specs.declared.object_id.ObjectId.{ObjectId};
    ghost use Rattle.gixp_negotiate.specs.Distinct.{IsIndex};

    ghost Value = { List ObjectId };

    ghost view = { λ a. a.ids.items };

    ghost invariant = { λ a. IsIndex a.seen.keys a.ids.items };
}

// Appends an id, unless the set has it.
fn insert_once(
    ids: &mut Vec<ObjectId>,
    seen: &mut BTreeSet<ObjectId>,
    id: ObjectId,
) -> Result<(), AllocError>
    requires { IsIndex seen.old.keys ids.old.items }
    ensures indexed { IsIndex seen.new.keys ids.new.items }
    ensures ok { OnOk result (ids.new.items ≡ keeping ids.old.items id) }
    ensures err { OnErr result (ids.new.items ≡ ids.old.items) }
{
    if seen.contains(&id) {
        return Ok(());
    }
    ids.push(id)?;
    match seen.insert(id) {
        Ok(_) => Ok(()),
        Err(_) => {
            ids.pop();
            Err(AllocError)
        }
    }
}

impl DistinctIds {
    /// Creates an empty list of distinct ids.
    pub fn new(alloc: Global) -> DistinctIds
        ensures { result ≡ [] }
    {
        DistinctIds {
            ids: Vec::new(alloc),
            seen: BTreeSet::new(alloc),
        }
    }

    /// Appends an id, unless it is among the ids.
    pub fn insert(&mut self, id: ObjectId) -> Result<(), AllocError>
        ensures ok { OnOk result (self.new ≡ keeping self.old id) }
        ensures err { OnErr result (self.new ≡ self.old) }
    {
        insert_once(&mut self.ids, &mut self.seen, id)
    }

    /// Lends the ids in the order in which they were added.
    pub fn as_slice(&self) -> &[ObjectId]
        ensures { result.now ≡ self.now }
    {
        self.ids.as_slice()
    }
}

impl Clone for DistinctIds {
    ghost is_clone = { λ s t. t ≡ s };

    fn clone(&self) -> Result<DistinctIds, AllocError> {
        Ok(DistinctIds {
            ids: Vec::from_slice(*self.ids.allocator(), self.ids.as_slice())?,
            seen: self.seen.clone()?,
        })
    }
}
