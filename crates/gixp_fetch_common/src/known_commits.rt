//! The commits of a text as far as it was read: which of them the server has, and which are awaited.
ghost use Rattle.std.specs.Prelude.{◌≡◌, ◌⊎◌, [], ◌∷◌, true, false, All, IfOk, OnOk, OnErr};
ghost use Rattle.std.specs.FinMap as finite;
ghost use Rattle.std.specs.BTreeSet.{contains};
ghost use Rattle.gixp_hash.specs.declared.object_id.ObjectId.{ObjectId};
ghost use Rattle.gixp_hash.specs.ObjectId.{id_cmp};
ghost use Rattle.gixp_graph.specs.Object.{commit_at};
ghost use Rattle.gixp_updates.specs.Ancestors.{IsReachedFrom};
ghost use Rattle.gixp_fetch_common.specs.KnownCommits.{parents_of, is_awaited, KeepsIds, IsAwaitedOrKnown, AreAwaitedOrKnown, AwaitsNone};
ghost use Rattle.gixp_fetch_common.specs.KnownCommits.{AddsUnknown, AwaitsUnknown, LosesNone};
ghost use Rattle.gixp_fetch_common.specs.SharedCommits.{IsSharedBut, IsSharedWhole, AddsReached, AddsId, MarksSome, MarksCommon, Shares, SharesSome};

use gixp_graph::Find;
use gixp_hash::ObjectId;
use gixp_memory::StoredObjects;
use std::alloc::{AllocError, Global};
use std::collections::BTreeSet;

/// Commits that were read, that the server has, and that are awaited.
#[derive(Drop)]
pub(crate) struct KnownCommits {
    /// The commits that were read.
    pub read: StoredObjects,
    /// Commits that the server has too. They needn't be offered.
    pub common: BTreeSet<ObjectId>,
    /// Commits that aren't read yet and aren't known to be common: tips, and parents of offered commits. Present where the tips are
    /// known; a text of all that the tips reach then has nothing to offer after the last of these.
    pub awaited: Option<BTreeSet<ObjectId>>,
}

// Returns whether the id is new.
fn insert_id(set: &mut BTreeSet<ObjectId>, id: &ObjectId) -> Result<bool, AllocError>
    ensures keeps { KeepsIds set.old set.new }
    ensures has { OnOk result (contains id_cmp set.new id.now ≡ true) }
    ensures adds { AddsId set.old id.now set.new }
    ensures known { IfOk result (λ is_new. is_new ≡ false → KeepsIds set.new set.old) }
    ensures refused { OnErr result (KeepsIds set.new set.old) }
{
    match set.insert(*id) {
        Ok(is_new) => Ok(is_new),
        Err(_) => Err(AllocError),
    }
}

// Adds a commit, unless it was read or is common.
fn add_one(
    awaited: &mut BTreeSet<ObjectId>,
    id: &ObjectId,
    common: &BTreeSet<ObjectId>,
    read: &StoredObjects,
) -> Result<(), AllocError>
    ensures keeps { KeepsIds awaited.old awaited.new }
    ensures has { OnOk result (IsAwaitedOrKnown read.now common.now awaited.new id.now) }
    ensures adds { AddsUnknown read.now common.now awaited.old awaited.new }
{
    if common.contains(id) {
        return Ok(());
    }
    if read.has_object(id) {
        return Ok(());
    }
    match insert_id(awaited, id) {
        Ok(_) => Ok(()),
        Err(_) => Err(AllocError),
    }
}

// Adds the commits that weren't read and aren't common.
fn add_awaited(
    awaited: &mut BTreeSet<ObjectId>,
    commits: &[ObjectId],
    common: &BTreeSet<ObjectId>,
    read: &StoredObjects,
) -> Result<(), AllocError>
    ensures keeps { KeepsIds awaited.old awaited.new }
    ensures all { OnOk result (All (IsAwaitedOrKnown read.now common.now awaited.new) commits.now) }
    ensures adds { AddsUnknown read.now common.now awaited.old awaited.new }
{
    'commits: for id in commits {
        match add_one(awaited, id, common, read) {
            Ok(()) => {}
            Err(_) => return Err(AllocError),
        }
    }
    Ok(())
}

impl KnownCommits {
    /// No commits, and the tips of the history where they are known.
    pub fn new(alloc: Global, tips: Option<BTreeSet<ObjectId>>) -> KnownCommits
        ensures read { result.read ≡ finite.empty }
        ensures common { result.common.keys ≡ [] }
        ensures awaited { result.awaited ≡ tips }
    {
        KnownCommits {
            read: StoredObjects::new(alloc),
            common: BTreeSet::new(alloc),
            awaited: tips,
        }
    }

    // The parents of a commit, none where it wasn't read.
    fn parents(&self, alloc: Global, id: &ObjectId) -> Result<Vec<ObjectId>, AllocError>
        ensures { IfOk result (λ parents. parents.items ≡ parents_of self.now.read id.now) }
    {
        match self.read.find_commit(alloc, id) {
            Ok(Some(commit)) => Ok(commit.parents),
            Ok(None) => Ok(Vec::new(alloc)),
            Err(_) => Err(AllocError),
        }
    }

    /// Whether a commit is known to be common.
    pub fn is_common(&self, id: &ObjectId) -> bool
        ensures { result ≡ contains id_cmp self.now.common id.now }
    {
        self.common.contains(id)
    }

    /// Removes a commit from those that are awaited.
    pub fn forget(&mut self, id: &ObjectId)
        ensures read { self.new.read ≡ self.old.read }
        ensures common { self.new.common ≡ self.old.common }
        ensures others { (other : ObjectId) → is_awaited self.old.awaited other ≡ true
            → (is_awaited self.new.awaited other ≡ true) ⊎ (id.now ≡ other) }
        ensures fewer { (other : ObjectId) → is_awaited self.new.awaited other ≡ true → is_awaited self.old.awaited other ≡ true }
        ensures gone { is_awaited self.new.awaited id.now ≡ false }
    {
        if let Some(awaited) = &mut self.awaited {
            awaited.remove(id);
        }
    }

    /// Adds the parents of an offered commit to those that are awaited, unless they were read or are common.
    ///
    /// # Errors
    ///
    /// An allocation failure; some of the parents may be awaited then.
    pub fn await_parents(&mut self, alloc: Global, id: &ObjectId) -> Result<(), AllocError>
        ensures read { self.new.read ≡ self.old.read }
        ensures common { self.new.common ≡ self.old.common }
        ensures keeps { (other : ObjectId) → is_awaited self.old.awaited other ≡ true → is_awaited self.new.awaited other ≡ true }
        ensures known { OnOk result (AreAwaitedOrKnown self.old.read self.old.common self.new.awaited (parents_of self.old.read id.now)) }
        ensures unknown { AwaitsUnknown self.old → AwaitsUnknown self.new }
    {
        let parents = self.parents(alloc, id)?;
        let Some(awaited) = &mut self.awaited else {
            return Ok(());
        };
        match add_awaited(awaited, &parents, &self.common, &self.read) {
            Ok(()) => Ok(()),
            Err(_) => Err(AllocError),
        }
    }

    /// Whether no commit is awaited any longer, so that none can be offered.
    pub fn is_over(&self) -> bool
        ensures over { result ≡ true → AwaitsNone self.now.awaited }
        ensures going { AwaitsNone self.now.awaited → result ≡ true }
    {
        match &self.awaited {
            Some(awaited) => awaited.is_empty(),
            None => false,
        }
    }

    // Marks a commit as common. A commit that wasn't common waits for its parents to be marked.
    fn mark_common(&mut self, id: &ObjectId, waiting: &mut Vec<ObjectId>) -> Result<(), AllocError>
        ensures some { MarksSome self.old (id.now ∷ []) self.new }
        ensures all { OnOk result (MarksCommon self.old waiting.old.items (id.now ∷ []) self.new waiting.new.items) }
    {
        match insert_id(&mut self.common, id) {
            Ok(true) => {}
            Ok(false) => return Ok(()),
            Err(_) => return Err(AllocError),
        }
        self.forget(id);
        match waiting.push(*id) {
            Ok(()) => Ok(()),
            Err(_) => Err(AllocError),
        }
    }

    fn mark_all_common(
        &mut self,
        ids: &[ObjectId],
        waiting: &mut Vec<ObjectId>,
    ) -> Result<(), AllocError>
        ensures some { MarksSome self.old ids.now self.new }
        ensures all { OnOk result (MarksCommon self.old waiting.old.items ids.now self.new waiting.new.items) }
    {
        'ids: for id in ids {
            match self.mark_common(id, waiting) {
                Ok(()) => {}
                Err(_) => return Err(AllocError),
            }
        }
        Ok(())
    }

    // Marks the parents of a commit as common.
    fn share_parents(
        &mut self,
        alloc: Global,
        id: &ObjectId,
        waiting: &mut Vec<ObjectId>,
    ) -> Result<(), AllocError>
        ensures some { MarksSome self.old (parents_of self.old.read id.now) self.new }
        ensures all { OnOk result (MarksCommon self.old waiting.old.items (parents_of self.old.read id.now) self.new waiting.new.items) }
    {
        let parents = self.parents(alloc, id)?;
        self.mark_all_common(&parents, waiting)
    }

    // Marks the ancestors of the commits that wait as common, as far as they were read.
    fn share_waiting(
        &mut self,
        alloc: Global,
        waiting: &mut Vec<ObjectId>,
    ) -> Result<(), AllocError>
        ensures read { self.new.read ≡ self.old.read }
        ensures keeps { KeepsIds self.old.common self.new.common }
        ensures tracked { LosesNone self.old self.new }
        ensures unknown { AwaitsUnknown self.old → AwaitsUnknown self.new }
        ensures adds { (id : ObjectId) → All (IsReachedFrom (commit_at self.old.read) id) waiting.old.items
            → AddsReached self.old.read id self.old.common self.new.common }
        ensures whole { OnOk result (IsSharedBut self.old.read self.old.common waiting.old.items
            → IsSharedWhole self.new.read self.new.common) }
    {
        'waiting: for _ in 0..u64::MAX {
            let Some(next) = waiting.pop() else {
                return Ok(());
            };
            match self.share_parents(alloc, &next, waiting) {
                Ok(()) => {}
                Err(_) => return Err(AllocError),
            }
        }
        // Memory can't hold so many ids.
        Err(AllocError)
    }

    /// Marks the ancestors of a commit that the server has as common: those that were read, and their parents.
    ///
    /// # Errors
    ///
    /// An allocation failure; some of the ancestors may be common then.
    pub fn share(&mut self, alloc: Global, id: ObjectId) -> Result<(), AllocError>
        ensures some { SharesSome self.old id self.new }
        ensures all { OnOk result (Shares self.old id self.new) }
    {
        let mut waiting = Vec::new(alloc);
        match self.share_parents(alloc, &id, &mut waiting) {
            Ok(()) => {}
            Err(_) => return Err(AllocError),
        }
        match self.share_waiting(alloc, &mut waiting) {
            Ok(()) => Ok(()),
            Err(_) => Err(AllocError),
        }
    }
}
