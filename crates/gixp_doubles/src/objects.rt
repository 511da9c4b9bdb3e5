//! Objects in memory that record look-ups. Some of these fail.
ghost use Rattle.std.specs.Prelude.{◌≡◌, ◌≤◌, ◌==◌, ◌+◌, ◌-◌, ◌^◌, ◌⊎◌, ◌∷◌, ◌++◌, [], IfOk, IfErr, IfSome, IfNone, OnOk, OnErr, option_map, true, false};
ghost use Rattle.std.specs.BTreeSet.{IsEmpty, contains};
ghost use Rattle.std.specs.FinMap as finite;
ghost use Rattle.gixp_hash.specs.ObjectId.{id_cmp};
ghost use Rattle.gixp_graph.specs.Asked.{AsksOnce};
ghost use Rattle.gixp_graph.specs.Object.{commit_at, commit_of};
ghost use Rattle.gixp_hash.specs.Failures.{HasRisen};
ghost use Rattle.gixp_graph.specs.declared.objects.ObjectError.TheVariants.{Corrupt, Memory};
ghost use Rattle.gixp_memory.specs.Repository.{with_commit, with_kind, with_id};
ghost use Rattle.gixp_doubles.specs.Repository.{KeepsCalls};

use gixp_graph::{CommitData, Find, ObjectError, ObjectKind, Objects};
use gixp_hash::ObjectId;
use gixp_memory::StoredObjects;
use std::alloc::{AllocError, Global};
use std::collections::BTreeSet;

/// The objects of a repository in memory. Look-ups may fail.
#[derive(Drop)]
pub struct MemoryObjects {
    /// The objects.
    pub objects: StoredObjects,
    /// The ids whose look-ups fail with `Corrupt`.
    pub corrupt: BTreeSet<ObjectId>,
    /// The ids passed to `commit`.
    pub looked_up: Vec<ObjectId>,
    /// The number of calls of `commit` before the one that fails.
    pub calls: u64,
    /// The error of that call.
    pub error: ObjectError,
    failures: u64,
}

impl MemoryObjects {
    /// No objects. No call fails.
    pub fn new(alloc: Global) -> MemoryObjects
        ensures objects { result.objects ≡ finite.empty }
        ensures corrupt { IsEmpty result.corrupt }
        ensures looked_up { result.looked_up.items ≡ [] }
        ensures calls { result.calls ≡ 2 ^ 64 - 1 }
        ensures error { result.error ≡ Corrupt }
        ensures failures { result.failures ≡ 0 }
    {
        MemoryObjects {
            objects: StoredObjects::new(alloc),
            corrupt: BTreeSet::new(alloc),
            looked_up: Vec::new(alloc),
            calls: u64::MAX,
            error: ObjectError::Corrupt,
            failures: 0,
        }
    }

    /// Adds an object, with its kind if that is known. An object that has the id already is unchanged.
    ///
    /// # Errors
    ///
    /// Only when an allocation fails. Then nothing is added.
    pub fn add(&mut self, id: ObjectId, kind: Option<ObjectKind>) -> Result<(), AllocError>
        ensures known { OnOk result (IfSome kind (λ k. self.new.objects ≡ with_kind self.old.objects id k)) }
        ensures unknown { OnOk result (IfNone kind (self.new.objects ≡ with_id self.old.objects id)) }
        ensures failed { OnErr result (self.new.objects ≡ self.old.objects) }
        ensures kept { KeepsCalls self.old self.new }
    {
        match kind {
            Some(kind) => self.objects.add(id, kind),
            None => self.objects.add_id(id),
        }
    }

    /// Adds a commit. It replaces an object with this id.
    ///
    /// # Errors
    ///
    /// As `add`.
    pub fn add_commit(&mut self, id: ObjectId, commit: CommitData) -> Result<(), AllocError>
        ensures added { OnOk result (self.new.objects ≡ with_commit self.old.objects id (commit_of commit)) }
        ensures failed { OnErr result (self.new.objects ≡ self.old.objects) }
        ensures kept { KeepsCalls self.old self.new }
    {
        self.objects.add_commit(id, commit)
    }

    // The result of a call of `commit`, which is recorded and may fail.
    fn answer(&mut self, alloc: Global, id: &ObjectId) -> Result<Option<CommitData>, ObjectError>
        ensures found { IfOk result (λ found. option_map commit_of found ≡ commit_at self.old.objects id.now) }
        ensures sound { OnOk result (contains id_cmp self.old.corrupt id.now ≡ false) }
        ensures objects { self.new.objects ≡ self.old.objects }
        ensures corrupt { self.new.corrupt ≡ self.old.corrupt }
        ensures error { self.new.error ≡ self.old.error }
        ensures asked { AsksOnce id.now self.old.looked_up.items self.new.looked_up.items }
        ensures written { OnOk result (self.new.looked_up.items ≡ self.old.looked_up.items ++ id.now ∷ []) }
        ensures counted { OnOk result (self.new.calls + 1 ≡ self.old.calls) }

        // The call was to fail, or the object is corrupt, or an allocation failed.
        ensures reported { IfErr result (λ e. (e ≡ Memory) ⊎ (((self.old.calls ≡ 0) × (e ≡ self.old.error))
            ⊎ ((contains id_cmp self.old.corrupt id.now ≡ true) × (e ≡ Corrupt)))) }
        ensures unfailed { OnOk result (self.new.failures ≡ self.old.failures) }
        ensures failures { self.old.failures ≤ self.new.failures }
        ensures failed { IfErr result (λ e. (e ≡ Memory) ⊎ HasRisen self.old.failures self.new.failures) }
    {
        self.looked_up.push(*id)?;
        if fails(&mut self.calls) {
            self.failures = self.failures.saturating_add(1);
            return Err(self.error);
        }
        if self.corrupt.contains(id) {
            self.failures = self.failures.saturating_add(1);
            return Err(ObjectError::Corrupt);
        }
        self.objects.find_commit(alloc, id)
    }
}

// Counts a call. Returns whether it is the one that fails.
fn fails(calls: &mut u64) -> bool
    ensures fails { result ≡ (calls.old == 0) }
    ensures last { result ≡ true → calls.new ≡ 2 ^ 64 - 1 }
    ensures counted { result ≡ false → calls.new + 1 ≡ calls.old }
{
    if *calls == 0 {
        *calls = u64::MAX;
        return true;
    }
    *calls -= 1;
    false
}

impl Objects for MemoryObjects {
    ghost contents = { λ m. m.objects };

    ghost failures = { λ m. m.failures };

    ghost asked = { λ m. m.looked_up.items };

    fn exists(&self, id: &ObjectId) -> bool {
        self.objects.has_object(id)
    }

    fn kind(&self, id: &ObjectId) -> Option<ObjectKind> {
        self.objects.find_kind(id)
    }

    fn commit(&mut self, alloc: Global, id: &ObjectId) -> Result<Option<CommitData>, ObjectError> {
        self.answer(alloc, id)
    }
}

/// Borrowed objects, for example for a graph. Afterwards the owner can read which ids were looked up.
#[derive(Drop)]
pub struct LentObjects<'a> {
    /// The objects.
    pub objects: &'a mut MemoryObjects,
}

impl Objects for LentObjects<'_> {
    ghost contents = { λ l. l.objects.now.objects };

    ghost failures = { λ l. l.objects.now.failures };

    ghost asked = { λ l. l.objects.now.looked_up.items };

    fn exists(&self, id: &ObjectId) -> bool {
        self.objects.exists(id)
    }

    fn kind(&self, id: &ObjectId) -> Option<ObjectKind> {
        self.objects.kind(id)
    }

    fn commit(&mut self, alloc: Global, id: &ObjectId) -> Result<Option<CommitData>, ObjectError> {
        self.objects.commit(alloc, id)
    }
}
