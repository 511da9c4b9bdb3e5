//! The trait of a repository's objects.
ghost use Rattle.std.specs.Prelude.{◌≡◌, ℕ, ◌≤◌, ◌⊎◌, List, [], None, IfOk, IfErr, OnOk, option_map};
ghost use Rattle.std.specs.FinMap as map;
ghost use Rattle.gixp_hash.specs.declared.object_id.ObjectId.{ObjectId};
ghost use Rattle.gixp_graph.specs.Asked.{AsksOnce};
ghost use Rattle.gixp_graph.specs.Refusals.{Written, writing};
ghost use Rattle.gixp_graph.specs.declared.objects.ObjectError.{ObjectError};
ghost use Rattle.gixp_graph.specs.declared.objects.ObjectError.TheVariants.{Memory};
ghost use Rattle.gixp_graph.specs.Object.{Objects as ObjectMap, kind_at, commit_at, commit_of};
ghost use Rattle.gixp_hash.specs.Failures.{HasRisen};

use gixp_hash::ObjectId;
use std::alloc::{AllocError, AllocFailed, Global};
use std::io;
use thiserror::Error;

/// The type of an object (git-cat-file, `-t`).
#[derive(Clone, Copy, Debug, PartialEq, Eq)]
pub enum ObjectKind {
    Commit,
    Tree,
    Blob,
    Tag,
}

/// The parts of a commit that the graph reads.
#[derive(Debug, Drop)]
pub struct CommitData {
    /// Seconds since the epoch by the committer's clock. Clocks may run backwards from parent to child.
    pub time: i64,
    /// The ids of the parents, in the order of the commit.
    pub parents: Vec<ObjectId>,
}

/// Why an object can't be read. A graph keeps all that it holds.
#[derive(Clone, Copy, Debug, PartialEq, Eq, Drop, Error)]
pub enum ObjectError {
    /// An I/O error, with its kind.
    #[error("Io")]
    Io(io::ErrorKind),
    /// The object's contents don't match its name or its kind.
    #[error("Corrupt")]
    Corrupt,
    /// An allocation failed.
    #[error("Memory")]
    Memory,
}

impl From<AllocError> for ObjectError {
    ghost from_gives = { λ _ e. e ≡ Memory };

    fn from(_error: AllocError) -> ObjectError {
        ObjectError::Memory
    }
}

impl<T: Drop> From<AllocFailed<T>> for ObjectError {
    ghost from_gives = { λ _ e. e ≡ Memory };

    fn from(_error: AllocFailed<T>) -> ObjectError {
        ObjectError::Memory
    }
}

/// The objects of a repository: a finite map from ids to objects, which no call changes.
///
/// A call may fail. It then raises a count of failures, unless an allocation failed.
///
/// `asked` lists the ids that `commit` was called with: contracts of the callers say by it which commits are read. `refusals`
/// lists the errors of the failed calls: where it is recorded, an error of a caller is one of these. An implementation need
/// not record either. By default `asked` is empty and `refusals` is none.
pub trait Objects {
    /// The objects by their ids.
    ghost contents: { Self → ObjectMap };

    /// How many calls have failed so far.
    ghost failures: { Self → ℕ };

    /// The ids that `commit` was called with so far, where they are recorded.
    ghost asked: { Self → List ObjectId } = { λ _. [] };

    /// The errors of the failed calls so far, where they are recorded.
    ghost refusals: { Self → Written ObjectError } = { λ _. None };

    /// Whether an object with this id exists.
    fn exists(&self, id: &ObjectId) -> bool
        ensures { result ≡ map.contains_key (contents self.now) id.now };

    /// The kind of the object with this id. `None` where no such object exists, or where its kind can't be read.
    fn kind(&self, id: &ObjectId) -> Option<ObjectKind>
        ensures { result ≡ kind_at (contents self.now) id.now };

    /// The commit with this id. `None` where no such object exists, or where it isn't a commit.
    ///
    /// # Errors
    ///
    /// Why it can't be read. A later call may succeed.
    fn commit(&mut self, alloc: Global, id: &ObjectId) -> Result<Option<CommitData>, ObjectError>
        ensures found { IfOk result (λ found. option_map commit_of found ≡ commit_at (contents self.old) id.now) }
        ensures contents { contents self.new ≡ contents self.old }
        ensures asked { AsksOnce id.now (asked self.old) (asked self.new) }
        ensures unrefused { OnOk result (refusals self.new ≡ refusals self.old) }
        ensures refused { IfErr result (λ e. refusals self.new ≡ writing (refusals self.old) e) }
        ensures failures { failures self.old ≤ failures self.new }
        ensures failed { IfErr result (λ e. (e ≡ Memory) ⊎ HasRisen (failures self.old) (failures self.new)) };
}

/// Boxed objects forward each call.
impl Objects for Box<dyn Objects + Drop> {
    ghost contents = { λ b. (Objects-box b).contents b.value };

    ghost failures = { λ b. (Objects-box b).failures b.value };

    ghost asked = { λ b. (Objects-box b).asked b.value };

    ghost refusals = { λ b. (Objects-box b).refusals b.value };

    fn exists(&self, id: &ObjectId) -> bool {
        (**self).exists(id)
    }

    fn kind(&self, id: &ObjectId) -> Option<ObjectKind> {
        (**self).kind(id)
    }

    fn commit(&mut self, alloc: Global, id: &ObjectId) -> Result<Option<CommitData>, ObjectError> {
        (**self).commit(alloc, id)
    }
}
