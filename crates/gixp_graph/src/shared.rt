//! Objects over a shared reference: a graph and other readers use the same repository.
ghost use Rattle.std.specs.Prelude.{◌≡◌, ◌≤◌, ◌⊎◌, ⊤, [], None, IfOk, IfErr, OnOk, option_map};
ghost use Rattle.std.specs.FinMap as map;
ghost use Rattle.gixp_hash.specs.declared.object_id.ObjectId.{ObjectId};
ghost use Rattle.gixp_graph.specs.declared.objects.ObjectError.{ObjectError};
ghost use Rattle.gixp_graph.specs.declared.objects.ObjectError.TheVariants.{Memory};
ghost use Rattle.gixp_graph.specs.Object.{Objects as ObjectMap, kind_at, commit_at, commit_of};
ghost use Rattle.gixp_hash.specs.Failures.{HasRisen};

use crate::objects::{CommitData, ObjectError, ObjectKind, Objects};
use gixp_hash::ObjectId;
use std::alloc::Global;

/// The objects of a repository that can be read over a shared reference: a finite map from ids to objects. `Shared`
/// implements `Objects` over such a reference. Any number of them may exist.
pub trait Find {
    /// The objects by their ids.
    ghost contents: { Self → ObjectMap };

    /// The errors that a read of an id may return: any, unless an implementation restricts them.
    ghost refuses: { Self → ObjectId → ObjectError → Type 0 } = { λ _ _ _. ⊤ };

    /// Whether an object with this id exists.
    fn has_object(&self, id: &ObjectId) -> bool
        ensures { result ≡ map.contains_key (contents self.now) id.now };

    /// The kind of the object with this id. `None` where no such object exists, or where its kind can't be read.
    fn find_kind(&self, id: &ObjectId) -> Option<ObjectKind>
        ensures { result ≡ kind_at (contents self.now) id.now };

    /// The commit with this id. `None` where no such object exists, or where it isn't a commit.
    ///
    /// # Errors
    ///
    /// Why it can't be read. A later call may succeed.
    fn find_commit(&self, alloc: Global, id: &ObjectId) -> Result<Option<CommitData>, ObjectError>
        ensures found { IfOk result (λ found. option_map commit_of found ≡ commit_at (contents self.now) id.now) }
        ensures refused { IfErr result (λ e. refuses self.now id.now e) };
}

/// The objects of a repository over a shared reference to it.
///
/// Any number of them may read one repository: for example one that a graph owns, and another for
/// `NegotiateContext`. Each counts its own failed calls, except allocation failures.
#[derive(Drop)]
pub struct Shared<'a, F> {
    objects: &'a F,
    failures: u64,
}

impl<'a, F> Shared<'a, F> {
    /// Reads these objects. No call has failed yet.
    pub fn new(objects: &'a F) -> Shared<'a, F>
        ensures objects { result.objects.now ≡ objects.now }
        ensures failures { result.failures ≡ 0 }
    {
        Shared {
            objects,
            failures: 0,
        }
    }
}

impl<F: Find> Objects for Shared<'_, F> {
    ghost contents = { λ s. F.contents s.objects.now };

    ghost failures = { λ s. s.failures };

    ghost asked = { λ _. [] };

    ghost refusals = { λ _. None };

    fn exists(&self, id: &ObjectId) -> bool {
        self.objects.has_object(id)
    }

    fn kind(&self, id: &ObjectId) -> Option<ObjectKind> {
        self.objects.find_kind(id)
    }

    fn commit(&mut self, alloc: Global, id: &ObjectId) -> Result<Option<CommitData>, ObjectError>
        ensures found { IfOk result (λ found. option_map commit_of found ≡ commit_at (F.contents self.old.objects.now) id.now) }
        ensures objects { self.new.objects.now ≡ self.old.objects.now }
        ensures failures { self.old.failures ≤ self.new.failures }

        // The error is one that a read of this id may return.
        ensures reported { IfErr result (λ e. F.refuses self.old.objects.now id.now e) }

        // Each error is counted, except an allocation failure. A success isn't counted.
        ensures counted { IfErr result (λ e. (e ≡ Memory) ⊎ HasRisen self.old.failures self.new.failures) }
        ensures uncounted { OnOk result (self.new.failures ≡ self.old.failures) }
        ensures memory { IfErr result (λ e. e ≡ Memory → self.new.failures ≡ self.old.failures) }
    {
        match self.objects.find_commit(alloc, id) {
            Ok(found) => Ok(found),
            Err(ObjectError::Memory) => Err(ObjectError::Memory),
            Err(e) => {
                self.failures = self.failures.saturating_add(1);
                Err(e)
            }
        }
    }
}
