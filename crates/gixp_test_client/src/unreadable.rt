//! Objects that exist but can't be read.
use gixp_graph::{CommitData, Find, ObjectError, ObjectKind};
use gixp_hash::ObjectId;
use gixp_memory::StoredObjects;
use std::alloc::Global;

/// Reports that its objects exist, but fails to read a commit.
#[derive(Drop)]
pub(crate) struct Unreadable {
    pub(crate) objects: StoredObjects,
}

impl Find for Unreadable {
    ghost contents = { λ u. u.objects };

    fn has_object(&self, id: &ObjectId) -> bool {
        self.objects.has_object(id)
    }

    fn find_kind(&self, id: &ObjectId) -> Option<ObjectKind> {
        self.objects.find_kind(id)
    }

    fn find_commit(
        &self,
        _alloc: Global,
        _id: &ObjectId,
    ) -> Result<Option<CommitData>, ObjectError> {
        Err(ObjectError::Corrupt)
    }
}
