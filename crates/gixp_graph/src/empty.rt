//! A repository without objects and refs.
ghost use Rattle.std.specs.Prelude.{[]};
ghost use Rattle.std.specs.FinMap as map;

use crate::objects::{CommitData, ObjectError, ObjectKind, Objects};
use crate::refs::{RefStore, RefStoreError};
use bstr::BStr;
use gixp_hash::ObjectId;
use std::alloc::Global;

/// An object store without objects.
#[derive(Clone, Copy, Debug)]
pub struct NoObjects;

impl Objects for NoObjects {
    ghost contents = { λ _. map.empty };

    ghost failures = { λ _. 0 };

    fn exists(&self, _id: &ObjectId) -> bool {
        false
    }

    fn kind(&self, _id: &ObjectId) -> Option<ObjectKind> {
        None
    }

    fn commit(
        &mut self,
        _alloc: Global,
        _id: &ObjectId,
    ) -> Result<Option<CommitData>, ObjectError> {
        Ok(None)
    }
}

/// A ref store without refs.
#[derive(Clone, Copy, Debug)]
pub struct NoRefs;

impl RefStore for NoRefs {
    ghost refs = { λ _. map.empty };

    ghost targets = { λ _. [] };

    ghost failures = { λ _. 0 };

    fn find(&self, _name: BStr<'_>) -> Option<ObjectId> {
        None
    }

    fn peeled(&mut self, alloc: Global) -> Result<Vec<ObjectId>, RefStoreError> {
        Ok(Vec::new(alloc))
    }
}
