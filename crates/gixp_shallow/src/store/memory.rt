//! A shallow boundary in memory.
ghost use Rattle.std.specs.Prelude.{◌≡◌, true, false};
ghost use Rattle.gixp_shallow.specs.Store.{HasFailed};
ghost use Rattle.gixp_shallow.specs.ShallowMemory.{RefusesInMemory, counted_in_memory};

use crate::store::{ShallowError, ShallowStore};
use gixp_hash::ObjectId;
use std::alloc::Global;

/// A shallow boundary in memory. Only one caller can lock it at a time.
#[derive(Debug, Drop)]
pub struct ShallowMemory {
    ids: Vec<ObjectId>,
    locked: bool,
    failures: u64,
}

impl ShallowMemory {
    /// A store of this boundary.
    pub fn new(ids: Vec<ObjectId>) -> ShallowMemory
        ensures ids { result.ids.items ≡ ids.items }
        ensures locked { result.locked ≡ false }
        ensures failures { result.failures ≡ 0 }
    {
        ShallowMemory {
            ids,
            locked: false,
            failures: 0,
        }
    }

    /// The ids of the boundary.
    pub fn ids(&self) -> &[ObjectId]
        ensures { result.now ≡ self.now.ids.items }
    {
        &self.ids
    }

    /// Whether it is locked.
    pub fn is_locked(&self) -> bool
        ensures { result ≡ self.now.locked }
    {
        self.locked
    }

    fn count_failure(&mut self)
        ensures counted { HasFailed self.old.failures self.new.failures }
        ensures kept { self.new ≡ record self.old { failures = self.new.failures } }
    {
        self.failures = self.failures.saturating_add(1);
    }
}

impl ShallowStore for ShallowMemory {
    ghost calls = { record {
      failures = λ call s e t. RefusesInMemory call s e t;
      count = λ s. s.failures;
      locks = λ s t. (s.locked ≡ false) × (t ≡ record s { locked = true });
      reads = λ s ids t. (ids ≡ s.ids.items) × (t ≡ s);
      writes = λ s ids t. (t.ids.items ≡ ids) × (t ≡ record s { ids = t.ids });
      releases = λ s t. t ≡ record s { locked = false };
    } };

    fn lock(&mut self) -> Result<(), ShallowError> {
        if self.locked {
            self.count_failure();
            return Err(ShallowError::Locked);
        }
        self.locked = true;
        Ok(())
    }

    fn read(&mut self, alloc: Global) -> Result<Vec<ObjectId>, ShallowError> {
        match Vec::from_slice(alloc, &self.ids) {
            Ok(ids) => Ok(ids),
            Err(_) => Err(ShallowError::Memory),
        }
    }

    fn write(&mut self, boundary: &[ObjectId]) -> Result<(), ShallowError> {
        match Vec::from_slice(*self.ids.allocator(), boundary) {
            Ok(ids) => {
                self.ids = ids;
                Ok(())
            }
            Err(_) => Err(ShallowError::Memory),
        }
    }

    fn release(&mut self) {
        self.locked = false;
    }

    ghost counted = { λ call s e t h. counted_in_memory call s e t h };
}
