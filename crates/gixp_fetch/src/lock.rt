//! The store of the boundary, with its lock.
ghost use Rattle.std.specs.Prelude.{◌≡◌, MatchResult, not};
ghost use Rattle.gixp_fetch.specs.Lent.{IsSameLock};
ghost use Rattle.gixp_fetch.specs.Prepare.{ReleasesIf};
ghost use Rattle.gixp_fetch.specs.Session.{is_any, Holds, HoldFails, WritesBoundary, BoundaryWriteFails};

use crate::error::Error;
use gixp_hash::ObjectId;
use gixp_shallow::{ShallowStore, ShallowUpdate, new_boundary};
use std::alloc::Global;

fn is_none(updates: &[ShallowUpdate]) -> bool
    ensures { result ≡ not (is_any updates.now) }
{
    match updates {
        [] => true,
        [_, ..] => false,
    }
}

/// The store of the boundary, and whether its lock is held.
#[derive(Drop)]
pub(crate) struct StoreLock<'s, S> {
    pub(crate) store: &'s mut S,
    pub(crate) locked: bool,
    /// Whether updates that weren't requested are an error.
    pub(crate) reject: bool,
}

impl<S: ShallowStore> StoreLock<'_, S> {
    /// Gets the lock if there are updates and it isn't held.
    pub(crate) fn hold<A, E>(&mut self, updates: &[ShallowUpdate]) -> Result<(), Error<A, E>>
        ensures same { IsSameLock self.old self.new }
        ensures held { MatchResult result
            (λ _. Holds S.calls updates.now self.old.reject self.old.store.now self.old.locked self.new.store.now self.new.locked)
            (λ e. HoldFails S.calls updates.now self.old.reject self.old.store.now self.old.locked e self.new.store.now self.new.locked) }
    {
        if is_none(updates) {
            return Ok(());
        }
        if self.locked {
            return Ok(());
        }
        if self.reject {
            return Err(Error::RejectShallowRemote);
        }
        match self.store.lock() {
            Ok(()) => {
                self.locked = true;
                Ok(())
            }
            Err(e) => Err(Error::locking(e)),
        }
    }

    /// Writes the new boundary if there are updates.
    pub(crate) fn write_boundary<A, E>(
        &mut self,
        alloc: Global,
        ids: &[ObjectId],
        updates: &[ShallowUpdate],
    ) -> Result<(), Error<A, E>>
        ensures same { IsSameLock self.old self.new }
        ensures locked { self.new.locked ≡ self.old.locked }
        ensures settled { MatchResult result
            (λ _. WritesBoundary S.calls ids.now updates.now self.old.store.now self.new.store.now)
            (λ e. BoundaryWriteFails S.calls updates.now self.old.store.now e self.new.store.now) }
    {
        if is_none(updates) {
            return Ok(());
        }
        let ids = new_boundary(alloc, ids, updates)?;
        match self.store.write(&ids) {
            Ok(()) => Ok(()),
            Err(e) => Err(Error::storing(e)),
        }
    }

    /// Releases the lock if it is held.
    pub(crate) fn release(&mut self)
        ensures same { IsSameLock self.old self.new }
        ensures released { ReleasesIf S.calls.releases self.old.locked self.old.store.now self.new.store.now }
    {
        let locked = self.locked;
        if locked {
            self.store.release();
        }
    }
}
