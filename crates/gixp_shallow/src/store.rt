//! Stores of the shallow boundary.
ghost use Rattle.std.specs.Prelude.{IfOk, IfErr, OnOk};
ghost use Rattle.gixp_shallow.specs.declared.store.ShallowError.{ShallowError};
ghost use Rattle.gixp_shallow.specs.Store.{StoreCall, StoreCalls, to_lock, to_read, to_write, IsStoreRefusal};

use bstr::BString;
use gixp_hash::ObjectId;
use std::alloc::{AllocError, AllocFailed, Global};
use std::io::ErrorKind;
use thiserror::Error;

pub mod file;
pub mod memory;

/// Why a call of a store fails.
#[derive(Debug, Drop, Error)]
pub enum ShallowError {
    /// A read or a write failed.
    #[error("Io")]
    Io(ErrorKind),
    /// Someone else has the lock.
    #[error("Locked")]
    Locked,
    /// A line is not an id.
    #[error("Decode")]
    Decode { line: BString },
    /// An allocation failed.
    #[error("Memory")]
    Memory,
}

impl From<AllocError> for ShallowError {
    ghost use Rattle.std.specs.Prelude.{◌≡◌};
    ghost use Rattle.gixp_shallow.specs.declared.store.ShallowError.TheVariants.{Memory};

    ghost from_gives = { λ _ error. error ≡ Memory };

    fn from(_e: AllocError) -> ShallowError {
        ShallowError::Memory
    }
}

impl<T: Drop> From<AllocFailed<T>> for ShallowError {
    ghost use Rattle.std.specs.Prelude.{◌≡◌};
    ghost use Rattle.gixp_shallow.specs.declared.store.ShallowError.TheVariants.{Memory};

    ghost from_gives = { λ _ error. error ≡ Memory };

    fn from(_e: AllocFailed<T>) -> ShallowError {
        ShallowError::Memory
    }
}

/// A store of the shallow boundary.
///
/// `calls` describes each call as a relation of the store before and after it, and a failed call as another. Each
/// failed call must raise a count of failures, unless an allocation failed.
pub trait ShallowStore {
    /// The effects of the calls, of failed ones too, and the count of failures.
    ghost calls: { StoreCalls Self };

    /// Takes the lock, so that others don't write.
    ///
    /// # Errors
    ///
    /// `Locked` where someone else holds the lock. The call then doesn't take it.
    fn lock(&mut self) -> Result<(), ShallowError>
        ensures locked { OnOk result (calls.locks self.old self.new) }
        ensures refused { IfErr result (λ e. calls.failures to_lock self.old e self.new) };

    /// Returns the boundary.
    ///
    /// # Errors
    ///
    /// Why it can't be read.
    fn read(&mut self, alloc: Global) -> Result<Vec<ObjectId>, ShallowError>
        ensures read { IfOk result (λ ids. calls.reads self.old ids.items self.new) }
        ensures refused { IfErr result (λ e. calls.failures to_read self.old e self.new) };

    /// Replaces the boundary by this one.
    ///
    /// # Errors
    ///
    /// Why it can't be written.
    fn write(&mut self, boundary: &[ObjectId]) -> Result<(), ShallowError>
        ensures written { OnOk result (calls.writes self.old boundary.now self.new) }
        ensures refused { IfErr result (λ e. calls.failures to_write self.old e self.new) };

    /// Releases the lock.
    fn release(&mut self)
        ensures released { calls.releases self.old self.new };

    /// Each failure is counted, unless an allocation failed.
    ghost counted: { (call : StoreCall) (s : Self) (e : ShallowError) (t : Self) → calls.failures call s e t
        → IsStoreRefusal (calls.count s) (calls.count t) e };
}
