ghost use Rattle.std.specs.Prelude.{◌≡◌};

use gixp_graph::ObjectError;
use std::alloc::{AllocError, AllocFailed};
use thiserror::Error as DeriveError;

/// Why the updates of the local refs can't be determined. No ref is written.
#[derive(Clone, Copy, Debug, PartialEq, Eq, Drop, DeriveError)]
pub enum Error {
    /// A commit can't be looked up, for another reason than an allocation failure.
    #[error("{0}")]
    FindObject(ObjectError),
    /// More commits than the caller allows would have to be looked up.
    #[error("TooManyCommits")]
    TooManyCommits,
    /// An allocation failed.
    #[error("Memory")]
    Memory,
}

impl From<ObjectError> for Error {
    ghost use Rattle.gixp_updates.specs.UpdateError.{from_object};

    ghost from_gives = { λ e error. error ≡ from_object e };

    fn from(e: ObjectError) -> Error {
        match e {
            ObjectError::Memory => Error::Memory,
            other => Error::FindObject(other),
        }
    }
}

impl From<AllocError> for Error {
    ghost use Rattle.gixp_updates.specs.declared.refs.error.Error.TheVariants.{Memory};

    ghost from_gives = { λ _ error. error ≡ Memory };

    fn from(_e: AllocError) -> Error {
        Error::Memory
    }
}

impl<T: Drop> From<AllocFailed<T>> for Error {
    ghost use Rattle.gixp_updates.specs.declared.refs.error.Error.TheVariants.{Memory};

    ghost from_gives = { λ _ error. error ≡ Memory };

    fn from(_e: AllocFailed<T>) -> Error {
        Error::Memory
    }
}
