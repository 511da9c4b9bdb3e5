//! The trait of a repository's refs.
ghost use Rattle.std.specs.Prelude.{◌≡◌, ℕ, ◌≤◌, ◌⊎◌, List, Option, Some, None, IfOk, IfErr, OnOk};
ghost use Rattle.std.specs.Ordering.{nat_cmp};
ghost use Rattle.std.specs.Cmp.Lexicographic.{slice_cmp};
ghost use Rattle.std.specs.FinMap as map;
ghost use Rattle.bstr.specs.BStr.{bstr_bytes};
ghost use Rattle.gixp_hash.specs.declared.object_id.ObjectId.{ObjectId};
ghost use Rattle.gixp_graph.specs.declared.refs.RefStoreError.TheVariants.{Memory};
ghost use Rattle.gixp_hash.specs.Failures.{HasRisen};
ghost use Rattle.gixp_graph.specs.Refusals.{Written, writing};
ghost use Rattle.gixp_graph.specs.declared.refs.RefStoreError.{RefStoreError};

use bstr::BStr;
use gixp_hash::ObjectId;
use std::alloc::{AllocError, AllocFailed, Global};
use std::io;
use thiserror::Error;

/// Why the refs can't be read. No ref changes.
#[derive(Clone, Copy, Debug, PartialEq, Eq, Drop, Error)]
pub enum RefStoreError {
    /// The file of packed refs can't be opened (git-pack-refs).
    #[error("OpenPackedRefsBuffer")]
    OpenPackedRefsBuffer,
    /// The refs can't be listed.
    #[error("Iter")]
    Iter,
    /// A ref can't be peeled to an object that isn't a tag.
    #[error("Peel")]
    Peel,
    /// An I/O error, with its kind.
    #[error("Io")]
    Io(io::ErrorKind),
    /// An allocation failed.
    #[error("Memory")]
    Memory,
}

impl From<AllocError> for RefStoreError {
    ghost from_gives = { λ _ e. e ≡ Memory };

    fn from(_error: AllocError) -> RefStoreError {
        RefStoreError::Memory
    }
}

impl<T: Drop> From<AllocFailed<T>> for RefStoreError {
    ghost from_gives = { λ _ e. e ≡ Memory };

    fn from(_error: AllocFailed<T>) -> RefStoreError {
        RefStoreError::Memory
    }
}

/// The refs of a repository: a finite map from full names to ids, and the list of the ids that all refs peel to. No
/// call changes either.
///
/// A call may fail. It then raises a count of failures, unless an allocation failed. The results of the listings may
/// be recorded (`listings`): contracts of the callers then say which stores are listed, in which order, with which result.
pub trait RefStore {
    /// The ids of the refs that aren't symbolic, by full name.
    ghost refs: { Self → map.FinMap (slice_cmp nat_cmp) ObjectId };

    /// The ids that the refs peel to, in the order of the listing.
    ghost targets: { Self → List ObjectId };

    /// How many calls have failed so far.
    ghost failures: { Self → ℕ };

    /// The result of each call of `peeled` so far, where it is recorded: its error, or none where it succeeded.
    ghost listings: { Self → Written (Option RefStoreError) } = { λ _. None };

    /// The id of the ref with this full name. `None` where no such ref exists, or where it is symbolic.
    fn find(&self, name: BStr<'_>) -> Option<ObjectId>
        ensures { result ≡ map.get (refs self.now) (bstr_bytes name.entry) };

    /// The ids of the objects that the refs peel to, through all tags, in the order of the listing.
    ///
    /// # Errors
    ///
    /// Why they can't be read. A later call may succeed.
    fn peeled(&mut self, alloc: Global) -> Result<Vec<ObjectId>, RefStoreError>
        ensures peeled { IfOk result (λ ids. ids.items ≡ targets self.old) }
        ensures refs { refs self.new ≡ refs self.old }
        ensures targets { targets self.new ≡ targets self.old }
        ensures listed { OnOk result (listings self.new ≡ writing (listings self.old) None) }
        ensures refused { IfErr result (λ e. listings self.new ≡ writing (listings self.old) (Some e)) }
        ensures failures { failures self.old ≤ failures self.new }
        ensures failed { IfErr result (λ e. (e ≡ Memory) ⊎ HasRisen (failures self.old) (failures self.new)) };
}
