//! The shallow boundary of the repository after a fetch (gitrepository-layout, "shallow";
//! git-fetch, `--depth`, `--update-shallow`).
ghost use Rattle.std.specs.Prelude.{◌≡◌, ◌++◌, IfOk};
ghost use Rattle.gixp_remote_rules.specs.ShallowBoundary.{added, received_commits, boundary_after, boundary_value, first_missing, missing_at, shallow_policy, connectivity_check_by, connectivity_check, roots};
ghost use Rattle.gixp_remote_rules.specs.HelperOptions.{options_value};

use crate::options::HelperOptions;
use gixp_hash::ObjectId;
use std::alloc::{AllocError, Global};
use std::collections::BTreeSet;

/// How a fetch may change the shallow boundary.
#[derive(Clone, Copy, Debug, PartialEq, Eq)]
pub enum ShallowPolicy {
    /// With a depth: the server's boundary replaces the old one. Each id that is added must be a
    /// commit of this repository.
    Deepen,
    /// In a clone, or with `--update-shallow`: commits that the fetch received are added.
    Update,
    /// Otherwise: the boundary is unchanged.
    Keep,
}

/// The policy that git's options ask for.
pub fn shallow_policy(options: &HelperOptions) -> ShallowPolicy
    ensures { result ≡ shallow_policy (options_value options.now) }
{
    if options.has_depth() {
        ShallowPolicy::Deepen
    } else if options.is_cloning || options.updates_shallow {
        ShallowPolicy::Update
    } else {
        ShallowPolicy::Keep
    }
}

/// Which connectivity git checks before the pack is moved out of quarantine.
#[derive(Clone, Copy, Debug, PartialEq, Eq)]
pub enum ConnectivityCheck {
    /// None: git checks it itself, after the fetch.
    Skip,
    /// Connectivity under the new boundary of a fetch with a depth.
    Deepened,
    /// Connectivity under the old boundary, since the server's boundary isn't taken over.
    Unasked,
}

fn connectivity_check_by(
    policy: ShallowPolicy,
    is_cloning: bool,
    changes: bool,
    has_boundary: bool,
) -> ConnectivityCheck
    ensures { result ≡ connectivity_check_by policy is_cloning changes has_boundary }
{
    match policy {
        ShallowPolicy::Deepen if changes && !is_cloning => ConnectivityCheck::Deepened,
        ShallowPolicy::Keep if has_boundary => ConnectivityCheck::Unasked,
        ShallowPolicy::Deepen | ShallowPolicy::Keep | ShallowPolicy::Update => {
            ConnectivityCheck::Skip
        }
    }
}

/// Which connectivity git checks. `changes` says whether the boundary changes, `has_boundary`
/// whether the server sent one.
pub fn connectivity_check(
    options: &HelperOptions,
    changes: bool,
    has_boundary: bool,
) -> ConnectivityCheck
    ensures { result ≡ connectivity_check (options_value options.now) changes has_boundary }
{
    connectivity_check_by(
        shallow_policy(options),
        options.is_cloning,
        changes,
        has_boundary,
    )
}

/// The shallow boundary after a fetch.
#[derive(Debug, Drop, PartialEq, Eq)]
pub enum BoundaryChange {
    /// It is unchanged.
    Stays,
    /// It is replaced by these ids.
    Becomes(Vec<ObjectId>),
    /// These ids are added.
    Grows(Vec<ObjectId>),
    /// The server sent an id that is not a commit of this repository.
    Refused(ObjectId),
}

/// The ids of a new boundary that the old one lacks.
pub fn added(
    alloc: Global,
    old: &BTreeSet<ObjectId>,
    new: &[ObjectId],
) -> Result<Vec<ObjectId>, AllocError>
    ensures { IfOk result (λ ids. ids.items ≡ added old.now new.now) }
{
    new.iter()
        .copied()
        .filter(|id| !old.contains(id))
        .collect(alloc)
}

/// The ids from which git checks connectivity: the wanted ones, and those that only the old
/// boundary has.
pub fn roots(
    alloc: Global,
    wanted: &[ObjectId],
    old: &[ObjectId],
    new: &BTreeSet<ObjectId>,
) -> Result<Vec<ObjectId>, AllocError>
    ensures { IfOk result (λ ids. ids.items ≡ roots wanted.now old.now new.now) }
{
    let gone = added(alloc, new, old)?;
    let mut ids = Vec::from_slice(alloc, wanted)?;
    ids.extend_from_slice(&gone)?;
    Ok(ids)
}

// The index of the first id that is not a commit of this repository.
fn missing_at(ids: &[ObjectId], commits: &BTreeSet<ObjectId>) -> Option<usize>
    ensures { result ≡ missing_at commits.now ids.now }
{
    ids.iter().position(|id| !commits.contains(id))
}

fn first_missing(ids: &[ObjectId], commits: &BTreeSet<ObjectId>) -> Option<ObjectId>
    ensures { result ≡ first_missing commits.now ids.now }
{
    match missing_at(ids, commits) {
        Some(at) => ids.get(at).copied(),
        None => None,
    }
}

// The commits that were received and weren't present before.
fn received_commits(
    alloc: Global,
    ids: &[ObjectId],
    before: &BTreeSet<ObjectId>,
    commits: &BTreeSet<ObjectId>,
) -> Result<Vec<ObjectId>, AllocError>
    ensures { IfOk result (λ found. found.items ≡ received_commits before.now commits.now ids.now) }
{
    ids.iter()
        .copied()
        .filter(|id| commits.contains(id) && !before.contains(id))
        .collect(alloc)
}

/// The boundary after a fetch, if the server's boundary is `new`. `ids` are those of its ids that
/// the old one lacks (`added`). `before` has those of them that were present before the fetch,
/// `commits` those that are commits after it.
///
/// # Errors
///
/// Only when an allocation fails.
pub fn boundary_after(
    alloc: Global,
    policy: ShallowPolicy,
    new: &[ObjectId],
    ids: &[ObjectId],
    before: &BTreeSet<ObjectId>,
    commits: &BTreeSet<ObjectId>,
) -> Result<BoundaryChange, AllocError>
    ensures { IfOk result (λ b. boundary_value b ≡ boundary_after policy new.now ids.now before.now commits.now) }
{
    match policy {
        ShallowPolicy::Keep => Ok(BoundaryChange::Stays),
        ShallowPolicy::Deepen => match first_missing(ids, commits) {
            Some(id) => Ok(BoundaryChange::Refused(id)),
            None => Ok(BoundaryChange::Becomes(Vec::from_slice(alloc, new)?)),
        },
        ShallowPolicy::Update => {
            let received = received_commits(alloc, ids, before, commits)?;
            Ok(BoundaryChange::Grows(received))
        }
    }
}
