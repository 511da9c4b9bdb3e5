//! The complete commits by a slow reference program: it repeats a step until nothing is added.
ghost use Rattle.std.specs.Prelude.{◌≡◌, ◌↔◌, IsTrue, IsSome, IfSome, IfNone, IfOk, Contains, All, Some, List};
ghost use Rattle.std.specs.Bool.{OnTrue, OnFalse};
ghost use Rattle.gixp_hash.specs.declared.object_id.ObjectId.{ObjectId};
ghost use Rattle.gixp_graph.specs.Object.{commit_at};
ghost use Rattle.gixp_test_lower.specs.Listed.{objects_of};
ghost use Rattle.gixp_graph.specs.Complete.{IsComplete};
ghost use Rattle.gixp_test_lower.specs.Slow.{AreKnown, ParentsAreKnown, IsMissingCommit, IsClosed};

use gixp_graph::CommitData;
use gixp_hash::ObjectId;
use std::alloc::{AllocError, Global};
use std::collections::BTreeMap;

fn is_among(ids: &[ObjectId], id: &ObjectId) -> bool
    ensures { IsTrue result ↔ Contains ids.now id.now }
{
    ids.contains(id)
}

// Whether a commit exists and isn't known.
fn is_unknown(commits: &BTreeMap<ObjectId, CommitData>, known: &[ObjectId], id: &ObjectId) -> bool
    ensures unknown { OnTrue result (IsSome (commit_at (objects_of commits.now.entries) id.now) × ¬ (Contains known.now id.now)) }
    ensures known { OnFalse result (IsSome (commit_at (objects_of commits.now.entries) id.now) → Contains known.now id.now) }
{
    commits.contains_key(id) && !is_among(known, id)
}

// The first of these ids whose commit exists and isn't known.
fn unknown(
    commits: &BTreeMap<ObjectId, CommitData>,
    known: &[ObjectId],
    ids: &[ObjectId],
) -> Option<ObjectId>
    ensures some { IfSome result (λ id. Contains ids.now id × IsSome (commit_at (objects_of commits.now.entries) id)
        × ¬ (Contains known.now id)) }
    ensures none { IfNone result (AreKnown (commit_at (objects_of commits.now.entries)) known.now ids.now) }
{
    for id in ids {
        if is_unknown(commits, known, id) {
            return Some(*id);
        }
    }
    None
}

// The first parent of a commit that exists and isn't known, if the commit is not older than the cutoff.
fn unknown_parent_of(
    commits: &BTreeMap<ObjectId, CommitData>,
    known: &[ObjectId],
    cutoff: i64,
    id: &ObjectId,
) -> Option<ObjectId>
    ensures some { IfSome result (λ p. Contains known.now id.now → (tips : List ObjectId)
        → IsMissingCommit (commit_at (objects_of commits.now.entries)) tips (Some cutoff) known.now p) }
    ensures none { IfNone result (ParentsAreKnown (commit_at (objects_of commits.now.entries)) cutoff known.now id.now) }
{
    match commits.get(id) {
        Some(commit) => {
            if commit.time < cutoff {
                None
            } else {
                unknown(commits, known, commit.parents.as_slice())
            }
        }
        None => None,
    }
}

// The first such parent of the known commits.
fn unknown_parent(
    commits: &BTreeMap<ObjectId, CommitData>,
    known: &[ObjectId],
    cutoff: i64,
) -> Option<ObjectId>
    ensures some { IfSome result (λ p. (tips : List ObjectId)
        → IsMissingCommit (commit_at (objects_of commits.now.entries)) tips (Some cutoff) known.now p) }
    ensures none { IfNone result (All (ParentsAreKnown (commit_at (objects_of commits.now.entries)) cutoff known.now) known.now) }
{
    for id in known {
        if let Some(parent) = unknown_parent_of(commits, known, cutoff, id) {
            return Some(parent);
        }
    }
    None
}

// A complete commit that isn't known.
fn missing(
    commits: &BTreeMap<ObjectId, CommitData>,
    known: &[ObjectId],
    tips: &[ObjectId],
    cutoff: Option<i64>,
) -> Option<ObjectId>
    ensures some { IfSome result (IsMissingCommit (commit_at (objects_of commits.now.entries)) tips.now cutoff known.now) }
    ensures none { IfNone result (IsClosed (commit_at (objects_of commits.now.entries)) tips.now cutoff known.now) }
{
    match unknown(commits, known, tips) {
        Some(id) => Some(id),
        None => match cutoff {
            Some(cutoff) => unknown_parent(commits, known, cutoff),
            None => None,
        },
    }
}

pub(crate) fn complete(
    alloc: Global,
    commits: &BTreeMap<ObjectId, CommitData>,
    tips: &[ObjectId],
    cutoff: Option<i64>,
) -> Result<Vec<ObjectId>, AllocError>
    ensures { IfOk result (λ ids. (id : ObjectId) → Contains ids.items id
        ↔ IsComplete (commit_at (objects_of commits.now.entries)) tips.now cutoff id) }
{
    let mut known = Vec::new(alloc);
    while let Some(id) = missing(commits, known.as_slice(), tips, cutoff) {
        known.push(id)?;
    }
    Ok(known)
}
