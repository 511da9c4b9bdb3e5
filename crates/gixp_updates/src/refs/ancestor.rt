//! Whether a commit is an ancestor of another.
ghost use Rattle.std.specs.Prelude.{◌≡◌, ◌≤◌, ◌↔◌, ℕ, Some, None, IfOk, IfErr, OnOk, OnErr, Err, IsTrue, IsSome};
ghost use Rattle.std.specs.FinMap as finite;
ghost use Rattle.gixp_hash.specs.declared.object_id.ObjectId.{ObjectId};
ghost use Rattle.gixp_graph.specs.Asked.{AsksEach};
ghost use Rattle.gixp_graph.specs.Object.{commit_at};
ghost use Rattle.gixp_updates.specs.Ancestors.{IsAncestor, IsReachedFrom, ReachesMore, IsBeyond};
ghost use Rattle.gixp_updates.specs.Limits.{AsksWithin};
ghost use Rattle.gixp_updates.specs.LookUps.{LooksUp};
ghost use Rattle.gixp_updates.specs.UpdateError.{ErrorIsCaused};
ghost use Rattle.gixp_updates.specs.declared.refs.error.Error.TheVariants.{TooManyCommits};

use crate::refs::error::Error;
use crate::refs::walk::{Walk, parents_of};
use gixp_graph::{Graph, Objects};
use gixp_hash::ObjectId;
use std::alloc::Global;

// Whether more ids were looked up than the caller allows.
fn is_beyond(seen: usize, most_commits: Option<usize>) -> bool
    ensures { IsTrue result ↔ IsBeyond seen most_commits }
{
    match most_commits {
        Some(most) => seen > most,
        None => false,
    }
}

/// Whether the commit `old` is `new` or one of its ancestors (git-merge-base, `--is-ancestor`). If a ref moves from
/// `old` to `new`, that is a fast-forward. Returns false if either doesn't exist, or isn't a commit.
///
/// The walk takes the newest commit first, until it finds `old` or none is left. Each commit is looked up once, and
/// one that the graph holds isn't read again. Commits that are each other's parents don't make it endless. The graph holds
/// the commits that were found, without marks. No mark changes.
///
/// # Errors
///
/// `FindObject` where a commit can't be read. `Memory` where an allocation failed. `TooManyCommits` where more than
/// `most_commits` ids were looked up, which includes ids of missing parents; `None` sets no limit. The graph holds the
/// commits found so far, and a later call may succeed.
pub fn is_ancestor<O: Objects>(
    alloc: Global,
    graph: &mut Graph<O>,
    old: &ObjectId,
    new: &ObjectId,
    most_commits: Option<usize>,
) -> Result<bool, Error>
    ensures ancestor { IfOk result (λ found. IsTrue found ↔ IsAncestor (commit_at graph.old.graph.objects) new.now old.now) }
    ensures graph { LooksUp graph.old.graph graph.new.graph }

    // No commit is read twice. Only ids that the walk reaches and whose commits aren't held are read.
    ensures asked { AsksEach (λ id. (finite.get graph.old.graph.held id ≡ None)
        × IsReachedFrom (commit_at graph.old.graph.objects) new.now id) graph.old.asked graph.new.asked }

    // Except for the ids that it reaches last, a walk that succeeds reaches no more ids than the caller allows.
    ensures within { OnOk result (AsksWithin (commit_at graph.old.graph.objects) new.now most_commits graph.old.asked graph.new.asked) }
    ensures limited { result ≡ Err TooManyCommits → (most : ℕ) × (most_commits ≡ Some most)
        × ReachesMore (commit_at graph.old.graph.objects) new.now most }
    ensures unrefused { OnOk result (graph.new.refusals ≡ graph.old.refusals) }
    ensures failed { IfErr result (λ e. ErrorIsCaused most_commits e graph.old graph.new) }
    ensures failures { graph.old.failures ≤ graph.new.failures }
{
    let mut walk = Walk::new(alloc);
    walk.look(graph, new)?;
    while let Some(newest) = walk.pop() {
        if newest.id == *old {
            return Ok(true);
        }
        if is_beyond(walk.seen(), most_commits) {
            return Err(Error::TooManyCommits);
        }
        let parents = parents_of(alloc, graph, &newest.id)?;
        walk.look_each(graph, parents.as_slice())?;
    }
    Ok(false)
}
