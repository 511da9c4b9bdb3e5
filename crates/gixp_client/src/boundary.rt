//! The shallow boundary after a fetch.
ghost use Rattle.std.specs.Prelude.{◌≡◌, [], IfOk};
ghost use Rattle.gixp_client.specs.Boundaries.{ids_beyond, updates_between, ids_after};

use gixp_hash::ObjectId;
use gixp_reachable::ids::set_of;
use gixp_shallow::{ShallowUpdate, new_boundary};
use std::alloc::{AllocError, Global};

/// The shallow boundary after a fetch (gitprotocol-pack, "Packfile Negotiation").
///
/// A server whose own repository is shallow sends updates even when the request names no depth. Applied to a complete repository,
/// these updates hide history, and a garbage collection then deletes it. So they are in `unasked`, and `ids` doesn't contain them.
#[derive(Debug, Drop)]
pub struct Boundary {
    /// The boundary to store. If the request changes the boundary and the server sent updates, this is the boundary after the
    /// updates: ordered by id, each id once. Otherwise it is the boundary that the caller passed in.
    pub ids: Vec<ObjectId>,
    /// If the request changes the boundary: the ids that the updates added, then the ids that they removed. Otherwise empty.
    pub asked_for: Vec<ShallowUpdate>,
    /// If the request doesn't change the boundary: the ids that the server's updates would add, then those that they would remove.
    /// Otherwise empty.
    pub unasked: Vec<ShallowUpdate>,
}

impl Boundary {
    ghost use Rattle.gixp_client.specs.Boundaries.{IsLeftBoundary, IsBoundaryAfter};

    pub(crate) fn kept(alloc: Global, before: &[ObjectId]) -> Result<Boundary, AllocError>
        ensures { IfOk result (IsLeftBoundary before.now [] []) }
    {
        Ok(Boundary {
            ids: Vec::from_slice(alloc, before)?,
            asked_for: Vec::new(alloc),
            unasked: Vec::new(alloc),
        })
    }

    /// The boundary with the unrequested updates applied. The caller must make sure that the objects beyond it exist. The ids are
    /// ordered, each once. Without unrequested updates it is a copy of `ids`.
    ///
    /// # Errors
    ///
    /// Only when an allocation fails.
    pub fn with_unasked(&self, alloc: Global) -> Result<Vec<ObjectId>, AllocError>
        ensures { IfOk result (λ ids. ids.items ≡ ids_after self.now.ids.items self.now.unasked.items) }
    {
        match self.unasked.as_slice() {
            [] => Vec::from_slice(alloc, &self.ids),
            [_, ..] => new_boundary(alloc, &self.ids, &self.unasked),
        }
    }

    // `is_asked`: whether the request changes the boundary.
    pub(crate) fn changed(
        alloc: Global,
        before: &[ObjectId],
        after: &[ObjectId],
        is_asked: bool,
    ) -> Result<Boundary, AllocError>
        ensures { IfOk result (IsBoundaryAfter is_asked before.now after.now) }
    {
        let updates = updates_between(alloc, before, after)?;
        if is_asked {
            return Ok(Boundary {
                ids: Vec::from_slice(alloc, after)?,
                asked_for: updates,
                unasked: Vec::new(alloc),
            });
        }
        Ok(Boundary {
            ids: Vec::from_slice(alloc, before)?,
            asked_for: Vec::new(alloc),
            unasked: updates,
        })
    }
}

fn ids_beyond(
    alloc: Global,
    ids: &[ObjectId],
    others: &[ObjectId],
) -> Result<Vec<ObjectId>, AllocError>
    ensures { IfOk result (λ found. found.items ≡ ids_beyond ids.now others.now) }
{
    let set = set_of(alloc, others)?;
    let mut found = Vec::new(alloc);
    let mut rest = ids;
    while let Some((id, tail)) = rest.split_first() {
        if !set.contains(id) {
            found.push(*id)?;
        }
        rest = tail;
    }
    Ok(found)
}

// The ids that are new in `after`, then the ids that only `before` has.
fn updates_between(
    alloc: Global,
    before: &[ObjectId],
    after: &[ObjectId],
) -> Result<Vec<ShallowUpdate>, AllocError>
    ensures { IfOk result (λ updates. updates.items ≡ updates_between before.now after.now) }
{
    let received = ids_beyond(alloc, after, before)?;
    let went = ids_beyond(alloc, before, after)?;
    received
        .iter()
        .map(|id| ShallowUpdate::Shallow(*id))
        .chain(went.iter().map(|id| ShallowUpdate::Unshallow(*id)))
        .collect(alloc)
}
