//! The objects of a repository without those, of some ids in doubt, that its refs don't reach.
ghost use Rattle.std.specs.Prelude.{◌≡◌, ◌&&◌, not, List, [], IfOk};
ghost use Rattle.std.specs.BTreeSet.{contains};
ghost use Rattle.gixp_hash.specs.ObjectId.{id_cmp};
ghost use Rattle.gixp_hash.specs.declared.object_id.ObjectId.{ObjectId as Id};
ghost use Rattle.gixp_graph.specs.GraphData.{is_marked};
ghost use Rattle.gixp_reachable.specs.Reached.{earlier, oldest_of, without, ShowsReached};

use crate::ids::set_of;
use gixp_graph::{CommitData, Find, Flags, Graph, ObjectError, ObjectKind, Shared};
use gixp_hash::ObjectId;
use std::alloc::Global;
use std::collections::BTreeSet;

/// The objects of a repository without those, of some ids in doubt, that its refs don't reach (gitglossary, "reachable").
///
/// A fetch takes the history of an object that exists as complete. After an interrupted fetch a repository may have a commit
/// without its history, which no ref reaches. A fetch that doesn't see this commit requests it again, with its history.
#[derive(Drop)]
pub struct Reached<'a, F: Find> {
    objects: &'a F,
    doubted: BTreeSet<ObjectId>,
    // What the tips reach has the mark COMPLETE.
    graph: Graph<Shared<'a, F>>,
}

fn earlier(had: Option<i64>, time: Option<i64>) -> Option<i64>
    ensures { result ≡ earlier had time }
{
    let Some(time) = time else {
        return had;
    };
    match had {
        Some(had) => Some(if time < had { time } else { had }),
        None => Some(time),
    }
}

fn oldest_of<F: Find>(
    alloc: Global,
    objects: &F,
    ids: &[ObjectId],
) -> Result<Option<i64>, ObjectError>
    ensures { IfOk result (λ oldest. oldest ≡ oldest_of (F.contents objects.now) ids.now) }
{
    let mut oldest = None;
    let mut rest = ids;
    while let Some((id, tail)) = rest.split_first() {
        let commit = objects.find_commit(alloc, id)?;
        oldest = earlier(oldest, commit.map(|commit| commit.time));
        rest = tail;
    }
    Ok(oldest)
}

impl<'a, F: Find> Reached<'a, F> {
    /// All objects. No id is in doubt.
    pub fn all(alloc: Global, objects: &'a F) -> Reached<'a, F>
        ensures { (tips : List Id) → ShowsReached (F.contents objects.now) tips [] (⟦<Reached<'a, F> as Find>⟧.contents result) }
    {
        Reached {
            objects,
            doubted: BTreeSet::new(alloc),
            graph: Graph::new(alloc, Shared::new(objects)),
        }
    }

    /// The objects without each id in doubt that the tips don't reach. Tips are the ids that the refs peel to
    /// (`RefStore::peeled`).
    ///
    /// Only commits are followed, and only as far as they aren't older than the oldest commit in doubt. So an object that isn't a
    /// commit counts as unreached, and so does a commit that the tips reach only through older ones, as with wrong clocks. A fetch
    /// then requests what it has.
    ///
    /// # Errors
    ///
    /// Why a commit can't be read, or `Memory`.
    pub fn new(
        alloc: Global,
        objects: &'a F,
        tips: &[ObjectId],
        doubted: &[ObjectId],
    ) -> Result<Reached<'a, F>, ObjectError>
        ensures { IfOk result (λ r. ShowsReached (F.contents objects.now) tips.now doubted.now (⟦<Reached<'a, F> as Find>⟧.contents r)) }
    {
        let oldest = oldest_of(alloc, objects, doubted)?;
        let mut graph = Graph::new(alloc, Shared::new(objects));
        graph.mark_complete(tips, oldest)?;
        Ok(Reached {
            objects,
            doubted: set_of(alloc, doubted)?,
            graph,
        })
    }

    fn is_hidden(&self, id: &ObjectId) -> bool
        ensures { result ≡ (contains id_cmp self.now.doubted id.now && not (is_marked self.now.graph.graph.held id.now)) }
    {
        self.doubted.contains(id) && !self.is_complete(id)
    }

    fn is_complete(&self, id: &ObjectId) -> bool
        ensures { result ≡ is_marked self.now.graph.graph.held id.now }
    {
        match self.graph.get(id) {
            Some((_, flags)) => flags.0 & Flags::COMPLETE.0 == Flags::COMPLETE.0,
            None => false,
        }
    }
}

impl<F: Find> Find for Reached<'_, F> {
    ghost contents = { λ r. without (F.contents r.objects.now)
        (λ id. contains id_cmp r.doubted id && not (is_marked r.graph.graph.held id)) };

    ghost refuses = { λ r id e. F.refuses r.objects.now id e };

    fn has_object(&self, id: &ObjectId) -> bool {
        if self.is_hidden(id) {
            return false;
        }
        self.objects.has_object(id)
    }

    fn find_kind(&self, id: &ObjectId) -> Option<ObjectKind> {
        if self.is_hidden(id) {
            return None;
        }
        self.objects.find_kind(id)
    }

    fn find_commit(&self, alloc: Global, id: &ObjectId) -> Result<Option<CommitData>, ObjectError> {
        if self.is_hidden(id) {
            return Ok(None);
        }
        self.objects.find_commit(alloc, id)
    }
}
