//! A walk from a commit to its ancestors.
ghost use Rattle.std.specs.Prelude.{◌≡◌, ◌+◌, ◌≤◌, ◌⊎◌, ◌∷◌, ◌||◌, ◌≤ℤ◌, not, [], IfOk, IfErr, IfSome, IfNone, OnOk, OnErr, Some, IsSome, OnSome, true, false, length, All, Contains};
ghost use Rattle.std.specs.List.{IsDistinct};
ghost use Rattle.std.specs.BinaryHeap.{heap_items};
ghost use Rattle.std.specs.FinMap as finite;
ghost use Rattle.std.specs.BTreeSet as tree;
ghost use Rattle.std.specs.Ordering.{eq_by_cmp};
ghost use Rattle.gixp_hash.specs.declared.object_id.ObjectId.{ObjectId};
ghost use Rattle.gixp_hash.specs.ObjectId.{id_cmp};
ghost use Rattle.gixp_graph.specs.declared.objects.ObjectError.TheVariants.{Memory};
ghost use Rattle.gixp_graph.specs.Object.{Commit, commit_at};
ghost use Rattle.gixp_hash.specs.Failures.{HasRisen};
ghost use Rattle.gixp_graph.specs.Refusals.{ErrorIsRefusal};
ghost use Rattle.gixp_updates.specs.Search.{search_of, waits_in, waiting_len, LooksUp, SeesMore, Explores, HoldsWaiting, KeepsAsked, WaitByTime};

use crate::refs::heap::{Heap, Pending};
use gixp_graph::{Graph, ObjectError, Objects};
use gixp_hash::ObjectId;
use std::alloc::{AllocError, Global};
use std::collections::BTreeSet;

/// The ids that were looked up, and the commits among them whose parents weren't.
#[derive(Drop)]
pub(crate) struct Walk {
    seen: BTreeSet<ObjectId>,
    heap: Heap,
}

pub(crate) fn parents_of<O: Objects>(
    alloc: Global,
    graph: &Graph<O>,
    id: &ObjectId,
) -> Result<Vec<ObjectId>, AllocError>
    ensures { IfOk result (λ parents. IsSome (finite.get graph.now.graph.held id.now) → (c : Commit)
        → commit_at graph.now.graph.objects id.now ≡ Some c → parents.items ≡ c.parents) }
{
    let _held = graph.get(id);
    graph.parents(alloc, id)
}

impl Walk {
    /// A walk that has looked up nothing.
    pub fn new(alloc: Global) -> Walk
        ensures unseen { (q : ObjectId) → (search_of result).seen q ≡ false }
        ensures none { (q : ObjectId) → (search_of result).waits q ≡ false }
    {
        Walk {
            seen: BTreeSet::new(alloc),
            heap: Heap::new(alloc),
        }
    }

    /// How many ids were looked up.
    pub fn seen(&self) -> usize
        ensures len { result ≡ length self.now.seen.keys }
        ensures distinct { IsDistinct (eq_by_cmp id_cmp) self.now.seen.keys }
        ensures each { All (λ q. (search_of self.now).seen q ≡ true) self.now.seen.keys }
        ensures listed { (q : ObjectId) → (search_of self.now).seen q ≡ true → Contains self.now.seen.keys q }
    {
        self.seen.len()
    }

    /// Takes the newest commit whose parents weren't looked up.
    pub fn pop(&mut self) -> Option<Pending>
        ensures seen { self.new.seen ≡ self.old.seen }
        ensures len { OnSome result (waiting_len self.old.heap ≡ waiting_len self.new.heap + 1) }
        ensures taken { IfSome result (λ newest. (q : ObjectId)
            → waits_in self.old.heap q ≡ (eq_by_cmp id_cmp q newest.id || waits_in self.new.heap q)) }
        ensures newest { IfSome result (λ newest. All (λ p. p.time ≤ℤ newest.time) (heap_items self.new.heap.waiting)) }
        ensures none { IfNone result ((q : ObjectId) → waits_in self.old.heap q ≡ false) }
    {
        self.heap.pop()
    }

    // Records that an id is looked up. Returns whether it is new.
    fn note(&mut self, id: &ObjectId) -> Result<bool, AllocError>
        ensures heap { self.new.heap ≡ self.old.heap }
        ensures added { IfOk result (λ added. tree.contains id_cmp self.old.seen id.now ≡ not added) }
        ensures ok { OnOk result ((q : ObjectId) → tree.contains id_cmp self.new.seen q
            ≡ (eq_by_cmp id_cmp id.now q || tree.contains id_cmp self.old.seen q)) }
        ensures err { OnErr result ((q : ObjectId) → tree.contains id_cmp self.new.seen q ≡ tree.contains id_cmp self.old.seen q) }
    {
        match self.seen.insert(*id) {
            Ok(added) => Ok(added),
            Err(_) => Err(AllocError),
        }
    }

    /// Looks up an id, unless it was looked up before. A commit that is found is queued.
    pub fn look<O: Objects>(
        &mut self,
        graph: &mut Graph<O>,
        id: &ObjectId,
    ) -> Result<(), ObjectError>
        ensures by_time { OnOk result (WaitByTime graph.old.graph.objects self.old.heap
            → WaitByTime graph.old.graph.objects self.new.heap) }
        ensures explores { OnOk result (Explores graph.old.graph.objects (id.now ∷ []) (search_of self.old) (search_of self.new)) }
        ensures more { SeesMore (id.now ∷ []) (search_of self.old) (search_of self.new) }
        ensures holds { OnOk result (HoldsWaiting graph.old.graph (search_of self.old)
            → HoldsWaiting graph.new.graph (search_of self.new)) }
        ensures graph { LooksUp graph.old.graph graph.new.graph }
        ensures asked { KeepsAsked graph.old.graph (search_of self.old) (search_of self.new) graph.old.asked graph.new.asked }
        ensures unrefused { OnOk result (graph.new.refusals ≡ graph.old.refusals) }
        ensures refused { IfErr result (λ e. ErrorIsRefusal e graph.old.refusals graph.new.refusals) }
        ensures failures { graph.old.failures ≤ graph.new.failures }
        ensures failed { IfErr result (λ e. (e ≡ Memory) ⊎ HasRisen graph.old.failures graph.new.failures) }
    {
        match self.note(id) {
            Ok(true) => {}
            Ok(false) => return Ok(()),
            Err(_) => return Err(ObjectError::Memory),
        }
        let Some((time, _)) = graph.lookup(id)? else {
            return Ok(());
        };
        match self.heap.push(time, *id) {
            Ok(()) => Ok(()),
            Err(_) => Err(ObjectError::Memory),
        }
    }

    /// Looks at each of these ids, in their order.
    pub fn look_each<O: Objects>(
        &mut self,
        graph: &mut Graph<O>,
        ids: &[ObjectId],
    ) -> Result<(), ObjectError>
        ensures explores { OnOk result (Explores graph.old.graph.objects ids.now (search_of self.old) (search_of self.new)) }
        ensures more { SeesMore ids.now (search_of self.old) (search_of self.new) }
        ensures holds { OnOk result (HoldsWaiting graph.old.graph (search_of self.old)
            → HoldsWaiting graph.new.graph (search_of self.new)) }
        ensures graph { LooksUp graph.old.graph graph.new.graph }
        ensures asked { KeepsAsked graph.old.graph (search_of self.old) (search_of self.new) graph.old.asked graph.new.asked }
        ensures unrefused { OnOk result (graph.new.refusals ≡ graph.old.refusals) }
        ensures refused { IfErr result (λ e. ErrorIsRefusal e graph.old.refusals graph.new.refusals) }
        ensures failures { graph.old.failures ≤ graph.new.failures }
        ensures failed { IfErr result (λ e. (e ≡ Memory) ⊎ HasRisen graph.old.failures graph.new.failures) }
    {
        for id in ids {
            self.look(graph, id)?;
        }
        Ok(())
    }
}
