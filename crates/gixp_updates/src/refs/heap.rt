//! A queue of commits whose parents weren't looked up yet.
ghost use Rattle.std.specs.BinaryHeap.{heap_items, IsHeap};
ghost use Rattle.std.proofs.Props.{props};
ghost use Rattle.gixp_updates.specs.Pending.{pending_cmp};

use gixp_hash::ObjectId;
use std::alloc::{AllocError, Global};
use std::collections::BinaryHeap;

/// A queued commit. The newer one is the greater.
#[derive(Clone, Copy, PartialEq, Eq, PartialOrd, Ord)]
pub(crate) struct Pending {
    pub time: i64,
    pub id: ObjectId,
}

/// Queued commits. The newest is taken first, so a search for a commit nearby ends early.
#[derive(Drop)]
pub(crate) struct Heap {
    waiting: BinaryHeap<Pending>,
    ghost ordered: { IsHeap pending_cmp (heap_items waiting) } by { Prim.hlevel props },
}

impl Heap {
    ghost use Rattle.std.specs.Prelude.{◌≡◌, ◌+◌, ◌∷◌, ◌||◌, ◌≤ℤ◌, All, IfSome, IfNone, OnOk, OnSome, false};
    ghost use Rattle.std.specs.Ordering.{eq_by_cmp};
    ghost use Rattle.std.specs.List.Sorted.{IsPermutation};
    ghost use Rattle.gixp_hash.specs.ObjectId.{id_cmp};
    ghost use Rattle.gixp_hash.specs.declared.object_id.ObjectId.{ObjectId};
    ghost use Rattle.gixp_updates.specs.Search.{waits_in, waiting_len};
    ghost use Rattle.gixp_updates.specs.Pending.{pending_at};

    /// Creates an empty heap.
    pub fn new(alloc: Global) -> Heap
        ensures len { waiting_len result ≡ 0 }
        ensures none { (q : ObjectId) → waits_in result q ≡ false }
    {
        Heap {
            waiting: BinaryHeap::new(alloc),
        }
    }

    /// Adds a commit of this time. Fails only if an allocation fails.
    pub fn push(&mut self, time: i64, id: ObjectId) -> Result<(), AllocError>
        ensures len { OnOk result (waiting_len self.new ≡ waiting_len self.old + 1) }
        ensures added { OnOk result (IsPermutation (pending_at time id ∷ heap_items self.old.waiting) (heap_items self.new.waiting)) }
        ensures waits { OnOk result ((q : ObjectId) → waits_in self.new q ≡ (eq_by_cmp id_cmp q id || waits_in self.old q)) }
    {
        match self.waiting.push(Pending { time, id }) {
            Ok(()) => Ok(()),
            Err(_) => Err(AllocError),
        }
    }

    /// Takes the newest commit.
    pub fn pop(&mut self) -> Option<Pending>
        ensures len { OnSome result (waiting_len self.old ≡ waiting_len self.new + 1) }
        ensures taken { IfSome result (λ newest. (q : ObjectId)
            → waits_in self.old q ≡ (eq_by_cmp id_cmp q newest.id || waits_in self.new q)) }
        ensures newest { IfSome result (λ newest. All (λ p. p.time ≤ℤ newest.time) (heap_items self.new.waiting)) }
        ensures none { IfNone result ((q : ObjectId) → waits_in self.old q ≡ false) }
    {
        self.waiting.pop()
    }
}
