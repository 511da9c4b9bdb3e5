//! A queue of commits by time.
ghost use Rattle.std.specs.Prelude.{◌≡◌, ◌≤◌, ◌<◌, ◌⊎◌, ◌+◌, ◌-◌, ◌^◌, ◌≤ℤ◌, ◌∷◌, [], All, OnOk, OnSome, IfSome, IfNone};
ghost use Rattle.std.specs.BinaryHeap.{heap_len, heap_items, IsHeap};
ghost use Rattle.std.specs.List.Sorted.{IsPermutation};
ghost use Rattle.std.proofs.Props.{props};
ghost use Rattle.gixp_negotiators.specs.Waiting.{waiting_cmp, waiting_at};
ghost use Rattle.gixp_negotiators.specs.Newest.{IsNewestWaiting};

use gixp_hash::ObjectId;
use std::alloc::{AllocError, Global};
use std::collections::BinaryHeap;

/// A queued commit. The greater one is taken first: the newer one, and of two with the same time the one that was
/// queued first.
#[derive(Clone, Copy, PartialEq, Eq, PartialOrd, Ord)]
pub(crate) struct Waiting {
    pub time: i64,
    pub rank: u64,
    pub id: ObjectId,
}

/// Queued commits, the newest first; commits with the same time in the order in which they were queued.
#[derive(Drop)]
pub(crate) struct Queue {
    waiting: BinaryHeap<Waiting>,
    // The rank of the next commit. It falls.
    rank: u64,
    ghost ordered: { IsHeap waiting_cmp (heap_items waiting) } by { Prim.hlevel props },
}

impl Queue {
    /// Creates an empty queue.
    pub fn new(alloc: Global) -> Queue
        ensures len { heap_len result.waiting ≡ 0 }
        ensures empty { heap_items result.waiting ≡ [] }
        ensures rank { result.rank ≡ 2 ^ 64 - 1 }
    {
        Queue {
            waiting: BinaryHeap::new(alloc),
            rank: u64::MAX,
        }
    }

    /// Adds a commit of this time. Fails if an allocation fails, or if 2^64 - 1 commits were added before.
    pub fn push(&mut self, time: i64, id: ObjectId) -> Result<(), AllocError>
        ensures ok { OnOk result (heap_len self.new.waiting ≡ heap_len self.old.waiting + 1) }
        ensures waits { OnOk result (IsPermutation (waiting_at time self.old.rank id ∷ heap_items self.old.waiting)
            (heap_items self.new.waiting)) }
        ensures rank { OnOk result (self.new.rank + 1 ≡ self.old.rank) }
    {
        let rank = self.rank;
        let Some(next) = rank.checked_sub(1) else {
            return Err(AllocError);
        };
        match self.waiting.push(Waiting { time, rank, id }) {
            Ok(()) => {
                self.rank = next;
                Ok(())
            }
            Err(_) => Err(AllocError),
        }
    }

    /// Takes the first commit.
    pub fn pop(&mut self) -> Option<Waiting>
        ensures some { OnSome result (heap_len self.new.waiting + 1 ≡ heap_len self.old.waiting) }
        ensures taken { IfSome result (λ first. IsPermutation (heap_items self.old.waiting) (first ∷ heap_items self.new.waiting)) }

        // The newest; of those with its time, the one that was queued first.
        ensures newest { IfSome result (λ first. All (λ w. w.time ≤ℤ first.time) (heap_items self.new.waiting)) }
        ensures earliest { IfSome result (λ first. All (λ w. w.time ≡ first.time → w.rank ≤ first.rank) (heap_items self.new.waiting)) }
        ensures none { IfNone result (heap_items self.old.waiting ≡ []) }
        ensures stays { IfNone result (heap_items self.new.waiting ≡ heap_items self.old.waiting) }
        ensures rank { self.new.rank ≡ self.old.rank }
    {
        self.waiting.pop()
    }

    /// Takes the first commit, unless all queued commits are common. `uncommon` counts those that aren't.
    pub fn pop_unless_all_common(&mut self, uncommon: usize) -> Option<Waiting>
        ensures some { OnSome result (heap_len self.new.waiting + 1 ≡ heap_len self.old.waiting) }
        ensures open { OnSome result (0 < uncommon) }
        ensures taken { IfSome result (λ first. IsPermutation (heap_items self.old.waiting) (first ∷ heap_items self.new.waiting)) }
        ensures newest { IfSome result (IsNewestWaiting (heap_items self.new.waiting)) }
        ensures none { IfNone result ((uncommon ≡ 0) ⊎ (heap_items self.old.waiting ≡ [])) }
        ensures stays { IfNone result (heap_items self.new.waiting ≡ heap_items self.old.waiting) }
        ensures same { uncommon ≡ 0 → self.new ≡ self.old }
    {
        if uncommon == 0 {
            return None;
        }
        self.pop()
    }
}
