//! A priority queue of nodes, the newest first.
ghost use Rattle.std.specs.Prelude.{◌≡◌, ◌≤ℤ◌, ◌⊎◌, IfSome, IfNone, OnOk, [], ◌∷◌, All};
ghost use Rattle.std.specs.List.Sorted.{IsPermutation};
ghost use Rattle.gixp_graph.specs.Queue.{entry_at};

use crate::times::Times;
use std::alloc::{AllocError, Global};
use std::marker::Model;

/// A queued node number with its time.
#[derive(Clone, Copy)]
pub(crate) struct Entry {
    pub time: i64,
    pub number: usize,
}

/// A queue of node numbers, the newest first.
///
/// The newest number may be stored apart from the map of the others. Most commits of a history are taken right after they
/// were added, and so never enter the map.
#[derive(Drop)]
pub(crate) struct TimeQueue {
    newest: Option<Entry>,
    others: Times,
}

impl Model for TimeQueue {
    ghost use Rattle.std.specs.Prelude.{List, ◌++◌};
    ghost use Rattle.gixp_graph.specs.declared.queue.Entry.{Entry};
    ghost use Rattle.gixp_graph.specs.Queue.{first_of, IsNewest};

    ghost Value = { List Entry };

    ghost view = { λ a. first_of a.newest ++ a.others };

    ghost invariant = { λ a. IsNewest a.newest a.others };
}

fn newer_first(a: Entry, b: Entry) -> (Entry, Entry)
    ensures both { (result ≡ (a, b)) ⊎ (result ≡ (b, a)) }
    ensures newer { result.1.time ≤ℤ result.0.time }
{
    if b.time <= a.time { (a, b) } else { (b, a) }
}

impl TimeQueue {
    /// Creates an empty queue.
    pub fn new(alloc: Global) -> Self
        ensures { result ≡ [] }
    {
        TimeQueue {
            newest: None,
            others: Times::new(alloc),
        }
    }

    /// Adds a number. An error may lose queued numbers.
    pub fn push(&mut self, time: i64, number: usize) -> Result<(), AllocError>
        ensures { OnOk result (IsPermutation (entry_at time number ∷ self.old) self.new) }
    {
        let entry = Entry { time, number };
        let Some(newest) = self.newest else {
            if self.others.is_newest(time) {
                self.newest = Some(entry);
                return Ok(());
            }
            return self.others.push(entry);
        };
        let (first, later) = newer_first(entry, newest);
        self.newest = None;
        self.others.push(later)?;
        self.newest = Some(first);
        Ok(())
    }

    /// Takes an entry with the greatest time.
    pub fn pop_newest(&mut self) -> Option<Entry>
        ensures taken { IfSome result (λ newest. IsPermutation self.old (newest ∷ self.new)) }
        ensures newest { IfSome result (λ newest. All (λ e. e.time ≤ℤ newest.time) self.new) }
        ensures none { IfNone result (self.old ≡ []) }
    {
        let Some(newest) = self.newest else {
            return self.others.pop_newest();
        };
        self.newest = None;
        Some(newest)
    }
}
