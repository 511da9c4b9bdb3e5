//! The nodes that a walk has visited.
ghost use Rattle.std.specs.Prelude.{◌≡◌, ℕ, ◌==◌, ◌||◌, not, [], IfOk, OnOk, OnErr};
ghost use Rattle.gixp_graph.specs.Visited.{has};

use std::alloc::{AllocError, Global};
use std::marker::Model;

/// A set of node numbers, with a bit for each.
#[derive(Drop)]
pub(crate) struct Visited {
    bits: Vec<bool>,
}

impl Model for Visited {
    ghost use Rattle.std.specs.Prelude.{List, Bool};

    ghost Value = { List Bool };

    ghost view = { λ a. a.bits.items };
}

impl Visited {
    /// Creates an empty set of visited commits.
    pub fn new(alloc: Global) -> Self
        ensures { result ≡ [] }
    {
        Visited {
            bits: Vec::new(alloc),
        }
    }

    /// Adds a number. Returns whether it is new.
    pub fn insert(&mut self, number: usize) -> Result<bool, AllocError>
        ensures new { IfOk result (λ is_new. has self.old number ≡ not is_new) }
        ensures ok { OnOk result ((n : ℕ) → has self.new n ≡ (n == number || has self.old n)) }
        ensures err { OnErr result (self.new ≡ self.old) }
    {
        if number >= self.bits.len() {
            let Some(count) = number.checked_add(1) else {
                return Err(AllocError);
            };
            self.bits.resize(count, false)?;
        }
        let is_new = !self.bits[number];
        self.bits[number] = true;
        Ok(is_new)
    }
}
