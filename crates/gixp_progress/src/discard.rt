//! A progress reporter that shows nothing.
ghost use Rattle.std.specs.Prelude.{⊤, None};

use crate::progress::{NestedProgress, Progress};
use std::alloc::AllocError;

/// Shows nothing, for callers without a progress reporter of their own.
#[derive(Clone, Copy, Debug, Drop)]
pub struct Discard;

impl Progress for Discard {
    ghost reported = { λ _ _ _. ⊤ };

    ghost name_of = { λ _. None };

    fn init(&mut self, _max: Option<usize>, _unit: &'static str) {}

    fn step(&mut self) {}

    fn set(&mut self, _step: usize) {}

    fn set_name(&mut self, _name: String) {}

    fn name(&self) -> Option<&str> {
        None
    }

    fn fail(&mut self, _message: String) {}
}

impl NestedProgress for Discard {
    type SubProgress = Discard;

    ghost adds = { λ _ _ _ _ _. ⊤ };

    fn add_child_with_id(&mut self, _name: &str, _id: [u8; 4]) -> Result<Discard, AllocError> {
        Ok(Discard)
    }
}
