//! Interrupts.
ghost use Rattle.std.specs.Prelude.{◌≡◌, Bool, false};

use std::cell::Cell;

/// Decides whether to stop reading.
pub trait Interrupt {
    // What a call may return, and what it leaves.
    ghost polls: { Self → Bool → Self → Type 0 };

    /// Whether to stop reading. It is called after each packet of bands 2 and 3.
    fn is_interrupted(&mut self) -> bool
        ensures { polls self.old result self.new };
}

/// An interrupt that never stops.
#[derive(Clone, Copy, Debug, PartialEq, Eq, Drop)]
pub struct NeverInterrupt;

impl Interrupt for NeverInterrupt {
    ghost polls = { λ old answer new. answer ≡ false };

    fn is_interrupted(&mut self) -> bool {
        false
    }
}

/// An interrupt that returns the current value of a shared flag.
#[derive(Drop)]
pub struct InterruptFlag<'a> {
    flag: &'a Cell<bool>,
}

impl<'a> InterruptFlag<'a> {
    /// Uses this flag. Whoever shares it may set it.
    pub fn new(flag: &'a Cell<bool>) -> InterruptFlag<'a> {
        InterruptFlag { flag }
    }
}

impl Interrupt for InterruptFlag<'_> {
    ghost polls = { λ old answer new. new ≡ old };

    fn is_interrupted(&mut self) -> bool {
        self.flag.get()
    }
}
