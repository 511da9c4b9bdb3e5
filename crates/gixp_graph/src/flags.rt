//! Marks of commits.
ghost use Rattle.std.specs.Prelude.{⊤, ◌≡◌, [], ◌∷◌, codes};

use bitflags::{Flag, bitflag_items};

/// A set of marks of a commit, one bit each. A graph stores them, and sets only COMPLETE itself.
#[derive(Clone, Copy, Debug, PartialEq, Eq)]
pub struct Flags(pub u8);

bitflag_items! {
    impl Flags: u8 {
        /// The repository has it for certain: a local ref leads to it, through commits that aren't older than the cutoff.
        const COMPLETE = 1;
        /// The server has it.
        const COMMON = 2;
        /// The server has it, as a ref that it advertised.
        const COMMON_REF = 4;
        /// A negotiator has seen it.
        const SEEN = 8;
        /// A negotiator has taken it from its queue.
        const POPPED = 16;
    }
}

impl bitflags::Flags for Flags {
    type Bits = u8;

    ghost exact = { ⊤ };

    ghost table = { (codes "COMPLETE", 1) ∷ (codes "COMMON", 2) ∷ (codes "COMMON_REF", 4) ∷ (codes "SEEN", 8) ∷ (codes "POPPED", 16) ∷ [] };

    ghost set_of = { λ flags. flags.0 };

    fn flags<'a>() -> &'a [Flag<Flags>] {
        Flags::FLAGS
    }

    fn bits(&self) -> u8 {
        self.0
    }

    fn from_bits_retain(bits: u8) -> Flags {
        Flags(bits)
    }
}
