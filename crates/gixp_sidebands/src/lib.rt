//! The sidebands of git's fetch protocol: the content on band 1, and the messages between its packets on bands 2 and 3.
#![tactic(auto)]

pub mod laws;
mod sidebands;

pub use sidebands::{BandText, Interrupt, InterruptFlag, NeverInterrupt, WithSidebands};
