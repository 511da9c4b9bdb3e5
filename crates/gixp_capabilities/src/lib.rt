//! The capabilities of a server, and the errors of calls to it.
#![tactic(auto)]

mod capabilities;
pub mod client;
pub mod text;

pub use capabilities::{Capabilities, Capability, CapabilityIter};
