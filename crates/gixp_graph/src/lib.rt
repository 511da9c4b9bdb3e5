//! The commit graph of a negotiation: held commits, their marks, and the walk that marks the complete ones.
#![tactic(auto)]

mod commits;
mod empty;
pub mod flags;
pub mod graph;
pub mod negotiator;
mod numbers;
pub mod objects;
mod queue;
pub mod refs;
mod same;
pub mod shared;
mod times;
mod visited;
mod walk;

pub use empty::{NoObjects, NoRefs};
pub use flags::Flags;
pub use graph::Graph;
pub use negotiator::{Negotiator, NegotiatorError};
pub use objects::{CommitData, ObjectError, ObjectKind, Objects};
pub use refs::{RefStore, RefStoreError};
pub use shared::{Find, Shared};
