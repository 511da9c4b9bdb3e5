//! The objects of a repository that its refs reach. After an interrupted fetch a repository may have a commit without its
//! history. A fetch over all objects then doesn't request that history; a fetch over these objects does.
#![tactic(auto)]

pub mod ids;
mod reachable;
mod reached;

pub use reachable::reachable_objects;
pub use reached::Reached;
