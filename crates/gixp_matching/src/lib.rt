//! The mappings that refspecs make of the refs of a server, and their validation.
#![tactic(auto)]

pub mod laws;
pub mod match_group;
mod same;

pub use match_group::MatchGroup;
