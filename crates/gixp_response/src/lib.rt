//! Responses to a fetch request in git's fetch protocol, up to the pack.
#![tactic(auto)]

pub mod fetch;
pub mod laws;
mod same;
