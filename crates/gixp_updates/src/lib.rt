//! The local refs after a fetch: how each one is updated.
#![tactic(auto)]

pub mod refs;
mod same;
