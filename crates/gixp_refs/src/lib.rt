//! The refs of a server in git's fetch protocol: from lines to refs.
#![tactic(auto)]

pub mod handshake;
pub mod laws;
mod same;
mod trim;
