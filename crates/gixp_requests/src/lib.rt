//! The requests of git's fetch protocol: their features, arguments and lines.
#![tactic(auto)]

pub mod command;
pub mod fetch;
mod same;
mod util;

pub use command::Command;
pub use util::{agent, agent_feature};
