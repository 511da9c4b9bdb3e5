//! Checks whether the bytes of a stream are a whole pack, piece by piece (gitformat-pack).
#![tactic(auto)]

mod check;
mod same;

pub use check::{CheckError, PackCheck, PackSummary};
