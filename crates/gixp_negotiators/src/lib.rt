//! git's negotiators: which commits are offered as haves, and in which order.
#![tactic(auto)]

mod algorithm;
mod consecutive;
mod have_list;
pub mod laws;
mod marks;
mod noop;
mod queue;
mod same;
mod skipping;

pub use algorithm::{Algorithm, AnyNegotiator};
pub use consecutive::Consecutive;
pub use have_list::HaveList;
pub use noop::Noop;
pub use skipping::Skipping;
