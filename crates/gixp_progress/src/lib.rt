//! Progress reporters, and the progress that a server reports on band 2 of its response (gitprotocol-pack, "Packfile
//! Data"), with the calls that it becomes.
#![tactic(auto)]

mod discard;
pub mod fetch;
pub mod laws;
mod numbers;
mod progress;
mod remote_progress;
mod same;
mod translate;

pub use discard::Discard;
pub use progress::{NestedProgress, Progress};
pub use remote_progress::RemoteProgress;
