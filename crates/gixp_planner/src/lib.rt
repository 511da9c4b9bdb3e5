//! What a client would send to a server and what it would map, planned over recorded answers; the refs of a recorded answer; and
//! the run of the program `gixp_plan`.
#![tactic(auto)]

mod command;
mod error;
mod haves;
pub mod laws;
pub mod listing;
mod names;
mod negotiation;
mod planning;
mod print;
mod printed;
mod recording;
mod refspecs;
mod session;

pub use command::run;
pub use error::PlanError;
pub use haves::parse_haves;
pub use planning::plan;
pub use recording::{read_bodies, read_haves};
