//! The next request of a session, computed from the responses so far. For a caller that sends and receives by itself, for example
//! over HTTP.
#![tactic(auto)]

mod by_id;
mod consumer;
mod error;
mod filter;
mod losses;
mod read;
mod session;
mod step;
mod table;

pub use consumer::{LeavePack, Left};
pub use error::EngineError;
pub use filter::FilterOnce;
pub use read::{filter_of, ids_of, names_of, specs_of};
pub use session::Received;
pub use step::{EngineStep, SessionInput, next_step};
