//! What two programs share that fetch, `gixp_fetch_pack` and the remote helper: a session's calls with their failures, the pack's
//! receiver and its place, the check of a pack that is copied, the negotiator over a list of commits, and questions about objects.
#![tactic(auto)]

mod batch_check;
mod boundary;
mod copy;
mod error_kind;
pub mod failure;
mod hang_up;
mod haves;
mod known_commits;
pub mod listed_commits;
pub mod messages;
pub mod negotiate;
mod pack_place;
pub mod receive;
mod receive_error;
pub mod repository;
mod sanitize;
pub mod session;

pub use batch_check::{BatchCheck, BatchCheckError, named_ids};
pub use boundary::boundary_to_write;
pub use copy::copy_pack;
pub use haves::Haves;
pub use pack_place::{PackFile, PackPlace};
pub use receive_error::ReceiveError;
pub use sanitize::sanitized;
