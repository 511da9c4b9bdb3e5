//! The responses of a stateless server, as `git remote-https` passes them on: the capability advertisement, and then
//! each response with a response-end packet after it (gitremote-helpers, "stateless-connect"; gitprotocol-v2,
//! "Packet-Line Framing").
#![tactic(auto)]

mod answers;
pub mod laws;
mod place;

pub use place::Answers;
