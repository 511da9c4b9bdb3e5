//! The client side of git's fetch protocol, versions 0, 1 and 2, under the paths of the Rust crate
//! `gix-protocol`.
//!
//! A client begins with `client::Session`, over any transport. A session performs the handshake, lists and maps refs, and fetches a
//! pack into a consumer. The other modules have the parts of a session, which can also be used alone.
#![tactic(auto)]

pub mod client;
pub mod fetch;
pub mod handshake;
pub mod refspec;
pub mod transport;

pub use gixp_handshake::{
    Handshake, SendFlushOnDrop, bisync, credentials, indicate_end_of_interaction,
};
pub use gixp_hash::ObjectId;
pub use gixp_progress::RemoteProgress;
pub use gixp_refmap::{LsRefsCommand, ls_refs};
pub use gixp_requests::{Command, agent, agent_feature, command};
