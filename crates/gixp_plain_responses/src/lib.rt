//! The responses of servers of versions 0 and 1 that lack `multi_ack_detailed` or a side-band: a reader that makes of
//! them what a server with both sends (gitprotocol-pack, "Packfile Negotiation", "Packfile Data";
//! gitprotocol-capabilities, "multi_ack", "multi_ack_detailed", "side-band, side-band-64k").
#![tactic(auto)]

pub mod laws;
mod line;
mod place;
mod reader;
mod room;

pub use place::PlainResponses;
