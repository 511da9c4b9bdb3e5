//! Fetch requests (gitprotocol-v2, "fetch"; gitprotocol-pack, "Packfile Negotiation").
pub mod arguments;

pub use arguments::Arguments;
