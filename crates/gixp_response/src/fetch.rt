//! Responses to a fetch request (gitprotocol-v2, "fetch"; gitprotocol-pack, "Packfile Negotiation").
pub mod response;

pub use response::answer::Response;
