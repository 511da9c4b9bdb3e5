//! Packs that a server names by URIs instead of sending their objects: a reader that removes the section
//! `packfile-uris` from each response (gitprotocol-v2, "fetch"; git's "Packfile URIs").
#![tactic(auto)]

pub mod laws;
mod line;
mod place;
mod reader;

pub use place::{MOST_URIS, PackfileUris, UriSink};
