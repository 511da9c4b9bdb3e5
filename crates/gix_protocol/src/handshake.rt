//! The handshake with a server: its capability advertisement, the refs of versions 0 and 1, and ref maps made from it.
pub use gixp_handshake::handshake::{Error, ObtainRefMap, handshake, obtain, obtain_mappings};
pub use gixp_refs::handshake::{Ref, refs};
