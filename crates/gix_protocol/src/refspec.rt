//! Refspecs, and their mappings of a server's refs.
pub use gixp_matching::{MatchGroup, laws, match_group};
pub use gixp_refspec::{Instruction, PartialName, RefSpec, RefSpecRef, instruction, parse};
