//! Refspecs of `git fetch` (git-fetch, "<refspec>"): how they are read and written, which names their sources match,
//! and their prefixes for `ls-refs`. The mappings of a list of refspecs are in `gixp_matching`.
#![tactic(auto)]

pub mod by_id;
pub mod instruction;
pub mod name;
pub mod needle;
pub mod parse;
mod prefixes;
mod same;
pub mod spec;
pub mod spelling;
pub mod text;

pub use instruction::Instruction;
pub use name::PartialName;
pub use spec::{RefSpec, RefSpecRef};
