//! The boundary of a shallow repository: the commits whose parents are missing (gitprotocol-pack, "Packfile
//! Negotiation"). How a fetch changes it, the updates of a server, its text and its stores.
#![tactic(auto)]

mod boundary;
pub mod laws;
mod same;
mod shallow;
mod store;
mod text;
mod update;

pub use boundary::new_boundary;
pub use shallow::Shallow;
pub use store::file::ShallowFile;
pub use store::memory::ShallowMemory;
pub use store::{ShallowError, ShallowStore};
pub use text::{shallow_ids, shallow_text};
pub use update::ShallowUpdate;
