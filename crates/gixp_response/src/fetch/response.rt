//! Responses to a fetch request, and their lines (gitprotocol-v2, "fetch"; gitprotocol-pack, "Packfile Negotiation").

pub(crate) mod answer;
mod beginnings;
mod error;
mod line;
mod repeats;
mod sections;

pub use error::{Error, RequiredFeature};
pub use gixp_shallow::ShallowUpdate;
pub use line::{Acknowledgement, WantedRef, shallow_update_from_line};
