//! The exports for programs in C, Rust and other languages: the calls of `gixp_calls`.
#![tactic(auto)]

mod mapping;
mod next;
mod reading;
mod texts;

pub use mapping::{gixp_map, gixp_prefixes};
pub use next::gixp_next;
pub use reading::{gixp_advertised, gixp_piece, gixp_refs};
pub use texts::gixp_error_text;
