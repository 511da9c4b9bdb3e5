//! The exports for pages and for JavaScript: the calls of `gixp_calls`, and memory for their arguments.
#![tactic(auto)]

mod mapping;
mod memory;
mod next;
mod reading;
mod texts;

pub use mapping::{gixp_map, gixp_prefixes};
pub use memory::{gixp_give, gixp_take};
pub use next::gixp_next;
pub use reading::{gixp_advertised, gixp_piece, gixp_refs};
pub use texts::gixp_error_text;
