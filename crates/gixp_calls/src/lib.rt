//! The calls of programs in other languages: bytes in, numbers out. No call keeps state, and each buffer belongs to the caller.
//! `gixp_c` and `gixp_web` export them.
#![tactic(auto)]

mod advertised;
mod bands;
mod code;
mod map;
mod next;
mod refs;
mod texts;

pub use advertised::list_advertised;
pub use bands::{PieceRecord, read_piece};
pub use map::{map_refs, write_prefixes};
pub use next::{SessionInputRecord, StepRecord, write_next};
pub use refs::{FoundRecord, list_refs};
pub use texts::write_error_text;
