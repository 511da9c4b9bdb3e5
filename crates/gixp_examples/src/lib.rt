//! Uses of `gix_protocol`, as a caller writes them. Nothing else is used.
#![tactic(auto)]

mod clauses;
mod fetches;
mod first_fetch;
mod local_refs;
mod maps;
mod mirror;
mod promised;
mod refs;
mod remote_listing;
mod stored;
#[cfg(test)]
mod tests;
mod whole_fetch;

pub use clauses::{marked_complete, read_answer, read_pack, read_spec};
pub use fetches::fetch_one;
pub use first_fetch::branches;
pub use local_refs::{has_failed, refs_to_write};
pub use maps::mapped_branches;
pub use mirror::plan_mirror;
pub use promised::promised_fetch;
pub use refs::{recorded_refs, refs_of_bytes, refs_of_file};
pub use remote_listing::{ls_remote, print_remote_refs};
pub use stored::stored_repository;
pub use whole_fetch::fetch_from;
