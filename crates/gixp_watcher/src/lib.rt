//! A client with its own implementations of the traits: a repository in sorted lists, a listener that counts, and a consumer with a
//! limit.
#![tactic(auto)]

mod listener;
mod objects;
mod pack;
mod promised;
mod refs;
mod row;
mod rows;
mod status;
#[cfg(test)]
mod tests;
mod watch;

pub use listener::Counted;
pub use objects::SortedObjects;
pub use pack::{LimitedPack, PackTooLarge};
pub use promised::promised_fetch;
pub use refs::SortedRefs;
pub use row::ReadError;
pub use rows::{ObjectRow, RefRow};
pub use status::exit_status;
pub use watch::{Fetches, fetch_twice};
