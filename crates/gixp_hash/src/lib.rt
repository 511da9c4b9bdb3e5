//! Object ids, and the hash function that makes them.
#![tactic(auto)]

pub mod decode;
pub mod digits;
mod kind;
mod object_id;
mod same;

pub use kind::Kind;
pub use object_id::ObjectId;
