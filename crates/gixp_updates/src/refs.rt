//! The local refs after a fetch: which are written, and which refspecs matched nothing.
pub mod ancestor;
mod edit;
mod error;
mod heap;
mod mode;
mod named;
pub mod unmatched;
pub mod update;
mod walk;
mod written;

pub use edit::{Edit, Update};
