//! A repository in memory: objects and refs, filled from lists or from the output of git commands.
#![tactic(auto)]

mod same;
mod stored_objects;
mod stored_refs;
mod texts;

pub use stored_objects::StoredObjects;
pub use stored_refs::{NoAlternates, StoredRefs};
pub use texts::TextError;
