//! Git's negotiators over small histories: which commits they offer, in which order, and where they end.

pub(crate) mod history;
mod names;
mod walks;
