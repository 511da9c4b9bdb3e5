//! Negotiations: second tries, alternates that can't be opened, and responses that acknowledge commits that nobody sent.

mod commons;
pub(crate) mod repository;
mod texts;
mod tries;
