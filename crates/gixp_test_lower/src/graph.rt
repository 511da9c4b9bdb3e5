//! The commit graph, and the complete commits by a slow reference program that is proved against their definition.

mod calls;
mod repository;
mod slow;
mod stores;
mod texts;
mod walks;
