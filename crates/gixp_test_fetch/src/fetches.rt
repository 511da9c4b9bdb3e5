//! Whole fetches, their failures, and what they leave.

mod children;
mod consumers;
mod errors;
mod progress;
mod repository;
mod runs;
mod sessions;
mod stores;
