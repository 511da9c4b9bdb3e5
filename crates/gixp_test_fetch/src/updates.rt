//! Updates of local refs, over small repositories in memory. The expected modes are what git 2.39.5 does in the same
//! repositories, in gitoxide's terms.

mod ancestors;
mod modes;
mod repository;
mod unmatched;
