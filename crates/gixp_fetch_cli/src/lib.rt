//! The command line of `gixp_fetch_pack`: its options, what becomes of the local refs, the report, and the run of the program.
#![tactic(auto)]

mod change;
mod command_line;
mod connection;
mod files;
mod history;
mod missing;
mod options;
mod program;
mod report;
mod request;
mod streams;
mod usage;

pub use program::run;
