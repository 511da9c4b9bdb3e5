//! The program `gixp_remote`: a remote helper of git. A shell starts and ends the other programs.
#![tactic(auto)]

mod boundary;
mod connect;
mod connectivity;
mod error;
mod fetch_result;
mod fetching;
mod first_haves;
mod fsck;
mod helper;
mod history;
mod job;
mod listing;
mod migrate;
mod pack;
mod paths;
mod pipes;
mod readiness;
mod relay;
mod repository;
mod server_config;
mod session_id;
mod setup;
mod shallow_observer;
mod shell;
mod transport;
mod unpacking;
mod uris;
mod web;

use crate::error::{Error, print_error};
use crate::helper::converse;
use std::process::ExitCode;

/// Runs the helper. Standard input and output are git's. The working directory is the folder of the
/// shell's open files (`/proc/PID/fd`). The arguments are the mark of the helper, the name of the
/// terminal, the pipe to the shell and the pipe from it. The exit status is 0, or 128 after an
/// error, which is printed on standard error.
pub fn run(rt: &HostRuntime) -> ExitCode {
    match converse(rt) {
        Ok(()) => ExitCode::SUCCESS,
        Err(Error::AlreadyReported) => ExitCode::from(128),
        Err(e) => {
            print_error(rt, e.prefix(), &e);
            ExitCode::from(128)
        }
    }
}
