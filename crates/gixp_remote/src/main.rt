//! A remote helper of git. `git-remote-gixp` starts it as
//! `gixp_remote MARK TERMINAL REQUESTS ANSWERS`, in the folder of its own open files.
#![tactic(auto)]

use gixp_remote_session::run;
use std::process::ExitCode;

fn main(rt: HostRuntime) -> ExitCode {
    run(&rt)
}
