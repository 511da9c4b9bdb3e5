//! `gixp_plan refs FILE` lists the refs of a recorded answer, and `gixp_plan plan DIR SPEC..` prints what a client would send
//! to a server and what it would map. Its stored run plans over the recorded session of `data/`.
#![tactic(auto)]

use gixp_planner::run;
use std::process::ExitCode;

fn main(rt: HostRuntime) -> ExitCode {
    run(&rt)
}
