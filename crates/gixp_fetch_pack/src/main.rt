//! `gixp_fetch_pack [OPTION..] FROM TO PACK SPEC..` fetches from a server that speaks over two files, as the two ends of
//! `git upload-pack`, and `gixp_fetch_pack --list [OPTION..] FROM TO` lists its refs. `--help` lists the options.
#![tactic(auto)]

use gixp_fetch_cli::run;
use std::process::ExitCode;

fn main(rt: HostRuntime) -> ExitCode {
    run(&rt)
}
