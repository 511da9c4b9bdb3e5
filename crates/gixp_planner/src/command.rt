//! The commands of the program `gixp_plan`: `refs FILE` lists the refs of a recorded answer, and `plan DIR SPEC..` prints what
//! a client would send to a server and what it would map.
mod argv;
mod failure;
mod plan;

use crate::command::argv::{plan_args, refs_file};
use crate::command::failure::{Failure, status_of};
use crate::command::plan::{spec_texts, write_plan};
use crate::error::PlanError;
use crate::listing::list_refs;
use crate::recording::{read_bodies, read_haves};
use std::fs::File;
use std::process::ExitCode;
use std::{env, io};

fn read_words(rt: &HostRuntime) -> Result<Vec<String>, Failure> {
    let words = env::args(rt).map_err(|e| Failure::of_words(e.kind()))?;
    match words.collect::<Vec<String>>(rt.alloc()) {
        Ok(words) => Ok(words),
        Err(_) => Err(Failure::Refused("Memory")),
    }
}

// Prints the refs of a file.
fn run_refs(rt: &HostRuntime, path: &str) -> Result<(), Failure> {
    let mut file = File::open(rt, path).map_err(|_| Failure::Refused("Io"))?;
    let mut writer = io::writer(rt);
    list_refs(rt.alloc(), &mut file, &mut writer).map_err(|e| Failure::of_list(e))
}

// Prints the plan over the recorded session of a folder.
fn run_plan(rt: &HostRuntime, folder: &str, words: &[String]) -> Result<(), PlanError> {
    let bodies = read_bodies(rt, folder)?;
    let haves = read_haves(rt, folder)?;
    let specs = spec_texts(rt.alloc(), words)?;
    let mut writer = io::writer(rt);
    write_plan(rt.alloc(), bodies, haves, &specs, &mut writer)
}

fn run_command(rt: &HostRuntime) -> Result<(), Failure> {
    let words = read_words(rt)?;
    if let Some(path) = refs_file(words.as_slice()) {
        return run_refs(rt, path);
    }
    match plan_args(words.as_slice()) {
        Some((folder, specs)) => run_plan(rt, folder, specs).map_err(|e| Failure::Unplanned(e)),
        None => Err(Failure::Usage),
    }
}

/// Runs the command of the command line, and prints on standard output.
///
/// The status is 0; 1 after a failure, whose name is printed on standard error; or 2 where the words don't fit the usage, which is
/// printed there.
pub fn run(rt: &HostRuntime) -> ExitCode {
    let ended = run_command(rt);
    if let Err(failure) = &ended {
        let _ = eprintln!(rt; "{failure}");
    }
    status_of(&ended)
}
