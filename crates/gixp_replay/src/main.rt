//! Replays recorded bytes: reads test vectors from files, passes each to the public calls of the crates that read and write
//! streams, and prints the results, one line per test vector.
//!
//! `gixp_replay FILE..` prints all lines, each after the name of its test vector. `gixp_replay --only NAME FILE..` prints those of
//! the test vector or the group with this name. The module `rows` describes test vectors.
#![tactic(auto)]

mod answer_lines;
mod answers;
mod bands;
mod boundaries;
mod capabilities;
mod fetches;
mod handshakes;
mod histories;
mod lines;
mod listings;
mod map_values;
mod maps;
mod negotiations;
mod offers;
mod openings;
mod packs;
mod places;
mod plans;
mod progress_lines;
mod refs;
mod refspecs;
mod report;
mod reporting;
mod requests;
mod rows;
mod scripts;
mod sessions;
mod shakes;
mod urls;
mod values;

use crate::report::{Report, Runs};
use crate::rows::{Mode, Row, RowError, RowText, next_row};
use gixp_doubles::Pieces;
use std::alloc::{AllocError, Global};
use std::io::{BufWriter, ErrorKind, Write};
use std::process::ExitCode;
use std::{env, fs, io};

const USAGE: &str = "usage: gixp_replay [--only NAME] FILE..";

// The errors of the program.
#[derive(Drop)]
enum Failure {
    // The command line is wrong, or isn't text.
    Usage,
    // A file can't be read, or a line can't be written.
    Io,
    Memory,
    // The test vector with this number and name is malformed.
    Row(u64, String, RowError),
    // No test vector has the requested name.
    Name(String),
}

fn failure_of(error: &io::Error) -> Failure {
    match error.kind() {
        ErrorKind::OutOfMemory => Failure::Memory,
        _ => Failure::Io,
    }
}

// Writes the result of a test vector whose bytes come as it says.
fn replay_whole(alloc: Global, row: &Row<'_>, report: &mut Report) -> Result<(), AllocError> {
    match row.mode {
        Mode::Lines => lines::report_calls(alloc, row, report),
        Mode::Bands => bands::report_calls(alloc, row, report),
        Mode::Refs => refs::report_refs(alloc, row, report),
        Mode::Handshake => handshakes::report_handshake(alloc, row, report),
        Mode::Places => places::report_places(alloc, row, report),
        Mode::Opening => openings::report_opening(alloc, row, report),
        Mode::Answer => answers::report_answer(alloc, row, report),
        Mode::Pack => packs::report_pack(alloc, row, report),
        Mode::Capabilities => capabilities::report_capabilities(alloc, row, report),
        Mode::AnswerLine => {
            answer_lines::report_line(alloc, row, report);
            Ok(())
        }
        Mode::Boundary => boundaries::report_boundary(alloc, row, report),
        Mode::Agent => requests::report_agent(alloc, row, report),
        Mode::Requests => requests::report_requests(alloc, row, report),
        Mode::Session => sessions::report_session(alloc, row, report),
        Mode::Refspec => refspecs::report_spec(alloc, row, report),
        Mode::RefName => refspecs::report_name(alloc, row, report),
        Mode::Prefixes => refspecs::report_prefixes(alloc, row, report),
        Mode::Matches => refspecs::report_matches(alloc, row, report),
        Mode::RefMap => maps::report_row(alloc, row, report),
        Mode::Account => shakes::report_shake(alloc, row, report),
        Mode::Listing => listings::report_listing(alloc, row, report),
        Mode::Progress => progress_lines::report_line(alloc, row, report),
        Mode::Fetch => fetches::report_fetch(alloc, row, report),
        Mode::Negotiation => negotiations::report_negotiation(alloc, row, report),
        Mode::Plan => plans::report_plan(alloc, row, report),
        Mode::Url => urls::report_url(alloc, row, report),
    }
}

// Writes the result of a test vector, or its result for each offset at which its bytes are split.
fn replay_row(alloc: Global, row: &Row<'_>, report: &mut Report) -> Result<(), AllocError> {
    if !row.is_halved {
        return replay_whole(alloc, row, report);
    }
    let mut result = Report::new(alloc);
    let mut runs = Runs::new(alloc, 1);
    for place in 1..row.payload.len() {
        let mut one = *row;
        one.pieces = Pieces::Two(place);
        result.clear();
        replay_whole(alloc, &one, &mut result)?;
        report.is_unknown |= result.is_unknown;
        runs.add(&result, report);
    }
    runs.finish(report);
    Ok(())
}

// The error of a test vector, with its number and its name.
fn failure_at(alloc: Global, number: u64, row: &RowText<'_>, error: RowError) -> Failure {
    if let RowError::Memory = error {
        return Failure::Memory;
    }
    match String::from_utf8_lossy(alloc, row.name) {
        Ok(name) => Failure::Row(number, name, error),
        Err(_) => Failure::Memory,
    }
}

// Writes the result of a test vector into an empty report.
fn report_row(alloc: Global, text: &RowText<'_>, report: &mut Report) -> Result<(), RowError> {
    let head = text.head()?;
    let bytes = text.bytes(alloc, &head)?;
    let row = head.with_bytes(&bytes);
    report.clear();
    if replay_row(alloc, &row, report).is_err() {
        return Err(RowError::Memory);
    }
    if report.is_unknown {
        return Err(RowError::Script);
    }
    Ok(())
}

// Writes the name of a test vector and its line.
fn write_line<W: Write>(name: &[u8], report: &Report, out: &mut W) -> Result<(), Failure> {
    let line = report.bytes().map_err(|_| Failure::Memory)?;
    for part in [name, b" ", line, b"\n"] {
        out.write_all(part).map_err(|e| failure_of(&e))?;
    }
    Ok(())
}

// Writes the line of each test vector, or of those with the requested name. Returns whether there was one.
fn replay<W: Write>(
    alloc: Global,
    bytes: &[u8],
    only: Option<&str>,
    out: &mut W,
) -> Result<bool, Failure> {
    let mut rest = bytes;
    let mut report = Report::new(alloc);
    let mut is_found = false;
    for number in 1..u64::MAX {
        let Some((row, after)) = next_row(rest) else {
            break;
        };
        rest = after;
        if let Some(name) = only
            && !row.is_named(name.as_bytes())
        {
            continue;
        }
        is_found = true;
        match report_row(alloc, &row, &mut report) {
            Ok(()) => {}
            Err(e) => return Err(failure_at(alloc, number, &row, e)),
        }
        write_line(row.name, &report, out)?;
    }
    Ok(is_found)
}

fn replay_file<W: Write>(
    rt: &HostRuntime,
    path: &str,
    only: Option<&str>,
    out: &mut W,
) -> Result<bool, Failure> {
    let bytes = fs::read(rt, path).map_err(|e| failure_of(&e))?;
    replay(rt.alloc(), &bytes, only, out)
}

// The requested name, and the files.
fn name_and_files(words: &[String]) -> Option<(Option<&str>, &[String])> {
    let [_program, words @ ..] = words else {
        return None;
    };
    let (only, files) = match words {
        [flag, name, files @ ..] if flag.as_str() == "--only" => (Some(name.as_str()), files),
        files => (None, files),
    };
    if files.is_empty() {
        return None;
    }
    Some((only, files))
}

fn run(rt: &HostRuntime) -> Result<(), Failure> {
    let words = env::args(rt).map_err(|e| match e.kind() {
        ErrorKind::OutOfMemory => Failure::Memory,
        _ => Failure::Usage,
    })?;
    let Ok(words) = words.collect::<Vec<String>>(rt.alloc()) else {
        return Err(Failure::Memory);
    };
    let (only, files) = name_and_files(words.as_slice()).ok_or(Failure::Usage)?;
    let mut out = BufWriter::new(rt.alloc(), io::writer(rt)).map_err(|e| failure_of(&e))?;
    let mut is_found = false;
    for path in files {
        let replayed = replay_file(rt, path.as_str(), only, &mut out);
        out.flush().map_err(|e| failure_of(&e))?;
        is_found |= replayed?;
    }
    match only {
        Some(name) if !is_found => Err(no_row_of(rt.alloc(), name)),
        _ => Ok(()),
    }
}

fn no_row_of(alloc: Global, name: &str) -> Failure {
    match String::from_str(alloc, name) {
        Ok(name) => Failure::Name(name),
        Err(_) => Failure::Memory,
    }
}

fn main(rt: HostRuntime) -> ExitCode {
    let failure = match run(&rt) {
        Ok(()) => return ExitCode::SUCCESS,
        Err(failure) => failure,
    };
    let _ = match failure {
        Failure::Usage => {
            let _ = eprintln!(rt; "{USAGE}");
            return ExitCode::from(2);
        }
        Failure::Io => eprintln!(rt; "Io"),
        Failure::Memory => eprintln!(rt; "Memory"),
        Failure::Row(number, name, error) => eprintln!(rt;
            "test vector {number} ({name}): {error}"
        ),
        Failure::Name(name) => {
            let _ = eprintln!(rt; "no row of the name {name}");
            return ExitCode::from(2);
        }
    };
    ExitCode::FAILURE
}
