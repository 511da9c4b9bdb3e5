//! A session: a handshake, refs, up to five requests with one have each, and a pack.
//!
//! `over=bodies` uses bodies in memory, whose lengths are in the first line of the payload; `over=connection` uses a connection
//! with the bytes after that line. Settings: `version`, which the client of a connection asks for; `done-at`, the number of the
//! request with `done`; `reads`, the seed for the reads of the pack. The bytes sent are reported last.
use crate::answers::{Reading, read_response};
use crate::handshakes::{bodies, connection, report_early_refs, shake_hands};
use crate::lines::report_rest;
use crate::packs::{Notes, Settings, read_pack};
use crate::refs::report_all;
use crate::report::Report;
use crate::rows::{BODIES_CONNECTION, Row, Setting, cut_at, cut_at_byte, number};
use crate::values::client_error;
use bstr::BString;
use gixp_capabilities::Capabilities;
use gixp_hash::ObjectId;
use gixp_packetline::Protocol;
use gixp_requests::command::{CommandTable, Feature};
use gixp_requests::fetch::Arguments;
use gixp_requests::{Command, agent_feature};
use gixp_response::fetch::Response;
use gixp_sidebands::{NeverInterrupt, WithSidebands};
use gixp_transport::{Body, Transport};
use std::alloc::{AllocError, Global};

pub(crate) const SETTINGS: &[Setting] = &[
    ("over", BODIES_CONNECTION, 0),
    ("version", &[], 2),
    ("done-at", &[], 1),
    ("reads", &[], 0),
];

// The arguments that list the refs below `refs/`.
fn arguments_of_refs(alloc: Global, features: &[Feature]) -> Result<Vec<BString>, AllocError> {
    let table = CommandTable::git();
    let mut arguments = table.initial_v2_arguments(alloc, Command::LsRefs, features)?;
    arguments.push(BString::from_slice(alloc, "ref-prefix refs/")?)?;
    Ok(arguments)
}

// The refs of version 2. Returns whether there was no error.
fn list_refs<T: Transport>(
    alloc: Global,
    transport: &mut T,
    report: &mut Report,
) -> Result<bool, AllocError> {
    let features = [agent_feature(alloc, "probe")?];
    let arguments = arguments_of_refs(alloc, &features)?;
    if let Err(e) = transport.invoke(alloc, Command::LsRefs.as_str(), &features, &arguments) {
        client_error(report, &e);
        return Ok(false);
    }
    Ok(report_all(alloc, transport, report))
}

// The response to a request, in bands if the settings say so.
fn read_answer<T: Transport>(
    alloc: Global,
    transport: &mut T,
    reading: Reading,
    report: &mut Report,
) -> Option<Response> {
    if !reading.is_banded {
        return read_response(alloc, transport, reading, report);
    }
    let mut reported = Report::new(alloc);
    let mut never = NeverInterrupt;
    let notes = Notes::new(&mut reported, u64::MAX);
    let mut reader = WithSidebands::new(transport, notes, &mut never);
    read_response(alloc, &mut reader, reading, report)
}

// Sends a request with one more have, and reads the response. Returns whether another request may follow.
fn run_round<T: Transport>(
    alloc: Global,
    round: u8,
    reading: Reading,
    seed: u64,
    transport: &mut T,
    asked: &mut Arguments,
    report: &mut Report,
) -> Result<bool, AllocError> {
    asked.have(&ObjectId { bytes: [round; 20] })?;
    if !asked.has_haves() {
        return Ok(false);
    }
    let done = reading.expects_pack;
    match asked.send(transport, done) {
        Ok(()) => report.word("sent "),
        Err(e) => {
            client_error(report, &e);
            report.word(" ");
            return Ok(false);
        }
    }
    let Some(found) = read_answer(alloc, transport, reading, report) else {
        return Ok(false);
    };
    if found.has_pack() {
        let settings = Settings {
            limit: u64::MAX,
            seed,
            interrupt: u64::MAX,
            memory: u64::MAX,
        };
        let _ = read_pack(alloc, transport, settings, report)?;
        return Ok(false);
    }
    Ok(!done)
}

// The first arguments, with these features.
fn first_asked(
    alloc: Global,
    version: Protocol,
    features: Vec<Feature>,
) -> Result<Arguments, AllocError> {
    let mut asked = Arguments::new(alloc, &CommandTable::git(), version, features)?;
    asked.want(&ObjectId::null())?;
    Ok(asked)
}

// The requests of a fetch.
fn fetch<T: Transport>(
    alloc: Global,
    row: &Row<'_>,
    transport: &mut T,
    version: Protocol,
    features: Vec<Feature>,
    report: &mut Report,
) -> Result<(), AllocError> {
    let [_, _, last, seed, ..] = row.settings;
    let is_banded = features.iter().any(|feature| feature.0 == "sideband-all");
    let mut asked = first_asked(alloc, version, features)?;
    for round in 1..6u8 {
        let done = u64::from(round) >= last;
        let reading = Reading {
            version,
            expects_pack: done,
            wants_to_negotiate: !done,
            is_banded,
        };
        if !run_round(alloc, round, reading, seed, transport, &mut asked, report)? {
            break;
        }
    }
    Ok(())
}

// The features of the client if a server has these capabilities.
fn features_of_fetch(
    alloc: Global,
    version: Protocol,
    capabilities: &Capabilities,
) -> Result<Vec<Feature>, AllocError> {
    let table = CommandTable::git();
    let mut features = table.default_features(alloc, Command::Fetch, version, capabilities)?;
    features.push(agent_feature(alloc, "probe")?)?;
    Ok(features)
}

fn report_over<T: Transport>(
    alloc: Global,
    row: &Row<'_>,
    transport: &mut T,
    report: &mut Report,
) -> Result<(), AllocError> {
    let Some(found) = shake_hands(alloc, transport, report)? else {
        return Ok(());
    };
    let version = found.actual_protocol;
    let goes_on = if found.has_refs {
        report_early_refs(alloc, transport, &found.capabilities, report)
    } else {
        list_refs(alloc, transport, report)?
    };
    if goes_on {
        let features = features_of_fetch(alloc, version, &found.capabilities)?;
        fetch(alloc, row, transport, version, features, report)?;
    }
    report_rest(transport, version, report);
    Ok(())
}

/// The bodies with these lengths.
pub(crate) fn cut_bodies(
    alloc: Global,
    lengths: &[u8],
    bytes: &[u8],
) -> Result<Vec<Body>, AllocError> {
    let mut answers = Vec::new(alloc);
    let mut rest = bytes;
    for word in lengths.split(|b| *b == b' ') {
        let (body, others) = cut_at(rest, number(word).unwrap_or(0));
        answers.push(Body::Bytes(body.to_vec(alloc)?))?;
        rest = others;
    }
    Ok(answers)
}

fn report_over_connection(
    alloc: Global,
    row: &Row<'_>,
    bytes: &[u8],
    report: &mut Report,
) -> Result<(), AllocError> {
    let [_, version, ..] = row.settings;
    let device = row.whole_device(bytes);
    let mut transport = connection(alloc, device, version, None)?;
    report_over(alloc, row, &mut transport, report)?;
    report.word(" ");
    report.quote(&transport.writer().bytes);
    Ok(())
}

fn report_over_bodies(
    alloc: Global,
    row: &Row<'_>,
    lengths: &[u8],
    bytes: &[u8],
    report: &mut Report,
) -> Result<(), AllocError> {
    let mut transport = bodies(alloc, cut_bodies(alloc, lengths, bytes)?)?;
    report_over(alloc, row, &mut transport, report)?;
    for request in transport.sent() {
        report.word(" ");
        report.quote(request);
    }
    Ok(())
}

/// Runs a session over a connection or memory.
pub(crate) fn report_session(
    alloc: Global,
    row: &Row<'_>,
    report: &mut Report,
) -> Result<(), AllocError> {
    let [over, ..] = row.settings;
    let (lengths, bytes) = cut_at_byte(row.payload, b'\n');
    if over == 1 {
        report_over_connection(alloc, row, bytes, report)
    } else {
        report_over_bodies(alloc, row, lengths, bytes, report)
    }
}
