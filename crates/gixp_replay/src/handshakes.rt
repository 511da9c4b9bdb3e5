//! A handshake, and the refs of versions 0 and 1.
//!
//! Settings: `over`, whether the bytes are a body in memory or come over a connection; `version`, which a client of a connection
//! asks for. The rest of the transport is reported last, and over a connection the bytes written.
use crate::lines::report_rest;
use crate::refs::report_list;
use crate::report::Report;
use crate::rows::{BODIES_CONNECTION, Row, Setting};
use crate::values::{capability_list, client_error, parse_error, update, version_of};
use bstr::BString;
use gixp_capabilities::Capabilities;
use gixp_doubles::{Device, Paper, Pieces};
use gixp_refs::handshake::refs::from_v1_refs_received_as_part_of_handshake_and_capabilities;
use gixp_transport::{Bodies, Body, Connection, Opening, Service, SetServiceResponse, Transport};
use std::alloc::{AllocError, Global};

pub(crate) const SETTINGS: &[Setting] = &[("over", BODIES_CONNECTION, 0), ("version", &[], 2)];

/// The version, whether refs follow, and the capabilities.
pub(crate) fn report_response(
    alloc: Global,
    found: &SetServiceResponse,
    report: &mut Report,
) -> Result<(), AllocError> {
    report.debug(&found.actual_protocol);
    report.word(" ");
    report.word(if found.has_refs { "refs " } else { "norefs " });
    capability_list(alloc, report, &found.capabilities)?;
    report.word("; ");
    Ok(())
}

/// The refs and shallow updates of versions 0 and 1. Returns whether there was no error.
pub(crate) fn report_early_refs<T: Transport>(
    alloc: Global,
    transport: &mut T,
    capabilities: &Capabilities,
    report: &mut Report,
) -> bool {
    match from_v1_refs_received_as_part_of_handshake_and_capabilities(
        alloc,
        transport,
        capabilities,
    ) {
        Ok((refs, updates)) => {
            report_list(report, &refs);
            report.word("updates ");
            for found in &updates {
                update(report, *found);
            }
            true
        }
        Err(e) => {
            parse_error(report, &e);
            report.word(" ");
            false
        }
    }
}

/// Performs the handshake. Returns its result unless there was an error.
pub(crate) fn shake_hands<T: Transport>(
    alloc: Global,
    transport: &mut T,
    report: &mut Report,
) -> Result<Option<SetServiceResponse>, AllocError> {
    match transport.handshake(alloc, Service::UploadPack, &[]) {
        Ok(found) => {
            report_response(alloc, &found, report)?;
            Ok(Some(found))
        }
        Err(e) => {
            client_error(report, &e);
            report.word(" ");
            Ok(None)
        }
    }
}

fn report_over<T: Transport>(
    alloc: Global,
    transport: &mut T,
    report: &mut Report,
) -> Result<(), AllocError> {
    let Some(found) = shake_hands(alloc, transport, report)? else {
        return Ok(());
    };
    if found.has_refs {
        let _ = report_early_refs(alloc, transport, &found.capabilities, report);
    }
    report_rest(transport, found.actual_protocol, report);
    Ok(())
}

/// A transport in memory with these responses.
pub(crate) fn bodies(alloc: Global, answers: Vec<Body>) -> Result<Bodies, AllocError> {
    let url = BString::new(Vec::new(alloc));
    Bodies::new(alloc, answers, url, Vec::new(alloc))
}

/// A transport in memory with one response.
pub(crate) fn one_body(alloc: Global, answer: &[u8]) -> Result<Bodies, AllocError> {
    let mut answers = Vec::new(alloc);
    answers.push(Body::Bytes(answer.to_vec(alloc)?))?;
    bodies(alloc, answers)
}

/// A writer for a connection that is read in such pieces. One write takes at most 1,000 bytes if the pieces are small.
pub(crate) fn paper_of(alloc: Global, pieces: Pieces) -> Paper {
    match pieces {
        Pieces::UpTo(most) if most < 1000 => Paper::new(alloc, 1000),
        _ => Paper::new(alloc, usize::MAX),
    }
}

/// A connection that reads from this device, and whose writer takes as few bytes at a time.
pub(crate) fn connection<'a>(
    alloc: Global,
    device: Device<'a>,
    version: u64,
    opening: Option<Opening>,
) -> Result<Connection<Device<'a>, Paper>, AllocError> {
    let url = BString::new(Vec::new(alloc));
    let paper = paper_of(alloc, device.pieces);
    let accepted = Vec::new(alloc);
    Connection::new(
        alloc,
        device,
        paper,
        url,
        version_of(version),
        accepted,
        opening,
    )
}

fn report_over_body(alloc: Global, row: &Row<'_>, report: &mut Report) -> Result<(), AllocError> {
    let mut transport = one_body(alloc, row.payload)?;
    report_over(alloc, &mut transport, report)
}

fn report_over_connection(
    alloc: Global,
    row: &Row<'_>,
    report: &mut Report,
) -> Result<(), AllocError> {
    let [_, version, ..] = row.settings;
    let device = row.device(row.payload);
    let mut transport = connection(alloc, device, version, None)?;
    report_over(alloc, &mut transport, report)?;
    report.quote(&transport.writer().bytes);
    Ok(())
}

/// A handshake, the refs, and the rest of the transport.
pub(crate) fn report_handshake(
    alloc: Global,
    row: &Row<'_>,
    report: &mut Report,
) -> Result<(), AllocError> {
    let [over, ..] = row.settings;
    if over == 0 {
        report_over_body(alloc, row, report)
    } else {
        report_over_connection(alloc, row, report)
    }
}
