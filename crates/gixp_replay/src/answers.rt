//! A response to a fetch.
//!
//! Settings: `version`; `pack`, whether a pack is expected; `negotiates`, whether the client wants to negotiate; `bands`, whether
//! the response is banded; `over`; `lines`, the number of lines to read after a banded response. The rest of the reader is reported
//! last.
use crate::handshakes::{connection, one_body};
use crate::lines::{report_rest, take_line};
use crate::packs::Notes;
use crate::report::Report;
use crate::rows::{NO_YES, Row, Setting};
use crate::values;
use gixp_packetline::{ExtendedBufRead, LineReader, Protocol};
use gixp_response::fetch::Response;
use gixp_sidebands::{NeverInterrupt, WithSidebands};
use gixp_transport::Transport;
use std::alloc::{AllocError, Global};

pub(crate) const SETTINGS: &[Setting] = &[
    ("version", &[], 2),
    ("pack", NO_YES, 0),
    ("negotiates", NO_YES, 0),
    ("bands", NO_YES, 0),
    ("over", &["reader", "connection", "body"], 0),
    ("lines", &[], 0),
];

#[derive(Clone, Copy)]
pub(crate) struct Reading {
    pub(crate) version: Protocol,
    pub(crate) expects_pack: bool,
    pub(crate) wants_to_negotiate: bool,
    pub(crate) is_banded: bool,
}

impl Reading {
    fn of_row(row: &Row<'_>) -> Reading {
        let [version, pack, negotiates, bands, ..] = row.settings;
        Reading {
            version: values::version_of(version),
            expects_pack: pack == 1,
            wants_to_negotiate: negotiates == 1,
            is_banded: bands == 1,
        }
    }
}

/// Reads a response with these settings, except `bands`. Returns it unless there was an error.
pub(crate) fn read_response<R: ExtendedBufRead>(
    alloc: Global,
    reader: &mut R,
    reading: Reading,
    report: &mut Report,
) -> Option<Response> {
    let Reading {
        version,
        expects_pack,
        wants_to_negotiate,
        is_banded: _,
    } = reading;
    match Response::from_line_reader(alloc, version, reader, expects_pack, wants_to_negotiate) {
        Ok(found) => {
            values::answer(report, &found);
            Some(found)
        }
        Err(e) => {
            values::response_error(report, &e);
            report.word(" ");
            None
        }
    }
}

// Reads a response through bands, then more lines.
fn report_banded<R: ExtendedBufRead>(
    alloc: Global,
    reader: &mut R,
    reading: Reading,
    lines: u64,
    report: &mut Report,
) -> Result<(), AllocError> {
    let mut reported = Report::new(alloc);
    {
        let mut never = NeverInterrupt;
        let notes = Notes::new(&mut reported, u64::MAX);
        let mut banded = WithSidebands::new(reader, notes, &mut never);
        let _ = read_response(alloc, &mut banded, reading, report);
        values::stop(report, banded.stopped_at());
        for _ in 0..lines {
            let _ = take_line(&mut banded, report);
        }
    }
    report.word("told ");
    report.quote_report(&reported);
    report.word(" ");
    Ok(())
}

fn report_over<R: ExtendedBufRead>(
    alloc: Global,
    row: &Row<'_>,
    reader: &mut R,
    report: &mut Report,
) -> Result<(), AllocError> {
    let reading = Reading::of_row(row);
    let [_, _, _, _, _, lines] = row.settings;
    if reading.is_banded {
        report_banded(alloc, reader, reading, lines, report)?;
    } else {
        let _ = read_response(alloc, reader, reading, report);
    }
    report_rest(reader, reading.version, report);
    Ok(())
}

// Sends an empty request, and reads the response.
fn request_and_report<T: Transport>(
    alloc: Global,
    row: &Row<'_>,
    transport: &mut T,
    report: &mut Report,
) -> Result<(), AllocError> {
    if transport.request(&[]).is_err() {
        report.word("!request ");
    }
    report_over(alloc, row, transport, report)
}

fn report_over_reader(alloc: Global, row: &Row<'_>, report: &mut Report) -> Result<(), AllocError> {
    let mut device = row.device(row.payload);
    let mut reader = LineReader::new(alloc, &mut device)?;
    report_over(alloc, row, &mut reader, report)
}

fn report_over_connection(
    alloc: Global,
    row: &Row<'_>,
    report: &mut Report,
) -> Result<(), AllocError> {
    let device = row.whole_device(row.payload);
    let mut transport = connection(alloc, device, 2, None)?;
    request_and_report(alloc, row, &mut transport, report)
}

fn report_over_body(alloc: Global, row: &Row<'_>, report: &mut Report) -> Result<(), AllocError> {
    let mut transport = one_body(alloc, row.payload)?;
    request_and_report(alloc, row, &mut transport, report)
}

/// Reads a response from a line reader, a connection or memory.
pub(crate) fn report_answer(
    alloc: Global,
    row: &Row<'_>,
    report: &mut Report,
) -> Result<(), AllocError> {
    let [_, _, _, _, over, _] = row.settings;
    match over {
        0 => report_over_reader(alloc, row, report),
        1 => report_over_connection(alloc, row, report),
        _ => report_over_body(alloc, row, report),
    }
}
