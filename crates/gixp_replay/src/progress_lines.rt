//! A line of progress, and the calls of a progress reporter for it.
//!
//! `error` says whether it is an error of the server. The payload is a line with the name shown before, which may be empty for
//! none, and the text.
use crate::report::Report;
use crate::reporting::Reporting;
use crate::rows::{NO_YES, Row, Setting, cut_at_byte};
use gixp_progress::{Progress, RemoteProgress};
use std::alloc::{AllocError, Global};

pub(crate) const SETTINGS: &[Setting] = &[("error", NO_YES, 0)];

fn report_number(report: &mut Report, number: Option<u64>) {
    match number {
        Some(number) => report.number(number),
        None => report.word("-"),
    }
    report.word(" ");
}

fn report_parts(report: &mut Report, line: &RemoteProgress<'_>) {
    report.quote(line.action.as_bytes());
    report.word(" ");
    report_number(report, line.percent.map(|number| number as u64));
    report_number(report, line.step.map(|number| number as u64));
    report_number(report, line.max.map(|number| number as u64));
}

/// The parts of the line, and the calls.
pub(crate) fn report_line(
    alloc: Global,
    row: &Row<'_>,
    report: &mut Report,
) -> Result<(), AllocError> {
    let [is_error, ..] = row.settings;
    let (shown, text) = cut_at_byte(row.payload, b'\n');
    match RemoteProgress::from_bytes(text) {
        Some(line) => report_parts(report, &line),
        None => report.word("none "),
    }
    let mut progress = Reporting::new(alloc);
    if !shown.is_empty() {
        progress.set_name(String::from_utf8_lossy(alloc, shown)?);
    }
    RemoteProgress::translate_to_progress(alloc, is_error == 1, text, &mut progress)?;
    progress.report(report);
    Ok(())
}
