//! Refs of version 2.
//!
//! `version` is that of the reader. `refs=all` reads all refs at once, `refs=each` one by one. If no read fails, the rest of the
//! reader is reported last.
use crate::lines::{is_failure, report_failures, report_rest};
use crate::report::Report;
use crate::rows::{Row, Setting};
use crate::values::{parse_error, reference, version_of};
use gixp_packetline::{ExtendedBufRead, LineReader};
use gixp_refs::handshake::Ref;
use gixp_refs::handshake::refs::{from_v2_refs, next_v2_ref, parse};
use std::alloc::{AllocError, Global};

pub(crate) const SETTINGS: &[Setting] = &[("version", &[], 2), ("refs", &["all", "each"], 0)];

pub(crate) fn report_list(report: &mut Report, refs: &[Ref]) {
    report.word("refs ");
    for found in refs {
        reference(report, found);
    }
}

// The effect of an error on later calls.
enum Outlook {
    // A read failed. The call is repeated.
    Again,
    // The line was invalid. The next one may be a ref.
    Next,
    // Each later call returns the same error.
    Over,
}

fn outlook_of(e: &parse::Error) -> Outlook {
    match e {
        parse::Error::Io(kind) => {
            if is_failure(*kind) {
                Outlook::Again
            } else {
                Outlook::Over
            }
        }
        parse::Error::DecodePacketline(_)
        | parse::Error::UploadPack { .. }
        | parse::Error::Reader(_) => Outlook::Over,
        _ => Outlook::Next,
    }
}

// Reads refs one by one, and the last error twice. Returns the number of failed reads.
fn report_each<R: ExtendedBufRead>(alloc: Global, reader: &mut R, report: &mut Report) -> u64 {
    let mut failed = 0u64;
    let mut is_over = false;
    for _ in 0..u64::MAX {
        let e = match next_v2_ref(alloc, reader) {
            Ok(Some(found)) => {
                reference(report, &found);
                continue;
            }
            Ok(None) => {
                report.word("| ");
                break;
            }
            Err(e) => e,
        };
        match outlook_of(&e) {
            Outlook::Again => {
                failed = failed.saturating_add(1);
                continue;
            }
            Outlook::Next => {}
            Outlook::Over if is_over => {
                report_error(report, &e);
                break;
            }
            Outlook::Over => is_over = true,
        }
        report_error(report, &e);
    }
    failed
}

fn report_error(report: &mut Report, e: &parse::Error) {
    parse_error(report, e);
    report.word(" ");
}

/// Reads all refs of version 2. Returns whether there was no error.
pub(crate) fn report_all<R: ExtendedBufRead>(
    alloc: Global,
    reader: &mut R,
    report: &mut Report,
) -> bool {
    match from_v2_refs(alloc, reader) {
        Ok(refs) => {
            report_list(report, &refs);
            true
        }
        Err(e) => {
            report_error(report, &e);
            false
        }
    }
}

/// The refs of an `ls-refs` response.
pub(crate) fn report_refs(
    alloc: Global,
    row: &Row<'_>,
    report: &mut Report,
) -> Result<(), AllocError> {
    let [version, by, ..] = row.settings;
    let version = version_of(version);
    let mut device = row.device(row.payload);
    let mut reported = 0u64;
    {
        let mut reader = LineReader::new(alloc, &mut device)?;
        reader.reset(version);
        if by == 0 {
            let _ = report_all(alloc, &mut reader, report);
        } else {
            reported = report_each(alloc, &mut reader, report);
        }
        if row.fail_at == 0 {
            report_rest(&mut reader, version, report);
        }
    }
    if by == 1 {
        report_failures(report, reported, device.failures);
    }
    Ok(())
}
