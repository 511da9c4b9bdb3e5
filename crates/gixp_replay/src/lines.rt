//! Calls of a line reader.
//!
//! The first line of the payload has the calls, separated by blanks, and the stream follows. A call is the name of a function, or
//! `reset-0`, `reset-1`, `reset-2`. A number after `*` repeats it (`readline*5`). A call whose read failed is repeated. The setting
//! `version` is that of the reader.
use crate::report::Report;
use crate::rows::{Row, Setting, cut_at_byte, meaning_of, number};
use crate::values::{read_error, stop, version_of};
use gixp_packetline::{ExtendedBufRead, LineReader, Protocol, read};
use std::alloc::{AllocError, Global};
use std::io::ErrorKind;

pub(crate) const SETTINGS: &[Setting] = &[("version", &[], 2)];

#[derive(Clone, Copy)]
pub(crate) enum Call {
    Readline,
    PeekDataLine,
    NextLine,
    PeekLine,
    ReadlineStr,
    StoppedAt,
    Reset(Protocol),
}

static CALLS: [(&str, Call); 9] = [
    ("readline", Call::Readline),
    ("peek_data_line", Call::PeekDataLine),
    ("next_line", Call::NextLine),
    ("peek_line", Call::PeekLine),
    ("readline_str", Call::ReadlineStr),
    ("stopped_at", Call::StoppedAt),
    ("reset-0", Call::Reset(Protocol::V0)),
    ("reset-1", Call::Reset(Protocol::V1)),
    ("reset-2", Call::Reset(Protocol::V2)),
];

/// The call of a word, if it has one.
pub(crate) fn call_of(word: &[u8]) -> Option<Call> {
    meaning_of(&CALLS, word)
}

/// A word without its number of repetitions, and that number.
pub(crate) fn times_of(word: &[u8]) -> (&[u8], u64) {
    let (name, digits) = cut_at_byte(word, b'*');
    (name, number(digits).unwrap_or(1))
}

/// Whether a read failed for another reason than the end of the stream.
pub(crate) fn is_failure(kind: ErrorKind) -> bool {
    match kind {
        ErrorKind::UnexpectedEof => false,
        _ => true,
    }
}

// Reports an error. Returns false, and reports nothing, if a read failed.
fn report_error(report: &mut Report, e: &read::Error) -> bool {
    if let read::Error::Io(kind) = e
        && is_failure(*kind)
    {
        return false;
    }
    read_error(report, e);
    report.word(" ");
    true
}

// Reports a line or a stop.
fn report_line(report: &mut Report, line: Option<&[u8]>) -> bool {
    match line {
        Some(line) => {
            report.quote(line);
            report.word(" ");
        }
        None => report.word("| "),
    }
    true
}

/// Reports the next line, a stop or an error. Returns false if a read failed.
pub(crate) fn take_line<R: ExtendedBufRead>(reader: &mut R, report: &mut Report) -> bool {
    match reader.readline() {
        Ok(line) => report_line(report, line),
        Err(e) => report_error(report, &e),
    }
}

fn peek_line<R: ExtendedBufRead>(reader: &mut R, report: &mut Report) -> bool {
    match reader.peek_data_line() {
        Ok(line) => report_line(report, line),
        Err(e) => report_error(report, &e),
    }
}

fn take_plain<R: ExtendedBufRead>(reader: &mut R, report: &mut Report) -> bool {
    match reader.next_line() {
        Ok(true) => report_line(report, Some(reader.line())),
        Ok(false) => report_line(report, None),
        Err(e) => report_error(report, &e),
    }
}

fn peek_plain<R: ExtendedBufRead>(reader: &mut R, report: &mut Report) -> bool {
    match reader.peek_line() {
        Ok(true) => report_line(report, Some(reader.line())),
        Ok(false) => report_line(report, None),
        Err(e) => report_error(report, &e),
    }
}

// Appends the next line to a text of one letter.
fn take_text<R: ExtendedBufRead>(
    alloc: Global,
    reader: &mut R,
    report: &mut Report,
) -> Result<bool, AllocError> {
    let mut text = String::from_str(alloc, "x")?;
    match reader.readline_str(&mut text) {
        Ok(count) => {
            report.number(count as u64);
            report.word(":");
            report.quote(text.as_bytes());
            report.word(" ");
            Ok(true)
        }
        Err(e) => {
            if text.as_str() != "x" {
                report.word("changed ");
            }
            Ok(report_error(report, &e))
        }
    }
}

/// Makes a call. Returns false if a read failed.
pub(crate) fn make_call<R: ExtendedBufRead>(
    alloc: Global,
    reader: &mut R,
    call: Call,
    report: &mut Report,
) -> Result<bool, AllocError> {
    match call {
        Call::Readline => return Ok(take_line(reader, report)),
        Call::PeekDataLine => return Ok(peek_line(reader, report)),
        Call::NextLine => return Ok(take_plain(reader, report)),
        Call::PeekLine => return Ok(peek_plain(reader, report)),
        Call::ReadlineStr => return take_text(alloc, reader, report),
        Call::StoppedAt => stop(report, reader.stopped_at()),
        Call::Reset(version) => reader.reset(version),
    }
    Ok(true)
}

// Makes a call until no read fails. Returns the number of failed reads.
fn call_again<R: ExtendedBufRead>(
    alloc: Global,
    reader: &mut R,
    made: Call,
    report: &mut Report,
) -> Result<u64, AllocError> {
    for failed in 0..3u64 {
        if make_call(alloc, reader, made, report)? {
            return Ok(failed);
        }
    }
    Ok(3)
}

// Makes the call of a word, repeatedly if it says so. Returns the number of failed reads.
fn call_word<R: ExtendedBufRead>(
    alloc: Global,
    reader: &mut R,
    word: &[u8],
    report: &mut Report,
) -> Result<u64, AllocError> {
    let (name, times) = times_of(word);
    let Some(made) = call_of(name) else {
        report.is_unknown = true;
        return Ok(0);
    };
    let mut reported = 0u64;
    for _ in 0..times {
        let failed = call_again(alloc, reader, made, report)?;
        reported = reported.saturating_add(failed);
    }
    Ok(reported)
}

/// The rest of a reader: its stop, two lines, and three more after a reset.
pub(crate) fn report_rest<R: ExtendedBufRead>(
    reader: &mut R,
    version: Protocol,
    report: &mut Report,
) {
    stop(report, reader.stopped_at());
    for _ in 0..2usize {
        let _ = take_line(reader, report);
    }
    reader.reset(version);
    report.word("/ ");
    for _ in 0..3usize {
        let _ = take_line(reader, report);
    }
}

/// Reports nothing if each failed read led to one error.
pub(crate) fn report_failures(report: &mut Report, reported: u64, failed: u64) {
    if reported != failed {
        report.word("!failed ");
        report.number(failed);
        report.word(", told ");
        report.number(reported);
    }
}

/// The result of each call.
pub(crate) fn report_calls(
    alloc: Global,
    row: &Row<'_>,
    report: &mut Report,
) -> Result<(), AllocError> {
    let [version, ..] = row.settings;
    let (words, stream) = cut_at_byte(row.payload, b'\n');
    let mut device = row.device(stream);
    let mut reported = 0u64;
    {
        let mut reader = LineReader::new(alloc, &mut device)?;
        reader.reset(version_of(version));
        for word in words.split(|b| *b == b' ') {
            let failed = call_word(alloc, &mut reader, word, report)?;
            reported = reported.saturating_add(failed);
        }
    }
    report_failures(report, reported, device.failures);
    Ok(())
}
