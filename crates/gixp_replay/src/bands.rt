//! Calls of a reader of bands, and their effect on the line reader.
//!
//! The first line of the payload has the calls, as in `lines`, and the stream follows. In addition to those of a line reader there
//! are `read-1` to `read-9`, which read this number of bytes, `fill_buf`, `buffer`, `consume-0`, `consume-1`, `consume-9`, and
//! `fault`. Settings: `version` of the reader; `interrupt-at`, which check for an interrupt is true; `memory-at`, for which text an
//! allocation fails. Both count from 0.
use crate::packs::{Notes, Once, report_fault};
use crate::report::Report;
use crate::rows::{Row, Setting, cut_at_byte, meaning_of};
use crate::{lines, values};
use gixp_packetline::{ExtendedBufRead, LineReader};
use gixp_sidebands::{Interrupt, WithSidebands};
use std::alloc::{AllocError, Global};
use std::io;
use std::io::{BufRead, Read};

pub(crate) const SETTINGS: &[Setting] = &[
    ("version", &[], 2),
    ("interrupt-at", &[], u64::MAX),
    ("memory-at", &[], u64::MAX),
];

#[derive(Clone, Copy)]
enum Call {
    Read(usize),
    FillBuf,
    Buffer,
    Consume(usize),
    Fault,
    Line(lines::Call),
}

static CALLS: [(&str, Call); 15] = [
    ("read-1", Call::Read(1)),
    ("read-2", Call::Read(2)),
    ("read-3", Call::Read(3)),
    ("read-4", Call::Read(4)),
    ("read-5", Call::Read(5)),
    ("read-6", Call::Read(6)),
    ("read-7", Call::Read(7)),
    ("read-8", Call::Read(8)),
    ("read-9", Call::Read(9)),
    ("fill_buf", Call::FillBuf),
    ("buffer", Call::Buffer),
    ("consume-0", Call::Consume(0)),
    ("consume-1", Call::Consume(1)),
    ("consume-9", Call::Consume(9)),
    ("fault", Call::Fault),
];

fn call_of(word: &[u8]) -> Option<Call> {
    match lines::call_of(word) {
        Some(call) => Some(Call::Line(call)),
        None => meaning_of(&CALLS, word),
    }
}

// The bytes that a call returns, or the kind of its error.
fn report_bytes(report: &mut Report, bytes: io::Result<&[u8]>) {
    match bytes {
        Ok(bytes) => report.quote(bytes),
        Err(e) => report.debug(&e.kind()),
    }
    report.word(" ");
}

// Reads at most nine bytes.
fn read<R: Read>(reader: &mut R, size: usize, report: &mut Report) {
    let mut room = [0u8; 9];
    let size = size.min(9);
    match reader.read(&mut room[..size]) {
        Ok(count) => report_bytes(report, Ok(&room[..count.min(9)])),
        Err(e) => report_bytes(report, Err(e)),
    }
}

fn make_call<T: ExtendedBufRead, I: Interrupt>(
    alloc: Global,
    reader: &mut WithSidebands<'_, '_, T, Notes<'_>, I>,
    call: Call,
    report: &mut Report,
) -> Result<(), AllocError> {
    match call {
        Call::Read(size) => read(reader, size, report),
        Call::FillBuf => report_bytes(report, reader.fill_buf()),
        Call::Buffer => report_bytes(report, Ok(reader.buffer())),
        Call::Fault => report_fault(reader.fault(), report),
        Call::Consume(count) => reader.consume(count),
        Call::Line(call) => {
            let _ = lines::make_call(alloc, reader, call, report)?;
        }
    }
    Ok(())
}

// Makes the call of a word, repeatedly if it says so.
fn call_word<T: ExtendedBufRead, I: Interrupt>(
    alloc: Global,
    reader: &mut WithSidebands<'_, '_, T, Notes<'_>, I>,
    word: &[u8],
    report: &mut Report,
) -> Result<(), AllocError> {
    let (name, times) = lines::times_of(word);
    let Some(call) = call_of(name) else {
        report.is_unknown = true;
        return Ok(());
    };
    for _ in 0..times {
        make_call(alloc, reader, call, report)?;
    }
    Ok(())
}

fn call_each<T: ExtendedBufRead, I: Interrupt>(
    alloc: Global,
    reader: &mut WithSidebands<'_, '_, T, Notes<'_>, I>,
    words: &[u8],
    report: &mut Report,
) -> Result<(), AllocError> {
    for word in words.split(|b| *b == b' ') {
        call_word(alloc, reader, word, report)?;
    }
    Ok(())
}

/// The result of each call, the messages, and the state of the line reader after the reader of bands is dropped.
pub(crate) fn report_calls(
    alloc: Global,
    row: &Row<'_>,
    report: &mut Report,
) -> Result<(), AllocError> {
    let [version, interrupt, memory, ..] = row.settings;
    let version = values::version_of(version);
    let (words, stream) = cut_at_byte(row.payload, b'\n');
    let mut device = row.device(stream);
    let mut reader = LineReader::new(alloc, &mut device)?;
    reader.reset(version);
    let mut reported = Report::new(alloc);
    {
        let mut once = Once::new(interrupt);
        let notes = Notes::new(&mut reported, memory);
        let mut banded = WithSidebands::new(&mut reader, notes, &mut once);
        call_each(alloc, &mut banded, words, report)?;
    }
    report.word("told ");
    report.quote_report(&reported);
    report.word(" ");
    lines::report_rest(&mut reader, version, report);
    Ok(())
}
