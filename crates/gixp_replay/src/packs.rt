//! A pack through its bands.
//!
//! Settings: `version`; `limit`, the number of bytes to read at most; `reads`, the seed for sizes and kinds of reads, 0 for large
//! reads only; `interrupt-at`, which check for an interrupt is true; `memory-at`, for which text an allocation fails. Both count
//! from 0. The report has the end of the reading, the bytes, the messages, and the number of interrupted reads and of failed
//! allocations. If no read fails, the state of the line reader follows.
use crate::lines::{is_failure, report_failures, report_rest};
use crate::report::Report;
use crate::rows::{Row, Setting};
use crate::values;
use gixp_doubles::next_random;
use gixp_packetline::{ExtendedBufRead, LineReader, read};
use gixp_sidebands::{BandText, Interrupt, WithSidebands};
use std::alloc::{AllocError, Global};
use std::io;
use std::io::{BufRead, Read};

pub(crate) const SETTINGS: &[Setting] = &[
    ("version", &[], 2),
    ("limit", &[], u64::MAX),
    ("reads", &[], 0),
    ("interrupt-at", &[], u64::MAX),
    ("memory-at", &[], u64::MAX),
];

/// A listener that records messages. The allocation for the message with the number `fails` fails, once.
#[derive(Drop)]
pub(crate) struct Notes<'a> {
    reported: &'a mut Report,
    fails: u64,
}

impl<'a> Notes<'a> {
    pub(crate) fn new(reported: &'a mut Report, fails: u64) -> Notes<'a> {
        Notes { reported, fails }
    }
}

impl BandText for Notes<'_> {
    ghost receives = { λ old is_error text new. Unit {0} };

    ghost spares = { λ old is_error text new. Unit {0} };

    fn band_text(&mut self, is_error: bool, text: &[u8]) -> Result<(), AllocError> {
        if self.fails == 0 {
            self.fails = u64::MAX;
            return Err(AllocError);
        }
        self.fails -= 1;
        self.reported.word(if is_error { "[3:" } else { "[2:" });
        self.reported.quote(text);
        self.reported.word("]");
        Ok(())
    }
}

/// An interrupt whose check with one number is true.
#[derive(Drop)]
pub(crate) struct Once {
    questions: u64,
}

impl Once {
    /// The number counts from 0.
    pub(crate) fn new(question: u64) -> Once {
        Once {
            questions: question,
        }
    }
}

impl Interrupt for Once {
    ghost polls = { λ old answer new. Unit {0} };

    fn is_interrupted(&mut self) -> bool {
        if self.questions == 0 {
            self.questions = u64::MAX;
            return true;
        }
        self.questions -= 1;
        false
    }
}

// The size of a read.
fn size_of_read(random: u64) -> usize {
    match random % 12 {
        0 => 0,
        1 => 1,
        2 => 2,
        3 => 3,
        4 => 5,
        5 => 16,
        6 => 100,
        7 => 1000,
        8 => 8192,
        9 => 65515,
        10 => 65516,
        _ => 66000,
    }
}

// The result of a read.
enum ReadOutcome {
    Took,
    Ended,
    Refused,
}

// One read of at most `size` bytes.
fn read_some<R: Read>(
    reader: &mut R,
    size: usize,
    room: &mut Vec<u8>,
    content: &mut Vec<u8>,
) -> Result<ReadOutcome, AllocError> {
    let size = size.min(room.len());
    match reader.read(&mut room[..size]) {
        Ok(0) => {
            if size == 0 {
                return Ok(ReadOutcome::Took);
            }
            Ok(ReadOutcome::Ended)
        }
        Ok(count) => {
            let count = count.min(room.len());
            content.extend_from_slice(&room[..count])?;
            Ok(ReadOutcome::Took)
        }
        Err(_) => Ok(ReadOutcome::Refused),
    }
}

// The result of `fill_buf`.
enum Lent {
    // The number of its bytes that were copied.
    Bytes(usize),
    Ended,
    Refused,
}

// Copies some of the borrowed bytes.
fn copy_lent(
    bytes: io::Result<&[u8]>,
    random: u64,
    left: usize,
    content: &mut Vec<u8>,
) -> Result<Lent, AllocError> {
    let Ok(bytes) = bytes else {
        return Ok(Lent::Refused);
    };
    if bytes.is_empty() {
        return Ok(Lent::Ended);
    }
    let most = bytes.len() as u64;
    let amount = if random % 3 == 0 { most } else { random % most };
    let amount = usize::try_from(amount)
        .unwrap_or(0)
        .min(left)
        .min(bytes.len());
    content.extend_from_slice(&bytes[..amount])?;
    Ok(Lent::Bytes(amount))
}

// Calls `fill_buf`, copies some bytes, and consumes them.
fn lend_some<R: BufRead>(
    reader: &mut R,
    random: u64,
    left: usize,
    content: &mut Vec<u8>,
) -> Result<ReadOutcome, AllocError> {
    match copy_lent(reader.fill_buf(), random, left, content)? {
        Lent::Bytes(amount) => {
            reader.consume(amount);
            Ok(ReadOutcome::Took)
        }
        Lent::Ended => Ok(ReadOutcome::Ended),
        Lent::Refused => Ok(ReadOutcome::Refused),
    }
}

/// The error that a reader of bands keeps, if there is one.
pub(crate) fn report_fault(fault: Option<&read::Error>, report: &mut Report) {
    match fault {
        Some(e) => values::read_error(report, e),
        None => report.word("nofault"),
    }
    report.word(" ");
}

// The number of reads that failed, where the next one continued.
#[derive(Clone, Copy)]
struct Counts {
    interrupted: u64,
    memory: u64,
    failed: u64,
}

impl Counts {
    fn none() -> Counts {
        Counts {
            interrupted: 0,
            memory: 0,
            failed: 0,
        }
    }

    // Counts an error after which the next read continues. Returns whether it is one.
    fn count(&mut self, fault: Option<&read::Error>) -> bool {
        match fault {
            Some(read::Error::Interrupted) => {
                self.interrupted = self.interrupted.saturating_add(1);
                true
            }
            Some(read::Error::Memory) => {
                self.memory = self.memory.saturating_add(1);
                true
            }
            Some(read::Error::Io(kind)) => {
                if is_failure(*kind) {
                    self.failed = self.failed.saturating_add(1);
                }
                is_failure(*kind)
            }
            _ => false,
        }
    }
}

// The error after which each read fails, and the result of the next read.
fn report_last_error<T: ExtendedBufRead, I: Interrupt>(
    reader: &mut WithSidebands<'_, '_, T, Notes<'_>, I>,
    report: &mut Report,
) {
    report_fault(reader.fault(), report);
    let mut one = [0u8; 1];
    match reader.read(&mut one) {
        Ok(_) => report.word("!read "),
        Err(e) => report.debug(&e.kind()),
    }
    report.word(" ");
}

// One read, whose kind and size depend on a number. 0 means a large one.
fn read_mixed<T: ExtendedBufRead, I: Interrupt>(
    reader: &mut WithSidebands<'_, '_, T, Notes<'_>, I>,
    random: u64,
    left: usize,
    room: &mut Vec<u8>,
    content: &mut Vec<u8>,
) -> Result<ReadOutcome, AllocError> {
    if random % 4 == 3 {
        lend_some(reader, random / 4, left, content)
    } else {
        read_some(reader, size_of_read(random / 4).min(left), room, content)
    }
}

// Reads content up to a limit, in ways that depend on the seed.
fn drain<T: ExtendedBufRead, I: Interrupt>(
    alloc: Global,
    reader: &mut WithSidebands<'_, '_, T, Notes<'_>, I>,
    limit: u64,
    seed: u64,
    content: &mut Vec<u8>,
    report: &mut Report,
) -> Result<Counts, AllocError> {
    let mut room = vec![in alloc; 0u8; 66_000]?;
    let mut random = seed;
    let mut counts = Counts::none();
    for _ in 0..u64::MAX {
        let left = limit.saturating_sub(content.len() as u64);
        if left == 0 {
            report.word("limit ");
            break;
        }
        let left = usize::try_from(left).unwrap_or(usize::MAX);
        random = next_random(random);
        let step = if seed == 0 {
            read_some(reader, left.min(66_000), &mut room, content)
        } else {
            read_mixed(reader, random / 65_536, left, &mut room, content)
        };
        match step? {
            ReadOutcome::Took => {}
            ReadOutcome::Ended => {
                report.word("end ");
                report_fault(reader.fault(), report);
                break;
            }
            ReadOutcome::Refused if counts.count(reader.fault()) => {}
            ReadOutcome::Refused => {
                report_last_error(reader, report);
                break;
            }
        }
    }
    Ok(counts)
}

#[derive(Clone, Copy)]
pub(crate) struct Settings {
    /// The number of bytes to read at most.
    pub(crate) limit: u64,
    /// The seed for sizes and kinds of reads.
    pub(crate) seed: u64,
    /// Which check for an interrupt is true.
    pub(crate) interrupt: u64,
    /// For which message an allocation fails.
    pub(crate) memory: u64,
}

/// The content of the pack that follows in a reader, and its messages. Returns the number of failed reads.
pub(crate) fn read_pack<T: ExtendedBufRead>(
    alloc: Global,
    reader: &mut T,
    settings: Settings,
    report: &mut Report,
) -> Result<u64, AllocError> {
    let mut reported = Report::new(alloc);
    let mut content = Vec::new(alloc);
    let counts = {
        let mut once = Once::new(settings.interrupt);
        let notes = Notes::new(&mut reported, settings.memory);
        let mut banded = WithSidebands::new(reader, notes, &mut once);
        let Settings { limit, seed, .. } = settings;
        let counts = drain(alloc, &mut banded, limit, seed, &mut content, report)?;
        values::stop(report, banded.stopped_at());
        counts
    };
    report.quote(&content);
    report.word(" told ");
    report.quote_report(&reported);
    report.word(" ");
    report.number(counts.interrupted);
    report.word(" ");
    report.number(counts.memory);
    report.word(" ");
    Ok(counts.failed)
}

/// Reads a pack from a line reader.
pub(crate) fn report_pack(
    alloc: Global,
    row: &Row<'_>,
    report: &mut Report,
) -> Result<(), AllocError> {
    let [version, limit, seed, interrupt, memory, _] = row.settings;
    let version = values::version_of(version);
    let settings = Settings {
        limit,
        seed,
        interrupt,
        memory,
    };
    let mut device = row.device(row.payload);
    let reported = {
        let mut reader = LineReader::new(alloc, &mut device)?;
        reader.reset(version);
        let reported = read_pack(alloc, &mut reader, settings, report)?;
        if row.fail_at == 0 {
            report_rest(&mut reader, version, report);
        }
        reported
    };
    report_failures(report, reported, device.failures);
    Ok(())
}
