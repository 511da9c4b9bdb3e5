//! The line of a test vector, in printable characters.
use crate::rows::cut_at;
use gixp_hash::ObjectId;
use std::alloc::{AllocError, Global};
use std::fmt::Debug;

/// The result of a test vector as text. It records an allocation failure, so that writers need not check each word.
#[derive(Drop)]
pub(crate) struct Report {
    alloc: Global,
    text: Vec<u8>,
    has_failed: bool,
    /// Whether the test vector has a word that its mode doesn't know.
    pub(crate) is_unknown: bool,
}

// A longer run of one byte is written as the byte and its length.
const LONGEST_RUN: usize = 64;

// The length of the run at the start.
fn run_at_front(bytes: &[u8]) -> usize {
    let mut count = 0usize;
    for byte in bytes {
        if bytes.first() != Some(byte) {
            break;
        }
        count = count.saturating_add(1);
    }
    count.max(1)
}

fn digit(value: u8) -> u8 {
    let value = value % 16;
    if value < 10 {
        value + b'0'
    } else {
        value - 10 + b'a'
    }
}

impl Report {
    pub(crate) fn new(alloc: Global) -> Report {
        Report {
            alloc,
            text: Vec::new(alloc),
            has_failed: false,
            is_unknown: false,
        }
    }

    pub(crate) fn clear(&mut self) {
        self.text.clear();
        self.has_failed = false;
        self.is_unknown = false;
    }

    /// The text, unless an allocation failed.
    pub(crate) fn bytes(&self) -> Result<&[u8], AllocError> {
        if self.has_failed {
            return Err(AllocError);
        }
        Ok(&self.text)
    }

    fn push(&mut self, bytes: &[u8]) {
        if self.text.extend_from_slice(bytes).is_err() {
            self.has_failed = true;
        }
    }

    /// Adds a word as it is.
    pub(crate) fn word(&mut self, word: &str) {
        self.push(word.as_bytes());
    }

    /// Adds a number in decimal digits.
    pub(crate) fn number(&mut self, value: u64) {
        match value.to_string(self.alloc) {
            Ok(text) => self.word(text.as_str()),
            Err(_) => self.has_failed = true,
        }
    }

    /// Adds a value as its `Debug` shows it.
    pub(crate) fn debug<T: Debug>(&mut self, value: &T) {
        match format!(in self.alloc; "{value:?}") {
            Ok(text) => self.word(text.as_str()),
            Err(_) => self.has_failed = true,
        }
    }

    /// Adds an id in hexadecimal digits.
    pub(crate) fn id(&mut self, id: &ObjectId) {
        self.push(&id.to_hex());
    }

    /// Adds bytes in quotes, written by `letters`.
    pub(crate) fn quote(&mut self, bytes: &[u8]) {
        self.word("'");
        self.letters(bytes);
        self.word("'");
    }

    /// Adds the text of another report in quotes.
    pub(crate) fn quote_report(&mut self, other: &Report) {
        self.quote(&other.text);
        self.has_failed |= other.has_failed;
    }

    // Adds a byte. A byte that isn't a plain character becomes two digits after a backslash.
    fn letter(&mut self, byte: u8) {
        let plain = byte > b' ' && byte < 127 && byte != b'\\' && byte != b'\'';
        if plain {
            self.push(&[byte]);
        } else {
            self.push(&[b'\\', digit(byte / 16), digit(byte % 16)]);
        }
    }

    /// Adds bytes. A long run of one byte becomes `x\*N;`, where `N` is its length.
    pub(crate) fn letters(&mut self, bytes: &[u8]) {
        let mut rest = bytes;
        for _ in 0..bytes.len() {
            let [byte, ..] = rest else {
                break;
            };
            let run = run_at_front(rest);
            self.letter(*byte);
            if run > LONGEST_RUN {
                self.word("\\*");
                self.number(run as u64);
                self.word(";");
            } else {
                for _ in 1..run {
                    self.letter(*byte);
                }
            }
            rest = cut_at(rest, run as u64).1;
        }
    }
}

/// Results of consecutive offsets. Equal ones are written once, after the first and the last offset.
#[derive(Drop)]
pub(crate) struct Runs {
    first: u64,
    count: u64,
    last: Report,
}

impl Runs {
    /// No results yet. The next one is that of the offset `first`.
    pub(crate) fn new(alloc: Global, first: u64) -> Runs {
        Runs {
            first,
            count: 0,
            last: Report::new(alloc),
        }
    }

    /// Adds the result of the next offset.
    pub(crate) fn add(&mut self, found: &Report, report: &mut Report) {
        if self.count == 0 || self.last.text.as_slice() != found.text.as_slice() {
            self.finish(report);
            self.last.clear();
            self.last.push(&found.text);
        }
        self.last.has_failed |= found.has_failed;
        self.count = self.count.saturating_add(1);
    }

    /// Writes the last result.
    pub(crate) fn finish(&mut self, report: &mut Report) {
        if self.count == 0 {
            return;
        }
        let next = self.first.saturating_add(self.count);
        report.number(self.first);
        if self.count > 1 {
            report.word("-");
            report.number(next.saturating_sub(1));
        }
        report.word(": ");
        report.push(&self.last.text);
        report.word(" ");
        report.has_failed |= self.last.has_failed;
        self.first = next;
        self.count = 0;
    }
}
