//! A writer that keeps its input. One write fails.
ghost use Rattle.std.specs.Prelude.{◌≡◌, ◌^◌, ◌-◌, [], true};

use std::alloc::Global;
use std::io;
use std::io::{ErrorKind, Write};

/// Keeps its input. One write may fail, and so may each flush.
#[derive(Drop)]
pub struct Paper {
    /// The bytes written.
    pub bytes: Vec<u8>,
    /// The limit of bytes for one write.
    pub most: usize,
    /// The limit of bytes for all writes. A write beyond it fails.
    pub room: usize,
    /// The number of writes before the one that fails.
    pub fails: u64,
    /// The error of a write or a flush.
    pub kind: ErrorKind,
    /// Whether a flush succeeds.
    pub flushes: bool,
}

impl Paper {
    /// An empty writer. One write takes at most `most` bytes, and none fails.
    pub fn new(alloc: Global, most: usize) -> Paper
        ensures bytes { result.bytes.items ≡ [] }
        ensures fails { result.fails ≡ 2 ^ 64 - 1 }
        ensures flushes { result.flushes ≡ true }
    {
        Paper {
            bytes: Vec::new(alloc),
            most,
            room: usize::MAX,
            fails: u64::MAX,
            kind: ErrorKind::BrokenPipe,
            flushes: true,
        }
    }

    /// The same, but the write after `fails` others fails.
    pub fn failing(alloc: Global, most: usize, fails: u64, kind: ErrorKind) -> Paper
        ensures bytes { result.bytes.items ≡ [] }
        ensures fails { result.fails ≡ fails }
        ensures kind { result.kind ≡ kind }
    {
        let mut paper = Paper::new(alloc, most);
        paper.fails = fails;
        paper.kind = kind;
        paper
    }
}

impl Write for Paper {
    ghost use Rattle.std.specs.Prelude.{Some};

    ghost contents = { λ p. Some p.bytes.items };

    fn write(&mut self, buf: &[u8]) -> io::Result<usize> {
        if self.room == 0 {
            return Err(io::Error::from(self.kind));
        }
        if self.fails == 0 {
            self.fails = u64::MAX;
            return Err(io::Error::from(self.kind));
        }
        self.fails -= 1;
        let amount = self.most.min(self.room).min(buf.len());
        match self.bytes.extend_from_slice(&buf[..amount]) {
            Ok(()) => {
                self.room -= amount;
                Ok(amount)
            }
            Err(_) => Err(io::Error::from(ErrorKind::OutOfMemory)),
        }
    }

    fn flush(&mut self) -> io::Result<()> {
        if self.flushes {
            Ok(())
        } else {
            Err(io::Error::from(self.kind))
        }
    }
}
