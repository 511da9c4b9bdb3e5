//! A reader of bytes in memory that returns them in pieces. One read fails.
ghost use Rattle.std.specs.Prelude.{◌≡◌, ◌<◌, ◌^◌, ◌-◌};

use std::io;
use std::io::{ErrorKind, Read};

/// The number of bytes of each read.
#[derive(Clone, Copy)]
pub enum Pieces {
    /// At most this many. Zero means one.
    UpTo(usize),
    /// A pseudorandom number each time, generated from this seed.
    Random(u64),
    /// The first read returns at most this many, the others all that is left. Zero means one.
    Two(usize),
}

/// A reader that returns bytes in pieces. One read may fail.
#[derive(Drop)]
pub struct Device<'a> {
    /// The bytes not read yet.
    pub bytes: &'a [u8],
    /// The number of bytes of each read.
    pub pieces: Pieces,
    /// The number of reads before the one that fails.
    pub fails: u64,
    /// The error of that read.
    pub kind: ErrorKind,
    /// The number of failed reads.
    pub failures: u64,
}

/// The next number of a pseudorandom sequence.
pub fn next_random(number: u64) -> u64 {
    number
        .wrapping_mul(6364136223846793005)
        .wrapping_add(1442695040888963407)
}

impl<'a> Device<'a> {
    /// A reader of `bytes` whose reads return at most `most` bytes. No read fails.
    pub fn new(bytes: &'a [u8], most: usize) -> Device<'a>
        ensures bytes { result.bytes.now ≡ bytes.now }
        ensures fails { result.fails ≡ 2 ^ 64 - 1 }
        ensures failures { result.failures ≡ 0 }
    {
        Device {
            bytes,
            pieces: Pieces::UpTo(most),
            fails: u64::MAX,
            kind: ErrorKind::Other,
            failures: 0,
        }
    }

    /// The same, but the read after `fails` others fails.
    pub fn failing(bytes: &'a [u8], most: usize, fails: u64, kind: ErrorKind) -> Device<'a>
        ensures bytes { result.bytes.now ≡ bytes.now }
        ensures fails { result.fails ≡ fails }
        ensures kind { result.kind ≡ kind }
        ensures failures { result.failures ≡ 0 }
    {
        let mut device = Device::new(bytes, most);
        device.fails = fails;
        device.kind = kind;
        device
    }

    fn next_piece(&mut self) -> usize
        ensures some { 0 < result }
        ensures bytes { self.new.bytes ≡ self.old.bytes }
    {
        match self.pieces {
            Pieces::UpTo(most) => most.max(1),
            Pieces::Random(number) => {
                let number = next_random(number);
                self.pieces = Pieces::Random(number);
                piece_of(number / 4_294_967_296)
            }
            Pieces::Two(first) => {
                self.pieces = Pieces::UpTo(usize::MAX);
                first.max(1)
            }
        }
    }
}

// At most 97 bytes in four of five cases, otherwise at most 70,000.
fn piece_of(random: u64) -> usize
    ensures { 0 < result }
{
    let most = if random % 5 == 0 { 70_000 } else { 97 };
    usize::try_from(random / 5 % most)
        .unwrap_or(0)
        .saturating_add(1)
}

impl Read for Device<'_> {
    ghost use Rattle.std.specs.Prelude.{Some};

    ghost remaining = { λ d. Some d.bytes.now };

    fn read(&mut self, buf: &mut [u8]) -> io::Result<usize> {
        if self.fails == 0 {
            self.fails = u64::MAX;
            self.failures = self.failures.saturating_add(1);
            return Err(io::Error::from(self.kind));
        }
        self.fails -= 1;
        let amount = self.next_piece().min(self.bytes.len()).min(buf.len());
        let (front, rest) = self.bytes.split_at(amount);
        buf[..amount].copy_from_slice(front);
        self.bytes = rest;
        Ok(amount)
    }
}
