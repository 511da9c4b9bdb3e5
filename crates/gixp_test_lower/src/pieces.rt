//! A reader that returns a stream in pieces, and reads of any size from a reader over it.
use std::alloc::{AllocError, Global};
use std::io::{self, ErrorKind, Read};

/// Returns at most `most` bytes in each read. If `fails` is true, every other read fails.
#[derive(Drop)]
pub(crate) struct PieceReader<'a> {
    pub(crate) bytes: &'a [u8],
    most: usize,
    fails: bool,
    failed: bool,
}

impl<'a> PieceReader<'a> {
    pub(crate) fn new(bytes: &'a [u8], most: usize, fails: bool) -> PieceReader<'a> {
        PieceReader {
            bytes,
            most,
            fails,
            failed: false,
        }
    }
}

impl Read for PieceReader<'_> {
    fn read(&mut self, buf: &mut [u8]) -> io::Result<usize> {
        self.failed = self.fails && !self.failed;
        if self.failed {
            return Err(io::Error::from(ErrorKind::WouldBlock));
        }
        let count = self.most.min(self.bytes.len()).min(buf.len());
        let (front, rest) = self.bytes.split_at(count);
        buf[..count].copy_from_slice(front);
        self.bytes = rest;
        Ok(count)
    }
}

/// Reads until `count` bytes came, or the reader was at its end twice, or returned `InvalidData` twice. Each read requests at
/// most `room` bytes. Returns the bytes, and whether the reader returned `InvalidData`.
pub(crate) fn read_until<R: Read>(
    alloc: Global,
    reader: &mut R,
    room: usize,
    count: usize,
) -> Result<(Vec<u8>, bool), AllocError> {
    let mut found = Vec::new(alloc);
    let mut buf = [0; 16];
    let mut ends = 0u8;
    let mut refusals = 0u8;
    for _ in 0..512 {
        if found.len() >= count || ends >= 2 || refusals >= 2 {
            break;
        }
        match reader.read(&mut buf[..room.min(16)]) {
            Ok(count) => {
                if count == 0 {
                    ends = ends.saturating_add(1);
                }
                found.extend_from_slice(&buf[..count.min(16)])?;
            }
            Err(e) => {
                if e.kind() == ErrorKind::InvalidData {
                    refusals = refusals.saturating_add(1);
                }
            }
        }
    }
    Ok((found, refusals > 0))
}
