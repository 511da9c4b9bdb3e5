//! The writer of a pack: its header, and the pipe to git.
ghost use Rattle.std.specs.Prelude.{◌≡◌, ◌≤◌, ◌-◌, min, length, IfOk};

use crate::error::error_kind_of;
use crate::pack::run::PackRun;
use std::fs::File;
use std::io::{ErrorKind, Write};
use std::{io, mem};

/// The destination of the pack's bytes.
#[derive(Drop)]
pub(crate) enum Stream {
    /// The header, which isn't complete yet. git is started when it is.
    Header(Vec<u8>),
    /// The pipe to git.
    Git(File),
    /// No bytes can be written. Each write returns this error.
    Failed(ErrorKind),
}

// The size of a header.
const HEADER_LEN: usize = 12;

// How many of the next `size` bytes belong to the header, of which `known` bytes are known.
fn header_bytes_left(known: usize, size: usize) -> usize
    ensures value { result ≡ min (12 - known) size }
    ensures within { result ≤ size }
{
    HEADER_LEN.saturating_sub(known).min(size)
}

/// The writer of a pack. If the pack can't be written, each write returns the error.
#[derive(Drop)]
pub(crate) struct PackWriter<'a> {
    pub(crate) run: PackRun<'a>,
    pub(crate) stream: Stream,
}

impl PackWriter<'_> {
    // Reads bytes of the header. Returns their number, and whether the header is complete.
    fn read_header(header: &mut Vec<u8>, buf: &[u8]) -> io::Result<(usize, bool)>
        ensures { IfOk result (λ taken. taken.0 ≤ length buf.now) }
    {
        let count = header_bytes_left(header.len(), buf.len());
        match header.extend_from_slice(&buf[..count]) {
            Ok(()) => Ok((count, header.len() == HEADER_LEN)),
            Err(_) => Err(io::Error::from(ErrorKind::OutOfMemory)),
        }
    }

    // Starts git with the header.
    fn start(&mut self) -> io::Result<()> {
        let stream = mem::replace(&mut self.stream, Stream::Failed(ErrorKind::Other));
        let Stream::Header(header) = stream else {
            return Err(io::Error::from(ErrorKind::Other));
        };
        match self.run.start(&header) {
            Ok(file) => {
                self.stream = Stream::Git(file);
                Ok(())
            }
            Err(e) => {
                self.stream = Stream::Failed(error_kind_of(&e));
                Err(io::Error::from(error_kind_of(&e)))
            }
        }
    }
}

impl Write for PackWriter<'_> {
    fn write(&mut self, buf: &[u8]) -> io::Result<usize> {
        let (count, is_whole) = match &mut self.stream {
            Stream::Header(header) => PackWriter::read_header(header, buf)?,
            Stream::Git(file) => match file.write(buf) {
                Ok(count) => return Ok(count),
                Err(e) => {
                    self.run.record_write_error(e.kind());
                    return Err(e);
                }
            },
            Stream::Failed(kind) => return Err(io::Error::from(*kind)),
        };
        if is_whole {
            self.start()?;
        }
        Ok(count)
    }

    fn flush(&mut self) -> io::Result<()> {
        match &mut self.stream {
            Stream::Header(_) => Ok(()),
            Stream::Git(file) => file.flush(),
            Stream::Failed(kind) => Err(io::Error::from(*kind)),
        }
    }
}
