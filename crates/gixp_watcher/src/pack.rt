//! A consumer of a pack, with a limit and its own error.
ghost use Rattle.std.specs.Prelude.{◌≡◌, ℕ, List};
ghost use Rattle.gix_protocol.specs.Bands.{side_reading};
ghost use Rattle.gix_protocol.specs.Receive.{ReadsOn};

use gix_protocol::client::{Error, PackError};
use gix_protocol::fetch::{ConsumePack, CopyError, CopyPack, WithSidebands};
use gix_protocol::transport::{ExtendedBufRead, Interrupt, Progress};
use std::alloc::Global;
use std::io;
use std::io::{ErrorKind, Write};

/// The error of the consumer.
#[derive(Debug, Drop)]
pub enum PackTooLarge {
    /// The pack exceeds the limit. The text is the message.
    TooLarge(String),
    /// The pack couldn't be read or written.
    Copy(CopyError),
    /// An allocation failed.
    Memory,
}

impl From<PackTooLarge> for Error {
    fn from(e: PackTooLarge) -> Error {
        match e {
            PackTooLarge::TooLarge(why) => Error::from(PackError::Refused(why)),
            PackTooLarge::Copy(e) => Error::from(e),
            PackTooLarge::Memory => Error::Memory,
        }
    }
}

// A writer that accepts `left` more bytes.
#[derive(Drop)]
struct Limited<W> {
    writer: W,
    left: usize,
    is_over: bool,
}

impl<W: Write> Write for Limited<W> {
    fn write(&mut self, bytes: &[u8]) -> io::Result<usize> {
        if bytes.len() > self.left {
            self.is_over = true;
            return Err(io::Error::from(ErrorKind::FileTooLarge));
        }
        self.left -= bytes.len();
        self.writer.write_all(bytes)?;
        Ok(bytes.len())
    }

    fn flush(&mut self) -> io::Result<()> {
        self.writer.flush()
    }
}

/// Writes a pack of limited size.
#[derive(Drop)]
pub struct LimitedPack<W> {
    alloc: Global,
    copy: CopyPack<Limited<W>>,
}

impl<W: Write> LimitedPack<W> {
    /// Writes a pack of at most `most` bytes into this writer.
    pub fn new(alloc: Global, writer: W, most: usize) -> LimitedPack<W> {
        let writer = Limited {
            writer,
            left: most,
            is_over: false,
        };
        LimitedPack {
            alloc,
            copy: CopyPack { writer },
        }
    }

    /// The writer, which has the pack.
    pub fn into_writer(self) -> W {
        let LimitedPack {
            alloc: _,
            copy: CopyPack { writer },
        } = self;
        let Limited {
            writer,
            left: _,
            is_over: _,
        } = writer;
        writer
    }

    // The error of a failed copy.
    fn reason(&self, e: CopyError) -> PackTooLarge {
        if !self.copy.writer.is_over {
            return PackTooLarge::Copy(e);
        }
        match String::from_str(self.alloc, "it has more bytes than the limit") {
            Ok(why) => PackTooLarge::TooLarge(why),
            Err(_) => PackTooLarge::Memory,
        }
    }
}

impl<W: Write, P> ConsumePack<P> for LimitedPack<W> {
    type Error = PackTooLarge;

    ghost consumes = { λ _ s _ _ _ t _. (read : List ℕ) × ReadsOn s t read × ((side_reading t).held ≡ (side_reading s).held) };

    fn consume_pack<T: ExtendedBufRead, Q: Progress + Drop, I: Interrupt>(
        &mut self,
        reader: &mut WithSidebands<'_, T, Q, I>,
        _progress: &mut P,
    ) -> Result<bool, PackTooLarge> {
        match self.copy.copy(reader) {
            Ok(()) => Ok(true),
            Err(e) => Err(self.reason(e)),
        }
    }

    ghost owes = { λ _ _ _ _ _ _ _ h. h };
}
