//! Consumers of a pack.
ghost use Rattle.std.specs.Prelude.{◌≡◌, None, IfSome};
ghost use Rattle.gixp_packetline.specs.Reading.{refusal_of};
ghost use Rattle.gixp_sidebands.specs.Sidebands.{side};
ghost use Rattle.gixp_fetch.specs.Consume.{Copies, CopiesPack, copies_owes, PassesOver, passes_over_owes};

use crate::consume::ConsumePack;
use crate::remote_text::WithSidebands;
use bstr::BStr;
use gixp_packetline::{ExtendedBufRead, ServerMessage, read};
use gixp_progress::Progress;
use gixp_sidebands::Interrupt;
use std::io::{self, BufRead, ErrorKind, Write};
use thiserror::Error as DeriveError;

/// Why a pack can't be copied.
#[derive(Debug, Drop, DeriveError)]
pub enum CopyError {
    /// Reading from the sideband failed. `server_message` has the server's message, if that was the reason.
    #[error("Read")]
    Read(read::Error),
    /// The writer failed with this kind. How much it wrote isn't known.
    #[error("Write")]
    Write(ErrorKind),
}

impl ServerMessage for CopyError {
    ghost use Rattle.gixp_fetch.specs.FetchMessage.{copy_message};

    ghost message = { copy_message };

    fn server_message(&self) -> Option<BStr<'_>> {
        match self {
            CopyError::Read(e) => e.server_message(),
            CopyError::Write(_) => None,
        }
    }
}

// Takes the error of a failed read out of the reader.
fn read_error<T: ExtendedBufRead, Q: Progress + Drop, I: Interrupt>(
    reader: &mut WithSidebands<'_, T, Q, I>,
    shown: &io::Error,
) -> read::Error
    ensures taken { IfSome (side T.reading reader.old).fault (λ refusal. refusal_of result ≡ refusal) }
    ensures side { side T.reading reader.new ≡ record (side T.reading reader.old) { fault = None } }
{
    match reader.take_fault() {
        Some(e) => e,
        None => read::Error::Io(shown.kind()),
    }
}

/// Copies a pack to a writer while it is received, up to its flush packet, in pieces borrowed from the buffer of the
/// connection. It allocates nothing, and doesn't flush the writer.
#[derive(Debug, Drop)]
pub struct CopyPack<W> {
    /// The writer that gets the pack.
    pub writer: W,
}

impl<W: Write> CopyPack<W> {
    /// Copies the pack, up to its flush packet (gitprotocol-pack, "Packfile Data").
    ///
    /// # Errors
    ///
    /// A read or a write failed. The writer has all bytes that were read before. At a failed write it may have a part of
    /// the last piece.
    pub fn copy<T: ExtendedBufRead, Q: Progress + Drop, I: Interrupt>(
        &mut self,
        reader: &mut WithSidebands<'_, T, Q, I>,
    ) -> Result<(), CopyError>
        ensures { Copies (W.contents self.old.writer) (side T.reading reader.old) result (W.contents self.new.writer)
            (side T.reading reader.new) }
    {
        'pieces: loop {
            match reader.fill() {
                Ok(true) => {}
                Ok(false) => return Ok(()),
                Err(e) => return Err(CopyError::Read(read_error(reader, &e))),
            }
            let piece = reader.buffer();
            let count = piece.len();
            match self.writer.write_all(piece) {
                Ok(()) => {}
                Err(e) => return Err(CopyError::Write(e.kind())),
            }
            reader.consume(count);
        }
    }
}

impl<W: Write, P> ConsumePack<P> for CopyPack<W> {
    type Error = CopyError;

    ghost consumes = { λ c s p r d t q. CopiesPack (W.contents c.writer) s r (W.contents d.writer) t };

    fn consume_pack<T: ExtendedBufRead, Q: Progress + Drop, I: Interrupt>(
        &mut self,
        reader: &mut WithSidebands<'_, T, Q, I>,
        _progress: &mut P,
    ) -> Result<bool, CopyError> {
        self.copy(reader)?;
        Ok(true)
    }

    ghost owes = { λ c s p r d t q h. copies_owes (W.contents c.writer) (W.contents d.writer) s t r h };
}

/// Reads a pack up to its flush packet, and drops it.
#[derive(Clone, Copy, Debug)]
pub struct ReadToEnd;

impl<P> ConsumePack<P> for ReadToEnd {
    type Error = CopyError;

    ghost consumes = { λ c s p r d t q. PassesOver s r t };

    fn consume_pack<T: ExtendedBufRead, Q: Progress + Drop, I: Interrupt>(
        &mut self,
        reader: &mut WithSidebands<'_, T, Q, I>,
        _progress: &mut P,
    ) -> Result<bool, CopyError> {
        'pieces: loop {
            match reader.fill() {
                Ok(true) => {}
                Ok(false) => return Ok(true),
                Err(e) => return Err(CopyError::Read(read_error(reader, &e))),
            }
            let count = reader.buffer().len();
            reader.consume(count);
        }
    }

    ghost owes = { λ c s p r d t q h. passes_over_owes s t r h };
}
