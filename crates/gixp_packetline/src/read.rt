//! Readers of lines.
ghost use Rattle.std.specs.Prelude.{◌≡◌, Bool, false, string_bytes};
ghost use Rattle.gixp_packetline.specs.Reading.{Reading, Reads, Peeks, ReadsLent, PeeksLent, ReadsText, PlainIf, PlainText, is_interrupted, reset_to};

use crate::packet::PacketError;
use crate::protocol::{MessageKind, Protocol};
use bstr::BString;
use std::alloc::{AllocError, AllocFailed};
use std::io::ErrorKind;
use thiserror::Error as DeriveError;

/// Why a call of a reader of lines fails.
///
/// `Decode`, `Server`, `UnexpectedFrame`, `BadBand` and the end of the stream (`Io(UnexpectedEof)`) are sticky: every
/// later read returns the same error. `Io` of another kind, `Interrupted` and `Memory` lose nothing: the next call goes
/// on with the bytes read so far. After `NotUtf8` the line is taken.
#[derive(Debug, Drop, DeriveError)]
pub enum Error {
    /// A read failed with this kind, or the stream ended between packet lines or within one (`UnexpectedEof`). The call
    /// doesn't repeat a failed read.
    #[error("Io")]
    Io(ErrorKind),
    /// Four bytes begin no packet line.
    #[error("Decode")]
    Decode(PacketError),
    /// The server sent an `ERR ` line. The message is the rest of it, without one ending LF (gitprotocol-pack, "pkt-line Format").
    #[error("Server")]
    Server { message: BString },
    /// A packet without a payload that doesn't end lines under this version.
    #[error("UnexpectedFrame")]
    UnexpectedFrame,
    /// `readline_str` read a line that isn't UTF-8.
    #[error("NotUtf8")]
    NotUtf8,
    /// A payload whose first byte, this one, is not a sideband number (gitprotocol-pack, "Packfile Data").
    #[error("BadBand")]
    BadBand(u8),
    /// The caller's interrupt ended the call.
    #[error("Interrupted")]
    Interrupted,
    /// An allocation failed.
    #[error("Memory")]
    Memory,
}

impl From<AllocError> for Error {
    ghost use Rattle.gixp_packetline.specs.declared.read.Error.TheVariants.{Memory};

    ghost from_gives = { λ _ error. error ≡ Memory };

    fn from(_e: AllocError) -> Error {
        Error::Memory
    }
}

impl<T: Drop> From<AllocFailed<T>> for Error {
    ghost use Rattle.gixp_packetline.specs.declared.read.Error.TheVariants.{Memory};

    ghost from_gives = { λ _ error. error ≡ Memory };

    fn from(_e: AllocFailed<T>) -> Error {
        Error::Memory
    }
}

/// Reads lines up to a flush packet, under version 2 also up to a delimiter packet (gitprotocol-common, "pkt-line
/// Format"; gitprotocol-v2, "Packet-Line Framing").
///
/// A read or peek at such a packet takes it. After it there are no more lines until `reset`.
///
/// Code over any reader calls `next_line` or `peek_line`, and then `line`. Their contracts say what an error leaves.
/// The contract of a call that lends its line can't.
pub trait ExtendedBufRead {
    // The state of the reader.
    ghost reading: { Self → Reading };

    // Whether it reads no sidebands, calls no interrupt, and allocates only for the text of an `ERR ` line.
    ghost is_plain: { Bool };

    // What calls do besides reading: which interrupts and listeners they call. If the flag is true, the last of them
    // returned true; no other did.
    ghost asks: { Self → Bool → Self → Type 0 };

    /// Takes the next line and returns true; `line` then lends it. Returns false at a flush packet (version 2: or a delimiter packet).
    ///
    /// # Errors
    ///
    /// Any [`Error`] except `NotUtf8`. [`Error`] says what each leaves.
    fn next_line(&mut self) -> Result<bool, Error>
        ensures reads { Reads (reading self.old) (reading self.new) result }
        ensures plain { PlainIf is_plain (reading self.new) result }
        ensures asks { asks self.old (is_interrupted result) self.new };

    /// Peeks at the next line and returns true; `line` then lends it, and it is still to come. Returns false at a flush
    /// packet (version 2: or a delimiter packet).
    ///
    /// # Errors
    ///
    /// As `next_line`.
    fn peek_line(&mut self) -> Result<bool, Error>
        ensures peeks { Peeks (reading self.old) (reading self.new) result }
        ensures plain { PlainIf is_plain (reading self.new) result }
        ensures asks { asks self.old (is_interrupted result) self.new };

    /// The line that the last call took or peeked at, with its LF.
    fn line(&self) -> &[u8]
        ensures { result.now ≡ (reading self.now).line };

    /// The flush or delimiter packet that the reader is at. `None` before the first one and after `reset`.
    fn stopped_at(&self) -> Option<MessageKind>
        ensures { result ≡ (reading self.now).stopped };

    /// Goes on after the flush or delimiter packet, if the reader is at one, under this version.
    fn reset(&mut self, version: Protocol)
        ensures reading { reading self.new ≡ reset_to version (reading self.old) }
        ensures asks { asks self.old false self.new };

    /// Lends the next line, which is still to come. `None` at a flush packet (version 2: or a delimiter packet).
    ///
    /// # Errors
    ///
    /// As `next_line`.
    fn peek_data_line(&mut self) -> Result<Option<&[u8]>, Error>
        ensures answers { (new : Reading) × PeeksLent (reading self.old) new result × PlainIf is_plain new result }
    {
        let shown = self.peek_line();
        match shown {
            Ok(true) => Ok(Some(self.line())),
            Ok(false) => Ok(None),
            Err(e) => Err(e),
        }
    }

    /// Takes the next line and lends it. `None` at a flush packet (version 2: or a delimiter packet).
    ///
    /// # Errors
    ///
    /// As `next_line`.
    fn readline(&mut self) -> Result<Option<&[u8]>, Error>
        ensures answers { (new : Reading) × ReadsLent (reading self.old) new result × PlainIf is_plain new result }
    {
        let taken = self.next_line();
        match taken {
            Ok(true) => Ok(Some(self.line())),
            Ok(false) => Ok(None),
            Err(e) => Err(e),
        }
    }

    /// Takes the next line, appends it to the text, and returns its number of bytes. Returns 0 at a flush packet
    /// (version 2: or a delimiter packet).
    ///
    /// # Errors
    ///
    /// As `next_line`. `NotUtf8` where the line isn't UTF-8; the line is taken. After `Memory` for the text the line is
    /// still to come. Each error leaves the text as it was.
    fn readline_str(&mut self, text: &mut String) -> Result<usize, Error>
        ensures text { ReadsText (reading self.old) (reading self.new) (string_bytes text.old) (string_bytes text.new) result }
        ensures plain { PlainText is_plain (reading self.old) (reading self.new) result }
        ensures asks { asks self.old (is_interrupted result) self.new }
    {
        if !self.peek_line()? {
            return Ok(0);
        }
        let Ok(line) = str::from_utf8(self.line()) else {
            let _ = self.next_line();
            return Err(Error::NotUtf8);
        };
        let len = line.len();
        if text.push_str(line).is_err() {
            return Err(Error::Memory);
        }
        let _ = self.next_line();
        Ok(len)
    }

    // Making no call changes nothing.
    ghost stays: { (r : Self) → asks r false r };

    // Calls compose, as long as the earlier ones were not stopped.
    ghost joins: { (a b c : Self) (stops : Bool) → asks a false b → asks b stops c → asks a stops c };
}
