//! Packets over a reader, through one buffer.
ghost use Rattle.std.specs.Prelude.{◌≡◌, ◌≤◌, ◌<◌, ◌+◌, ◌-◌, ◌↔◌, false, length, take, Some, None, Ok, Err, [], IfOk, IsTrue, true, ◌⊎◌, ⊤};
ghost use Rattle.gixp_packetline.specs.declared.packet.Head.TheVariants.{Partial};
ghost use Rattle.gixp_packetline.specs.Frames.{head_of};
ghost use Rattle.gixp_packetline.specs.Reading.{IsFresh, Rose, Reads, Peeks, PlainIf, refusal_of, is_end};
ghost use Rattle.gixp_packetline.specs.Pieces.{is_error, error_message, server};
ghost use Rattle.gixp_packetline.specs.Items.{is_stop};
ghost use Rattle.std.specs.declared.io.ErrorKind.TheVariants.{Other};
ghost use Rattle.gixp_packetline.specs.declared.read.Error.TheVariants.{Io, Memory};
ghost use Rattle.gixp_packetline.specs.declared.packets.Place.TheVariants.{Open};
ghost use Rattle.gixp_packetline.specs.Packets.{NotesRead, Fills, FillsHeader, Spends, packets_reading, memory_remaining};

use crate::packet::{Head, read_head};
use crate::protocol::{MessageKind, Protocol};
use crate::read::{Error, ExtendedBufRead};
use crate::window::Window;
use bstr::BString;
use gixp_utils::without_line_end;
use std::alloc::{AllocError, Global};
use std::io::{Cursor, ErrorKind, Read};

/// Where a reader of lines is in its stream.
#[derive(Clone, Copy, Debug, PartialEq, Eq, Drop)]
pub enum Place {
    /// Before a packet line.
    Open,
    /// Before a line that was peeked at.
    Peeked,
    /// At a flush packet, or under version 2 at a delimiter packet.
    Stopped(MessageKind),
    /// At a packet that is not allowed there.
    Refused,
}

/// Reads packet lines into one buffer, and lends their payloads from it (gitprotocol-common, "pkt-line Format").
/// [`LineReader`] and the transports are built on it.
///
/// [`LineReader`]: crate::LineReader
#[derive(Drop)]
pub struct Packets<R> {
    alloc: Global,
    reader: R,
    window: Window,
    place: Place,
    // Whether the reader has reached its end.
    ended: bool,
    version: Protocol,
    reads_left: u64,
    failures: u64,
}

impl<R: Read + Drop> Packets<R> {
    /// Reads packet lines from this reader, at first under version 2. It allocates one buffer of 65,520 bytes, and reads nothing yet.
    ///
    /// # Errors
    ///
    /// The buffer could not be allocated.
    pub fn new(alloc: Global, reader: R) -> Result<Packets<R>, AllocError>
        ensures { IfOk result (λ p. IsFresh (R.remaining reader) (packets_reading R.remaining p)) }
    {
        let window = Window::new(alloc)?;
        Ok(Packets {
            alloc,
            reader,
            window,
            place: Place::Open,
            ended: false,
            version: Protocol::V2,
            reads_left: u64::MAX,
            failures: 0,
        })
    }
}

impl<R: Read + Drop> Packets<R> {
    /// Continues with another reader, under the same version. Bytes that were read from the previous one are dropped.
    pub fn restart(&mut self, reader: R)
        ensures { self.new ≡ record self.old {
          reader = reader;
          window = record { pending = []; lent = [] };
          place = Open;
          ended = false;
        } }
    {
        self.reader = reader;
        self.window.clear();
        self.place = Place::Open;
        self.ended = false;
    }
}

impl Packets<Cursor<Vec<u8>>> {
    /// Frees the bytes in memory once the last of them is read.
    pub fn free_read(&mut self)
        ensures { packets_reading memory_remaining self.new ≡ packets_reading memory_remaining self.old }
    {
        if self.reader.position() >= self.reader.get_ref().len() as u64 {
            self.reader = Cursor::new(Vec::new(self.alloc));
        }
    }
}

impl<R: Read> Packets<R> {
    ghost use Rattle.gixp_packetline.specs.ReadAhead.{HoldsAhead};

    /// Returns the reader, and the bytes that were read from it after the last line, flush packet or delimiter packet that was
    /// taken or peeked at.
    pub fn into_parts(self) -> (R, Vec<u8>)
        ensures reader { result.0 ≡ self.reader }
        ensures ahead { HoldsAhead (packets_reading R.remaining self) (R.remaining result.0) result.1.items }
    {
        let Packets {
            alloc: _alloc,
            reader,
            window,
            place: _place,
            ended: _ended,
            version: _version,
            reads_left: _reads_left,
            failures: _failures,
        } = self;
        (reader, window.into_pending())
    }

    /// Shortens the lent line to its first `len` bytes.
    pub fn shorten_line(&mut self, len: usize)
        requires { len ≤ length self.old.window.lent }
        ensures { self.new ≡ record self.old { window = record self.old.window { lent = take len self.old.window.lent } } }
    {
        self.window.shorten(len);
    }

    /// The version that decides at which packets the lines end.
    pub fn version(&self) -> Protocol
        ensures { result ≡ self.now.version }
    {
        self.version
    }

    /// How many reads and writes failed, up to the greatest value of the count.
    pub fn failures(&self) -> u64
        ensures { result ≡ self.now.failures }
    {
        self.failures
    }

    /// Counts one more failed read or write, up to the greatest value of the count.
    pub fn note_failure(&mut self)
        ensures rose { Rose self.old.failures self.new.failures }
        ensures rest { self.new ≡ record self.old { failures = self.new.failures } }
    {
        self.failures = self.failures.saturating_add(1);
    }

    // Whether one more read is allowed; it counts as made.
    fn spend_read(&mut self) -> bool
        ensures may { IsTrue result ↔ (0 < self.old.reads_left) }
        ensures counted { self.new ≡ record self.old { reads_left = self.old.reads_left - 1 } }
    {
        if self.reads_left == 0 {
            return false;
        }
        self.reads_left -= 1;
        true
    }

    // Records the result of a read. A read of no bytes is the end of the stream, and isn't counted as a failure.
    fn note_read(&mut self, received: Result<usize, ErrorKind>) -> Result<(), Error>
        ensures { NotesRead self.old self.new received result }
    {
        match received {
            Ok(0) => {
                self.ended = true;
                Err(Error::Io(ErrorKind::UnexpectedEof))
            }
            Ok(_) => Ok(()),
            Err(kind) => {
                self.note_failure();
                self.ended = is_end(kind);
                Err(Error::Io(kind))
            }
        }
    }

    // Reads once, into all of the free buffer.
    fn fill(&mut self) -> Result<(), Error>
        requires front { head_of self.old.window.pending ≡ Partial }
        requires open { self.old.ended ≡ false }
        ensures fills { Fills R.remaining self.old self.new result }
        ensures gives_up { self.old.reads_left ≡ 0 → result ≡ Err (Io Other) }
        ensures counts { 0 < self.old.reads_left → self.old.reads_left ≡ self.new.reads_left + 1 }
    {
        if !self.spend_read() {
            self.note_failure();
            return Err(Error::Io(ErrorKind::Other));
        }
        let received = self.window.receive(&mut self.reader);
        self.note_read(received)
    }

    // Reads until the packet line at the front is whole, and returns its head.
    fn fill_header(&mut self) -> Result<Head, Error>
        ensures { FillsHeader R.remaining self.old self.new result }
    {
        loop {
            match read_head(self.window.pending()) {
                Head::Partial => {}
                head => return Ok(head),
            }
            if self.ended {
                return Err(Error::Io(ErrorKind::UnexpectedEof));
            }
            self.fill()?;
        }
    }

    // Takes the next line (true) or the next flush or delimiter packet (false).
    fn advance(&mut self) -> Result<bool, Error>
        requires { self.old.place ≡ Open }
        ensures reads { Reads (packets_reading R.remaining self.old) (packets_reading R.remaining self.new) result }
        ensures plain { PlainIf true (packets_reading R.remaining self.new) result }
        ensures open { result ≡ Ok true → self.new.place ≡ Open }
        ensures spends { Spends self.old self.new result }
    {
        match self.fill_header() {
            Ok(Head::Data(size)) => {
                let text = &self.window.pending()[4..size];
                if is_server_error(text) {
                    return Err(server_error(self.alloc, text));
                }
                self.window.take_line(4, size);
                Ok(true)
            }
            Ok(Head::Special(kind)) => {
                if is_stop(self.version, kind) {
                    self.window.skip(4);
                    self.place = Place::Stopped(kind);
                    Ok(false)
                } else {
                    self.place = Place::Refused;
                    Err(Error::UnexpectedFrame)
                }
            }
            Ok(Head::Bad(e)) => Err(Error::Decode(e)),
            Ok(Head::Partial) => unreachable!(),
            Err(e) => Err(e),
        }
    }
}

impl<R: Read> ExtendedBufRead for Packets<R> {
    ghost reading = { packets_reading R.remaining };

    ghost is_plain = { true };

    ghost asks = { λ a stops b. ⊤ };

    ghost stays = { λ r. tt };

    ghost joins = { λ a b c stops g h. tt };

    fn next_line(&mut self) -> Result<bool, Error>
        ensures reads { Reads (packets_reading R.remaining self.old) (packets_reading R.remaining self.new) result }
        ensures plain { PlainIf true (packets_reading R.remaining self.new) result }
        ensures asks { ⊤ }
        ensures spends { Spends self.old self.new result }
    {
        match self.place {
            Place::Peeked => {
                self.place = Place::Open;
                Ok(true)
            }
            Place::Stopped(_) => Ok(false),
            Place::Refused => Err(Error::UnexpectedFrame),
            Place::Open => self.advance(),
        }
    }

    fn peek_line(&mut self) -> Result<bool, Error>
        ensures peeks { Peeks (packets_reading R.remaining self.old) (packets_reading R.remaining self.new) result }
        ensures plain { PlainIf true (packets_reading R.remaining self.new) result }
        ensures asks { ⊤ }
        ensures spends { Spends self.old self.new result }
    {
        match self.place {
            Place::Peeked => Ok(true),
            Place::Stopped(_) => Ok(false),
            Place::Refused => Err(Error::UnexpectedFrame),
            Place::Open => match self.advance() {
                Ok(true) => {
                    self.place = Place::Peeked;
                    Ok(true)
                }
                other => other,
            },
        }
    }

    fn line(&self) -> &[u8] {
        self.window.lent()
    }

    fn stopped_at(&self) -> Option<MessageKind> {
        match self.place {
            Place::Stopped(kind) => Some(kind),
            _ => None,
        }
    }

    fn reset(&mut self, version: Protocol) {
        if let Place::Stopped(_) = self.place {
            self.place = Place::Open;
        }
        self.version = version;
    }
}

// A reader that fails with `UnexpectedEof` is taken to be at its end.
fn is_end(kind: ErrorKind) -> bool
    ensures { result ≡ is_end kind }
{
    match kind {
        ErrorKind::UnexpectedEof => true,
        _ => false,
    }
}

// Whether a payload is an `ERR ` line.
fn is_server_error(text: &[u8]) -> bool
    ensures { result ≡ is_error text.now }
{
    text.starts_with(b"ERR ")
}

fn server_error(alloc: Global, text: &[u8]) -> Error
    requires { is_error text.now ≡ true }
    ensures { (refusal_of result ≡ server (error_message text.now)) ⊎ (result ≡ Memory) }
{
    match without_line_end(&text[4..]).to_vec(alloc) {
        Ok(message) => Error::Server {
            message: BString::from(message),
        },
        Err(_) => Error::Memory,
    }
}

fn is_stop(version: Protocol, kind: MessageKind) -> bool
    ensures { result ≡ is_stop version kind }
{
    match kind {
        MessageKind::Flush => true,
        MessageKind::Delimiter => match version {
            Protocol::V2 => true,
            _ => false,
        },
        _ => false,
    }
}
