//! A transport over a reader and a writer.
ghost use Rattle.std.specs.Prelude.{◌≡◌, ◌≤◌, Err, IfOk, true, length, ⊤};
ghost use Rattle.std.specs.IoError.{error_kind};
ghost use Rattle.bstr.specs.Owned.{bstring_bytes};
ghost use Rattle.gixp_packetline.specs.FrameText.{payload_text};
ghost use Rattle.gixp_packetline.specs.ReadAhead.{HoldsAhead};
ghost use Rattle.gixp_transport.specs.Greeting.{parameters_of};
ghost use Rattle.gixp_capabilities.specs.declared.client.Error.TheVariants.{AuthenticationUnsupported};
ghost use Rattle.gixp_transport.specs.Handshake.{Greets, Identifies};
ghost use Rattle.gixp_transport.specs.Transport.{Writes, EndsBy, IsBroken};

use crate::advertisement::advertisement;
use crate::frame_text;
use crate::greeting::{greeting, greeting_fits};
use crate::service::{Account, Opening, Service, SetServiceResponse};
use crate::transport::Transport;
use bstr::{BStr, BString};
use gixp_capabilities::client::Error;
use gixp_packetline::packets::Packets;
use gixp_packetline::{ExtendedBufRead, MessageKind, Protocol, read};
use std::alloc::{AllocError, Global};
use std::io;
use std::io::{ErrorKind, Read, Write};

/// A transport over a reader and a writer, such as a socket or the two ends of a process (gitprotocol-pack,
/// "Transports"). It persists: all requests use one connection, and so do their responses.
///
/// A line is written in three pieces, and the writer is flushed at the end of each request, so a buffered writer saves
/// system calls. After a failed write it is unknown which bytes were sent, and every later request returns the same
/// error.
#[derive(Drop)]
pub struct Connection<R, W> {
    packets: Packets<R>,
    writer: W,
    url: BString,
    // The requested version.
    version: Protocol,
    accepted: Vec<Protocol>,
    // The repository for the first message, if there is one.
    opening: Option<Opening>,
    // The error of a failed write.
    broken: Option<ErrorKind>,
}

impl<R: Read + Drop, W: Write + Drop> Connection<R, W> {
    ghost use Rattle.gixp_transport.specs.Connection.{connection_reading, IsNewConnection};

    /// A transport over this reader and writer, with this URL. Its handshake sends a first message with `opening`, if
    /// there is one, and requests this version. It accepts these versions, or all if the list is empty. It allocates
    /// one buffer of 65,520 bytes, and reads and writes nothing yet.
    ///
    /// # Errors
    ///
    /// The buffer could not be allocated. The arguments are dropped.
    pub fn new(
        alloc: Global,
        reader: R,
        writer: W,
        url: BString,
        version: Protocol,
        accepted: Vec<Protocol>,
        opening: Option<Opening>,
    ) -> Result<Connection<R, W>, AllocError>
        ensures { IfOk result (λ c. IsNewConnection (R.remaining reader) (W.contents writer)
            (bstring_bytes url) version accepted.items opening
            (connection_reading R.remaining W.contents c)) }
    {
        let packets = Packets::new(alloc, reader)?;
        Ok(Connection {
            packets,
            writer,
            url,
            version,
            accepted,
            opening,
            broken: None,
        })
    }
}

impl<R: Read, W: Write> Connection<R, W> {
    ghost use Rattle.gixp_transport.specs.Connection.{connection_reading, connection_reader, connection_writer};

    /// Returns the reader, the writer, and the bytes that were read from the reader but not taken. These bytes precede
    /// those that the reader returns next. A line that was peeked at counts as taken.
    pub fn into_parts(self) -> (R, W, Vec<u8>)
        ensures reader { result.0 ≡ connection_reader self }
        ensures writer { result.1 ≡ connection_writer self }
        ensures ahead { HoldsAhead (connection_reading R.remaining W.contents self) (R.remaining result.0) result.2.items }
        ensures written { W.contents result.1 ≡ (connection_reading R.remaining W.contents self).held.written }
    {
        let Connection {
            packets,
            writer,
            url: _url,
            version: _version,
            accepted: _accepted,
            opening: _opening,
            broken: _broken,
        } = self;
        let (reader, ahead) = packets.into_parts();
        (reader, writer, ahead)
    }

    /// The writer, with everything that was written.
    pub fn writer(&self) -> &W
        ensures { W.contents result.now ≡ (connection_reading R.remaining W.contents self.now).held.written }
    {
        &self.writer
    }

    // Records that a write failed with this kind.
    fn break_off(&mut self, kind: ErrorKind) -> Error
        ensures { IsBroken (connection_reading R.remaining W.contents self.old)
            (connection_reading R.remaining W.contents self.new) kind result }
    {
        self.packets.note_failure();
        self.broken = Some(kind);
        Error::Io(kind)
    }

    // Records that a write or flush failed with this error. Every later request returns its kind.
    fn write_failed(&mut self, e: io::Error) -> Error
        ensures { IsBroken (connection_reading R.remaining W.contents self.old) (connection_reading R.remaining W.contents self.new)
            (error_kind e) result }
    {
        self.break_off(e.kind())
    }

    // Writes these bytes, unless an earlier write failed.
    fn write_bytes(&mut self, bytes: &[u8]) -> Result<(), Error>
        ensures { Writes (connection_reading R.remaining W.contents self.old)
            (connection_reading R.remaining W.contents self.new) bytes.now result }
    {
        if let Some(kind) = self.broken {
            return Err(self.break_off(kind));
        }
        match self.writer.write_all(bytes) {
            Ok(()) => Ok(()),
            Err(e) => Err(self.write_failed(e)),
        }
    }

    // Flushes the writer. The reader goes on after its flush or delimiter packet.
    fn go_on(&mut self) -> Result<(), Error>
        ensures { EndsBy true (connection_reading R.remaining W.contents self.old)
            (connection_reading R.remaining W.contents self.new) result }
    {
        if let Some(kind) = self.broken {
            return Err(self.break_off(kind));
        }
        match self.writer.flush() {
            Ok(()) => {
                let version = self.packets.version();
                self.packets.reset(version);
                Ok(())
            }
            Err(e) => Err(self.write_failed(e)),
        }
    }

    // Writes this payload as a packet line.
    fn write_payload(&mut self, payload: &[u8]) -> Result<(), Error>
        requires { length payload.now ≤ 65516 }
        ensures { Writes (connection_reading R.remaining W.contents self.old) (connection_reading R.remaining W.contents self.new)
            (payload_text payload.now) result }
    {
        self.write_bytes(&frame_text::payload_digits(payload.len()))?;
        self.write_bytes(payload)
    }

    // Sends the first message, if there is one.
    fn greet(
        &mut self,
        alloc: Global,
        service: Service,
        extra_parameters: &[(String, Option<String>)],
    ) -> Result<(), Error>
        ensures { Greets service (parameters_of extra_parameters.now)
            (connection_reading R.remaining W.contents self.old) (connection_reading R.remaining W.contents self.new) result }
    {
        let Some(opening) = &self.opening else {
            return self.go_on();
        };
        if !greeting_fits(opening, service, self.version, extra_parameters) {
            return Err(Error::LineTooLong);
        }
        let payload = greeting(alloc, opening, service, self.version, extra_parameters)?;
        self.write_payload(&payload)?;
        self.go_on()
    }
}

impl<R: Read, W: Write> ExtendedBufRead for Connection<R, W> {
    ghost use Rattle.gixp_transport.specs.Connection.{connection_reading};

    ghost reading = { connection_reading R.remaining W.contents };

    ghost is_plain = { true };

    ghost asks = { λ a stops b. ⊤ };

    ghost stays = { λ r. tt };

    ghost joins = { λ a b c stops g h. tt };

    fn next_line(&mut self) -> Result<bool, read::Error> {
        self.packets.next_line()
    }

    fn peek_line(&mut self) -> Result<bool, read::Error> {
        self.packets.peek_line()
    }

    fn line(&self) -> &[u8] {
        self.packets.line()
    }

    fn stopped_at(&self) -> Option<MessageKind> {
        self.packets.stopped_at()
    }

    fn reset(&mut self, version: Protocol) {
        self.packets.reset(version);
    }
}

impl<R: Read, W: Write> Transport for Connection<R, W> {
    ghost use Rattle.gixp_transport.specs.Connection.{connection_reading};

    fn connection_persists_across_multiple_requests(&self) -> bool {
        true
    }

    fn to_url(&self) -> BStr<'_> {
        self.url.as_bstr()
    }

    fn supported_protocol_versions(&self) -> &[Protocol] {
        &self.accepted
    }

    /// This transport doesn't support authentication.
    ///
    /// # Errors
    ///
    /// `AuthenticationUnsupported`, always.
    fn set_identity(&mut self, account: Account) -> Result<(), Error>
        ensures identifies { Identifies (connection_reading R.remaining W.contents self.old)
            (connection_reading R.remaining W.contents self.new) account result }
        ensures refused { result ≡ Err AuthenticationUnsupported }
    {
        let _ = account;
        Err(Error::AuthenticationUnsupported)
    }

    fn handshake(
        &mut self,
        alloc: Global,
        service: Service,
        extra_parameters: &[(String, Option<String>)],
    ) -> Result<SetServiceResponse, Error> {
        self.greet(alloc, service, extra_parameters)?;
        advertisement(&mut self.packets, alloc)
    }

    fn begin_request(&mut self) -> Result<(), Error> {
        if let Some(kind) = self.broken {
            return Err(self.break_off(kind));
        }
        Ok(())
    }

    fn write_text(&mut self, line: &[u8]) -> Result<(), Error> {
        self.write_bytes(&frame_text::line_digits(line.len()))?;
        self.write_bytes(line)?;
        self.write_bytes(b"\n")
    }

    fn write_message(&mut self, kind: MessageKind) -> Result<(), Error> {
        self.write_bytes(frame_text::of_message(kind))
    }

    fn end_request(&mut self) -> Result<(), Error> {
        self.go_on()
    }
}
