//! Transports.
ghost use Rattle.std.specs.Prelude.{◌≡◌, ◌≤◌, true, None, Err, length, map};
ghost use Rattle.bstr.specs.BStr.{bstr_bytes};
ghost use Rattle.bstr.specs.Owned.{bstring_bytes};
ghost use Rattle.gixp_capabilities.specs.declared.client.Error.TheVariants.{Memory};
ghost use Rattle.gixp_transport.specs.Greeting.{parameters_of};
ghost use Rattle.gixp_transport.specs.Handshake.{Handshakes, Identifies};
ghost use Rattle.gixp_packetline.specs.FrameText.{frame_text, message_text, texts_of};
ghost use Rattle.gixp_transport.specs.Message.{line_frame, message_frame, message_fits, request_frames, all_fit, feature_lines, command_frames, command_fits};
ghost use Rattle.gixp_transport.specs.Transport.{Begins, Writes, WritesAll, Ends, Sends};

use crate::command::{command_fits, command_lines, command_messages};
use crate::message::{Feature, MAX_LINE, Message, all_fit};
use crate::service::{Account, Service, SetServiceResponse};
use bstr::{BStr, BString};
use gixp_capabilities::client::Error;
use gixp_packetline::{ExtendedBufRead, MessageKind, Protocol};
use std::alloc::Global;

/// A transport sends requests to a server, and reads the responses as lines (gitprotocol-pack, "Packfile Transfer";
/// gitprotocol-v2, "Command Request").
///
/// A request is begun, written and ended; its response is then read from the transport. On a transport that persists,
/// all responses follow one another on one connection; after a failed write it is unknown which bytes were sent, and
/// every later request returns the same `Io`. On one that doesn't persist each request has its own response.
pub trait Transport: ExtendedBufRead {
    /// Whether all requests use one connection, so that the server remembers earlier ones.
    fn connection_persists_across_multiple_requests(&self) -> bool
        ensures { result ≡ (Self.reading self.now).held.persists };

    /// The URL of the server, as the caller passed it to the transport.
    fn to_url(&self) -> BStr<'_>
        ensures { bstr_bytes result ≡ (Self.reading self.now).held.url };

    /// The accepted versions of the protocol. An empty list accepts all.
    fn supported_protocol_versions(&self) -> &[Protocol]
        ensures { result.now ≡ (Self.reading self.now).held.accepted };

    /// Sets the account that the next handshake uses.
    ///
    /// # Errors
    ///
    /// `AuthenticationUnsupported`, always, where the transport doesn't support authentication.
    fn set_identity(&mut self, account: Account) -> Result<(), Error>
        ensures identifies { Identifies (Self.reading self.old) (Self.reading self.new) account result };

    /// Requests a service with these extra parameters, and reads the server's advertisement: its version and its
    /// capabilities (gitprotocol-pack, "Git Transport" and "Extra Parameters"). Under versions 0 and 1 the refs are the
    /// lines that come next, up to the flush packet; the first of them is cut before its NUL. A flush packet in their
    /// place means that there are no refs and no capabilities.
    ///
    /// # Errors
    ///
    /// - `LineTooLong`: the first message doesn't fit into a packet line. Nothing was written or allocated.
    /// - `Io`: a read or write failed, an earlier write failed, the stream ended (`UnexpectedEof`), or the response is a failing one.
    /// - `Read`: another error of the reader.
    /// - `UnsupportedProtocolVersion`: the server named a version other than 1 and 2.
    /// - `MissingDelimitingNullByte`: the first ref line has no NUL.
    /// - `Memory`: an allocation failed.
    ///
    /// After `UnsupportedProtocolVersion` and `MissingDelimitingNullByte` the line in question is still to come. The
    /// end of the stream and each other error of the stream are sticky: every later read returns the same error. After
    /// `Memory`, and after `Io` of a failed read, only lines that were taken are lost: none, the line that names
    /// version 1, or the line that names version 2 and capability lines after it.
    fn handshake(
        &mut self,
        alloc: Global,
        service: Service,
        extra_parameters: &[(String, Option<String>)],
    ) -> Result<SetServiceResponse, Error>
        ensures handshakes { Handshakes service (parameters_of extra_parameters.now) (Self.reading self.old)
            (Self.reading self.new) result };

    /// Begins a request. What was written of an unfinished one is dropped, unless it was sent already.
    ///
    /// # Errors
    ///
    /// `Io` of an earlier failed write.
    fn begin_request(&mut self) -> Result<(), Error>
        ensures begins { Begins (Self.reading self.old) (Self.reading self.new) result };

    /// Writes a line of text of at most 65,515 bytes, with an LF after it, as one packet line.
    ///
    /// # Errors
    ///
    /// `Io` where this write or an earlier one failed. `Memory`, which changes nothing.
    fn write_text(&mut self, line: &[u8]) -> Result<(), Error>
        requires { length line.now ≤ MAX_LINE }
        ensures writes { Writes (Self.reading self.old) (Self.reading self.new) (frame_text (line_frame line.now)) result };

    /// Writes a flush, delimiter or response-end packet. Writes nothing for `Text`.
    ///
    /// # Errors
    ///
    /// As `write_text`.
    fn write_message(&mut self, kind: MessageKind) -> Result<(), Error>
        ensures writes { Writes (Self.reading self.old) (Self.reading self.new) (message_text kind) result };

    /// Ends a request: sends what was written, and moves the reader after its flush or delimiter packet, to the response.
    ///
    /// # Errors
    ///
    /// `Io` where a write failed. `Io` also where the response is a failing one; the request is then sent, and its
    /// response reads as empty. `Memory`, which changes nothing.
    fn end_request(&mut self) -> Result<(), Error>
        ensures ends { Ends (Self.reading self.old) (Self.reading self.new) result };

    /// Writes one message. Its line must fit into a packet line.
    ///
    /// # Errors
    ///
    /// As `write_text`.
    final fn write(&mut self, message: &Message<'_>) -> Result<(), Error>
    where
        Self: Sized,
        requires { message_fits message.now ≡ true }
        ensures { Writes (Self.reading self.old) (Self.reading self.new) (frame_text (message_frame message.now)) result }
    {
        match message {
            Message::Line(text) => self.write_text(text),
            Message::Flush => self.write_message(MessageKind::Flush),
            Message::Delimiter => self.write_message(MessageKind::Delimiter),
        }
    }

    /// Writes the messages of a request that was begun. Their lines must fit into packet lines.
    ///
    /// # Errors
    ///
    /// As `write_text`. Some of the messages may be written.
    final fn write_all(&mut self, messages: &[Message<'_>]) -> Result<(), Error>
    where
        Self: Sized,
        requires whole { (Self.reading self.old).held.broken ≡ None }
        requires fit { all_fit messages.now ≡ true }
        ensures { WritesAll (Self.reading self.old) (Self.reading self.new) (texts_of (request_frames messages.now)) result }
    {
        for message in messages {
            self.write(message)?;
        }
        Ok(())
    }

    /// Sends a whole request of these messages.
    ///
    /// # Errors
    ///
    /// `LineTooLong` where a line doesn't fit into a packet line; nothing was written. Otherwise as `write_text` and
    /// `end_request`. After `Memory` the request was not sent.
    final fn request(&mut self, messages: &[Message<'_>]) -> Result<(), Error>
    where
        Self: Sized,
        ensures sends { Sends (Self.reading self.old) (Self.reading self.new) (all_fit messages.now)
            (texts_of (request_frames messages.now)) result }
        ensures fit { result ≡ Err Memory → all_fit messages.now ≡ true }
    {
        if !all_fit(messages) {
            return Err(Error::LineTooLong);
        }
        self.begin_request()?;
        self.write_all(messages)?;
        self.end_request()
    }

    /// Sends a command of version 2: its name, the features as `name` or `name=value`, and the arguments after a
    /// delimiter packet, if there are any (gitprotocol-v2, "Command Request").
    ///
    /// # Errors
    ///
    /// As `request`.
    final fn invoke(
        &mut self,
        alloc: Global,
        command: &str,
        features: &[Feature],
        arguments: &[BString],
    ) -> Result<(), Error>
    where
        Self: Sized,
        ensures sends { Sends (Self.reading self.old) (Self.reading self.new)
            (command_fits command.now (feature_lines features.now) (map bstring_bytes arguments.now))
            (texts_of (command_frames command.now (feature_lines features.now) (map bstring_bytes arguments.now))) result }
        ensures fit { result ≡ Err Memory → command_fits command.now (feature_lines features.now) (map bstring_bytes arguments.now) ≡ true }
    {
        if !command_fits(command, features, arguments) {
            return Err(Error::LineTooLong);
        }
        let lines = command_lines(alloc, command, features)?;
        let messages = command_messages(alloc, &lines, arguments)?;
        self.request(&messages)
    }
}
