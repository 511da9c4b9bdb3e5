//! A transport over memory.
ghost use Rattle.std.specs.Prelude.{◌≡◌, IfOk, Ok, map, true, vec_items, ⊤};
ghost use Rattle.std.specs.Option.{option_map};
ghost use Rattle.bstr.specs.Owned.{bstring_bytes};
ghost use Rattle.gixp_transport.specs.Transport.{TakesBody};
ghost use Rattle.gixp_transport.specs.Handshake.{account_value, Identifies};

use crate::advertisement::advertisement;
use crate::frame_text;
use crate::service::{Account, Service, SetServiceResponse};
use crate::transport::Transport;
use bstr::{BStr, BString};
use gixp_capabilities::client::Error;
use gixp_packetline::packets::Packets;
use gixp_packetline::{ExtendedBufRead, MessageKind, Protocol, read};
use std::alloc::{AllocError, Global};
use std::io::{Cursor, ErrorKind};
use std::mem;

/// The response to one handshake or request.
#[derive(Debug, Drop)]
pub enum Body {
    /// The bytes that the server sends.
    Bytes(Vec<u8>),
    /// An I/O error of this kind. The call that takes the response returns it, and the response reads as empty.
    Fail(ErrorKind),
}

/// A transport over memory, for tests and recorded responses. Each handshake and each request has its own response; the
/// rest of the previous one is dropped. It doesn't persist.
///
/// Before the first handshake it reads as empty, and so does a missing response. It begins under version 2, until a
/// `handshake` or `reset`. A body is freed once it was read to its end, at a flush or delimiter packet.
#[derive(Drop)]
pub struct Bodies {
    alloc: Global,
    packets: Packets<Cursor<Vec<u8>>>,
    // The responses to come, the next one last.
    later: Vec<Body>,
    // The finished requests.
    sent: Vec<Vec<u8>>,
    // The unfinished request.
    request: Vec<u8>,
    url: BString,
    accepted: Vec<Protocol>,
    identity: Option<Account>,
}

impl Bodies {
    ghost use Rattle.gixp_transport.specs.Bodies.{bodies_reading, IsNewBodies};

    /// A transport that returns these responses in their order, with this URL and these accepted versions. It allocates
    /// one buffer of 65,520 bytes.
    ///
    /// # Errors
    ///
    /// The buffer could not be allocated. The arguments are dropped.
    pub fn new(
        alloc: Global,
        mut bodies: Vec<Body>,
        url: BString,
        accepted: Vec<Protocol>,
    ) -> Result<Bodies, AllocError>
        ensures { IfOk result (IsNewBodies bodies.items (bstring_bytes url) accepted.items) }
    {
        bodies.reverse();
        let packets = Packets::new(alloc, Cursor::new(Vec::new(alloc)))?;
        Ok(Bodies {
            alloc,
            packets,
            later: bodies,
            sent: Vec::new(alloc),
            request: Vec::new(alloc),
            url,
            accepted,
            identity: None,
        })
    }

    /// The finished requests as bytes.
    pub fn sent(&self) -> &[Vec<u8>]
        ensures { map vec_items result.now ≡ (bodies_reading self.now).held.sent }
    {
        &self.sent
    }

    /// How many reads and responses failed, up to 2^64 - 1.
    pub fn failures(&self) -> u64
        ensures { result ≡ (bodies_reading self.now).failures }
    {
        self.packets.failures()
    }

    /// The account that was set last.
    pub fn identity(&self) -> Option<&Account>
        ensures { option_map (λ a. account_value a.now) result ≡ (bodies_reading self.now).held.identity }
    {
        self.identity.as_ref()
    }

    // Starts reading the next response.
    fn take_answer(&mut self) -> Result<(), Error>
        ensures { TakesBody (bodies_reading self.old) (bodies_reading self.new) result }
    {
        match self.later.pop() {
            Some(Body::Bytes(bytes)) => {
                self.packets.restart(Cursor::new(bytes));
                Ok(())
            }
            Some(Body::Fail(kind)) => {
                self.packets.restart(Cursor::new(Vec::new(self.alloc)));
                self.packets.note_failure();
                Err(Error::Io(kind))
            }
            None => {
                self.packets.restart(Cursor::new(Vec::new(self.alloc)));
                Ok(())
            }
        }
    }
}

impl ExtendedBufRead for Bodies {
    ghost use Rattle.gixp_transport.specs.Bodies.{bodies_reading};

    ghost reading = { bodies_reading };

    ghost is_plain = { true };

    ghost asks = { λ a stops b. ⊤ };

    ghost stays = { λ r. tt };

    ghost joins = { λ a b c stops g h. tt };

    fn next_line(&mut self) -> Result<bool, read::Error> {
        let read = self.packets.next_line();
        if let Ok(false) = read {
            self.packets.free_read();
        }
        read
    }

    fn peek_line(&mut self) -> Result<bool, read::Error> {
        self.packets.peek_line()
    }

    fn line(&self) -> &[u8] {
        self.packets.line()
    }

    fn stopped_at(&self) -> Option<MessageKind> {
        self.packets.stopped_at()
    }

    fn reset(&mut self, version: Protocol) {
        self.packets.reset(version);
    }
}

impl Transport for Bodies {
    ghost use Rattle.gixp_transport.specs.Bodies.{bodies_reading};

    fn connection_persists_across_multiple_requests(&self) -> bool {
        false
    }

    fn to_url(&self) -> BStr<'_> {
        self.url.as_bstr()
    }

    fn supported_protocol_versions(&self) -> &[Protocol] {
        &self.accepted
    }

    /// Stores the account. It never fails.
    fn set_identity(&mut self, account: Account) -> Result<(), Error>
        ensures identifies { Identifies (bodies_reading self.old) (bodies_reading self.new) account result }
        ensures kept { result ≡ Ok tt }
    {
        self.identity = Some(account);
        Ok(())
    }

    fn handshake(
        &mut self,
        alloc: Global,
        _service: Service,
        _extra_parameters: &[(String, Option<String>)],
    ) -> Result<SetServiceResponse, Error> {
        match self.take_answer() {
            Ok(()) => advertisement(&mut self.packets, alloc),
            Err(e) => Err(e),
        }
    }

    fn begin_request(&mut self) -> Result<(), Error> {
        self.request.clear();
        Ok(())
    }

    fn write_text(&mut self, line: &[u8]) -> Result<(), Error> {
        match frame_text::append_line(&mut self.request, line) {
            Ok(()) => Ok(()),
            Err(_) => Err(Error::Memory),
        }
    }

    fn write_message(&mut self, kind: MessageKind) -> Result<(), Error> {
        match self.request.extend_from_slice(frame_text::of_message(kind)) {
            Ok(()) => Ok(()),
            Err(_) => Err(Error::Memory),
        }
    }

    fn end_request(&mut self) -> Result<(), Error> {
        let request = mem::replace(&mut self.request, Vec::new(self.alloc));
        match self.sent.push(request) {
            Ok(()) => self.take_answer(),
            Err(failed) => {
                self.request = failed.value;
                Err(Error::Memory)
            }
        }
    }
}
