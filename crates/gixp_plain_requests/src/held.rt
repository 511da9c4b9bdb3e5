//! A writer that holds a request until it is whole.
ghost use Rattle.std.specs.Prelude.{◌≡◌, [], ◌++◌, OnOk, OnErr};
ghost use Rattle.std.specs.Io.KnownBytes.{Appends};
ghost use Rattle.gixp_plain_requests.specs.Request.{request_sent};

use crate::missing::Missing;
use crate::request::sent_request;
use std::alloc::{AllocError, Global};
use std::io;
use std::io::Write;

/// A writer that holds a request until it is whole, and then sends it as a server receives it that lacks some
/// capabilities.
#[derive(Drop)]
pub struct HeldRequests<W> {
    pub(crate) alloc: Global,
    pub(crate) writer: W,
    pub(crate) held: Vec<u8>,
}

impl<W: Write + Drop> HeldRequests<W> {
    /// Sends requests over this writer. Nothing is allocated yet.
    pub fn new(alloc: Global, writer: W) -> HeldRequests<W>
        ensures writer { result.writer ≡ writer }
        ensures none { result.held.items ≡ [] }
    {
        HeldRequests {
            alloc,
            writer,
            held: Vec::new(alloc),
        }
    }
}

impl<W: Write> HeldRequests<W> {
    /// Holds more of the request.
    ///
    /// # Errors
    ///
    /// Only an allocation failure. Then nothing of these bytes is held.
    pub fn hold(&mut self, bytes: &[u8]) -> Result<(), AllocError>
        ensures held { OnOk result (self.new.held.items ≡ self.old.held.items ++ bytes.now) }
        ensures none { OnErr result (self.new.held.items ≡ self.old.held.items) }
        ensures writer { self.new.writer ≡ self.old.writer }
    {
        self.held.extend_from_slice(bytes)
    }

    /// Sends what is held to a server that lacks these capabilities, and flushes the writer. Afterwards nothing is held.
    ///
    /// # Errors
    ///
    /// An allocation failed, and nothing was sent. Or a write failed; it is unknown which bytes were sent.
    pub fn send(&mut self, missing: Missing) -> io::Result<()>
        ensures sent { OnOk result (Appends (W.contents self.old.writer) (W.contents self.new.writer)
            (request_sent missing self.old.held.items)) }
        ensures none { OnOk result (self.new.held.items ≡ []) }
    {
        let sent = sent_request(self.alloc, missing, &self.held)?;
        self.held.clear();
        self.writer.write_all(&sent)?;
        self.writer.flush()
    }
}
