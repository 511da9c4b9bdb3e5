//! The transport over the two pipes of a server.
ghost use Rattle.std.specs.Prelude.{◌≡◌, true, OnOk};
ghost use Rattle.std.specs.Io.{ReadsAtMost};
ghost use Rattle.gixp_remote_session.specs.Translation.{translates_next, is_named, is_translated};

use crate::shallow_observer::ShallowObserver;
use crate::uris::{UriRecorder, Uris, record_refusal};
use gix_protocol::client::{Session, Tap};
use gix_protocol::transport::{Connection, Discard};
use gixp_fetch_common::messages::MessagePrinter;
use gixp_packfile_uris::PackfileUris;
use gixp_plain_requests::{HeldRequests, Missing, NamedCapabilities};
use gixp_plain_responses::PlainResponses;
use gixp_response_end::Answers;
use std::alloc::Global;
use std::cell::{Cell, RefCell};
use std::fs::File;
use std::io::{BufReader, BufWriter, ErrorKind, Read, Write};
use std::{io, mem};

/// The transport of the helper. It records the updates of the shallow boundary.
pub(crate) type HelperTransport<'a> = Tap<
    Connection<ResponseReader<'a>, RequestWriter<'a>>,
    ShallowObserver<'a>,
>;

/// A session over it. It prints the server's messages as they arrive.
pub(crate) type HelperSession<'a> = Session<HelperTransport<'a>, MessagePrinter<'a>, Discard>;

/// The packet lines of a server over a pipe. Its reference advertisement also names capabilities that
/// it lacks.
#[derive(Drop)]
pub(crate) enum StreamOutput {
    /// They are passed on.
    Named(NamedCapabilities<File>),
    /// They are translated (`Missing::needs_translation`).
    Translated(PlainResponses<BufReader<NamedCapabilities<File>>>),
    /// An allocation failed when the translation began.
    Lost,
}

impl StreamOutput {
    // Begins the translation. The first ref line must have been passed on.
    fn translate(&mut self, alloc: Global) -> io::Result<()>
        ensures { is_named self.old ≡ true → OnOk result (is_translated self.new ≡ true) }
    {
        if let StreamOutput::Named(named) = mem::replace(self, StreamOutput::Lost) {
            let lines = BufReader::new(alloc, named)?;
            *self = StreamOutput::Translated(PlainResponses::new(alloc, lines)?);
        }
        Ok(())
    }

    // Whether the translation must begin before the next read.
    fn is_translated_next(&self) -> bool
        ensures { result ≡ translates_next self.now }
    {
        match self {
            StreamOutput::Named(named) => {
                named.is_after_names() && named.missing().needs_translation()
            }
            StreamOutput::Translated(_) | StreamOutput::Lost => false,
        }
    }

    // Reads, and records what the server lacks.
    fn read_recording(&mut self, buf: &mut [u8], missing: &Cell<Missing>) -> io::Result<usize>
        ensures { ReadsAtMost result buf.new }
    {
        match self {
            StreamOutput::Named(named) => {
                let count = named.read(buf)?;
                missing.set(named.missing());
                Ok(count)
            }
            StreamOutput::Translated(lines) => lines.read(buf),
            StreamOutput::Lost => Err(io::Error::from(ErrorKind::OutOfMemory)),
        }
    }
}

/// A stream of packet lines.
#[derive(Drop)]
pub(crate) struct Stream<'a> {
    pub(crate) alloc: Global,
    pub(crate) output: StreamOutput,
    /// Where it is recorded what the server lacks.
    pub(crate) missing: &'a Cell<Missing>,
}

impl Read for Stream<'_> {
    fn read(&mut self, buf: &mut [u8]) -> io::Result<usize> {
        if self.output.is_translated_next() {
            self.output.translate(self.alloc)?;
        }
        self.output.read_recording(buf, self.missing)
    }
}

/// The output of a server.
#[derive(Drop)]
pub(crate) enum ServerOutput<'a> {
    /// A stream of packet lines.
    Stream(Stream<'a>),
    /// Responses to single requests, as from a web server. Each ends in a response-end packet.
    Answers(Answers<BufReader<File>>),
}

impl Read for ServerOutput<'_> {
    fn read(&mut self, buf: &mut [u8]) -> io::Result<usize> {
        match self {
            ServerOutput::Stream(stream) => stream.read(buf),
            ServerOutput::Answers(answers) => answers.read(buf),
        }
    }
}

/// The input of a server. It receives each request in git's order, and without capabilities that it
/// lacks.
#[derive(Drop)]
pub(crate) struct RequestWriter<'a> {
    pub(crate) requests: HeldRequests<BufWriter<File>>,
    /// What the server lacks.
    pub(crate) missing: &'a Cell<Missing>,
}

impl Write for RequestWriter<'_> {
    fn write(&mut self, buf: &[u8]) -> io::Result<usize> {
        self.requests.hold(buf)?;
        Ok(buf.len())
    }

    fn flush(&mut self) -> io::Result<()> {
        self.requests.send(self.missing.get())
    }
}

/// The output without the sections `packfile-uris`.
#[derive(Drop)]
pub(crate) struct WithoutUris<'a> {
    pub(crate) reader: PackfileUris<ServerOutput<'a>, UriRecorder<'a>>,
    /// Where a line that is refused is recorded.
    pub(crate) uris: &'a RefCell<Uris>,
}

impl WithoutUris<'_> {
    // Reads, and records whether a line was refused.
    fn read_recording(&mut self, buf: &mut [u8]) -> io::Result<usize>
        ensures { ReadsAtMost result buf.new }
    {
        match self.reader.read(buf) {
            Ok(count) => Ok(count),
            Err(e) => {
                if e.kind() == ErrorKind::InvalidData {
                    record_refusal(self.uris);
                }
                Err(e)
            }
        }
    }
}

/// The reader of the responses.
#[derive(Drop)]
pub(crate) enum ResponseReader<'a> {
    /// All output.
    Whole(ServerOutput<'a>),
    /// The output without the sections `packfile-uris`.
    WithoutUris(WithoutUris<'a>),
}

impl Read for ResponseReader<'_> {
    fn read(&mut self, buf: &mut [u8]) -> io::Result<usize> {
        match self {
            ResponseReader::Whole(output) => output.read(buf),
            ResponseReader::WithoutUris(without) => without.read_recording(buf),
        }
    }
}
