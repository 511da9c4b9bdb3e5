//! The class of a session's error.
ghost use Rattle.std.specs.Prelude.{◌≡◌};
ghost use Rattle.gixp_client.specs.ErrorClasses.{class_of, rest_class, read_class, client_class, refs_class, handshake_class, answer_class, pack_class, object_class, ref_class};

use crate::consumer::PackError;
use crate::error::Error;
use gixp_capabilities::client;
use gixp_graph::{ObjectError, RefStoreError};
use gixp_handshake::handshake;
use gixp_packetline::read;
use gixp_refs::handshake::refs::parse;
use gixp_response::fetch::response;

/// The class of an [`Error`], for an exit status or to decide what to do next.
#[derive(Clone, Copy, Debug, PartialEq, Eq)]
pub enum ErrorClass {
    /// The server reported an error. `server_message` returns its message.
    Server,
    /// A read or a write of the connection failed, the connection ended, or it was interrupted. A retry may help.
    Connection,
    /// The server violated the protocol.
    Protocol,
    /// The request can't be fulfilled: it is invalid, the server lacks a feature or wants an account, it lists a name that the
    /// parser of refs doesn't keep, the session is over, or the consumer rejects the pack. The same call fails again.
    Refused,
    /// Two refs map to one local name. `conflict` returns the names.
    Conflict,
    /// A read of the repository or a write of the pack failed.
    Local,
    /// An allocation failed.
    Memory,
}

fn read_class(e: &read::Error) -> ErrorClass
    ensures { result ≡ read_class e.now }
{
    match e {
        read::Error::Io(_) | read::Error::Interrupted => ErrorClass::Connection,
        read::Error::Server { message: _ } => ErrorClass::Server,
        read::Error::Memory => ErrorClass::Memory,
        _ => ErrorClass::Protocol,
    }
}

fn client_class(e: &client::Error) -> ErrorClass
    ensures { result ≡ client_class e.now }
{
    match e {
        client::Error::Io(_) => ErrorClass::Connection,
        client::Error::Read(e) => read_class(e),
        client::Error::LineTooLong | client::Error::AuthenticationUnsupported => {
            ErrorClass::Refused
        }
        client::Error::Memory => ErrorClass::Memory,
        _ => ErrorClass::Protocol,
    }
}

fn refs_class(e: &parse::Error) -> ErrorClass
    ensures { result ≡ refs_class e.now }
{
    match e {
        parse::Error::Reader(e) => read_class(e),
        parse::Error::Memory => ErrorClass::Memory,
        _ => ErrorClass::Protocol,
    }
}

fn handshake_class(e: &handshake::Error) -> ErrorClass
    ensures { result ≡ handshake_class e.now }
{
    match e {
        handshake::Error::Transport(e) => client_class(e),
        handshake::Error::ParseRefs(e) => refs_class(e),
        handshake::Error::Memory => ErrorClass::Memory,
        _ => ErrorClass::Refused,
    }
}

fn answer_class(e: &response::Error) -> ErrorClass
    ensures { result ≡ answer_class e.now }
{
    match e {
        response::Error::Transport(e) => client_class(e),
        response::Error::Reader(e) => read_class(e),
        response::Error::MissingServerCapability { feature: _ } => ErrorClass::Refused,
        response::Error::Memory => ErrorClass::Memory,
        _ => ErrorClass::Protocol,
    }
}

fn pack_class(e: &PackError) -> ErrorClass
    ensures { result ≡ pack_class e.now }
{
    match e {
        PackError::Read(e) => read_class(e),
        PackError::Write(_) => ErrorClass::Local,
        PackError::Refused(_) => ErrorClass::Refused,
    }
}

fn object_class(e: &ObjectError) -> ErrorClass
    ensures { result ≡ object_class e.now }
{
    match e {
        ObjectError::Memory => ErrorClass::Memory,
        _ => ErrorClass::Local,
    }
}

fn ref_class(e: &RefStoreError) -> ErrorClass
    ensures { result ≡ ref_class e.now }
{
    match e {
        RefStoreError::Memory => ErrorClass::Memory,
        _ => ErrorClass::Local,
    }
}

// The class of an error without a server message and without an `io_kind`.
fn rest_class(e: &Error) -> ErrorClass
    ensures { result ≡ rest_class e.now }
{
    match e {
        Error::Handshake(e) => handshake_class(e),
        Error::Refs(e) => refs_class(e),
        Error::Request(e) => client_class(e),
        Error::Answer(e) => answer_class(e),
        Error::Pack(e) => pack_class(e),
        Error::Rest(e) => read_class(e),
        Error::Objects(e) => object_class(e),
        Error::LocalRefs(e) => ref_class(e),
        Error::Conflicts(_) => ErrorClass::Conflict,
        Error::Memory => ErrorClass::Memory,
        Error::UnterminatedRefs
        | Error::Unnegotiated { rounds: _ }
        | Error::UnknownUnshallow { id: _ }
        | Error::Reported { message: _ } => ErrorClass::Protocol,
        _ => ErrorClass::Refused,
    }
}

impl Error {
    /// The class of the error: `Server` exactly if `server_message` returns a message, otherwise `Connection` if `io_kind` returns
    /// a kind.
    pub fn class(&self) -> ErrorClass
        ensures { result ≡ class_of self.now }
    {
        if self.server_message().is_some() {
            return ErrorClass::Server;
        }
        if self.io_kind().is_some() {
            return ErrorClass::Connection;
        }
        rest_class(self)
    }
}
