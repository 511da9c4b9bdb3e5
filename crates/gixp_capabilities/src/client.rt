//! Why a call to a server fails.
ghost use Rattle.std.specs.Prelude.{◌≡◌};

use bstr::{BStr, BString};
use gixp_packetline::{ServerMessage, read};
use std::alloc::{AllocError, AllocFailed};
use std::io::ErrorKind;
use thiserror::Error as DeriveError;

/// Why a call to a server fails.
///
/// After `LineTooLong` nothing was written. After a failed write it is unknown which bytes were sent, and every later
/// request on the same connection returns the same `Io`.
#[derive(Debug, Drop, DeriveError)]
pub enum Error {
    /// A read or write failed with this kind, or the stream ended (`UnexpectedEof`).
    #[error("Io")]
    Io(ErrorKind),
    /// The reader failed, but not by an I/O error or an allocation failure.
    #[error("Read")]
    Read(read::Error),
    /// A line doesn't fit into a packet (gitprotocol-common, "pkt-line Format").
    #[error("LineTooLong")]
    LineTooLong,
    /// This transport doesn't support authentication.
    #[error("AuthenticationUnsupported")]
    AuthenticationUnsupported,
    /// The server named a version other than 1 and 2 in this line, here without the white space at its end
    /// (gitprotocol-pack, "Extra Parameters").
    #[error("UnsupportedProtocolVersion")]
    UnsupportedProtocolVersion(BString),
    /// The first ref line has no NUL before the capabilities (gitprotocol-pack, "Reference Discovery").
    #[error("MissingDelimitingNullByte")]
    MissingDelimitingNullByte,
    /// An allocation failed.
    #[error("Memory")]
    Memory,
}

impl From<read::Error> for Error {
    ghost use Rattle.gixp_capabilities.specs.Client.{client_refusal, client_from};
    ghost use Rattle.gixp_packetline.specs.Reading.{refusal_of};

    ghost from_gives = { λ e error. client_refusal error ≡ client_from (refusal_of e) };

    fn from(e: read::Error) -> Error {
        match e {
            read::Error::Io(kind) => Error::Io(kind),
            read::Error::Memory => Error::Memory,
            other => Error::Read(other),
        }
    }
}

impl From<AllocError> for Error {
    ghost use Rattle.gixp_capabilities.specs.declared.client.Error.TheVariants.{Memory};

    ghost from_gives = { λ _ error. error ≡ Memory };

    fn from(_e: AllocError) -> Error {
        Error::Memory
    }
}

impl<T: Drop> From<AllocFailed<T>> for Error {
    ghost use Rattle.gixp_capabilities.specs.declared.client.Error.TheVariants.{Memory};

    ghost from_gives = { λ _ error. error ≡ Memory };

    fn from(_e: AllocFailed<T>) -> Error {
        Error::Memory
    }
}

impl ServerMessage for Error {
    ghost use Rattle.gixp_capabilities.specs.ClientMessage.{client_message};

    ghost message = { client_message };

    fn server_message(&self) -> Option<BStr<'_>> {
        match self {
            Error::Read(e) => e.server_message(),
            _ => None,
        }
    }
}
