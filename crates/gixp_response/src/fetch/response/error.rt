//! Why reading a response fails.
ghost use Rattle.std.specs.Prelude.{◌≡◌};

use bstr::{BStr, BString};
use gixp_capabilities::client;
use gixp_packetline::{ServerMessage, read};
use gixp_transport::IsSpuriousError;
use std::alloc::{AllocError, AllocFailed};
use std::fmt;
use std::io::ErrorKind;
use thiserror::Error as DeriveError;

/// A feature that a server must have so that its responses of versions 0 and 1 can be read. `Display` writes its name,
/// and `Debug` quotes it.
#[derive(Clone, Copy, PartialEq, Eq)]
pub enum RequiredFeature {
    /// `multi_ack_detailed`.
    MultiAckDetailed,
    /// One of `side-band` and `side-band-64k`.
    SideBand,
}

impl RequiredFeature {
    ghost use Rattle.gixp_response.specs.ResponseError.{required_text};

    /// The name that `Display` writes.
    pub fn as_str(&self) -> &'static str
        ensures { result.now ≡ required_text self.now }
    {
        match self {
            RequiredFeature::MultiAckDetailed => "multi_ack_detailed",
            RequiredFeature::SideBand => "side-band OR side-band-64k",
        }
    }
}

impl fmt::Display for RequiredFeature {
    fn fmt<W: fmt::Write>(&self, f: &mut fmt::Formatter<W>) -> fmt::Result {
        f.write_str(self.as_str())
    }
}

impl fmt::Debug for RequiredFeature {
    fn fmt<W: fmt::Write>(&self, f: &mut fmt::Formatter<W>) -> fmt::Result {
        let text = self.as_str();
        write!(f, "{text:?}")
    }
}

/// Why reading a response, or a line of one, fails. No part of the response is returned with an error.
///
/// `read::Error` says what an error of the reader leaves. After an error of a line, this line and those before it are
/// taken. A line in an error is the line as it was read, with its LF.
#[derive(Debug, Drop, DeriveError)]
pub enum Error {
    /// A read failed with this kind, or the stream ended early (`UnexpectedEof`), also with a flush or delimiter packet
    /// in place of a section's header.
    #[error("Failed to read from line reader")]
    Io(ErrorKind),
    /// The server sent an `ERR ` line with this message.
    #[error("{message}")]
    UploadPack { message: BString },
    /// A call to the server failed.
    #[error("{0}")]
    Transport(client::Error),
    /// The server doesn't have this feature, which is required.
    #[error("Currently we require feature {feature:?}, which is not supported by the server")]
    MissingServerCapability { feature: RequiredFeature },
    /// A line that is not allowed where it occurs.
    #[error("Encountered an unknown line prefix in {line:?}")]
    UnknownLineType { line: String },
    /// A section of an unknown kind, such as `packfile-uris`.
    #[error("Unknown or unsupported header: {header:?}")]
    UnknownSectionHeader { header: String },
    /// Another error of the reader: `Decode`, `UnexpectedFrame`, `NotUtf8`, `BadBand` or `Interrupted`.
    #[error("Reader")]
    Reader(read::Error),
    /// An allocation failed.
    #[error("Memory")]
    Memory,
}

impl From<client::Error> for Error {
    ghost use Rattle.gixp_capabilities.specs.Client.{client_refusal};
    ghost use Rattle.gixp_response.specs.ResponseError.{answer_refusal, from_transport};

    ghost from_gives = { λ e error. answer_refusal error ≡ from_transport (client_refusal e) };

    fn from(e: client::Error) -> Error {
        match e {
            client::Error::Memory => Error::Memory,
            other => Error::Transport(other),
        }
    }
}

impl From<read::Error> for Error {
    ghost use Rattle.gixp_packetline.specs.Reading.{refusal_of};
    ghost use Rattle.gixp_response.specs.ResponseError.{answer_refusal, from_reader};

    ghost from_gives = { λ e error. answer_refusal error ≡ from_reader (refusal_of e) };

    fn from(e: read::Error) -> Error {
        match e {
            read::Error::Io(kind) => Error::Io(kind),
            read::Error::Server { message } => Error::UploadPack { message },
            read::Error::Memory => Error::Memory,
            other => Error::Reader(other),
        }
    }
}

impl From<AllocError> for Error {
    ghost use Rattle.gixp_response.specs.declared.fetch.response.error.Error.TheVariants.{Memory};

    ghost from_gives = { λ _ error. error ≡ Memory };

    fn from(_e: AllocError) -> Error {
        Error::Memory
    }
}

impl IsSpuriousError for Error {
    ghost use Rattle.gixp_response.specs.ResponseError.{is_spurious_answer};

    ghost spurious = { is_spurious_answer };

    fn is_spurious(&self) -> bool {
        match self {
            Error::Io(kind) => kind.is_spurious(),
            Error::Transport(e) => e.is_spurious(),
            _ => false,
        }
    }
}

impl<T: Drop> From<AllocFailed<T>> for Error {
    ghost use Rattle.gixp_response.specs.declared.fetch.response.error.Error.TheVariants.{Memory};

    ghost from_gives = { λ _ error. error ≡ Memory };

    fn from(_e: AllocFailed<T>) -> Error {
        Error::Memory
    }
}

impl ServerMessage for Error {
    ghost use Rattle.gixp_response.specs.AnswerMessage.{answer_message};

    ghost message = { answer_message };

    fn server_message(&self) -> Option<BStr<'_>> {
        match self {
            Error::UploadPack { message } => Some(message.as_bstr()),
            Error::Transport(e) => e.server_message(),
            Error::Reader(e) => e.server_message(),
            _ => None,
        }
    }
}
