//! Why reading refs fails.
ghost use Rattle.std.specs.Prelude.{◌≡◌};
ghost use Rattle.gixp_packetline.specs.Reading.{refusal_of};

use bstr::{BStr, BString};
use gixp_hash::decode;
use gixp_packetline::{PacketError, ServerMessage, read};
use std::alloc::{AllocError, AllocFailed};
use std::fmt;
use std::io::ErrorKind;
use thiserror::Error as DeriveError;

/// How lines or attributes contradict each other. `Display` and `Debug` write it as a sentence.
#[derive(Clone, Copy, PartialEq, Eq)]
pub enum Invariant {
    /// A version 2 ref line has no id, no target and no peeled value.
    UnbornObject,
    /// A version 2 ref line has a peeled value, but neither an id nor a target.
    UnbornTag,
    /// A version 2 ref line has no id, and its target is `(null)`.
    UnbornNullTarget,
    /// A peeled version 1 line follows no ref line, or the line of a symref.
    PeeledAlone,
    /// A peeled version 1 line follows the ref line of another path.
    PeeledElsewhere,
}

impl Invariant {
    ghost use Rattle.gixp_refs.specs.ParseError.{invariant_text};

    /// The sentence that `Display` writes.
    pub fn as_str(&self) -> &'static str
        ensures { result.now ≡ invariant_text self.now }
    {
        match self {
            Invariant::UnbornObject => "got 'unborn' as object name of direct reference",
            Invariant::UnbornTag => "got 'unborn' as tag target",
            Invariant::UnbornNullTarget => "got 'unborn' while (null) was a symref target",
            Invariant::PeeledAlone => "Expecting peeled refs to be preceded by direct refs",
            Invariant::PeeledElsewhere => {
                "Expecting peeled refs to have the same base path as the previous, unpeeled one"
            }
        }
    }
}

impl fmt::Display for Invariant {
    fn fmt<W: fmt::Write>(&self, f: &mut fmt::Formatter<W>) -> fmt::Result {
        f.write_str(self.as_str())
    }
}

impl fmt::Debug for Invariant {
    fn fmt<W: fmt::Write>(&self, f: &mut fmt::Formatter<W>) -> fmt::Result {
        let text = self.as_str();
        write!(f, "{text:?}")
    }
}

/// Why reading refs fails. No ref is returned with an error.
///
/// `read::Error` says what an error of the reader leaves. After an error of a line, this line and those before it are
/// taken. A line in an error lacks the white space at its end.
#[derive(Debug, Drop, DeriveError)]
pub enum Error {
    /// A read failed with this kind, or the stream ended before the flush or delimiter packet (`UnexpectedEof`).
    #[error("Io")]
    Io(ErrorKind),
    /// Four bytes begin no packet line.
    #[error("{0}")]
    DecodePacketline(PacketError),
    /// A text in place of an object id is not one.
    #[error("{0}")]
    Id(decode::Error),
    /// A capability `symref` isn't a name, a colon and a target.
    #[error("{symref:?} could not be parsed. A symref is expected to look like <NAME>:<target>.")]
    MalformedSymref { symref: BString },
    /// A version 1 ref line isn't an id, a blank and a path.
    #[error("{0:?} could not be parsed. A V1 ref line should be '<hex-hash> <path>'.")]
    MalformedV1RefLine(BString),
    /// A version 2 ref line lacks its name, or has an attribute without a value.
    #[error("{0:?} could not be parsed. A V2 ref line should be '<hex-hash> <path>[ (peeled|symref-target):<value>'.")]
    MalformedV2RefLine(BString),
    /// A version 2 ref line has an attribute other than `peeled` and `symref-target`.
    #[error("The ref attribute {attribute:?} is unknown. Found in line {line:?}")]
    UnknownAttribute { attribute: BString, line: BString },
    /// Lines or attributes contradict each other.
    #[error("{message}")]
    InvariantViolation { message: Invariant },
    /// The server sent an `ERR ` line with this message.
    #[error("UploadPack")]
    UploadPack { message: BString },
    /// Another error of the reader: `UnexpectedFrame`, `NotUtf8`, `BadBand` or `Interrupted`.
    #[error("Reader")]
    Reader(read::Error),
    /// An allocation failed.
    #[error("Memory")]
    Memory,
}

impl From<PacketError> for Error {
    ghost use Rattle.gixp_refs.specs.declared.handshake.refs.parse.Error.TheVariants.{DecodePacketline};

    ghost from_gives = { λ e error. error ≡ DecodePacketline e };

    fn from(e: PacketError) -> Error {
        Error::DecodePacketline(e)
    }
}

impl From<decode::Error> for Error {
    ghost use Rattle.gixp_refs.specs.declared.handshake.refs.parse.Error.TheVariants.{Id};

    ghost from_gives = { λ e error. error ≡ Id e };

    fn from(e: decode::Error) -> Error {
        Error::Id(e)
    }
}

impl From<read::Error> for Error {
    ghost use Rattle.gixp_refs.specs.RefLine.{refusal_from};
    ghost use Rattle.gixp_refs.specs.ParseError.{parse_refusal};

    ghost from_gives = { λ e error. parse_refusal error ≡ refusal_from (refusal_of e) };

    fn from(e: read::Error) -> Error {
        match e {
            read::Error::Io(kind) => Error::Io(kind),
            read::Error::Decode(e) => Error::DecodePacketline(e),
            read::Error::Server { message } => Error::UploadPack { message },
            read::Error::Memory => Error::Memory,
            other => Error::Reader(other),
        }
    }
}

impl From<AllocError> for Error {
    ghost use Rattle.gixp_refs.specs.declared.handshake.refs.parse.Error.TheVariants.{Memory};

    ghost from_gives = { λ _ error. error ≡ Memory };

    fn from(_e: AllocError) -> Error {
        Error::Memory
    }
}

impl<T: Drop> From<AllocFailed<T>> for Error {
    ghost use Rattle.gixp_refs.specs.declared.handshake.refs.parse.Error.TheVariants.{Memory};

    ghost from_gives = { λ _ error. error ≡ Memory };

    fn from(_e: AllocFailed<T>) -> Error {
        Error::Memory
    }
}

impl ServerMessage for Error {
    ghost use Rattle.gixp_refs.specs.RefsMessage.{refs_message};

    ghost message = { refs_message };

    fn server_message(&self) -> Option<BStr<'_>> {
        match self {
            Error::UploadPack { message } => Some(message.as_bstr()),
            Error::Reader(e) => e.server_message(),
            _ => None,
        }
    }
}
