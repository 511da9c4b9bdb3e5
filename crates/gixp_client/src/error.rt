//! The error of a session's calls.
ghost use Rattle.std.specs.Prelude.{◌≡◌};
ghost use Rattle.std.specs.Option.{option_map};
ghost use Rattle.bstr.specs.BStr.{bstr_bytes};
ghost use Rattle.gixp_client.specs.ClientError.{message_in, place_of, kind_in, of_shake, of_refs, of_list, of_init, of_request, of_object, of_ref_store, of_negotiation, of_copy, of_refused_pack};
ghost use Rattle.gixp_client.specs.Reasons.{reason};

use crate::consumer::PackError;
use crate::printable::Words;
use crate::reason::{
    answer_reason, client_reason, handshake_reason, pack_reason, read_reason, refs_reason,
};
use crate::refusal::{answer_kind, client_kind, pack_kind, parse_kind};
use bstr::{BStr, BString};
use gixp_capabilities::client;
use gixp_fetch::consume::CopyError;
use gixp_graph::{ObjectError, RefStoreError};
use gixp_handshake::handshake;
use gixp_hash::ObjectId;
use gixp_matching::match_group::validate;
use gixp_negotiate::negotiate;
use gixp_packetline::{ServerMessage, read};
use gixp_refmap::ls_refs;
use gixp_refmap::refmap::init;
use gixp_refs::handshake::refs::parse;
use gixp_refspec::parse as spec;
use gixp_response::fetch::response;
use std::alloc::{AllocError, AllocFailed};
use std::fmt;
use std::fmt::Display;
use std::io::ErrorKind;

/// The error of a session's calls. Displayed, it is one sentence, with the server's message if the server sent one.
///
/// It owns its texts, and has no type parameter.
#[derive(Debug, Drop)]
pub enum Error {
    /// A text isn't a valid refspec. Nothing was sent.
    Refspec {
        /// The text.
        spec: BString,
        /// The error of the parser.
        why: spec::Error,
    },
    /// The handshake failed.
    Handshake(handshake::Error),
    /// The list of refs couldn't be read.
    Refs(parse::Error),
    /// The server doesn't support the command `ls-refs` with the client's arguments. Nothing was sent.
    UnsupportedListing,
    /// A list of refs didn't end with a flush packet, so refs may be missing (gitprotocol-v2, "ls-refs").
    UnterminatedRefs,
    /// The name of a listed ref ends in white space outside ASCII. git allows such a name (git-check-ref-format), but the parser of
    /// refs trims it, so it may be the name of another ref (gitprotocol-v2, "ls-refs"; gitprotocol-pack, "Reference Discovery").
    UnsupportedRefName,
    /// The server names objects by a hash function other than SHA-1 (gitprotocol-v2, "object-format").
    UnknownObjectFormat {
        /// The server's name of the hash function.
        format: BString,
    },
    /// Two refs map to one local name.
    Conflicts(validate::Error),
    /// A request couldn't be sent.
    Request(client::Error),
    /// The response to a fetch request couldn't be read.
    Answer(response::Error),
    /// The server sent no pack after this number of rounds of negotiation.
    Unnegotiated {
        /// The number of rounds.
        rounds: usize,
    },
    /// An object of the repository couldn't be read.
    Objects(ObjectError),
    /// The refs of the repository couldn't be read.
    LocalRefs(RefStoreError),
    /// The server doesn't offer a feature that the request needs. Nothing was sent.
    MissingFeature {
        /// The feature.
        feature: String,
    },
    /// The server's repository is shallow, and the request rejects that.
    ShallowServer,
    /// The server unshallows an id that isn't in the shallow boundary (gitprotocol-pack, "Packfile Negotiation"). The caller must
    /// discard what it received.
    UnknownUnshallow {
        /// The id.
        id: ObjectId,
    },
    /// The consumer failed. The caller must discard what it received of the pack.
    Pack(PackError),
    /// The rest of the response, after the pack, couldn't be read.
    Rest(read::Error),
    /// The server reported an error on band 3. The caller must discard what it received.
    Reported {
        /// The server's message.
        message: BString,
    },
    /// The session ended or broke before this call. Nothing was sent.
    Over,
    /// An allocation failed.
    Memory,
}

impl Error {
    /// The server's message, if the error is the server's.
    pub fn server_message(&self) -> Option<BStr<'_>>
        ensures { option_map bstr_bytes result ≡ message_in self.now }
    {
        match self {
            Error::Handshake(e) => e.server_message(),
            Error::Refs(e) => e.server_message(),
            Error::Request(e) => e.server_message(),
            Error::Answer(e) => e.server_message(),
            Error::Pack(PackError::Read(e)) => e.server_message(),
            Error::Rest(e) => e.server_message(),
            Error::Reported { message } => Some(message.as_bstr()),
            _ => None,
        }
    }

    // The part of the session that failed, as error messages name it.
    fn place(&self) -> &'static str
        ensures { result.now ≡ place_of self.now }
    {
        match self {
            Error::Handshake(handshake::Error::ParseRefs(_)) | Error::Refs(_) => "the list of refs",
            Error::Handshake(_) => "the handshake",
            Error::Request(_) => "a request",
            Error::Answer(_) => "an answer",
            Error::Pack(_) => "the pack",
            Error::Rest(_) => "the data after the pack",
            _ => "the session",
        }
    }

    /// The kind of the failed read or write of the connection; `UnexpectedEof` if the connection ended. `None` if the repository
    /// couldn't be read (`Objects`, `LocalRefs`) or a write of the pack failed (`PackError::Write`): these errors have a kind of
    /// their own.
    pub fn io_kind(&self) -> Option<ErrorKind>
        ensures { result ≡ kind_in self.now }
    {
        match self {
            Error::Handshake(handshake::Error::Transport(e)) => client_kind(e),
            Error::Handshake(handshake::Error::ParseRefs(e)) => parse_kind(e),
            Error::Refs(e) => parse_kind(e),
            Error::Request(e) => client_kind(e),
            Error::Answer(e) => answer_kind(e),
            Error::Pack(e) => pack_kind(e),
            Error::Rest(read::Error::Io(kind)) => Some(*kind),
            _ => None,
        }
    }

    /// How the connection failed or the server violated the protocol, as in `protocol error: the server sent what is no packet
    /// line`. `None` if the server sent a message, if `Display` shows the faulty input, such as a malformed ref line, or if the
    /// error is of another sort.
    pub fn reason(&self) -> Option<&'static str>
        ensures { option_map (λ w. w.now) result ≡ reason self.now }
    {
        match self {
            Error::Handshake(e) => handshake_reason(e),
            Error::Refs(e) => refs_reason(e),
            Error::Request(e) => client_reason(e),
            Error::Answer(e) => answer_reason(e),
            Error::Pack(e) => pack_reason(e),
            Error::Rest(e) => read_reason(e),
            Error::UnterminatedRefs => Some("expected flush after ref listing"),
            _ => None,
        }
    }
}

// Displays errors that have neither a server message, nor an `io_kind`, nor a `reason`.
#[derive(Drop)]
struct Rest<'a> {
    error: &'a Error,
}

impl Display for Rest<'_> {
    ghost use Rattle.gixp_client.specs.Sentences.{rest_sentence};

    ghost output = { λ r. rest_sentence r.error.now };

    fn fmt<W: fmt::Write>(&self, f: &mut fmt::Formatter<W>) -> fmt::Result {
        match self.error {
            Error::Refspec { spec, why } => write!(f, "{spec:?} is not a refspec: {why}"),
            Error::Handshake(e) => write!(f, "the handshake failed: {e:?}"),
            Error::Refs(e) => write!(f, "the list of refs can't be read: {e:?}"),
            Error::UnsupportedListing => f.write_str(
                "the server doesn't list refs as it is asked to",
            ),
            Error::UnterminatedRefs => f.write_str("the list of refs is incomplete"),
            Error::UnsupportedRefName => f.write_str(
                "the server lists a ref whose name ends in white space outside ASCII",
            ),
            Error::UnknownObjectFormat { format } => {
                write!(f, "mismatched algorithms: client sha1; server {format}")
            }
            Error::Conflicts(_) => match self.error.conflict() {
                Some(conflict) => conflict.fmt(f),
                None => f.write_str("the refs can't be mapped"),
            },
            Error::Request(e) => write!(f, "sending a request failed: {e:?}"),
            Error::Answer(response::Error::MissingServerCapability { feature }) => {
                write!(f, "the server doesn't offer {feature}")
            }
            Error::Answer(e) => write!(f, "a response can't be read: {e:?}"),
            Error::Unnegotiated { rounds } => {
                write!(
                    f,
                    "the negotiation ended without a pack after {rounds} round(s)"
                )
            }
            Error::Objects(e) => write!(f, "an object of the repository can't be read: {e:?}"),
            Error::LocalRefs(e) => write!(f, "the refs of the repository can't be read: {e:?}"),
            Error::MissingFeature { feature } => write!(f, "the server doesn't offer {feature}"),
            Error::ShallowServer => f.write_str("the server's repository is shallow"),
            Error::UnknownUnshallow { id } => {
                write!(
                    f,
                    "the server takes {id} out of the shallow boundary, which doesn't have it"
                )
            }
            Error::Pack(PackError::Refused(why)) => write!(
                f,
                "the consumer refused the pack: {why}"
            ),
            Error::Pack(e) => write!(f, "the pack can't be read: {e:?}"),
            Error::Rest(e) => write!(f, "the data after the pack can't be read: {e:?}"),
            Error::Reported { message: _ } => f.write_str("the server reported an error"),
            Error::Over => f.write_str("the session is over"),
            Error::Memory => f.write_str("out of memory"),
        }
    }
}

impl Display for Error {
    ghost use Rattle.gixp_client.specs.Sentences.{sentence_of};

    ghost output = { sentence_of };

    fn fmt<W: fmt::Write>(&self, f: &mut fmt::Formatter<W>) -> fmt::Result {
        if let Some(message_text) = self.server_message() {
            let words = Words {
                words: message_text.as_bytes(),
            };
            return write!(f, "the server reported: {words}");
        }
        if let Error::Pack(PackError::Write(kind)) = self {
            return write!(f, "the pack can't be written: {kind:?}");
        }
        match self.io_kind() {
            Some(ErrorKind::UnexpectedEof) => {
                write!(f, "the connection ended within {}", self.place())
            }
            Some(kind) => write!(f, "the connection failed within {}: {kind:?}", self.place()),
            None => match self.reason() {
                Some(why) => f.write_str(why),
                None => Rest { error: self }.fmt(f),
            },
        }
    }
}

impl std::error::Error for Error {}

impl From<handshake::Error> for Error {
    ghost from_gives = { λ e error. error ≡ of_shake e };

    fn from(e: handshake::Error) -> Error {
        match e {
            handshake::Error::Memory => Error::Memory,
            other => Error::Handshake(other),
        }
    }
}

impl From<parse::Error> for Error {
    ghost from_gives = { λ e error. error ≡ of_refs e };

    fn from(e: parse::Error) -> Error {
        match e {
            parse::Error::Memory => Error::Memory,
            other => Error::Refs(other),
        }
    }
}

impl From<ls_refs::Error> for Error {
    ghost from_gives = { λ e error. error ≡ of_list e };

    fn from(e: ls_refs::Error) -> Error {
        match e {
            ls_refs::Error::Io(kind) => Error::Request(client::Error::Io(kind)),
            ls_refs::Error::Transport(e) => Error::from(e),
            ls_refs::Error::Parse(e) => Error::from(e),
            ls_refs::Error::ArgumentValidation(_) => Error::UnsupportedListing,
            ls_refs::Error::Memory => Error::Memory,
        }
    }
}

impl From<init::Error> for Error {
    ghost from_gives = { λ e error. error ≡ of_init e };

    fn from(e: init::Error) -> Error {
        match e {
            init::Error::UnknownObjectFormat { format } => Error::UnknownObjectFormat { format },
            init::Error::MappingValidation(e) => Error::Conflicts(e),
            init::Error::ListRefs(e) => Error::from(e),
            init::Error::Memory => Error::Memory,
        }
    }
}

impl From<client::Error> for Error {
    ghost from_gives = { λ e error. error ≡ of_request e };

    fn from(e: client::Error) -> Error {
        match e {
            client::Error::Memory => Error::Memory,
            other => Error::Request(other),
        }
    }
}

impl From<ObjectError> for Error {
    ghost from_gives = { λ e error. error ≡ of_object e };

    fn from(e: ObjectError) -> Error {
        match e {
            ObjectError::Memory => Error::Memory,
            other => Error::Objects(other),
        }
    }
}

impl From<RefStoreError> for Error {
    ghost from_gives = { λ e error. error ≡ of_ref_store e };

    fn from(e: RefStoreError) -> Error {
        match e {
            RefStoreError::Memory => Error::Memory,
            other => Error::LocalRefs(other),
        }
    }
}

impl<A: Drop> From<negotiate::Error<A>> for Error {
    ghost from_gives = { λ e error. error ≡ of_negotiation e };

    fn from(e: negotiate::Error<A>) -> Error {
        match e {
            negotiate::Error::NegotiationFailed { rounds } => Error::Unnegotiated { rounds },
            negotiate::Error::LookupCommitInGraph(e) => Error::Objects(e),
            negotiate::Error::OpenPackedRefsBuffer => {
                Error::LocalRefs(RefStoreError::OpenPackedRefsBuffer)
            }
            negotiate::Error::IO(kind) => Error::LocalRefs(RefStoreError::Io(kind)),
            negotiate::Error::InitRefIter => Error::LocalRefs(RefStoreError::Iter),
            negotiate::Error::PeelToId => Error::LocalRefs(RefStoreError::Peel),
            negotiate::Error::AlternateRefsAndObjects(_) => Error::LocalRefs(RefStoreError::Iter),
            negotiate::Error::Memory => Error::Memory,
        }
    }
}

impl From<PackError> for Error {
    ghost from_gives = { λ e error. error ≡ of_refused_pack e };

    fn from(e: PackError) -> Error {
        match e {
            PackError::Read(read::Error::Memory) => Error::Memory,
            other => Error::Pack(other),
        }
    }
}

impl From<CopyError> for Error {
    ghost from_gives = { λ e error. error ≡ of_refused_pack (of_copy e) };

    fn from(e: CopyError) -> Error {
        Error::from(PackError::from(e))
    }
}

impl From<AllocError> for Error {
    ghost use Rattle.gixp_client.specs.declared.error.Error.TheVariants.{Memory};

    ghost from_gives = { λ _ error. error ≡ Memory };

    fn from(_e: AllocError) -> Error {
        Error::Memory
    }
}

impl<T: Drop> From<AllocFailed<T>> for Error {
    ghost use Rattle.gixp_client.specs.declared.error.Error.TheVariants.{Memory};

    ghost from_gives = { λ _ error. error ≡ Memory };

    fn from(_e: AllocFailed<T>) -> Error {
        Error::Memory
    }
}
