//! The errors of `next_step`.
ghost use Rattle.std.specs.Prelude.{◌≡◌};
ghost use Rattle.std.specs.Option.{option_map};
ghost use Rattle.bstr.specs.BStr.{bstr_bytes};
ghost use Rattle.gixp_engine.specs.EngineMessage.{engine_message};

use crate::consumer::Left;
use bstr::BStr;
use gixp_fetch::error::Error as FetchError;
use gixp_handshake::handshake;
use gixp_packetline::ServerMessage;
use gixp_records::PacketRefused;
use gixp_refmap::refmap;
use gixp_refspec::parse;
use std::alloc::{AllocError, AllocFailed};
use thiserror::Error as DeriveError;

/// The error of `next_step`.
#[derive(Debug, Drop, DeriveError)]
pub enum EngineError {
    /// There is no response. The first response is the server's advertisement.
    #[error("there is no response yet")]
    NoAnswer,
    /// There are more responses than requests.
    #[error("there are more responses than requests")]
    TooManyAnswers,
    /// The offsets don't match the responses, or the bytes aren't whole ids.
    #[error("a length is out of range")]
    Lengths,
    /// A text isn't a valid refspec.
    #[error("{0}")]
    Spec(parse::Error),
    /// The filter isn't UTF-8.
    #[error("the filter isn't UTF-8")]
    Filter,
    /// An excluded ref has an invalid name.
    #[error("an excluded ref has an invalid name")]
    Name,
    /// There is no such limit of the history.
    #[error("the limit of the history is unknown")]
    Limit,
    /// The handshake failed.
    #[error("{0}")]
    Handshake(handshake::Error),
    /// There is a filter, and the server offers none.
    #[error("the server offers no filters")]
    NoFilters,
    /// The refs couldn't be listed, or their mappings conflict.
    #[error("{0}")]
    Refs(refmap::init::Error),
    /// The list of refs didn't end with a flush packet, so refs may be missing (gitprotocol-v2, "ls-refs").
    #[error("expected flush after ref listing")]
    UnterminatedRefs,
    /// A line of the list of refs ends in white space outside ASCII, which git allows in names of refs (git-check-ref-format). The
    /// parser of refs trims it, so the name may be another ref's.
    #[error("the server lists a ref whose name ends in white space outside ASCII")]
    UnsupportedRefName,
    /// The fetch failed.
    #[error("{0}")]
    Fetch(FetchError<AllocError, Left>),
    /// The start of the pack isn't in the last response.
    #[error("the response has no pack")]
    Pack(PacketRefused),
    /// An allocation failed.
    #[error("Memory")]
    Memory,
}

impl From<AllocError> for EngineError {
    ghost use Rattle.std.specs.Prelude.{◌≡◌};
    ghost use Rattle.gixp_engine.specs.declared.error.EngineError.TheVariants.{Memory};

    ghost from_gives = { λ _ error. error ≡ Memory };

    fn from(_e: AllocError) -> EngineError {
        EngineError::Memory
    }
}

impl<T: Drop> From<AllocFailed<T>> for EngineError {
    ghost use Rattle.std.specs.Prelude.{◌≡◌};
    ghost use Rattle.gixp_engine.specs.declared.error.EngineError.TheVariants.{Memory};

    ghost from_gives = { λ _ error. error ≡ Memory };

    fn from(_e: AllocFailed<T>) -> EngineError {
        EngineError::Memory
    }
}

impl EngineError {
    /// The server's message, if the error is the server's.
    pub fn server_message(&self) -> Option<BStr<'_>>
        ensures { option_map bstr_bytes result ≡ engine_message self.now }
    {
        match self {
            EngineError::Handshake(e) => e.server_message(),
            EngineError::Refs(e) => e.server_message(),
            EngineError::Fetch(e) => e.server_message(),
            _ => None,
        }
    }
}
