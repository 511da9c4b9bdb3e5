//! Why a pack isn't received.
ghost use Rattle.gixp_fetch_common.specs.Received.{IsUnreceived};

use crate::error_kind::kind_text;
use gix_protocol::client::{Error, PackError};
use gixp_pack::CheckError;
use std::alloc::Global;
use std::fmt;
use std::fmt::Display;
use std::io::ErrorKind;

/// Why a pack isn't received. What was written is removed.
///
/// The client's error has a text. It is allocated by the allocator of the variant.
#[derive(Debug, Drop)]
pub enum ReceiveError {
    /// The place of the pack can't be opened for writing. The error has this kind.
    Begin(Global, ErrorKind),
    /// A read of the server's stream failed with this kind.
    Read(Global, ErrorKind),
    /// A write failed with this kind.
    Write(Global, ErrorKind),
    /// The bytes up to the flush packet aren't a whole pack.
    Incomplete(Global, CheckError),
    /// An allocation failed.
    Memory,
}

impl Display for ReceiveError {
    fn fmt<W: fmt::Write>(&self, f: &mut fmt::Formatter<W>) -> fmt::Result {
        match self {
            ReceiveError::Begin(_, kind) => {
                write!(f, "the pack's file can't be made: {}", kind_text(*kind))
            }
            ReceiveError::Read(_, kind) => {
                write!(f, "the pack can't be read: {}", kind_text(*kind))
            }
            ReceiveError::Write(_, kind) => {
                write!(f, "the pack can't be written: {}", kind_text(*kind))
            }
            ReceiveError::Incomplete(_, e) => {
                write!(f, "the received data is not a complete pack: {e}")
            }
            ReceiveError::Memory => f.write_str("out of memory"),
        }
    }
}

impl std::error::Error for ReceiveError {}

impl From<ReceiveError> for Error {
    ghost from_gives = { λ e error. IsUnreceived e error };

    fn from(e: ReceiveError) -> Error {
        let alloc = match &e {
            ReceiveError::Begin(alloc, _)
            | ReceiveError::Read(alloc, _)
            | ReceiveError::Write(alloc, _)
            | ReceiveError::Incomplete(alloc, _) => *alloc,
            ReceiveError::Memory => return Error::Memory,
        };
        match format!(in alloc; "{e}") {
            Ok(why) => Error::Pack(PackError::Refused(why)),
            Err(_) => Error::Memory,
        }
    }
}
