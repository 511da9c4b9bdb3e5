//! The error of a pack's consumer.
ghost use Rattle.std.specs.Prelude.{◌≡◌};
ghost use Rattle.gixp_client.specs.ClientError.{of_copy};

use gixp_fetch::consume::CopyError;
use gixp_packetline::read;
use std::io::ErrorKind;

/// The error of a pack's consumer, without a type of the caller's.
#[derive(Debug, Drop)]
pub enum PackError {
    /// A read from the connection failed.
    Read(read::Error),
    /// A write of the consumer failed, with this kind.
    Write(ErrorKind),
    /// The consumer rejects the pack, for the reason in the text.
    Refused(String),
}

impl From<CopyError> for PackError {
    ghost from_gives = { λ e error. error ≡ of_copy e };

    fn from(e: CopyError) -> PackError {
        match e {
            CopyError::Read(e) => PackError::Read(e),
            CopyError::Write(kind) => PackError::Write(kind),
        }
    }
}
