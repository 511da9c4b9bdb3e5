//! Errors after which a retry may succeed.
ghost use Rattle.std.specs.Prelude.{◌≡◌, Bool};
ghost use Rattle.gixp_transport.specs.Spurious.{is_spurious_kind, is_spurious_read, is_spurious_client};

use gixp_capabilities::client;
use gixp_packetline::read;
use std::io::ErrorKind;

/// An error that may come from a connection that works again later.
pub trait IsSpuriousError {
    /// Whether it may.
    ghost spurious: { Self → Bool };

    /// Whether a retry may succeed: a read or write failed as it does when a network connection is lost.
    fn is_spurious(&self) -> bool
        ensures { result ≡ spurious self.now };
}

impl IsSpuriousError for ErrorKind {
    ghost spurious = { is_spurious_kind };

    fn is_spurious(&self) -> bool {
        match self {
            ErrorKind::Interrupted
            | ErrorKind::UnexpectedEof
            | ErrorKind::TimedOut
            | ErrorKind::BrokenPipe
            | ErrorKind::AddrInUse
            | ErrorKind::ConnectionAborted
            | ErrorKind::ConnectionReset
            | ErrorKind::ConnectionRefused => true,
            _ => false,
        }
    }
}

impl IsSpuriousError for read::Error {
    ghost spurious = { is_spurious_read };

    fn is_spurious(&self) -> bool {
        match self {
            read::Error::Io(kind) => kind.is_spurious(),
            _ => false,
        }
    }
}

impl IsSpuriousError for client::Error {
    ghost spurious = { is_spurious_client };

    fn is_spurious(&self) -> bool {
        match self {
            client::Error::Io(kind) => kind.is_spurious(),
            client::Error::Read(e) => e.is_spurious(),
            _ => false,
        }
    }
}
