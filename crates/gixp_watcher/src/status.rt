//! The exit status of a failed fetch.
ghost use Rattle.std.specs.Prelude.{◌≡◌};
ghost use Rattle.gix_protocol.specs.ErrorClasses.{class_of};
ghost use Rattle.gixp_watcher.specs.Status.{status_of};

use gix_protocol::client::{Error, ErrorClass};

/// 2 if the server reports an error, 3 if another try may help, otherwise 1.
pub fn exit_status(e: &Error) -> u8
    ensures { result ≡ status_of (class_of e.now) }
{
    match e.class() {
        ErrorClass::Server => 2,
        ErrorClass::Connection | ErrorClass::Memory => 3,
        ErrorClass::Protocol | ErrorClass::Refused | ErrorClass::Conflict | ErrorClass::Local => 1,
    }
}
