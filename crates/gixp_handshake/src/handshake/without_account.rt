//! The handshake of a client that has no account.
ghost use Rattle.std.specs.Prelude.{◌≡◌, Ok, None};
ghost use Rattle.gixp_handshake.specs.WithoutAccount.{GreetsWithoutAccount};

use crate::credentials;
use crate::credentials::Action;
use crate::handshake::{Error, Handshake, handshake};
use gixp_progress::Discard;
use gixp_transport::{Service, Transport};
use std::alloc::Global;

/// Performs the handshake for `git-upload-pack`. A server that asks for an account gets none.
///
/// # Errors
///
/// Those of [`handshake`].
pub fn handshake_without_account<T: Transport>(
    alloc: Global,
    transport: &mut T,
) -> Result<Handshake, Error>
    ensures { GreetsWithoutAccount T.is_plain (T.reading transport.old) (T.reading transport.new) result }
{
    let mut quiet = Discard;
    handshake(
        alloc,
        transport,
        Service::UploadPack,
        |_: Action| -> Result<Option<credentials::Outcome>, credentials::Error>
            ensures { result ≡ Ok None }
        { Ok(None) },
        Vec::new(alloc),
        &mut quiet,
    )
}
