//! A transport over two streams.
ghost use Rattle.std.specs.Prelude.{[], None, IfOk};
ghost use Rattle.gixp_packetline.specs.declared.protocol.Protocol.TheVariants.{V2};
ghost use Rattle.gixp_transport.specs.Connection.{IsNewConnection, connection_reading};

use bstr::BString;
use gixp_packetline::Protocol;
use gixp_transport::Connection;
use std::alloc::{AllocError, Global};
use std::io::{Read, Write};

/// A transport over two streams, such as the pipes of `git upload-pack PATH`, local or by `ssh`. It sends no request for a protocol
/// version: set `GIT_PROTOCOL=version=2` for that program. It accepts all versions.
///
/// # Errors
///
/// Only when an allocation fails.
pub fn over_streams<R: Read + Drop, W: Write + Drop>(
    alloc: Global,
    from: R,
    to: W,
) -> Result<Connection<R, W>, AllocError>
    ensures { IfOk result (λ c. IsNewConnection (R.remaining from) (W.contents to) [] V2 [] None
        (connection_reading R.remaining W.contents c)) }
{
    let url = BString::from(Vec::new(alloc));
    Connection::new(alloc, from, to, url, Protocol::V2, Vec::new(alloc), None)
}
