//! The connection to a server over the two files of a command line.
ghost use Rattle.std.specs.Prelude.{◌≡◌, IfOk, IfSome};
ghost use Rattle.std.specs.Option.{option_map};
ghost use Rattle.bstr.specs.Owned.{bstring_bytes};
ghost use Rattle.gix_protocol.specs.Connection.{connection_reading};
ghost use Rattle.gixp_fetch_cli.specs.Connected.{IsConnected};

use crate::options::Server;
use bstr::BString;
use gix_protocol::transport::{Connection, Opening};
use std::alloc::{AllocError, Global};
use std::io::{Read, Write};

// The first message, for a server that needs a path.
fn opening_of(alloc: Global, server: &Server<'_>) -> Result<Option<Opening>, AllocError>
    ensures path { IfOk result (λ opening. option_map (λ o. bstring_bytes o.path) opening
        ≡ option_map (λ w. w.now) server.now.path) }
    ensures host { IfOk result (λ opening. IfSome opening (λ o. option_map bstring_bytes o.host
        ≡ option_map (λ w. w.now) server.now.host)) }
{
    let Some(path) = server.path else {
        return Ok(None);
    };
    let host = match server.host {
        Some(host) => Some(BString::from_slice(alloc, host.as_bytes())?),
        None => None,
    };
    Ok(Some(Opening {
        path: BString::from_slice(alloc, path.as_bytes())?,
        host,
    }))
}

/// The connection over the server's output and input.
pub fn connect<R: Read + Drop, W: Write + Drop>(
    alloc: Global,
    from: R,
    to: W,
    server: &Server<'_>,
) -> Result<Connection<R, W>, AllocError>
    ensures { IfOk result (λ c. IsConnected (option_map (λ w. w.now) server.now.path) (option_map (λ w. w.now) server.now.host)
        server.now.version (R.remaining from) (W.contents to) (connection_reading R.remaining W.contents c)) }
{
    let opening = opening_of(alloc, server)?;
    let url = BString::from_slice(alloc, server.path.unwrap_or("").as_bytes())?;
    Connection::new(
        alloc,
        from,
        to,
        url,
        server.version,
        Vec::new(alloc),
        opening,
    )
}
