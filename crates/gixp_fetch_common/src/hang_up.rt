//! Whether the server ended the connection.
ghost use Rattle.std.specs.Prelude.{◌≡◌};
ghost use Rattle.gixp_fetch_common.specs.HangUp.{is_gone, is_client_gone, is_list_cut, is_handshake_cut, is_answer_cut, is_hang_up};

use gix_protocol::client::Error;
use gix_protocol::fetch::response;
use gix_protocol::handshake;
use gix_protocol::handshake::refs::parse;
use gix_protocol::transport::client;
use std::io::ErrorKind;

// Whether a failed read or write of this kind shows that the other end is closed.
fn is_gone(kind: ErrorKind) -> bool
    ensures { result ≡ is_gone kind }
{
    matches!(
        kind,
        ErrorKind::UnexpectedEof | ErrorKind::BrokenPipe | ErrorKind::ConnectionReset
    )
}

fn is_client_gone(e: &client::Error) -> bool
    ensures { result ≡ is_client_gone e.now }
{
    match e {
        client::Error::Io(kind) => is_gone(*kind),
        _ => false,
    }
}

// Whether the connection ended within the lines of refs.
fn is_list_cut(e: &parse::Error) -> bool
    ensures { result ≡ is_list_cut e.now }
{
    match e {
        parse::Error::Io(kind) => is_gone(*kind),
        _ => false,
    }
}

// Whether the connection ended within the handshake.
fn is_handshake_cut(e: &handshake::Error) -> bool
    ensures { result ≡ is_handshake_cut e.now }
{
    match e {
        handshake::Error::Transport(e) => is_client_gone(e),
        handshake::Error::ParseRefs(e) => is_list_cut(e),
        _ => false,
    }
}

// Whether the connection ended within an answer.
fn is_answer_cut(e: &response::Error) -> bool
    ensures { result ≡ is_answer_cut e.now }
{
    match e {
        response::Error::Io(kind) => is_gone(*kind),
        response::Error::Transport(e) => is_client_gone(e),
        _ => false,
    }
}

/// Whether the server ended the connection before its answer was complete. A pack that ends early is an error of its consumer.
pub fn is_hang_up(e: &Error) -> bool
    ensures { result ≡ is_hang_up e.now }
{
    match e {
        Error::Handshake(e) => is_handshake_cut(e),
        Error::Refs(e) => is_list_cut(e),
        Error::Request(e) => is_client_gone(e),
        Error::Answer(e) => is_answer_cut(e),
        _ => false,
    }
}
