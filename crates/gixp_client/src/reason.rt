//! How a connection failed or the server violated the protocol, as texts.
ghost use Rattle.std.specs.Prelude.{◌≡◌};
ghost use Rattle.std.specs.Option.{option_map};
ghost use Rattle.gixp_client.specs.Reasons.{read_reason, client_reason, refs_reason, handshake_reason, answer_reason, pack_reason};

use crate::consumer::PackError;
use gixp_capabilities::client;
use gixp_handshake::handshake;
use gixp_packetline::read;
use gixp_refs::handshake::refs::parse;
use gixp_response::fetch::response;

/// The fault of a reader, if its error has a text.
pub(crate) fn read_reason(e: &read::Error) -> Option<&'static str>
    ensures { option_map (λ w. w.now) result ≡ read_reason e.now }
{
    match e {
        read::Error::Io(_) => Some("the connection can't be read"),
        read::Error::Decode(_) => Some(
            "protocol error: the server sent something that is not a packet line",
        ),
        read::Error::UnexpectedFrame => {
            Some("protocol error: the server sent an unexpected packet")
        }
        read::Error::NotUtf8 => Some("protocol error: the server sent a line that is not UTF-8"),
        read::Error::BadBand(_) => Some("protocol error: bad band"),
        read::Error::Interrupted => Some("it was interrupted"),
        read::Error::Server { message: _ } | read::Error::Memory => None,
    }
}

/// The fault of a call to the server.
pub(crate) fn client_reason(e: &client::Error) -> Option<&'static str>
    ensures { option_map (λ w. w.now) result ≡ client_reason e.now }
{
    match e {
        client::Error::Io(_) => Some("the connection broke"),
        client::Error::Read(e) => read_reason(e),
        client::Error::LineTooLong => Some("a line is too long for a packet"),
        client::Error::AuthenticationUnsupported => Some("this connection can't use an account"),
        client::Error::UnsupportedProtocolVersion(_) => {
            Some("the server speaks an unknown version of the protocol")
        }
        client::Error::MissingDelimitingNullByte => {
            Some("protocol error: the server sent no capabilities")
        }
        client::Error::Memory => None,
    }
}

/// The fault of a list of refs.
pub(crate) fn refs_reason(e: &parse::Error) -> Option<&'static str>
    ensures { option_map (λ w. w.now) result ≡ refs_reason e.now }
{
    match e {
        parse::Error::Io(_) => Some("the connection can't be read"),
        parse::Error::DecodePacketline(_) => {
            Some("protocol error: the server sent something that is not a packet line")
        }
        parse::Error::Reader(e) => read_reason(e),
        _ => None,
    }
}

/// The fault of a handshake.
pub(crate) fn handshake_reason(e: &handshake::Error) -> Option<&'static str>
    ensures { option_map (λ w. w.now) result ≡ handshake_reason e.now }
{
    match e {
        handshake::Error::Transport(e) => client_reason(e),
        handshake::Error::ParseRefs(e) => refs_reason(e),
        _ => None,
    }
}

/// The fault of a response.
pub(crate) fn answer_reason(e: &response::Error) -> Option<&'static str>
    ensures { option_map (λ w. w.now) result ≡ answer_reason e.now }
{
    match e {
        response::Error::Transport(e) => client_reason(e),
        response::Error::Reader(e) => read_reason(e),
        _ => None,
    }
}

/// The fault of a pack.
pub(crate) fn pack_reason(e: &PackError) -> Option<&'static str>
    ensures { option_map (λ w. w.now) result ≡ pack_reason e.now }
{
    match e {
        PackError::Read(e) => read_reason(e),
        _ => None,
    }
}
