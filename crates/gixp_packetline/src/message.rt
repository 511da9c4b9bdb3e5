//! The server's message in an error.
ghost use Rattle.std.specs.Prelude.{◌≡◌, ℕ, List, Option};
ghost use Rattle.std.specs.Option.{option_map};
ghost use Rattle.bstr.specs.BStr.{bstr_bytes};
ghost use Rattle.gixp_packetline.specs.ServerMessage.{read_message};

use crate::read;
use bstr::BStr;

/// An error that may have a message of the server (gitprotocol-pack, "pkt-line Format").
pub trait ServerMessage {
    /// The bytes of the message, if there is one.
    ghost message: { Self → Option (List ℕ) };

    /// The server's message: its line after `ERR `, without one ending LF. `None` where the error isn't from the server.
    fn server_message(&self) -> Option<BStr<'_>>
        ensures { option_map bstr_bytes result ≡ message self.now };
}

impl ServerMessage for read::Error {
    ghost message = { read_message };

    fn server_message(&self) -> Option<BStr<'_>> {
        match self {
            read::Error::Server { message } => Some(message.as_bstr()),
            _ => None,
        }
    }
}
