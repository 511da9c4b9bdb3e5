//! The arguments and the result of a handshake.
ghost use Rattle.std.specs.Prelude.{◌≡◌};
ghost use Rattle.gixp_transport.specs.Service.{service_name};

use bstr::BString;
use gixp_capabilities::Capabilities;
use gixp_packetline::Protocol;

/// The service that a client requests from the server (gitprotocol-pack, "Git Transport").
#[derive(Clone, Copy, Debug, PartialEq, Eq)]
pub enum Service {
    /// The server sends objects to the client.
    UploadPack,
    /// The server receives objects from the client.
    ReceivePack,
}

impl Service {
    /// The name of the service in a request, such as `git-upload-pack`.
    pub fn as_str(&self) -> &'static str
        ensures { result.now ≡ service_name self.now }
    {
        match self {
            Service::UploadPack => "git-upload-pack",
            Service::ReceivePack => "git-receive-pack",
        }
    }
}

/// The credentials of a user at a server (gitcredentials).
#[derive(Clone, Debug, PartialEq, Eq, Drop)]
pub struct Account {
    /// The user's name.
    pub username: String,
    /// The password, or a token that the server takes for one.
    pub password: String,
}

/// The repository that the first message of a handshake names (gitprotocol-pack, "Git Transport").
#[derive(Clone, Debug, PartialEq, Eq, Drop)]
pub struct Opening {
    /// The path of the repository.
    pub path: BString,
    /// The host, with its port where it isn't the default one.
    pub host: Option<BString>,
}

/// The server's response to a handshake.
#[derive(Debug, Drop)]
pub struct SetServiceResponse {
    /// The version that the server speaks.
    pub actual_protocol: Protocol,
    /// The capabilities that the server advertises.
    pub capabilities: Capabilities,
    /// Whether the lines that the transport returns next are the refs, as under versions 0 and 1.
    pub has_refs: bool,
}
