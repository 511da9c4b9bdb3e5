//! The commands of version 2, and what a client requests of each by default (gitprotocol-v2, "Command Request").
ghost use Rattle.std.specs.Prelude.{◌≡◌};

mod features;
pub(crate) mod table;
pub mod validate_argument_prefixes;

pub use gixp_transport::Feature;
pub use table::CommandTable;

/// A command of version 2 (gitprotocol-v2, "Command Request").
#[derive(Clone, Copy, Debug, PartialEq, Eq, PartialOrd, Ord, Hash)]
pub enum Command {
    /// Lists refs.
    LsRefs,
    /// Fetches a pack.
    Fetch,
}

impl Command {
    ghost use Rattle.gixp_requests.specs.Command.{command_name};

    /// The name of the command in a request: `ls-refs` or `fetch`.
    pub fn as_str(&self) -> &'static str
        ensures { result.now ≡ command_name self.now }
    {
        match self {
            Command::LsRefs => "ls-refs",
            Command::Fetch => "fetch",
        }
    }
}
