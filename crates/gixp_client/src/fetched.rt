//! The result of a fetch.
ghost use Rattle.std.specs.Prelude.{◌≡◌, is_some};

use crate::boundary::Boundary;
use crate::listen::Kept;
use gixp_fetch::options::Outcome;

/// The result of a fetch.
#[derive(Debug, Drop)]
pub struct Fetched {
    /// The result of the negotiation if the server sent a pack. `None` if there was nothing to request.
    pub outcome: Option<Outcome>,
    /// The shallow boundary. Store it once the pack is stored.
    pub boundary: Boundary,
    /// The server's messages of bands 2 and 3.
    pub messages: Kept,
}

impl Fetched {
    /// Whether the server sent a pack.
    pub fn has_pack(&self) -> bool
        ensures { result ≡ is_some self.now.outcome }
    {
        self.outcome.is_some()
    }
}
