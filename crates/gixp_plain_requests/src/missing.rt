//! The capabilities that a server lacks.
ghost use Rattle.std.specs.Prelude.{◌≡◌, ◌||◌, codes};
ghost use Rattle.gixp_capabilities.specs.Capabilities.{has_named};
ghost use Rattle.gixp_plain_requests.specs.Lacks.{lacks_nothing, lacks, needs_translation, acknowledges_one};

use gixp_capabilities::Capabilities;

/// Which capabilities a server of version 0 or 1 lacks, of those that a client may request from any server
/// (gitprotocol-capabilities).
#[derive(Clone, Copy, Debug, PartialEq, Eq)]
pub struct Missing {
    /// The server lacks `multi_ack_detailed`.
    pub multi_ack_detailed: bool,
    /// The server lacks `multi_ack`.
    pub multi_ack: bool,
    /// The server lacks `side-band-64k` and `side-band`.
    pub side_band: bool,
    /// The server lacks `include-tag`.
    pub include_tag: bool,
    /// The server lacks `agent`.
    pub agent: bool,
}

impl Missing {
    /// Nothing is missing.
    pub fn nothing() -> Missing
        ensures { result ≡ lacks_nothing }
    {
        Missing {
            multi_ack_detailed: false,
            multi_ack: false,
            side_band: false,
            include_tag: false,
            agent: false,
        }
    }

    /// What is missing in the capabilities of a server.
    pub fn of(capabilities: &Capabilities) -> Missing
        ensures { result ≡ lacks capabilities.now }
    {
        Missing {
            multi_ack_detailed: !capabilities.contains(b"multi_ack_detailed"),
            multi_ack: !capabilities.contains(b"multi_ack"),
            side_band: !has_side_band(capabilities),
            include_tag: !capabilities.contains(b"include-tag"),
            agent: !capabilities.contains(b"agent"),
        }
    }

    /// Whether responses must be translated: the server has no detailed acknowledgements or no side-band.
    pub fn needs_translation(self) -> bool
        ensures { result ≡ needs_translation self }
    {
        self.multi_ack_detailed || self.side_band
    }

    /// Whether the server acknowledges only one commit. After that it sends nothing until `done` (gitprotocol-pack,
    /// "Packfile Negotiation").
    pub fn acknowledges_one(self) -> bool
        ensures { result ≡ acknowledges_one self }
    {
        self.multi_ack_detailed && self.multi_ack
    }
}

fn has_side_band(capabilities: &Capabilities) -> bool
    ensures { result ≡ (has_named (codes "side-band-64k") capabilities.now || has_named (codes "side-band") capabilities.now) }
{
    capabilities.contains(b"side-band-64k") || capabilities.contains(b"side-band")
}
