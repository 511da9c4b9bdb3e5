//! Requests to servers of versions 0 and 1 that lack `multi_ack_detailed`, a side-band or other capabilities. A client sees
//! an advertisement that names these capabilities too, and the server receives requests without them
//! (gitprotocol-pack, "Reference Discovery", "Packfile Negotiation"; gitprotocol-capabilities).
#![tactic(auto)]

mod advertisement;
mod held;
mod line;
mod missing;
mod named;
mod reader;
mod request;

pub use held::HeldRequests;
pub use missing::Missing;
pub use named::NamedCapabilities;
pub use request::sent_request;
