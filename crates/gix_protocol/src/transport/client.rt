//! The capabilities of a server, and the errors of a transport.
pub use gixp_capabilities::client::Error;
pub use gixp_capabilities::{Capabilities, Capability, CapabilityIter};
pub use gixp_packetline::{ExtendedBufRead, MessageKind};
pub use gixp_transport::{Account, SetServiceResponse, Transport};
