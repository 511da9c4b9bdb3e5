//! Streams, and their lines and bands.
pub mod client;

pub use gixp_capabilities::{Capabilities, Capability, CapabilityIter};
pub use gixp_hash::{Kind, ObjectId, decode};
pub use gixp_packetline::{
    ExtendedBufRead, Frame, LineReader, MessageKind, PacketError, PacketLine, Protocol,
    ServerMessage, laws, read, split_packet_line,
};
pub use gixp_progress::{Discard, NestedProgress, Progress};
pub use gixp_sidebands::{BandText, Interrupt, InterruptFlag, NeverInterrupt};
pub use gixp_transport::{
    Account, Bodies, Body, Connection, Feature, IsSpuriousError, MAX_LINE, Message, Opening,
    Service, SetServiceResponse, Transport, fits_line,
};

/// A reader of bands whose transport and interrupt have the same lifetime. A consumer of a pack receives
/// `gix_protocol::fetch::WithSidebands`, which is this type with the progress reporter that shows the server's messages.
pub type WithSidebands<'a, T, P, I> = gixp_sidebands::WithSidebands<'a, 'a, T, P, I>;
