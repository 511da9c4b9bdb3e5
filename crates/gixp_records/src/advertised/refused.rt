//! The errors of reading an advertisement's refs.
use crate::packets::PacketRefused;

/// The error of reading an advertisement's refs.
#[derive(Clone, Copy, Debug, PartialEq, Eq)]
pub enum AdvertisedRefused {
    /// The packet line can't be read.
    Packet(PacketRefused),
    /// A line is malformed or out of place, or a capability `symref` is malformed.
    Line(AdvertisedLineRefused),
    /// The first ref line has no NUL, which precedes the capabilities.
    NoCapabilities,
    /// The server speaks version 2. It lists its refs only for the command `ls-refs`.
    VersionTwo,
    /// The server speaks an unknown version.
    UnknownVersion,
    /// An allocation failed.
    Memory,
}

/// The error of reading a line of an advertisement.
#[derive(Clone, Copy, Debug, PartialEq, Eq)]
pub enum AdvertisedLineRefused {
    /// The object id is invalid.
    Id,
    /// The line has no name, or white space outside ASCII at its end, which git allows in names.
    Malformed,
    /// A peeled line doesn't follow the ref line of its name, or that ref is symbolic.
    Peeled,
    /// The value of a capability `symref` isn't a name, a colon and a target.
    Symref,
}
