//! Versions of the protocol, and kinds of messages.

/// The version of the protocol (gitprotocol-pack, "Extra Parameters"; gitprotocol-v2).
///
/// The version decides where a reader of lines stops: at a flush packet, and under version 2 at a delimiter packet too.
#[derive(Clone, Copy, Debug, PartialEq, Eq, PartialOrd, Ord, Hash)]
pub enum Protocol {
    /// Version 0: the server speaks first and names no version.
    V0,
    /// Version 1: version 0 after a line that names the version.
    V1,
    /// Version 2: commands, and responses in sections.
    V2,
}

/// What a packet line means: the end of something, or a line of text (gitprotocol-v2, "Packet-Line Framing").
#[derive(Clone, Copy, Debug, PartialEq, Eq)]
pub enum MessageKind {
    /// The end of a message: a flush packet, `0000`.
    Flush,
    /// The end of a section: a delimiter packet, `0001`.
    Delimiter,
    /// The end of a response on a stateless connection: a response-end packet, `0002`.
    ResponseEnd,
    /// A line of text.
    Text,
}
