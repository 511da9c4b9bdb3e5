//! Packet lines: from bytes to packet lines to lines.
//!
//! A packet line has four hexadecimal digits, and the payload that they count. A reader of lines returns the payloads
//! up to a flush packet, under version 2 also up to a delimiter packet. It doesn't matter in which pieces the bytes
//! arrive.
#![tactic(auto)]

pub mod digits;
pub mod laws;
mod line_reader;
mod message;
mod packet;
mod packet_line;
pub mod packets;
mod protocol;
pub mod read;
mod same;
mod window;

pub use line_reader::LineReader;
pub use message::ServerMessage;
pub use packet::{Frame, PacketError};
pub use packet_line::{PacketLine, split_packet_line};
pub use protocol::{MessageKind, Protocol};
pub use read::ExtendedBufRead;
