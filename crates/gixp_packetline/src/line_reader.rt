//! A reader of lines over any reader of bytes.
ghost use Rattle.std.specs.Prelude.{IfOk, true, ⊤};
ghost use Rattle.gixp_packetline.specs.Reading.{IsFresh};

use crate::packets::Packets;
use crate::protocol::{MessageKind, Protocol};
use crate::read::{Error, ExtendedBufRead};
use std::alloc::{AllocError, Global};
use std::io::Read;

/// Reads the lines of a stream of packet lines (gitprotocol-common, "pkt-line Format"; gitprotocol-v2, "Packet-Line
/// Framing"). It begins under version 2, where both a flush and a delimiter packet end the lines.
///
/// The lines depend only on the bytes, not on the pieces in which the reader returns them.
#[derive(Drop)]
pub struct LineReader<'a, R> {
    packets: Packets<&'a mut R>,
}

impl<'a, R: Read> LineReader<'a, R> {
    ghost use Rattle.gixp_packetline.specs.LineReader.{line_reader_reading};

    /// Reads lines from this reader. It allocates one buffer of 65,520 bytes, and reads nothing yet.
    ///
    /// # Errors
    ///
    /// The buffer could not be allocated. The reader is unchanged.
    pub fn new(alloc: Global, reader: &'a mut R) -> Result<LineReader<'a, R>, AllocError>
        ensures { IfOk result (λ r. IsFresh (R.remaining reader.old) (line_reader_reading R.remaining r)) }
    {
        let packets = Packets::new(alloc, reader)?;
        Ok(LineReader { packets })
    }
}

impl<'a, R: Read> ExtendedBufRead for LineReader<'a, R> {
    ghost use Rattle.gixp_packetline.specs.LineReader.{line_reader_reading};

    ghost reading = { line_reader_reading R.remaining };

    ghost is_plain = { true };

    ghost asks = { λ a stops b. ⊤ };

    ghost stays = { λ r. tt };

    ghost joins = { λ a b c stops g h. tt };

    fn next_line(&mut self) -> Result<bool, Error> {
        self.packets.next_line()
    }

    fn peek_line(&mut self) -> Result<bool, Error> {
        self.packets.peek_line()
    }

    fn line(&self) -> &[u8] {
        self.packets.line()
    }

    fn stopped_at(&self) -> Option<MessageKind> {
        self.packets.stopped_at()
    }

    fn reset(&mut self, version: Protocol) {
        self.packets.reset(version);
    }
}
