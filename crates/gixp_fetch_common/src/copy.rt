//! The copy of a pack that checks it.
ghost use Rattle.gixp_sidebands.specs.Sidebands.{side};
ghost use Rattle.gixp_fetch_common.specs.PackCopied.{ChecksPack};

use crate::receive_error::ReceiveError;
use gixp_pack::{PackCheck, PackSummary};
use gixp_packetline::ExtendedBufRead;
use gixp_sidebands::{BandText, Interrupt, WithSidebands};
use std::alloc::Global;
use std::io::{BufRead, Write};

/// Copies a pack up to the flush packet after it, and checks it.
///
/// # Errors
///
/// The first error. What was written then is no whole pack.
pub fn copy_pack<T: ExtendedBufRead, B: BandText + Drop, I: Interrupt, W: Write>(
    alloc: Global,
    reader: &mut WithSidebands<'_, '_, T, B, I>,
    writer: &mut W,
) -> Result<PackSummary, ReceiveError>
    ensures { ChecksPack (W.contents writer.old) (side T.reading reader.old) result (W.contents writer.new) (side T.reading reader.new) }
{
    let mut check = PackCheck::new(alloc);
    'pieces: loop {
        match reader.fill() {
            Ok(true) => {}
            Ok(false) => match check.finish() {
                Ok(summary) => return Ok(summary),
                Err(e) => return Err(ReceiveError::Incomplete(alloc, e)),
            },
            Err(e) => return Err(ReceiveError::Read(alloc, e.kind())),
        }
        let piece = reader.buffer();
        let count = piece.len();
        match check.take(piece) {
            Ok(()) => {}
            Err(_) => return Err(ReceiveError::Memory),
        }
        match writer.write_all(piece) {
            Ok(()) => {}
            Err(e) => return Err(ReceiveError::Write(alloc, e.kind())),
        }
        reader.consume(count);
    }
}
