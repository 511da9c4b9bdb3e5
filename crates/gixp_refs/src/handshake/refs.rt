//! Reading the refs of a server.
ghost use Rattle.std.specs.Prelude.{◌≡◌, MatchResult};
ghost use Rattle.gixp_refs.specs.Refs.{NextRef, NextOfRefs, ReadsRefs, RefsFail};

use crate::handshake::Ref;
use gixp_packetline::ExtendedBufRead;
use std::alloc::Global;

mod advertisement;
mod line;
pub mod parse;
mod symrefs;
mod v1;
mod written;

pub use crate::trim::loses_white_space;
pub use advertisement::from_v1_refs_received_as_part_of_handshake_and_capabilities;
pub use line::parse_v2;
pub use symrefs::from_capabilities;
pub use written::written_text;

/// Reads the next ref of an `ls-refs` response; `None` at a flush or delimiter packet (gitprotocol-v2, "ls-refs"). It
/// suits callers that don't store all refs.
///
/// # Errors
///
/// The error of the next line, which is then taken, or of the reader; [`parse::Error`] says what each leaves. After an
/// error of a line, or an allocation failure for it, the next call goes on with the line after it.
#[inline(always)]
pub fn next_v2_ref<R: ExtendedBufRead>(
    alloc: Global,
    in_refs: &mut R,
) -> Result<Option<Ref>, parse::Error>
    ensures next { NextRef R.is_plain (R.reading in_refs.old) (R.reading in_refs.new) result }
    ensures answer { NextOfRefs R.is_plain (R.reading in_refs.old) (R.reading in_refs.new) result }
    ensures held { (R.reading in_refs.new).held ≡ (R.reading in_refs.old).held }
    ensures version { (R.reading in_refs.new).version ≡ (R.reading in_refs.old).version }
{
    match in_refs.next_line() {
        Ok(true) => {}
        Ok(false) => return Ok(None),
        Err(e) => return Err(parse::Error::from(e)),
    }
    match line::parse_v2(alloc, in_refs.line()) {
        Ok(found) => Ok(Some(found)),
        Err(e) => Err(e),
    }
}

/// Reads the refs of an `ls-refs` response: those of the lines up to a flush or delimiter packet, in their order
/// (gitprotocol-v2, "ls-refs").
///
/// The reader is then at that packet. If it is at one already, there are no refs.
///
/// # Errors
///
/// The first error of a line or of the reader; [`parse::Error`] says what each leaves. No ref is returned with an error.
pub fn from_v2_refs<R: ExtendedBufRead>(
    alloc: Global,
    in_refs: &mut R,
) -> Result<Vec<Ref>, parse::Error>
    ensures answers { MatchResult result
        (λ refs. ReadsRefs (R.reading in_refs.old) (R.reading in_refs.new) refs.items)
        (RefsFail R.is_plain (R.reading in_refs.old) (R.reading in_refs.new)) }
    ensures held { (R.reading in_refs.new).held ≡ (R.reading in_refs.old).held }
    ensures version { (R.reading in_refs.new).version ≡ (R.reading in_refs.old).version }
{
    let mut refs = Vec::new(alloc);
    while let Some(found) = next_v2_ref(alloc, in_refs)? {
        refs.push(found)?;
    }
    Ok(refs)
}
