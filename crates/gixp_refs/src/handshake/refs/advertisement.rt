//! The reference advertisement of versions 0 and 1 (gitprotocol-pack, "Reference Discovery").
ghost use Rattle.std.specs.Prelude.{◌≡◌, MatchResult};
ghost use Rattle.gixp_refs.specs.V1Refs.{symref_values, ReadsV1, V1Fails, GivesAdvertisement, AdvertisementFails};

use crate::handshake::Ref;
use crate::handshake::refs::parse;
use crate::handshake::refs::symrefs::{Targets, by_name, from_capabilities};
use crate::handshake::refs::v1::Advertised;
use gixp_capabilities::Capabilities;
use gixp_packetline::ExtendedBufRead;
use gixp_shallow::ShallowUpdate;
use std::alloc::Global;

/// Reads the reference advertisement of version 0 or 1: the refs of the lines up to the flush packet, in their order,
/// and the shallow updates (gitprotocol-pack, "Reference Discovery").
///
/// The reader is then at the flush packet. If it is at one already, there are no refs. A symref without a line of its own makes no ref.
///
/// # Errors
///
/// The error of [`from_capabilities`], before a line is read. After that the first error of a line or of the reader;
/// [`parse::Error`] says what each leaves. No ref is returned with an error.
pub fn from_v1_refs_received_as_part_of_handshake_and_capabilities<R: ExtendedBufRead>(
    alloc: Global,
    in_refs: &mut R,
    capabilities: &Capabilities,
) -> Result<(Vec<Ref>, Vec<ShallowUpdate>), parse::Error>
    ensures answers { MatchResult result
        (λ found. GivesAdvertisement capabilities.now (R.reading in_refs.old) (R.reading in_refs.new) found.0.items found.1.items)
        (AdvertisementFails capabilities.now R.is_plain (R.reading in_refs.old) (R.reading in_refs.new)) }
    ensures held { (R.reading in_refs.new).held ≡ (R.reading in_refs.old).held }
    ensures version { (R.reading in_refs.new).version ≡ (R.reading in_refs.old).version }
{
    let symrefs = from_capabilities(alloc, capabilities)?;
    let targets = by_name(alloc, symrefs)?;
    read_v1(alloc, in_refs, &targets)
}

// Reads the refs and the shallow updates of the lines, with these symrefs.
fn read_v1<R: ExtendedBufRead>(
    alloc: Global,
    in_refs: &mut R,
    targets: &Targets,
) -> Result<(Vec<Ref>, Vec<ShallowUpdate>), parse::Error>
    ensures answers { MatchResult result
        (λ found. ReadsV1 (symref_values targets.now.entries) (R.reading in_refs.old) (R.reading in_refs.new) found.0.items found.1.items)
        (V1Fails (symref_values targets.now.entries) R.is_plain (R.reading in_refs.old) (R.reading in_refs.new)) }
    ensures held { (R.reading in_refs.new).held ≡ (R.reading in_refs.old).held }
    ensures version { (R.reading in_refs.new).version ≡ (R.reading in_refs.old).version }
{
    let mut found = Advertised::new(alloc);
    loop {
        match in_refs.next_line() {
            Ok(true) => {}
            Ok(false) => return found.finish(targets),
            Err(e) => return Err(parse::Error::from(e)),
        }
        found.add(alloc, targets, in_refs.line())?;
    }
}
