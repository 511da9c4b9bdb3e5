//! The refs of an advertisement: a ref line and, for a tag, its peeled line (gitprotocol-pack, "Reference Discovery").
ghost use Rattle.std.specs.Prelude.{◌≡◌, ◌==◌, ◌≤◌, Some, Ok, All, IfOk, IfSome, MatchResult, length, map};
ghost use Rattle.std.specs.Option.{option_map};
ghost use Rattle.gixp_refs.specs.RefAdvertisement.{pair, single};
ghost use Rattle.gixp_records.specs.Span.{text_at, IsWithin};
ghost use Rattle.gixp_records.specs.Refs.{ref_in, IsRecordWithin};
ghost use Rattle.gixp_records.specs.V1RecordLine.{IsRefusedAs, named_in, symref_at, IsSymrefWithin, IsAdvertisedWithin};
ghost use Rattle.gixp_records.specs.declared.advertised.opening.RefsOpening.{RefsOpening};
ghost use Rattle.gixp_records.specs.declared.advertised.refused.AdvertisedRefused.TheVariants.{Line};
ghost use Rattle.gixp_records.specs.RefsOpening.{cut_span};
ghost use Rattle.gixp_records.specs.AdvertisedRecords.{IsNextAdvertised, IsSymrefScope, IsNextLine, IsRefusedAfter, IsStep};

use crate::advertised::opening::{RefsOpening, is_stop};
use crate::advertised::ref_line::{AdvertisedLine, NamedLine, read_advertised_line, read_id};
use crate::advertised::refused::{AdvertisedLineRefused, AdvertisedRefused};
use crate::advertised::symrefs::{SymrefSpan, find_symref};
use crate::packets::{NextPacket, PacketRefused, next_packet};
use crate::refs::{NO_ID, RefRecord};
use crate::span::{Span, text_at};

#[derive(Clone, Copy)]
pub(crate) enum NextAdvertised {
    // A line, and the offset after it.
    Line(AdvertisedLine, usize),
    // A stop, and the offset after it.
    Stop(usize),
}

// The position of the reader.
#[derive(Clone, Copy)]
pub(crate) struct SymrefScope {
    // The offset of the next line.
    pub(crate) at: usize,
    // The offset of the last ref line while its peeled line may still follow, otherwise the offset after the last ref.
    pub(crate) place: usize,
    // That ref line.
    pub(crate) last: Option<NamedLine>,
}

// The result of reading one more line.
#[derive(Clone, Copy)]
pub(crate) enum Scan {
    // No complete ref, and the new position.
    On(SymrefScope),
    // A complete ref, and the new position.
    Record(RefRecord, SymrefScope),
    // The last ref, and the offset after the stop.
    Last(RefRecord, usize),
    // The stop without another ref, and the offset after it.
    Stop(usize),
}

// The record of a ref line without a peeled line.
#[inline(always)]
fn single_record(bytes: &[u8], symrefs: &[SymrefSpan], named: NamedLine) -> RefRecord
    requires symrefs { All (IsSymrefWithin bytes.now) symrefs.now }
    requires named { IsWithin bytes.now named.name }
    ensures value { ref_in bytes.now result ≡ single (map (symref_at bytes.now) symrefs.now) (named_in bytes.now named) }
    ensures within { IsRecordWithin bytes.now result }
{
    let object = named.object.bytes;
    let target = match find_symref(bytes, symrefs, text_at(bytes, named.name)) {
        Some(symref) => symref.target,
        None => None,
    };
    match target {
        Some(target) => RefRecord {
            kind: 3,
            object,
            tag: NO_ID,
            name: named.name,
            target,
        },
        None => RefRecord {
            kind: 1,
            object,
            tag: NO_ID,
            name: named.name,
            target: Span::NONE,
        },
    }
}

// The record of a ref line and its peeled line.
#[inline(always)]
fn pair_record(
    bytes: &[u8],
    symrefs: &[SymrefSpan],
    named: NamedLine,
    left: Span,
    base: Span,
) -> Result<RefRecord, AdvertisedLineRefused>
    requires symrefs { All (IsSymrefWithin bytes.now) symrefs.now }
    requires named { IsWithin bytes.now named.name }
    requires left { IsWithin bytes.now left }
    requires base { IsWithin bytes.now base }
    ensures value { MatchResult result
        (λ r. pair (map (symref_at bytes.now) symrefs.now) (Some (named_in bytes.now named)) (text_at bytes.now left)
        (text_at bytes.now base) ≡ Ok (ref_in bytes.now r))
        (IsRefusedAs (pair (map (symref_at bytes.now) symrefs.now) (Some (named_in bytes.now named)) (text_at bytes.now left)
        (text_at bytes.now base))) }
    ensures within { IfOk result (IsRecordWithin bytes.now) }
{
    let name = text_at(bytes, named.name);
    if find_symref(bytes, symrefs, name).is_some() {
        return Err(AdvertisedLineRefused::Peeled);
    }
    if name != text_at(bytes, base) {
        return Err(AdvertisedLineRefused::Peeled);
    }
    match read_id(text_at(bytes, left)) {
        Ok(id) => {
            let object = id.bytes;
            let tag = named.object.bytes;
            Ok(RefRecord {
                kind: 2,
                object,
                tag,
                name: named.name,
                target: Span::NONE,
            })
        }
        Err(e) => Err(e),
    }
}

// The span of a line. The first ref line ends before its capabilities.
#[inline(always)]
fn cut_first(opening: &RefsOpening, at: usize, payload: Span) -> Span
    ensures { result ≡ cut_span (at == opening.now.first) opening.now.cut payload }
{
    if at == opening.first {
        Span {
            at: payload.at,
            len: opening.cut.min(payload.len),
        }
    } else {
        payload
    }
}

// The line at an offset.
#[inline(always)]
fn next_advertised(
    bytes: &[u8],
    opening: &RefsOpening,
    at: usize,
) -> Result<NextAdvertised, AdvertisedRefused>
    requires first { opening.now.first ≤ at }
    requires at { at ≤ length bytes.now }
    ensures { IsNextAdvertised bytes.now opening.now at result }
{
    match next_packet(bytes, at) {
        Ok(NextPacket::Line(payload, next)) => {
            match read_advertised_line(bytes, cut_first(opening, at, payload)) {
                Ok(line) => Ok(NextAdvertised::Line(line, next)),
                Err(e) => Err(AdvertisedRefused::Line(e)),
            }
        }
        Ok(NextPacket::Mark(kind, next)) => {
            if is_stop(opening.version, kind) {
                Ok(NextAdvertised::Stop(next))
            } else {
                Err(AdvertisedRefused::Packet(PacketRefused::Unexpected))
            }
        }
        Err(e) => Err(AdvertisedRefused::Packet(e)),
    }
}

// Adds a line, which isn't the stop.
#[inline(always)]
fn add_line(
    bytes: &[u8],
    symrefs: &[SymrefSpan],
    scope: SymrefScope,
    line: AdvertisedLine,
    next: usize,
) -> Result<Scan, AdvertisedLineRefused>
    requires symrefs { All (IsSymrefWithin bytes.now) symrefs.now }
    requires last { IfSome scope.last (λ n. IsWithin bytes.now n.name) }
    requires line { IsAdvertisedWithin bytes.now line }
    ensures { (o : RefsOpening) → IsNextLine bytes.now o (map (symref_at bytes.now) symrefs.now) scope line next → MatchResult result
        (λ s. IsStep bytes.now o (map (symref_at bytes.now) symrefs.now) scope (Ok s))
        (λ e. IsRefusedAfter bytes.now o (map (symref_at bytes.now) symrefs.now) scope.place (Line e)) }
{
    match line {
        AdvertisedLine::Nothing | AdvertisedLine::Shallow(_) => Ok(Scan::On(SymrefScope {
            at: next,
            place: scope.place,
            last: scope.last,
        })),
        AdvertisedLine::Named(named) => {
            let following = SymrefScope {
                at: next,
                place: scope.at,
                last: Some(named),
            };
            match scope.last {
                Some(before) => Ok(Scan::Record(single_record(bytes, symrefs, before), following)),
                None => Ok(Scan::On(following)),
            }
        }
        AdvertisedLine::Peeled { left, base } => match scope.last {
            Some(before) => match pair_record(bytes, symrefs, before, left, base) {
                Ok(record) => Ok(Scan::Record(
                    record,
                    SymrefScope {
                        at: next,
                        place: next,
                        last: None,
                    },
                )),
                Err(e) => Err(e),
            },
            None => Err(AdvertisedLineRefused::Peeled),
        },
    }
}

// Reads one more line or the stop.
#[inline(always)]
pub(crate) fn read_step(
    bytes: &[u8],
    opening: &RefsOpening,
    symrefs: &[SymrefSpan],
    scope: SymrefScope,
) -> Result<Scan, AdvertisedRefused>
    requires symrefs { All (IsSymrefWithin bytes.now) symrefs.now }
    requires scope { IsSymrefScope bytes.now opening.now (map (symref_at bytes.now) symrefs.now) scope }
    ensures { IsStep bytes.now opening.now (map (symref_at bytes.now) symrefs.now) scope result }
{
    match next_advertised(bytes, opening, scope.at) {
        Ok(NextAdvertised::Line(line, next)) => {
            match add_line(bytes, symrefs, scope, line, next) {
                Ok(made) => Ok(made),
                Err(e) => Err(AdvertisedRefused::Line(e)),
            }
        }
        Ok(NextAdvertised::Stop(next)) => match scope.last {
            Some(before) => Ok(Scan::Last(single_record(bytes, symrefs, before), next)),
            None => Ok(Scan::Stop(next)),
        },
        Err(e) => Err(e),
    }
}
