//! The refs of an `ls-refs` response as records (gitprotocol-v2, "ls-refs").
ghost use Rattle.std.specs.Prelude.{◌≡◌, ◌≤◌, MatchResult, Ok, IfOk, IfSome, length};
ghost use Rattle.std.specs.Option.{option_map};
ghost use Rattle.gixp_packetline.specs.declared.protocol.Protocol.TheVariants.{V2};
ghost use Rattle.gixp_packetline.specs.Items.{is_stop};
ghost use Rattle.gixp_refs.specs.RefLine.{target_of, born, never_born, v2_line};
ghost use Rattle.gixp_records.specs.Span.{text_at, IsWithin};
ghost use Rattle.gixp_records.specs.RecordLine.{Judges, attributes_in, AreAttributesWithin, line_ref_value, IsLineWithin};
ghost use Rattle.gixp_records.specs.ListedLine.{listed_v2};
ghost use Rattle.gixp_records.specs.Refs.{ref_in, IsRecordWithin, IsNextRef, ReadsRecords};

use crate::line::{LineAttributes, LineRef, LineRefused, is_null, read_line};
use crate::packets::{NextPacket, PacketRefused, next_packet};
use crate::span::{Span, text_at};
use crate::white_space::loses_white_space;
use gixp_hash::ObjectId;
use gixp_packetline::MessageKind;

/// A ref as numbers. Its texts are spans of the caller's bytes.
#[repr(C)]
#[derive(Clone, Copy, Debug, PartialEq, Eq)]
pub struct RefRecord {
    /// 1 for a ref to an object, 2 for a ref to a tag, 3 for a symbolic ref, 4 for a symbolic ref whose object is a tag, 5 for a
    /// symbolic ref whose target is unborn.
    pub kind: u32,
    /// The object. Of kinds 2 and 4 the peeled object. Of kind 5 zeros.
    pub object: [u8; 20],
    /// The tag, of kinds 2 and 4. Otherwise zeros.
    pub tag: [u8; 20],
    /// The full name.
    pub name: Span,
    /// The name of the target, of kinds 3, 4 and 5.
    pub target: Span,
}

/// The error of reading an `ls-refs` response.
#[derive(Clone, Copy, Debug, PartialEq, Eq)]
pub enum RefsRefused {
    /// The packet line can't be read.
    Packet(PacketRefused),
    /// The line is malformed.
    Line(LineRefused),
}

/// Why a call stopped reading refs.
#[derive(Clone, Copy, Debug, PartialEq, Eq)]
pub enum RefsEnd {
    /// The records are full. The next call continues.
    Full,
    /// The stop of the response was read. `next` is the offset after it.
    Stop,
    /// An error at the offset `next`.
    Refused(RefsRefused),
}

/// The result of a call that reads refs.
#[derive(Clone, Copy, Debug, PartialEq, Eq)]
pub struct RefsFound {
    /// The number of records written.
    pub count: usize,
    /// The offset after what was read.
    pub next: usize,
    /// Why the call stopped.
    pub end: RefsEnd,
}

#[derive(Clone, Copy)]
pub(crate) enum NextRef {
    // A ref, and the offset after it.
    Ref(RefRecord, usize),
    // A stop, and the offset after it.
    Stop(usize),
}

// In place of a missing id.
pub(crate) const NO_ID: [u8; 20] = [0; 20];

// The target, unless it is `(null)`.
#[inline(always)]
fn shown(bytes: &[u8], target: Option<Span>) -> Option<Span>
    requires { IfSome target (IsWithin bytes.now) }
    ensures text { option_map (text_at bytes.now) result ≡ target_of (option_map (text_at bytes.now) target) }
    ensures within { IfSome result (IsWithin bytes.now) }
{
    match target {
        Some(target) => {
            if is_null(text_at(bytes, target)) {
                None
            } else {
                Some(target)
            }
        }
        None => None,
    }
}

// The record of a line with an id.
#[inline(always)]
fn born(bytes: &[u8], object: ObjectId, name: Span, attributes: LineAttributes) -> RefRecord
    requires name { IsWithin bytes.now name }
    requires attributes { AreAttributesWithin bytes.now attributes }
    ensures value { ref_in bytes.now result
        ≡ born (text_at bytes.now name) object.bytes (target_of (attributes_in bytes.now attributes).target) (attributes_in bytes.now attributes).peeled }
    ensures within { IsRecordWithin bytes.now result }
{
    let id = object.bytes;
    match (shown(bytes, attributes.target), attributes.peeled) {
        (None, None) => RefRecord {
            kind: 1,
            object: id,
            tag: NO_ID,
            name,
            target: Span::NONE,
        },
        (None, Some(peeled)) => {
            let peeled = peeled.bytes;
            RefRecord {
                kind: 2,
                object: peeled,
                tag: id,
                name,
                target: Span::NONE,
            }
        }
        (Some(target), None) => RefRecord {
            kind: 3,
            object: id,
            tag: NO_ID,
            name,
            target,
        },
        (Some(target), Some(peeled)) => {
            let peeled = peeled.bytes;
            RefRecord {
                kind: 4,
                object: peeled,
                tag: id,
                name,
                target,
            }
        }
    }
}

// The record of a line without an id.
#[inline(always)]
fn unborn(bytes: &[u8], name: Span, attributes: LineAttributes) -> Result<RefRecord, LineRefused>
    requires name { IsWithin bytes.now name }
    requires attributes { AreAttributesWithin bytes.now attributes }
    ensures value { MatchResult result
        (λ r. never_born (text_at bytes.now name) (attributes_in bytes.now attributes).target (attributes_in bytes.now attributes).peeled ≡ Ok (ref_in bytes.now r))
        (Judges (never_born (text_at bytes.now name) (attributes_in bytes.now attributes).target (attributes_in bytes.now attributes).peeled)) }
    ensures within { IfOk result (IsRecordWithin bytes.now) }
{
    match attributes.target {
        Some(target) => {
            if is_null(text_at(bytes, target)) {
                return Err(LineRefused::Unborn);
            }
            Ok(RefRecord {
                kind: 5,
                object: NO_ID,
                tag: NO_ID,
                name,
                target,
            })
        }
        None => Err(LineRefused::Unborn),
    }
}

#[inline(always)]
fn record_of(bytes: &[u8], line: LineRef) -> Result<RefRecord, LineRefused>
    requires { IsLineWithin bytes.now line }
    ensures value { MatchResult result
        (λ r. line_ref_value bytes.now line ≡ Ok (ref_in bytes.now r)) (Judges (line_ref_value bytes.now line)) }
    ensures within { IfOk result (IsRecordWithin bytes.now) }
{
    match line.object {
        Some(object) => Ok(born(bytes, object, line.name, line.attributes)),
        None => unborn(bytes, line.name, line.attributes),
    }
}

// The record of a line without the white space at its end.
#[inline(always)]
fn trimmed_record(bytes: &[u8], payload: Span) -> Result<RefRecord, LineRefused>
    requires { IsWithin bytes.now payload }
    ensures value { MatchResult result
        (λ r. v2_line (text_at bytes.now payload) ≡ Ok (ref_in bytes.now r)) (Judges (v2_line (text_at bytes.now payload))) }
    ensures within { IfOk result (IsRecordWithin bytes.now) }
{
    match read_line(bytes, payload) {
        Ok(line) => record_of(bytes, line),
        Err(e) => Err(e),
    }
}

// The record of a line, which is malformed if it loses white space.
#[inline(always)]
fn line_record(bytes: &[u8], payload: Span) -> Result<RefRecord, LineRefused>
    requires { IsWithin bytes.now payload }
    ensures value { MatchResult result
        (λ r. listed_v2 (text_at bytes.now payload) ≡ Ok (ref_in bytes.now r)) (Judges (listed_v2 (text_at bytes.now payload))) }
    ensures within { IfOk result (IsRecordWithin bytes.now) }
{
    match trimmed_record(bytes, payload) {
        Ok(record) => {
            if loses_white_space(text_at(bytes, payload)) {
                return Err(LineRefused::Malformed);
            }
            Ok(record)
        }
        Err(e) => Err(e),
    }
}

// Whether a packet is a stop under version 2.
#[inline(always)]
fn is_stop(kind: MessageKind) -> bool
    ensures { result ≡ is_stop V2 kind }
{
    matches!(kind, MessageKind::Flush | MessageKind::Delimiter)
}

// The ref of the line at an offset.
#[inline(always)]
fn next_ref(bytes: &[u8], at: usize) -> Result<NextRef, RefsRefused>
    requires { at ≤ length bytes.now }
    ensures { IsNextRef bytes.now at result }
{
    match next_packet(bytes, at) {
        Ok(NextPacket::Line(payload, next)) => match line_record(bytes, payload) {
            Ok(record) => Ok(NextRef::Ref(record, next)),
            Err(e) => Err(RefsRefused::Line(e)),
        },
        Ok(NextPacket::Mark(kind, next)) => {
            if is_stop(kind) {
                Ok(NextRef::Stop(next))
            } else {
                Err(RefsRefused::Packet(PacketRefused::Unexpected))
            }
        }
        Err(e) => Err(RefsRefused::Packet(e)),
    }
}

/// Reads refs of an `ls-refs` response from an offset on, until the records are full (gitprotocol-v2, "ls-refs"). It allocates
/// nothing.
///
/// An error is at the offset `next`, and the records have the refs before it. The error is `Incomplete` if the response continues
/// after the end of `bytes`. The other records are unchanged.
pub fn read_refs(bytes: &[u8], from: usize, records: &mut [RefRecord]) -> RefsFound
    requires { from ≤ length bytes.now }
    ensures { ReadsRecords bytes.now from records.old result records.new }
{
    let mut at = from;
    for count in 0..records.len() {
        match next_ref(bytes, at) {
            Ok(NextRef::Ref(record, next)) => {
                records[count] = record;
                at = next;
            }
            Ok(NextRef::Stop(next)) => {
                return RefsFound {
                    count,
                    next,
                    end: RefsEnd::Stop,
                };
            }
            Err(e) => {
                return RefsFound {
                    count,
                    next: at,
                    end: RefsEnd::Refused(e),
                };
            }
        }
    }
    RefsFound {
        count: records.len(),
        next: at,
        end: RefsEnd::Full,
    }
}
