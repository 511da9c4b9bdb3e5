//! The printed text of a session. It goes through a buffer, so that little of a long text is in memory.
ghost use Rattle.std.specs.Prelude.{◌≡◌, ◌++◌, ◌≤◌, ◌<◌, [], OnOk, drop, flat_map, length, map, vec_items};
ghost use Rattle.std.specs.Fn.{FnOnceReturnsAtMut};
ghost use Rattle.std.specs.Io.KnownBytes.{Keeps};
ghost use Rattle.gixp_packetline.specs.Frames.{frames_of};
ghost use Rattle.gixp_packetline.specs.FrameText.{message_text};
ghost use Rattle.gixp_packetline.specs.PacketLine.{frame_of};
ghost use Rattle.gixp_planner.specs.Written.{EndsInFlush, HoldsRest, WritesPlan, WritesSome};
ghost use Rattle.gixp_planner.specs.Text.{frame_content, frame_shown, request_shown, requests_shown, mapping_shown, fix_shown, end_shown, ended_of};
ghost use Rattle.gixp_planner.specs.Printed.{text_then, printed_text, mapped_text};

use crate::error::{PlanError, amount_of, flush_result};
use crate::printed::PrintedMap;
use gix_protocol::fetch::refmap::Mapping;
use gix_protocol::refspec::match_group::validate::Fix;
use gixp_packetline::{MessageKind, PacketLine, split_packet_line};
use gixp_refmap::mapping_names::{local_name, remote_name};
use gixp_utils::{append, without_line_end};
use std::alloc::{AllocError, Global};
use std::io;
use std::io::Write;

// A pending text of this length or more is written.
const LONG: usize = 65_536;

// The four digits of a packet line without a payload.
fn mark(kind: MessageKind) -> &'static [u8]
    ensures { result.now ≡ message_text kind }
{
    match kind {
        MessageKind::Flush => b"0000",
        MessageKind::Delimiter => b"0001",
        MessageKind::ResponseEnd => b"0002",
        MessageKind::Text => b"",
    }
}

fn content<'a>(line: PacketLine<'a>) -> &'a [u8]
    ensures { result.now ≡ frame_content (frame_of line.entry) }
{
    match line {
        PacketLine::Data(payload) => without_line_end(payload),
        PacketLine::Special(kind) => mark(kind),
    }
}

fn write_some<W: Write>(writer: &mut W, text: &[u8]) -> Result<usize, PlanError>
    ensures { WritesSome (W.contents writer.old) (W.contents writer.new) text.now result }
{
    amount_of(writer.write(text))
}

fn text_after(text: &[u8], amount: usize) -> &[u8]
    requires { amount ≤ length text.now }
    ensures { result.now ≡ drop amount text.now }
{
    &text[amount..]
}

// Writes the text. Repeats an interrupted write.
fn write_text<W: Write>(writer: &mut W, text: &[u8]) -> Result<(), PlanError>
    ensures { WritesPlan (W.contents writer.old) (W.contents writer.new) text.now result }
{
    let mut rest = text;
    for _ in 0..u64::MAX {
        if rest.is_empty() {
            return Ok(());
        }
        let amount = write_some(writer, rest)?;
        rest = text_after(rest, amount);
    }
    Err(PlanError::new("file", "Io"))
}

// Writes the text, and then flushes the writer by this call.
fn write_then_flush<W: Write, F: FnOnce(&mut W) -> io::Result<()>>(
    writer: &mut W,
    text: &[u8],
    flush: F,
) -> Result<(), PlanError>
    requires { F.IsAlwaysCallable flush }
    ensures { EndsInFlush W.contents (FnOnceReturnsAtMut F.FnOnce flush) text.now writer.old writer.new result }
{
    match write_text(writer, text) {
        Ok(()) => flush_result(flush(writer)),
        Err(e) => Err(e),
    }
}

fn write_whole<W: Write>(writer: &mut W, text: &[u8]) -> Result<(), PlanError>
    ensures { WritesPlan (W.contents writer.old) (W.contents writer.new) text.now result }
{
    write_then_flush(
        writer,
        text,
        |writer: &mut W| -> io::Result<()>
            ensures { Keeps (W.contents writer.old) (W.contents writer.new) }
        { writer.flush() },
    )
}

// Writes the pending text if it is long. Keeps its capacity.
fn write_if_long<W: Write>(writer: &mut W, pending: &mut Vec<u8>) -> Result<(), PlanError>
    ensures text { HoldsRest (W.contents writer.old) (W.contents writer.new) pending.new.items pending.old.items result }
    ensures short { OnOk result (length pending.new.items < LONG) }
{
    if pending.len() < LONG {
        return Ok(());
    }
    write_text(writer, pending)?;
    pending.clear();
    Ok(())
}

#[tactic(auto, using(crate::proofs::PrintLemmas::written_none))]
fn append_pieces<W: Write>(
    writer: &mut W,
    pending: &mut Vec<u8>,
    pieces: &[&[u8]],
) -> Result<(), PlanError>
    ensures text { HoldsRest (W.contents writer.old) (W.contents writer.new) pending.new.items
        (pending.old.items ++ flat_map (λ piece. piece.now) pieces.now) result }
    ensures short { OnOk result (length pending.new.items < LONG) }
{
    match append(pending, pieces) {
        Ok(()) => write_if_long(writer, pending),
        Err(AllocError) => Err(PlanError::memory("file")),
    }
}

fn write_packet_lines<W: Write>(
    writer: &mut W,
    pending: &mut Vec<u8>,
    request: &[u8],
) -> Result<(), PlanError>
    ensures { HoldsRest (W.contents writer.old) (W.contents writer.new) pending.new.items
        (pending.old.items ++ flat_map frame_shown (frames_of request.now).list) result }
{
    let mut rest = request;
    'lines: loop {
        match split_packet_line(rest) {
            Ok(Some((line, after))) => {
                append_pieces(writer, pending, &[b"> ", content(line), b"\n"])?;
                rest = after;
            }
            Ok(None) => return Ok(()),
            Err(_) => return Ok(()),
        }
    }
}

fn write_request<W: Write>(
    alloc: Global,
    writer: &mut W,
    pending: &mut Vec<u8>,
    number: usize,
    request: &[u8],
) -> Result<(), PlanError>
    ensures { HoldsRest (W.contents writer.old) (W.contents writer.new) pending.new.items
        (pending.old.items ++ request_shown number (frames_of request.now).list) result }
{
    let Ok(number) = number.to_string(alloc) else {
        return Err(PlanError::memory("file"));
    };
    append_pieces(writer, pending, &[b"request ", number.as_bytes(), b"\n"])?;
    write_packet_lines(writer, pending, request)
}

// Numbers the requests from 1 on.
fn write_requests<W: Write>(
    alloc: Global,
    writer: &mut W,
    pending: &mut Vec<u8>,
    requests: &[Vec<u8>],
) -> Result<(), PlanError>
    ensures { HoldsRest (W.contents writer.old) (W.contents writer.new) pending.new.items
        (pending.old.items ++ requests_shown (map vec_items requests.now)) result }
{
    for (place, request) in requests.iter().enumerate() {
        write_request(alloc, writer, pending, place + 1, request)?;
    }
    Ok(())
}

/// Appends the line of a mapping.
#[inline(always)]
pub(crate) fn append_mapping(text: &mut Vec<u8>, mapping: &Mapping) -> Result<(), AllocError>
    ensures { OnOk result (text.new.items ≡ text.old.items ++ mapping_shown mapping.now) }
{
    let name = remote_name(&mapping.remote);
    let local = local_name(&mapping.local);
    match mapping.remote.as_id() {
        Some(id) => append(
            text,
            &[b"map ", &id.to_hex(), b" ", name, b" ", local, b"\n"],
        ),
        None => append(text, &[b"map ", b"unborn", b" ", name, b" ", local, b"\n"]),
    }
}

#[inline(always)]
#[tactic(auto, using(crate::proofs::PrintLemmas::written_none))]
fn write_mapping<W: Write>(
    writer: &mut W,
    pending: &mut Vec<u8>,
    mapping: &Mapping,
) -> Result<(), PlanError>
    ensures { HoldsRest (W.contents writer.old) (W.contents writer.new) pending.new.items
        (pending.old.items ++ mapping_shown mapping.now) result }
{
    let Ok(()) = append_mapping(pending, mapping) else {
        return Err(PlanError::memory("file"));
    };
    write_if_long(writer, pending)
}

fn write_mappings<W: Write>(
    writer: &mut W,
    pending: &mut Vec<u8>,
    mappings: &[Mapping],
) -> Result<(), PlanError>
    ensures { HoldsRest (W.contents writer.old) (W.contents writer.new) pending.new.items
        (pending.old.items ++ flat_map mapping_shown mappings.now) result }
{
    for mapping in mappings {
        write_mapping(writer, pending, mapping)?;
    }
    Ok(())
}

// The line of a mapping that was removed.
fn write_fix<W: Write>(writer: &mut W, pending: &mut Vec<u8>, fix: &Fix) -> Result<(), PlanError>
    ensures { HoldsRest (W.contents writer.old) (W.contents writer.new) pending.new.items (pending.old.items ++ fix_shown fix.now) result }
{
    let Fix::MappingWithPartialDestinationRemoved { name, spec } = fix;
    append_pieces(
        writer,
        pending,
        &[b"fix ", name.as_bytes(), b" ", spec.as_bytes(), b"\n"],
    )
}

fn write_fixes<W: Write>(
    writer: &mut W,
    pending: &mut Vec<u8>,
    fixes: &[Fix],
) -> Result<(), PlanError>
    ensures { HoldsRest (W.contents writer.old) (W.contents writer.new) pending.new.items
        (pending.old.items ++ flat_map fix_shown fixes.now) result }
{
    for fix in fixes {
        write_fix(writer, pending, fix)?;
    }
    Ok(())
}

fn write_texts<W: Write>(
    writer: &mut W,
    pending: &mut Vec<u8>,
    texts: &[Vec<u8>],
) -> Result<(), PlanError>
    ensures { HoldsRest (W.contents writer.old) (W.contents writer.new) pending.new.items
        (pending.old.items ++ flat_map vec_items texts.now) result }
{
    for text in texts {
        append_pieces(writer, pending, &[text])?;
    }
    Ok(())
}

// Writes the mappings that aren't text yet.
fn write_left<W: Write>(
    writer: &mut W,
    pending: &mut Vec<u8>,
    printed: &PrintedMap,
) -> Result<(), PlanError>
    ensures { HoldsRest (W.contents writer.old) (W.contents writer.new) pending.new.items
        (pending.old.items ++ flat_map mapping_shown (printed.now.map.mappings.items ++ printed.now.later.items)) result }
{
    write_mappings(writer, pending, &printed.map.mappings)?;
    write_mappings(writer, pending, &printed.later)
}

// Writes these, and then the removed mappings.
fn write_rest<W: Write>(
    writer: &mut W,
    pending: &mut Vec<u8>,
    printed: &PrintedMap,
) -> Result<(), PlanError>
    ensures { HoldsRest (W.contents writer.old) (W.contents writer.new) pending.new.items
        (pending.old.items ++ text_then [] (printed.now.map.mappings.items ++ printed.now.later.items) printed.now.map.fixes.items)
        result }
{
    write_left(writer, pending, printed)?;
    write_fixes(writer, pending, &printed.map.fixes)
}

fn write_map<W: Write>(
    writer: &mut W,
    pending: &mut Vec<u8>,
    printed: &PrintedMap,
) -> Result<(), PlanError>
    ensures { HoldsRest (W.contents writer.old) (W.contents writer.new) pending.new.items
        (pending.old.items ++ printed_text printed.now) result }
{
    write_texts(writer, pending, &printed.texts)?;
    write_rest(writer, pending, printed)
}

fn write_mapped<W: Write>(
    writer: &mut W,
    pending: &mut Vec<u8>,
    mapped: &Option<PrintedMap>,
) -> Result<(), PlanError>
    ensures { HoldsRest (W.contents writer.old) (W.contents writer.new) pending.new.items
        (pending.old.items ++ mapped_text mapped.now) result }
{
    match mapped {
        Some(printed) => write_map(writer, pending, printed),
        None => Ok(()),
    }
}

fn end_text(ended: &Result<bool, PlanError>) -> &'static [u8]
    ensures { result.now ≡ end_shown (ended_of ended.now) }
{
    match ended {
        Ok(true) => b"pack\n",
        Ok(false) => b"nothing\n",
        Err(_) => b"",
    }
}

// Writes what is pending and whether a pack came, and flushes the writer.
#[tactic(auto, using(crate::proofs::PrintLemmas::written_none))]
fn write_end<W: Write>(
    writer: &mut W,
    pending: &mut Vec<u8>,
    ended: &Result<bool, PlanError>,
) -> Result<(), PlanError>
    ensures { WritesPlan (W.contents writer.old) (W.contents writer.new) (pending.old.items ++ end_shown (ended_of ended.now)) result }
{
    match pending.extend_from_slice(end_text(ended)) {
        Ok(()) => write_whole(writer, pending),
        Err(AllocError) => Err(PlanError::memory("file")),
    }
}

#[tactic(auto, using(crate::proofs::PrintLemmas::first_fails, crate::proofs::PrintLemmas::second_rests))]
fn write_steps<W: Write>(
    alloc: Global,
    writer: &mut W,
    pending: &mut Vec<u8>,
    requests: &[Vec<u8>],
    mapped: &Option<PrintedMap>,
) -> Result<(), PlanError>
    ensures { HoldsRest (W.contents writer.old) (W.contents writer.new) pending.new.items
        (pending.old.items ++ (requests_shown (map vec_items requests.now) ++ mapped_text mapped.now)) result }
{
    match write_requests(alloc, writer, pending, requests) {
        Ok(()) => write_mapped(writer, pending, mapped),
        Err(e) => Err(e),
    }
}

// Writes the requests, the mappings, and whether a pack came.
#[tactic(auto, using(crate::proofs::PrintLemmas::course_ends))]
pub(crate) fn write_course<W: Write>(
    alloc: Global,
    writer: &mut W,
    requests: &[Vec<u8>],
    mapped: &Option<PrintedMap>,
    ended: &Result<bool, PlanError>,
) -> Result<(), PlanError>
    ensures { WritesPlan (W.contents writer.old) (W.contents writer.new)
        (requests_shown (map vec_items requests.now) ++ mapped_text mapped.now ++ end_shown (ended_of ended.now)) result }
{
    let mut pending = Vec::new(alloc);
    write_steps(alloc, writer, &mut pending, requests, mapped)?;
    write_end(writer, &mut pending, ended)
}
