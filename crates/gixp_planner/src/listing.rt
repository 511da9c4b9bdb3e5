//! The refs of a recorded `ls-refs` answer, a line each.
ghost use Rattle.std.specs.Prelude.{◌≡◌, OnOk, IfErr, IfSome, MatchResult};
ghost use Rattle.std.specs.Io.KnownBytes.{Appends, Keeps};
ghost use Rattle.std.specs.IoError.{error_kind};
ghost use Rattle.gixp_refs.specs.Refs.{stream_refs};
ghost use Rattle.gixp_refs.specs.ParseError.{parse_refusal};
ghost use Rattle.gixp_planner.specs.declared.listing.ListError.TheVariants.{Io};
ghost use Rattle.gixp_planner.specs.ListErrorName.{error_name, list_error_name};
ghost use Rattle.gixp_planner.specs.ListedRefs.{Prints, PrintsLine, PrintsNext, PrintsAhead, RefusesAhead, ListsAhead, RefusesLines, RefusesList, IsParse};

mod ref_lines;

use crate::listing::ref_lines::print_ref;
use gixp_packetline::{ExtendedBufRead, LineReader};
use gixp_refs::handshake::refs::{parse, parse_v2, written_text};
use gixp_utils::append;
use std::alloc::{AllocError, Global};
use std::io;
use std::io::{ErrorKind, Read, Write};
use thiserror::Error as DeriveError;

/// Why refs aren't listed.
#[derive(Debug, Drop, DeriveError)]
pub enum ListError {
    /// The answer was refused, or an allocation failed. Nothing was written.
    #[error("{0}")]
    Parse(parse::Error),
    /// A write failed with this kind. Some of the lines may be written.
    #[error("Io")]
    Io(ErrorKind),
}

impl ListError {
    /// The name of the variant; for `Parse` the name of the error in it.
    pub fn variant(&self) -> &'static str
        ensures { result.now ≡ list_error_name self.now }
    {
        match self {
            ListError::Parse(e) => variant_of(e),
            ListError::Io(_) => "Io",
        }
    }
}

fn variant_of(error: &parse::Error) -> &'static str
    ensures { result.now ≡ error_name (parse_refusal error.now) }
{
    match error {
        parse::Error::Io(_) => "Io",
        parse::Error::DecodePacketline(_) => "DecodePacketline",
        parse::Error::Id(_) => "Id",
        parse::Error::MalformedSymref { .. } => "MalformedSymref",
        parse::Error::MalformedV1RefLine(_) => "MalformedV1RefLine",
        parse::Error::MalformedV2RefLine(_) => "MalformedV2RefLine",
        parse::Error::UnknownAttribute { .. } => "UnknownAttribute",
        parse::Error::InvariantViolation { .. } => "InvariantViolation",
        parse::Error::UploadPack { .. } => "UploadPack",
        parse::Error::Reader(_) => "Reader",
        parse::Error::Memory => "Memory",
    }
}

// Appends the printed line of a ref.
#[inline(never)]
fn print_found(alloc: Global, line: &[u8], text: &mut Vec<u8>) -> Result<(), parse::Error>
    ensures { PrintsLine line.now text.old.items text.new.items result }
{
    let found = match parse_v2(alloc, line) {
        Ok(found) => found,
        Err(e) => return Err(e),
    };
    match print_ref(text, found) {
        Ok(()) => Ok(()),
        Err(AllocError) => Err(parse::Error::Memory),
    }
}

// Appends the printed line. Mostly it is the line as it was received, and then its ids aren't parsed.
#[inline(always)]
fn print_line(alloc: Global, line: &[u8], text: &mut Vec<u8>) -> Result<(), parse::Error>
    ensures { PrintsLine line.now text.old.items text.new.items result }
{
    match written_text(line) {
        Some(written) => match append(text, &[written, b"\n"]) {
            Ok(()) => Ok(()),
            Err(AllocError) => Err(parse::Error::Memory),
        },
        None => print_found(alloc, line, text),
    }
}

// Appends the line of the next ref. Returns false at the flush packet.
#[inline(always)]
fn print_next<R: ExtendedBufRead>(
    alloc: Global,
    lines: &mut R,
    text: &mut Vec<u8>,
) -> Result<bool, parse::Error>
    ensures { PrintsNext R.is_plain (R.reading lines.old) (R.reading lines.new) text.old.items text.new.items result }
{
    match lines.next_line() {
        Ok(true) => {}
        Ok(false) => return Ok(false),
        Err(e) => return Err(parse::Error::from(e)),
    }
    match print_line(alloc, lines.line(), text) {
        Ok(()) => Ok(true),
        Err(e) => Err(e),
    }
}

// The lines of the remaining refs. Each ref is dropped after its line, which is a third shorter, is appended.
fn print_refs<R: ExtendedBufRead>(alloc: Global, lines: &mut R) -> Result<Vec<u8>, parse::Error>
    ensures { MatchResult result
        (λ text. PrintsAhead (R.reading lines.old) (R.reading lines.new) text.items)
        (RefusesAhead R.is_plain (R.reading lines.old) (R.reading lines.new)) }
{
    let mut text = Vec::new(alloc);
    while print_next(alloc, lines, &mut text)? {}
    Ok(text)
}

// Writes the text and flushes the writer.
fn write_text<W: Write>(writer: &mut W, text: &[u8]) -> io::Result<()>
    ensures { OnOk result (Appends (W.contents writer.old) (W.contents writer.new) text.now) }
{
    writer.write_all(text)?;
    writer.flush()
}

// The error of a failed write or flush.
fn write_failed(e: io::Error) -> ListError
    ensures { result ≡ Io (error_kind e) }
{
    ListError::Io(e.kind())
}

/// Writes a line for each ref that a reader of lines yields up to the flush packet (gitprotocol-v2, "ls-refs"), and flushes the
/// writer. The reader is at the flush packet then.
///
/// # Errors
///
/// As [`list_refs`]. After an I/O error the reader has counted a failure, or its stream ended with one. After `Parse` the reader is
/// at the line that was refused, after `Io` at the flush packet.
pub fn list_lines<R: ExtendedBufRead, W: Write>(
    alloc: Global,
    lines: &mut R,
    writer: &mut W,
) -> Result<(), ListError>
    ensures listed { OnOk result (ListsAhead (R.reading lines.old) (R.reading lines.new) (W.contents writer.old) (W.contents writer.new)) }
    ensures refused { IfErr result (RefusesLines R.is_plain (R.reading lines.old) (R.reading lines.new)) }
    ensures nothing { IfErr result (λ e. IsParse e → Keeps (W.contents writer.old) (W.contents writer.new)) }
{
    let text = match print_refs(alloc, lines) {
        Ok(text) => text,
        Err(e) => return Err(ListError::Parse(e)),
    };
    match write_text(writer, text.as_slice()) {
        Ok(()) => Ok(()),
        Err(e) => Err(write_failed(e)),
    }
}

/// Reads a version 2 `ls-refs` answer up to its flush packet, and writes a line for each of its refs
/// (gitprotocol-v2, "ls-refs"). What follows the flush packet is ignored.
///
/// All refs are read before the first byte is written. Their lines are then written in one piece, and
/// the writer is flushed. Less than 65,520 bytes after the flush packet may be read from the reader and are dropped.
///
/// # Errors
///
/// `Parse` with the first error of the answer, for a failed read, or on an allocation failure: nothing is written then.
/// `Io` where a write failed, for an answer without an error.
pub fn list_refs<R: Read, W: Write>(
    alloc: Global,
    reader: &mut R,
    writer: &mut W,
) -> Result<(), ListError>
    ensures ok { OnOk result (IfSome (R.remaining reader.old) (λ bytes.
        Prints (W.contents writer.old) (W.contents writer.new) (stream_refs bytes))) }
    ensures refused { IfErr result (RefusesList (R.remaining reader.old)) }
    ensures nothing { IfErr result (λ e. IsParse e → Keeps (W.contents writer.old) (W.contents writer.new)) }
{
    match LineReader::new(alloc, reader) {
        Ok(mut lines) => list_lines(alloc, &mut lines, writer),
        Err(AllocError) => Err(ListError::Parse(parse::Error::Memory)),
    }
}
