//! The parts of a request. Each line is written from where it is stored, and the line of an id from a few bytes on the stack.
ghost use Rattle.std.specs.Prelude.{◌≡◌, true, None, map};
ghost use Rattle.std.specs.List.{list_all};
ghost use Rattle.gixp_packetline.specs.FrameText.{frame_text, texts_of};
ghost use Rattle.gixp_transport.specs.Message.{fits, line_frame, all_fit, value_frame, value_fits};
ghost use Rattle.gixp_transport.specs.Transport.{Writes, WritesAll};
ghost use Rattle.gixp_requests.specs.Line.{line_text, have_text, all_lines_fit, all_line_frames, all_haves_fit, have_frames, part_values, parts_values};
ghost use Rattle.gixp_requests.specs.Request.{SendsValues};

use crate::fetch::arguments::line::{Line, id_line};
use gixp_capabilities::client::Error;
use gixp_hash::ObjectId;
use gixp_transport::{Message, Transport, fits_line};

/// A part of a request.
#[derive(Clone, Copy)]
pub(crate) enum Part<'a> {
    /// Any messages.
    Messages(&'a [Message<'a>]),
    /// Argument lines.
    Lines(&'a [Line]),
    /// The commits that the client has, each as a line `have <id>`.
    Haves(&'a [ObjectId]),
}

// Whether an argument line fits into a packet line.
fn line_fits(line: &Line) -> bool
    ensures { result ≡ fits (line_text line.now) }
{
    match line {
        Line::Want(id) => fits_line(&id_line(b"want ", id)),
        Line::Text(text) => fits_line(text.as_bytes()),
    }
}

fn messages_fit(messages: &[Message<'_>]) -> bool
    ensures { result ≡ all_fit messages.now }
{
    messages.iter().all(|message| message.fits())
}

fn lines_fit(lines: &[Line]) -> bool
    ensures { result ≡ all_lines_fit lines.now }
{
    lines.iter().all(|line| line_fits(line))
}

fn haves_fit(ids: &[ObjectId]) -> bool
    ensures { result ≡ all_haves_fit ids.now }
{
    ids.iter().all(|id| fits_line(&id_line(b"have ", id)))
}

// Whether each message of a part fits into a packet line.
fn part_fits(part: &Part<'_>) -> bool
    ensures { result ≡ list_all value_fits (part_values part.now) }
{
    match part {
        Part::Messages(messages) => messages_fit(messages),
        Part::Lines(lines) => lines_fit(lines),
        Part::Haves(ids) => haves_fit(ids),
    }
}

fn each_fits(parts: &[Part<'_>]) -> bool
    ensures { result ≡ list_all (λ part. list_all value_fits (part_values part)) parts.now }
{
    parts.iter().all(|part| part_fits(part))
}

// Whether each message of the parts fits into a packet line.
fn parts_fit(parts: &[Part<'_>]) -> bool
    ensures { result ≡ list_all value_fits (parts_values parts.now) }
{
    each_fits(parts)
}

fn write_line<T: Transport>(transport: &mut T, line: &Line) -> Result<(), Error>
    requires { fits (line_text line.now) ≡ true }
    ensures { Writes (T.reading transport.old) (T.reading transport.new) (frame_text (line_frame (line_text line.now))) result }
{
    match line {
        Line::Want(id) => transport.write_text(&id_line(b"want ", id)),
        Line::Text(text) => transport.write_text(text.as_bytes()),
    }
}

fn write_have<T: Transport>(transport: &mut T, id: &ObjectId) -> Result<(), Error>
    ensures { Writes (T.reading transport.old) (T.reading transport.new) (frame_text (line_frame (have_text id.now))) result }
{
    transport.write_text(&id_line(b"have ", id))
}

// Writes argument lines of a request that was begun.
fn write_lines<T: Transport>(transport: &mut T, lines: &[Line]) -> Result<(), Error>
    requires whole { (T.reading transport.old).held.broken ≡ None }
    requires fit { all_lines_fit lines.now ≡ true }
    ensures { WritesAll (T.reading transport.old) (T.reading transport.new) (texts_of (all_line_frames lines.now)) result }
{
    for line in lines {
        write_line(transport, line)?;
    }
    Ok(())
}

// Writes `have` lines of a request that was begun.
fn write_haves<T: Transport>(transport: &mut T, ids: &[ObjectId]) -> Result<(), Error>
    requires whole { (T.reading transport.old).held.broken ≡ None }
    ensures { WritesAll (T.reading transport.old) (T.reading transport.new) (texts_of (have_frames ids.now)) result }
{
    for id in ids {
        write_have(transport, id)?;
    }
    Ok(())
}

// Writes a part of a request that was begun.
fn write_part<T: Transport>(transport: &mut T, part: &Part<'_>) -> Result<(), Error>
    requires whole { (T.reading transport.old).held.broken ≡ None }
    requires fit { list_all value_fits (part_values part.now) ≡ true }
    ensures { WritesAll (T.reading transport.old) (T.reading transport.new) (texts_of (map value_frame (part_values part.now))) result }
{
    match part {
        Part::Messages(messages) => transport.write_all(messages),
        Part::Lines(lines) => write_lines(transport, lines),
        Part::Haves(ids) => write_haves(transport, ids),
    }
}

// Writes the parts of a request that was begun.
fn write_parts<T: Transport>(transport: &mut T, parts: &[Part<'_>]) -> Result<(), Error>
    requires whole { (T.reading transport.old).held.broken ≡ None }
    requires fit { list_all value_fits (parts_values parts.now) ≡ true }
    ensures { WritesAll (T.reading transport.old) (T.reading transport.new) (texts_of (map value_frame (parts_values parts.now))) result }
{
    for part in parts {
        write_part(transport, part)?;
    }
    Ok(())
}

pub(crate) fn send<T: Transport>(transport: &mut T, parts: &[Part<'_>]) -> Result<(), Error>
    ensures { SendsValues (T.reading transport.old) (T.reading transport.new) (parts_values parts.now) result }
{
    if !parts_fit(parts) {
        return Err(Error::LineTooLong);
    }
    transport.begin_request()?;
    write_parts(transport, parts)?;
    transport.end_request()
}
