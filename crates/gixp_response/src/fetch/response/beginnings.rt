//! Responses of versions 0 and 1 (gitprotocol-pack, "Packfile Negotiation").
ghost use Rattle.std.specs.Prelude.{◌≡◌, ◌⊎◌, MatchResult, OnOk, Some, not, ◌&&◌, ◌||◌};
ghost use Rattle.gixp_packetline.specs.Reading.{refusal_of};
ghost use Rattle.gixp_packetline.specs.declared.protocol.Protocol.TheVariants.{V0, V1};
ghost use Rattle.gixp_response.specs.Beginnings.{expected, is_at_end, is_ready, is_nak, line_item, line_item_of, answer_with, acknowledged, v1_answer};
ghost use Rattle.gixp_response.specs.RepeatedCommons.{AreNoted, without_repeats};
ghost use Rattle.gixp_response.specs.ResponseError.{is_interrupted_answer};
ghost use Rattle.gixp_response.specs.AnswerReading.{Answered, AnswerFails};

use crate::fetch::response::answer::Response;
use crate::fetch::response::error::Error;
use crate::fetch::response::line::{Acknowledgement, read_acknowledgement, read_shallow_update};
use crate::fetch::response::repeats::Repeats;
use crate::fetch::response::sections::text_of;
use gixp_packetline::{ExtendedBufRead, Protocol, read};
use gixp_shallow::ShallowUpdate;
use std::alloc::{AllocError, Global};
use std::io::ErrorKind;

// The meaning of a line before the pack.
#[derive(Clone, Copy)]
pub(crate) enum ResponseLine {
    Acknowledgement(Acknowledgement),
    ShallowUpdate(ShallowUpdate),
}

// The meaning of a line; `None` where it begins the pack.
fn read_response_line(line: &[u8]) -> Option<ResponseLine>
    ensures { line_item_of result ≡ line_item line.now }
{
    if text_of(line).is_none() {
        return None;
    }
    if let Some(found) = read_acknowledgement(line) {
        return Some(ResponseLine::Acknowledgement(found));
    }
    match read_shallow_update(line) {
        Some(found) => Some(ResponseLine::ShallowUpdate(found)),
        None => None,
    }
}

// Reads the shortest beginning that is a response.
pub(crate) fn read_beginning<R: ExtendedBufRead>(
    alloc: Global,
    version: Protocol,
    reader: &mut R,
    expects_pack: bool,
    negotiates: bool,
) -> Result<Response, Error>
    requires { (version ≡ V1) ⊎ (version ≡ V0) }
    ensures answers { MatchResult result
        (Answered (v1_answer version (expected expects_pack negotiates)) version (R.reading reader.old) (R.reading reader.new))
        (AnswerFails (v1_answer version (expected expects_pack negotiates)) R.is_plain (R.reading reader.old) (R.reading reader.new)) }
    ensures held { (R.reading reader.new).held ≡ (R.reading reader.old).held }
    ensures version { (R.reading reader.new).version ≡ version }
    ensures asks { R.asks reader.old (is_interrupted_answer result) reader.new }
{
    reader.reset(version);
    let mut answer = Response::empty(alloc);
    let mut repeats = Repeats::new(alloc);
    let mut received_ready = false;
    let mut follows_stop = false;
    loop {
        match reader.peek_line() {
            Ok(true) => {}
            Ok(false) => {
                if follows_stop {
                    return Ok(finished(answer, repeats));
                }
                follows_stop = true;
                reader.reset(version);
                continue;
            }
            Err(e) => {
                if ends_answer(&e, follows_stop) {
                    return Ok(finished(answer, repeats));
                }
                return Err(Error::from(e));
            }
        }
        let response_line = match read_response_line(reader.line()) {
            Some(response_line) => response_line,
            None => return Ok(finished(answer, repeats).with_pack()),
        };
        let _ = reader.next_line();
        follows_stop = false;
        keep(&mut answer, &mut repeats, response_line)?;
        received_ready = ready_by(response_line, received_ready);
        if ends_by_nak(response_line, expects_pack, negotiates, received_ready) {
            return Ok(finished(answer, repeats));
        }
    }
}

// Whether an error is the end of the stream, and not right after a flush packet.
fn ends_answer(e: &read::Error, follows_stop: bool) -> bool
    ensures { result ≡ (is_at_end (refusal_of e.now) && not follows_stop) }
{
    is_end(e) && !follows_stop
}

// Whether a `ready` came, in this line or before.
fn ready_by(response_line: ResponseLine, received_ready: bool) -> bool
    ensures { result ≡ (is_ready (line_item_of (Some response_line)) || received_ready) }
{
    is_ready(response_line) || received_ready
}

// Whether this line is a `NAK` that ends the response.
fn ends_by_nak(
    response_line: ResponseLine,
    expects_pack: bool,
    negotiates: bool,
    received_ready: bool,
) -> bool
    ensures { result ≡ ((is_nak (line_item_of (Some response_line)) && negotiates) && not (expects_pack && received_ready)) }
{
    is_nak(response_line) && negotiates && !(expects_pack && received_ready)
}

// Whether an error is the end of the stream.
fn is_end(e: &read::Error) -> bool
    ensures { result ≡ is_at_end (refusal_of e.now) }
{
    match e {
        read::Error::Io(ErrorKind::UnexpectedEof) => true,
        _ => false,
    }
}

fn is_ready(response_line: ResponseLine) -> bool
    ensures { result ≡ is_ready (line_item_of (Some response_line)) }
{
    match response_line {
        ResponseLine::Acknowledgement(Acknowledgement::Ready) => true,
        _ => false,
    }
}

fn is_nak(response_line: ResponseLine) -> bool
    ensures { result ≡ is_nak (line_item_of (Some response_line)) }
{
    match response_line {
        ResponseLine::Acknowledgement(Acknowledgement::Nak) => true,
        _ => false,
    }
}

// Adds the meaning of a line, even if it names a commit again.
fn keep(
    answer: &mut Response,
    repeats: &mut Repeats,
    response_line: ResponseLine,
) -> Result<(), AllocError>
    requires { AreNoted answer.old.acknowledgements repeats.old }
    ensures ok { OnOk result (without_repeats answer.new ≡ answer_with (without_repeats answer.old) (line_item_of (Some response_line))) }
    ensures noted { OnOk result (AreNoted answer.new.acknowledgements repeats.new) }
{
    match response_line {
        ResponseLine::ShallowUpdate(found) => answer.push_shallow_update(found),
        ResponseLine::Acknowledgement(found) => keep_acknowledgement(answer, repeats, found),
    }
}

fn keep_acknowledgement(
    answer: &mut Response,
    repeats: &mut Repeats,
    found: Acknowledgement,
) -> Result<(), AllocError>
    requires { AreNoted answer.old.acknowledgements repeats.old }
    ensures ok { OnOk result (without_repeats answer.new ≡ answer_with (without_repeats answer.old) (acknowledged found)) }
    ensures noted { OnOk result (AreNoted answer.new.acknowledgements repeats.new) }
{
    repeats.note(found)?;
    answer.push_acknowledgement(found)
}

// The response with each common commit at its first position only.
fn finished(answer: Response, repeats: Repeats) -> Response
    requires { AreNoted answer.acknowledgements repeats }
    ensures { result ≡ without_repeats answer }
{
    let flags = repeats.into_flags();
    let mut answer = answer;
    answer.keep_flagged(&flags);
    answer
}
