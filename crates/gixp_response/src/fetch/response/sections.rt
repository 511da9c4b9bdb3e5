//! Responses of version 2 (gitprotocol-v2, "fetch").
ghost use Rattle.std.specs.Prelude.{◌≡◌, MatchOption, MatchResult, false, true};
ghost use Rattle.std.specs.Str.{is_utf8};
ghost use Rattle.gixp_packetline.specs.declared.protocol.Protocol.TheVariants.{V2};
ghost use Rattle.gixp_response.specs.ResponseError.{AnswersResponse, IsAnswerRefusal, is_interrupted_answer, unknown_header, unknown_line};
ghost use Rattle.gixp_response.specs.Sections.{header_of, item_of, or_refused, is_flush, read_header, read_item, v2_answer};
ghost use Rattle.gixp_response.specs.AnswerReading.{Adds, Answered, AnswerFails};
ghost use Rattle.gixp_response.specs.declared.fetch.response.sections.Header.{Header};
ghost use Rattle.gixp_response.specs.declared.fetch.response.sections.Section.TheVariants.{Acknowledgments, ShallowInfo, WantedRefs};

use crate::fetch::response::answer::Response;
use crate::fetch::response::error::Error;
use crate::fetch::response::line::{Acknowledgement, WantedRef, shallow_update_from_line};
use bstr::ByteSlice;
use gixp_packetline::{ExtendedBufRead, MessageKind, Protocol, read};
use std::alloc::Global;
use std::io::ErrorKind;

// The kinds of sections.
#[derive(Clone, Copy)]
pub(crate) enum Section {
    Acknowledgments,
    ShallowInfo,
    WantedRefs,
}

// A header: it begins a section or the pack.
#[derive(Clone, Copy)]
pub(crate) enum Header {
    Of(Section),
    Packfile,
}

fn header_of(text: &[u8]) -> Option<Header>
    ensures { result ≡ header_of text.now }
{
    if text == b"acknowledgments".as_slice() {
        Some(Header::Of(Section::Acknowledgments))
    } else if text == b"shallow-info".as_slice() {
        Some(Header::Of(Section::ShallowInfo))
    } else if text == b"wanted-refs".as_slice() {
        Some(Header::Of(Section::WantedRefs))
    } else if text == b"packfile".as_slice() {
        Some(Header::Packfile)
    } else {
        None
    }
}

pub(crate) fn text_of(line: &[u8]) -> Option<&str>
    ensures { MatchOption result (is_utf8 line.now ≡ false) (λ text. (text.now ≡ line.now) × (is_utf8 line.now ≡ true)) }
{
    match str::from_utf8(line) {
        Ok(text) => Some(text),
        Err(_) => None,
    }
}

fn unknown_header(alloc: Global, header: &str) -> Error
    ensures { IsAnswerRefusal result (unknown_header header.now) }
{
    match String::from_str(alloc, header) {
        Ok(header) => Error::UnknownSectionHeader { header },
        Err(_) => Error::Memory,
    }
}

fn read_header(alloc: Global, line: &[u8]) -> Result<Header, Error>
    ensures { AnswersResponse (λ (h : Header). h) (read_header line.now) result }
{
    let text = match text_of(line) {
        Some(text) => text,
        None => return Err(Error::Reader(read::Error::NotUtf8)),
    };
    match header_of(line.trim_end()) {
        Some(header) => Ok(header),
        None => Err(unknown_header(alloc, text)),
    }
}

fn add_acknowledgement(alloc: Global, line: &str, answer: &mut Response) -> Result<(), Error>
    ensures { Adds (or_refused (unknown_line line.now) (item_of Acknowledgments line.now)) answer.old answer.new result }
{
    match Acknowledgement::from_line(alloc, line) {
        Ok(found) => match answer.push_acknowledgement(found) {
            Ok(()) => Ok(()),
            Err(_) => Err(Error::Memory),
        },
        Err(e) => Err(e),
    }
}

fn add_shallow_update(alloc: Global, line: &str, answer: &mut Response) -> Result<(), Error>
    ensures { Adds (or_refused (unknown_line line.now) (item_of ShallowInfo line.now)) answer.old answer.new result }
{
    let found = shallow_update_from_line(alloc, line)?;
    answer.push_shallow_update(found)?;
    Ok(())
}

fn add_wanted_ref(alloc: Global, line: &str, answer: &mut Response) -> Result<(), Error>
    ensures { Adds (or_refused (unknown_line line.now) (item_of WantedRefs line.now)) answer.old answer.new result }
{
    let found = WantedRef::from_line(alloc, line)?;
    answer.push_wanted_ref(found)?;
    Ok(())
}

// Reads a line of a section, and adds its item to the response.
fn add_item(
    alloc: Global,
    section: Section,
    line: &[u8],
    answer: &mut Response,
) -> Result<(), Error>
    ensures { Adds (read_item section line.now) answer.old answer.new result }
{
    let text = match text_of(line) {
        Some(text) => text,
        None => return Err(Error::Reader(read::Error::NotUtf8)),
    };
    match section {
        Section::Acknowledgments => add_acknowledgement(alloc, text, answer),
        Section::ShallowInfo => add_shallow_update(alloc, text, answer),
        Section::WantedRefs => add_wanted_ref(alloc, text, answer),
    }
}

// Reads a response of version 2.
pub(crate) fn read_sections<R: ExtendedBufRead>(
    alloc: Global,
    reader: &mut R,
) -> Result<Response, Error>
    ensures answers { MatchResult result
        (Answered v2_answer V2 (R.reading reader.old) (R.reading reader.new))
        (AnswerFails v2_answer R.is_plain (R.reading reader.old) (R.reading reader.new)) }
    ensures held { (R.reading reader.new).held ≡ (R.reading reader.old).held }
    ensures version { (R.reading reader.new).version ≡ V2 }
    ensures asks { R.asks reader.old (is_interrupted_answer result) reader.new }
{
    reader.reset(Protocol::V2);
    let mut answer = Response::empty(alloc);
    let mut at = None;
    loop {
        match (reader.next_line()?, at) {
            (true, None) => match read_header(alloc, reader.line())? {
                Header::Of(section) => at = Some(section),
                Header::Packfile => return Ok(answer.with_pack()),
            },
            (true, Some(section)) => add_item(alloc, section, reader.line(), &mut answer)?,
            (false, None) => return Err(Error::Io(ErrorKind::UnexpectedEof)),
            (false, Some(_)) => {
                if is_flush(reader.stopped_at()) {
                    return Ok(answer);
                }
                reader.reset(Protocol::V2);
                at = None;
            }
        }
    }
}

fn is_flush(stopped: Option<MessageKind>) -> bool
    ensures { result ≡ is_flush stopped }
{
    match stopped {
        Some(MessageKind::Flush) => true,
        _ => false,
    }
}
