//! The messages of a fetch request.
ghost use Rattle.std.specs.Prelude.{◌≡◌, ◌<◌, false, [], ◌∷◌, ◌++◌, length, codes, map, OnOk, IfOk};
ghost use Rattle.bstr.specs.Owned.{bstring_bytes};
ghost use Rattle.gixp_transport.specs.Message.{text, flush, delimiter, message_value, command_lines, command_values};
ghost use Rattle.gixp_requests.specs.Feature.{feature_value, feature_values};
ghost use Rattle.gixp_requests.specs.Command.{texts};
ghost use Rattle.gixp_requests.specs.Line.{line_text, have_text};
ghost use Rattle.gixp_requests.specs.Request.{SendsValues, sent_features, done_lines, done_value, fetch_arguments, flush_after, upload_values};

use crate::command::Feature;
use crate::fetch::arguments::line::{Line, exchange, first_want};
use crate::fetch::arguments::part::{Part, send};
use crate::fetch::arguments::text::push_feature;
use bstr::BString;
use gixp_capabilities::client::Error;
use gixp_hash::ObjectId;
use gixp_transport::{Message, Transport};
use std::alloc::{AllocError, Global};

// Appends the line of a feature if it has a value.
fn push_sent(alloc: Global, lines: &mut Vec<BString>, feature: &Feature) -> Result<(), AllocError>
    ensures { OnOk result (texts lines.new ≡ texts lines.old ++ sent_features (feature_value feature.now ∷ [])) }
{
    if feature.1.is_some() {
        let mut line = Vec::new(alloc);
        push_feature(&mut line, feature)?;
        lines.push(BString::new(line))?;
    }
    Ok(())
}

// The lines of the features that have a value; others aren't sent under version 2.
pub(crate) fn sent_features(alloc: Global, features: &[Feature]) -> Result<Vec<BString>, AllocError>
    ensures { IfOk result (λ lines. texts lines ≡ sent_features (feature_values features.now)) }
{
    let mut lines = Vec::new(alloc);
    for feature in features {
        push_sent(alloc, &mut lines, feature)?;
    }
    Ok(lines)
}

fn push<'a>(messages: &mut Vec<Message<'a>>, message: Message<'a>) -> Result<(), AllocError>
    ensures { OnOk result (map message_value messages.new.items ≡ map message_value messages.old.items
        ++ message_value message.entry ∷ []) }
{
    messages.push(message)?;
    Ok(())
}

fn push_lines<'a>(messages: &mut Vec<Message<'a>>, lines: &'a [BString]) -> Result<(), AllocError>
    ensures { OnOk result (map message_value messages.new.items ≡ map message_value messages.old.items
        ++ map text (map bstring_bytes lines.now)) }
{
    for line in lines {
        push(messages, Message::Line(line.as_bytes()))?;
    }
    Ok(())
}

// The messages before the arguments of a `fetch` of version 2.
fn command_messages<'a>(
    alloc: Global,
    features: &'a [BString],
) -> Result<Vec<Message<'a>>, AllocError>
    ensures { IfOk result (λ messages. map message_value messages.items
        ≡ map text (command_lines (codes "fetch") (map bstring_bytes features.now)) ++ delimiter ∷ []) }
{
    let mut messages = Vec::with_capacity(alloc, features.len().saturating_add(2))?;
    push(&mut messages, Message::Line(b"command=fetch"))?;
    push_lines(&mut messages, features)?;
    push(&mut messages, Message::Delimiter)?;
    Ok(messages)
}

// The messages after the haves: `done`, if requested, and a flush packet.
fn command_end(done: bool) -> &'static [Message<'static>]
    ensures { map message_value result.now ≡ map text (done_lines done) ++ flush ∷ [] }
{
    if done {
        return &[Message::Line(b"done"), Message::Flush];
    }
    &[Message::Flush]
}

// Sends a `fetch` of version 2: the messages before its arguments, the arguments, the haves, and its end.
fn send_arguments<'a, T: Transport>(
    transport: &mut T,
    front: &'a [Message<'a>],
    arguments: &'a [Line],
    haves: &'a [ObjectId],
    done: bool,
) -> Result<(), Error>
    ensures { SendsValues (T.reading transport.old) (T.reading transport.new)
        (map message_value front.now ++ (map text (map line_text arguments.now)
        ++ (map text (map have_text haves.now) ++ (map text (done_lines done) ++ flush ∷ [])))) result }
{
    send(
        transport,
        &[
            Part::Messages(front),
            Part::Lines(arguments),
            Part::Haves(haves),
            Part::Messages(command_end(done)),
        ],
    )
}

// Sends a `fetch` of version 2.
pub(crate) fn send_command<T: Transport>(
    transport: &mut T,
    alloc: Global,
    features: &[BString],
    lines: &[Line],
    haves: &[ObjectId],
    done: bool,
) -> Result<(), Error>
    requires { done ≡ false → 0 < length haves.now }
    ensures { SendsValues (T.reading transport.old) (T.reading transport.new)
        (command_values (codes "fetch") (map bstring_bytes features.now)
        (fetch_arguments (map line_text lines.now) (map have_text haves.now) done)) result }
{
    let messages = command_messages(alloc, features)?;
    send_arguments(transport, &messages, lines, haves, done)
}

// A flush packet, if there are lines.
fn flush_after(lines: &[Line]) -> &'static [Message<'static>]
    ensures { map message_value result.now ≡ flush_after (map line_text lines.now) }
{
    if lines.is_empty() {
        return &[];
    }
    &[Message::Flush]
}

// The last message of a request of version 0 or 1.
fn upload_end(done: bool) -> &'static [Message<'static>]
    ensures { map message_value result.now ≡ done_value done ∷ [] }
{
    if done {
        return &[Message::Line(b"done")];
    }
    &[Message::Flush]
}

// Sends a request of version 0 or 1. During the call the first want and the first line are exchanged.
pub(crate) fn send_upload<T: Transport>(
    transport: &mut T,
    lines: &mut [Line],
    haves: &[ObjectId],
    done: bool,
) -> Result<(), Error>
    ensures sends { SendsValues (T.reading transport.old) (T.reading transport.new)
        (upload_values (map line_text lines.old) (map have_text haves.now) done) result }
    ensures same { lines.new ≡ lines.old }
{
    let place = first_want(lines);
    let flush = flush_after(lines);
    exchange(lines, place);
    let sent = send(
        transport,
        &[
            Part::Lines(lines),
            Part::Messages(flush),
            Part::Haves(haves),
            Part::Messages(upload_end(done)),
        ],
    );
    exchange(lines, place);
    sent
}
