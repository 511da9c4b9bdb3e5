//! Requests by a list of calls.
//!
//! `version` is the request's version. `over` says whether the request goes over bodies in memory or a connection. Each
//! line of the bytes is a word of `LINES` and the argument of its call: an id, a number, a text, or nothing. A line
//! `feature NAME` or `feature NAME=VALUE` is a feature of the client. After each call the output has a bit for each
//! condition: whether it holds now. An `x` before the bits says that the call may not be made.
use crate::handshakes::{bodies, connection};
use crate::offers::name_of;
use crate::report::Report;
use crate::rows::{BODIES_CONNECTION, Row, Setting, cut_at_byte, meaning_of, number};
use crate::values::{client_error, version_of};
use bstr::BStr;
use gixp_hash::ObjectId;
use gixp_requests::agent;
use gixp_requests::command::{CommandTable, Feature};
use gixp_requests::fetch::Arguments;
use gixp_transport::Transport;
use std::alloc::{AllocError, Global};

pub(crate) const SETTINGS: &[Setting] = &[("version", &[], 2), ("over", BODIES_CONNECTION, 0)];

#[derive(Clone, Copy)]
enum Line {
    Feature,
    Want,
    Have,
    WantRef,
    Shallow,
    Filter,
    UseIncludeTag,
    AddFeature,
    Deepen,
    DeepenSince,
    DeepenNot,
    DeepenRelative,
    Send { done: bool },
}

const LINES: &[(&str, Line)] = &[
    ("feature", Line::Feature),
    ("want", Line::Want),
    ("have", Line::Have),
    ("want_ref", Line::WantRef),
    ("shallow", Line::Shallow),
    ("filter", Line::Filter),
    ("use_include_tag", Line::UseIncludeTag),
    ("add_feature", Line::AddFeature),
    ("deepen", Line::Deepen),
    ("deepen_since", Line::DeepenSince),
    ("deepen_not", Line::DeepenNot),
    ("deepen_relative", Line::DeepenRelative),
    ("send", Line::Send { done: false }),
    ("send-done", Line::Send { done: true }),
];

/// Adds the feature that a text names, with its value if it has an equals sign.
pub(crate) fn push_feature(
    alloc: Global,
    text: &[u8],
    features: &mut Vec<Feature>,
) -> Result<(), AllocError> {
    let (name, value) = cut_at_byte(text, b'=');
    let Some(name) = name_of(name) else {
        return Ok(());
    };
    let value = if text.contains(&b'=') {
        let text = str::from_utf8(value).unwrap_or("?");
        Some(String::from_str(alloc, text)?)
    } else {
        None
    };
    features.push((name, value))?;
    Ok(())
}

// Adds the features that the payload names.
fn push_named(alloc: Global, script: &[u8], features: &mut Vec<Feature>) -> Result<(), AllocError> {
    for line in script.split(|b| *b == b'\n') {
        let (word, text) = cut_at_byte(line, b' ');
        if let Some(Line::Feature) = meaning_of(LINES, word) {
            push_feature(alloc, text, features)?;
        }
    }
    Ok(())
}

/// The feature for an agent.
pub(crate) fn report_agent(
    alloc: Global,
    row: &Row<'_>,
    report: &mut Report,
) -> Result<(), AllocError> {
    let name = str::from_utf8(row.payload).unwrap_or("?");
    report.quote(agent(alloc, name)?.as_bytes());
    Ok(())
}

// The calls that are allowed now, and the state of the arguments, as bits.
fn report_state(asked: &Arguments, report: &mut Report) {
    for can in [
        asked.can_use_filter(),
        asked.can_use_shallow(),
        asked.can_use_deepen(),
        asked.can_use_deepen_since(),
        asked.can_use_deepen_not(),
        asked.can_use_deepen_relative(),
        asked.can_use_ref_in_want(),
        asked.can_use_include_tag(),
        asked.may_add_feature(),
        asked.is_stateless(false),
        asked.is_stateless(true),
        asked.is_empty(),
        asked.has_haves(),
    ] {
        report.word(if can { "1" } else { "0" });
    }
    report.word(" ");
}

// Makes a call that needs a capability, except those for depth. Returns false if it isn't allowed.
fn add(alloc: Global, asked: &mut Arguments, line: Line, rest: &[u8]) -> Result<bool, AllocError> {
    let text = str::from_utf8(rest).unwrap_or("?");
    let id = ObjectId::from_hex(rest).unwrap_or(ObjectId::null());
    let added = match line {
        Line::Want => asked.want(&id),
        Line::Have => asked.have(&id),
        Line::WantRef => asked.want_ref(BStr::new(rest)),
        Line::Shallow if asked.can_use_shallow() => asked.shallow(&id),
        Line::Filter if asked.can_use_filter() => asked.filter(text),
        Line::UseIncludeTag if asked.can_use_include_tag() => asked.use_include_tag(),
        Line::AddFeature if asked.may_add_feature() => asked.add_feature(text),
        _ => return deepen(asked, line, rest),
    };
    added?;
    Ok(true)
}

// Makes a call for depth. Returns false if it isn't allowed.
fn deepen(asked: &mut Arguments, line: Line, rest: &[u8]) -> Result<bool, AllocError> {
    let added = match line {
        Line::Deepen if asked.can_use_deepen() => {
            let depth = number(rest).unwrap_or(0);
            asked.deepen(usize::try_from(depth).unwrap_or(0))
        }
        Line::DeepenSince if asked.can_use_deepen_since() => {
            let text = str::from_utf8(rest).unwrap_or("?");
            asked.deepen_since(text.parse::<i64>().unwrap_or(0))
        }
        Line::DeepenNot if asked.can_use_deepen_not() => asked.deepen_not(BStr::new(rest)),
        Line::DeepenRelative if asked.can_use_deepen_relative() => asked.deepen_relative(),
        _ => return Ok(false),
    };
    added?;
    Ok(true)
}

// Sends a request. Returns false if there is nothing to send.
fn send<T: Transport>(
    asked: &mut Arguments,
    transport: &mut T,
    done: bool,
    report: &mut Report,
) -> Result<bool, AllocError> {
    if !done && !asked.has_haves() {
        return Ok(false);
    }
    match asked.send(transport, done) {
        Ok(()) => report.word("sent "),
        Err(e) => {
            client_error(report, &e);
            report.word(" ");
        }
    }
    Ok(true)
}

fn report_calls<T: Transport>(
    alloc: Global,
    script: &[u8],
    asked: &mut Arguments,
    transport: &mut T,
    report: &mut Report,
) -> Result<(), AllocError> {
    report_state(asked, report);
    for line in script.split(|b| *b == b'\n') {
        let (word, rest) = cut_at_byte(line, b' ');
        let was_possible = match meaning_of(LINES, word) {
            Some(Line::Feature) => continue,
            Some(Line::Send { done }) => send(asked, transport, done, report)?,
            Some(line) => add(alloc, asked, line, rest)?,
            None => {
                report.is_unknown |= !line.is_empty();
                continue;
            }
        };
        if !was_possible {
            report.word("x");
        }
        report_state(asked, report);
    }
    Ok(())
}

// The arguments at first, with the features that the test vector names.
fn first_asked(alloc: Global, row: &Row<'_>) -> Result<Arguments, AllocError> {
    let [version, ..] = row.settings;
    let mut features: Vec<Feature> = Vec::new(alloc);
    push_named(alloc, row.payload, &mut features)?;
    Arguments::new(alloc, &CommandTable::git(), version_of(version), features)
}

// The result of each call over bodies in memory, and the requests sent.
fn report_over_bodies(
    alloc: Global,
    row: &Row<'_>,
    asked: &mut Arguments,
    report: &mut Report,
) -> Result<(), AllocError> {
    let mut transport = bodies(alloc, Vec::new(alloc))?;
    report_calls(alloc, row.payload, asked, &mut transport, report)?;
    for request in transport.sent() {
        report.quote(request);
        report.word(" ");
    }
    Ok(())
}

// The result of each call over a connection, and the bytes sent.
fn report_over_connection(
    alloc: Global,
    row: &Row<'_>,
    asked: &mut Arguments,
    report: &mut Report,
) -> Result<(), AllocError> {
    let [version, ..] = row.settings;
    let device = row.whole_device(b"");
    let mut transport = connection(alloc, device, version, None)?;
    report_calls(alloc, row.payload, asked, &mut transport, report)?;
    report.quote(&transport.writer().bytes);
    Ok(())
}

/// The result of each call, and the bytes sent.
pub(crate) fn report_requests(
    alloc: Global,
    row: &Row<'_>,
    report: &mut Report,
) -> Result<(), AllocError> {
    let [_, over, ..] = row.settings;
    let mut asked = first_asked(alloc, row)?;
    if over == 0 {
        report_over_bodies(alloc, row, &mut asked, report)
    } else {
        report_over_connection(alloc, row, &mut asked, report)
    }
}
