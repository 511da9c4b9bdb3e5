//! A list of capabilities, look-ups in it, and the features and arguments that it allows.
//!
//! The first line of the payload has names, separated by commas. Each is looked up, and validated as an argument. The second line
//! has the features of the client, `NAME` or `NAME=VALUE`, separated by blanks. The capabilities follow: with `form=line` those
//! after the NUL of a line, with `form=lines` one per line, where a byte 1 separates the lines.
use crate::offers::report_offers;
use crate::report::Report;
use crate::requests::push_feature;
use crate::rows::{Row, Setting, cut_at_byte};
use crate::values;
use bstr::BString;
use gixp_capabilities::{Capabilities, Capability};
use gixp_refs::handshake::refs::from_capabilities;
use gixp_requests::command::Feature;
use std::alloc::{AllocError, Global};

pub(crate) const SETTINGS: &[Setting] = &[("form", &["line", "lines"], 0)];

// The value and the words of a capability, and which of the names are words.
fn report_capability(
    alloc: Global,
    found: &Capability<'_>,
    names: &[BString],
    report: &mut Report,
) -> Result<(), AllocError> {
    match found.value() {
        None => report.word("none"),
        Some(value) => report.quote(value.as_bytes()),
    }
    match found.values(alloc)? {
        None => report.word("-"),
        Some(values) => {
            for value in &values {
                report.quote(value.as_bytes());
            }
        }
    }
    for word in names {
        report.word(match found.supports(word.as_bytes()) {
            None => "-",
            Some(true) => "1",
            Some(false) => "0",
        });
    }
    Ok(())
}

fn report_look_ups(
    alloc: Global,
    found: &Capabilities,
    names: &[BString],
    report: &mut Report,
) -> Result<(), AllocError> {
    for name in names {
        report.word(if found.contains(name.as_bytes()) {
            "y"
        } else {
            "n"
        });
        match found.capability(name.as_bytes()) {
            None => report.word("-"),
            Some(capability) => report_capability(alloc, &capability, names, report)?,
        }
        report.word(" ");
    }
    Ok(())
}

// The symrefs in the capabilities.
fn report_symrefs(
    alloc: Global,
    found: &Capabilities,
    report: &mut Report,
) -> Result<(), AllocError> {
    let symrefs = match from_capabilities(alloc, found) {
        Ok(symrefs) => symrefs,
        Err(e) => {
            values::parse_error(report, &e);
            report.word(" ");
            return Ok(());
        }
    };
    for (name, target) in &symrefs {
        report.quote(name.as_bytes());
        report.word(":");
        match target {
            Some(target) => report.quote(target.as_bytes()),
            None => report.word("-"),
        }
        report.word(" ");
    }
    Ok(())
}

// The texts between separators.
fn texts(alloc: Global, bytes: &[u8], separator: u8) -> Result<Vec<BString>, AllocError> {
    let mut list = Vec::new(alloc);
    for text in bytes.split(|b| *b == separator) {
        list.push(BString::from_slice(alloc, text)?)?;
    }
    Ok(list)
}

// Reads the capabilities. Returns them unless there was an error.
fn read_list(
    alloc: Global,
    has_lines: bool,
    bytes: &[u8],
    report: &mut Report,
) -> Result<Option<Capabilities>, AllocError> {
    let read = if has_lines {
        let lines = texts(alloc, bytes, 1)?;
        Capabilities::from_lines(alloc, &lines).map(|found| (found, None))
    } else {
        Capabilities::from_bytes(alloc, bytes).map(|(found, place)| (found, Some(place)))
    };
    match read {
        Ok((found, place)) => {
            if let Some(place) = place {
                report.number(place as u64);
                report.word(" ");
            }
            Ok(Some(found))
        }
        Err(e) => {
            values::client_error(report, &e);
            Ok(None)
        }
    }
}

fn report_found(
    alloc: Global,
    given: &[Feature],
    found: &Capabilities,
    names: &[BString],
    report: &mut Report,
) -> Result<(), AllocError> {
    values::capability_list(alloc, report, found)?;
    report_look_ups(alloc, found, names, report)?;
    report_symrefs(alloc, found, report)?;
    report_offers(alloc, given, found, names, report)
}

/// The list, each look-up in it, and the offers.
pub(crate) fn report_capabilities(
    alloc: Global,
    row: &Row<'_>,
    report: &mut Report,
) -> Result<(), AllocError> {
    let [form, ..] = row.settings;
    let (names, rest) = cut_at_byte(row.payload, b'\n');
    let (words, bytes) = cut_at_byte(rest, b'\n');
    let names = texts(alloc, names, b',')?;
    let mut given = Vec::new(alloc);
    for word in words.split(|b| *b == b' ') {
        push_feature(alloc, word, &mut given)?;
    }
    match read_list(alloc, form != 0, bytes, report)? {
        Some(found) => report_found(alloc, &given, &found, &names, report),
        None => Ok(()),
    }
}
