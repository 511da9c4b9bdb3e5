//! A ref map, and the prefixes in the request for refs.
//!
//! With `prefixes=yes` the words of the first line are prefixes and not refspecs. With `tags=yes` the refspec of all tags is added
//! for this fetch. With `filters=yes` the server leaves out the refs that begin with none of the prefixes. The payload is a line of
//! refspecs, separated by blanks, a line of those for this fetch only, a line of capabilities, and an `ls-refs` response.
use crate::map_values::{init_error, report_map};
use crate::report::Report;
use crate::rows::{NO_YES, Row, Setting, cut_at, cut_at_byte};
use crate::values::{client_error, parse_error};
use bstr::{BStr, BString};
use gixp_capabilities::Capabilities;
use gixp_packetline::LineReader;
use gixp_refmap::RefMap;
use gixp_refmap::fetch::Tags;
use gixp_refmap::ls_refs::RefPrefixes;
use gixp_refmap::refmap::init::Context;
use gixp_refs::handshake::Ref;
use gixp_refs::handshake::refs::from_v2_refs;
use gixp_refspec::RefSpec;
use gixp_refspec::parse::{Operation, parse};
use std::alloc::{AllocError, Global};

pub(crate) const SETTINGS: &[Setting] = &[
    ("prefixes", NO_YES, 0),
    ("tags", NO_YES, 0),
    ("filters", NO_YES, 0),
];

// The refspecs of a line. Returns nothing if one is invalid.
fn specs_of(
    alloc: Global,
    line: &[u8],
    report: &mut Report,
) -> Result<Option<Vec<RefSpec>>, AllocError> {
    let mut specs = Vec::new(alloc);
    for word in line.split(|b| *b == b' ') {
        if word.is_empty() {
            continue;
        }
        match parse(BStr::new(word), Operation::Fetch) {
            Ok(spec) => specs.push(spec.to_owned(alloc)?)?,
            Err(e) => {
                report.debug(&e);
                return Ok(None);
            }
        }
    }
    Ok(Some(specs))
}

/// The refspecs of two lines. Returns nothing if one is invalid.
pub(crate) fn context_of(
    alloc: Global,
    explicit: &[u8],
    extra: &[u8],
    report: &mut Report,
) -> Result<Option<Context>, AllocError> {
    let Some(fetch_refspecs) = specs_of(alloc, explicit, report)? else {
        return Ok(None);
    };
    let Some(extra_refspecs) = specs_of(alloc, extra, report)? else {
        return Ok(None);
    };
    Ok(Some(Context {
        fetch_refspecs,
        extra_refspecs,
    }))
}

// The argument lines with the prefixes.
fn report_prefixes(report: &mut Report, lines: &[BString]) {
    report.word("prefixes ");
    for line in lines {
        report.quote(line.as_bytes());
    }
    report.word(" ");
}

// Adds the words of a line as prefixes.
fn extend_prefixes(alloc: Global, line: &[u8], report: &mut Report) -> Result<(), AllocError> {
    let mut words = Vec::new(alloc);
    for word in line.split(|b| *b == b' ') {
        words.push(BString::from_slice(alloc, word)?)?;
    }
    let mut prefixes = RefPrefixes::new(alloc);
    prefixes.extend(words)?;
    report_prefixes(report, &prefixes.into_args(alloc)?);
    Ok(())
}

// Whether one of the argument lines is a prefix of the name.
fn is_asked_for(lines: &[BString], name: &[u8]) -> bool {
    let word = b"ref-prefix ".len() as u64;
    lines
        .iter()
        .any(|line| name.starts_with(cut_at(line.as_bytes(), word).1))
}

// The refs that have a prefix in the argument lines.
fn asked_for(alloc: Global, lines: &[BString], refs: Vec<Ref>) -> Result<Vec<Ref>, AllocError> {
    let mut kept = Vec::new(alloc);
    for found in refs {
        if is_asked_for(lines, found.unpack().0.as_bytes()) {
            kept.push(found)?;
        }
    }
    Ok(kept)
}

// The refs of a response. Returns nothing if it has an error.
fn refs_of(
    alloc: Global,
    answer: &[u8],
    report: &mut Report,
) -> Result<Option<Vec<Ref>>, AllocError> {
    let mut bytes = answer;
    let mut reader = LineReader::new(alloc, &mut bytes)?;
    match from_v2_refs(alloc, &mut reader) {
        Ok(refs) => Ok(Some(refs)),
        Err(e) => {
            parse_error(report, &e);
            Ok(None)
        }
    }
}

// The capabilities of a line. Returns nothing if it has an error.
fn capabilities_of(
    alloc: Global,
    line: &[u8],
    report: &mut Report,
) -> Result<Option<Capabilities>, AllocError> {
    let mut text = Vec::new(alloc);
    text.push(0)?;
    text.extend_from_slice(line)?;
    match Capabilities::from_bytes(alloc, &text) {
        Ok((found, _)) => Ok(Some(found)),
        Err(e) => {
            client_error(report, &e);
            Ok(None)
        }
    }
}

// The ref map of a response.
fn report_maps(
    alloc: Global,
    line: &[u8],
    answer: &[u8],
    lines: Option<&[BString]>,
    context: Context,
    report: &mut Report,
) -> Result<(), AllocError> {
    let Some(capabilities) = capabilities_of(alloc, line, report)? else {
        return Ok(());
    };
    let Some(mut refs) = refs_of(alloc, answer, report)? else {
        return Ok(());
    };
    if let Some(lines) = lines {
        refs = asked_for(alloc, lines, refs)?;
    }
    match RefMap::from_refs(alloc, refs, &capabilities, context) {
        Ok(map) => report_map(report, &map.clone()?),
        Err(e) => init_error(report, &e),
    }
    Ok(())
}

pub(crate) fn report_row(
    alloc: Global,
    row: &Row<'_>,
    report: &mut Report,
) -> Result<(), AllocError> {
    let [are_prefixes, with_tags, leaves_out, ..] = row.settings;
    let (explicit, rest) = cut_at_byte(row.payload, b'\n');
    let (extra, rest) = cut_at_byte(rest, b'\n');
    let (line, answer) = cut_at_byte(rest, b'\n');
    if are_prefixes == 1 {
        return extend_prefixes(alloc, explicit, report);
    }
    let Some(mut context) = context_of(alloc, explicit, extra, report)? else {
        return Ok(());
    };
    if with_tags == 1
        && let Some(tags) = Tags::Included.to_refspec()
    {
        context.extra_refspecs.push(tags.to_owned(alloc)?)?;
    }
    let mut prefixes = RefPrefixes::from_refspecs(alloc, &context.fetch_refspecs)?;
    prefixes.extend_from_refspecs(alloc, &context.extra_refspecs)?;
    let lines = prefixes.into_args(alloc)?;
    report_prefixes(report, &lines);
    let lines = if leaves_out == 1 {
        Some(lines.as_slice())
    } else {
        None
    };
    report_maps(alloc, line, answer, lines, context, report)
}
