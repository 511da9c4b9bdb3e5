//! A shallow boundary: the ids of a text, or the text of ids.
//!
//! `call=read` parses the payload. `call=write` writes the text of the ids in the lines of the payload.
use crate::report::Report;
use crate::rows::{Row, Setting};
use gixp_hash::ObjectId;
use gixp_shallow::{ShallowError, shallow_ids, shallow_text};
use std::alloc::{AllocError, Global};

pub(crate) const SETTINGS: &[Setting] = &[("call", &["read", "write"], 0)];

fn report_ids(alloc: Global, text: &[u8], report: &mut Report) {
    match shallow_ids(alloc, text) {
        Ok(ids) => {
            report.word("ids ");
            for id in &ids {
                report.id(id);
                report.word(" ");
            }
        }
        Err(ShallowError::Decode { line }) => {
            report.word("Decode(");
            report.quote(line.as_bytes());
            report.word(") ");
        }
        Err(e) => report.debug(&e),
    }
}

// The ids in lines.
fn ids_of(alloc: Global, lines: &[u8], report: &mut Report) -> Result<Vec<ObjectId>, AllocError> {
    let mut ids = Vec::new(alloc);
    for line in lines.split(|b| *b == b'\n') {
        if line.is_empty() {
            continue;
        }
        match ObjectId::from_hex(line) {
            Ok(id) => ids.push(id)?,
            Err(_) => report.is_unknown = true,
        }
    }
    Ok(ids)
}

pub(crate) fn report_boundary(
    alloc: Global,
    row: &Row<'_>,
    report: &mut Report,
) -> Result<(), AllocError> {
    let [call, ..] = row.settings;
    if call == 0 {
        report_ids(alloc, row.payload, report);
        return Ok(());
    }
    let ids = ids_of(alloc, row.payload, report)?;
    report.quote(&shallow_text(alloc, &ids)?);
    Ok(())
}
