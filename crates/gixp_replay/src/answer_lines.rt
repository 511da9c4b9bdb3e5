//! Parses a text as an id, and as each kind of line of a fetch response. There are no settings.
use crate::report::Report;
use crate::rows::Row;
use crate::values;
use gixp_hash::{Kind, ObjectId};
use gixp_response::fetch::response::{Acknowledgement, WantedRef, shallow_update_from_line};
use std::alloc::Global;

fn report_id(text: &[u8], report: &mut Report) {
    match ObjectId::from_hex(text) {
        Ok(id) => {
            report.id(&id);
            report.word(if id.is_null() { " null " } else { " " });
        }
        Err(e) => {
            report.debug(&e);
            report.word(" ");
        }
    }
    if Kind::from_name(text).is_some() {
        report.word("sha1 ");
    }
}

/// The value or the error of each parser.
pub(crate) fn report_line(alloc: Global, row: &Row<'_>, report: &mut Report) {
    report_id(row.payload, report);
    let Ok(text) = str::from_utf8(row.payload) else {
        return report.word("notext");
    };
    match Acknowledgement::from_line(alloc, text) {
        Ok(found) => values::acknowledgement(report, found),
        Err(e) => values::response_error(report, &e),
    }
    match shallow_update_from_line(alloc, text) {
        Ok(found) => values::update(report, found),
        Err(e) => values::response_error(report, &e),
    }
    match WantedRef::from_line(alloc, text) {
        Ok(found) => {
            report.id(&found.id);
            report.quote(found.path.as_bytes());
        }
        Err(e) => values::response_error(report, &e),
    }
}
