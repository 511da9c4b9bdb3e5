//! An advertisement that is cut at each offset, or read in pieces of each size up to its length.
//!
//! `each=beginning` cuts it, over bodies in memory. `each=size` varies the size of pieces, over a connection. `version` is the one
//! that the client asks for.
use crate::handshakes::report_handshake;
use crate::report::{Report, Runs};
use crate::rows::{Row, Setting};
use gixp_doubles::Pieces;
use std::alloc::{AllocError, Global};

pub(crate) const SETTINGS: &[Setting] = &[("each", &["beginning", "size"], 0), ("version", &[], 2)];

/// The handshakes. Equal results are joined.
pub(crate) fn report_places(
    alloc: Global,
    row: &Row<'_>,
    report: &mut Report,
) -> Result<(), AllocError> {
    let ends = row.settings[0] == 0;
    let mut result = Report::new(alloc);
    let mut runs = Runs::new(alloc, if ends { 0 } else { 1 });
    for place in 0..row.payload.len() {
        let mut one = *row;
        if ends {
            one.payload = &row.payload[..place];
        } else {
            one.pieces = Pieces::UpTo(place.saturating_add(1));
        }
        result.clear();
        report_handshake(alloc, &one, &mut result)?;
        runs.add(&result, report);
    }
    runs.finish(report);
    Ok(())
}
