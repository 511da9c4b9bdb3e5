//! A plan over recorded bodies.
//!
//! Settings: `refspecs`, their number; `room`, the number of bytes that the writer takes before it fails, 0 for no limit; `denied`,
//! the number of the body in whose place the server wants an account, from 1 on. The first line of the payload has the lengths of
//! the haves, of each refspec and of each body. These follow one after another.
use crate::report::Report;
use crate::rows::{Row, Setting, cut_at, cut_at_byte, number};
use bstr::BString;
use gix_protocol::fetch::negotiate::{Graph, HaveList, NoObjects};
use gix_protocol::transport::Body;
use gixp_planner::{PlanError, parse_haves, plan};
use std::alloc::{AllocError, Global};
use std::io;
use std::io::{ErrorKind, Write};

pub(crate) const SETTINGS: &[Setting] = &[
    ("refspecs", &[], 1),
    ("room", &[], 0),
    ("denied", &[], 0),
];

// A writer with a limit.
#[derive(Drop)]
struct Page {
    text: Vec<u8>,
    room: usize,
}

impl Write for Page {
    fn write(&mut self, buf: &[u8]) -> io::Result<usize> {
        if self.room == 0 {
            return Err(io::Error::from(ErrorKind::BrokenPipe));
        }
        let amount = self.room.min(buf.len());
        match self.text.extend_from_slice(&buf[..amount]) {
            Ok(()) => {}
            Err(_) => return Err(io::Error::from(ErrorKind::OutOfMemory)),
        }
        self.room -= amount;
        Ok(amount)
    }

    fn flush(&mut self) -> io::Result<()> {
        Ok(())
    }
}

// The limit of a page.
fn room_of(setting: u64) -> usize {
    if setting == 0 {
        return usize::MAX;
    }
    usize::try_from(setting).unwrap_or(usize::MAX)
}

// The input of a plan.
#[derive(Drop)]
struct Parts<'a> {
    haves: &'a [u8],
    specs: Vec<BString>,
    bodies: Vec<Body>,
}

fn parts_of<'a>(alloc: Global, row: &Row<'a>) -> Result<Parts<'a>, AllocError> {
    let [count, _, denied, ..] = row.settings;
    let (lengths, mut rest) = cut_at_byte(row.payload, b'\n');
    let mut parts = Parts {
        haves: b"",
        specs: Vec::new(alloc),
        bodies: Vec::new(alloc),
    };
    let mut place = 0u64;
    for word in lengths.split(|b| *b == b' ') {
        let (part, others) = cut_at(rest, number(word).unwrap_or(0));
        rest = others;
        if place == 0 {
            parts.haves = part;
        } else if place <= count {
            parts.specs.push(BString::from_slice(alloc, part)?)?;
        } else if place - count == denied {
            parts.bodies.push(Body::Fail(ErrorKind::PermissionDenied))?;
        } else {
            parts.bodies.push(Body::Bytes(part.to_vec(alloc)?))?;
        }
        place = place.saturating_add(1);
    }
    Ok(parts)
}

fn plan_parts(alloc: Global, parts: Parts<'_>, page: &mut Page) -> Result<(), PlanError> {
    let Parts {
        haves,
        specs,
        bodies,
    } = parts;
    let haves = parse_haves(alloc, haves)?;
    let mut negotiator = HaveList::new(haves);
    let mut graph = Graph::new(alloc, NoObjects);
    plan(
        alloc,
        bodies,
        &NoObjects,
        &mut graph,
        &mut negotiator,
        &specs,
        page,
    )
}

/// The plan, or the step and the variant of its error.
pub(crate) fn report_plan(
    alloc: Global,
    row: &Row<'_>,
    report: &mut Report,
) -> Result<(), AllocError> {
    let [_, room, ..] = row.settings;
    let parts = parts_of(alloc, row)?;
    let mut page = Page {
        text: Vec::new(alloc),
        room: room_of(room),
    };
    let planned = plan_parts(alloc, parts, &mut page);
    report.letters(&page.text);
    match planned {
        Ok(()) => report.word(" Ok"),
        Err(e) => {
            report.word(" ");
            report.word(e.step);
            report.word(" ");
            report.word(e.variant);
        }
    }
    Ok(())
}
