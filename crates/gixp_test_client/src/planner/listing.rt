//! Listed responses: test vectors, responses of real servers, and devices that fail.

use gixp_doubles::{Device, Paper};
use gixp_planner::listing::{ListError, list_refs};
use gixp_refs::handshake::refs::parse;
use std::alloc::{AllocError, Global};
use std::io::ErrorKind;
use std::test::Fail;

mod answers;
mod reads;
mod recorded;

// The bytes written, followed by the name of the error if there is one.
fn listed(alloc: Global, mut from: Device<'_>, mut to: Paper) -> Result<Vec<u8>, Fail> {
    match list_refs(alloc, &mut from, &mut to) {
        Ok(()) => {}
        // The writer could not allocate.
        Err(ListError::Io(ErrorKind::OutOfMemory)) => return Err(Fail::from(AllocError)),
        Err(e) => to.bytes.extend_from_slice(e.variant().as_bytes())?,
    }
    Ok(to.bytes)
}

// The result, unless an allocation failed.
fn unless_memory(answer: Result<(), ListError>) -> Result<Result<(), ListError>, Fail> {
    match answer {
        Err(ListError::Parse(parse::Error::Memory)) => Err(Fail::from(AllocError)),
        Err(ListError::Io(ErrorKind::OutOfMemory)) => Err(Fail::from(AllocError)),
        answer => Ok(answer),
    }
}

// A writer that accepts all bytes.
fn paper(alloc: Global) -> Paper {
    Paper::new(alloc, usize::MAX)
}
