//! Requests with failing responses.
use bstr::BString;
use gixp_capabilities::client::Error;
use gixp_hash::ObjectId;
use gixp_packetline::Protocol;
use gixp_requests::command::CommandTable;
use gixp_requests::fetch::Arguments;
use gixp_transport::{Bodies, Body};
use std::alloc::{AllocError, Global};
use std::io::ErrorKind;
use std::test::Fail;

const A: &[u8] = b"0123456789012345678901234567890123456789";

const B: &[u8] = b"bbbbbbbbbbbbbbbbbbbbbbbbbbbbbbbbbbbbbbbb";

// The request with a want of B, a have of A, and `done`.
const REQUEST: &[u8] = b"0033want bbbbbbbbbbbbbbbbbbbbbbbbbbbbbbbbbbbbbbbb \n\
    00000032have 0123456789012345678901234567890123456789\n0009done\n";

// A want and a have of version 1.
fn asked(alloc: Global) -> Result<Arguments, Fail> {
    let features = Vec::new(alloc);
    let mut asked = Arguments::new(alloc, &CommandTable::git(), Protocol::V1, features)?;
    asked.want(&ObjectId::from_hex(B)?)?;
    asked.have(&ObjectId::from_hex(A)?)?;
    Ok(asked)
}

// A transport whose first response fails.
fn failing_bodies(alloc: Global) -> Result<Bodies, AllocError> {
    let mut bodies = Vec::new(alloc);
    bodies.push(Body::Fail(ErrorKind::TimedOut))?;
    Bodies::new(
        alloc,
        bodies,
        BString::from(Vec::new(alloc)),
        Vec::new(alloc),
    )
}

// Whether `send` fails as the response does, although the request was sent; the arguments still have their haves.
fn fails_once(transport: &mut Bodies, asked: &mut Arguments) -> Result<bool, Error> {
    let is_failed = fails_with(asked.send(transport, true), ErrorKind::TimedOut)?;
    Ok(is_failed && transport.sent().len() == 1 && asked.has_haves())
}

// Whether the last request sent is the whole request.
fn sends_again(transport: &mut Bodies, asked: &mut Arguments) -> Result<bool, Error> {
    asked.send(transport, true)?;
    match transport.sent().last() {
        Some(sent) => Ok(sent.as_slice() == REQUEST),
        None => Ok(false),
    }
}

#[test]
fn keeps_all_where_the_answer_fails(rt: HostRuntime) -> Result<(), Fail> {
    let mut transport = failing_bodies(rt.alloc())?;
    let mut asked = asked(rt.alloc())?;
    assert!(rt; fails_once(&mut transport, &mut asked)?);
    assert!(rt; sends_again(&mut transport, &mut asked)?);
    Ok(())
}

// Whether a call fails with an I/O error of this kind. An allocation failure is returned.
fn fails_with<T: Drop>(answer: Result<T, Error>, kind: ErrorKind) -> Result<bool, Error> {
    match answer {
        Err(Error::Io(found)) => Ok(found == kind),
        Err(Error::Memory) => Err(Error::Memory),
        _ => Ok(false),
    }
}
