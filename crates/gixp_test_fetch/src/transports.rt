//! Transports over devices, and over bodies in memory.
use bstr::BString;
use gixp_doubles::Device;
use gixp_packetline::Protocol;
use gixp_transport::{Bodies, Body, Connection, Opening};
use std::alloc::{AllocError, Global};
use std::io::{ErrorKind, Write};

pub(crate) fn text(alloc: Global, bytes: &[u8]) -> Result<BString, AllocError> {
    BString::from_slice(alloc, bytes)
}

/// The first message of a client that opens `/p.git`.
pub(crate) fn opening(alloc: Global) -> Result<Opening, AllocError> {
    Ok(Opening {
        path: text(alloc, b"/p.git")?,
        host: None,
    })
}

/// A connection of a client that requests this version, and accepts each.
pub(crate) fn connection<'a, W: Write + Drop>(
    alloc: Global,
    device: Device<'a>,
    writer: W,
    version: Protocol,
    opening: Option<Opening>,
) -> Result<Connection<Device<'a>, W>, AllocError> {
    let url = text(alloc, b"git://h/p.git")?;
    let accepted = Vec::new(alloc);
    Connection::new(alloc, device, writer, url, version, accepted, opening)
}

fn push_answers(
    alloc: Global,
    bodies: &mut Vec<Body>,
    answers: &[&[u8]],
) -> Result<(), AllocError> {
    for answer in answers {
        bodies.push(Body::Bytes(answer.to_vec(alloc)?))?;
    }
    Ok(())
}

/// A transport over memory with these responses.
pub(crate) fn memory(alloc: Global, answers: &[&[u8]]) -> Result<Bodies, AllocError> {
    let mut bodies = Vec::new(alloc);
    push_answers(alloc, &mut bodies, answers)?;
    Bodies::new(alloc, bodies, text(alloc, b"mem:")?, Vec::new(alloc))
}

/// The same for a server that requires credentials: it denies the first handshake.
pub(crate) fn denying(alloc: Global, answers: &[&[u8]]) -> Result<Bodies, AllocError> {
    let mut bodies = Vec::new(alloc);
    bodies.push(Body::Fail(ErrorKind::PermissionDenied))?;
    push_answers(alloc, &mut bodies, answers)?;
    Bodies::new(alloc, bodies, text(alloc, b"mem:")?, Vec::new(alloc))
}
