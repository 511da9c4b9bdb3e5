//! The flush packet that ends a conversation.
use crate::transports::{connection, memory, opening};
use gixp_capabilities::client;
use gixp_doubles::{Device, Paper};
use gixp_handshake::{SendFlushOnDrop, indicate_end_of_interaction};
use gixp_packetline::Protocol;
use gixp_transport::{Connection, Transport};
use std::alloc::{AllocError, Global};
use std::io::{ErrorKind, Write};
use std::test::Fail;

// A connection that receives nothing.
fn silent<W: Write + Drop>(
    alloc: Global,
    writer: W,
) -> Result<Connection<Device<'static>, W>, AllocError> {
    let device = Device::new(b"", 1);
    let opening = opening(alloc)?;
    connection(alloc, device, writer, Protocol::V2, Some(opening))
}

// Ends a conversation by so many calls, and by a drop.
fn end<T: Transport + Drop>(transport: T, calls: usize) -> Result<(), client::Error> {
    let mut guard = SendFlushOnDrop::new(transport);
    for _ in 0..calls {
        guard.indicate_end_of_interaction()?;
    }
    Ok(())
}

#[test]
fn sends_one_flush_packet_when_dropped(rt: HostRuntime) -> Result<(), Fail> {
    let a = rt.alloc();
    for calls in 0..3usize {
        let mut paper = Paper::new(a, usize::MAX);
        end(silent(a, &mut paper)?, calls)?;
        // A drop reports no failure.
        assert_eq!(rt;
            paper.bytes.as_slice(),
            b"0000".as_slice(),
            "{calls}, without an AllocError"
        );
    }
    Ok(())
}

// The results of two calls.
fn end_twice<T: Transport + Drop>(transport: T) -> [Result<(), client::Error>; 2] {
    let mut guard = SendFlushOnDrop::new(transport);
    let first = guard.indicate_end_of_interaction();
    let second = guard.indicate_end_of_interaction();
    [first, second]
}

#[test]
fn counts_a_failed_flush_as_sent(rt: HostRuntime) -> Result<(), Fail> {
    let paper = Paper::failing(rt.alloc(), usize::MAX, 0, ErrorKind::BrokenPipe);
    let [refused, again] = end_twice(silent(rt.alloc(), paper)?);
    assert!(rt; matches!(refused, Err(client::Error::Io(ErrorKind::BrokenPipe))));
    assert!(rt; again.is_ok());
    Ok(())
}

#[test]
fn sends_nothing_over_bodies(rt: HostRuntime) -> Result<(), Fail> {
    let a = rt.alloc();
    let mut guard = SendFlushOnDrop::new(memory(a, &[])?);
    guard.indicate_end_of_interaction()?;
    indicate_end_of_interaction(&mut guard.inner)?;
    assert_eq!(rt; guard.inner.sent().len(), 0);
    Ok(())
}
