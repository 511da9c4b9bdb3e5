//! Transports over failing devices, failing responses, and a caller over any transport.
ghost use Rattle.std.specs.Prelude.{◌≡◌, [], IfOk, Ok};
ghost use Rattle.gixp_packetline.specs.FrameText.{texts_of};
ghost use Rattle.gixp_transport.specs.Message.{command_frames};
ghost use Rattle.gixp_packetline.specs.Reading.{Reading, Reads};
ghost use Rattle.gixp_transport.specs.Transport.{SentBy};

use crate::streams::readers::read_all;
use bstr::BString;
use gixp_capabilities::client::Error;
use gixp_doubles::{Device, Paper};
use gixp_packetline::read::ExtendedBufRead;
use gixp_packetline::{MessageKind, Protocol};
use gixp_transport::{Bodies, Body, Connection, Message, Service, Transport};
use std::alloc::{AllocError, Global};
use std::io::ErrorKind;
use std::test::Fail;

fn text(alloc: Global, bytes: &[u8]) -> Result<BString, AllocError> {
    BString::from_slice(alloc, bytes)
}

fn connection<'a>(
    alloc: Global,
    device: Device<'a>,
    paper: Paper,
    version: Protocol,
) -> Result<Connection<Device<'a>, Paper>, AllocError> {
    let url = text(alloc, b"git://h/p.git")?;
    Connection::new(alloc, device, paper, url, version, Vec::new(alloc), None)
}

// A connection whose server sends nothing.
fn silent(alloc: Global, paper: Paper) -> Result<Connection<Device<'static>, Paper>, AllocError> {
    connection(alloc, Device::new(b"", usize::MAX), paper, Protocol::V2)
}

// A body for each of these responses: its bytes, or the kind of its error.
fn bodies(
    alloc: Global,
    answers: &[Result<&[u8], ErrorKind>],
    accepted: Vec<Protocol>,
) -> Result<Bodies, AllocError> {
    let url = text(alloc, b"mem:")?;
    let mut list = Vec::new(alloc);
    for answer in answers {
        list.push(match answer {
            Ok(bytes) => Body::Bytes(bytes.to_vec(alloc)?),
            Err(kind) => Body::Fail(*kind),
        })?;
    }
    Bodies::new(alloc, list, url, accepted)
}

// Whether a call fails with an I/O error of this kind. An allocation failure, here or in a writer, is returned.
fn fails_with<T: Drop>(answer: Result<T, Error>, kind: ErrorKind) -> Result<bool, AllocError> {
    match answer {
        Err(Error::Memory | Error::Io(ErrorKind::OutOfMemory)) => Err(AllocError),
        Err(Error::Io(found)) => Ok(found == kind),
        _ => Ok(false),
    }
}

// A connection whose write with this number fails.
fn broken_at(alloc: Global, fails: u64) -> Result<Connection<Device<'static>, Paper>, AllocError> {
    let paper = Paper::failing(alloc, usize::MAX, fails, ErrorKind::BrokenPipe);
    let device = Device::new(b"0000", usize::MAX);
    connection(alloc, device, paper, Protocol::V2)
}

// Whether three requests all return a broken pipe.
fn refuses_requests<T: Transport>(over: &mut T) -> Result<bool, AllocError> {
    let messages = [Message::Line(b"a"), Message::Delimiter, Message::Flush];
    for _ in 0..3 {
        if !fails_with(over.request(&messages), ErrorKind::BrokenPipe)? {
            return Ok(false);
        }
    }
    Ok(true)
}

// Whether the steps of a request and a handshake all return a broken pipe.
fn refuses_steps<T: Transport>(alloc: Global, over: &mut T) -> Result<bool, AllocError> {
    let kind = ErrorKind::BrokenPipe;
    Ok(
        fails_with(over.begin_request(), kind)?
            && fails_with(over.write_message(MessageKind::Flush), kind)?
            && fails_with(over.end_request(), kind)?
            && fails_with(over.handshake(alloc, Service::UploadPack, &[]), kind)?,
    )
}

// Whether every request and step fails on a connection whose write with this number fails.
fn stays_broken(alloc: Global, fails: u64) -> Result<bool, AllocError> {
    let mut over = broken_at(alloc, fails)?;
    Ok(refuses_requests(&mut over)? && refuses_steps(alloc, &mut over)?)
}

#[test]
fn repeats_the_fault_of_a_write(rt: HostRuntime) -> Result<(), Fail> {
    for fails in 0..5u64 {
        assert!(rt; stays_broken(rt.alloc(), fails)?);
    }
    Ok(())
}

// Whether a request is written in full, where each write takes two bytes and the one with this number is interrupted.
fn writes_whole(alloc: Global, fails: u64) -> Result<bool, Fail> {
    let paper = Paper::failing(alloc, 2, fails, ErrorKind::Interrupted);
    let mut over = silent(alloc, paper)?;
    over.request(&[Message::Line(b"abc"), Message::Flush])?;
    Ok(over.writer().bytes.as_slice() == b"0008abc\n0000".as_slice())
}

#[test]
fn writes_on_where_a_write_comes_short(rt: HostRuntime) -> Result<(), Fail> {
    for fails in 0..8u64 {
        assert!(rt; writes_whole(rt.alloc(), fails)?);
    }
    Ok(())
}

// Whether a request with this writer fails with this kind.
fn refuses(alloc: Global, paper: Paper, kind: ErrorKind) -> Result<bool, AllocError> {
    let mut over = silent(alloc, paper)?;
    fails_with(over.request(&[Message::Flush]), kind)
}

#[test]
fn reports_a_writer_that_refuses(rt: HostRuntime) -> Result<(), Fail> {
    let a = rt.alloc();
    assert!(rt;
        refuses(a, Paper::new(a, 0), ErrorKind::WriteZero)?,
        "a write that takes nothing"
    );
    let mut paper = Paper::new(a, usize::MAX);
    paper.flushes = false;
    assert!(rt;
        refuses(a, paper, ErrorKind::BrokenPipe)?,
        "a flush that fails"
    );
    Ok(())
}

// A response of two parts, a failing one, and one of one line.
fn three_bodies(alloc: Global) -> Result<Bodies, AllocError> {
    let answers = [
        Ok(b"0006a\n0006b\n00000006c\n".as_slice()),
        Err(ErrorKind::TimedOut),
        Ok(b"0006d\n0000"),
    ];
    bodies(alloc, &answers, Vec::new(alloc))
}

// The result of a request with one message, and of this many calls for lines after it.
fn asked(
    alloc: Global,
    memory: &mut Bodies,
    message: Message<'_>,
    calls: usize,
) -> Result<String, AllocError> {
    let answer = memory.request(&[message]);
    if let Err(Error::Memory) = &answer {
        return Err(AllocError);
    }
    let lines = read_all(alloc, memory, calls)?;
    format!(in alloc; "{answer:?} {lines}")
}

// The result of each call of a client that sends four requests. What it writes before the second one is dropped.
fn requests_text(alloc: Global, memory: &mut Bodies) -> Result<String, Fail> {
    let mut reported = read_all(alloc, memory, 2)?;
    reported.push_str(asked(alloc, memory, Message::Flush, 1)?.as_str())?;
    memory.write_text(b"dropped")?;
    for (message, calls) in [
        (Message::Line(b"x"), 1),
        (Message::Flush, 3),
        (Message::Flush, 2),
    ] {
        reported.push_str(asked(alloc, memory, message, calls)?.as_str())?;
    }
    Ok(reported)
}

// Whether four requests were sent, the second of which is this one.
fn sent_second(memory: &Bodies, request: &[u8]) -> bool {
    match memory.sent() {
        [_, second, _, _] => second.as_slice() == request,
        _ => false,
    }
}

#[test]
fn takes_a_body_for_each_request(rt: HostRuntime) -> Result<(), Fail> {
    let mut memory = three_bodies(rt.alloc())?;
    let reported = requests_text(rt.alloc(), &mut memory)?;
    assert!(rt;
        reported.as_str()
            == "Io(UnexpectedEof) Io(UnexpectedEof) \
            Ok(()) 2 \
            Err(Io(TimedOut)) Io(UnexpectedEof) \
            Ok(()) 2 | | \
            Ok(()) Io(UnexpectedEof) Io(UnexpectedEof) "
    );
    assert!(rt; sent_second(&memory, b"0006x\n"));
    Ok(())
}

// Sends a command and takes the first line of its response; true if there is one. It relies only on the contract of `Transport`.
fn ask<T: Transport>(alloc: Global, transport: &mut T, command: &str) -> Result<bool, Error>
    ensures { IfOk result (λ received. (mid : Reading)
        × SentBy (T.reading transport.old).held.persists (T.reading transport.old) mid (texts_of (command_frames command.now [] []))
        × Reads mid (T.reading transport.new) (Ok received)) }
{
    match transport.invoke(alloc, command, &[], &[]) {
        Ok(()) => {}
        Err(e) => return Err(e),
    }
    match transport.next_line() {
        Ok(received) => Ok(received),
        Err(e) => Err(Error::from(e)),
    }
}

#[test]
fn asks_over_any_transport(rt: HostRuntime) -> Result<(), Fail> {
    let a = rt.alloc();
    let accepted = Vec::from_slice(a, &[Protocol::V2])?;
    let mut memory = bodies(a, &[Ok(b"0006a\n0000"), Ok(b"0000")], accepted)?;
    assert!(rt; ask(a, &mut memory, "x")? && !ask(a, &mut memory, "y")?);
    Ok(())
}
