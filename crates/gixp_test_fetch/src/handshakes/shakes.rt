//! Handshakes over devices that fail, and with credentials.
use crate::shown::shown;
use crate::transports::{connection, denying, opening, text};
use gixp_doubles::{Device, Paper, ProgressLog};
use gixp_handshake::Handshake;
use gixp_handshake::credentials::{self, Account, Action, NextAction, Outcome};
use gixp_handshake::handshake::{Error, handshake};
use gixp_packetline::Protocol;
use gixp_transport::{Bodies, Service, Transport};
use std::alloc::{AllocError, Global};
use std::io::ErrorKind;
use std::test::Fail;

// An advertisement of version 1 with two refs.
const REFS: &[u8] = b"000eversion 1\n\
    004e0123456789012345678901234567890123456789 HEAD\0symref=HEAD:refs/heads/main\n\
    003d0123456789012345678901234567890123456789 refs/heads/main\n0000";

fn no_account(_action: Action) -> Result<Option<Outcome>, credentials::Error> {
    Ok(None)
}

// A handshake of a client without credentials.
fn shake<T: Transport>(alloc: Global, transport: &mut T) -> Result<Handshake, Error> {
    let mut progress = ProgressLog::new(alloc);
    handshake(
        alloc,
        transport,
        Service::UploadPack,
        |action: Action| no_account(action),
        Vec::new(alloc),
        &mut progress,
    )
}

fn account(alloc: Global) -> Result<Outcome, AllocError> {
    Ok(Outcome {
        identity: Account {
            username: String::from_str(alloc, "me")?,
            password: String::from_str(alloc, "secret")?,
        },
        next: NextAction {
            previous_output: text(alloc, b"output")?,
        },
    })
}

// The credentials, unless an allocation failed.
fn with_account(alloc: Global) -> Result<Option<Outcome>, credentials::Error> {
    match account(alloc) {
        Ok(outcome) => Ok(Some(outcome)),
        Err(_) => Err(credentials::Error {
            message: String::new(alloc),
        }),
    }
}

// The result of a handshake over a connection whose read with this number fails.
fn sent(alloc: Global, fails: u64) -> Result<String, AllocError> {
    let device = Device::failing(REFS, 7, fails, ErrorKind::TimedOut);
    let paper = Paper::new(alloc, 16);
    let opening = opening(alloc)?;
    let mut transport = connection(alloc, device, paper, Protocol::V1, Some(opening))?;
    shown(alloc, shake(alloc, &mut transport))
}

#[test]
fn reports_each_read_that_fails(rt: HostRuntime) -> Result<(), Fail> {
    for fails in 0..(REFS.len() as u64).div_ceil(7) {
        let sent = sent(rt.alloc(), fails)?;
        // The capability advertisement ends with byte 92.
        let want = if fails * 7 < 92 {
            "Err(Transport(Io(TimedOut)))"
        } else {
            "Err(ParseRefs(Io(TimedOut)))"
        };
        assert_eq!(rt; sent.as_str(), want, "{fails}");
    }
    Ok(())
}

// The results of two handshakes over a connection whose write with this number fails.
fn sent_twice(alloc: Global, fails: u64) -> Result<[String; 2], AllocError> {
    let device = Device::new(REFS, usize::MAX);
    let paper = Paper::failing(alloc, 16, fails, ErrorKind::BrokenPipe);
    let opening = opening(alloc)?;
    let mut transport = connection(alloc, device, paper, Protocol::V1, Some(opening))?;
    let first = shown(alloc, shake(alloc, &mut transport))?;
    let second = shown(alloc, shake(alloc, &mut transport))?;
    Ok([first, second])
}

#[test]
fn reports_each_write_that_fails(rt: HostRuntime) -> Result<(), Fail> {
    let want = "Err(Transport(Io(BrokenPipe)))";
    // The opening has 38 bytes.
    for fails in 0..3u64 {
        let [first, second] = sent_twice(rt.alloc(), fails)?;
        assert_eq!(rt; (first.as_str(), second.as_str()), (want, want), "{fails}");
    }
    Ok(())
}

// A handshake that is done.
#[derive(Drop)]
struct Shaken {
    found: Handshake,
    transport: Bodies,
    progress: ProgressLog,
}

// A handshake of a client that has credentials, with a server that requires them.
fn shake_with_account(alloc: Global) -> Result<Shaken, Error> {
    let mut transport = denying(alloc, &[REFS])?;
    let mut progress = ProgressLog::new(alloc);
    let found = handshake(
        alloc,
        &mut transport,
        Service::UploadPack,
        |_action: Action| with_account(alloc),
        Vec::new(alloc),
        &mut progress,
    );
    match found {
        Ok(found) => Ok(Shaken {
            found,
            transport,
            progress,
        }),
        Err(Error::Credentials(_)) => Err(Error::Memory),
        Err(e) => Err(e),
    }
}

fn length<T>(items: &Option<Vec<T>>) -> Option<usize> {
    Some(items.as_ref()?.len())
}

// How many refs and shallow updates a copy has.
fn lengths(found: &Handshake) -> Result<(Option<usize>, Option<usize>), AllocError> {
    let copy = found.clone()?;
    Ok((length(&copy.refs), length(&copy.v1_shallow_updates)))
}

fn username(transport: &Bodies) -> Option<&str> {
    Some(transport.identity()?.username.as_str())
}

#[test]
fn shakes_hands_with_an_account(rt: HostRuntime) -> Result<(), Fail> {
    let shaken = shake_with_account(rt.alloc())?;
    assert_eq!(rt; lengths(&shaken.found)?, (Some(2), Some(0)));
    assert_eq!(rt; username(&shaken.transport), Some("me"));
    // If a name can't be allocated, only the step is reported.
    assert_eq!(rt;
        shaken.progress.lines(rt.alloc())?.as_str(),
        "steps\nhandshake\nstep\nauthentication\nstep\nhandshake (authenticated)\n",
        "without an AllocError"
    );
    Ok(())
}
