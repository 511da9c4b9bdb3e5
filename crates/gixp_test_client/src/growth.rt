//! A whole session in which each allocation may fail: `scripts/fail_allocations.py` makes them fail in turn.
use crate::fetches::{branches, fetch};
use crate::lines::lines;
use crate::servers::{GREETING, PACK, REFS};
use gixp_client::{Error, Listener, Request, Session, Silent, State, over_streams};
use gixp_doubles::{Device, Paper};
use gixp_transport::Transport;
use std::alloc::Global;

// Whether a fetch receives its pack.
fn comes<T: Transport + Drop, L: Listener + Drop>(
    alloc: Global,
    session: &mut Session<T, L>,
    request: &Request,
) -> bool {
    match fetch(alloc, session, request) {
        Ok((_fetched, pack)) => pack.as_slice() == b"PACK".as_slice(),
        Err(_why) => false,
    }
}

// Runs the whole session over these bytes. A failed call is repeated if the session is at a stop. Returns the bytes written,
// whether the fetch received its pack, and whether the session is broken. It is if an allocation of a request failed.
fn meets(alloc: Global, bytes: &[u8]) -> Result<(Vec<u8>, bool, bool), Error> {
    let streams = over_streams(alloc, Device::new(bytes, 7), Paper::new(alloc, 64))?;
    let mut session = Session::open(alloc, streams, "first/1.0", Silent)?;
    let request = branches(alloc)?;
    if session.list().is_err() && session.state() == State::AtStop {
        session.list()?;
    }
    let mut has_come = comes(alloc, &mut session, &request);
    if !has_come && session.state() == State::AtStop {
        has_come = comes(alloc, &mut session, &request);
    }
    let is_broken = session.state() == State::Broken;
    session.close()?;
    let (_reader, paper, _ahead) = session.into_transport().into_parts();
    Ok((paper.bytes, has_come, is_broken))
}

#[test]
fn a_whole_session(rt: HostRuntime) -> Result<(), Error> {
    let alloc = rt.alloc();
    let mut stream = lines(alloc, GREETING)?;
    stream.extend_from_slice(&lines(alloc, REFS)?)?;
    stream.extend_from_slice(&lines(alloc, PACK)?)?;
    let (written, has_come, is_broken) = meets(alloc, &stream)?;
    assert!(rt; has_come != is_broken);
    assert!(rt; is_broken || !written.is_empty());
    Ok(())
}
