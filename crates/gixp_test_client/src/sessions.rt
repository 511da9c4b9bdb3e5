//! Whole sessions and their results.
use crate::fetches::{branches, fetch, unless_memory};
use crate::servers::{GREETING, PACK, REFS, REPORTED, UNPACKED, server};
use gixp_client::{Error, LocalChange, Session, Silent, State, local_changes};
use gixp_doubles::ProgressLog;
use gixp_handshake::credentials::{self, Action};
use gixp_memory::{StoredRefs, TextError};

#[test]
fn fetches_a_pack(rt: HostRuntime) -> Result<(), Error> {
    let alloc = rt.alloc();
    let transport = server(alloc, &[GREETING, REFS, PACK])?;
    let mut session = Session::open(alloc, transport, "first/1.0", Silent)?;
    let request = branches(alloc)?;
    let (fetched, pack) = fetch(alloc, &mut session, &request)?;
    assert_eq!(rt; pack.as_slice(), b"PACK".as_slice());
    assert!(rt; fetched.has_pack());
    if fetched.messages.is_cut() {
        return Err(Error::Memory);
    }
    let texts = fetched.messages.texts();
    assert_eq!(rt; texts.len(), 3);
    assert_eq!(rt; texts[0].text.as_bytes(), b"Counting obj".as_slice());
    session.close()?;
    assert!(rt; session.state() == State::Ended);
    Ok(())
}

#[test]
fn goes_on_after_an_answer_without_a_pack(rt: HostRuntime) -> Result<(), Error> {
    let alloc = rt.alloc();
    let transport = server(alloc, &[GREETING, REFS, UNPACKED, REFS, PACK])?;
    let mut session = Session::open(alloc, transport, "first/1.0", Silent)?;
    let request = branches(alloc)?;
    let refused = unless_memory(fetch(alloc, &mut session, &request))?;
    assert!(rt; matches!(refused, Err(Error::Unnegotiated { rounds: 1 })));
    assert!(rt; session.state() == State::AtStop);
    let (_, pack) = fetch(alloc, &mut session, &request)?;
    assert_eq!(rt; pack.as_slice(), b"PACK".as_slice());
    Ok(())
}

#[test]
fn goes_on_though_the_server_reports_an_error(rt: HostRuntime) -> Result<(), Error> {
    let alloc = rt.alloc();
    let transport = server(alloc, &[GREETING, REFS, REPORTED])?;
    let mut session = Session::open(alloc, transport, "first/1.0", Silent)?;
    let mut request = branches(alloc)?;
    request.goes_on = true;
    let (fetched, _) = fetch(alloc, &mut session, &request)?;
    if fetched.messages.is_cut() {
        return Err(Error::Memory);
    }
    assert!(rt; fetched.messages.first_error().is_some());
    assert!(rt; session.state() == State::AtStop);
    Ok(())
}

#[test]
fn reports_to_a_progress_reporter(rt: HostRuntime) -> Result<(), Error> {
    let alloc = rt.alloc();
    let transport = server(alloc, &[GREETING, REFS, PACK])?;
    let mut session = Session::open_with(
        alloc,
        transport,
        "first/1.0",
        Silent,
        |_: Action| -> Result<Option<credentials::Outcome>, credentials::Error> { Ok(None) },
        Vec::new(alloc),
        ProgressLog::new(alloc),
    )?;
    let request = branches(alloc)?;
    fetch(alloc, &mut session, &request)?;
    let expected =
        "steps\nhandshake\nstep\nstep\nlist refs\nstep\nnegotiate (round 1)\nstep\nreceiving pack\n";
    let lines = session.progress().lines(alloc)?;
    assert_eq!(rt; lines.as_str(), expected);
    Ok(())
}

#[test]
fn reports_local_changes(rt: HostRuntime) -> Result<(), Error> {
    let alloc = rt.alloc();
    let transport = server(alloc, &[GREETING, REFS])?;
    let mut session = Session::open(alloc, transport, "first/1.0", Silent)?;
    let map = session.map(&branches(alloc)?)?;
    let mut refs = StoredRefs::new(alloc);
    let text =
        b"7257effbd41e1233eaae5744e614c5c728e3c979 refs/remotes/origin/gone\n7257effbd41e1233eaae5744e614c5c728e3c979 refs/tags/v1\n";
    let read = refs.read_refs(alloc, text);
    if matches!(read, Err(TextError::Memory)) {
        return Err(Error::Memory);
    }
    assert!(rt; read.is_ok());
    let changes = local_changes(alloc, &map, &refs)?;
    assert_eq!(rt; changes.len(), 2);
    assert!(rt; matches!(&changes[0], LocalChange::Made { .. }));
    assert!(rt; matches!(&changes[1], LocalChange::Removed { .. }));
    Ok(())
}
