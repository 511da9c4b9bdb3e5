//! The texts of a session's errors, its state after them, and its output in later calls.
use crate::fetches::{branches, fetch, fetch_into, unless_memory};
use crate::lines::lines;
use crate::servers::{
    DENIED, EMPTY, GREETING, OLD, OLD_PACK, OLD_SHALLOW, OLDER, PACK, REFS, REPORTED, SHA256,
    UNENDED, UNPACKED, server,
};
use crate::unreadable::Unreadable;
use gixp_client::{Error, Session, Silent, State, over_streams};
use gixp_doubles::{Device, MemoryRefs, Paper};
use gixp_graph::{ObjectKind, RefStoreError};
use gixp_hash::ObjectId;
use gixp_memory::{StoredObjects, StoredRefs};
use gixp_transport::Connection;
use std::alloc::{AllocError, Global};
use std::io::ErrorKind;

// The result of a fetch over these responses as a text, and the state of the session.
fn reported(alloc: Global, answers: &[&[&[u8]]]) -> Result<(String, Option<State>), Error> {
    let transport = server(alloc, answers)?;
    let mut session = match Session::open(alloc, transport, "first/1.0", Silent) {
        Ok(session) => session,
        Err(Error::Memory) => return Err(Error::Memory),
        Err(e) => return Ok((format!(in alloc; "{e}")?, None)),
    };
    let request = branches(alloc)?;
    let text = match unless_memory(fetch(alloc, &mut session, &request))? {
        Ok((fetched, pack)) => {
            let count = pack.len();
            let has_pack = fetched.has_pack();
            format!(in alloc; "pack {has_pack} of {count} bytes")?
        }
        Err(e) => format!(in alloc; "{e}")?,
    };
    Ok((text, Some(session.state())))
}

// The texts and states for servers of version 2 that fail or end at each point.
const NEW: &[(&[&[&[u8]]], &str, Option<State>)] = &[
    (
        &[GREETING, REFS, PACK],
        "pack true of 4 bytes",
        Some(State::AtStop),
    ),
    (
        &[GREETING, EMPTY],
        "pack false of 0 bytes",
        Some(State::AtStop),
    ),
    (&[DENIED], "the server reported: access denied", None),
    (
        &[GREETING, DENIED],
        "the server reported: access denied",
        Some(State::Ended),
    ),
    (
        &[GREETING, UNENDED],
        "expected flush after ref listing",
        Some(State::Broken),
    ),
    (
        &[SHA256],
        "mismatched algorithms: client sha1; server sha256",
        Some(State::AtStop),
    ),
    (
        &[GREETING, REFS, DENIED],
        "the server reported: access denied",
        Some(State::Ended),
    ),
    (
        &[
            GREETING,
            REFS,
            &[b"packfile\n", b"\x01PA", b"ERR access denied\n"],
        ],
        "the server reported: access denied",
        Some(State::Ended),
    ),
    (
        &[GREETING, REFS, REPORTED],
        "the server reported: disk full",
        Some(State::Ended),
    ),
    (
        &[GREETING, REFS, UNPACKED],
        "the negotiation ended without a pack after 1 round(s)",
        Some(State::AtStop),
    ),
    (&[&[]], "the connection ended within the handshake", None),
    (
        &[GREETING, &[]],
        "the connection ended within the list of refs",
        Some(State::Broken),
    ),
    (
        &[GREETING, REFS, &[]],
        "the connection ended within an answer",
        Some(State::Broken),
    ),
    (
        &[GREETING, REFS, &[b"packfile\n", b"\x01PA"]],
        "the connection ended within the pack",
        Some(State::Broken),
    ),
    (
        &[GREETING, REFS, &[b"elsewhere\n", b""]],
        "a response can't be read: UnknownSectionHeader { header: \"elsewhere\\n\" }",
        Some(State::Broken),
    ),
];

// The same for servers of version 0.
const FORMER: &[(&[&[&[u8]]], &str, Option<State>)] = &[
    (&[OLD, OLD_PACK], "pack true of 4 bytes", Some(State::Ended)),
    (
        &[OLDER],
        "the server doesn't offer multi_ack_detailed",
        Some(State::AtStop),
    ),
    (
        &[OLD, DENIED],
        "the server reported: access denied",
        Some(State::Ended),
    ),
    (
        &[OLD, &[b"NAK\n"]],
        "the negotiation ended without a pack after 1 round(s)",
        Some(State::Ended),
    ),
    (
        &[OLD, &[b"NAK\n", b"\x01PA"]],
        "the connection ended within the pack",
        Some(State::Broken),
    ),
];

#[test]
fn reports_what_was_refused(rt: HostRuntime) -> Result<(), Error> {
    for (answers, sentence, state) in NEW {
        let (text, stands) = reported(rt.alloc(), answers)?;
        assert_eq!(rt; text.as_str(), *sentence);
        assert!(rt; stands == *state, "{sentence}");
    }
    for (answers, sentence, state) in FORMER {
        let (text, stands) = reported(rt.alloc(), answers)?;
        assert_eq!(rt; text.as_str(), *sentence);
        assert!(rt; stands == *state, "{sentence}");
    }
    Ok(())
}

// A connection to a server that sends these bytes.
fn connection<'a>(
    alloc: Global,
    bytes: &'a [u8],
) -> Result<Connection<Device<'a>, Paper>, AllocError> {
    over_streams(alloc, Device::new(bytes, 7), Paper::new(alloc, 16))
}

// The output of a session over these bytes up to its failed fetch, and, if `goes_on`, in the calls after it.
fn written(alloc: Global, bytes: &[u8], goes_on: bool) -> Result<Option<Vec<u8>>, Error> {
    let Ok(mut session) = Session::open(alloc, connection(alloc, bytes)?, "first/1.0", Silent)
    else {
        return Ok(None);
    };
    let request = branches(alloc)?;
    if fetch(alloc, &mut session, &request).is_ok() {
        return Ok(None);
    }
    if goes_on {
        let is_over = matches!(session.map(&request), Err(Error::Over));
        session.close()?;
        if !is_over {
            return Ok(Some(Vec::new(alloc)));
        }
    }
    let (_, paper, _) = session.into_transport().into_parts();
    Ok(Some(paper.bytes))
}

#[test]
fn writes_nothing_after_an_error(rt: HostRuntime) -> Result<(), Error> {
    let alloc = rt.alloc();
    let mut stream = lines(alloc, GREETING)?;
    stream.extend_from_slice(&lines(alloc, REFS)?)?;
    stream.extend_from_slice(&lines(alloc, PACK)?)?;
    for count in 0..stream.len() {
        let refused = written(alloc, &stream[..count], false)?;
        let following = written(alloc, &stream[..count], true)?;
        assert!(rt; refused == following, "after {count} bytes");
    }
    Ok(())
}

#[test]
fn refs_that_cannot_be_read_send_nothing(rt: HostRuntime) -> Result<(), Error> {
    let alloc = rt.alloc();
    let transport = server(alloc, &[GREETING, REFS, REFS, PACK])?;
    let mut session = Session::open(alloc, transport, "first/1.0", Silent)?;
    let request = branches(alloc)?;
    let objects = StoredObjects::new(alloc);
    let mut refs = MemoryRefs::new(alloc);
    refs.error = Some(RefStoreError::Io(ErrorKind::PermissionDenied));
    let received = unless_memory(fetch_into(alloc, &mut session, &request, &objects, &mut refs))?;
    assert!(rt; matches!(received, Err(Error::LocalRefs(_))));
    assert!(rt; session.state() == State::AtStop);
    fetch(alloc, &mut session, &request)?;
    Ok(())
}

// Objects with a commit that can't be read.
fn unreadable(alloc: Global) -> Result<Unreadable, AllocError> {
    let mut objects = StoredObjects::new(alloc);
    if let Ok(id) = ObjectId::from_hex(b"7257effbd41e1233eaae5744e614c5c728e3c979") {
        objects.add(id, ObjectKind::Commit)?;
    }
    Ok(Unreadable { objects })
}

#[test]
fn unreadable_objects_leave_the_server_messages(rt: HostRuntime) -> Result<(), Error> {
    let alloc = rt.alloc();
    let transport = server(alloc, &[OLD_SHALLOW, OLD_PACK])?;
    let mut session = Session::open(alloc, transport, "first/1.0", Silent)?;
    let mut request = branches(alloc)?;
    request.rejects_shallow = true;
    let objects = unreadable(alloc)?;
    let mut refs = StoredRefs::new(alloc);
    let received = unless_memory(fetch_into(alloc, &mut session, &request, &objects, &mut refs))?;
    assert!(rt; matches!(received, Err(Error::Objects(_))));
    assert!(rt; session.state() == State::AtStop);
    let received = unless_memory(fetch(alloc, &mut session, &request))?;
    assert!(rt; matches!(received, Err(Error::ShallowServer)));
    Ok(())
}

#[test]
fn objects_that_cannot_be_read_leave_a_stop(rt: HostRuntime) -> Result<(), Error> {
    let alloc = rt.alloc();
    let transport = server(alloc, &[GREETING, REFS, REFS, PACK])?;
    let mut session = Session::open(alloc, transport, "first/1.0", Silent)?;
    let request = branches(alloc)?;
    let objects = unreadable(alloc)?;
    let mut refs = StoredRefs::new(alloc);
    let received = unless_memory(fetch_into(alloc, &mut session, &request, &objects, &mut refs))?;
    assert!(rt; matches!(received, Err(Error::Objects(_))));
    assert!(rt; session.state() == State::AtStop);
    fetch(alloc, &mut session, &request)?;
    Ok(())
}

#[test]
fn a_filter_that_is_not_offered_sends_nothing(rt: HostRuntime) -> Result<(), Error> {
    let alloc = rt.alloc();
    let transport = server(alloc, &[OLD, OLD_PACK])?;
    let mut session = Session::open(alloc, transport, "first/1.0", Silent)?;
    let mut request = branches(alloc)?;
    request.set_filter("blob:none")?;
    let received = unless_memory(fetch(alloc, &mut session, &request))?;
    assert!(rt; matches!(received, Err(Error::MissingFeature { .. })));
    request.filter = None;
    fetch(alloc, &mut session, &request)?;
    assert!(rt; session.state() == State::Ended);
    assert!(rt; matches!(session.map(&request), Err(Error::Over)));
    Ok(())
}
