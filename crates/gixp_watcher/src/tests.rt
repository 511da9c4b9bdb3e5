//! Fetches over recorded streams, with the implementations of this crate.
use crate::{Counted, LimitedPack, ReadError, SortedObjects, SortedRefs, exit_status, fetch_twice};
use gix_protocol::client::{
    Error, ErrorClass, LocalChange, Request, Session, local_changes, over_streams,
};
use gix_protocol::fetch::Tags;
use std::alloc::Global;
use std::test::Fail;

// A server of version 2: its capability advertisement, then twice its refs and its response to a fetch, with a message.
const TWICE: &[u8] =
    b"000eversion 2\n0013ls-refs=unborn\n0012fetch=shallow\n0017object-format=sha1\n0000\
    003d7257effbd41e1233eaae5744e614c5c728e3c979 refs/heads/main\n0000\
    000dpackfile\n0008\x02hi\n0009\x01PACK0000\
    003d7257effbd41e1233eaae5744e614c5c728e3c979 refs/heads/main\n0000\
    000dpackfile\n0009\x01PACK0000";

// Two objects and two refs, in order.
const OBJECTS: &[u8] = b"1111111111111111111111111111111111111111 blob\n\
    2222222222222222222222222222222222222222 commit 1700000000 1111111111111111111111111111111111111111\n";

const REFS: &[u8] =
    b"refs/remotes/o/gone 2222222222222222222222222222222222222222 2222222222222222222222222222222222222222\n\
    refs/remotes/o/main 2222222222222222222222222222222222222222 2222222222222222222222222222222222222222\n";

fn branches(alloc: Global) -> Result<Request, Error> {
    let mut request = Request::new(alloc);
    request.add_refspec(b"+refs/heads/*:refs/remotes/o/*")?;
    request.tags = Tags::None;
    Ok(request)
}

#[test]
fn fetches_twice_over_a_session(rt: HostRuntime) -> Result<(), Fail> {
    let alloc = rt.alloc();
    let objects = SortedObjects::read(alloc, OBJECTS)?;
    let mut refs = SortedRefs::read(alloc, REFS)?;
    let request = branches(alloc)?;
    let transport = over_streams(alloc, TWICE, Vec::new(alloc))?;
    let mut first = LimitedPack::new(alloc, Vec::new(alloc), 4);
    let mut second = LimitedPack::new(alloc, Vec::new(alloc), 4);
    let done = fetch_twice(
        alloc,
        transport,
        &objects,
        &mut refs,
        (&request, &request),
        (&mut first, &mut second),
    )?;
    assert_eq!(rt; done.messages.progress, 1);
    assert!(rt; first.into_writer().as_slice() == b"PACK".as_slice());
    assert!(rt; second.into_writer().as_slice() == b"PACK".as_slice());
    let changes = local_changes(alloc, &done.first.0, &refs)?;
    assert!(rt;
        matches!(
            changes.as_slice(),
            [LocalChange::Moved { .. }, LocalChange::Removed { .. }]
        )
    );
    Ok(())
}

#[test]
fn rejects_a_pack_that_is_too_large(rt: HostRuntime) -> Result<(), Fail> {
    let alloc = rt.alloc();
    let objects = SortedObjects::read(alloc, b"")?;
    let mut refs = SortedRefs::read(alloc, b"")?;
    let request = branches(alloc)?;
    let transport = over_streams(alloc, TWICE, Vec::new(alloc))?;
    let mut first = LimitedPack::new(alloc, Vec::new(alloc), 3);
    let mut second = LimitedPack::new(alloc, Vec::new(alloc), 4);
    let packs = (&mut first, &mut second);
    let requests = (&request, &request);
    match fetch_twice(alloc, transport, &objects, &mut refs, requests, packs) {
        Ok(_) => assert!(rt; false),
        Err(e) => {
            assert_eq!(rt; exit_status(&e), 1);
            let text = format!(in alloc; "{e}")?;
            assert_eq!(rt;
                text.as_str(),
                "the consumer refused the pack: it has more bytes than the limit"
            );
        }
    }
    Ok(())
}

#[test]
fn rejects_lines_out_of_order(rt: HostRuntime) -> Result<(), Fail> {
    let alloc = rt.alloc();
    let twice =
        b"1111111111111111111111111111111111111111 blob\n1111111111111111111111111111111111111111 blob\n";
    let read = SortedObjects::read(alloc, twice);
    assert!(rt; matches!(read, Err(ReadError::Line(2))));
    Ok(())
}

// A server of version 2 with a branch and a tag.
const TWO: &[u8] =
    b"000eversion 2\n0013ls-refs=unborn\n0012fetch=shallow\n0017object-format=sha1\n0000\
    003d7257effbd41e1233eaae5744e614c5c728e3c979 refs/heads/main\n\
    003a7257effbd41e1233eaae5744e614c5c728e3c979 refs/tags/v1\n0000";

#[test]
fn names_both_sources_of_a_conflict(rt: HostRuntime) -> Result<(), Fail> {
    let alloc = rt.alloc();
    let mut request = Request::new(alloc);
    request.add_refspec(b"refs/heads/main:refs/heads/q")?;
    request.add_refspec(b"refs/tags/v1:refs/heads/q")?;
    let transport = over_streams(alloc, TWO, Vec::new(alloc))?;
    let mut messages = Counted::new();
    let mut session = Session::open(alloc, transport, "watcher/1.0", &mut messages)?;
    match session.map(&request) {
        Ok(_) => assert!(rt; false),
        Err(e) => {
            assert_eq!(rt; e.class(), ErrorClass::Conflict);
            let text = format!(in alloc; "{e}")?;
            let sentence = "Cannot fetch both refs/heads/main and refs/tags/v1 to refs/heads/q";
            assert_eq!(rt; text.as_str(), sentence);
        }
    }
    Ok(())
}
