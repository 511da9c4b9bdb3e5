//! Fetches of objects that the repository has.
use crate::fetches::{branches, fetch_into};
use crate::servers::{GREETING, PACK, REFS, server};
use gixp_client::{Error, Request, Session, Silent};
use gixp_memory::{StoredObjects, StoredRefs, TextError};
use std::alloc::Global;

// The branch of the server, and a commit whose parent it is (git-rev-list, `--timestamp --parents`).
const COMMITS: &[u8] =
    b"20 1111111111111111111111111111111111111111 7257effbd41e1233eaae5744e614c5c728e3c979\n10 7257effbd41e1233eaae5744e614c5c728e3c979\n";

// Another tip.
const OTHER: &[u8] = b"20 2222222222222222222222222222222222222222\n";

// A text that can't be read fails the test.
fn stored(found: Result<(), TextError>) -> Result<(), Error> {
    match found {
        Ok(()) => Ok(()),
        Err(TextError::Memory) => Err(Error::Memory),
        Err(_) => Err(Error::Over),
    }
}

// Whether a session requests the server's branch, if the repository has these refs.
fn is_requested(alloc: Global, request: &Request, names: &[u8]) -> Result<bool, Error> {
    let mut objects = StoredObjects::new(alloc);
    stored(objects.read_commits(alloc, COMMITS))?;
    stored(objects.read_commits(alloc, OTHER))?;
    let mut refs = StoredRefs::new(alloc);
    stored(refs.read_refs(alloc, names))?;
    let transport = server(alloc, &[GREETING, REFS, PACK])?;
    let mut session = Session::open(alloc, transport, "first/1.0", Silent)?;
    let (fetched, _) = fetch_into(alloc, &mut session, request, &objects, &mut refs)?;
    Ok(fetched.has_pack())
}

#[test]
fn an_object_that_no_ref_reaches_is_requested(rt: HostRuntime) -> Result<(), Error> {
    let alloc = rt.alloc();
    let mut request = branches(alloc)?;
    let other = b"2222222222222222222222222222222222222222 refs/heads/other\n";
    let child = b"1111111111111111111111111111111111111111 refs/heads/mine\n";
    let same = b"7257effbd41e1233eaae5744e614c5c728e3c979 refs/remotes/origin/main\n";
    assert!(rt; is_requested(alloc, &request, b"")?);
    assert!(rt; is_requested(alloc, &request, other)?);
    assert!(rt; !is_requested(alloc, &request, child)?);
    assert!(rt; !is_requested(alloc, &request, same)?);
    request.trusts_objects = true;
    assert!(rt; !is_requested(alloc, &request, b"")?);
    assert!(rt; !is_requested(alloc, &request, other)?);
    Ok(())
}
