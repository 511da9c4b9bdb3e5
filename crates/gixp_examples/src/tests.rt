//! Examples over recorded streams.
use crate::{branches, fetch_from, print_remote_refs, stored_repository};
use gix_protocol::client::{Error, Repository};
use gix_protocol::fetch::CopyPack;

// A server of version 2: its capability advertisement and its refs.
const LISTED: &[u8] =
    b"000eversion 2\n0013ls-refs=unborn\n0012fetch=shallow\n0017object-format=sha1\n0000\
    003d7257effbd41e1233eaae5744e614c5c728e3c979 refs/heads/main\n0000";

// The same, and its response to a fetch.
const FETCHED: &[u8] =
    b"000eversion 2\n0013ls-refs=unborn\n0012fetch=shallow\n0017object-format=sha1\n0000\
    003d7257effbd41e1233eaae5744e614c5c728e3c979 refs/heads/main\n0000\
    000dpackfile\n0009\x01PACK0000";

#[test]
fn lists_the_refs_of_a_stream(rt: HostRuntime) -> Result<(), Error> {
    let alloc = rt.alloc();
    let mut output = Vec::new(alloc);
    let done = print_remote_refs(alloc, LISTED, Vec::new(alloc), &mut output);
    assert!(rt; done.is_ok());
    let lines = b"7257effbd41e1233eaae5744e614c5c728e3c979\trefs/heads/main\n";
    assert!(rt; output.as_slice() == lines.as_slice());
    Ok(())
}

#[test]
fn fetches_from_a_stream(rt: HostRuntime) -> Result<(), Error> {
    let alloc = rt.alloc();
    let request = branches(alloc)?;
    let Ok((objects, mut refs)) = stored_repository(alloc, b"", b"", b"") else {
        return Err(Error::Memory);
    };
    let repository = Repository {
        objects: &objects,
        refs: &mut refs,
        boundary: &[],
    };
    let mut pack = CopyPack {
        writer: Vec::new(alloc),
    };
    let (map, fetched) = fetch_from(
        alloc,
        FETCHED,
        Vec::new(alloc),
        repository,
        &request,
        &mut pack,
    )?;
    assert_eq!(rt; map.mappings.len(), 1);
    assert!(rt; fetched.outcome.is_some());
    assert!(rt; pack.writer.as_slice() == b"PACK".as_slice());
    Ok(())
}
