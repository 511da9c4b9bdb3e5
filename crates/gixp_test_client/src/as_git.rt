//! Sessions that do what git does where the functions below a session don't.
use crate::fetches::{branches, fetch, unless_memory};
use crate::lines::lines;
use crate::servers::{GREETING, OLD, OLD_PACK, PACK, REFS, server};
use bstr::ByteSlice;
use gixp_client::{Error, Request, Session, Silent, State, over_streams};
use gixp_doubles::{Device, Paper};
use gixp_refmap::fetch::Tags;
use std::alloc::Global;

// A server of version 0 that can't include tags.
const UNTAGGED: &[&[u8]] = &[
    b"7257effbd41e1233eaae5744e614c5c728e3c979 refs/heads/main\0multi_ack_detailed side-band-64k\n",
    b"",
];

// A server of version 0 that can send thin packs.
const THIN: &[&[u8]] = &[
    b"7257effbd41e1233eaae5744e614c5c728e3c979 refs/heads/main\0multi_ack_detailed side-band-64k thin-pack ofs-delta\n",
    b"",
];

// A server of version 2 with `ref-in-want`.
const BY_NAME: &[&[u8]] = &[
    b"version 2\n",
    b"ls-refs=unborn\n",
    b"fetch=shallow ref-in-want\n",
    b"",
];

// A list with a symbolic `HEAD`.
const HEAD: &[&[u8]] = &[
    b"7257effbd41e1233eaae5744e614c5c728e3c979 HEAD symref-target:refs/heads/main\n",
    b"7257effbd41e1233eaae5744e614c5c728e3c979 refs/heads/main\n",
    b"",
];

const ID: &[u8] = b"7257effbd41e1233eaae5744e614c5c728e3c979";

// What a session writes to this server for a fetch that ends with a pack.
fn written(alloc: Global, answers: &[&[&[u8]]], request: &Request) -> Result<Vec<u8>, Error> {
    let mut stream = Vec::new(alloc);
    for answer in answers {
        stream.extend_from_slice(&lines(alloc, answer)?)?;
    }
    let connection = over_streams(alloc, Device::new(&stream, 7), Paper::new(alloc, 16))?;
    let mut session = Session::open(alloc, connection, "first/1.0", Silent)?;
    let (fetched, _) = fetch(alloc, &mut session, request)?;
    let has_pack = fetched.has_pack();
    let (_, paper, _) = session.into_transport().into_parts();
    if !has_pack {
        return Ok(Vec::new(alloc));
    }
    Ok(paper.bytes)
}

// Whether a text contains another.
fn has(text: &[u8], part: &[u8]) -> bool {
    text.contains_str(part)
}

#[test]
fn a_server_without_include_tag_is_not_asked_for_tags(rt: HostRuntime) -> Result<(), Error> {
    let alloc = rt.alloc();
    let request = branches(alloc)?;
    let asked = written(alloc, &[OLD, OLD_PACK], &request)?;
    assert!(rt; has(&asked, b" include-tag "));
    let unasked = written(alloc, &[UNTAGGED, OLD_PACK], &request)?;
    assert!(rt; has(&unasked, b"want 7257effbd41e1233eaae5744e614c5c728e3c979 "));
    assert!(rt; !has(&unasked, b"include-tag"));
    Ok(())
}

#[test]
fn an_at_sign_is_head(rt: HostRuntime) -> Result<(), Error> {
    let alloc = rt.alloc();
    let transport = server(alloc, &[GREETING, HEAD, HEAD, HEAD])?;
    let mut session = Session::open(alloc, transport, "first/1.0", Silent)?;
    let texts: &[&[u8]] = &[b"@", b"+@:refs/heads/here", b"@:refs/heads/here"];
    for text in texts {
        let mut request = Request::new(alloc);
        request.add_refspec(text)?;
        let map = session.map(&request)?;
        assert_eq!(rt; map.mappings.len(), 1);
        let name = map.mappings[0].remote.as_name();
        assert!(rt; matches!(name, Some(name) if name.as_bytes() == b"HEAD".as_slice()));
    }
    let others: &[&[u8]] = &[b"@{1}", b"refs/heads/x:@", b"+^@"];
    for text in others {
        let mut request = Request::new(alloc);
        let added = unless_memory(request.add_refspec(text))?;
        assert!(rt; matches!(added, Err(Error::Refspec { .. })));
    }
    Ok(())
}

#[test]
fn ids_alone_list_no_refs(rt: HostRuntime) -> Result<(), Error> {
    let alloc = rt.alloc();
    let mut request = Request::new(alloc);
    request.add_refspec(ID)?;
    request.tags = Tags::None;
    let asked = written(alloc, &[GREETING, PACK], &request)?;
    assert!(rt; has(&asked, b"want 7257effbd41e1233eaae5744e614c5c728e3c979"));
    assert!(rt; !has(&asked, b"ls-refs"));
    request.add_refspec(b"refs/heads/main")?;
    let asked = written(alloc, &[GREETING, REFS, PACK], &request)?;
    assert!(rt; has(&asked, b"ls-refs"));
    Ok(())
}

#[test]
fn refs_are_requested_by_their_ids(rt: HostRuntime) -> Result<(), Error> {
    let alloc = rt.alloc();
    let request = branches(alloc)?;
    let asked = written(alloc, &[BY_NAME, REFS, PACK], &request)?;
    assert!(rt; has(&asked, b"want 7257effbd41e1233eaae5744e614c5c728e3c979"));
    assert!(rt; !has(&asked, b"want-ref"));
    Ok(())
}

#[test]
fn a_thin_pack_is_requested_if_it_is_wanted(rt: HostRuntime) -> Result<(), Error> {
    let alloc = rt.alloc();
    let mut request = branches(alloc)?;
    for answers in [&[GREETING, REFS, PACK] as &[&[&[u8]]], &[THIN, OLD_PACK]] {
        request.wants_thin_pack = true;
        let asked = written(alloc, answers, &request)?;
        assert!(rt; has(&asked, b"thin-pack"));
        request.wants_thin_pack = false;
        let asked = written(alloc, answers, &request)?;
        assert!(rt; has(&asked, b"ofs-delta"));
        assert!(rt; !has(&asked, b"thin-pack"));
    }
    Ok(())
}
