//! Shallow updates of a handshake that a client adds to a response.
use gixp_hash::ObjectId;
use gixp_packetline::{LineReader, Protocol};
use gixp_response::fetch::Response;
use gixp_response::fetch::response::Error;
use gixp_shallow::ShallowUpdate;
use std::alloc::Global;
use std::test::Fail;

const A: &[u8] = b"0123456789012345678901234567890123456789";

const B: &[u8] = b"bbbbbbbbbbbbbbbbbbbbbbbbbbbbbbbbbbbbbbbb";

// A response with one shallow line.
fn shallow_answer(alloc: Global) -> Result<Response, Error> {
    let mut stream: &[u8] = b"0035shallow 0123456789012345678901234567890123456789\n";
    let mut reader = LineReader::new(alloc, &mut stream)?;
    Response::from_line_reader(alloc, Protocol::V1, &mut reader, true, true)
}

// Whether a copy of that response has both updates after the second is added.
fn has_both(alloc: Global, both: &[ShallowUpdate; 2]) -> Result<bool, Error> {
    let mut answer = shallow_answer(alloc)?;
    answer.append_v1_shallow_updates(Some(Vec::from_slice(alloc, &both[1..])?))?;
    let copy = answer.clone()?;
    Ok(copy.shallow_updates() == both.as_slice() && !copy.has_pack())
}

#[test]
fn adds_updates_of_the_handshake(rt: HostRuntime) -> Result<(), Fail> {
    let both = [
        ShallowUpdate::Shallow(ObjectId::from_hex(A)?),
        ShallowUpdate::Unshallow(ObjectId::from_hex(B)?),
    ];
    assert!(rt; has_both(rt.alloc(), &both)?);
    Ok(())
}
