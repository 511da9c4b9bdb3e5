//! A reference advertisement of version 1 with all kinds of lines. Reading each of them allocates.
use bstr::BString;
use gixp_capabilities::Capabilities;
use gixp_hash::ObjectId;
use gixp_packetline::{ExtendedBufRead, LineReader, Protocol};
use gixp_refs::handshake::Ref;
use gixp_refs::handshake::refs::from_v1_refs_received_as_part_of_handshake_and_capabilities;
use gixp_refs::handshake::refs::parse::Error;
use gixp_shallow::ShallowUpdate;
use std::alloc::{AllocError, Global};
use std::test::Fail;

const CAPABILITIES: &[u8] = b"\0symref=HEAD:refs/heads/main symref=X:refs/heads/y";

const LINES: &[u8] = b"00320123456789012345678901234567890123456789 HEAD\n\
    003d0123456789012345678901234567890123456789 refs/heads/main\n\
    003abbbbbbbbbbbbbbbbbbbbbbbbbbbbbbbbbbbbbbbb refs/tags/v1\n\
    003dcccccccccccccccccccccccccccccccccccccccc refs/tags/v1^{}\n\
    0035shallow cccccccccccccccccccccccccccccccccccccccc\n0000";

const TAG: ObjectId = ObjectId { bytes: [0xbb; 20] };

const PEELED: ObjectId = ObjectId { bytes: [0xcc; 20] };

// The refs of these lines: a tag, and refs with this object.
fn wanted(alloc: Global, object: ObjectId) -> Result<[Ref; 3], AllocError> {
    let main = b"refs/heads/main";
    Ok([
        Ref::Symbolic {
            full_ref_name: BString::from_slice(alloc, b"HEAD")?,
            target: BString::from_slice(alloc, main)?,
            tag: None,
            object,
        },
        Ref::Direct {
            full_ref_name: BString::from_slice(alloc, main)?,
            object,
        },
        Ref::Peeled {
            full_ref_name: BString::from_slice(alloc, b"refs/tags/v1")?,
            tag: TAG,
            object: PEELED,
        },
    ])
}

// Whether reading these lines returns these refs and one shallow update.
fn has_refs_and_update(
    alloc: Global,
    capabilities: &Capabilities,
    refs: &[Ref; 3],
) -> Result<bool, Error> {
    let mut stream = LINES;
    let mut reader = LineReader::new(alloc, &mut stream)?;
    reader.reset(Protocol::V1);
    let (found, updates) = from_v1_refs_received_as_part_of_handshake_and_capabilities(
        alloc,
        &mut reader,
        capabilities,
    )?;
    let update = [ShallowUpdate::Shallow(PEELED)];
    Ok(found.as_slice() == refs.as_slice() && updates.as_slice() == update.as_slice())
}

#[test]
fn reads_peeled_and_shallow_lines(rt: HostRuntime) -> Result<(), Fail> {
    let a = rt.alloc();
    let (capabilities, _) = Capabilities::from_bytes(a, CAPABILITIES)?;
    let object = ObjectId::from_hex(b"0123456789012345678901234567890123456789")?;
    let refs = wanted(a, object)?;
    assert!(rt; has_refs_and_update(a, &capabilities, &refs)?);
    Ok(())
}
