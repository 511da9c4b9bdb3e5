//! A small repository in memory.
use bstr::BString;
use gixp_doubles::MemoryObjects;
pub(crate) use gixp_doubles::numbered_id as id;
use gixp_graph::CommitData;
use gixp_negotiate::negotiate::Error;
use gixp_packetline::{LineReader, Protocol};
use gixp_refmap::refmap::{Mapping, RefMap, Source, SpecIndex};
use gixp_refs::handshake::Ref;
use gixp_response::fetch::Response;
use std::alloc::{AllocError, Global};
use std::test::Fail;

/// The commits 1 to 4, each with the next one as its parent, the newest first.
pub(crate) fn chain(alloc: Global) -> Result<MemoryObjects, AllocError> {
    let mut objects = MemoryObjects::new(alloc);
    for number in 1..5u8 {
        let mut parents = Vec::new(alloc);
        if number < 4 {
            parents.push(id(number + 1))?;
        }
        let time = 10 - i64::from(number);
        objects.add_commit(id(number), CommitData { time, parents })?;
    }
    Ok(objects)
}

/// A ref map with refs of the server that have these commits.
pub(crate) fn ref_map(alloc: Global, numbers: &[u8]) -> Result<RefMap, AllocError> {
    let mut map = RefMap::empty(alloc);
    for number in numbers {
        let found = Ref::Direct {
            full_ref_name: BString::from_slice(alloc, b"refs/heads/main")?,
            object: id(*number),
        };
        map.mappings.push(Mapping {
            remote: Source::Ref(found),
            local: None,
            spec_index: SpecIndex::ExplicitInRemote(0),
        })?;
    }
    Ok(map)
}

/// A response of version 2 to a client that isn't done.
pub(crate) fn answer(alloc: Global, text: &[u8]) -> Result<Response, Fail> {
    let mut bytes = text;
    let mut reader = LineReader::new(alloc, &mut bytes)?;
    Ok(Response::from_line_reader(alloc, Protocol::V2, &mut reader, false, true)?)
}

/// Returns an error if an allocation failed in a call.
pub(crate) fn had_memory<T, E>(answer: &Result<T, Error<E>>) -> Result<(), AllocError> {
    match answer {
        Err(Error::Memory) => Err(AllocError),
        _ => Ok(()),
    }
}
