//! A whole fetch over two streams: the pack goes into a writer.
use gix_protocol::client::{Error, Fetched, Repository, Request, Session, Silent, over_streams};
use gix_protocol::fetch::negotiate::{StoredObjects, StoredRefs};
use gix_protocol::fetch::{CopyPack, RefMap};
use std::alloc::Global;
use std::io::{Read, Write};

/// Fetches the objects of a request from the server at two streams. Writes the pack into a writer, and doesn't flush it.
///
/// After an error the writer may have a part of a pack: throw it away, and keep the boundary and the refs.
pub fn fetch_from<R: Read + Drop, W: Write + Drop, F: Write>(
    alloc: Global,
    from: R,
    to: W,
    repository: Repository<'_, StoredObjects, StoredRefs>,
    request: &Request,
    pack: &mut CopyPack<F>,
) -> Result<(RefMap, Fetched), Error> {
    let transport = over_streams(alloc, from, to)?;
    let mut session = Session::open(alloc, transport, "first/1.0", Silent)?;
    let map = session.map(request)?;
    let fetched = session.fetch(&map, repository, request, pack)?;
    session.close()?;
    Ok((map, fetched))
}
