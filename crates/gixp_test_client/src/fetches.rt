//! Requests and fetches that the tests share.
use gixp_client::{Error, Fetched, Listener, Repository, Request, Session};
use gixp_fetch::consume::CopyPack;
use gixp_graph::{Find, RefStore};
use gixp_memory::{StoredObjects, StoredRefs};
use gixp_progress::NestedProgress;
use gixp_transport::Transport;
use std::alloc::Global;

/// Separates allocation failures, which end a test, from other errors.
pub(crate) fn unless_memory<C>(received: Result<C, Error>) -> Result<Result<C, Error>, Error> {
    match received {
        Ok(value) => Ok(Ok(value)),
        Err(Error::Memory) => Err(Error::Memory),
        Err(e) => Ok(Err(e)),
    }
}

/// A request for all branches.
pub(crate) fn branches(alloc: Global) -> Result<Request, Error> {
    let mut request = Request::new(alloc);
    request.add_refspec(b"refs/heads/*:refs/remotes/origin/*")?;
    Ok(request)
}

/// Fetches what a request asks for into a repository without a shallow boundary. Returns the pack, too.
pub(crate) fn fetch_into<
    T: Transport + Drop,
    L: Listener + Drop,
    P: NestedProgress + Drop,
    F: Find,
    R: RefStore,
>(
    alloc: Global,
    session: &mut Session<T, L, P>,
    request: &Request,
    objects: &F,
    refs: &mut R,
) -> Result<(Fetched, Vec<u8>), Error>
where
    P::SubProgress: Drop,
{
    let map = session.map(request)?;
    let repository = Repository {
        objects,
        refs,
        boundary: &[],
    };
    let mut pack = CopyPack {
        writer: Vec::new(alloc),
    };
    let fetched = session.fetch(&map, repository, request, &mut pack)?;
    Ok((fetched, pack.writer))
}

/// The same into an empty repository.
pub(crate) fn fetch<T: Transport + Drop, L: Listener + Drop, P: NestedProgress + Drop>(
    alloc: Global,
    session: &mut Session<T, L, P>,
    request: &Request,
) -> Result<(Fetched, Vec<u8>), Error>
where
    P::SubProgress: Drop,
{
    let objects = StoredObjects::new(alloc);
    let mut refs = StoredRefs::new(alloc);
    fetch_into(alloc, session, request, &objects, &mut refs)
}
