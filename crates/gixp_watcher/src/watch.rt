//! Two fetches in one session.
use crate::listener::Counted;
use crate::objects::SortedObjects;
use crate::pack::LimitedPack;
use crate::refs::SortedRefs;
use gix_protocol::client::{Error, Fetched, Repository, Request, Session};
use gix_protocol::fetch::RefMap;
use gix_protocol::transport::Transport;
use std::alloc::Global;
use std::io::Write;

/// The results of two fetches.
#[derive(Drop)]
pub struct Fetches {
    /// The map and the result of the first.
    pub first: (RefMap, Fetched),
    /// The map and the result of the second.
    pub second: (RefMap, Fetched),
    /// The number of messages of both.
    pub messages: Counted,
}

/// Runs two fetches, one after the other, in one session of protocol version 2. The repository isn't updated in between, so the
/// second fetch may transfer objects of the first again.
///
/// If the first fetch fails, the second isn't started. A writer may then have a part of a pack, which the caller must discard.
pub fn fetch_twice<T: Transport + Drop, W: Write>(
    alloc: Global,
    transport: T,
    objects: &SortedObjects,
    refs: &mut SortedRefs,
    requests: (&Request, &Request),
    packs: (&mut LimitedPack<W>, &mut LimitedPack<W>),
) -> Result<Fetches, Error> {
    let mut session = Session::open(alloc, transport, "watcher/1.0", Counted::new())?;
    let map = session.map(requests.0)?;
    let repository = Repository {
        objects,
        refs: &mut *refs,
        boundary: &[],
    };
    let fetched = session.fetch(&map, repository, requests.0, packs.0)?;
    let first = (map, fetched);
    let map = session.map(requests.1)?;
    let repository = Repository {
        objects,
        refs: &mut *refs,
        boundary: &[],
    };
    let fetched = session.fetch(&map, repository, requests.1, packs.1)?;
    let messages = *session.listener();
    session.close()?;
    Ok(Fetches {
        first,
        second: (map, fetched),
        messages,
    })
}
