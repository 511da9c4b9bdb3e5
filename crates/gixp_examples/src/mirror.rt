//! A mirror of a server's refs: which refs to create, update and delete.
use gix_protocol::client::{Error, LocalChange, Request, Session, Silent, local_changes};
use gix_protocol::fetch::Tags;
use gix_protocol::fetch::negotiate::StoredRefs;
use gix_protocol::transport::Transport;
use std::alloc::Global;

/// The changes of a mirror's refs: first of those that the server has, in its order, then the removals of those that it no longer
/// has. A ref whose name isn't safe is left out, and the mirror keeps its own.
///
/// It fetches nothing: a `fetch` with the same map transfers the objects. If a call fails, there is no result.
pub fn plan_mirror<T: Transport + Drop>(
    alloc: Global,
    transport: T,
    locals: &StoredRefs,
) -> Result<Vec<LocalChange>, Error> {
    let mut request = Request::new(alloc);
    request.add_refspec(b"+refs/*:refs/*")?;
    request.tags = Tags::None;
    let mut session = Session::open(alloc, transport, "mirror/1.0", Silent)?;
    let map = session.map(&request)?;
    session.close()?;
    Ok(local_changes(alloc, &map, locals)?)
}
