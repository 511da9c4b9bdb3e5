//! The local names of a server's refs.
use gix_protocol::client::{Error, Request, Session, Silent};
use gix_protocol::fetch::RefMap;
use gix_protocol::transport::Transport;
use std::alloc::Global;

/// Performs the handshake, lists the refs under `refs/heads/`, and maps them.
pub fn mapped_branches<T: Transport + Drop>(alloc: Global, transport: T) -> Result<RefMap, Error> {
    let mut request = Request::new(alloc);
    request.add_refspec(b"refs/heads/*:refs/remotes/origin/*")?;
    let mut session = Session::open(alloc, transport, "first/1.0", Silent)?;
    session.map(&request)
}
