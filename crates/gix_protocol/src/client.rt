//! A client's session with a server: the handshake, its refs, ref maps and fetches. In gitoxide this is part of gix:
//! `Remote::connect`, `prepare_fetch` and `receive`.
pub use gixp_client::{
    Boundary, ClientName, Conflict, Error, ErrorClass, Fetched, Filtered, FilteredNegotiation,
    Kept, LineObserver, ListedRefs, Listener, LocalChange, MOST_HAVES, Messages, PackError,
    RemoteLines, Repository, Request, ServerText, Session, SessionFetch, SessionNegotiation,
    Silent, State, Tap, UnshallowCheck, UriProtocols, Windowed, fetch_once, fetch_once_with, laws,
    local_changes, over_streams,
};
