//! Fetching a pack: requests, responses, ref maps, the negotiation, and the whole fetch.
pub mod negotiate;

pub use gixp_fetch::consume::{ConsumePack, CopyError, CopyPack, ReadToEnd};
pub use gixp_fetch::error::Error;
pub use gixp_fetch::fetch::{fetch, fetch_with_features};
pub use gixp_fetch::options::{Context, NegotiateOutcome, Options, Outcome};
pub use gixp_fetch::{RemoteText, WithSidebands, laws};
pub use gixp_negotiate::negotiate::Negotiate;
pub use gixp_negotiate::negotiate::negotiation::NegotiateContext;
pub use gixp_progress::fetch::ProgressId;
pub use gixp_refmap::fetch::Tags;
pub use gixp_refmap::{RefMap, refmap};
pub use gixp_requests::fetch::{Arguments, arguments};
pub use gixp_response::fetch::{Response, response};
pub use gixp_shallow::{
    Shallow, ShallowError, ShallowFile, ShallowMemory, ShallowStore, shallow_ids, shallow_text,
};
pub use gixp_updates::refs;
