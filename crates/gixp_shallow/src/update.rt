//! An update of the boundary.
use gixp_hash::ObjectId;

/// An update of the client's shallow boundary (gitprotocol-pack, "Packfile Negotiation"; gitprotocol-v2, "fetch", `shallow-info`).
#[derive(Clone, Copy, Debug, PartialEq, Eq, PartialOrd, Ord, Hash)]
pub enum ShallowUpdate {
    /// The commit is shallow: its parents are not sent.
    Shallow(ObjectId),
    /// The commit is no longer shallow: its parents are sent.
    Unshallow(ObjectId),
}
