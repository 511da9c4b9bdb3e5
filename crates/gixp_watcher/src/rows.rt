//! The rows of a store.
use bstr::BString;
use gix_protocol::ObjectId;
use gix_protocol::fetch::negotiate::{CommitData, ObjectKind};

/// One object.
#[derive(Debug, Drop)]
pub struct ObjectRow {
    /// Its id.
    pub id: ObjectId,
    /// Its type.
    pub kind: ObjectKind,
    /// Its commit data, if it is a commit.
    pub commit: Option<CommitData>,
}

/// A ref that holds an id.
#[derive(Debug, Drop)]
pub struct RefRow {
    /// Its full name.
    pub name: BString,
    /// The id that it holds.
    pub id: ObjectId,
    /// That id peeled: the object after all tags.
    pub peeled: ObjectId,
}
