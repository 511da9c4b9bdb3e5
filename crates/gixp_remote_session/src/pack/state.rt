//! The state of a pack.
ghost use Rattle.std.specs.Prelude.{◌≡◌};
ghost use Rattle.gixp_remote_session.specs.Packs.{has_objects, has_boundary, unpacked_state, indexed_state};

use gix_protocol::transport::ObjectId;

/// The state of a pack.
#[derive(Clone, Copy, Debug, PartialEq, Eq)]
pub(crate) enum PackState {
    /// No pack was received.
    Unbegun,
    /// A pack began. It isn't in the quarantine yet.
    Begun,
    /// It has a bad header.
    Unreadable,
    /// It is indexed.
    Indexed(IndexedPack),
    /// git couldn't be started for it.
    Unstarted,
    /// git exited before it had read the whole pack.
    Refused,
    /// Its objects are unpacked in the quarantine. The value says whether the server sent a
    /// boundary.
    Unpacked(bool),
    /// It has no objects. The value says whether the server sent a boundary.
    Empty(bool),
}

/// A pack in the quarantine.
#[derive(Clone, Copy, Debug, PartialEq, Eq)]
pub(crate) struct IndexedPack {
    /// Its hash.
    pub(crate) hash: ObjectId,
    /// Whether the server sent a boundary.
    pub(crate) has_boundary: bool,
    /// The exit status of git.
    pub(crate) status: u32,
}

impl PackState {
    /// Whether objects were received, which are only in the quarantine.
    pub(crate) fn has_objects(self) -> bool
        ensures { result ≡ has_objects self }
    {
        match self {
            PackState::Indexed(_) | PackState::Unpacked(_) => true,
            PackState::Unbegun
            | PackState::Begun
            | PackState::Unreadable
            | PackState::Unstarted
            | PackState::Refused
            | PackState::Empty(_) => false,
        }
    }

    /// Whether the server sent a boundary before the pack.
    pub(crate) fn has_boundary(self) -> bool
        ensures { result ≡ has_boundary self }
    {
        match self {
            PackState::Indexed(indexed) => indexed.has_boundary,
            PackState::Unpacked(has_boundary) | PackState::Empty(has_boundary) => has_boundary,
            PackState::Unbegun
            | PackState::Begun
            | PackState::Unreadable
            | PackState::Unstarted
            | PackState::Refused => false,
        }
    }
}

/// The state of a pack that git unpacked.
pub(crate) fn unpacked_state(count: u32, has_boundary: bool, status: u32) -> Option<PackState>
    ensures { result ≡ unpacked_state count has_boundary status }
{
    if status != 0 {
        None
    } else if count == 0 {
        Some(PackState::Empty(has_boundary))
    } else {
        Some(PackState::Unpacked(has_boundary))
    }
}

/// The state of a pack that git indexed.
pub(crate) fn indexed_state(
    count: u32,
    hash: ObjectId,
    has_boundary: bool,
    status: u32,
) -> PackState
    ensures { result ≡ indexed_state count hash has_boundary status }
{
    if count == 0 {
        PackState::Empty(has_boundary)
    } else {
        PackState::Indexed(IndexedPack {
            hash,
            has_boundary,
            status,
        })
    }
}
