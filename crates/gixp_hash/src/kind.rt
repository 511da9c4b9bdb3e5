//! The hash functions that name objects.
ghost use Rattle.std.specs.Prelude.{◌≡◌, ◌↔◌, IsSome, codes, replicate};

use crate::object_id::ObjectId;

/// A hash function that names objects (gitprotocol-v2, capability `object-format`).
#[derive(Clone, Copy, Debug, PartialEq, Eq)]
pub enum Kind {
    /// SHA-1, with ids of 20 bytes.
    Sha1,
}

impl Kind {
    /// The null id of this hash function, which names no object.
    pub fn null(&self) -> ObjectId
        ensures { result.bytes ≡ replicate 20 0 }
    {
        ObjectId::null()
    }

    /// The hash function of this name. `sha1` is the only one; any other name returns `None`.
    pub fn from_name(name: &[u8]) -> Option<Kind>
        ensures { IsSome result ↔ (name.now ≡ codes "sha1") }
    {
        if name == b"sha1".as_slice() {
            Some(Kind::Sha1)
        } else {
            None
        }
    }
}
