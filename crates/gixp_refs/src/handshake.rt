//! The refs of a server.
ghost use Rattle.std.specs.Prelude.{◌≡◌};
ghost use Rattle.std.specs.Option.{option_copied};
ghost use Rattle.bstr.specs.BStr.{bstr_bytes};

use bstr::{BStr, BString};
use gixp_hash::ObjectId;

pub mod refs;

/// A ref of the server. Its name is a full name, such as `refs/heads/main` (gitprotocol-v2, "ls-refs";
/// gitprotocol-pack, "Reference Discovery").
#[derive(Debug, Drop, Clone, PartialEq, Eq, PartialOrd, Ord, Hash)]
pub enum Ref {
    /// A ref that points to a tag object.
    Peeled {
        full_ref_name: BString,
        /// The tag object.
        tag: ObjectId,
        /// The object that the tag points to.
        object: ObjectId,
    },
    /// A ref that points to an object that is not a tag.
    Direct {
        full_ref_name: BString,
        object: ObjectId,
    },
    /// A symbolic ref, such as `HEAD`.
    Symbolic {
        full_ref_name: BString,
        /// The full name of the ref that it points to.
        target: BString,
        /// The tag object that the other ref points to, if it points to one.
        tag: Option<ObjectId>,
        /// The object that the other ref points to, peeled if that is a tag.
        object: ObjectId,
    },
    /// A symbolic ref that points to a ref which doesn't exist yet, such as `HEAD` of a new repository.
    Unborn {
        full_ref_name: BString,
        /// The full name of the ref that it points to.
        target: BString,
    },
}

impl Ref {
    ghost use Rattle.gixp_refs.specs.Ref.{unpacked_name, unpacked_target, unpacked_peeled};

    /// The full name of the ref.
    pub fn name(&self) -> BStr<'_>
        ensures { bstr_bytes result ≡ unpacked_name self.now }
    {
        match self {
            Ref::Peeled { full_ref_name, .. }
            | Ref::Direct { full_ref_name, .. }
            | Ref::Symbolic { full_ref_name, .. }
            | Ref::Unborn { full_ref_name, .. } => full_ref_name.as_bstr(),
        }
    }

    /// The name of the ref, the object that it points to, and the object that this one peels to if it is a tag.
    ///
    /// An unborn ref has neither object.
    pub fn unpack(&self) -> (BStr<'_>, Option<&ObjectId>, Option<&ObjectId>)
        ensures name { bstr_bytes result.0 ≡ unpacked_name self.now }
        ensures target { option_copied result.1 ≡ unpacked_target self.now }
        ensures peeled { option_copied result.2 ≡ unpacked_peeled self.now }
    {
        match self {
            Ref::Direct {
                full_ref_name,
                object,
            } => (full_ref_name.as_bstr(), Some(object), None),
            Ref::Peeled {
                full_ref_name,
                tag,
                object,
            } => (full_ref_name.as_bstr(), Some(tag), Some(object)),
            Ref::Symbolic {
                full_ref_name,
                tag: None,
                object,
                ..
            } => (full_ref_name.as_bstr(), Some(object), None),
            Ref::Symbolic {
                full_ref_name,
                tag: Some(tag),
                object,
                ..
            } => (full_ref_name.as_bstr(), Some(tag), Some(object)),
            Ref::Unborn { full_ref_name, .. } => (full_ref_name.as_bstr(), None, None),
        }
    }
}
