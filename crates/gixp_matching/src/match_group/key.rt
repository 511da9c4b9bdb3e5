//! The keys by which mappings are compared, ordered by bytes.
ghost use Rattle.std.specs.Prelude.{◌≡◌, IfOk};
ghost use Rattle.std.specs.Option.{option_map};
ghost use Rattle.bstr.specs.Owned.{bstring_bytes};
ghost use Rattle.gixp_matching.specs.Apart.{parts, key_parts};
ghost use Rattle.gixp_matching.specs.MatchGroup.{source_of, mapped_of, key_bytes, key_source};

use crate::match_group::{Mapping, SourceRef};
use bstr::BString;
use std::alloc::AllocError;

/// A value with the parts of a mapping: a source, a local name and a refspec.
pub trait AsMapping {
    ghost use Rattle.gixp_matching.specs.Mappings.{Mapped};

    ghost mapped: { Self → Mapped };

    /// The source and the local name, as a key.
    fn key(&self) -> Key<'_>
        ensures { key_parts result ≡ parts (mapped self.now) };

    /// The index of the refspec in its group, from 0.
    fn spec_index(&self) -> usize
        ensures { result ≡ (mapped self.now).spec };

    /// A copy of the source.
    fn source(&self) -> Result<SourceRef, AllocError>
        ensures { IfOk result (λ source. source_of source ≡ (mapped self.now).source) };
}

impl AsMapping for Mapping {
    ghost mapped = { mapped_of };

    fn key(&self) -> Key<'_> {
        (source_key(&self.lhs), local_key(&self.rhs))
    }

    fn spec_index(&self) -> usize {
        self.spec_index
    }

    fn source(&self) -> Result<SourceRef, AllocError> {
        self.lhs.clone()
    }
}

/// The bytes of a name or of an id.
#[derive(Clone, Copy, PartialEq, Eq, PartialOrd, Ord)]
pub struct KeyBytes<'a> {
    pub bytes: &'a [u8],
}

/// The source of a mapping, as a key.
#[derive(Clone, Copy, PartialEq, Eq, PartialOrd, Ord)]
pub enum KeySource<'a> {
    /// The full name of a ref.
    FullName(KeyBytes<'a>),
    /// The bytes of an id.
    ObjectId(KeyBytes<'a>),
}

/// The source and the local name of a mapping.
pub type Key<'a> = (KeySource<'a>, Option<KeyBytes<'a>>);

/// The bytes of a name.
pub(crate) fn name_key(name: &BString) -> KeyBytes<'_>
    ensures { key_bytes result ≡ bstring_bytes name.now }
{
    KeyBytes {
        bytes: name.as_bytes(),
    }
}

pub(crate) fn source_key(source: &SourceRef) -> KeySource<'_>
    ensures { key_source result ≡ source_of source.now }
{
    match source {
        SourceRef::FullName(name) => KeySource::FullName(name_key(name)),
        SourceRef::ObjectId(id) => KeySource::ObjectId(KeyBytes {
            bytes: id.as_bytes(),
        }),
    }
}

/// The local name, where the mapping has one.
pub(crate) fn local_key(local: &Option<BString>) -> Option<KeyBytes<'_>>
    ensures { option_map key_bytes result ≡ option_map bstring_bytes local.now }
{
    match local {
        None => None,
        Some(name) => Some(name_key(name)),
    }
}
