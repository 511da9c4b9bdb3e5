//! The parts of a mapping that matching reads.
ghost use Rattle.std.specs.Prelude.{◌≡◌, IfOk};
ghost use Rattle.std.specs.Option.{option_map};
ghost use Rattle.bstr.specs.Owned.{bstring_bytes};
ghost use Rattle.gixp_refs.specs.Ref.{unpacked_name};
ghost use Rattle.gixp_matching.specs.MatchGroup.{key_bytes, key_source};
ghost use Rattle.gixp_refmap.specs.Made.{taken_from, place_number};

use crate::refmap::mapping::{Mapping, Source, SpecIndex};
use bstr::BString;
use gixp_matching::match_group::key::{Key, KeyBytes, KeySource};
use gixp_matching::match_group::{AsMapping, SourceRef};
use gixp_refs::handshake::Ref;
use std::alloc::AllocError;

impl AsMapping for Mapping {
    ghost use Rattle.gixp_refmap.specs.Made.{matched};

    ghost mapped = { matched };

    fn key(&self) -> Key<'_> {
        (source_key(&self.remote), local_key(&self.local))
    }

    fn spec_index(&self) -> usize {
        number(self.spec_index)
    }

    fn source(&self) -> Result<SourceRef, AllocError> {
        match &self.remote {
            Source::ObjectId(id) => Ok(SourceRef::ObjectId(*id)),
            Source::Ref(found) => Ok(SourceRef::FullName(name_of(found)?)),
        }
    }
}

fn source_key(source: &Source) -> KeySource<'_>
    ensures { key_source result ≡ taken_from source.now }
{
    match source {
        Source::ObjectId(id) => KeySource::ObjectId(KeyBytes {
            bytes: id.as_bytes(),
        }),
        Source::Ref(found) => KeySource::FullName(KeyBytes {
            bytes: found.name().as_bytes(),
        }),
    }
}

fn local_key(local: &Option<BString>) -> Option<KeyBytes<'_>>
    ensures { option_map key_bytes result ≡ option_map bstring_bytes local.now }
{
    match local {
        None => None,
        Some(name) => Some(KeyBytes {
            bytes: name.as_bytes(),
        }),
    }
}

fn name_of(found: &Ref) -> Result<BString, AllocError>
    ensures { IfOk result (λ name. bstring_bytes name ≡ unpacked_name found.now) }
{
    match found {
        Ref::Peeled { full_ref_name, .. } => full_ref_name.clone(),
        Ref::Direct { full_ref_name, .. } => full_ref_name.clone(),
        Ref::Symbolic { full_ref_name, .. } => full_ref_name.clone(),
        Ref::Unborn { full_ref_name, .. } => full_ref_name.clone(),
    }
}

// The number in the index of a refspec.
pub(crate) fn number(place: SpecIndex) -> usize
    ensures { result ≡ place_number place }
{
    match place {
        SpecIndex::ExplicitInRemote(index) => index,
        SpecIndex::Implicit(index) => index,
    }
}
