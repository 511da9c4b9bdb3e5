//! The local name of a ref that a refspec matches.
ghost use Rattle.std.specs.Prelude.{ℕ, ◌≡◌, List, IfOk};
ghost use Rattle.std.specs.Option.{option_copied, option_map};
ghost use Rattle.bstr.specs.Owned.{bstring_bytes};
ghost use Rattle.gixp_refspec.specs.Matching.{local_in, full_local};
ghost use Rattle.gixp_refspec.specs.RefSpec.{value_of};
ghost use Rattle.gixp_matching.specs.Mappings.{FullName, ObjectId as IdOf};
ghost use Rattle.gixp_matching.specs.Places.{local_for};

use bstr::BString;
use gixp_refspec::needle::{Needle, around_star};
use gixp_refspec::spec::RefSpecRef;
use gixp_refspec::text::joined;
use std::alloc::{AllocError, Global};

// The destination of a refspec without a pattern, as the full name of a ref.
#[tactic(auto, unfolding(gixp_refspec::specs::Matching::full_local))]
fn full_local(alloc: Global, destination: &[u8]) -> Result<BString, AllocError>
    ensures { IfOk result (λ name. bstring_bytes name ≡ full_local destination.now) }
{
    if destination.starts_with(b"refs/") {
        BString::from_slice(alloc, destination)
    } else if destination.starts_with(b"heads/")
        || destination.starts_with(b"tags/")
        || destination.starts_with(b"remotes/")
    {
        joined(alloc, b"refs/", b"", destination)
    } else {
        joined(alloc, b"refs/heads/", b"", destination)
    }
}

// The local name that a destination makes of the middle of a match.
#[inline(always)]
#[tactic(auto, unfolding(gixp_refspec::specs::Matching::local_in))]
fn local_in(alloc: Global, middle: &[u8], destination: &[u8]) -> Result<BString, AllocError>
    ensures { IfOk result (λ name. bstring_bytes name ≡ local_in middle.now destination.now) }
{
    match around_star(destination) {
        Some((front, back)) => joined(alloc, front, middle, back),
        None => full_local(alloc, destination),
    }
}

/// The local name. None without a destination.
#[inline(always)]
pub(crate) fn local_of(
    alloc: Global,
    middle: &[u8],
    destination: Option<&[u8]>,
) -> Result<Option<BString>, AllocError>
    ensures { IfOk result (λ name. option_map bstring_bytes name ≡ option_map (local_in middle.now) (option_copied destination.entry)) }
{
    match destination {
        None => Ok(None),
        Some(destination) => Ok(Some(local_in(alloc, middle, destination)?)),
    }
}

/// The local name that a refspec makes of the ref with this full name. None where it doesn't match or has no destination.
#[inline(always)]
pub(crate) fn local_of_name(
    alloc: Global,
    spec: Option<&RefSpecRef<'_>>,
    full_ref_name: &[u8],
) -> Result<Option<BString>, AllocError>
    ensures { IfOk result (λ local. option_map bstring_bytes local
        ≡ local_for (option_map value_of (option_copied spec.entry)) (FullName full_ref_name.now)) }
{
    let Some(spec) = spec else {
        return Ok(None);
    };
    match Needle::new(spec.source).middle(full_ref_name) {
        None => Ok(None),
        Some(middle) => local_of(alloc, middle, spec.destination),
    }
}

/// The local name that a refspec makes of the id that it names. None without a destination.
pub(crate) fn local_of_id(
    alloc: Global,
    spec: Option<&RefSpecRef<'_>>,
) -> Result<Option<BString>, AllocError>
    ensures { IfOk result (λ local. (id : List ℕ) → option_map bstring_bytes local
        ≡ local_for (option_map value_of (option_copied spec.entry)) (IdOf id)) }
{
    match spec {
        None => Ok(None),
        Some(spec) => local_of(alloc, b"", spec.destination),
    }
}
