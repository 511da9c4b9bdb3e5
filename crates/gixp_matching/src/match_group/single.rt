//! The single refspec of a group that maps refs. It is prepared once, and then compared with each ref.
ghost use Rattle.std.specs.Prelude.{ℕ, List, ◌≡◌, ◌<◌, false, length, IfOk, IfSome};
ghost use Rattle.std.specs.List.{list_any, position};
ghost use Rattle.std.specs.Option.{option_map};
ghost use Rattle.bstr.specs.Owned.{bstring_bytes};
ghost use Rattle.gixp_refspec.specs.Spec.{Spec, is_negative};
ghost use Rattle.gixp_matching.specs.Only.{is_positive, IsPlaceOfOnly};
ghost use Rattle.gixp_matching.specs.Rows.{IsPrepared};

use crate::match_group::local::local_of;
use crate::match_group::negatives::{Prepared, is_excluded};
use bstr::BString;
use gixp_refspec::needle::Needle;
use gixp_refspec::spec::{RefSpecRef, is_negative};
use std::alloc::{AllocError, Global};

/// The single refspec of a group that maps refs.
#[derive(Drop)]
pub struct Single<'s> {
    pub(crate) spec_index: usize,
    pub(crate) spec: &'s RefSpecRef<'s>,
    pub(crate) needle: Needle<'s>,
    pub(crate) prepared: Prepared<'s>,
    ghost positive: { is_negative spec.now.sign ≡ false },
    ghost looked_at: { IsPrepared prepared },
}

// The index of the first positive refspec.
fn first_positive(specs: &[RefSpecRef<'_>]) -> Option<usize>
    ensures place { result ≡ position is_positive specs.now }
    ensures within { IfSome result (λ i. i < length specs.now) }
{
    specs.iter().position(|spec| !is_negative(spec.sign))
}

// Whether a refspec is positive.
fn has_positive(specs: &[RefSpecRef<'_>]) -> bool
    ensures { result ≡ list_any is_positive specs.now }
{
    specs.iter().any(|spec| !is_negative(spec.sign))
}

/// The index of the only positive refspec. None where none or several are positive.
pub(crate) fn only_positive(specs: &[RefSpecRef<'_>]) -> Option<usize>
    ensures { IsPlaceOfOnly specs.now result }
{
    let first = first_positive(specs)?;
    if has_positive(&specs[first + 1..]) {
        return None;
    }
    Some(first)
}

impl Single<'_> {
    ghost use Rattle.gixp_matching.specs.Single.{IsSingle, mapped_by, single_index, single_pair};

    /// The index of the refspec in its group, from 0.
    pub fn spec_index(&self) -> usize
        ensures { result ≡ single_index self.now }
    {
        self.spec_index
    }

    /// The local name of the ref with this full name: `None` where the ref isn't mapped, `Some(None)` without a destination.
    ///
    /// # Errors
    ///
    /// Only an allocation failure.
    #[inline(always)]
    pub fn local_name(
        &self,
        alloc: Global,
        full_ref_name: &[u8],
    ) -> Result<Option<Option<BString>>, AllocError>
        ensures { IfOk result (λ found. (specs : List Spec) → IsSingle specs self.now → (i : ℕ)
            → mapped_by (single_index self.now) i full_ref_name.now (option_map (option_map bstring_bytes) found)
            ≡ single_pair specs self.now (i, full_ref_name.now)) }
    {
        let Some(middle) = self.needle.middle(full_ref_name) else {
            return Ok(None);
        };
        if is_excluded(&self.prepared, full_ref_name) {
            return Ok(None);
        }
        let local = local_of(alloc, middle, self.spec.destination)?;
        Ok(Some(local))
    }
}
