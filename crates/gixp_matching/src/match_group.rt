//! The mappings that a list of refspecs makes of a list of refs.
ghost use Rattle.std.specs.Prelude.{ℕ, ◌≡◌, List, IfOk, map};
ghost use Rattle.std.specs.Option.{option_copied, option_map};
ghost use Rattle.std.specs.List.{AllByRecursion, slice_get};
ghost use Rattle.bstr.specs.Owned.{bstring_bytes};
ghost use Rattle.gixp_matching.specs.Mappings.{FullName, ObjectId as IdOf, mappings};
ghost use Rattle.gixp_refspec.specs.RefSpec.{value_of};
ghost use Rattle.gixp_matching.specs.Leaving.{AnswersAll};
ghost use Rattle.gixp_matching.specs.MatchGroup.{source_of, mapped_of, mapped_in, values, names, group_specs, outcome_specs};
ghost use Rattle.gixp_matching.specs.Places.{repeated, place_of, place_value, local_for, id_for, FollowsFromPlace};
ghost use Rattle.gixp_matching.specs.Single.{SinglesOut};
ghost use Rattle.gixp_matching.specs.Validation.{has_safe_local};

mod digest;
mod distinct;
pub mod key;
mod local;
mod made;
mod negatives;
mod pairs;
mod plain;
mod rows;
pub mod single;
mod sorted;
mod sought;
pub mod validate;

use crate::match_group::local::{local_of_id, local_of_name};
use crate::match_group::made::repeated_mappings;
use crate::match_group::negatives::prepare;
use crate::match_group::pairs::{Matching, push_ids};
use crate::match_group::single::only_positive;
use crate::match_group::validate::Fix;
use bstr::{BStr, BString};
pub use distinct::firsts;
use gixp_hash::ObjectId;
use gixp_refspec::name::is_partial_name;
use gixp_refspec::needle::Needle;
use gixp_refspec::spec::{RefSpecRef, id_in};
pub use key::AsMapping;
pub use plain::checked;
pub use single::Single;
use std::alloc::{AllocError, Global};

/// A ref of the remote. Matching reads only its name.
#[derive(Clone, Copy, Debug)]
pub struct Item<'a> {
    /// The full name, like `refs/heads/main`.
    pub full_ref_name: BStr<'a>,
    /// The id of the ref.
    pub target: &'a ObjectId,
    /// For an annotated tag, the object that it peels to.
    pub object: Option<&'a ObjectId>,
}

/// The source of a mapping.
#[derive(Debug, Drop, PartialEq, Eq, Hash)]
pub enum SourceRef {
    /// The ref with this full name.
    FullName(BString),
    /// The object with this id.
    ObjectId(ObjectId),
}

/// A ref or an id of the remote, and the local name that it maps to.
#[derive(Debug, Drop, PartialEq, Eq)]
pub struct Mapping {
    /// The index of the ref among those that were matched, from 0. None for an id.
    pub item_index: Option<usize>,
    /// The ref or the id.
    pub lhs: SourceRef,
    /// The local name. None where the refspec has no destination.
    ///
    /// **It is not checked.** The server chose the part that replaces a pattern's asterisk:
    /// `refs/heads/*:refs/remotes/o/*` maps a server's `refs/heads/../../../config` to
    /// `refs/remotes/o/../../../config`. Call
    /// [`has_safe_local_name`](Mapping::has_safe_local_name) before making a path or a ref of it.
    pub rhs: Option<BString>,
    /// The index of the refspec in its group, from 0.
    pub spec_index: usize,
}

/// The origin of a mapping: a refspec, and a ref that it matches or the id that it names.
#[derive(Clone, Copy, Debug)]
pub struct Place {
    /// The index of the ref among those that were matched, from 0. None for an id.
    pub item_index: Option<usize>,
    /// The index of the refspec in its group, from 0.
    pub spec_index: usize,
}

/// The mappings of a group of refspecs.
#[derive(Debug, Drop)]
pub struct Outcome<'s> {
    /// First the mappings of ids, then by refspec and then by ref. No two have the same source and local name.
    pub mappings: Vec<Mapping>,
    pub(crate) specs: &'s [RefSpecRef<'s>],
}

/// Refspecs that are matched together: a negative one applies to all of them.
#[derive(Clone, Copy, Debug)]
pub struct MatchGroup<'s> {
    specs: &'s [RefSpecRef<'s>],
}

impl Clone for SourceRef {
    ghost is_clone = { λ s t. source_of t ≡ source_of s };

    fn clone(&self) -> Result<SourceRef, AllocError> {
        match self {
            SourceRef::FullName(name) => Ok(SourceRef::FullName(name.clone()?)),
            SourceRef::ObjectId(id) => Ok(SourceRef::ObjectId(*id)),
        }
    }
}

impl Clone for Mapping {
    ghost is_clone = { λ s t. mapped_of t ≡ mapped_of s };

    fn clone(&self) -> Result<Mapping, AllocError> {
        Ok(Mapping {
            item_index: self.item_index,
            lhs: self.lhs.clone()?,
            rhs: self.rhs.clone()?,
            spec_index: self.spec_index,
        })
    }
}

impl Mapping {
    /// Whether the local name is valid by git-check-ref-format with `--allow-onelevel` and has no asterisk, like a
    /// [`PartialName`](gixp_refspec::PartialName). True without a local name. `git fetch` skips a ref whose local name isn't
    /// valid (a "funny ref"), or doesn't begin with `refs/`.
    pub fn has_safe_local_name(&self) -> bool
        ensures { result ≡ has_safe_local (mapped_of self.now) }
    {
        match &self.rhs {
            None => true,
            Some(name) => is_partial_name(name.as_bytes()),
        }
    }
}

// The id that a refspec names.
fn id_named(spec: Option<&RefSpecRef<'_>>) -> Option<ObjectId>
    ensures { option_map (λ id. id.bytes) result ≡ id_for (option_map value_of (option_copied spec.entry)) }
{
    match spec {
        Some(spec) => id_in(spec.source),
        None => None,
    }
}

impl<'s> MatchGroup<'s> {
    /// A group of these refspecs, in their order.
    pub fn from_fetch_specs(specs: &'s [RefSpecRef<'s>]) -> MatchGroup<'s>
        ensures { group_specs result ≡ values specs.now }
    {
        MatchGroup { specs }
    }

    /// The places of the mappings, including those that repeat the source and local name of an earlier one. First the places
    /// of ids, then each positive refspec with each ref that it matches and no negative refspec matches.
    ///
    /// # Errors
    ///
    /// Only an allocation failure.
    pub fn places(&self, alloc: Global, items: &[Item<'_>]) -> Result<Vec<Place>, AllocError>
        ensures places { IfOk result (λ places. map place_value places.items ≡ map place_of
            (repeated (group_specs self.now) (names items.now))) }
        ensures reported { IfOk result (λ _. AllByRecursion (FollowsFromPlace (group_specs self.now) (names items.now))
            (repeated (group_specs self.now) (names items.now))) }
    {
        let mut found = Vec::new(alloc);
        push_ids(self.specs, &mut found)?;
        let prepared = prepare(alloc, self.specs)?;
        let matching = Matching {
            alloc,
            prepared: &prepared,
            items,
        };
        matching.push_pairs(&mut found)?;
        Ok(found)
    }

    /// The single refspec that makes all mappings, where exactly one is positive and that is a pattern. Each ref is then
    /// mapped at most once.
    ///
    /// # Errors
    ///
    /// Only an allocation failure.
    pub fn single(&self, alloc: Global) -> Result<Option<Single<'s>>, AllocError>
        ensures { IfOk result (SinglesOut (group_specs self.now)) }
    {
        let Some(spec_index) = only_positive(self.specs) else {
            return Ok(None);
        };
        let spec = &self.specs[spec_index];
        let needle = Needle::new(spec.source);
        if let Needle::Pattern { .. } = needle {
            let prepared = prepare(alloc, self.specs)?;
            return Ok(Some(Single {
                spec_index,
                spec,
                needle,
                prepared,
            }));
        }
        Ok(None)
    }

    /// The local name that the refspec at this index makes of the ref with this full name.
    ///
    /// # Errors
    ///
    /// Only an allocation failure.
    pub fn local_name(
        &self,
        alloc: Global,
        spec_index: usize,
        full_ref_name: &[u8],
    ) -> Result<Option<BString>, AllocError>
        ensures { IfOk result (λ local. option_map bstring_bytes local
            ≡ local_for (slice_get (group_specs self.now) spec_index) (FullName full_ref_name.now)) }
    {
        local_of_name(alloc, self.specs.get(spec_index), full_ref_name)
    }

    /// The local name that the refspec at this index makes of the id that it names.
    ///
    /// # Errors
    ///
    /// Only an allocation failure.
    pub fn local_name_of_id(
        &self,
        alloc: Global,
        spec_index: usize,
    ) -> Result<Option<BString>, AllocError>
        ensures { IfOk result (λ local. (id : List ℕ) → option_map bstring_bytes local
            ≡ local_for (slice_get (group_specs self.now) spec_index) (IdOf id)) }
    {
        local_of_id(alloc, self.specs.get(spec_index))
    }

    /// The id that the refspec at this index names.
    pub fn id_at(&self, spec_index: usize) -> Option<ObjectId>
        ensures { option_map (λ id. id.bytes) result ≡ id_for (slice_get (group_specs self.now) spec_index) }
    {
        id_named(self.specs.get(spec_index))
    }

    // The mappings of the refs, each source and local name once.
    fn mappings(&self, alloc: Global, items: &[Item<'_>]) -> Result<Vec<Mapping>, AllocError>
        ensures { IfOk result (λ found. mapped_in found ≡ mappings (group_specs self.now) (names items.now)) }
    {
        let found = repeated_mappings(alloc, self, items)?;
        firsts(alloc, found)
    }

    /// The mappings of the refs. First the mappings of ids, then each positive refspec with each ref that it matches and no
    /// negative refspec matches. Of those with equal source and local name the first stays. Refs that begin with none of the
    /// prefixes may be left out: that changes only the indices of the refs.
    ///
    /// # Errors
    ///
    /// Only an allocation failure.
    pub fn match_lhs(&self, alloc: Global, items: &[Item<'_>]) -> Result<Outcome<'s>, AllocError>
        ensures mappings { IfOk result (λ outcome. mapped_in outcome.mappings ≡ mappings (group_specs self.now) (names items.now)) }
        ensures specs { IfOk result (λ outcome. outcome_specs outcome ≡ group_specs self.now) }

        // A server that got the prefixes may leave out refs that begin with none of them.
        ensures filtered { IfOk result (λ outcome. AnswersAll (group_specs self.now) (names items.now) (mapped_in outcome.mappings)) }
    {
        let mappings = self.mappings(alloc, items)?;
        Ok(Outcome {
            mappings,
            specs: self.specs,
        })
    }
}

impl<'s> Outcome<'s> {
    ghost use Rattle.gixp_matching.specs.Validate.{Validates};

    /// Reports conflicts: local names with two different sources. Without any, removes the mappings whose local name
    /// isn't `HEAD` and doesn't begin with `refs/`, and returns a fix for each, in the order of the mappings.
    ///
    /// # Errors
    ///
    /// The outer error is an allocation failure, the inner one has the conflicts. The mappings are dropped then.
    pub fn validated(
        self,
        alloc: Global,
    ) -> Result<Result<(Outcome<'s>, Vec<Fix>), validate::Error>, AllocError>
        ensures { IfOk result (Validates (outcome_specs self.entry) (mapped_in self.entry.mappings)) }
    {
        let Outcome { mappings, specs } = self;
        match validate::validated(alloc, specs, mappings) {
            Ok(Ok((mappings, fixes))) => Ok(Ok((Outcome { mappings, specs }, fixes))),
            Ok(Err(e)) => Ok(Err(e)),
            Err(e) => Err(e),
        }
    }
}
