//! Conflicts between mappings, and mappings that are removed.
ghost use Rattle.std.specs.Prelude.{◌≡◌, IfOk};
ghost use Rattle.gixp_matching.specs.MatchGroup.{values};
ghost use Rattle.gixp_matching.specs.Validate.{removed_of, ValidatesAs};

pub(crate) mod apart;
pub(crate) mod conflicts;
pub(crate) mod fixes;
mod groups;
mod order;

use crate::match_group::validate::conflicts::conflicts_of;
use crate::match_group::validate::fixes::take_out_partial;
use crate::match_group::{AsMapping, SourceRef};
use bstr::BString;
use gixp_refspec::spec::RefSpecRef;
use std::alloc::{AllocError, Global};
use thiserror::Error as DeriveError;

/// Why mappings can't be used together.
#[derive(Debug, Drop)]
pub enum Issue {
    /// A local name has two different sources.
    Conflict {
        /// The local name.
        destination_full_ref_name: BString,
        /// The text of the refspec of each mapping with this local name, in the order of the mappings.
        specs: Vec<BString>,
        /// The source of each mapping with this local name, in the same order.
        sources: Vec<SourceRef>,
    },
}

/// A change that makes the mappings usable.
#[derive(Debug, Drop, PartialEq, Eq)]
pub enum Fix {
    /// A mapping was removed, since its local name isn't `HEAD` and doesn't begin with `refs/`.
    MappingWithPartialDestinationRemoved {
        /// The local name.
        name: BString,
        /// The text of the mapping's refspec.
        spec: BString,
    },
}

impl Clone for Fix {
    ghost is_clone = { λ s t. removed_of t ≡ removed_of s };

    fn clone(&self) -> Result<Fix, AllocError> {
        let Fix::MappingWithPartialDestinationRemoved { name, spec } = self;
        Ok(Fix::MappingWithPartialDestinationRemoved {
            name: name.clone()?,
            spec: spec.clone()?,
        })
    }
}

/// The conflicts, sorted by the bytes of the local names. There is at least one.
#[derive(Debug, Drop, DeriveError)]
#[error("Error")]
pub struct Error {
    /// A conflict for each local name with two different sources.
    pub issues: Vec<Issue>,
}

/// Reports conflicts: local names with two different sources. Without any, removes the mappings whose local name isn't
/// `HEAD` and doesn't begin with `refs/`, and returns a fix for each, in the order of the mappings.
///
/// # Errors
///
/// The outer error is an allocation failure, the inner one has the conflicts. The mappings are dropped then.
pub fn validated<M: AsMapping + Drop>(
    alloc: Global,
    specs: &[RefSpecRef<'_>],
    mappings: Vec<M>,
) -> Result<Result<(Vec<M>, Vec<Fix>), Error>, AllocError>
    ensures { IfOk result (ValidatesAs M.mapped (values specs.now) mappings.items) }
{
    let mut mappings = mappings;
    let issues = conflicts_of(alloc, specs, &mappings)?;
    if !issues.is_empty() {
        return Ok(Err(Error { issues }));
    }
    let fixes = take_out_partial(alloc, specs, &mut mappings)?;
    Ok(Ok((mappings, fixes)))
}
