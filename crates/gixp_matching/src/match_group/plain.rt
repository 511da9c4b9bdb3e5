//! Mappings whose order shows that none repeats another, none is in conflict, and none is removed.
ghost use Rattle.std.specs.Prelude.{◌≡◌, [], false, IfOk, IsTrue, map};
ghost use Rattle.std.specs.List.{IsDistinct, list_any};
ghost use Rattle.std.specs.Str.{bytes_eq};
ghost use Rattle.gixp_matching.specs.Apart.{locals};
ghost use Rattle.gixp_matching.specs.Firsts.{first_flags, flagged};
ghost use Rattle.gixp_matching.specs.Mappings.{firsts};
ghost use Rattle.gixp_matching.specs.MatchGroup.{values};
ghost use Rattle.gixp_matching.specs.Validate.{ValidatesAs};
ghost use Rattle.gixp_matching.specs.Validation.{is_partial};

use crate::match_group::distinct::firsts;
use crate::match_group::key::AsMapping;
use crate::match_group::sorted::rises;
use crate::match_group::validate::apart::local_rises;
use crate::match_group::validate::fixes::is_partial;
use crate::match_group::validate::{self, Fix, validated};
use gixp_refspec::spec::RefSpecRef;
use std::alloc::{AllocError, Global};

// Whether sources and local names increase, and each local name is a full name of a ref.
fn are_plain<M: AsMapping>(mappings: &[M]) -> bool
    ensures firsts { IsTrue result → firsts (map M.mapped mappings.now) ≡ map M.mapped mappings.now }
    ensures apart { IsTrue result → IsDistinct bytes_eq (locals (map M.mapped mappings.now)) }
    ensures whole { IsTrue result → list_any is_partial (map M.mapped mappings.now) ≡ false }
{
    let mut last = None;
    let mut last_local = None;
    'mappings: for mapping in mappings {
        if !rises(&mut last, mapping.key()) {
            return false;
        }
        if !local_rises(&mut last_local, mapping) {
            return false;
        }
        if is_partial(mapping) {
            return false;
        }
    }
    true
}

/// Keeps the first of the mappings with equal source and local name, and validates them like [`validated`]. Servers
/// send refs in order, so one pass mostly shows that all mappings stay.
///
/// # Errors
///
/// The same as for [`validated`].
pub fn checked<M: AsMapping + Drop>(
    alloc: Global,
    specs: &[RefSpecRef<'_>],
    mappings: Vec<M>,
) -> Result<Result<(Vec<M>, Vec<Fix>), validate::Error>, AllocError>
    ensures { IfOk result (ValidatesAs M.mapped (values specs.now)
        (flagged mappings.items (first_flags [] (map M.mapped mappings.items)))) }
{
    if are_plain(&mappings) {
        return Ok(Ok((mappings, Vec::new(alloc))));
    }
    let mappings = firsts(alloc, mappings)?;
    validated(alloc, specs, mappings)
}
