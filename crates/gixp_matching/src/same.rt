//! Equality of sources, mappings and fixes.
ghost use Rattle.std.specs.Prelude.{◌≡◌, ◌↔◌, IsTrue};
ghost use Rattle.gixp_matching.specs.MatchGroup.{mapped_of, source_of};
ghost use Rattle.gixp_matching.specs.Validate.{removed_of};

use crate::match_group::validate::Fix;
use crate::match_group::{Mapping, SourceRef};

fn is_same_source(a: &SourceRef, b: &SourceRef) -> bool
    ensures { IsTrue result ↔ (source_of a.now ≡ source_of b.now) }
{
    a == b
}

fn is_same_mapping(one: &Mapping, other: &Mapping) -> bool
    ensures { IsTrue result ↔ (mapped_of one.now ≡ mapped_of other.now) }
{
    one == other
}

fn is_same_fix(first: &Fix, second: &Fix) -> bool
    ensures { IsTrue result ↔ (removed_of first.now ≡ removed_of second.now) }
{
    first == second
}
