//! Refspecs that name objects by their ids.
ghost use Rattle.std.specs.Prelude.{◌≡◌, map};
ghost use Rattle.std.specs.List.{list_all};
ghost use Rattle.gixp_refspec.specs.RefSpec.{owned_value_of};
ghost use Rattle.gixp_refspec.specs.ById.{is_by_id, name_ids};

use crate::spec::{RefSpec, id_in};

fn is_by_id(spec: &RefSpec) -> bool
    ensures { result ≡ is_by_id (owned_value_of spec.now) }
{
    id_in(spec.to_ref().source).is_some()
}

fn all_by_id(specs: &[RefSpec]) -> bool
    ensures { result ≡ list_all (λ spec. is_by_id (owned_value_of spec)) specs.now }
{
    specs.iter().all(|spec| is_by_id(spec))
}

/// Whether no refspec of a fetch names a ref: there is an explicit one, there is no extra one, and the source of each is an object
/// id. For these git lists no refs (git-fetch, "<refspec>").
pub fn name_ids(explicit: &[RefSpec], extra: &[RefSpec]) -> bool
    ensures { result ≡ name_ids (map owned_value_of explicit.now) (map owned_value_of extra.now) }
{
    if explicit.is_empty() {
        return false;
    }
    if !extra.is_empty() {
        return false;
    }
    all_by_id(explicit)
}
