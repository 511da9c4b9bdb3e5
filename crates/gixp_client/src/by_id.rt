//! Refspecs that name objects by their ids.
ghost use Rattle.std.specs.Prelude.{◌≡◌};
ghost use Rattle.gixp_refmap.specs.Values.{context_value};
ghost use Rattle.gixp_client.specs.IdSpecs.{are_ids, SeesRefs};

use gixp_refmap::refmap::init;
use gixp_refs::handshake::Ref;
use gixp_refspec::by_id::name_ids;
use std::alloc::Global;

/// Whether no refspec names a ref: there is one, and each names an object by its id.
pub(crate) fn are_ids(context: &init::Context) -> bool
    ensures { result ≡ are_ids (context_value context.now) }
{
    name_ids(&context.fetch_refspecs, &context.extra_refspecs)
}

/// The refs from which a session makes a ref map, or `None` if the server has to list them. For ids no refs are needed.
pub(crate) fn seen_refs(alloc: Global, here: Option<Vec<Ref>>, are_ids: bool) -> Option<Vec<Ref>>
    ensures { SeesRefs are_ids here result }
{
    match here {
        Some(refs) => Some(refs),
        None => { if are_ids { Some(Vec::new(alloc)) } else { None } }
    }
}
