//! Which objects of the repository a fetch takes as complete.
ghost use Rattle.std.specs.Prelude.{◌≡◌, IfOk, IfErr};
ghost use Rattle.std.specs.List.{filter_map};
ghost use Rattle.gixp_client.specs.Doubted.{doubted_id, doubted, IsReadFailure};
ghost use Rattle.gixp_reachable.specs.Reached.{ShowsReached};

use crate::error::Error;
use gixp_graph::{Find, RefStore};
use gixp_hash::ObjectId;
use gixp_negotiate::negotiate::mark::is_changed;
use gixp_reachable::Reached;
use gixp_refmap::RefMap;
use gixp_refmap::refmap::Mapping;
use std::alloc::{AllocError, Global};

// The id of a mapping, if its object exists though the local ref of the mapping has another id.
fn doubted_id<F: Find, R: RefStore>(objects: &F, refs: &R, mapping: &Mapping) -> Option<ObjectId>
    ensures { result ≡ doubted_id (F.contents objects.now) (R.refs refs.now) mapping.now }
{
    let id = mapping.remote.as_id()?;
    if is_changed(refs, mapping) && objects.has_object(id) {
        Some(*id)
    } else {
        None
    }
}

fn doubted_ids<F: Find, R: RefStore>(
    alloc: Global,
    objects: &F,
    refs: &R,
    mappings: &[Mapping],
) -> Result<Vec<ObjectId>, AllocError>
    ensures { IfOk result (λ ids. ids.items ≡ filter_map (doubted_id (F.contents objects.now) (R.refs refs.now)) mappings.now) }
{
    let mut ids = Vec::new(alloc);
    let mut rest = mappings;
    while let Some((mapping, tail)) = rest.split_first() {
        if let Some(id) = doubted_id(objects, refs, mapping) {
            ids.push(id)?;
        }
        rest = tail;
    }
    Ok(ids)
}

/// The objects that a fetch of these refs takes as complete: all, if they are trusted. Otherwise it is all but those that the server
/// offers and that no ref of the repository reaches. The refs are listed only if an offered object is in doubt.
pub(crate) fn reached<'a, F: Find, R: RefStore>(
    alloc: Global,
    objects: &'a F,
    refs: &mut R,
    map: &RefMap,
    trusts: bool,
) -> Result<Reached<'a, F>, Error>
    ensures shown { IfOk result (λ r. ShowsReached (F.contents objects.now) (R.targets refs.old)
        (doubted trusts (F.contents objects.now) (R.refs refs.old) map.now.mappings.items) (⟦<Reached<'a, F> as Find>⟧.contents r)) }
    ensures refs { R.refs refs.new ≡ R.refs refs.old }
    ensures refused { IfErr result (IsReadFailure trusts) }
{
    if trusts {
        return Ok(Reached::all(alloc, objects));
    }
    let doubted = doubted_ids(alloc, objects, &*refs, &map.mappings)?;
    if doubted.as_slice().is_empty() {
        return Ok(Reached::all(alloc, objects));
    }
    let tips = refs.peeled(alloc)?;
    Ok(Reached::new(alloc, objects, &tips, &doubted)?)
}
