//! A caller that relies only on the contract of a store, with a store without refs.
ghost use Rattle.std.specs.Prelude.{◌≡◌, IfOk};

use bstr::BStr;
use gixp_graph::{NoRefs, RefStore, RefStoreError};
use gixp_hash::ObjectId;
use std::alloc::Global;
use std::test::Fail;

// Lists the peeled refs twice; the contract of the store implies that both lists are equal.
fn list_twice<R: RefStore>(
    alloc: Global,
    refs: &mut R,
) -> Result<(Vec<ObjectId>, Vec<ObjectId>), RefStoreError>
    ensures { IfOk result (λ lists. lists.0.items ≡ lists.1.items) }
{
    let first = refs.peeled(alloc)?;
    let second = refs.peeled(alloc)?;
    Ok((first, second))
}

#[test]
fn no_refs(rt: HostRuntime) -> Result<(), Fail> {
    let alloc = rt.alloc();
    let mut refs = NoRefs;
    assert!(rt; refs.find(BStr::new(b"refs/heads/main")).is_none());
    let (first, second) = list_twice(alloc, &mut refs)?;
    assert!(rt; first.is_empty() && second.is_empty());
    Ok(())
}
