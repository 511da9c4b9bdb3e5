//! A small repository in memory.
use bstr::{BStr, BString};
use gixp_capabilities::Capabilities;
pub(crate) use gixp_doubles::numbered_id as id;
use gixp_doubles::numbered_ids;
use gixp_graph::{CommitData, Graph, ObjectKind, Shared};
use gixp_memory::{StoredObjects, StoredRefs};
use gixp_refmap::RefMap;
use gixp_refmap::fetch::Tags;
use gixp_refmap::refmap::init::Context;
use gixp_refs::handshake::Ref;
use gixp_refspec::RefSpec;
use gixp_refspec::parse::{Operation, parse};
use gixp_updates::refs::Update;
use gixp_updates::refs::update::{Options, update};
use std::alloc::{AllocError, Global};
use std::test::Fail;

pub(crate) fn add(
    alloc: Global,
    objects: &mut StoredObjects,
    number: u8,
    time: i64,
    parents: &[u8],
) -> Result<(), AllocError> {
    let parents = numbered_ids(alloc, parents)?;
    objects.add_commit(id(number), CommitData { time, parents })
}

/// The commits 1, 2 and 3, each the parent of the next; 4, a sibling of 2; the blobs 11 and 12, and the tag 14.
pub(crate) fn objects(alloc: Global) -> Result<StoredObjects, AllocError> {
    let mut objects = StoredObjects::new(alloc);
    add(alloc, &mut objects, 1, 10, &[])?;
    add(alloc, &mut objects, 2, 20, &[1])?;
    add(alloc, &mut objects, 3, 30, &[2])?;
    add(alloc, &mut objects, 4, 25, &[1])?;
    objects.add(id(11), ObjectKind::Blob)?;
    objects.add(id(12), ObjectKind::Blob)?;
    objects.add(id(14), ObjectKind::Tag)?;
    Ok(objects)
}

pub(crate) fn text(alloc: Global, bytes: &[u8]) -> Result<BString, AllocError> {
    BString::from_slice(alloc, bytes)
}

pub(crate) fn refs(alloc: Global, name: &[u8], number: u8) -> Result<StoredRefs, AllocError> {
    let mut refs = StoredRefs::new(alloc);
    if number > 0 {
        refs.add(name.to_vec(alloc)?, id(number), id(number))?;
    }
    Ok(refs)
}

pub(crate) fn spec(alloc: Global, bytes: &[u8]) -> Result<RefSpec, Fail> {
    let spec = parse(BStr::new(bytes), Operation::Fetch)?;
    Ok(spec.to_owned(alloc)?)
}

/// The ref map of one ref of a server, by this refspec and the refspec of all tags.
pub(crate) fn map(alloc: Global, asked: &[u8], name: &[u8], number: u8) -> Result<RefMap, Fail> {
    let mut fetch_refspecs = Vec::new(alloc);
    fetch_refspecs.push(spec(alloc, asked)?)?;
    let mut extra_refspecs = Vec::new(alloc);
    extra_refspecs.push(spec(alloc, b"refs/tags/*:refs/tags/*")?)?;
    let mut remote_refs = Vec::new(alloc);
    remote_refs.push(Ref::Direct {
        full_ref_name: text(alloc, name)?,
        object: id(number),
    })?;
    let context = Context {
        fetch_refspecs,
        extra_refspecs,
    };
    let capabilities = Capabilities::empty(alloc);
    Ok(RefMap::from_refs(alloc, remote_refs, &capabilities, context)?)
}

pub(crate) fn options(tags: Tags, checked_out: &[BString]) -> Options<'_> {
    Options {
        tags,
        checked_out,
        most_commits: None,
    }
}

/// The first update of a map in the small repository.
pub(crate) fn first_update(
    alloc: Global,
    map: &RefMap,
    refs: &StoredRefs,
    options: &Options<'_>,
) -> Result<Update, Fail> {
    let objects = objects(alloc)?;
    let mut graph = Graph::new(alloc, Shared::new(&objects));
    let updates = update(
        alloc,
        map,
        refs,
        &Shared::new(&objects),
        &mut graph,
        options,
    )?;
    Ok(updates.first().copied().ok_or("no update")?)
}
