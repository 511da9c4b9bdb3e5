//! Each public call once, directly and through a box.
use crate::graph::repository::{Repository, add, id, never_failing};
use bitflags::Flags as _;
use gixp_graph::{CommitData, Flags, Graph, ObjectError, ObjectKind, Objects};
use gixp_hash::ObjectId;
use std::alloc::{AllocError, Global};
use std::collections::BTreeMap;
use std::process::Abort;
use std::test::Fail;

// A merge (1) of 2 and 3.
fn merge(alloc: Global) -> Result<BTreeMap<ObjectId, CommitData>, AllocError> {
    let mut commits = BTreeMap::new(alloc);
    add(alloc, &mut commits, 1, 10, &[2, 3])?;
    add(alloc, &mut commits, 2, -5, &[])?;
    Ok(commits)
}

fn graph_of_merge(alloc: Global) -> Result<Graph<Repository>, AllocError> {
    Ok(Graph::new(alloc, never_failing(merge(alloc)?)))
}

fn has_parents<O: Objects>(
    alloc: Global,
    graph: &Graph<O>,
    parents: &[ObjectId],
) -> Result<bool, AllocError> {
    Ok(graph.parents(alloc, &id(1))?.as_slice() == parents)
}

// Whether the graph holds the merge, with its parents, only after a lookup.
fn holds_what_it_looked_up<O: Objects>(
    alloc: Global,
    graph: &mut Graph<O>,
) -> Result<bool, ObjectError> {
    let is_held = graph.insert_flags(&id(1), Flags::SEEN) || !has_parents(alloc, graph, &[])?;
    let seen = graph.lookup(&id(1))?;
    Ok(
        !is_held
            && seen == Some((10, Flags(0)))
            && graph.get(&id(2)).is_none()
            && has_parents(alloc, graph, &[id(2), id(3)])?,
    )
}

#[test]
fn graph(rt: HostRuntime) -> Result<(), Fail> {
    let mut graph = graph_of_merge(rt.alloc())?;
    assert!(rt; graph.get(&id(1)).is_none());
    assert!(rt; holds_what_it_looked_up(rt.alloc(), &mut graph)?);
    Ok(())
}

// The calls of an object store with the merge.
fn reads<O: Objects>(rt: &impl Abort, alloc: Global, objects: &mut O) -> Result<(), ObjectError> {
    assert!(rt; objects.exists(&id(1)) && !objects.exists(&id(3)));
    assert!(rt; objects.kind(&id(1)) == Some(ObjectKind::Commit) && objects.kind(&id(3)).is_none());
    assert!(rt; objects.commit(alloc, &id(2))?.is_some());
    Ok(())
}

// Marks the commits through a graph.
fn is_marked<O: Objects + Drop>(alloc: Global, objects: O) -> Result<bool, ObjectError> {
    let mut graph = Graph::new(alloc, objects);
    graph.mark_complete(&[id(1)], Some(0))?;
    Ok(
        graph.get(&id(1)) == Some((10, Flags::COMPLETE))
            && graph.get(&id(2)) == Some((-5, Flags::COMPLETE)),
    )
}

#[test]
fn boxed_objects(rt: HostRuntime) -> Result<(), Fail> {
    let repository = never_failing(merge(rt.alloc())?);
    let mut objects: Box<dyn Objects + Drop> = Box::new(rt.alloc(), repository)?;
    reads(&rt, rt.alloc(), &mut objects)?;
    assert!(rt; is_marked(rt.alloc(), objects)?);
    Ok(())
}
