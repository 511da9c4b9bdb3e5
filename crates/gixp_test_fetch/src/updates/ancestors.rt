//! Walks to the ancestors of a commit.
use crate::updates::repository::{add, id, objects};
use gixp_doubles::MemoryObjects;
use gixp_graph::{Graph, Shared};
use gixp_memory::StoredObjects;
use gixp_updates::refs::ancestor::is_ancestor;
use gixp_updates::refs::update::Error;
use std::test::Fail;

#[test]
fn finds_ancestors_and_nothing_else(rt: HostRuntime) -> Result<(), Fail> {
    let alloc = rt.alloc();
    let stored = objects(alloc)?;
    let mut graph = Graph::new(alloc, Shared::new(&stored));
    assert!(rt; is_ancestor(alloc, &mut graph, &id(1), &id(3), None)?);
    assert!(rt; is_ancestor(alloc, &mut graph, &id(3), &id(3), None)?);
    assert!(rt; !is_ancestor(alloc, &mut graph, &id(3), &id(1), None)?);
    assert!(rt; !is_ancestor(alloc, &mut graph, &id(4), &id(3), None)?);
    assert!(rt; !is_ancestor(alloc, &mut graph, &id(9), &id(3), None)?);
    Ok(())
}

#[test]
fn ends_where_commits_name_each_other(rt: HostRuntime) -> Result<(), Fail> {
    let alloc = rt.alloc();
    let mut stored = StoredObjects::new(alloc);
    add(alloc, &mut stored, 1, 10, &[2, 3])?;
    add(alloc, &mut stored, 2, 10, &[1, 2])?;
    let mut graph = Graph::new(alloc, Shared::new(&stored));
    assert!(rt; is_ancestor(alloc, &mut graph, &id(1), &id(2), None)?);
    assert!(rt; !is_ancestor(alloc, &mut graph, &id(3), &id(2), None)?);
    Ok(())
}

#[test]
fn is_refused_by_a_limit_alone(rt: HostRuntime) -> Result<(), Fail> {
    let alloc = rt.alloc();
    let stored = objects(alloc)?;
    let mut graph = Graph::new(alloc, Shared::new(&stored));
    let few = is_ancestor(alloc, &mut graph, &id(4), &id(3), Some(2));
    assert_eq!(rt; few.err(), Some(Error::TooManyCommits));
    assert!(rt; !is_ancestor(alloc, &mut graph, &id(4), &id(3), Some(3))?);
    Ok(())
}

#[test]
fn passes_on_why_a_commit_cannot_be_read(rt: HostRuntime) -> Result<(), Fail> {
    let alloc = rt.alloc();
    let mut failing = MemoryObjects::new(alloc);
    failing.calls = 0;
    let mut graph = Graph::new(alloc, failing);
    let refused = is_ancestor(alloc, &mut graph, &id(1), &id(2), None);
    assert_eq!(rt;
        refused.err(),
        Some(Error::FindObject(gixp_graph::ObjectError::Corrupt))
    );
    assert!(rt; !is_ancestor(alloc, &mut graph, &id(1), &id(2), None)?);
    Ok(())
}
