//! Repositories that are filled from the output of git commands.
use crate::negotiators::history::{haves, id};
use bstr::BStr;
use gixp_graph::{Find, Flags, Graph, Negotiator, ObjectKind, RefStore, Shared};
use gixp_memory::{StoredObjects, StoredRefs, TextError};
use gixp_negotiators::Consecutive;
use std::test::Fail;

const ONE: &str = "0101010101010101010101010101010101010101";

const TWO: &str = "0202020202020202020202020202020202020202";

const THREE: &str = "0303030303030303030303030303030303030303";

#[test]
fn one_repository_serves_a_graph_and_others(rt: HostRuntime) -> Result<(), Fail> {
    let alloc = rt.alloc();
    let mut objects = StoredObjects::new(alloc);
    let kinds = format!(in alloc; "{ONE} commit\n{THREE} tag\n")?;
    objects.read_kinds(alloc, kinds.as_bytes())?;
    let commits = format!(in alloc; "20 {ONE} {TWO}\n10 {TWO}")?;
    objects.read_commits(alloc, commits.as_bytes())?;
    objects.read_kinds(alloc, kinds.as_bytes())?;
    let mut graph = Graph::new(alloc, Shared::new(&objects));
    assert_eq!(rt; graph.lookup(&id(1))?, Some((20, Flags(0))));
    assert_eq!(rt; graph.lookup(&id(2))?, Some((10, Flags(0))));
    assert_eq!(rt; graph.lookup(&id(3))?, None);
    assert_eq!(rt; objects.find_kind(&id(3)), Some(ObjectKind::Tag));
    assert!(rt; objects.has_object(&id(1)) && !objects.has_object(&id(4)));
    Ok(())
}

#[test]
fn a_line_is_refused_by_its_number(rt: HostRuntime) -> Result<(), Fail> {
    let alloc = rt.alloc();
    let mut objects = StoredObjects::new(alloc);
    let text = format!(in alloc; "20 {ONE} {TWO}\n10 {TWO}\n-5 {THREE}\n")?;
    assert_eq!(rt;
        objects.read_commits(alloc, text.as_bytes()),
        Err(TextError::Line(3))
    );
    assert!(rt; objects.has_object(&id(2)) && !objects.has_object(&id(3)));
    let text = format!(in alloc; "{THREE} tag\n\n")?;
    assert_eq!(rt;
        objects.read_kinds(alloc, text.as_bytes()),
        Err(TextError::Line(2))
    );
    let text = format!(in alloc; "20 {ONE}  {TWO}\n")?;
    assert_eq!(rt;
        objects.read_commits(alloc, text.as_bytes()),
        Err(TextError::Line(1))
    );
    Ok(())
}

#[test]
fn parents_may_be_missing_or_lead_back(rt: HostRuntime) -> Result<(), Fail> {
    let alloc = rt.alloc();
    let mut objects = StoredObjects::new(alloc);
    // 1 and 2 are each other's parents, and 3 is missing. Of the two lines of 1 the later one counts.
    let text = format!(in alloc; "9 {ONE} {THREE}\n20 {ONE} {TWO}\n10 {TWO} {ONE} {THREE}\n")?;
    objects.read_commits(alloc, text.as_bytes())?;
    let mut graph = Graph::new(alloc, Shared::new(&objects));
    let mut negotiator = Consecutive::new(alloc);
    negotiator.add_tip(id(1), &mut graph)?;
    let offered = haves(alloc, &mut negotiator, &mut graph, 9)?;
    assert!(rt; offered.as_slice() == [1, 2].as_slice());
    graph.mark_complete([id(1)].as_slice(), Some(0))?;
    assert_eq!(rt; graph.lookup(&id(3))?, None);
    Ok(())
}

#[test]
fn refs_are_listed_in_the_order_of_their_names(rt: HostRuntime) -> Result<(), Fail> {
    let alloc = rt.alloc();
    let mut refs = StoredRefs::new(alloc);
    let text = format!(in alloc;
        "{ONE} refs/tags/v1\n{TWO} refs/tags/v1^{}\n{THREE} refs/heads/main\n",
        "{}"
    )?;
    refs.read_refs(alloc, text.as_bytes())?;
    assert_eq!(rt; refs.find(BStr::new(b"refs/tags/v1")), Some(id(1)));
    assert_eq!(rt; refs.find(BStr::new(b"refs/tags/v1^{}")), None);
    let peeled = refs.peeled(alloc)?;
    assert!(rt; peeled.as_slice() == [id(3), id(2)].as_slice());
    let text = format!(in alloc; "{ONE} refs/heads/main\n{TWO} refs/tags/v2^{}\n", "{}")?;
    assert_eq!(rt;
        refs.read_refs(alloc, text.as_bytes()),
        Err(TextError::Line(2))
    );
    assert_eq!(rt; refs.find(BStr::new(b"refs/heads/main")), Some(id(1)));
    Ok(())
}
