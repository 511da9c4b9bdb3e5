//! The haves that the negotiators offer.
use crate::negotiators::history::{add, haves, id, line};
use gixp_doubles::{Lenient, MemoryObjects};
use gixp_graph::{Graph, Negotiator, NegotiatorError, ObjectError};
use gixp_negotiators::{Algorithm, Consecutive, Skipping};
use std::test::Fail;

#[test]
fn offers_all_the_newest_first(rt: HostRuntime) -> Result<(), Fail> {
    let alloc = rt.alloc();
    let mut objects = MemoryObjects::new(alloc);
    add(alloc, &mut objects, 1, 90, &[3])?;
    add(alloc, &mut objects, 2, 100, &[3, 4])?;
    add(alloc, &mut objects, 3, 70, &[5])?;
    add(alloc, &mut objects, 4, 80, &[5])?;
    add(alloc, &mut objects, 5, 70, &[])?;
    let mut graph = Graph::new(alloc, objects);
    let mut negotiator = Consecutive::new(alloc);
    negotiator.add_tip(id(1), &mut graph)?;
    negotiator.add_tip(id(2), &mut graph)?;
    let offered = haves(alloc, &mut negotiator, &mut graph, 9)?;
    assert!(rt; offered.as_slice() == [2, 1, 4, 3, 5].as_slice());
    Ok(())
}

#[test]
fn leaves_out_what_is_common(rt: HostRuntime) -> Result<(), Fail> {
    let alloc = rt.alloc();
    let mut graph = Graph::new(alloc, line(alloc, 9)?);
    let mut negotiator = Consecutive::new(alloc);
    negotiator.add_tip(id(1), &mut graph)?;
    let offered = haves(alloc, &mut negotiator, &mut graph, 3)?;
    assert!(rt; offered.as_slice() == [1, 2, 3].as_slice());
    negotiator.in_common_with_remote(id(3), &mut graph)?;
    let offered = haves(alloc, &mut negotiator, &mut graph, 9)?;
    assert!(rt; offered.is_empty());
    Ok(())
}

#[test]
fn offers_a_ref_of_the_server_and_not_its_ancestors(rt: HostRuntime) -> Result<(), Fail> {
    let alloc = rt.alloc();
    let mut graph = Graph::new(alloc, line(alloc, 9)?);
    let mut negotiator = Consecutive::new(alloc);
    negotiator.known_common(id(3), &mut graph)?;
    negotiator.add_tip(id(1), &mut graph)?;
    let offered = haves(alloc, &mut negotiator, &mut graph, 9)?;
    assert!(rt; offered.as_slice() == [1, 2, 3].as_slice());
    Ok(())
}

#[test]
fn passes_over_more_and_more(rt: HostRuntime) -> Result<(), Fail> {
    let alloc = rt.alloc();
    let mut graph = Graph::new(alloc, line(alloc, 40)?);
    let mut negotiator = Skipping::new(alloc);
    negotiator.add_tip(id(1), &mut graph)?;
    let offered = haves(alloc, &mut negotiator, &mut graph, 20)?;
    // The distances are 1, 2, 4, 7 and 11 commits; the last commit is offered too.
    assert!(rt; offered.as_slice() == [1, 3, 6, 11, 19, 31, 40].as_slice());
    Ok(())
}

#[test]
fn offers_nothing(rt: HostRuntime) -> Result<(), Fail> {
    let alloc = rt.alloc();
    let mut graph = Graph::new(alloc, line(alloc, 9)?);
    let mut negotiator = Algorithm::Noop.negotiator(alloc);
    negotiator.add_tip(id(1), &mut graph)?;
    assert!(rt; haves(alloc, &mut negotiator, &mut graph, 9)?.is_empty());
    Ok(())
}

#[test]
fn is_of_the_kind_that_was_named(rt: HostRuntime) -> Result<(), Fail> {
    let alloc = rt.alloc();
    let mut graph = Graph::new(alloc, line(alloc, 7)?);
    let mut negotiator = Algorithm::Skipping.negotiator(alloc);
    negotiator.add_tip(id(1), &mut graph)?;
    let offered = haves(alloc, &mut negotiator, &mut graph, 2)?;
    negotiator.in_common_with_remote(id(3), &mut graph)?;
    let more = haves(alloc, &mut negotiator, &mut graph, 9)?;
    assert!(rt; offered.as_slice() == [1, 3].as_slice() && more.is_empty());
    Ok(())
}

#[test]
fn only_a_lenient_one_passes_over_what_cannot_be_read(rt: HostRuntime) -> Result<(), Fail> {
    let alloc = rt.alloc();
    let mut objects = line(alloc, 2)?;
    objects.corrupt.insert(id(2))?;
    let mut graph = Graph::new(alloc, objects);
    let mut strict = Consecutive::new(alloc);
    let corrupt = NegotiatorError::Lookup(ObjectError::Corrupt);
    assert!(rt; strict.add_tip(id(2), &mut graph) == Err(corrupt));
    let mut lenient = Lenient::new(alloc);
    lenient.add_tip(id(2), &mut graph)?;
    lenient.add_tip(id(1), &mut graph)?;
    let offered = haves(alloc, &mut lenient, &mut graph, 9)?;
    assert!(rt; offered.as_slice() == [1].as_slice());
    Ok(())
}
