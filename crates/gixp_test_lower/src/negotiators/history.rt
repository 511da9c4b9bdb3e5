//! Small histories in memory.
pub(crate) use gixp_doubles::numbered_id as id;
use gixp_doubles::{MemoryObjects, numbered_ids};
use gixp_graph::{CommitData, Graph, Negotiator, NegotiatorError, Objects};
use std::alloc::{AllocError, Global};

pub(crate) fn add(
    alloc: Global,
    objects: &mut MemoryObjects,
    number: u8,
    time: i64,
    parents: &[u8],
) -> Result<(), AllocError> {
    let parents = numbered_ids(alloc, parents)?;
    objects.add_commit(id(number), CommitData { time, parents })
}

/// The commits 1 to `last`, each with the next one as its parent, the newest first.
pub(crate) fn line(alloc: Global, last: u8) -> Result<MemoryObjects, AllocError> {
    let mut objects = MemoryObjects::new(alloc);
    for number in 1..last {
        add(
            alloc,
            &mut objects,
            number,
            1000 - i64::from(number),
            &[number + 1],
        )?;
    }
    add(alloc, &mut objects, last, 1000 - i64::from(last), &[])?;
    Ok(objects)
}

/// The numbers of the next haves, up to this many.
pub(crate) fn haves<N: Negotiator, O: Objects>(
    alloc: Global,
    negotiator: &mut N,
    graph: &mut Graph<O>,
    most: u8,
) -> Result<Vec<u8>, NegotiatorError> {
    let mut numbers = Vec::new(alloc);
    for _ in 0..most {
        let Some(have) = negotiator.next_have(graph) else {
            return Ok(numbers);
        };
        match numbers.push(have?.bytes[0]) {
            Ok(()) => {}
            Err(_) => return Err(NegotiatorError::Memory),
        }
    }
    Ok(numbers)
}
