//! Walks over chosen histories, and over random ones compared with the slow reference program.
use crate::graph::repository::{Repository, add, id, never_failing};
use crate::graph::slow;
use bitflags::Flags as _;
use gixp_graph::{CommitData, Flags, Graph, ObjectError, Objects};
use gixp_hash::ObjectId;
use std::alloc::{AllocError, Global};
use std::collections::BTreeMap;
use std::io;
use std::test::Fail;

// Whether the graph holds a commit and it is complete.
fn is_complete<O: Objects>(graph: &Graph<O>, number: u16) -> bool {
    match graph.get(&id(number)) {
        Some((_, flags)) => flags.contains(Flags::COMPLETE),
        None => false,
    }
}

// The commits A (1), its parent B (2) and B's parent C (3).
fn three(alloc: Global, time_of_b: i64) -> Result<BTreeMap<ObjectId, CommitData>, AllocError> {
    let mut commits = BTreeMap::new(alloc);
    add(alloc, &mut commits, 1, 10, &[2])?;
    add(alloc, &mut commits, 2, time_of_b, &[3])?;
    add(alloc, &mut commits, 3, 20, &[])?;
    Ok(commits)
}

// Which of the three commits are complete after a walk from A, and whether the graph holds C.
fn marked(alloc: Global, time_of_b: i64, cutoff: i64) -> Result<[bool; 4], ObjectError> {
    let mut graph = Graph::new(alloc, never_failing(three(alloc, time_of_b)?));
    graph.mark_complete(&[id(1)], Some(cutoff))?;
    Ok([
        is_complete(&graph, 1),
        is_complete(&graph, 2),
        is_complete(&graph, 3),
        graph.get(&id(3)).is_some(),
    ])
}

#[test]
fn clocks_that_run_backwards(rt: HostRuntime) -> Result<(), Fail> {
    for (time_of_b, cutoff, all) in [(5, 8, false), (5, 5, true), (-1, 0, false)] {
        let found = marked(rt.alloc(), time_of_b, cutoff)?;
        assert!(rt; found == [true, true, all, all], "cutoff {cutoff}");
    }
    Ok(())
}

// A chain of 1,000 commits of the same time. The first one is the tip.
fn chain(alloc: Global, time: i64) -> Result<BTreeMap<ObjectId, CommitData>, AllocError> {
    let mut commits = BTreeMap::new(alloc);
    for number in 0..1000 {
        add(alloc, &mut commits, number, time, &[number + 1])?;
    }
    Ok(commits)
}

// How many commits of that chain are complete after a walk from its tip, and how many the graph holds.
fn counted(alloc: Global, cutoff: i64) -> Result<(u16, u16), ObjectError> {
    let mut graph = Graph::new(alloc, never_failing(chain(alloc, 50)?));
    graph.mark_complete(&[id(0)], Some(cutoff))?;
    let mut complete = 0_u16;
    let mut held = 0_u16;
    for number in 0..1001 {
        complete = complete.saturating_add(is_complete(&graph, number) as u16);
        held = held.saturating_add(graph.get(&id(number)).is_some() as u16);
    }
    Ok((complete, held))
}

#[test]
fn chain_of_one_time(rt: HostRuntime) -> Result<(), Fail> {
    assert!(rt; counted(rt.alloc(), 50)? == (1000, 1000), "at the cutoff");
    assert!(rt; counted(rt.alloc(), 51)? == (1, 1), "before the cutoff");
    Ok(())
}

// The next pseudorandom number.
fn next(seed: &mut u64) -> u64 {
    *seed = seed
        .wrapping_mul(6364136223846793005)
        .wrapping_add(1442695040888963407);
    *seed >> 33
}

// A history of 12 commits, some of whose parents don't exist, with times from 0 to 7 in any order.
fn history(alloc: Global, seed: &mut u64) -> Result<BTreeMap<ObjectId, CommitData>, AllocError> {
    let mut commits = BTreeMap::new(alloc);
    for number in 0..12 {
        let time = (next(seed) % 8) as i64;
        let one = (next(seed) % 14) as u16;
        let two = (next(seed) % 14) as u16;
        match next(seed) % 3 {
            0 => add(alloc, &mut commits, number, time, &[])?,
            1 => add(alloc, &mut commits, number, time, &[one])?,
            _ => add(alloc, &mut commits, number, time, &[one, two])?,
        }
    }
    Ok(commits)
}

// Whether the graph holds exactly these commits, and all are complete.
fn holds<O: Objects>(graph: &Graph<O>, complete: &[ObjectId]) -> bool {
    (0..15).all(|number| {
        let is_among = complete.contains(&id(number));
        is_complete(graph, number) == is_among && graph.get(&id(number)).is_some() == is_among
    })
}

// Whether a walk over a history marks the same commits as the slow reference program, and how many.
fn agrees(
    alloc: Global,
    commits: BTreeMap<ObjectId, CommitData>,
    tips: &[ObjectId],
    cutoff: Option<i64>,
) -> Result<(bool, usize), ObjectError> {
    let complete = slow::complete(alloc, &commits, tips, cutoff)?;
    let mut graph = Graph::new(alloc, never_failing(commits));
    graph.mark_complete(tips, cutoff)?;
    Ok((holds(&graph, &complete), complete.len()))
}

#[test]
fn as_the_slow_program(rt: HostRuntime) -> Result<(), Fail> {
    let mut seed = 1;
    let mut marked = 0_usize;
    for _ in 0..60 {
        let cutoff = match next(&mut seed) % 10 {
            9 => None,
            cutoff => Some(cutoff as i64),
        };
        let tips = [
            id((next(&mut seed) % 14) as u16),
            id((next(&mut seed) % 14) as u16),
        ];
        let commits = history(rt.alloc(), &mut seed)?;
        let (is_same, count) = agrees(rt.alloc(), commits, &tips, cutoff)?;
        assert!(rt; is_same);
        marked = marked.saturating_add(count);
    }
    assert!(rt; marked > 100, "the histories are too small");
    Ok(())
}

// The result of a walk from A and from a commit that doesn't exist, whose lookup with this number fails, and which of
// the three commits are complete after it.
fn marked_by(
    alloc: Global,
    looks: u64,
) -> Result<(Result<(), ObjectError>, [bool; 3]), AllocError> {
    let repository = Repository {
        commits: three(alloc, 5)?,
        looks,
        failures: 0,
    };
    let mut graph = Graph::new(alloc, repository);
    let marked = graph.mark_complete(&[id(1), id(9)], Some(5));
    if marked == Err(ObjectError::Memory) {
        return Err(AllocError);
    }
    let complete = [
        is_complete(&graph, 1),
        is_complete(&graph, 2),
        is_complete(&graph, 3),
    ];
    Ok((marked, complete))
}

#[test]
fn each_look_fails_in_turn(rt: HostRuntime) -> Result<(), Fail> {
    for looks in 0..5 {
        let (marked, complete) = marked_by(rt.alloc(), looks)?;
        let want = if looks < 4 {
            Err(ObjectError::Io(io::ErrorKind::Other))
        } else {
            Ok(())
        };
        assert!(rt; marked == want);
        assert!(rt; complete == [looks > 0, looks > 2, looks > 3]);
    }
    Ok(())
}
