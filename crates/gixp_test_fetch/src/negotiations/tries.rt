//! Calls after one that failed.
use crate::negotiations::repository::{answer, chain, had_memory, id, ref_map};
use gixp_doubles::{MemoryObjects, MemoryRefs, Recorder};
use gixp_graph::{
    Flags, Graph, NegotiatorError, NoObjects, NoRefs, ObjectError, Objects, RefStoreError,
};
use gixp_negotiate::negotiate::negotiation::{NegotiateContext, Negotiation};
use gixp_negotiate::negotiate::one_round::State;
use gixp_negotiate::negotiate::{Action, Error, Negotiate};
use gixp_negotiators::HaveList;
use gixp_packetline::Protocol;
use gixp_refmap::RefMap;
use gixp_refmap::fetch::Tags;
use gixp_requests::command::CommandTable;
use gixp_requests::fetch::Arguments;
use gixp_shallow::Shallow;
use std::alloc::{AllocError, Global};
use std::io::ErrorKind;
use std::test::Fail;

fn is_to_negotiate(action: &Result<Action, Error<u8>>) -> bool {
    match action {
        Ok(Action::MustNegotiate { .. }) => true,
        _ => false,
    }
}

fn is_complete<O: Objects>(graph: &Graph<O>, number: u8) -> bool {
    match graph.get(&id(number)) {
        Some((_, flags)) => flags.0 & Flags::COMPLETE.0 != 0,
        None => false,
    }
}

fn arguments(alloc: Global) -> Result<Arguments, AllocError> {
    Arguments::new(alloc, &CommandTable::git(), Protocol::V2, Vec::new(alloc))
}

fn opened(alternates: &mut [MemoryRefs]) -> Result<&mut [MemoryRefs], u8> {
    Ok(alternates)
}

// The first step with the refs and this graph.
fn decide<O: Objects>(
    alloc: Global,
    graph: &mut Graph<O>,
    refs: &mut MemoryRefs,
    map: &RefMap,
) -> Result<Action, Error<u8>> {
    let existing = MemoryObjects::new(alloc);
    let shallow = Shallow::NoChange;
    let mut recorder = Recorder::new(alloc, Vec::new(alloc));
    let mut alternates = Vec::new(alloc);
    let context = NegotiateContext {
        objects: &existing,
        refs,
        alternates: opened(&mut alternates),
        negotiator: &mut recorder,
        graph,
    };
    let mut negotiation = Negotiation::new(context, map, &shallow, Tags::None);
    negotiation.mark_complete_and_common_ref(alloc)
}

#[test]
fn marks_all_after_a_failed_lookup(rt: HostRuntime) -> Result<(), Fail> {
    let alloc = rt.alloc();
    let map = ref_map(alloc, &[2, 9])?;
    let mut refs = MemoryRefs::new(alloc);
    refs.targets.push(id(1))?;
    for looks in 0..4u64 {
        let mut objects = chain(alloc)?;
        objects.calls = looks;
        objects.error = ObjectError::Io(ErrorKind::TimedOut);
        let mut graph = Graph::new(alloc, objects);
        let first = decide(alloc, &mut graph, &mut refs, &map);
        had_memory(&first)?;
        let Err(Error::LookupCommitInGraph(e)) = first else {
            return Err("no look failed".into());
        };
        assert_eq!(rt; e, ObjectError::Io(ErrorKind::TimedOut));
        let second = decide(alloc, &mut graph, &mut refs, &map);
        had_memory(&second)?;
        assert!(rt; is_to_negotiate(&second));
        for number in 1..4u8 {
            assert!(rt; is_complete(&graph, number), "{looks} {number}");
        }
        assert!(rt; !is_complete(&graph, 4));
    }
    Ok(())
}

#[test]
fn takes_alternates_that_cannot_be_opened_once(rt: HostRuntime) -> Result<(), Fail> {
    let alloc = rt.alloc();
    let map = ref_map(alloc, &[9])?;
    let mut negotiator = HaveList::new(Vec::from_slice(alloc, &[id(3)])?);
    let mut graph = Graph::new(alloc, NoObjects);
    let mut refs = NoRefs;
    let alternates: Result<&mut [NoRefs], u8> = Err(3);
    let context = NegotiateContext {
        objects: &NoObjects,
        refs: &mut refs,
        alternates,
        negotiator: &mut negotiator,
        graph: &mut graph,
    };
    let mut negotiation = Negotiation::new(context, &map, &Shallow::NoChange, Tags::Included);
    let first = negotiation.mark_complete_and_common_ref(alloc);
    had_memory(&first)?;
    let Err(Error::AlternateRefsAndObjects(reason)) = first else {
        return Err("alternates".into());
    };
    assert_eq!(rt; reason, 3);
    let second = negotiation.mark_complete_and_common_ref(alloc);
    had_memory(&second)?;
    assert!(rt; is_to_negotiate(&second));
    let mut asked = arguments(alloc)?;
    let any = negotiation.add_wants(&mut asked, &[false]);
    had_memory(&any)?;
    assert!(rt; any.is_ok_and(|any| any));
    let mut state = State::new(alloc, true);
    let round = negotiation.one_round(&mut state, &mut asked, None);
    had_memory(&round)?;
    let Ok((round, is_last)) = round else {
        return Err("a round".into());
    };
    assert_eq!(rt;
        (round.haves_sent, round.haves_to_send, is_last),
        (1, 16, true)
    );
    Ok(())
}

#[test]
fn lists_refs_again(rt: HostRuntime) -> Result<(), Fail> {
    let alloc = rt.alloc();
    let map = ref_map(alloc, &[9])?;
    let mut refs = MemoryRefs::new(alloc);
    refs.error = Some(RefStoreError::Io(ErrorKind::TimedOut));
    let mut alternates = [MemoryRefs::new(alloc)];
    alternates[0].targets.push(id(2))?;
    let mut recorder = Recorder::new(alloc, Vec::new(alloc));
    let mut graph = Graph::new(alloc, chain(alloc)?);
    let existing = MemoryObjects::new(alloc);
    for turn in 0..2u8 {
        let context = NegotiateContext {
            objects: &existing,
            refs: &mut refs,
            alternates: Ok(alternates.as_mut_slice()),
            negotiator: &mut recorder,
            graph: &mut graph,
        };
        let mut negotiation = Negotiation::new(context, &map, &Shallow::Deepen(1), Tags::None);
        let action: Result<Action, Error<u8>> = negotiation.mark_complete_and_common_ref(alloc);
        had_memory(&action)?;
        match action {
            Err(Error::IO(kind)) => assert_eq!(rt; (turn, kind), (0, ErrorKind::TimedOut)),
            Ok(_) => assert_eq!(rt; turn, 1),
            Err(_) => return Err("another error".into()),
        }
        refs.error = None;
    }
    assert_eq!(rt; recorder.tips.as_slice(), [id(2)].as_slice());
    Ok(())
}

#[test]
fn keeps_the_window_of_a_refused_round(rt: HostRuntime) -> Result<(), Fail> {
    let alloc = rt.alloc();
    let map = ref_map(alloc, &[9])?;
    let mut recorder = Recorder::new(alloc, Vec::from_slice(alloc, &[id(1), id(2), id(3)])?);
    recorder.calls = 2;
    let mut graph = Graph::new(alloc, NoObjects);
    let mut refs = NoRefs;
    let alternates: Result<&mut [NoRefs], u8> = Ok(&mut []);
    let context = NegotiateContext {
        objects: &NoObjects,
        refs: &mut refs,
        alternates,
        negotiator: &mut recorder,
        graph: &mut graph,
    };
    let mut negotiation = Negotiation::new(context, &map, &Shallow::NoChange, Tags::None);
    let mut state = State::new(alloc, true);
    state.haves_to_send = 2;
    let copy = state.clone()?;
    let mut asked = arguments(alloc)?;
    let common = answer(
        alloc,
        b"0014acknowledgments\n0031ACK cccccccccccccccccccccccccccccccccccccccc\n0000",
    )?;
    let refused = negotiation.one_round(&mut state, &mut asked, Some(&common));
    had_memory(&refused)?;
    assert!(rt;
        matches!(
            refused,
            Err(Error::LookupCommitInGraph(ObjectError::Corrupt))
        )
    );
    assert_eq!(rt; (state.haves_to_send, copy.haves_to_send), (2, 2));
    let round = negotiation.one_round(&mut state, &mut asked, Some(&common));
    had_memory(&round)?;
    let Ok((round, is_last)) = round else {
        return Err("a round".into());
    };
    assert_eq!(rt; (round.haves_sent, round.in_vain, is_last), (2, 2, false));
    assert_eq!(rt; state.haves_to_send, 4);
    Ok(())
}

#[test]
fn takes_in_errors_of_a_negotiator(rt: HostRuntime) -> Result<(), Fail> {
    let memory: Error<u8> = Error::from(NegotiatorError::Lookup(ObjectError::Memory));
    assert!(rt; matches!(memory, Error::Memory));
    let corrupt: Error<u8> = Error::from(NegotiatorError::Lookup(ObjectError::Corrupt));
    assert!(rt; matches!(corrupt, Error::LookupCommitInGraph(ObjectError::Corrupt)));
    Ok(())
}
