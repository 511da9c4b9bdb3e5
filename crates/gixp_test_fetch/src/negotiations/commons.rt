//! A response that acknowledges commits that nobody sent.
use crate::negotiations::repository::{answer, had_memory, id, ref_map};
use gixp_doubles::Recorder;
use gixp_graph::{Graph, NoObjects, NoRefs};
use gixp_hash::ObjectId;
use gixp_negotiate::negotiate::Negotiate;
use gixp_negotiate::negotiate::negotiation::{NegotiateContext, Negotiation};
use gixp_negotiate::negotiate::one_round::State;
use gixp_packetline::Protocol;
use gixp_refmap::fetch::Tags;
use gixp_requests::command::CommandTable;
use gixp_requests::fetch::Arguments;
use gixp_response::fetch::Response;
use gixp_shallow::Shallow;
use std::alloc::{AllocError, Global};
use std::test::Fail;

// A hundred thousand ids in no order, none of them a commit's.
fn strangers(alloc: Global) -> Result<Vec<ObjectId>, AllocError> {
    let mut ids = Vec::new(alloc);
    let mut next = 0u32;
    for _ in 0..100_000 {
        next = next.wrapping_add(2_654_435_769);
        let mut bytes = [0xee; 20];
        bytes[..4].copy_from_slice(&next.to_be_bytes());
        ids.push(ObjectId { bytes })?;
    }
    Ok(ids)
}

// The response that acknowledges these ids as common.
fn acknowledged(alloc: Global, ids: &[ObjectId]) -> Result<Response, Fail> {
    let mut text = Vec::from_slice(alloc, b"0014acknowledgments\n")?;
    for id in ids {
        text.extend_from_slice(b"0031ACK ")?;
        text.extend_from_slice(&id.to_hex())?;
        text.push(b'\n')?;
    }
    text.extend_from_slice(b"0000")?;
    answer(alloc, &text)
}

#[test]
fn takes_in_many_ids_that_nobody_sent(rt: HostRuntime) -> Result<(), Fail> {
    let alloc = rt.alloc();
    let ids = strangers(alloc)?;
    let common = acknowledged(alloc, &ids)?;
    let map = ref_map(alloc, &[9])?;
    let offered = Vec::from_slice(alloc, &[id(1), id(2), id(3)])?;
    let mut recorder = Recorder::new(alloc, offered);
    let mut graph = Graph::new(alloc, NoObjects);
    let mut refs = NoRefs;
    let alternates: Result<&mut [NoRefs], u8> = Ok(&mut []);
    let context = NegotiateContext {
        objects: &NoObjects,
        refs: &mut refs,
        alternates,
        negotiator: &mut recorder,
        graph: &mut graph,
    };
    let mut negotiation = Negotiation::new(context, &map, &Shallow::NoChange, Tags::None);
    let mut state = State::new(alloc, true);
    state.haves_to_send = 2;
    let mut asked = Arguments::new(alloc, &CommandTable::git(), Protocol::V2, Vec::new(alloc))?;
    let round = negotiation.one_round(&mut state, &mut asked, Some(&common));
    had_memory(&round)?;
    let Ok((round, is_last)) = round else {
        return Err("a round".into());
    };
    assert!(rt; round.previous_response_had_at_least_one_in_common);
    assert_eq!(rt; (round.haves_sent, round.in_vain, is_last), (2, 2, false));
    assert_eq!(rt; (round.haves_to_send, state.haves_to_send), (2, 4));
    assert!(rt; recorder.common.as_slice() == ids.as_slice());
    Ok(())
}
