//! The next request of a session.
ghost use Rattle.std.specs.Prelude.{◌≡◌, ◌<◌, ◌≤◌, ◌+◌, ℕ, true, List, length, map, vec_items, Ok, MatchResult};
ghost use Rattle.gixp_records.specs.Place.{RefusedFrom};
ghost use Rattle.gixp_fetch.specs.Fetch.{parties_of};
ghost use Rattle.gixp_fetch.specs.FetchShallow.{shallow_value};
ghost use Rattle.gixp_engine.specs.Alone.{engine_call, FetchesAlone, OffersAlone};
ghost use Rattle.gixp_engine.specs.NextStep.{start_of_last, BeginsPack, StepsTo, IsNextStep};

use crate::consumer::LeavePack;
use crate::error::EngineError;
use crate::filter::FilterOnce;
use crate::losses::losses_of;
use crate::read::{answers_of, objects_of};
use crate::session::{Received, run};
use bstr::BString;
use gixp_fetch::consume::ConsumePack;
use gixp_graph::{NoObjects, NoRefs, Objects, Shared};
use gixp_hash::ObjectId;
use gixp_memory::StoredObjects;
use gixp_negotiate::negotiate::Negotiate;
use gixp_negotiate::negotiate::negotiation::Negotiation;
use gixp_negotiators::HaveList;
use gixp_packetline::Protocol;
use gixp_progress::Discard;
use gixp_records::{PacketRefused, pack_start_v0, pack_start_v2};
use gixp_refmap::refmap::init::Context;
use gixp_shallow::{Shallow, ShallowMemory, ShallowStore};
use gixp_sidebands::{Interrupt, NeverInterrupt};
use gixp_transport::Bodies;
use std::alloc::{AllocError, Global};

/// The arguments of a session.
#[derive(Drop)]
pub struct SessionInput {
    /// The refspecs. If each names an object by its id, and the server's advertisement has no refs, no refs are listed.
    pub specs: Context,
    /// The objects that exist locally. They are offered as haves in this order, and never requested.
    pub haves: Vec<ObjectId>,
    /// How much of the history to fetch.
    pub shallow: Shallow,
    /// The shallow boundary of the local repository.
    pub boundary: Vec<ObjectId>,
    /// Which objects the server leaves out (git-rev-list, `--filter`).
    pub filter: Option<String>,
}

/// The caller's next action.
#[derive(Debug, Drop)]
pub enum EngineStep {
    /// Send these bytes. The server's reply is the next response.
    Request(Vec<u8>),
    /// Take the pack from the last response.
    Pack {
        /// The offset of the pack in all bytes.
        place: usize,
        /// The shallow boundary after the server's shallow updates (gitprotocol-pack, "Packfile Negotiation"). A server whose
        /// own repository is shallow sends updates even if the session requests no depth.
        boundary: ShallowMemory,
    },
    /// Nothing: there is nothing to request.
    Nothing,
}

// The offset of the pack in the response that begins at `start`.
fn pack_place(bytes: &[u8], start: usize, version: Protocol) -> Result<usize, PacketRefused>
    requires { start ≤ length bytes.now }
    ensures { MatchResult result (BeginsPack version bytes.now start) (RefusedFrom bytes.now start) }
{
    match version {
        Protocol::V2 => pack_start_v2(bytes, start),
        Protocol::V1 | Protocol::V0 => pack_start_v0(bytes, start),
    }
}

// The offset at which the last response begins.
fn start_of_last(ends: &[usize]) -> usize
    ensures { result ≡ start_of_last ends.now }
{
    match ends.len().checked_sub(2) {
        Some(place) => ends[place],
        None => 0,
    }
}

// The step after a session whose requests all have a response.
fn step_after(
    bytes: &[u8],
    ends: &[usize],
    received: Option<Received>,
) -> Result<EngineStep, EngineError>
    requires { start_of_last ends.now ≤ length bytes.now }
    ensures { (sent : List (List ℕ)) → length sent + 1 ≡ length ends.now → StepsTo bytes.now ends.now sent (Ok received) result }
{
    let Some(Received { version, boundary }) = received else {
        return Ok(EngineStep::Nothing);
    };
    match pack_place(bytes, start_of_last(ends), version) {
        Ok(place) => Ok(EngineStep::Pack { place, boundary }),
        Err(e) => Err(EngineError::Pack(e)),
    }
}

// The step after a session with fewer requests than responses.
fn step_unasked(
    bytes: &[u8],
    ends: &[usize],
    requests: usize,
    ended: Result<Option<Received>, EngineError>,
) -> Result<EngineStep, EngineError>
    requires fewer { requests < length ends.now }
    requires within { start_of_last ends.now ≤ length bytes.now }
    ensures { (sent : List (List ℕ)) → length sent ≡ requests → StepsTo bytes.now ends.now sent ended result }
{
    match ended {
        Ok(received) => {
            if requests + 1 < ends.len() {
                return Err(EngineError::TooManyAnswers);
            }
            step_after(bytes, ends, received)
        }
        Err(e) => Err(e),
    }
}

// The step by the requests of a session and its result.
fn step_of(
    alloc: Global,
    bytes: &[u8],
    ends: &[usize],
    sent: &[Vec<u8>],
    ended: Result<Option<Received>, EngineError>,
) -> Result<EngineStep, EngineError>
    requires some { 0 < length ends.now }
    requires within { start_of_last ends.now ≤ length bytes.now }
    ensures { StepsTo bytes.now ends.now (map vec_items sent.now) ended result }
{
    let Some(request) = sent.get(ends.len() - 1) else {
        return step_unasked(bytes, ends, sent.len(), ended);
    };
    match Vec::from_slice(alloc, request) {
        Ok(request) => Ok(EngineStep::Request(request)),
        Err(_) => Err(EngineError::Memory),
    }
}

/// Returns the caller's next action, from the server's responses so far: first its advertisement, then the response to each request
/// that this function returned (gitprotocol-v2; gitprotocol-pack, "Packfile Negotiation"). `bytes` has the responses one after
/// another, and `ends` the offsets at which they end. The last response may be incomplete if it reaches to the pack.
///
/// # Errors
///
/// Those of [`EngineError`]. If the last response is incomplete, the error says that the stream ended.
pub fn next_step(
    alloc: Global,
    bytes: &[u8],
    ends: &[usize],
    input: SessionInput,
) -> Result<EngineStep, EngineError>
    ensures { IsNextStep ⟦<Shared<'static, StoredObjects> as Objects>⟧.contents
        (λ objects m h old store new store' r. FetchesAlone
        (parties_of ⟦<FilterOnce<'static, Negotiation<'static, Shared<'static, StoredObjects>, NoRefs, HaveList, NoObjects, AllocError>> as Negotiate>⟧.calls
        ⟦<ShallowMemory as ShallowStore>⟧.calls ⟦<NeverInterrupt as Interrupt>⟧.polls
        ⟦<LeavePack as ConsumePack<Discard>>⟧.consumes true)
        (OffersAlone objects input.haves.items m input.shallow input.filter)
        (engine_call h (shallow_value input.shallow)) old store r new store')
        bytes.now ends.now input result }
{
    let answers = match answers_of(alloc, bytes, ends) {
        Ok(answers) => answers,
        Err(e) => return Err(e),
    };
    if ends.is_empty() {
        return Err(EngineError::NoAnswer);
    }
    let Ok(here) = objects_of(alloc, &input.haves) else {
        return Err(EngineError::Memory);
    };
    let losses = losses_of(&answers);
    let url = BString::new(Vec::new(alloc));
    let Ok(mut transport) = Bodies::new(alloc, answers, url, Vec::new(alloc)) else {
        return Err(EngineError::Memory);
    };
    let ended = run(alloc, &Shared::new(&here), input, losses, &mut transport);
    step_of(alloc, bytes, ends, transport.sent(), ended)
}
