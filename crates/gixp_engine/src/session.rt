//! A session over the responses so far.
ghost use Rattle.std.specs.Prelude.{◌≡◌, true, false, None, Ok, IfOk};
ghost use Rattle.gixp_response.specs.Sections.{is_flush};
ghost use Rattle.gixp_requests.specs.Feature.{feature_value};
ghost use Rattle.gixp_handshake.specs.Taken.{without_refs};
ghost use Rattle.gixp_fetch.specs.Fetch.{parties_of};
ghost use Rattle.gixp_fetch.specs.FetchShallow.{shallow_value};
ghost use Rattle.gixp_engine.specs.Alone.{engine_agent, engine_call, end_of_fetch, are_whole, unmapped_of_cut, map_of_whole, MapsBy, CarriesAlone, FetchesFiltered, FetchesAlone, OffersAlone, EngineSession};

use crate::by_id::needs_no_list;
use crate::consumer::{LeavePack, Left};
use crate::error::EngineError;
use crate::filter::{FilterOnce, expect_filters};
use crate::losses::{ListLosses, is_lossy};
use crate::step::SessionInput;
use crate::table::engine_table;
use gixp_fetch::consume::ConsumePack;
use gixp_fetch::error::Error as FetchError;
use gixp_fetch::fetch::fetch;
use gixp_fetch::options::{Context, Options, Outcome};
use gixp_graph::{Graph, NoObjects, NoRefs, Objects};
use gixp_handshake::Handshake;
use gixp_handshake::handshake::{handshake_without_account, obtain_mappings};
use gixp_hash::ObjectId;
use gixp_negotiate::negotiate::Negotiate;
use gixp_negotiate::negotiate::negotiation::{NegotiateContext, Negotiation};
use gixp_negotiators::HaveList;
use gixp_packetline::{ExtendedBufRead, MessageKind, Protocol};
use gixp_progress::Discard;
use gixp_refmap::RefMap;
use gixp_refmap::fetch::Tags;
use gixp_refmap::refmap::init;
use gixp_requests::agent_feature;
use gixp_shallow::{Shallow, ShallowMemory, ShallowStore};
use gixp_sidebands::{Interrupt, NeverInterrupt};
use gixp_transport::{Feature, Transport};
use std::alloc::{AllocError, Global};

// The feature `agent`.
fn engine_feature(alloc: Global) -> Result<Feature, AllocError>
    ensures { IfOk result (λ f. feature_value f ≡ engine_agent) }
{
    agent_feature(alloc, "git/gixp")
}

fn is_at_flush<T: ExtendedBufRead>(reader: &T) -> bool
    ensures { result ≡ is_flush (T.reading reader.now).stopped }
{
    matches!(reader.stopped_at(), Some(MessageKind::Flush))
}

// Whether the refs of a ref map are complete.
fn are_whole<T: ExtendedBufRead>(needs_no_list: bool, reader: &T) -> bool
    ensures { result ≡ are_whole needs_no_list (T.reading reader.now).stopped }
{
    needs_no_list || is_at_flush(reader)
}

// The error of a ref map whose list of refs didn't end with a flush packet.
fn unmapped_of_cut(e: init::Error) -> EngineError
    ensures { result ≡ unmapped_of_cut e }
{
    match e {
        init::Error::UnknownObjectFormat { .. } | init::Error::MappingValidation(_) => {
            EngineError::UnterminatedRefs
        }
        init::Error::ListRefs(e) => EngineError::Refs(init::Error::ListRefs(e)),
        init::Error::Memory => EngineError::Refs(init::Error::Memory),
    }
}

// Returns `UnterminatedRefs` for a ref map whose list of refs is incomplete, and `UnsupportedRefName` for one whose list lost white
// space of a name.
fn map_of_whole(
    made: Result<RefMap, init::Error>,
    is_whole: bool,
    is_lossy: bool,
) -> Result<RefMap, EngineError>
    ensures whole { result ≡ map_of_whole made is_whole is_lossy }
    ensures made { IfOk result (λ m. (made ≡ Ok m) × (is_whole ≡ true) × (is_lossy ≡ false)) }
{
    match made {
        Ok(map) => {
            if !is_whole {
                Err(EngineError::UnterminatedRefs)
            } else if is_lossy {
                Err(EngineError::UnsupportedRefName)
            } else {
                Ok(map)
            }
        }
        Err(e) => {
            if is_whole {
                Err(EngineError::Refs(e))
            } else {
                Err(unmapped_of_cut(e))
            }
        }
    }
}

// The ref map of the refs of the handshake. If it has none, the server lists those with the prefixes of the refspecs.
fn map_refs<T: Transport>(
    alloc: Global,
    handshake: &mut Handshake,
    context: init::Context,
    transport: &mut T,
) -> Result<RefMap, init::Error>
    ensures map { MapsBy false context handshake.old T.is_plain (T.reading transport.old) (T.reading transport.new) result }
    ensures handshake { IfOk result (λ _. handshake.new ≡ without_refs handshake.old) }
{
    let agent = engine_feature(alloc)?;
    let mut quiet = Discard;
    let table = engine_table();
    obtain_mappings(
        alloc, handshake, &table, agent, context, &mut quiet, transport,
    )
}

// The ref map. If no list of refs is needed, it is made without refs, and nothing is sent.
fn map_by<T: Transport>(
    alloc: Global,
    needs_no_list: bool,
    handshake: &mut Handshake,
    context: init::Context,
    transport: &mut T,
) -> Result<RefMap, init::Error>
    ensures map { MapsBy needs_no_list context handshake.old T.is_plain (T.reading transport.old) (T.reading transport.new) result }
    ensures handshake { IfOk result (λ _. handshake.new ≡ without_refs handshake.old) }
{
    if needs_no_list {
        handshake.refs = None;
        return RefMap::mappings_only(alloc, Vec::new(alloc), &handshake.capabilities, context);
    }
    map_refs(alloc, handshake, context, transport)
}

// The server of a fetch.
struct Peer<'s, T> {
    handshake: &'s mut Handshake,
    transport: &'s mut T,
}

// Fetches by a negotiation, up to the pack.
fn fetch_over<N: Negotiate, T: Transport>(
    alloc: Global,
    negotiation: &mut N,
    agent: Feature,
    shallow: &Shallow,
    peer: Peer<'_, T>,
    boundary: &mut ShallowMemory,
) -> Result<Option<Outcome>, FetchError<N::AlternatesError, Left>>
    requires { feature_value agent ≡ engine_agent }
    ensures { CarriesAlone
        (parties_of N.calls ⟦<ShallowMemory as ShallowStore>⟧.calls ⟦<NeverInterrupt as Interrupt>⟧.polls
        ⟦<LeavePack as ConsumePack<Discard>>⟧.consumes T.is_plain)
        (engine_call peer.entry.handshake.now (shallow_value shallow.now)) negotiation.old
        (T.reading peer.entry.transport.now) boundary.old result
        negotiation.new (T.reading peer.exit.1.0.now) boundary.new }
{
    let Peer {
        handshake,
        transport,
    } = peer;
    let mut leave = LeavePack;
    let mut quiet = Discard;
    let mut never = NeverInterrupt;
    let context = Context {
        handshake,
        transport,
        table: &engine_table(),
    };
    let options = Options {
        shallow_file: boundary,
        shallow,
        tags: Tags::None,
        reject_shallow_remote: false,
    };
    // Without this name the borrow checker doesn't cover the function.
    let fetched = fetch(
        alloc,
        negotiation,
        &mut leave,
        &mut quiet,
        &mut never,
        agent,
        context,
        options,
    );
    fetched
}

/// The end of a session whose last response has a pack.
#[derive(Debug, Drop)]
pub struct Received {
    /// The version of the response.
    pub version: Protocol,
    /// The shallow boundary after the response.
    pub boundary: ShallowMemory,
}

// What to fetch: the objects that the caller has, those that are mapped, and those that the server leaves out.
#[derive(Drop)]
struct Wanted<'a, O> {
    objects: &'a O,
    haves: Vec<ObjectId>,
    map: &'a RefMap,
    shallow: &'a Shallow,
    filter: Option<String>,
}

// What the first request of a fetch has besides its negotiation: the name of the client, the limit of the history, and a filter.
#[derive(Drop)]
struct Terms<'t> {
    agent: Feature,
    shallow: &'t Shallow,
    filter: Option<String>,
}

// Fetches by a negotiation whose first request has a filter, up to the pack.
fn fetch_filtered<N: Negotiate, T: Transport>(
    alloc: Global,
    negotiation: &mut N,
    terms: Terms<'_>,
    peer: Peer<'_, T>,
    boundary: &mut ShallowMemory,
) -> Result<Option<Outcome>, FetchError<N::AlternatesError, Left>>
    requires { feature_value terms.agent ≡ engine_agent }
    ensures { FetchesFiltered
        (parties_of ⟦<FilterOnce<'static, N> as Negotiate>⟧.calls ⟦<ShallowMemory as ShallowStore>⟧.calls
        ⟦<NeverInterrupt as Interrupt>⟧.polls ⟦<LeavePack as ConsumePack<Discard>>⟧.consumes T.is_plain)
        (engine_call peer.entry.handshake.now (shallow_value terms.entry.shallow.now)) negotiation.old terms.entry.filter
        (T.reading peer.entry.transport.now) boundary.old result
        (T.reading peer.exit.1.0.now) boundary.new }
{
    let Terms {
        agent,
        shallow,
        filter,
    } = terms;
    let mut filtered = FilterOnce::new(negotiation, filter);
    fetch_over(alloc, &mut filtered, agent, shallow, peer, boundary)
}

// Fetches the mapped refs that are missing. Everything that the negotiation borrows, except the objects, is local to this function.
fn fetch_mapped<'a, O: Objects, T: Transport>(
    alloc: Global,
    wanted: Wanted<'a, O>,
    handshake: &mut Handshake,
    transport: &mut T,
    boundary: &mut ShallowMemory,
) -> Result<Option<Outcome>, FetchError<AllocError, Left>>
    ensures { FetchesAlone
        (parties_of ⟦<FilterOnce<'a, Negotiation<'a, O, NoRefs, HaveList, NoObjects, AllocError>> as Negotiate>⟧.calls
        ⟦<ShallowMemory as ShallowStore>⟧.calls ⟦<NeverInterrupt as Interrupt>⟧.polls
        ⟦<LeavePack as ConsumePack<Discard>>⟧.consumes T.is_plain)
        (OffersAlone wanted.entry.objects.now wanted.entry.haves.items wanted.entry.map.now wanted.entry.shallow.now wanted.entry.filter)
        (engine_call handshake.old (shallow_value wanted.entry.shallow.now)) (T.reading transport.old) boundary.old result
        (T.reading transport.new) boundary.new }
{
    let Ok(agent) = engine_feature(alloc) else {
        return Err(FetchError::Memory);
    };
    let Wanted {
        objects,
        haves,
        map,
        shallow,
        filter,
    } = wanted;
    let mut graph = Graph::new(alloc, NoObjects);
    let mut negotiator = HaveList::new(haves);
    let mut refs = NoRefs;
    let context = NegotiateContext {
        objects,
        refs: &mut refs,
        alternates: Ok(&mut []),
        negotiator: &mut negotiator,
        graph: &mut graph,
    };
    let mut negotiation = Negotiation::new(context, map, shallow, Tags::None);
    let peer = Peer {
        handshake,
        transport,
    };
    let terms = Terms {
        agent,
        shallow,
        filter,
    };
    fetch_filtered(alloc, &mut negotiation, terms, peer, boundary)
}

// The result of a session by its fetch, and by the boundary after it.
fn end_of(
    version: Protocol,
    boundary: ShallowMemory,
    fetched: Result<Option<Outcome>, FetchError<AllocError, Left>>,
) -> Result<Option<Received>, EngineError>
    ensures { result ≡ end_of_fetch version boundary fetched }
{
    match fetched {
        Ok(Some(_)) => Ok(Some(Received { version, boundary })),
        Ok(None) => Ok(None),
        Err(e) => Err(EngineError::Fetch(e)),
    }
}

/// Runs a session up to its pack. Returns `None` if there is nothing to request. `losses` says which lists of refs among the
/// transport's responses lose white space.
pub(crate) fn run<'a, O: Objects, T: Transport>(
    alloc: Global,
    objects: &'a O,
    input: SessionInput,
    losses: ListLosses,
    transport: &mut T,
) -> Result<Option<Received>, EngineError>
    ensures { EngineSession
        (λ m h old store new store' r. FetchesAlone
        (parties_of ⟦<FilterOnce<'a, Negotiation<'a, O, NoRefs, HaveList, NoObjects, AllocError>> as Negotiate>⟧.calls
        ⟦<ShallowMemory as ShallowStore>⟧.calls ⟦<NeverInterrupt as Interrupt>⟧.polls
        ⟦<LeavePack as ConsumePack<Discard>>⟧.consumes T.is_plain)
        (OffersAlone objects.now input.haves.items m input.shallow input.filter)
        (engine_call h (shallow_value input.shallow)) old store r new store')
        input.specs input.filter input.boundary.items losses T.is_plain (T.reading transport.old) (T.reading transport.new) result }
{
    let SessionInput {
        specs,
        haves,
        shallow,
        boundary,
        filter,
    } = input;
    let mut handshake = match handshake_without_account(alloc, transport) {
        Ok(handshake) => handshake,
        Err(e) => return Err(EngineError::Handshake(e)),
    };
    match expect_filters(alloc, &handshake, &filter) {
        Ok(()) => {}
        Err(e) => return Err(e),
    }
    let unlisted = needs_no_list(&specs, &handshake);
    let lossy = is_lossy(losses, unlisted, &handshake);
    let made = map_by(alloc, unlisted, &mut handshake, specs, transport);
    let map = match map_of_whole(made, are_whole(unlisted, transport), lossy) {
        Ok(map) => map,
        Err(e) => return Err(e),
    };
    if map.is_empty() {
        return Ok(None);
    }
    let version = handshake.server_protocol_version;
    let mut boundary = ShallowMemory::new(boundary);
    let wanted = Wanted {
        objects,
        haves,
        map: &map,
        shallow: &shallow,
        filter,
    };
    let fetched = fetch_mapped(alloc, wanted, &mut handshake, transport, &mut boundary);
    end_of(version, boundary, fetched)
}
