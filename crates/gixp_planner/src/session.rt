//! A session over recorded answers.
ghost use Rattle.std.specs.Prelude.{◌≡◌, true, false, Some, None, Ok, IfOk};
ghost use Rattle.gixp_fetch.specs.Fetch.{parties_of};
ghost use Rattle.gixp_requests.specs.Feature.{feature_value};
ghost use Rattle.gixp_handshake.specs.Taken.{without_refs};
ghost use Rattle.gixp_planner.specs.Session.{planner_agent, MapsRefs, CarriesOn, FetchesMapped, RunsPrinted, end_of, NegotiatesOver, IsEmptyBoundary};
ghost use Rattle.gixp_planner.specs.Printed.{printed_text, mapped_text};
ghost use Rattle.gixp_planner.specs.Text.{ended_of, map_shown};

use crate::error::PlanError;
use crate::names::{fetch_variant, handshake_variant, refs_variant};
use crate::negotiation::PrintingNegotiation;
use crate::printed::PrintedMap;
use gix_protocol::command::{CommandTable, Feature};
use gix_protocol::fetch::negotiate::{Graph, Negotiate, Negotiation, Negotiator, NoRefs, Objects};
use gix_protocol::fetch::refmap::init;
use gix_protocol::fetch::{
    self, ConsumePack, CopyError, Outcome, ReadToEnd, RefMap, Shallow, ShallowMemory, ShallowStore,
    Tags,
};
use gix_protocol::handshake::obtain_mappings;
use gix_protocol::transport::{Discard, Interrupt, NeverInterrupt, Transport};
use gix_protocol::{Handshake, agent_feature};
use gixp_handshake::handshake::handshake_without_account;
use std::alloc::{AllocError, Global};

/// The outcome of a session.
#[derive(Drop)]
pub(crate) struct Course {
    /// The ref map, if it was made, or its text.
    pub(crate) mapped: Option<PrintedMap>,
    /// Whether a pack came, or which step failed.
    pub(crate) ended: Result<bool, PlanError>,
}

fn planner_feature(alloc: Global) -> Result<Feature, AllocError>
    ensures { IfOk result (λ f. feature_value f ≡ planner_agent) }
{
    agent_feature(alloc, "git/gixp-plan")
}

// Requests the refs by the refspecs' prefixes, and makes the ref map. Its mappings have the refs, and no other ref is kept.
fn map_refs<T: Transport>(
    alloc: Global,
    handshake: &mut Handshake,
    context: init::Context,
    transport: &mut T,
) -> Result<RefMap, init::Error>
    ensures map { MapsRefs context handshake.old T.is_plain (T.reading transport.old) (T.reading transport.new) result }
    ensures handshake { IfOk result (λ _. handshake.new ≡ without_refs handshake.old) }
{
    let agent = planner_feature(alloc)?;
    let mut quiet = Discard;
    let table = CommandTable::git();
    obtain_mappings(
        alloc, handshake, &table, agent, context, &mut quiet, transport,
    )
}

// Fetches by a negotiation, and reads the pack to its end.
fn fetch_over<N: Negotiate, T: Transport>(
    alloc: Global,
    negotiation: &mut N,
    agent: Feature,
    handshake: &mut Handshake,
    transport: &mut T,
    shallow: &Shallow,
    boundary: &mut ShallowMemory,
) -> Result<Option<Outcome>, fetch::Error<N::AlternatesError, CopyError>>
    requires agent { feature_value agent ≡ planner_agent }
    requires stays { shallow.now ≡ Shallow.NoChange }
    ensures { CarriesOn
        (parties_of N.calls ⟦<ShallowMemory as ShallowStore>⟧.calls ⟦<NeverInterrupt as Interrupt>⟧.polls
        ⟦<ReadToEnd as ConsumePack<Discard>>⟧.consumes T.is_plain)
        handshake.old negotiation.old (T.reading transport.old) boundary.old result negotiation.new (T.reading transport.new) boundary.new }
{
    let mut reader = ReadToEnd;
    let mut quiet = Discard;
    let mut never = NeverInterrupt;
    let context = fetch::Context {
        handshake,
        transport,
        table: &CommandTable::git(),
    };
    let options = fetch::Options {
        shallow_file: boundary,
        shallow,
        tags: Tags::None,
        reject_shallow_remote: false,
    };
    fetch::fetch(
        alloc,
        negotiation,
        &mut reader,
        &mut quiet,
        &mut never,
        agent,
        context,
        options,
    )
}

// Fetches the mapped refs. Returns the ref map too, whose printed text is the same as before.
fn fetch_mapped<'a, O: Objects, G: Objects, N: Negotiator, T: Transport>(
    alloc: Global,
    objects: &'a O,
    graph: &'a mut Graph<G>,
    negotiator: &'a mut N,
    map: RefMap,
    handshake: &mut Handshake,
    transport: &mut T,
) -> (
    PrintedMap,
    Result<Option<Outcome>, fetch::Error<AllocError, CopyError>>,
)
    ensures { (printed_text result.0 ≡ map_shown map) × FetchesMapped
        (parties_of ⟦<Negotiation<'a, O, NoRefs, N, G, AllocError> as Negotiate>⟧.calls ⟦<ShallowMemory as ShallowStore>⟧.calls
        ⟦<NeverInterrupt as Interrupt>⟧.polls ⟦<ReadToEnd as ConsumePack<Discard>>⟧.consumes T.is_plain)
        (NegotiatesOver objects.now graph.old negotiator.old map)
        IsEmptyBoundary handshake.old (T.reading transport.old) (T.reading transport.new) result.1 }
{
    let printed = PrintedMap::new(alloc, map);
    let Ok(agent) = planner_feature(alloc) else {
        return (printed, Err(fetch::Error::Memory));
    };
    let mut refs = NoRefs;
    let mut negotiation = PrintingNegotiation::new(
        alloc, objects, &mut refs, negotiator, graph, printed,
    );
    let mut boundary = ShallowMemory::new(Vec::new(alloc));
    let fetched = fetch_over(
        alloc,
        &mut negotiation,
        agent,
        handshake,
        transport,
        &Shallow::NoChange,
        &mut boundary,
    );
    (negotiation.into_printed(), fetched)
}

fn ended(
    fetched: Result<Option<Outcome>, fetch::Error<AllocError, CopyError>>,
) -> Result<bool, PlanError>
    ensures { ended_of result ≡ end_of fetched }
{
    match fetched {
        Ok(Some(_)) => Ok(true),
        Ok(None) => Ok(false),
        Err(e) => Err(PlanError::new("fetch", fetch_variant(&e))),
    }
}

// The outcome of a session without a ref map.
fn unmapped(error: PlanError) -> Course
    ensures mapped { result.mapped ≡ None }
    ensures ended { result.ended ≡ Err error }
{
    Course {
        mapped: None,
        ended: Err(error),
    }
}

/// Runs a session.
pub(crate) fn run<'a, O: Objects, G: Objects, N: Negotiator, T: Transport>(
    alloc: Global,
    objects: &'a O,
    graph: &'a mut Graph<G>,
    negotiator: &'a mut N,
    context: init::Context,
    transport: &mut T,
) -> Course
    ensures { RunsPrinted
        (λ m h old new r. FetchesMapped
        (parties_of ⟦<Negotiation<'a, O, NoRefs, N, G, AllocError> as Negotiate>⟧.calls ⟦<ShallowMemory as ShallowStore>⟧.calls
        ⟦<NeverInterrupt as Interrupt>⟧.polls ⟦<ReadToEnd as ConsumePack<Discard>>⟧.consumes T.is_plain)
        (NegotiatesOver objects.now graph.old negotiator.old m)
        IsEmptyBoundary h old new r)
        context T.is_plain (T.reading transport.old) (T.reading transport.new) (mapped_text result.mapped) (ended_of result.ended) }
{
    let mut handshake = match handshake_without_account(alloc, transport) {
        Ok(handshake) => handshake,
        Err(e) => return unmapped(PlanError::new("handshake", handshake_variant(&e))),
    };
    let map = match map_refs(alloc, &mut handshake, context, transport) {
        Ok(map) => map,
        Err(e) => return unmapped(PlanError::new("refs", refs_variant(&e))),
    };
    let (printed, fetched) = fetch_mapped(
        alloc,
        objects,
        graph,
        negotiator,
        map,
        &mut handshake,
        transport,
    );
    Course {
        mapped: Some(printed),
        ended: ended(fetched),
    }
}
