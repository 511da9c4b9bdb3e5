//! One fetch of a session.
ghost use Rattle.std.specs.Prelude.{◌≡◌, ◌≤◌, None, IfOk};
ghost use Rattle.std.specs.BTreeSet.{contains};
ghost use Rattle.gixp_hash.specs.ObjectId.{id_cmp};
ghost use Rattle.gixp_fetch.specs.Fetch.{parties_of};
ghost use Rattle.gixp_client.specs.ClientCalls.{HoldsAndReports, FetchesMap, session_call, session_knowledge};
ghost use Rattle.gixp_client.specs.ClientNames.{agent_of, own_features};
ghost use Rattle.gixp_client.specs.Unshallowed.{TakesKnown};
ghost use Rattle.gixp_client.specs.Windows.{most_haves};

use crate::error::Error;
use crate::filter::Filtered;
use crate::name::{SentName, identified, named};
use crate::refusal::report;
use crate::request::Request;
use crate::tags::sent_tags;
use crate::unshallow_check::{UnshallowCheck, known_alone};
use crate::windows::{MOST_HAVES, Windowed};
use gixp_fetch::consume::ConsumePack;
use gixp_fetch::fetch::fetch_with_features;
use gixp_fetch::mapped::NegotiatesMap;
use gixp_fetch::options::{Context, Options, Outcome};
use gixp_graph::{Find, Graph, Negotiator, RefStore, Shared};
use gixp_handshake::Handshake;
use gixp_hash::ObjectId;
use gixp_memory::NoAlternates;
use gixp_negotiate::negotiate::Negotiate;
use gixp_negotiate::negotiate::negotiation::{NegotiateContext, Negotiation};
use gixp_packetline::Protocol;
use gixp_progress::NestedProgress;
use gixp_refmap::RefMap;
use gixp_shallow::{ShallowMemory, ShallowStore};
use gixp_sidebands::{Interrupt, NeverInterrupt};
use gixp_transport::Transport;
use std::alloc::Global;
use std::collections::BTreeSet;

/// The negotiation over a ref map, without the parts that a session adds.
pub(crate) type MapNegotiation<'a, F, R, N> = Negotiation<
    'a,
    Shared<'a, F>,
    R,
    N,
    Shared<'a, F>,
    NoAlternates,
>;

/// The negotiation of a session's fetch, without the check of shallow updates.
pub type FilteredNegotiation<'a, F, R, N> = Filtered<'a, Windowed<MapNegotiation<'a, F, R, N>>>;

/// The negotiation of a session's fetch.
pub type SessionNegotiation<'a, F, R, N> = UnshallowCheck<'a, FilteredNegotiation<'a, F, R, N>>;

/// The limit of haves in one request.
pub(crate) fn most_haves(version: Protocol, is_over_pipes: bool) -> usize
    ensures some { 16 ≤ result }
    ensures limit { result ≡ most_haves version is_over_pipes }
{
    match version {
        Protocol::V2 => usize::MAX,
        Protocol::V0 | Protocol::V1 => {
            if is_over_pipes {
                MOST_HAVES
            } else {
                usize::MAX
            }
        }
    }
}

/// The parameters of a fetch.
pub(crate) struct Wanted<'a, F, R, N> {
    pub(crate) map: &'a RefMap,
    pub(crate) objects: &'a F,
    pub(crate) refs: &'a mut R,
    pub(crate) request: &'a Request,
    pub(crate) negotiator: &'a mut N,
    /// The shallow boundary. The server may unshallow only ids in it.
    pub(crate) boundary: &'a BTreeSet<ObjectId>,
}

/// The server of a fetch, and the progress reporter.
pub(crate) struct Peer<'s, T, P> {
    pub(crate) shaken: &'s mut Handshake,
    pub(crate) transport: &'s mut T,
    pub(crate) progress: &'s mut P,
}

// Fetches by a negotiation. No signature here names a static lifetime, as the negotiation has lifetimes of its own.
fn fetch_over<N: Negotiate, T: Transport, P: NestedProgress, C: ConsumePack<P>>(
    alloc: Global,
    negotiation: &mut N,
    name: SentName,
    request: &Request,
    peer: Peer<'_, T, P>,
    store: &mut ShallowMemory,
    pack: &mut C,
) -> Result<Option<Outcome>, Error>
where
    P::SubProgress: Drop,
    C::Error: Into<Error>,
    ensures taken { peer.exit.0.now ≡ record peer.entry.shaken.now { v1_shallow_updates = None } }
    ensures fetched { HoldsAndReports
        (parties_of N.calls ⟦<ShallowMemory as ShallowStore>⟧.calls ⟦<NeverInterrupt as Interrupt>⟧.polls C.consumes T.is_plain)
        ⟦<C::Error as Into<Error>>⟧.converts
        (session_call peer.entry.shaken.now (agent_of name.agent) (own_features name.session_id) request.now).fetch negotiation.old
        (T.reading peer.entry.transport.now) store.old pack.old result negotiation.new (T.reading peer.exit.1.0.now) store.new
        pack.new }
{
    let Peer {
        shaken,
        transport,
        progress,
    } = peer;
    let Ok(more) = identified(alloc, name.session_id) else {
        shaken.v1_shallow_updates = None;
        return Err(Error::Memory);
    };
    let tags = sent_tags(request.tags, shaken);
    let context = Context {
        handshake: shaken,
        transport,
        table: &request.table(),
    };
    let options = Options {
        shallow_file: store,
        shallow: &request.shallow,
        tags,
        reject_shallow_remote: request.rejects_shallow,
    };
    let mut never = NeverInterrupt;
    let received = fetch_with_features(
        alloc,
        negotiation,
        pack,
        progress,
        &mut never,
        named(name.agent),
        more,
        context,
        options,
    );
    report(alloc, received)
}

/// Fetches the mapped refs, and returns whether a round was negotiated. Everything that the negotiation borrows is local to this
/// function.
pub(crate) fn fetch_mapped<
    'a,
    F: Find,
    R: RefStore,
    N: Negotiator,
    T: Transport,
    P: NestedProgress,
    C: ConsumePack<P>,
>(
    alloc: Global,
    wanted: Wanted<'a, F, R, N>,
    name: SentName,
    peer: Peer<'_, T, P>,
    store: &mut ShallowMemory,
    pack: &mut C,
) -> (Result<Option<Outcome>, Error>, bool)
where
    P::SubProgress: Drop,
    C::Error: Into<Error>,
    ensures taken { peer.exit.0.now ≡ record peer.entry.shaken.now { v1_shallow_updates = None } }
    ensures fetched { (f : FetchesMap
        (parties_of ⟦<SessionNegotiation<'a, F, R, N> as Negotiate>⟧.calls ⟦<ShallowMemory as ShallowStore>⟧.calls
        ⟦<NeverInterrupt as Interrupt>⟧.polls C.consumes T.is_plain)
        ⟦<C::Error as Into<Error>>⟧.converts
        ⟦<SessionNegotiation<'a, F, R, N> as NegotiatesMap>⟧.map_of ⟦<SessionNegotiation<'a, F, R, N> as NegotiatesMap>⟧.knows
        (session_call peer.entry.shaken.now (agent_of name.agent) (own_features name.session_id) wanted.entry.request.now) wanted.entry.map.now
        (record {
          tags = wanted.entry.request.now.tags;
          shallow = wanted.entry.request.now.shallow;
          commits = F.contents wanted.entry.objects.now;
          existing = F.contents wanted.entry.objects.now;
          refs = R.refs wanted.entry.refs.now;
        })
        (contains id_cmp wanted.entry.boundary.now)
        (T.reading peer.entry.transport.now) store.old pack.old result.0 (T.reading peer.exit.1.0.now) store.new pack.new)
        × (f.last.negotiated ≡ result.1) }
    ensures known { IfOk result.0 (TakesKnown (contains id_cmp wanted.entry.boundary.now)) }
{
    let Wanted {
        map,
        objects,
        refs,
        request,
        negotiator,
        boundary,
    } = wanted;
    let most = most_haves(peer.shaken.server_protocol_version, request.is_over_pipes);
    let shared = Shared::new(objects);
    let mut graph = Graph::new(alloc, Shared::new(objects));
    let context = NegotiateContext {
        objects: &shared,
        refs,
        alternates: Ok::<_, NoAlternates>(&mut []),
        negotiator,
        graph: &mut graph,
    };
    let negotiation = Negotiation::new(context, map, &request.shallow, request.tags);
    let windowed = Windowed::new(negotiation, most);
    let filtered = Filtered::new(windowed, request.filter.as_deref());
    let mut unshallow_check = UnshallowCheck::new(filtered, boundary);
    let received = fetch_over(
        alloc,
        &mut unshallow_check,
        name,
        request,
        peer,
        store,
        pack,
    );
    let report = known_alone(received, unshallow_check.unknown(), boundary);
    (report, unshallow_check.is_negotiated())
}
