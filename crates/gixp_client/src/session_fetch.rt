//! What the fetches of a session promise.
ghost use Rattle.std.specs.Prelude.{ℕ, List};
ghost use Rattle.gixp_refmap.specs.declared.refmap.map.RefMap.{RefMap};
ghost use Rattle.gixp_fetch.specs.Fetch.{parties_of};
ghost use Rattle.gixp_client.specs.SessionFetch.{FetchSucceedsInSession, FetchFailsInSession, FetchesOnce, FailsOnce};
ghost use Rattle.gixp_client.specs.declared.error.Error.{Error as SessionError};
ghost use Rattle.gixp_client.specs.declared.fetched.Fetched.{Fetched};
ghost use Rattle.gixp_client.specs.declared.repository.Repository.{Repository};
ghost use Rattle.gixp_client.specs.declared.request.Request.{Request};
ghost use Rattle.gixp_client.specs.declared.session.Session.{Session};

use crate::error::Error;
use crate::listen::Listener;
use crate::run::SessionNegotiation;
use gixp_fetch::consume::ConsumePack;
use gixp_fetch::mapped::NegotiatesMap;
use gixp_graph::{Find, Negotiator, RefStore};
use gixp_negotiate::negotiate::Negotiate;
use gixp_progress::NestedProgress;
use gixp_reachable::Reached;
use gixp_shallow::{ShallowMemory, ShallowStore};
use gixp_sidebands::{Interrupt, NeverInterrupt};
use gixp_transport::Transport;

/// What the fetches of a session promise with this negotiator, for contracts. Every [`Negotiator`] has it, and there is nothing to
/// call or to implement.
pub trait SessionFetch<
    'a,
    T: Transport + Drop,
    L: Listener + Drop,
    P: NestedProgress + Drop,
    F: Find,
    R: RefStore,
    C: ConsumePack<P>,
> {
    /// A successful fetch: the map, the repository, the request; the session before and after it, the consumer before and after
    /// it; its result.
    ghost succeeds: { RefMap → Repository F R → Request → Session T L P P.SubProgress → Session T L P P.SubProgress → C → C → Fetched → Type 0 };

    /// A failed fetch, in the same order, with its error.
    ghost fails: { RefMap → Repository F R → Request → Session T L P P.SubProgress → Session T L P P.SubProgress → C → C → SessionError → Type 0 };

    /// A session with one fetch: the agent, the repository, the request; the transport; the consumer before and after it; the map
    /// and its result.
    ghost succeeds_once: { List ℕ → Repository F R → Request → T → C → C → RefMap × Fetched → Type 0 };

    /// Such a session that failed, in the same order, with its error.
    ghost fails_once: { List ℕ → Repository F R → Request → T → C → C → SessionError → Type 0 };
}

impl<
    'a,
    T: Transport + Drop,
    L: Listener + Drop,
    P: NestedProgress + Drop,
    F: Find + 'a,
    R: RefStore + 'a,
    N: Negotiator + 'a,
    C: ConsumePack<P>,
> SessionFetch<'a, T, L, P, F, R, C> for N
where
    C::Error: Into<Error>,
{
    ghost succeeds = { λ map repository request old new pack pack' f. FetchSucceedsInSession
        (parties_of ⟦<SessionNegotiation<'a, Reached<'a, F>, R, N> as Negotiate>⟧.calls ⟦<ShallowMemory as ShallowStore>⟧.calls
        ⟦<NeverInterrupt as Interrupt>⟧.polls C.consumes T.is_plain)
        ⟦<C::Error as Into<Error>>⟧.converts
        ⟦<SessionNegotiation<'a, Reached<'a, F>, R, N> as NegotiatesMap>⟧.map_of ⟦<SessionNegotiation<'a, Reached<'a, F>, R, N> as NegotiatesMap>⟧.knows
        T.reading map request (F.contents repository.objects.now) (R.refs repository.refs.now) (R.targets repository.refs.now) repository.boundary.now
        old new pack pack' f };

    ghost fails = { λ map repository request old new pack pack' e. FetchFailsInSession
        (parties_of ⟦<SessionNegotiation<'a, Reached<'a, F>, R, N> as Negotiate>⟧.calls ⟦<ShallowMemory as ShallowStore>⟧.calls
        ⟦<NeverInterrupt as Interrupt>⟧.polls C.consumes T.is_plain)
        ⟦<C::Error as Into<Error>>⟧.converts
        ⟦<SessionNegotiation<'a, Reached<'a, F>, R, N> as NegotiatesMap>⟧.map_of ⟦<SessionNegotiation<'a, Reached<'a, F>, R, N> as NegotiatesMap>⟧.knows
        T.reading map request (F.contents repository.objects.now) (R.refs repository.refs.now) (R.targets repository.refs.now) repository.boundary.now
        old new pack pack' e };

    ghost succeeds_once = { λ agent repository request transport pack pack' received. FetchesOnce
        (parties_of ⟦<SessionNegotiation<'a, Reached<'a, F>, R, N> as Negotiate>⟧.calls ⟦<ShallowMemory as ShallowStore>⟧.calls
        ⟦<NeverInterrupt as Interrupt>⟧.polls C.consumes T.is_plain)
        ⟦<C::Error as Into<Error>>⟧.converts
        ⟦<SessionNegotiation<'a, Reached<'a, F>, R, N> as NegotiatesMap>⟧.map_of ⟦<SessionNegotiation<'a, Reached<'a, F>, R, N> as NegotiatesMap>⟧.knows
        T.reading agent request (F.contents repository.objects.now) (R.refs repository.refs.now) (R.targets repository.refs.now) repository.boundary.now
        transport pack pack' received };

    ghost fails_once = { λ agent repository request transport pack pack' e. FailsOnce L P.SubProgress
        (parties_of ⟦<SessionNegotiation<'a, Reached<'a, F>, R, N> as Negotiate>⟧.calls ⟦<ShallowMemory as ShallowStore>⟧.calls
        ⟦<NeverInterrupt as Interrupt>⟧.polls C.consumes T.is_plain)
        ⟦<C::Error as Into<Error>>⟧.converts
        ⟦<SessionNegotiation<'a, Reached<'a, F>, R, N> as NegotiatesMap>⟧.map_of ⟦<SessionNegotiation<'a, Reached<'a, F>, R, N> as NegotiatesMap>⟧.knows
        T.reading agent request (F.contents repository.objects.now) (R.refs repository.refs.now) (R.targets repository.refs.now) repository.boundary.now
        transport pack pack' e };
}
