//! The fetches of a session.
ghost use Rattle.std.specs.Prelude.{◌≡◌, ◌≢◌, ◌⊎◌, [], true, false, None, Ok, Err, IfOk, IfErr, OnOk, Option, Result};
ghost use Rattle.std.specs.BTreeSet.{contains};
ghost use Rattle.gixp_hash.specs.ObjectId.{id_cmp};
ghost use Rattle.gixp_response.specs.Answer.{update_items};
ghost use Rattle.gixp_fetch.specs.declared.options.Outcome.{Outcome};
ghost use Rattle.gixp_fetch.specs.Fetch.{parties_of};
ghost use Rattle.gixp_client.specs.ClientCalls.{session_call, session_knowledge, FetchesMap};
ghost use Rattle.gixp_client.specs.ClientError.{IsUnsent};
ghost use Rattle.gixp_client.specs.ClientNames.{agent_of, own_features};
ghost use Rattle.gixp_client.specs.Filters.{FilterIsOffered};
ghost use Rattle.gixp_client.specs.Unshallowed.{TakesKnown, KnowsAll};
ghost use Rattle.gixp_client.specs.SessionStates.{state_after_outcome, state_after_fetch, is_reported, IsReportIn};

use crate::boundary::Boundary;
use crate::doubt::reached;
use crate::error::Error;
use crate::fetched::Fetched;
use crate::listen::{Kept, Listener};
use crate::name::SentName;
use crate::outcome::{
    can_filter, copied_updates, finish_fetch, is_reported, reported, store_of, updates_left,
};
use crate::refusal::missing;
use crate::repository::Repository;
use crate::request::Request;
use crate::run::{Peer, SessionNegotiation, Wanted, fetch_mapped};
use crate::session::Session;
use crate::session_fetch::SessionFetch;
use crate::state::{State, state_after_fetch};
use gixp_fetch::consume::ConsumePack;
use gixp_fetch::mapped::NegotiatesMap;
use gixp_fetch::options::Outcome;
use gixp_graph::{Find, Negotiator, RefStore};
use gixp_negotiate::negotiate::Negotiate;
use gixp_negotiators::AnyNegotiator;
use gixp_progress::NestedProgress;
use gixp_reachable::ids::set_of;
use gixp_refmap::RefMap;
use gixp_shallow::{ShallowMemory, ShallowStore, ShallowUpdate};
use gixp_sidebands::{Interrupt, NeverInterrupt};
use gixp_transport::Transport;
use std::alloc::Global;

impl<T: Transport + Drop, L: Listener + Drop, P: NestedProgress + Drop> Session<T, L, P>
where
    P::SubProgress: Drop,
{
    // Returns `MissingFeature` if the request has a filter and the server offers none.
    fn expect_filter(&self, request: &Request) -> Result<(), Error>
        ensures offered { OnOk result (FilterIsOffered request.now.filter self.now.shaken) }
        ensures refused { IfErr result (IsUnsent self.now.state request.now self.now.shaken) }
    {
        if request.filter.is_none() || can_filter(self.alloc, &self.shaken)? {
            Ok(())
        } else {
            Err(missing(self.alloc, "filter"))
        }
    }

    // Fetches, and sets the state of the session. The fetch consumes the shallow updates that the handshake received, so it gets
    // the copy `report`. If it negotiates no round, the session keeps the updates.
    fn carry_out<'a, F: Find, R: RefStore, N: Negotiator, C: ConsumePack<P>>(
        &mut self,
        wanted: Wanted<'a, F, R, N>,
        name: SentName,
        report: Option<Vec<ShallowUpdate>>,
        store: &mut ShallowMemory,
        pack: &mut C,
    ) -> Result<Option<Outcome>, Error>
    where
        C::Error: Into<Error>,
        requires { update_items report ≡ update_items self.old.shaken.v1_shallow_updates }
        ensures fetched { (f : FetchesMap
            (parties_of ⟦<SessionNegotiation<'a, F, R, N> as Negotiate>⟧.calls ⟦<ShallowMemory as ShallowStore>⟧.calls
            ⟦<NeverInterrupt as Interrupt>⟧.polls C.consumes T.is_plain)
            ⟦<C::Error as Into<Error>>⟧.converts
            ⟦<SessionNegotiation<'a, F, R, N> as NegotiatesMap>⟧.map_of ⟦<SessionNegotiation<'a, F, R, N> as NegotiatesMap>⟧.knows
            (session_call self.old.shaken (agent_of name.agent) (own_features name.session_id)
            wanted.entry.request.now) wanted.entry.map.now
            (session_knowledge wanted.entry.request.now (F.contents wanted.entry.objects.now) (R.refs wanted.entry.refs.now))
            (contains id_cmp wanted.entry.boundary.now)
            (T.reading self.old.transport.inner) store.old pack.old result (T.reading self.new.transport.inner) store.new pack.new)
            × (self.new.state ≡ state_after_fetch f.last.negotiated self.old.shaken.server_protocol_version result)
            × (f.last.negotiated ≡ false → self.new.shaken ≡ self.old.shaken) }
        ensures known { IfOk result (TakesKnown (contains id_cmp wanted.entry.boundary.now)) }
        ensures handshake { self.new.shaken ≡ record self.old.shaken { v1_shallow_updates = self.new.shaken.v1_shallow_updates } }
        ensures name { self.new.name ≡ self.old.name }
    {
        let version = self.shaken.server_protocol_version;
        let alloc = self.alloc;
        let first = self.shaken.v1_shallow_updates.take();
        self.shaken.v1_shallow_updates = report;
        let peer = Peer {
            shaken: &mut self.shaken,
            transport: &mut self.transport,
            progress: &mut self.progress,
        };
        let (received, is_negotiated) = fetch_mapped(alloc, wanted, name, peer, store, pack);
        self.shaken.v1_shallow_updates = updates_left(first, is_negotiated);
        self.state = state_after_fetch(is_negotiated, version, &received);
        received
    }

    // Returns the error that the server reported on band 3, if any, in place of the result. A server that reports one closes the
    // connection.
    fn unless_reported(
        &mut self,
        received: Result<Option<Outcome>, Error>,
        messages: &Kept,
        goes_on: bool,
    ) -> Result<Option<Outcome>, Error>
        ensures reported { ((is_reported goes_on messages.now.has_error ≡ false) × (result ≡ received) × (self.new.state ≡ self.old.state))
            ⊎ ((is_reported goes_on messages.now.has_error ≡ true) × IsReportIn messages.now result × (self.new.state ≡ State.Ended)) }
        ensures transport { self.new.transport.inner ≡ self.old.transport.inner }
        ensures others { self.new ≡ record self.old { state = self.new.state } }
    {
        if is_reported(messages, goes_on) {
            self.state = State::Ended;
            return Err(reported(messages));
        }
        received
    }

    /// Fetches the refs of the map as the request says. The pack goes to the consumer, for example a `CopyPack` over a writer. If
    /// the map is empty, nothing is sent. A server that unshallows an id that isn't in the boundary is rejected after the pack was
    /// received.
    ///
    /// # Errors
    ///
    /// Those of [`Error`]. The caller must then discard what the consumer received, and leave the boundary and the refs unchanged.
    /// `state` says whether another call is possible. If no round was negotiated, nothing was sent, and only the listener and the
    /// progress reporter have changed.
    ///
    /// [`SessionFetch`](crate::SessionFetch) has the relations of the contract.
    pub fn fetch<'a, F: Find, R: RefStore, C: ConsumePack<P>>(
        &mut self,
        map: &'a RefMap,
        repository: Repository<'a, F, R>,
        request: &'a Request,
        pack: &mut C,
    ) -> Result<Fetched, Error>
    where
        C::Error: Into<Error>,
        ensures over { self.old.state ≢ State.AtStop → (result ≡ Err Error.Over) × (self.new ≡ self.old) × (pack.new ≡ pack.old) }
        ensures fetched { IfOk result (⟦<AnyNegotiator as SessionFetch<'a, T, L, P, F, R, C>>⟧.succeeds map.now repository.entry
            request.now self.old self.new pack.old pack.new) }
        ensures position { IfOk result (λ f. self.new.state ≡ state_after_outcome self.old.shaken.server_protocol_version f.outcome) }
        ensures known { IfOk result (λ f. KnowsAll repository.entry.boundary.now f.outcome) }
        ensures refused { IfErr result (⟦<AnyNegotiator as SessionFetch<'a, T, L, P, F, R, C>>⟧.fails map.now repository.entry
            request.now self.old self.new pack.old pack.new) }
        ensures unreported { IfOk result (λ f. is_reported request.now.goes_on f.messages.has_error ≡ false) }
        ensures filtered { OnOk result ((map.now.mappings.items ≡ []) ⊎ FilterIsOffered request.now.filter self.old.shaken) }
        ensures handshake { self.new.shaken ≡ record self.old.shaken { v1_shallow_updates = self.new.shaken.v1_shallow_updates } }
        ensures name { self.new.name ≡ self.old.name }
    {
        let mut negotiator = request.algorithm.negotiator(self.alloc);
        self.fetch_with(map, repository, request, &mut negotiator, pack)
    }

    /// Like `fetch`, with the caller's negotiator in place of the request's algorithm. A negotiator serves one fetch.
    ///
    /// # Errors
    ///
    /// As `fetch`.
    pub fn fetch_with<'a, F: Find, R: RefStore, N: Negotiator, C: ConsumePack<P>>(
        &mut self,
        map: &'a RefMap,
        repository: Repository<'a, F, R>,
        request: &'a Request,
        negotiator: &'a mut N,
        pack: &mut C,
    ) -> Result<Fetched, Error>
    where
        C::Error: Into<Error>,
        ensures over { self.old.state ≢ State.AtStop → (result ≡ Err Error.Over) × (self.new ≡ self.old) × (pack.new ≡ pack.old) }
        ensures fetched { IfOk result (⟦<N as SessionFetch<'a, T, L, P, F, R, C>>⟧.succeeds map.now repository.entry
            request.now self.old self.new pack.old pack.new) }
        ensures position { IfOk result (λ f. self.new.state ≡ state_after_outcome self.old.shaken.server_protocol_version f.outcome) }
        ensures known { IfOk result (λ f. KnowsAll repository.entry.boundary.now f.outcome) }
        ensures refused { IfErr result (⟦<N as SessionFetch<'a, T, L, P, F, R, C>>⟧.fails map.now repository.entry
            request.now self.old self.new pack.old pack.new) }
        ensures unreported { IfOk result (λ f. is_reported request.now.goes_on f.messages.has_error ≡ false) }
        ensures filtered { OnOk result ((map.now.mappings.items ≡ []) ⊎ FilterIsOffered request.now.filter self.old.shaken) }
        ensures handshake { self.new.shaken ≡ record self.old.shaken { v1_shallow_updates = self.new.shaken.v1_shallow_updates } }
        ensures name { self.new.name ≡ self.old.name }
    {
        self.expect_open()?;
        let alloc = self.alloc;
        let before = repository.boundary;
        if map.is_empty() {
            return Ok(Fetched {
                outcome: None,
                boundary: Boundary::kept(alloc, before)?,
                messages: Kept::new(alloc),
            });
        }
        self.expect_filter(request)?;
        let name = self.name.sent(alloc, &self.shaken.capabilities)?;
        let report = copied_updates(alloc, &self.shaken.v1_shallow_updates)?;
        let mut store = store_of(alloc, before)?;
        let known = set_of(alloc, before)?;
        let Repository {
            objects,
            refs,
            boundary: _,
        } = repository;
        let objects = reached(alloc, objects, refs, map, request.trusts_objects)?;
        let wanted = Wanted {
            map,
            objects: &objects,
            refs,
            request,
            negotiator,
            boundary: &known,
        };
        let received = self.carry_out(wanted, name, report, &mut store, pack);
        let messages = self.transport.take_kept(alloc);
        let received = self.unless_reported(received, &messages, request.goes_on);
        let after = store.ids();
        match finish_fetch(alloc, received, messages, request, before, after) {
            Ok(fetched) => Ok(fetched),
            Err(why) => Err(why),
        }
    }
}
