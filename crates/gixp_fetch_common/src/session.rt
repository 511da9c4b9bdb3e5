//! The calls of a client's session, each with its failure: how it is opened, what is mapped, and what is fetched.
ghost use Rattle.std.specs.Prelude.{◌≡◌, ◌≤◌, ⊤, [], length, None, Ok, IfOk, IfErr, OnOk, string_bytes};
ghost use Rattle.std.specs.Option.{option_map};
ghost use Rattle.gix_protocol.specs.ClientCalls.{OpensSession, GivesRefs};
ghost use Rattle.gix_protocol.specs.ClientNames.{named_by};
ghost use Rattle.gix_protocol.specs.Fetch.{parties_of};
ghost use Rattle.gix_protocol.specs.Filters.{offers_filter};
ghost use Rattle.gix_protocol.specs.ServiceType.TheVariants.{UploadPack};
ghost use Rattle.gix_protocol.specs.SessionFetch.{FetchSucceedsInSession, FetchFailsInSession};
ghost use Rattle.gix_protocol.specs.SessionStateType.TheVariants.{AtStop};
ghost use Rattle.gix_protocol.specs.SessionStates.{state_after_outcome};
ghost use Rattle.gix_protocol.specs.ShakeProgress.{ReportsHandshake};
ghost use Rattle.gix_protocol.specs.Unshallowed.{KnowsAll};
ghost use Rattle.gixp_fetch_common.specs.RequestFilter.{SetsFilterIf, SetsFilterWhere};
ghost use Rattle.gixp_fetch_common.specs.Failures.{FailureIsUnsaid};
ghost use Rattle.gixp_fetch_common.specs.Mapped.{lists_all, ListsIf, MapsListed, IsUnlisted, IsUnmapped};
ghost use Rattle.gixp_fetch_common.specs.OfBoundary.{OfBoundary};
ghost use Rattle.gixp_fetch_common.specs.Unfetched.{hang_up_failure, FailureIsItself, FailureIsSessionError, FailsWithin};

use crate::failure::{Failure, Phase};
use crate::hang_up::is_hang_up;
use crate::haves::Haves;
use crate::pack_place::PackPlace;
use crate::receive::PackReceiver;
use crate::receive_error::ReceiveError;
use crate::repository::KnownRepository;
use gix_protocol::client::{
    self, Error, Fetched, Listener, PackError, Request, Session, SessionNegotiation,
};
use gix_protocol::fetch::negotiate::{
    Find, Negotiate, NegotiatesMap, Negotiator, Reached, RefStore, StoredObjects, StoredRefs,
};
use gix_protocol::fetch::{ConsumePack, RefMap, ShallowMemory, ShallowStore};
use gix_protocol::handshake::Ref;
use gix_protocol::transport::{Interrupt, NestedProgress, NeverInterrupt, Transport};
use std::alloc::{AllocError, Global};

/// What a fetch over a session needs: the ref map, the request, and which commits are offered.
#[derive(Clone, Copy)]
pub struct MappedFetch<'a> {
    pub map: &'a RefMap,
    pub request: &'a Request,
    pub haves: Haves,
    /// The file of the commits, for `Haves::InOrder`.
    pub commits: Option<&'a str>,
}

/// Up to how many refspecs the server is sent their prefixes (gitprotocol-v2, "ls-refs"). A server compares each ref with all prefixes,
/// so that from some 2,000 refspecs on this takes longer than listing 50,000 refs.
pub const MOST_PREFIXED: usize = 2048;

/// Adds a filter to the request where the server supports filters, and returns whether it does.
pub fn set_filter<T: Transport + Drop, L: Listener + Drop, S: NestedProgress + Drop>(
    session: &Session<T, L, S>,
    request: &mut Request,
    filter: &str,
) -> Result<bool, AllocError>
    ensures offered { IfOk result (λ can. can ≡ offers_filter session.now.shaken) }
    ensures set { IfOk result (λ can. SetsFilterIf can filter.now request.old request.new) }
{
    if !session.can_filter()? {
        return Ok(false);
    }
    match request.set_filter(filter) {
        Ok(()) => Ok(true),
        Err(_) => Err(AllocError),
    }
}

/// Adds the filter, if there is one, to the request where the server supports filters. Otherwise prints git's warning.
pub fn ask_filter<T: Transport + Drop, L: Listener + Drop, S: NestedProgress + Drop>(
    rt: &HostRuntime,
    session: &Session<T, L, S>,
    request: &mut Request,
    filter: Option<&str>,
) -> Result<(), Failure>
    ensures { OnOk result (SetsFilterWhere (offers_filter session.now.shaken) (option_map (λ w. w.now) filter.entry) request.old
        request.new) }
{
    let Some(filter) = filter else {
        return Ok(());
    };
    if !set_filter(session, request, filter)? {
        let _ = eprintln!(rt; "warning: filtering not recognized by server, ignoring");
    }
    Ok(())
}

// The failure of an error that is reported by its own text.
fn other_failure(alloc: Global, phase: Phase, error: &Error) -> Failure
    ensures { FailureIsUnsaid phase result }
{
    match format!(in alloc; "{error}") {
        Ok(why) => Failure::of_text(alloc, phase, why.as_str()),
        Err(_) => Failure::Memory,
    }
}

// The failure of a phase in which the server ended the connection.
fn hang_up_failure(phase: Phase) -> Failure
    ensures { result ≡ hang_up_failure phase }
{
    match phase {
        Phase::Handshake => Failure::NoContact,
        _ => Failure::HungUp,
    }
}

// The failure of an error whose reason isn't the connection.
fn failure_itself(alloc: Global, phase: Phase, error: &Error) -> Failure
    ensures { FailureIsItself phase error.now result }
{
    match error {
        Error::Handshake(e) => Failure::of_phase(alloc, phase, e),
        Error::Refs(e) => Failure::of_phase(alloc, phase, e),
        Error::Request(e) => Failure::of_phase(alloc, phase, e),
        Error::Answer(e) => Failure::of_phase(alloc, phase, e),
        Error::UnknownUnshallow { id } => Failure::UnknownUnshallow { id: *id },
        Error::Pack(PackError::Refused(why)) => Failure::of_text(alloc, phase, why.as_str()),
        Error::Memory => Failure::Memory,
        _ => other_failure(alloc, phase, error),
    }
}

/// The failure of a call of the session in a phase.
pub fn failure_of(alloc: Global, phase: Phase, error: &Error) -> Failure
    ensures { FailureIsSessionError phase error.now result }
{
    if is_hang_up(error) {
        return hang_up_failure(phase);
    }
    match error.reason() {
        Some(why) => Failure::of_text(alloc, phase, why),
        None => failure_itself(alloc, phase, error),
    }
}

/// Performs the handshake. `shown` reports progress.
pub fn open<T: Transport + Drop, L: Listener + Drop, S: NestedProgress + Drop>(
    alloc: Global,
    transport: T,
    agent: &str,
    listener: L,
    shown: S,
) -> Result<Session<T, L, S>, Failure>
    ensures opened { IfOk result (λ s. OpensSession [] T.is_plain (T.reading transport) (T.reading s.transport.inner) s.shaken) }
    ensures named { IfOk result (λ s. string_bytes s.name.agent ≡ agent.now) }
    ensures nameless { IfOk result (λ s. s.name.session_id ≡ None) }
    ensures state { IfOk result (λ s. s.state ≡ AtStop) }
    ensures reported { IfOk result (λ s. ReportsHandshake S.reported UploadPack [] (T.reading transport) shown (Ok s.shaken) s.progress) }
    ensures refused { IfErr result (FailsWithin Phase.Handshake (λ _. ⊤)) }
{
    match Session::open_with(
        alloc,
        transport,
        agent,
        listener,
        |_| Ok(None),
        Vec::new(alloc),
        shown,
    ) {
        Ok(session) => Ok(session),
        Err(e) => Err(failure_of(alloc, Phase::Handshake, &e)),
    }
}

/// Returns all refs of the server.
pub fn refs<T: Transport + Drop, L: Listener + Drop, S: NestedProgress + Drop>(
    alloc: Global,
    session: &mut Session<T, L, S>,
) -> Result<&[Ref], Failure>
    ensures given { IfOk result (λ refs. GivesRefs (named_by session.old.name) session.old.shaken T.is_plain
        (T.reading session.old.transport.inner) session.old.shaken.refs refs.now) }
    ensures refused { IfErr result (FailsWithin Phase.Listing (IsUnlisted session.old.state session.old.shaken.capabilities)) }
{
    match session.refs() {
        Ok(refs) => Ok(refs),
        Err(e) => Err(failure_of(alloc, Phase::Listing, &e)),
    }
}

// Lists all refs of the server where there are more than `MOST_PREFIXED` refspecs, so that no prefix is sent for the ref map.
fn list_for<T: Transport + Drop, L: Listener + Drop, S: NestedProgress + Drop>(
    alloc: Global,
    session: &mut Session<T, L, S>,
    count: usize,
) -> Result<(), Failure>
    ensures few { count ≤ MOST_PREFIXED → (result ≡ Ok tt) × (session.new ≡ session.old) }
    ensures listed { OnOk result (ListsIf (lists_all MOST_PREFIXED count session.old.shaken)
        (named_by session.old.name) session.old.shaken T.is_plain (T.reading session.old.transport.inner)
        (T.reading session.new.transport.inner) session.new.shaken) }
    ensures stays { OnOk result (session.new.state ≡ session.old.state) }
    ensures name { session.new.name ≡ session.old.name }
    ensures refused { IfErr result (FailsWithin Phase.Listing (IsUnlisted session.old.state session.old.shaken.capabilities)) }
{
    if count <= MOST_PREFIXED {
        return Ok(());
    }
    match session.list() {
        Ok(()) => Ok(()),
        Err(e) => Err(failure_of(alloc, Phase::Listing, &e)),
    }
}

/// The ref map of the request's refspecs.
#[tactic(auto, using(crate::proofs::FailureLemmas::unmapped))]
pub fn map<T: Transport + Drop, L: Listener + Drop, S: NestedProgress + Drop>(
    alloc: Global,
    session: &mut Session<T, L, S>,
    request: &Request,
) -> Result<RefMap, Failure>
    ensures mapped { IfOk result (λ m. MapsListed (lists_all MOST_PREFIXED (length request.now.refspecs.items) session.old.shaken)
        request.now (named_by session.old.name) session.old.shaken T.is_plain
        (T.reading session.old.transport.inner) (T.reading session.new.transport.inner) (Ok m)) }
    ensures refused { IfErr result (FailsWithin Phase.Listing (IsUnmapped session.old.state session.old.shaken.capabilities)) }
{
    match list_for(alloc, session, request.refspecs.len()) {
        Ok(()) => {}
        Err(e) => return Err(e),
    }
    match session.map(request) {
        Ok(map) => Ok(map),
        Err(e) => Err(failure_of(alloc, Phase::Listing, &e)),
    }
}

/// Fetches the mapped refs, without writing the boundary.
pub fn fetch<
    'a,
    T: Transport + Drop,
    L: Listener + Drop,
    S: NestedProgress + Drop,
    N: Negotiator,
    P: PackPlace,
>(
    alloc: Global,
    session: &mut Session<T, L, S>,
    repository: &mut KnownRepository,
    negotiator: &'a mut N,
    asked: MappedFetch<'a>,
    pack: &mut PackReceiver<P>,
) -> Result<Fetched, Failure>
where
    S::SubProgress: Drop,
    ensures fetched { IfOk result (λ f. OfBoundary (λ before. FetchSucceedsInSession
        (parties_of ⟦<SessionNegotiation<'a, Reached<'a, StoredObjects>, StoredRefs, N> as Negotiate>⟧.calls
        ⟦<ShallowMemory as ShallowStore>⟧.calls ⟦<NeverInterrupt as Interrupt>⟧.polls
        ⟦<PackReceiver<P> as ConsumePack<S>>⟧.consumes T.is_plain)
        ⟦<ReceiveError as Into<Error>>⟧.converts
        ⟦<SessionNegotiation<'a, Reached<'a, StoredObjects>, StoredRefs, N> as NegotiatesMap>⟧.map_of
        ⟦<SessionNegotiation<'a, Reached<'a, StoredObjects>, StoredRefs, N> as NegotiatesMap>⟧.knows
        T.reading asked.entry.map.now asked.entry.request.now (⟦<StoredObjects as Find>⟧.contents repository.old.objects)
        (⟦<StoredRefs as RefStore>⟧.refs repository.old.refs) (⟦<StoredRefs as RefStore>⟧.targets repository.old.refs)
        before session.old session.new pack.old pack.new f)
        repository.old.boundary.items) }
    ensures stands { IfOk result (λ f. session.new.state ≡ state_after_outcome session.old.shaken.server_protocol_version f.outcome) }
    ensures known { IfOk result (λ f. KnowsAll repository.old.boundary.items f.outcome) }
    ensures refused { IfErr result (FailsWithin Phase.Fetch (λ e. OfBoundary (λ before. FetchFailsInSession
        (parties_of ⟦<SessionNegotiation<'a, Reached<'a, StoredObjects>, StoredRefs, N> as Negotiate>⟧.calls
        ⟦<ShallowMemory as ShallowStore>⟧.calls ⟦<NeverInterrupt as Interrupt>⟧.polls
        ⟦<PackReceiver<P> as ConsumePack<S>>⟧.consumes T.is_plain)
        ⟦<ReceiveError as Into<Error>>⟧.converts
        ⟦<SessionNegotiation<'a, Reached<'a, StoredObjects>, StoredRefs, N> as NegotiatesMap>⟧.map_of
        ⟦<SessionNegotiation<'a, Reached<'a, StoredObjects>, StoredRefs, N> as NegotiatesMap>⟧.knows
        T.reading asked.entry.map.now asked.entry.request.now (⟦<StoredObjects as Find>⟧.contents repository.old.objects)
        (⟦<StoredRefs as RefStore>⟧.refs repository.old.refs) (⟦<StoredRefs as RefStore>⟧.targets repository.old.refs)
        before session.old session.new pack.old pack.new e)
        repository.old.boundary.items)) }
    ensures boundary { repository.new.boundary ≡ repository.old.boundary }
{
    let known = client::Repository {
        objects: &repository.objects,
        refs: &mut repository.refs,
        boundary: &repository.boundary,
    };
    match session.fetch_with(asked.map, known, asked.request, negotiator, pack) {
        Ok(fetched) => Ok(fetched),
        Err(e) => Err(failure_of(alloc, Phase::Fetch, &e)),
    }
}
