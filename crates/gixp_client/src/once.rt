//! A session with one fetch.
ghost use Rattle.std.specs.Prelude.{IfOk, IfErr};

use crate::error::Error;
use crate::fetched::Fetched;
use crate::laws::sessions_are_runs;
use crate::listen::Listener;
use crate::repository::Repository;
use crate::request::Request;
use crate::run::MapNegotiation;
use crate::session::Session;
use crate::session_fetch::SessionFetch;
use gixp_fetch::consume::ConsumePack;
use gixp_graph::{Find, Negotiator, RefStore};
use gixp_negotiators::AnyNegotiator;
use gixp_progress::Discard;
use gixp_reachable::Reached;
use gixp_refmap::RefMap;
use gixp_sidebands::NeverInterrupt;
use gixp_transport::Transport;
use std::alloc::Global;

/// Opens a session, maps and fetches what the request asks for, and closes the session. This is one run of the law
/// [`headline`](gixp_fetch::laws::headline), unless the map is empty or ids were fetched without a list of refs.
///
/// # Errors
///
/// Those of [`Session::open`], [`Session::map`] and [`Session::fetch`].
pub fn fetch_once<
    'a,
    T: Transport + Drop,
    L: Listener + Drop,
    F: Find,
    R: RefStore,
    C: ConsumePack<Discard>,
>(
    alloc: Global,
    transport: T,
    agent: &str,
    listener: L,
    request: &'a Request,
    repository: Repository<'a, F, R>,
    pack: &mut C,
) -> Result<(RefMap, Fetched), Error>
where
    C::Error: Into<Error>,
    ensures fetched { IfOk result (⟦<AnyNegotiator as SessionFetch<'a, T, L, Discard, F, R, C>>⟧.succeeds_once agent.now
        repository.entry request.now transport pack.old pack.new) }
    ensures refused { IfErr result (⟦<AnyNegotiator as SessionFetch<'a, T, L, Discard, F, R, C>>⟧.fails_once agent.now
        repository.entry request.now transport pack.old pack.new) }
{
    let mut negotiator = request.algorithm.negotiator(alloc);
    fetch_once_with(
        alloc,
        transport,
        agent,
        listener,
        request,
        repository,
        &mut negotiator,
        pack,
    )
}

/// Like [`fetch_once`], with the caller's negotiator in place of the request's algorithm. A negotiator serves one fetch.
///
/// # Errors
///
/// As [`fetch_once`].
pub fn fetch_once_with<
    'a,
    T: Transport + Drop,
    L: Listener + Drop,
    F: Find,
    R: RefStore,
    N: Negotiator,
    C: ConsumePack<Discard>,
>(
    alloc: Global,
    transport: T,
    agent: &str,
    listener: L,
    request: &'a Request,
    repository: Repository<'a, F, R>,
    negotiator: &'a mut N,
    pack: &mut C,
) -> Result<(RefMap, Fetched), Error>
where
    C::Error: Into<Error>,
    ensures fetched { IfOk result (⟦<N as SessionFetch<'a, T, L, Discard, F, R, C>>⟧.succeeds_once agent.now
        repository.entry request.now transport pack.old pack.new) }
    ensures refused { IfErr result (⟦<N as SessionFetch<'a, T, L, Discard, F, R, C>>⟧.fails_once agent.now
        repository.entry request.now transport pack.old pack.new) }
{
    let mut session = Session::open(alloc, transport, agent, listener)?;
    let map = session.map(request)?;
    let fetched = session.fetch_with(&map, repository, request, negotiator, pack)?;
    sessions_are_runs::<MapNegotiation<'a, Reached<'a, F>, R, N>, NeverInterrupt, Discard, C>();
    let _ = session.close();
    Ok((map, fetched))
}
