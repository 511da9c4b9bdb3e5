//! A fetch with all promises of the law `headline`, for the types of this crate.
ghost use Rattle.std.specs.Prelude.{◌≡◌, ◌⊎◌, [], None, Ok, IfOk, codes};
ghost use Rattle.gix_protocol.specs.Reading.{Reading};
ghost use Rattle.gix_protocol.specs.Fetch.{parties_of};
ghost use Rattle.gix_protocol.specs.ClientCalls.{session_knowledge};
ghost use Rattle.gix_protocol.specs.ClientNames.{client_feature};
ghost use Rattle.gix_protocol.specs.ClientPromise.{IsRunOrIds};
ghost use Rattle.gix_protocol.specs.Doubted.{doubted};
ghost use Rattle.gix_protocol.specs.Object.{Objects};
ghost use Rattle.gix_protocol.specs.Reached.{ShowsReached};

use crate::objects::SortedObjects;
use crate::pack::{LimitedPack, PackTooLarge};
use crate::refs::SortedRefs;
use gix_protocol::client::{
    Error, Fetched, Repository, Request, SessionNegotiation, Silent, fetch_once,
};
use gix_protocol::fetch::negotiate::{
    AnyNegotiator, Find, Negotiate, NegotiatesMap, Reached, RefStore,
};
use gix_protocol::fetch::{ConsumePack, RefMap, ShallowMemory, ShallowStore};
use gix_protocol::transport::{Discard, Interrupt, NeverInterrupt, Transport};
use std::alloc::Global;
use std::io::Write;

/// Fetches what a request asks for. Unless the map is empty or the refspecs are ids, the fetch is one run of the law `headline`. The
/// field `promise` of `IsOneRun` has the law's promises: about its refs, its mappings, its requests and their number, and the bytes
/// of its pack.
pub fn promised_fetch<'a, T: Transport + Drop, W: Write>(
    alloc: Global,
    transport: T,
    request: &'a Request,
    repository: Repository<'a, SortedObjects, SortedRefs>,
    pack: &mut LimitedPack<W>,
) -> Result<(RefMap, Fetched), Error>
    ensures { IfOk result (λ received. ((received.0.mappings.items ≡ []) × (received.1.outcome ≡ None) × (pack.new ≡ pack.old))
        ⊎ ((reached : Objects) × (end : Reading)
        × ShowsReached (⟦<SortedObjects as Find>⟧.contents repository.entry.objects.now) (⟦<SortedRefs as RefStore>⟧.targets repository.entry.refs.now)
        (doubted request.now.trusts_objects (⟦<SortedObjects as Find>⟧.contents repository.entry.objects.now)
        (⟦<SortedRefs as RefStore>⟧.refs repository.entry.refs.now) received.0.mappings.items) reached
        × IsRunOrIds
        (parties_of ⟦<SessionNegotiation<'a, Reached<'a, SortedObjects>, SortedRefs, AnyNegotiator> as Negotiate>⟧.calls
        ⟦<ShallowMemory as ShallowStore>⟧.calls ⟦<NeverInterrupt as Interrupt>⟧.polls ⟦<LimitedPack<W> as ConsumePack<Discard>>⟧.consumes
        T.is_plain)
        ⟦<PackTooLarge as Into<Error>>⟧.converts
        ⟦<SessionNegotiation<'a, Reached<'a, SortedObjects>, SortedRefs, AnyNegotiator> as NegotiatesMap>⟧.map_of
        ⟦<SessionNegotiation<'a, Reached<'a, SortedObjects>, SortedRefs, AnyNegotiator> as NegotiatesMap>⟧.knows
        (client_feature (codes "watcher/1.0")) [] request.now (T.reading transport) received.0
        (session_knowledge request.now reached (⟦<SortedRefs as RefStore>⟧.refs repository.entry.refs.now))
        repository.entry.boundary.now pack.old (Ok received.1.outcome) end pack.new)) }
{
    fetch_once(
        alloc,
        transport,
        "watcher/1.0",
        Silent,
        request,
        repository,
        pack,
    )
}
