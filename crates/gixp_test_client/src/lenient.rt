//! A fetch with a negotiator that skips unreadable commits.
ghost use Rattle.std.specs.Prelude.{◌≡◌, ◌⊎◌, [], None, Ok, IfOk, codes};
ghost use Rattle.gixp_packetline.specs.Reading.{Reading};
ghost use Rattle.gixp_fetch.specs.Fetch.{parties_of};
ghost use Rattle.gixp_client.specs.ClientCalls.{session_knowledge};
ghost use Rattle.gixp_client.specs.ClientNames.{client_feature};
ghost use Rattle.gixp_client.specs.ClientPromise.{IsRunOrIds};
ghost use Rattle.gixp_client.specs.Doubted.{doubted};
ghost use Rattle.gixp_graph.specs.Object.{Objects};
ghost use Rattle.gixp_reachable.specs.Reached.{ShowsReached};

use crate::fetches::branches;
use crate::servers::{GREETING, PACK, REFS, server};
use gixp_client::{
    Error, Fetched, Repository, Request, SessionNegotiation, Silent, fetch_once_with,
};
use gixp_doubles::Lenient;
use gixp_fetch::consume::{ConsumePack, CopyError, CopyPack};
use gixp_fetch::mapped::NegotiatesMap;
use gixp_graph::{Find, RefStore};
use gixp_memory::{StoredObjects, StoredRefs};
use gixp_negotiate::negotiate::Negotiate;
use gixp_progress::Discard;
use gixp_reachable::Reached;
use gixp_refmap::RefMap;
use gixp_shallow::{ShallowMemory, ShallowStore};
use gixp_sidebands::{Interrupt, NeverInterrupt};
use gixp_transport::Transport;
use std::alloc::Global;
use std::io::Write;

// Such a fetch is one run of the law.
fn fetch_leniently<'a, T: Transport + Drop, W: Write>(
    alloc: Global,
    transport: T,
    request: &'a Request,
    repository: Repository<'a, StoredObjects, StoredRefs>,
    negotiator: &'a mut Lenient,
    pack: &mut CopyPack<W>,
) -> Result<(RefMap, Fetched), Error>
    ensures { IfOk result (λ received. ((received.0.mappings.items ≡ []) × (received.1.outcome ≡ None) × (pack.new ≡ pack.old))
        ⊎ ((reached : Objects) × (end : Reading)
        × ShowsReached (⟦<StoredObjects as Find>⟧.contents repository.entry.objects.now) (⟦<StoredRefs as RefStore>⟧.targets repository.entry.refs.now)
        (doubted request.now.trusts_objects (⟦<StoredObjects as Find>⟧.contents repository.entry.objects.now)
        (⟦<StoredRefs as RefStore>⟧.refs repository.entry.refs.now) received.0.mappings.items) reached
        × IsRunOrIds
        (parties_of ⟦<SessionNegotiation<'a, Reached<'a, StoredObjects>, StoredRefs, Lenient> as Negotiate>⟧.calls
        ⟦<ShallowMemory as ShallowStore>⟧.calls ⟦<NeverInterrupt as Interrupt>⟧.polls ⟦<CopyPack<W> as ConsumePack<Discard>>⟧.consumes
        T.is_plain)
        ⟦<CopyError as Into<Error>>⟧.converts
        ⟦<SessionNegotiation<'a, Reached<'a, StoredObjects>, StoredRefs, Lenient> as NegotiatesMap>⟧.map_of
        ⟦<SessionNegotiation<'a, Reached<'a, StoredObjects>, StoredRefs, Lenient> as NegotiatesMap>⟧.knows
        (client_feature (codes "first/1.0")) [] request.now (T.reading transport) received.0
        (session_knowledge request.now reached (⟦<StoredRefs as RefStore>⟧.refs repository.entry.refs.now))
        repository.entry.boundary.now pack.old (Ok received.1.outcome) end pack.new)) }
{
    fetch_once_with(
        alloc,
        transport,
        "first/1.0",
        Silent,
        request,
        repository,
        negotiator,
        pack,
    )
}

#[test]
fn a_lenient_negotiator_comes_to_its_pack(rt: HostRuntime) -> Result<(), Error> {
    let alloc = rt.alloc();
    let transport = server(alloc, &[GREETING, REFS, PACK])?;
    let request = branches(alloc)?;
    let objects = StoredObjects::new(alloc);
    let mut refs = StoredRefs::new(alloc);
    let repository = Repository {
        objects: &objects,
        refs: &mut refs,
        boundary: &[],
    };
    let mut negotiator = Lenient::new(alloc);
    let mut pack = CopyPack {
        writer: Vec::new(alloc),
    };
    let (_map, fetched) = fetch_leniently(
        alloc,
        transport,
        &request,
        repository,
        &mut negotiator,
        &mut pack,
    )?;
    assert!(rt; fetched.has_pack());
    assert!(rt; pack.writer.as_slice() == b"PACK".as_slice());
    Ok(())
}
