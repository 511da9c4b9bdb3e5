//! Whole fetches of one ref.
use crate::fetches::repository::Repository;
use crate::shown::shown;
use bstr::BStr;
use gixp_doubles::{MemoryObjects, MemoryRefs, Recorder};
use gixp_fetch::consume::{ConsumePack, CopyError};
use gixp_fetch::error::Error;
use gixp_fetch::fetch::fetch;
use gixp_fetch::options::{Context, Options, Outcome};
use gixp_graph::{Graph, NoObjects};
use gixp_handshake::{Handshake, handshake};
use gixp_negotiate::negotiate::negotiation::{NegotiateContext, Negotiation};
use gixp_progress::NestedProgress;
use gixp_refmap::RefMap;
use gixp_refmap::fetch::Tags;
use gixp_refmap::refmap::init;
use gixp_refspec::RefSpec;
use gixp_refspec::parse::{Operation, parse};
use gixp_requests::agent_feature;
use gixp_requests::command::CommandTable;
use gixp_shallow::{Shallow, ShallowStore};
use gixp_sidebands::NeverInterrupt;
use gixp_transport::{Service, Transport};
use std::alloc::{AllocError, Global};

/// The stream of a server of version 2: its capabilities, its refs, a response without a pack, and one with it.
pub(crate) const V2: [&[u8]; 4] = [
    b"000eversion 2\n0013ls-refs=unborn\n0012fetch=shallow\n0000",
    b"003d0123456789012345678901234567890123456789 refs/heads/main\n0000",
    b"0014acknowledgments\n0031ACK cccccccccccccccccccccccccccccccccccccccc\n0000",
    b"0011shallow-info\n0035shallow cccccccccccccccccccccccccccccccccccccccc\n\
    0001000dpackfile\n0007\x01PA0007\x02hi0006\x01C0000",
];

/// The stream of a server of version 1: its refs, a response without a pack, and one with it.
pub(crate) const V1: [&[u8]; 3] = [
    b"000eversion 1\n00660123456789012345678901234567890123456789 refs/heads/main\0\
    multi_ack_detailed side-band-64k shallow\n0000",
    b"0034shallow cccccccccccccccccccccccccccccccccccccccc0000\
    0038ACK cccccccccccccccccccccccccccccccccccccccc common\n0008NAK\n",
    b"0031ACK cccccccccccccccccccccccccccccccccccccccc\n0007\x01PA0007\x02hi0006\x01C0000",
];

/// These responses, joined.
pub(crate) fn joined(alloc: Global, answers: &[&[u8]]) -> Result<Vec<u8>, AllocError> {
    let mut stream = Vec::new(alloc);
    for answer in answers {
        stream.extend_from_slice(answer)?;
    }
    Ok(stream)
}

fn push_spec(alloc: Global, specs: &mut Vec<RefSpec>) -> Result<(), AllocError> {
    if let Ok(spec) = parse(BStr::new(b"refs/heads/main:refs/heads/x"), Operation::Fetch) {
        specs.push(spec.to_owned(alloc)?)?;
    }
    Ok(())
}

// The refspec that maps the server's ref.
fn specs(alloc: Global) -> Result<init::Context, AllocError> {
    let mut fetch_refspecs = Vec::new(alloc);
    push_spec(alloc, &mut fetch_refspecs)?;
    Ok(init::Context {
        fetch_refspecs,
        extra_refspecs: Vec::new(alloc),
    })
}

// The result of a handshake.
fn shake<T: Transport, P: NestedProgress>(
    alloc: Global,
    transport: &mut T,
    progress: &mut P,
) -> Result<Handshake, handshake::Error> {
    let extra = Vec::new(alloc);
    let service = Service::UploadPack;
    handshake::handshake(
        alloc,
        transport,
        service,
        |_action| Ok(None),
        extra,
        progress,
    )
}

// The ref map after a handshake.
fn map<T: Transport, P: NestedProgress>(
    alloc: Global,
    hands: &mut Handshake,
    transport: &mut T,
    progress: &mut P,
) -> Result<RefMap, init::Error> {
    let specs = specs(alloc)?;
    let agent = agent_feature(alloc, "oxide")?;
    let table = CommandTable::git();
    handshake::obtain(alloc, hands, &table, agent, specs, progress, transport)
}

fn opened(alternates: &mut [MemoryRefs]) -> Result<&mut [MemoryRefs], AllocError> {
    Ok(alternates)
}

// A whole fetch over a ref map.
fn fetch_by<T: Transport, P: NestedProgress, S: ShallowStore, C: ConsumePack<P, Error = CopyError>>(
    transport: &mut T,
    hands: &mut Handshake,
    map: &RefMap,
    repository: Repository,
    consumer: &mut C,
    progress: &mut P,
    store: &mut S,
) -> Result<Option<Outcome>, Error<AllocError, CopyError>>
where
    P::SubProgress: Drop,
{
    let Repository {
        objects,
        mut refs,
        mut recorder,
        shallow,
    } = repository;
    let alloc = *refs.targets.allocator();
    let agent = agent_feature(alloc, "oxide")?;
    let mut graph = Graph::new(alloc, objects);
    let existing = NoObjects;
    let mut alternates = Vec::new(alloc);
    let context = NegotiateContext {
        objects: &existing,
        refs: &mut refs,
        alternates: opened(&mut alternates),
        negotiator: &mut recorder,
        graph: &mut graph,
    };
    let mut negotiation = Negotiation::new(context, map, &shallow, Tags::None);
    fetch(
        alloc,
        &mut negotiation,
        consumer,
        progress,
        &mut NeverInterrupt,
        agent,
        Context {
            handshake: hands,
            transport,
            table: &CommandTable::git(),
        },
        Options {
            shallow_file: store,
            shallow: &shallow,
            tags: Tags::None,
            reject_shallow_remote: false,
        },
    )
}

// The number of rounds in a copy of an outcome, as text.
fn rounds(alloc: Global, outcome: &Outcome) -> Result<String, AllocError> {
    let copy = outcome.clone()?;
    format!(in alloc; "{} rounds", copy.negotiate.rounds.len())
}

// The result of a fetch after a handshake, as text.
fn run_shaken<
    T: Transport,
    P: NestedProgress,
    S: ShallowStore,
    C: ConsumePack<P, Error = CopyError>,
>(
    alloc: Global,
    transport: &mut T,
    hands: &mut Handshake,
    repository: Repository,
    consumer: &mut C,
    progress: &mut P,
    store: &mut S,
) -> Result<String, AllocError>
where
    P::SubProgress: Drop,
{
    let map = match map(alloc, hands, transport, progress) {
        Ok(map) => map,
        Err(e) => return shown(alloc, e),
    };
    match fetch_by(
        transport, hands, &map, repository, consumer, progress, store,
    ) {
        Ok(Some(outcome)) => rounds(alloc, &outcome),
        Ok(None) => String::from_str(alloc, "nothing"),
        Err(e) => shown(alloc, e),
    }
}

/// The result of a handshake and a fetch into a repository, as text: the first error, or the number of rounds in a copy
/// of the outcome.
pub(crate) fn run<
    T: Transport,
    P: NestedProgress,
    S: ShallowStore,
    C: ConsumePack<P, Error = CopyError>,
>(
    alloc: Global,
    transport: &mut T,
    repository: Repository,
    consumer: &mut C,
    progress: &mut P,
    store: &mut S,
    shallow: Shallow,
) -> Result<String, AllocError>
where
    P::SubProgress: Drop,
{
    let mut repository = repository;
    repository.shallow = shallow;
    match shake(alloc, transport, progress) {
        Ok(mut hands) => run_shaken(
            alloc, transport, &mut hands, repository, consumer, progress, store,
        ),
        Err(e) => shown(alloc, e),
    }
}
