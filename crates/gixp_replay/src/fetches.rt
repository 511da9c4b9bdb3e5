//! A whole fetch: a handshake, a ref map, the rounds, the pack and the shallow boundary.
//!
//! Settings: `over`, the kind of transport; `version`, which a client of a connection asks for; `cut=each` runs the fetch for each
//! proper prefix of the server's bytes, and joins equal results. The payload is a script (module `scripts`), then the server's
//! bytes. The report has the error of the first call that fails, or the result of the fetch. Then follow the pack, the number of
//! times that the lock was taken and released, the boundary, the state of the transport, and the bytes sent.
ghost use Rattle.std.specs.Prelude.{◌≡◌};
ghost use Rattle.gixp_shallow.specs.Store.{IsStoreRefusal};

use crate::handshakes::{bodies, connection};
use crate::lines::report_rest;
use crate::packs::Once;
use crate::report::{Report, Runs};
use crate::rows::{BODIES_CONNECTION, Row, Setting, cut_at};
use crate::scripts::{Fault, Script};
use crate::sessions::cut_bodies;
use crate::values;
use bstr::BString;
use gixp_fetch::consume::{ConsumePack, CopyError, CopyPack, ReadToEnd};
use gixp_fetch::error::Error;
use gixp_fetch::fetch::fetch;
use gixp_fetch::options::{Context, Options, Outcome};
use gixp_graph::{Graph, NoObjects, NoRefs};
use gixp_handshake::Handshake;
use gixp_handshake::handshake::{handshake, obtain};
use gixp_hash::ObjectId;
use gixp_negotiate::negotiate::Round;
use gixp_negotiate::negotiate::negotiation::{NegotiateContext, Negotiation};
use gixp_negotiators::HaveList;
use gixp_progress::Discard;
use gixp_refmap::RefMap;
use gixp_refmap::refmap::init;
use gixp_requests::agent_feature;
use gixp_shallow::{ShallowError, ShallowStore};
use gixp_transport::{Service, Transport};
use std::alloc::{AllocError, Global};
use std::io::ErrorKind;
use std::mem;

pub(crate) const SETTINGS: &[Setting] = &[
    ("over", BODIES_CONNECTION, 0),
    ("version", &[], 2),
    ("cut", &["nowhere", "each"], 0),
];

// A shallow boundary that counts its calls. One call fails.
#[derive(Drop)]
struct ScriptedStore {
    ids: Vec<ObjectId>,
    locks: u64,
    releases: u64,
    call: u64,
    fault: Fault,
    failures: u64,
}

impl ScriptedStore {
    // Whether this call fails.
    fn refuses(&mut self) -> bool
        ensures { self.new.failures ≡ self.old.failures }
    {
        if self.call == 0 {
            self.call = u64::MAX;
            return true;
        }
        self.call -= 1;
        false
    }

    // The error of that call.
    fn refusal(&mut self) -> ShallowError
        ensures { IsStoreRefusal self.old.failures self.new.failures result }
    {
        self.failures = self.failures.saturating_add(1);
        match self.fault {
            Fault::Device => ShallowError::Io(ErrorKind::TimedOut),
            Fault::Locked => ShallowError::Locked,
            Fault::Line => ShallowError::Decode {
                line: BString::from(Vec::new(*self.ids.allocator())),
            },
            Fault::Memory => ShallowError::Memory,
        }
    }
}

impl ShallowStore for ScriptedStore {
    ghost calls = { record {
      failures = λ call s e t. IsStoreRefusal s.failures t.failures e;
      count = λ s. s.failures;
      locks = λ s t. Unit {0};
      reads = λ s ids t. Unit {0};
      writes = λ s ids t. Unit {0};
      releases = λ s t. Unit {0};
    } };

    fn lock(&mut self) -> Result<(), ShallowError> {
        if self.refuses() {
            return Err(self.refusal());
        }
        self.locks = self.locks.saturating_add(1);
        Ok(())
    }

    fn read(&mut self, alloc: Global) -> Result<Vec<ObjectId>, ShallowError> {
        if self.refuses() {
            return Err(self.refusal());
        }
        match Vec::from_slice(alloc, &self.ids) {
            Ok(ids) => Ok(ids),
            Err(_) => Err(ShallowError::Memory),
        }
    }

    fn write(&mut self, boundary: &[ObjectId]) -> Result<(), ShallowError> {
        if self.refuses() {
            return Err(self.refusal());
        }
        match Vec::from_slice(*self.ids.allocator(), boundary) {
            Ok(ids) => {
                self.ids = ids;
                Ok(())
            }
            Err(_) => Err(ShallowError::Memory),
        }
    }

    fn release(&mut self) {
        self.releases = self.releases.saturating_add(1);
    }

    ghost counted = { λ call s e t h. h };
}

// The haves of each round, and whether a commit was common.
fn report_rounds(rounds: &[Round], report: &mut Report) {
    for round in rounds {
        report.number(round.haves_sent as u64);
        report.word("/");
        report.number(round.haves_to_send as u64);
        report.word("/");
        report.number(round.in_vain as u64);
        report.word(if round.previous_response_had_at_least_one_in_common {
            "c "
        } else {
            " "
        });
    }
}

// The result of a fetch.
fn report_result(
    alloc: Global,
    fetched: Result<Option<Outcome>, Error<AllocError, CopyError>>,
    report: &mut Report,
) -> Result<(), AllocError> {
    match fetched {
        Ok(Some(outcome)) => {
            report_rounds(&outcome.negotiate.rounds, report);
            values::answer(report, &outcome.last_response);
        }
        Ok(None) => report.word("nothing "),
        Err(e) => {
            report.word("fetch ");
            report.word(format!(in alloc; "{e:?}")?.as_str());
            report.word(" ");
        }
    }
    Ok(())
}

// Fetches over this ref map, with this consumer.
fn fetch_by<T: Transport, C: ConsumePack<Discard, Error = CopyError>>(
    alloc: Global,
    script: &mut Script<'_>,
    hands: &mut Handshake,
    map: &RefMap,
    store: &mut ScriptedStore,
    transport: &mut T,
    consumer: &mut C,
) -> Result<Result<Option<Outcome>, Error<AllocError, CopyError>>, AllocError> {
    let mut refs = NoRefs;
    let mut negotiator = HaveList::new(mem::replace(&mut script.haves, Vec::new(alloc)));
    let mut graph = Graph::new(alloc, NoObjects);
    let mut once = Once::new(script.interrupt);
    let context: NegotiateContext<'_, NoObjects, NoRefs, HaveList, NoObjects, AllocError> =
        NegotiateContext {
            objects: &NoObjects,
            refs: &mut refs,
            alternates: Ok(&mut []),
            negotiator: &mut negotiator,
            graph: &mut graph,
        };
    let mut negotiation = Negotiation::new(context, map, &script.shallow, script.tags);
    let name = agent_feature(alloc, "oxide")?;
    Ok(fetch(
        alloc,
        &mut negotiation,
        consumer,
        &mut Discard,
        &mut once,
        name,
        Context {
            handshake: hands,
            transport,
            table: &script.table,
        },
        Options {
            shallow_file: store,
            shallow: &script.shallow,
            tags: script.tags,
            reject_shallow_remote: script.rejects,
        },
    ))
}

// The same, with the pack.
fn fetch_pack<T: Transport>(
    alloc: Global,
    script: &mut Script<'_>,
    hands: &mut Handshake,
    map: &RefMap,
    store: &mut ScriptedStore,
    transport: &mut T,
    report: &mut Report,
) -> Result<(), AllocError> {
    if !script.copies {
        let fetched = fetch_by(alloc, script, hands, map, store, transport, &mut ReadToEnd)?;
        return report_result(alloc, fetched, report);
    }
    let mut consumer = CopyPack {
        writer: Vec::new(alloc),
    };
    let fetched = fetch_by(alloc, script, hands, map, store, transport, &mut consumer)?;
    report_result(alloc, fetched, report)?;
    report.quote(&consumer.writer);
    report.word(" ");
    Ok(())
}

// Obtains the ref map. Returns it unless there was an error.
fn obtain_map<T: Transport>(
    alloc: Global,
    script: &mut Script<'_>,
    hands: &mut Handshake,
    transport: &mut T,
    report: &mut Report,
) -> Result<Option<RefMap>, AllocError> {
    let context = init::Context {
        fetch_refspecs: mem::replace(&mut script.specs, Vec::new(alloc)),
        extra_refspecs: Vec::new(alloc),
    };
    let agent = agent_feature(alloc, "oxide")?;
    match obtain(
        alloc,
        hands,
        &script.table,
        agent,
        context,
        &mut Discard,
        transport,
    ) {
        Ok(map) => Ok(Some(map)),
        Err(e) => {
            report.word("refs ");
            report.word(format!(in alloc; "{e:?}")?.as_str());
            report.word(" ");
            Ok(None)
        }
    }
}

// Performs the handshake. Returns it unless there was an error.
fn shake<T: Transport>(
    alloc: Global,
    transport: &mut T,
    report: &mut Report,
) -> Result<Option<Handshake>, AllocError> {
    match handshake(
        alloc,
        transport,
        Service::UploadPack,
        |_action| Ok(None),
        Vec::new(alloc),
        &mut Discard,
    ) {
        Ok(found) => Ok(Some(found)),
        Err(e) => {
            report.word("handshake ");
            report.word(format!(in alloc; "{e:?}")?.as_str());
            report.word(" ");
            Ok(None)
        }
    }
}

// The boundary, and how often its lock was taken.
fn report_store(store: &ScriptedStore, report: &mut Report) {
    report.word("locks ");
    report.number(store.locks);
    report.word("/");
    report.number(store.releases);
    for id in &store.ids {
        report.word(" ");
        report.id(id);
    }
    report.word(" ");
}

fn report_over<T: Transport>(
    alloc: Global,
    script: &mut Script<'_>,
    transport: &mut T,
    report: &mut Report,
) -> Result<(), AllocError> {
    let Some(mut hands) = shake(alloc, transport, report)? else {
        return Ok(());
    };
    let version = hands.server_protocol_version;
    let mut store = ScriptedStore {
        ids: mem::replace(&mut script.boundary, Vec::new(alloc)),
        locks: 0,
        releases: 0,
        call: script.call,
        fault: script.fault,
        failures: 0,
    };
    match obtain_map(alloc, script, &mut hands, transport, report)? {
        Some(map) => fetch_pack(
            alloc, script, &mut hands, &map, &mut store, transport, report,
        )?,
        None => {}
    }
    report_store(&store, report);
    report_rest(transport, version, report);
    Ok(())
}

// Runs the fetch once.
fn report_once(
    alloc: Global,
    row: &Row<'_>,
    mut script: Script<'_>,
    bytes: &[u8],
    report: &mut Report,
) -> Result<(), AllocError> {
    let [over, version, ..] = row.settings;
    if over == 1 {
        let device = row.device(bytes);
        let mut transport = connection(alloc, device, version, None)?;
        report_over(alloc, &mut script, &mut transport, report)?;
        report.quote(&transport.writer().bytes);
        return Ok(());
    }
    let answers = cut_bodies(alloc, script.lengths, bytes)?;
    let mut transport = bodies(alloc, answers)?;
    report_over(alloc, &mut script, &mut transport, report)?;
    for request in transport.sent() {
        report.quote(request);
        report.word(" ");
    }
    Ok(())
}

/// Runs the fetch over a connection or memory, or for each proper prefix of the bytes.
pub(crate) fn report_fetch(
    alloc: Global,
    row: &Row<'_>,
    report: &mut Report,
) -> Result<(), AllocError> {
    let [_, _, cut, ..] = row.settings;
    let (script, bytes) = Script::read(alloc, row.payload)?;
    report.is_unknown |= script.is_unknown;
    if cut == 0 {
        return report_once(alloc, row, script, bytes, report);
    }
    let mut result = Report::new(alloc);
    let mut runs = Runs::new(alloc, 0);
    for place in 0..bytes.len() {
        let (front, _) = cut_at(bytes, place as u64);
        let (script, _) = Script::read(alloc, row.payload)?;
        result.clear();
        report_once(alloc, row, script, front, &mut result)?;
        runs.add(&result, report);
    }
    runs.finish(report);
    Ok(())
}
