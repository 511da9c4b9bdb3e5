//! The next request of a session.
ghost use Rattle.std.specs.Prelude.{◌≡◌, ◌<◌, true, length, IfOk};
ghost use Rattle.gixp_shallow.specs.Shallow.{shallow_value};
ghost use Rattle.gixp_fetch.specs.Fetch.{parties_of};
ghost use Rattle.gixp_engine.specs.Alone.{engine_call, FetchesAlone, OffersAlone};
ghost use Rattle.gixp_engine.specs.EngineMessage.{engine_message};
ghost use Rattle.gixp_calls.specs.NextExport.{depth_value, id_bytes, HandsExcluded, HandsLimit, ReadsInput, StepsAsReported, PassesBytes, PassesPack, PassesEngineStep, PassesWords, ExportsNext};

use crate::code::{NO_MEMORY, NO_ROOM, OK, SERVER, engine_code};
use crate::texts::copy_text;
use gixp_engine::{
    EngineError, EngineStep, FilterOnce, LeavePack, SessionInput, filter_of, ids_of, names_of,
    next_step, specs_of,
};
use gixp_fetch::consume::ConsumePack;
use gixp_graph::{NoObjects, NoRefs, Objects, Shared};
use gixp_hash::ObjectId;
use gixp_memory::StoredObjects;
use gixp_negotiate::negotiate::Negotiate;
use gixp_negotiate::negotiate::negotiation::Negotiation;
use gixp_negotiators::HaveList;
use gixp_progress::Discard;
use gixp_shallow::{Shallow, ShallowMemory, ShallowStore};
use gixp_sidebands::{Interrupt, NeverInterrupt};
use std::alloc::{AllocError, Global};
use std::num::NonZeroU32;

/// The arguments of a session.
#[repr(C)]
#[derive(Clone, Copy)]
pub struct SessionInputRecord<'a> {
    /// The refspecs, one per line. A source that is `@` alone means `HEAD`. If each names an object by its id, a server of version 2
    /// isn't asked for its refs.
    pub specs: &'a [u8],
    /// The ids of objects that exist locally, 20 bytes each. They are offered as haves in this order, and never requested.
    pub haves: &'a [u8],
    /// The ids of the shallow boundary of the local repository, 20 bytes each.
    pub boundary: &'a [u8],
    /// The filter (git-rev-list, `--filter`). If it is empty, there is none.
    pub filter: &'a [u8],
    /// The names of the refs whose commits are left out, one per line.
    pub excluded: &'a [u8],
    /// A time in seconds since 1970-01-01 00:00:00 UTC.
    pub since: i64,
    /// A number of commits.
    pub depth: u32,
    /// The limit of the history (gitprotocol-pack, "Packfile Negotiation"):
    ///
    /// - 0: `depth` commits from each ref; a depth of 0 leaves the boundary unchanged;
    /// - 1: `depth` commits more than there are now;
    /// - 2: the commits since `since`;
    /// - 3: the commits that no ref in `excluded` reaches;
    /// - 4: the commits since `since` that no ref in `excluded` reaches.
    pub limit: u32,
}

/// The caller's next action.
#[repr(C)]
#[derive(Clone, Copy)]
pub struct StepRecord {
    /// 0 for nothing, 1 to send the request, 2 to take the pack.
    pub kind: u32,
    /// The length of the request, of the boundary after the pack, or of the server's message.
    pub length: usize,
    /// The offset of the pack in the responses.
    pub place: usize,
}

fn shallow_of(depth: u32) -> Shallow
    ensures { shallow_value result ≡ depth_value depth }
{
    match NonZeroU32::new(depth) {
        Some(depth) => Shallow::DepthAtRemote(depth),
        None => Shallow::NoChange,
    }
}

// The history that no excluded ref reaches.
fn excluding(
    alloc: Global,
    excluded: &[u8],
    since_cutoff: Option<i64>,
) -> Result<Shallow, EngineError>
    ensures { HandsExcluded excluded.now since_cutoff result }
{
    match names_of(alloc, excluded) {
        Ok(remote_refs) => Ok(Shallow::Exclude {
            remote_refs,
            since_cutoff,
        }),
        Err(e) => Err(e),
    }
}

fn limit_of(alloc: Global, input_record: &SessionInputRecord<'_>) -> Result<Shallow, EngineError>
    ensures { HandsLimit input_record.now result }
{
    match input_record.limit {
        0 => Ok(shallow_of(input_record.depth)),
        1 => Ok(Shallow::Deepen(input_record.depth)),
        2 => Ok(Shallow::Since {
            cutoff: input_record.since,
        }),
        3 => excluding(alloc, input_record.excluded, None),
        4 => excluding(alloc, input_record.excluded, Some(input_record.since)),
        _ => Err(EngineError::Limit),
    }
}

fn input_of(
    alloc: Global,
    input_record: &SessionInputRecord<'_>,
) -> Result<SessionInput, EngineError>
    ensures { ReadsInput input_record.now result }
{
    Ok(SessionInput {
        specs: specs_of(alloc, input_record.specs)?,
        haves: ids_of(alloc, input_record.haves)?,
        boundary: ids_of(alloc, input_record.boundary)?,
        filter: filter_of(alloc, input_record.filter)?,
        shallow: limit_of(alloc, input_record)?,
    })
}

fn step_of(
    alloc: Global,
    answers: &[u8],
    ends: &[usize],
    input_record: &SessionInputRecord<'_>,
) -> Result<EngineStep, EngineError>
    ensures { StepsAsReported ⟦<Shared<'static, StoredObjects> as Objects>⟧.contents
        (λ w objects m h old store new store' r. FetchesAlone
        (parties_of ⟦<FilterOnce<'static, Negotiation<'static, Shared<'static, StoredObjects>, NoRefs, HaveList, NoObjects, AllocError>> as Negotiate>⟧.calls
        ⟦<ShallowMemory as ShallowStore>⟧.calls ⟦<NeverInterrupt as Interrupt>⟧.polls
        ⟦<LeavePack as ConsumePack<Discard>>⟧.consumes true)
        (OffersAlone objects w.haves.items m w.shallow w.filter)
        (engine_call h (shallow_value w.shallow)) old store r new store')
        answers.now ends.now input_record.now result }
{
    match input_of(alloc, input_record) {
        Ok(input) => next_step(alloc, answers, ends, input),
        Err(e) => Err(e),
    }
}

// The ids as bytes, 20 each.
fn id_bytes(alloc: Global, ids: &[ObjectId]) -> Result<Vec<u8>, AllocError>
    ensures { IfOk result (λ bytes. bytes.items ≡ id_bytes ids.now) }
{
    let mut bytes = Vec::new(alloc);
    for id in ids {
        bytes.extend_from_slice(&id.bytes)?;
    }
    Ok(bytes)
}

// Copies the bytes of a step into the buffer, and writes the step into the record.
fn tell_bytes(
    bytes: &[u8],
    kind: u32,
    place: usize,
    request: &mut [u8],
    step: &mut StepRecord,
) -> u32
    ensures input_record { PassesBytes kind place bytes.now request.old step.old result request.new step.new }
    ensures no_room { result ≡ 2 → (request.new ≡ request.old) × (step.new ≡ record step.old { length = step.new.length })
        × (length request.old < step.new.length) }
    ensures few { result < 3 }
{
    step.length = bytes.len();
    if !copy_text(bytes, request) {
        return NO_ROOM;
    }
    step.kind = kind;
    step.place = place;
    OK
}

// Writes the pack and the boundary after it.
fn tell_pack(
    alloc: Global,
    place: usize,
    ids: &[ObjectId],
    request: &mut [u8],
    step: &mut StepRecord,
) -> u32
    ensures input_record { PassesPack place ids.now request.old step.old result request.new step.new }
    ensures no_room { result ≡ 2 → (request.new ≡ request.old) × (length request.old < step.new.length) }
    ensures refused { 2 < result → step.new ≡ record step.old { length = step.new.length } }
{
    match id_bytes(alloc, ids) {
        Ok(bytes) => tell_bytes(&bytes, 2, place, request, step),
        Err(_) => {
            step.length = 0;
            NO_MEMORY
        }
    }
}

// Writes the step into the buffer and the record.
fn tell_step(alloc: Global, found: &EngineStep, request: &mut [u8], step: &mut StepRecord) -> u32
    ensures input_record { PassesEngineStep found.now request.old step.old result request.new step.new }
    ensures no_room { result ≡ 2 → (request.new ≡ request.old) × (length request.old < step.new.length) }
    ensures refused { 2 < result → step.new ≡ record step.old { length = step.new.length } }
{
    match found {
        EngineStep::Nothing => {
            *step = StepRecord {
                kind: 0,
                length: 0,
                place: 0,
            };
            OK
        }
        EngineStep::Pack { place, boundary } => {
            tell_pack(alloc, *place, boundary.ids(), request, step)
        }
        EngineStep::Request(bytes) => tell_bytes(bytes, 1, 0, request, step),
    }
}

// Copies the server's message into the buffer if that is large enough, and returns the number of the error.
fn tell_refusal(e: &EngineError, request: &mut [u8], step: &mut StepRecord) -> u32
    ensures input_record { PassesWords (engine_message e.now) e.now request.old step.old result request.new step.new }
    ensures code { 2 < result }
    ensures step { step.new ≡ record step.old { length = step.new.length } }
{
    match e.server_message() {
        Some(words) => {
            step.length = words.as_bytes().len();
            let _ = copy_text(words.as_bytes(), request);
            SERVER
        }
        None => {
            step.length = 0;
            engine_code(e)
        }
    }
}

/// Writes the caller's next action, from the server's responses so far: first its advertisement, then the response to each request
/// that this function wrote (gitprotocol-v2; gitprotocol-pack, "Packfile Negotiation"). `answers` has them one after another, and
/// `ends` the offsets at which they end. The refspecs are one per line. Ids are 20 bytes each.
///
/// The buffer receives the request. If the step is a pack, it receives the ids of the shallow boundary after the server's shallow
/// updates. A server whose own repository is shallow sends updates even if the session requests no depth.
///
/// Returns:
///
/// - 0 if the step was written;
/// - 2 if the buffer is too small: the required length is written, and nothing else is changed;
/// - 15 if the server sent an error: `length` is the length of its message, and the buffer has the message if it is large enough;
/// - another number for another error.
pub fn write_next(
    alloc: Global,
    answers: &[u8],
    ends: &[usize],
    input: &SessionInputRecord<'_>,
    request: &mut [u8],
    step: &mut StepRecord,
) -> u32
    ensures next { ExportsNext
        (StepsAsReported ⟦<Shared<'static, StoredObjects> as Objects>⟧.contents
        (λ w objects m h old store new store' r. FetchesAlone
        (parties_of ⟦<FilterOnce<'static, Negotiation<'static, Shared<'static, StoredObjects>, NoRefs, HaveList, NoObjects, AllocError>> as Negotiate>⟧.calls
        ⟦<ShallowMemory as ShallowStore>⟧.calls ⟦<NeverInterrupt as Interrupt>⟧.polls
        ⟦<LeavePack as ConsumePack<Discard>>⟧.consumes true)
        (OffersAlone objects w.haves.items m w.shallow w.filter)
        (engine_call h (shallow_value w.shallow)) old store r new store')
        answers.now ends.now input.now)
        request.old step.old result request.new step.new }
    ensures no_room { result ≡ 2 → (request.new ≡ request.old) × (length request.old < step.new.length) }
    ensures refused { 2 < result → step.new ≡ record step.old { length = step.new.length } }
{
    match step_of(alloc, answers, ends, input) {
        Ok(found) => tell_step(alloc, &found, request, step),
        Err(e) => tell_refusal(&e, request, step),
    }
}
