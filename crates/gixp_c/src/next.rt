//! The export for the next request of a session.
ghost use Rattle.std.specs.Prelude.{◌≡◌, ◌<◌, true, length};
ghost use Rattle.gixp_shallow.specs.Shallow.{shallow_value};
ghost use Rattle.gixp_fetch.specs.Fetch.{parties_of};
ghost use Rattle.gixp_engine.specs.Alone.{engine_call, FetchesAlone, OffersAlone};
ghost use Rattle.gixp_calls.specs.NextExport.{StepsAsReported, ExportsNext};

use gixp_calls::{SessionInputRecord, StepRecord, write_next};
use gixp_engine::{FilterOnce, LeavePack};
use gixp_fetch::consume::ConsumePack;
use gixp_graph::{NoObjects, NoRefs, Objects, Shared};
use gixp_memory::StoredObjects;
use gixp_negotiate::negotiate::Negotiate;
use gixp_negotiate::negotiate::negotiation::Negotiation;
use gixp_negotiators::HaveList;
use gixp_progress::Discard;
use gixp_shallow::{ShallowMemory, ShallowStore};
use gixp_sidebands::{Interrupt, NeverInterrupt};
use std::alloc::{AllocError, Global};

/// Writes the caller's next action, from the server's responses so far: first its advertisement, then the response to each request
/// that this function wrote (gitprotocol-v2; gitprotocol-pack, "Packfile Negotiation"). `answers` has them one after another, and
/// `ends` the offsets at which they end. The refspecs are one per line. Ids are 20 bytes each.
///
/// The buffer receives the request. If the step is a pack, it receives the ids of the shallow boundary after the server's shallow
/// updates. A server whose own repository is shallow sends updates even if the session requests no depth.
///
/// Returns:
///
/// - 0 if the step was written;
/// - 2 if the buffer is too small: the required length is written, and nothing else is changed;
/// - 15 if the server sent an error: `length` is the length of its message, and the buffer has the message if it is large enough;
/// - another number for another error.
#[unsafe(no_mangle)]
pub extern "C" fn gixp_next(
    alloc: Global,
    answers: &[u8],
    ends: &[usize],
    input: &SessionInputRecord<'_>,
    request: &mut [u8],
    step: &mut StepRecord,
) -> u32
    ensures next { ExportsNext
        (StepsAsReported ⟦<Shared<'static, StoredObjects> as Objects>⟧.contents
        (λ w objects m h old store new store' r. FetchesAlone
        (parties_of ⟦<FilterOnce<'static, Negotiation<'static, Shared<'static, StoredObjects>, NoRefs, HaveList, NoObjects, AllocError>> as Negotiate>⟧.calls
        ⟦<ShallowMemory as ShallowStore>⟧.calls ⟦<NeverInterrupt as Interrupt>⟧.polls
        ⟦<LeavePack as ConsumePack<Discard>>⟧.consumes true)
        (OffersAlone objects w.haves.items m w.shallow w.filter)
        (engine_call h (shallow_value w.shallow)) old store r new store')
        answers.now ends.now input.now)
        request.old step.old result request.new step.new }
    ensures no_room { result ≡ 2 → (request.new ≡ request.old) × (length request.old < step.new.length) }
    ensures refused { 2 < result → step.new ≡ record step.old { length = step.new.length } }
{
    write_next(alloc, answers, ends, input, request, step)
}
