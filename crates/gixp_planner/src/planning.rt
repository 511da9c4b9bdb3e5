//! A plan over recorded answers.
ghost use Rattle.std.specs.Prelude.{◌≡◌, true, map, Ok};
ghost use Rattle.bstr.specs.Owned.{bstring_bytes};
ghost use Rattle.gixp_fetch.specs.Fetch.{parties_of};
ghost use Rattle.gixp_planner.specs.Session.{FetchesMapped, end_counted, NegotiatesOver, IsEmptyBoundary};
ghost use Rattle.gixp_planner.specs.Text.{ended_of};
ghost use Rattle.gixp_planner.specs.PlannedText.{PlannedText, IsOutcome};
ghost use Rattle.gixp_planner.specs.Mapped.{ShowsFetch};

use crate::error::PlanError;
use crate::print::write_course;
use crate::refspecs::read_specs;
use crate::session::run;
use bstr::BString;
use gix_protocol::fetch::negotiate::{Graph, Negotiate, Negotiation, Negotiator, NoRefs, Objects};
use gix_protocol::fetch::{ConsumePack, ReadToEnd, ShallowMemory, ShallowStore};
use gix_protocol::transport::{Bodies, Body, Discard, Interrupt, NeverInterrupt};
use gixp_fetch::laws::sessions_are_bounded;
use std::alloc::{AllocError, Global};
use std::io::Write;

// A failed write, or else the error of the session.
fn outcome(written: Result<(), PlanError>, ended: Result<bool, PlanError>) -> Result<(), PlanError>
    ensures { IsOutcome written ended result }
{
    match written {
        Ok(()) => match ended {
            Ok(_) => Ok(()),
            Err(e) => Err(e),
        },
        Err(e) => Err(e),
    }
}

// The result of a session: a failure that its transport counted is an error too.
fn counted(failures: u64, ended: Result<bool, PlanError>) -> Result<bool, PlanError>
    ensures { ended_of result ≡ end_counted failures (ended_of ended) }
{
    match ended {
        Ok(pack) => {
            if failures == 0 {
                Ok(pack)
            } else {
                Err(PlanError::new("fetch", "FetchResponse"))
            }
        }
        Err(e) => Err(e),
    }
}

/// Writes what a client would send to a server whose answers were recorded, and what it would map.
///
/// The bodies answer one handshake for `git-upload-pack`, an `ls-refs` command under version 2, and the requests of a
/// fetch, in this order. A missing body is empty. The objects, the graph and the negotiator determine the wants and haves. The
/// client has no refs, requests no tags, and keeps an empty shallow boundary. A pack is read to its end and dropped. The contract
/// leaves open what the graph and the negotiator are afterwards.
///
/// The text has a line `request` for each request, with its number from 1 on, and a line for each of its packet lines: `> ` and the
/// payload without its LF, or the four digits of a packet line without a payload. If the refs were mapped, a line
/// `map ID NAME LOCAL` follows for each mapping, with `unborn` for a missing id and `-` for a missing name, and a line
/// `fix LOCAL REFSPEC` for each mapping that was removed. The last line is `pack`, or `nothing` where nothing was wanted. The text is
/// written after the session, and the writer is flushed. The text is written in pieces of 64 KiB, plus at most a line or the
/// lines of 512 mappings, or in one piece where it is shorter. A write may take less.
///
/// The requests up to the ref map, the mappings and the removed mappings of a plan that succeeds, or whose fetch fails, are a
/// function of the bodies and the refspecs alone ([`mappings_follow_bodies`](crate::laws::mappings_follow_bodies)). With a
/// [`HaveList`](gix_protocol::fetch::negotiate::HaveList) the whole text is a function of these, the objects and the ids, whatever
/// version the server has ([`texts_follow_bodies`](crate::laws::texts_follow_bodies)). The same holds for plans that fail
/// ([`courses_follow_bodies`](crate::laws::courses_follow_bodies)).
///
/// # Errors
///
/// - `spec` with the variant of a refspec's error, and `file Memory` where no transport can be made. Nothing is written then.
/// - `handshake`, `refs` and `fetch` with the outermost variant of that step's error. The requests and mappings so far are
///   written.
/// - `fetch FetchResponse` also where the fetch succeeded, but the transport counted a failure. A failed read may have cut an answer
///   short, so that all is written but the last line.
/// - `file Io` where a write or the flush failed, and `file Memory` on an allocation failure for the text or in a write. A beginning
///   of the text is written.
pub fn plan<'a, O: Objects, G: Objects, N: Negotiator, W: Write>(
    alloc: Global,
    bodies: Vec<Body>,
    objects: &'a O,
    graph: &'a mut Graph<G>,
    negotiator: &'a mut N,
    specs: &[BString],
    writer: &mut W,
) -> Result<(), PlanError>
    ensures text { PlannedText
        (λ m h old new r. FetchesMapped
        (parties_of ⟦<Negotiation<'a, O, NoRefs, N, G, AllocError> as Negotiate>⟧.calls ⟦<ShallowMemory as ShallowStore>⟧.calls
        ⟦<NeverInterrupt as Interrupt>⟧.polls ⟦<ReadToEnd as ConsumePack<Discard>>⟧.consumes true)
        (NegotiatesOver objects.now graph.old negotiator.old m)
        IsEmptyBoundary h old new r)
        bodies.items (map bstring_bytes specs.now) (W.contents writer.old) (W.contents writer.new) result }
    ensures mapped { ShowsFetch bodies.items (map bstring_bytes specs.now) (W.contents writer.old) (W.contents writer.new) result }
{
    sessions_are_bounded::<
        Negotiation<'a, O, NoRefs, N, G, AllocError>,
        ShallowMemory,
        NeverInterrupt,
        Discard,
        ReadToEnd,
    >();
    let context = read_specs(alloc, specs)?;
    let url = BString::new(Vec::new(alloc));
    let Ok(mut transport) = Bodies::new(alloc, bodies, url, Vec::new(alloc)) else {
        return Err(PlanError::memory("file"));
    };
    let course = run(alloc, objects, graph, negotiator, context, &mut transport);
    let ended = counted(transport.failures(), course.ended);
    let written = write_course(alloc, writer, transport.sent(), &course.mapped, &ended);
    outcome(written, ended)
}
