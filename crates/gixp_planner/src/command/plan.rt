//! A plan over the bodies and the haves of a recorded session.
ghost use Rattle.std.specs.Prelude.{◌≡◌, true, IfOk, IfErr, codes, map, string_bytes};
ghost use Rattle.std.specs.FinMap as finite;
ghost use Rattle.bstr.specs.Owned.{bstring_bytes};
ghost use Rattle.gixp_fetch.specs.Fetch.{parties_of};
ghost use Rattle.gixp_graph.specs.GraphData.{GraphValue, graph_of};
ghost use Rattle.gixp_planner.specs.Session.{FetchesMapped, NegotiatesOver, IsEmptyBoundary};
ghost use Rattle.gixp_planner.specs.PlannedText.{PlannedText};
ghost use Rattle.gixp_planner.specs.Refusal.{IsPlanMemory};

use crate::error::PlanError;
use crate::planning::plan;
use bstr::BString;
use gix_protocol::fetch::negotiate::{
    Graph, HaveList, Negotiate, Negotiation, NoObjects, NoRefs, Objects,
};
use gix_protocol::fetch::{ConsumePack, ReadToEnd, ShallowMemory, ShallowStore};
use gix_protocol::transport::{Body, Discard, Interrupt, NeverInterrupt, ObjectId};
use std::alloc::{AllocError, Global};
use std::io::Write;

fn spec_memory() -> PlanError
    ensures { IsPlanMemory (codes "spec") result }
{
    PlanError {
        step: "spec",
        variant: "Memory",
    }
}

pub(crate) fn spec_texts(alloc: Global, words: &[String]) -> Result<Vec<BString>, PlanError>
    ensures texts { IfOk result (λ texts. map bstring_bytes texts.items ≡ map string_bytes words.now) }
    ensures refused { IfErr result (IsPlanMemory (codes "spec")) }
{
    let mut texts = Vec::new(alloc);
    for word in words {
        let text = match BString::from_slice(alloc, word.as_bytes()) {
            Ok(text) => text,
            Err(_) => return Err(spec_memory()),
        };
        match texts.push(text) {
            Ok(()) => {}
            Err(_) => return Err(spec_memory()),
        }
    }
    Ok(texts)
}

// Writes the plan of a client without objects.
pub(crate) fn write_plan<'a, W: Write>(
    alloc: Global,
    bodies: Vec<Body>,
    haves: Vec<ObjectId>,
    specs: &[BString],
    writer: &mut W,
) -> Result<(), PlanError>
    ensures { (objects : NoObjects) × (graph : GraphValue)
        × (graph.graph ≡ graph_of (⟦<NoObjects as Objects>⟧.contents objects) finite.empty)
        × PlannedText
        (λ m h old new r. FetchesMapped
        (parties_of ⟦<Negotiation<'a, NoObjects, NoRefs, HaveList, NoObjects, AllocError> as Negotiate>⟧.calls
        ⟦<ShallowMemory as ShallowStore>⟧.calls ⟦<NeverInterrupt as Interrupt>⟧.polls
        ⟦<ReadToEnd as ConsumePack<Discard>>⟧.consumes true)
        (NegotiatesOver objects graph haves.items m)
        IsEmptyBoundary h old new r)
        bodies.items (map bstring_bytes specs.now) (W.contents writer.old) (W.contents writer.new) result }
{
    let mut negotiator = HaveList::new(haves);
    let mut graph = Graph::new(alloc, NoObjects);
    plan(
        alloc,
        bodies,
        &NoObjects,
        &mut graph,
        &mut negotiator,
        specs,
        writer,
    )
}
