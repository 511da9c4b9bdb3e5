//! A negotiation that replaces the mappings of its ref map by their text after it added their wants.
ghost use Rattle.std.specs.Prelude.{◌≡◌, ◌||◌, [], false, true, codes, drop, length, IfErr, IfOk, IsOk, OnErr};
ghost use Rattle.gixp_requests.specs.Arguments.{can_use};
ghost use Rattle.gixp_negotiate.specs.declared.negotiate.Error.TheVariants.{Memory};
ghost use Rattle.gixp_negotiate.specs.Wants.{request_lines, AddsWants, AddsSomeWants};
ghost use Rattle.gixp_planner.specs.Printed.{left_of, taken_text};

use crate::printed::PrintedMap;
use gix_protocol::fetch::negotiate::one_round::{State, one_round};
use gix_protocol::fetch::negotiate::{
    Action, Error, Graph, Negotiate, NegotiateContext, Negotiation, Negotiator, NoRefs, Objects,
    Round, add_wants, mark_complete_and_common_ref,
};
use gix_protocol::fetch::refmap::Mapping;
use gix_protocol::fetch::{Arguments, Response, Shallow};
use std::alloc::{AllocError, Global};
use std::mem;

/// A negotiation whose mappings become text as their wants are added.
#[derive(Drop)]
pub(crate) struct PrintingNegotiation<'a, O, N, G: Objects> {
    context: NegotiateContext<'a, O, NoRefs, N, G, AllocError>,
    // The alternates of the last call of `mark_complete_and_common_ref`.
    handed: Result<&'a mut [NoRefs], AllocError>,
    alloc: Global,
    printed: PrintedMap,
}

fn is_never_ignored(_mapping: &Mapping) -> bool
    ensures { result ≡ false }
{
    false
}

// The rest of `known` after these mappings.
fn known_after<'a>(known: &'a [bool], mappings: &[Mapping]) -> &'a [bool]
    ensures { result.now ≡ drop (length mappings.now) known.now }
{
    match known.get(mappings.len()..) {
        Some(rest) => rest,
        None => &[],
    }
}

fn is_any(first: bool, second: bool) -> bool
    ensures { result ≡ (first || second) }
{
    first || second
}

impl<'a, O, N, G: Objects> PrintingNegotiation<'a, O, N, G> {
    /// Without alternates. The context is made here, where all of its parts have one lifetime.
    pub(crate) fn new(
        alloc: Global,
        objects: &'a O,
        refs: &'a mut NoRefs,
        negotiator: &'a mut N,
        graph: &'a mut Graph<G>,
        printed: PrintedMap,
    ) -> Self
        ensures objects { result.context.objects.now ≡ objects.now }
        ensures negotiator { result.context.negotiator.now ≡ negotiator.old }
        ensures graph { result.context.graph.now ≡ graph.old }
        ensures alternates { IfOk result.context.alternates (λ a. a.now ≡ []) × IsOk result.context.alternates }
        ensures printed { result.printed ≡ printed }
    {
        let alternates: Result<&'a mut [NoRefs], AllocError> = Ok(&mut []);
        let context = NegotiateContext {
            objects,
            refs,
            alternates,
            negotiator,
            graph,
        };
        PrintingNegotiation {
            context,
            handed: Ok(&mut []),
            alloc,
            printed,
        }
    }

    /// The remaining mappings, and the text of the others.
    pub(crate) fn into_printed(self) -> PrintedMap
        ensures { result ≡ self.entry.printed }
    {
        self.printed
    }
}

// Adds the wants of the mappings, part by part.
fn add_parts<O: Objects>(
    alloc: Global,
    objects: &O,
    printed: &mut PrintedMap,
    arguments: &mut Arguments,
    known: &[bool],
) -> Result<bool, Error<AllocError>>
    ensures added { IfOk result (λ any. AddsWants
        (request_lines (λ _. false) (O.contents objects.now) (can_use (codes "ref-in-want") arguments.old) true (left_of printed.old) known.now)
        any arguments.old arguments.new) }
    ensures refused { OnErr result (AddsSomeWants
        (request_lines (λ _. false) (O.contents objects.now) (can_use (codes "ref-in-want") arguments.old) true (left_of printed.old) known.now)
        arguments.old arguments.new) }
    ensures failed { IfErr result (λ e. e ≡ Memory) }
    ensures text { taken_text printed.new ≡ taken_text printed.old }
{
    let mut any = false;
    let mut rest = known;
    'parts: loop {
        let more = add_wants(
            objects,
            arguments,
            &printed.map,
            rest,
            &Shallow::NoChange,
            &is_never_ignored,
        )?;
        any = is_any(any, more);
        rest = known_after(rest, &printed.map.mappings);
        printed.print_part(alloc)?;
        if !printed.next_part(alloc)? {
            return Ok(any);
        }
    }
}

impl<'a, O: Objects, N: Negotiator, G: Objects> Negotiate for PrintingNegotiation<'a, O, N, G> {
    ghost use Rattle.gixp_negotiate.specs.RoundLaws.{round_goes_on};
    ghost use Rattle.gixp_planner.specs.Printed.{calls_over};

    type AlternatesError = AllocError;

    ghost calls = { calls_over ⟦<Negotiation<'a, O, NoRefs, N, G, AllocError> as Negotiate>⟧.calls };

    fn mark_complete_and_common_ref(&mut self, alloc: Global) -> Result<Action, Error<AllocError>> {
        let marked = mark_complete_and_common_ref(
            alloc,
            &mut self.context,
            &self.printed.map,
            &Shallow::NoChange,
            &is_never_ignored,
        );
        let handed = mem::replace(&mut self.context.alternates, Ok(&mut []));
        let _before = mem::replace(&mut self.handed, handed);
        marked
    }

    fn add_wants(
        &mut self,
        arguments: &mut Arguments,
        remote_ref_target_known: &[bool],
    ) -> Result<bool, Error<AllocError>> {
        self.printed.begin();
        let any = add_parts(
            self.alloc,
            self.context.objects,
            &mut self.printed,
            arguments,
            remote_ref_target_known,
        );
        self.printed.end();
        any
    }

    fn one_round(
        &mut self,
        state: &mut State,
        arguments: &mut Arguments,
        previous_response: Option<&Response>,
    ) -> Result<(Round, bool), Error<AllocError>> {
        let context = &mut self.context;
        one_round(
            context.negotiator,
            context.graph,
            state,
            arguments,
            previous_response,
        )
    }

    ghost goes_on = { λ n s a p r m t b h o.
        round_goes_on N.calls N.learning_keeps N.offer_lowers N.none_keeps
        n.context.negotiator.now n.context.graph.now.graph s a p r m.context.negotiator.now m.context.graph.now.graph t b h
        (o.0 n.printed.map).0 };
}
