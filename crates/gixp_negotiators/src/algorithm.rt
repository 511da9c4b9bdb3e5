//! git's negotiators by name.
ghost use Rattle.std.specs.Prelude.{IfSome, IfNone, true};
ghost use Rattle.gixp_negotiators.specs.Algorithm.{IsNameOf, IsNewOf};

use crate::consecutive::Consecutive;
use crate::noop::Noop;
use crate::skipping::Skipping;
use gixp_graph::{Graph, Negotiator, NegotiatorError, Objects};
use gixp_hash::ObjectId;
use std::alloc::Global;

/// How a fetch finds out what both sides have: the value of git's `fetch.negotiationAlgorithm` (git-config,
/// "fetch.negotiationAlgorithm").
#[derive(Clone, Copy, Debug, PartialEq, Eq)]
pub enum Algorithm {
    /// Offers nothing (`noop`): the server sends a pack of all that is wanted.
    Noop,
    /// Offers one commit after another, the newest first (`consecutive`, or `default`).
    Consecutive,
    /// Offers commits at growing distances (`skipping`): fewer haves, and maybe a larger pack.
    Skipping,
}

impl Algorithm {
    /// The algorithm with this name: `noop`, `consecutive`, `skipping`, or `default` for `consecutive`, in letters of
    /// either case. `None` for another name, which git refuses.
    pub fn from_name(name: &str) -> Option<Algorithm>
        ensures named { IfSome result (λ algorithm. IsNameOf algorithm name.now) }
        ensures none { IfNone result ((algorithm : Algorithm) → IsNameOf algorithm name.now → ⊥) }
    {
        if name.eq_ignore_ascii_case("noop") {
            return Some(Algorithm::Noop);
        }
        if name.eq_ignore_ascii_case("consecutive") {
            return Some(Algorithm::Consecutive);
        }
        if name.eq_ignore_ascii_case("default") {
            return Some(Algorithm::Consecutive);
        }
        if name.eq_ignore_ascii_case("skipping") {
            return Some(Algorithm::Skipping);
        }
        None
    }

    /// A negotiator of this kind without commits. It is for one negotiation, over a graph of its own.
    pub fn negotiator(self, alloc: Global) -> AnyNegotiator
        ensures { IsNewOf self result }
    {
        match self {
            Algorithm::Noop => AnyNegotiator::Noop(Noop),
            Algorithm::Consecutive => AnyNegotiator::Consecutive(Consecutive::new(alloc)),
            Algorithm::Skipping => AnyNegotiator::Skipping(Skipping::new(alloc)),
        }
    }
}

/// A negotiator of one of git's kinds, chosen at run time.
#[derive(Drop)]
pub enum AnyNegotiator {
    /// Offers nothing.
    Noop(Noop),
    /// Offers one commit after another.
    Consecutive(Consecutive),
    /// Offers commits at growing distances.
    Skipping(Skipping),
}

impl Negotiator for AnyNegotiator {
    ghost use Rattle.gixp_negotiators.specs.Marks.{POPPED, left};
    ghost use Rattle.gixp_negotiators.specs.Algorithm.{KnowsByKind, AddsByKind, LearnsByKind, OffersByKind};
    ghost use Rattle.gixp_negotiators.specs.AlgorithmLaws.{any_lowers, any_keeps, any_learns};
    ghost use Rattle.gixp_negotiators.specs.OwnCalls.{calls_of};

    ghost calls = { calls_of (λ n g. left POPPED g) KnowsByKind AddsByKind LearnsByKind OffersByKind };

    ghost reports_refusals = { true };

    fn known_common<O: Objects>(
        &mut self,
        id: ObjectId,
        graph: &mut Graph<O>,
    ) -> Result<(), NegotiatorError> {
        match self {
            AnyNegotiator::Noop(_) => Ok(()),
            AnyNegotiator::Consecutive(it) => it.known_common(id, graph),
            AnyNegotiator::Skipping(it) => it.known_common(id, graph),
        }
    }

    fn add_tip<O: Objects>(
        &mut self,
        id: ObjectId,
        graph: &mut Graph<O>,
    ) -> Result<(), NegotiatorError> {
        match self {
            AnyNegotiator::Noop(_) => Ok(()),
            AnyNegotiator::Consecutive(it) => it.add_tip(id, graph),
            AnyNegotiator::Skipping(it) => it.add_tip(id, graph),
        }
    }

    fn in_common_with_remote<O: Objects>(
        &mut self,
        id: ObjectId,
        graph: &mut Graph<O>,
    ) -> Result<(), NegotiatorError> {
        match self {
            AnyNegotiator::Noop(_) => Ok(()),
            AnyNegotiator::Consecutive(it) => it.in_common_with_remote(id, graph),
            AnyNegotiator::Skipping(it) => it.in_common_with_remote(id, graph),
        }
    }

    fn next_have<O: Objects>(
        &mut self,
        graph: &mut Graph<O>,
    ) -> Option<Result<ObjectId, NegotiatorError>> {
        match self {
            AnyNegotiator::Noop(_) => None,
            AnyNegotiator::Consecutive(it) => it.next_have(graph),
            AnyNegotiator::Skipping(it) => it.next_have(graph),
        }
    }

    ghost offer_lowers = { λ n g id m h r. any_lowers n g id m h r };

    ghost none_keeps = { λ n g m h r. any_keeps n g m h r };

    ghost learning_keeps = { λ n g id m h r. any_learns n g id m h r };
}
