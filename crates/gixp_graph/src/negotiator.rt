//! The trait of negotiators, which choose the haves of a negotiation.
ghost use Rattle.std.specs.Prelude.{◌≡◌, ◌≤◌, ◌<◌, Bool, true, false, Some, None, IfOk, IfErr, OnOk, OnErr, IfSome, IfNone};
ghost use Rattle.gixp_hash.specs.declared.object_id.ObjectId.{ObjectId};
ghost use Rattle.gixp_graph.specs.GraphData.{GraphData};
ghost use Rattle.gixp_graph.specs.Negotiation.{IsRefusal, ErrorHasCause, NegotiatorCalls};

use crate::graph::Graph;
use crate::objects::{ObjectError, Objects};
use gixp_hash::ObjectId;
use std::alloc::{AllocError, AllocFailed};
use thiserror::Error;

/// Why a negotiator can't go on.
#[derive(Clone, Copy, Debug, PartialEq, Eq, Drop, Error)]
pub enum NegotiatorError {
    /// A commit can't be looked up.
    #[error("Lookup")]
    Lookup(ObjectError),
    /// An allocation failed.
    #[error("Memory")]
    Memory,
}

impl From<AllocError> for NegotiatorError {
    ghost use Rattle.gixp_graph.specs.declared.negotiator.NegotiatorError.TheVariants.{Memory};

    ghost from_gives = { λ _ e. e ≡ Memory };

    fn from(_error: AllocError) -> NegotiatorError {
        NegotiatorError::Memory
    }
}

impl<T: Drop> From<AllocFailed<T>> for NegotiatorError {
    ghost use Rattle.gixp_graph.specs.declared.negotiator.NegotiatorError.TheVariants.{Memory};

    ghost from_gives = { λ _ e. e ≡ Memory };

    fn from(_error: AllocFailed<T>) -> NegotiatorError {
        NegotiatorError::Memory
    }
}

impl From<ObjectError> for NegotiatorError {
    ghost use Rattle.gixp_graph.specs.declared.negotiator.NegotiatorError.TheVariants.{Lookup};

    ghost from_gives = { λ x e. e ≡ Lookup x };

    fn from(error: ObjectError) -> NegotiatorError {
        NegotiatorError::Lookup(error)
    }
}

/// Chooses the commits to offer as haves (gitprotocol-pack, "Packfile Negotiation").
///
/// Each call states what it does as a relation, a field of `calls`, between the negotiator and the graph before and
/// after it. In these relations a graph is plain data. No call changes what the graph's objects mean. Another relation
/// states, by the error, what a failed call leaves; an implementation may leave everything open there (`AnyCallLeft`,
/// `AnyOfferLeft`). Contracts of the callers use it to say that nothing was done after an error.
///
/// An implementation may ignore a failed look-up of the graph, as if the commit were missing. One that promises not
/// to (`reports_refusals`) returns that very error, unless the negotiator itself fails and counts its failure.
///
/// The law: a negotiator has a count of the haves that it may still offer. Each offer lowers it. Neither
/// `in_common_with_remote` nor a `next_have` without an offer raises it.
pub trait Negotiator {
    /// What its calls do, what failed calls leave, how many haves it may still offer, and how many calls have failed.
    ghost calls: { NegotiatorCalls Self };

    /// Whether the implementation promises that a call in which a look-up of the graph failed returns that error.
    ghost reports_refusals: { Bool } = { false };

    /// Reports a commit that both sides have. Called before the first have.
    ///
    /// # Errors
    ///
    /// Why the negotiator can't go on. The implementation defines how the call leaves it and the graph.
    fn known_common<O: Objects>(
        &mut self,
        id: ObjectId,
        graph: &mut Graph<O>,
    ) -> Result<(), NegotiatorError>
        ensures reported { OnOk result (calls.knows self.old graph.old.graph id self.new graph.new.graph) }
        ensures fails { IfErr result (λ e. calls.knowing_fails self.old graph.old.graph id e self.new graph.new.graph) }
        ensures objects { graph.new.graph.objects ≡ graph.old.graph.objects }
        ensures failures { calls.failures self.old ≤ calls.failures self.new }
        ensures graph_failures { graph.old.failures ≤ graph.new.failures }
        ensures failed { IfErr result (IsRefusal (calls.failures self.old)
            (calls.failures self.new) graph.old.failures graph.new.failures) }
        ensures unrefused { reports_refusals ≡ true → OnOk result (graph.new.refusals ≡ graph.old.refusals) }
        ensures cause { reports_refusals ≡ true → IfErr result (λ e. ErrorHasCause (calls.failures self.old)
            (calls.failures self.new) e graph.old.refusals graph.new.refusals) };

    /// Adds a commit where the negotiation starts.
    ///
    /// # Errors
    ///
    /// Why the negotiator can't go on. The implementation defines how the call leaves it and the graph.
    fn add_tip<O: Objects>(
        &mut self,
        id: ObjectId,
        graph: &mut Graph<O>,
    ) -> Result<(), NegotiatorError>
        ensures added { OnOk result (calls.adds self.old graph.old.graph id self.new graph.new.graph) }
        ensures fails { IfErr result (λ e. calls.adding_fails self.old graph.old.graph id e self.new graph.new.graph) }
        ensures objects { graph.new.graph.objects ≡ graph.old.graph.objects }
        ensures failures { calls.failures self.old ≤ calls.failures self.new }
        ensures graph_failures { graph.old.failures ≤ graph.new.failures }
        ensures failed { IfErr result (IsRefusal (calls.failures self.old)
            (calls.failures self.new) graph.old.failures graph.new.failures) }
        ensures unrefused { reports_refusals ≡ true → OnOk result (graph.new.refusals ≡ graph.old.refusals) }
        ensures cause { reports_refusals ≡ true → IfErr result (λ e. ErrorHasCause (calls.failures self.old)
            (calls.failures self.new) e graph.old.refusals graph.new.refusals) };

    /// Reports a have that the server has too.
    ///
    /// # Errors
    ///
    /// Why the negotiator can't go on. The count of haves isn't raised then either.
    fn in_common_with_remote<O: Objects>(
        &mut self,
        id: ObjectId,
        graph: &mut Graph<O>,
    ) -> Result<(), NegotiatorError>
        ensures learnt { OnOk result (calls.learns self.old graph.old.graph id self.new graph.new.graph) }
        ensures fails { IfErr result (λ e. calls.learning_fails self.old graph.old.graph id e self.new graph.new.graph) }
        ensures refused { OnErr result (calls.count self.new graph.new.graph ≤ calls.count self.old graph.old.graph) }
        ensures objects { graph.new.graph.objects ≡ graph.old.graph.objects }
        ensures failures { calls.failures self.old ≤ calls.failures self.new }
        ensures graph_failures { graph.old.failures ≤ graph.new.failures }
        ensures failed { IfErr result (IsRefusal (calls.failures self.old)
            (calls.failures self.new) graph.old.failures graph.new.failures) }
        ensures unrefused { reports_refusals ≡ true → OnOk result (graph.new.refusals ≡ graph.old.refusals) }
        ensures cause { reports_refusals ≡ true → IfErr result (λ e. ErrorHasCause (calls.failures self.old)
            (calls.failures self.new) e graph.old.refusals graph.new.refusals) };

    /// The next commit to offer as a have. `None` where there are no more.
    ///
    /// # Errors
    ///
    /// Why the negotiator can't go on. The implementation defines how the call leaves it and the graph.
    fn next_have<O: Objects>(
        &mut self,
        graph: &mut Graph<O>,
    ) -> Option<Result<ObjectId, NegotiatorError>>
        ensures offered { IfSome result (λ have.
            IfOk have (λ id. calls.offers self.old graph.old.graph (Some id) self.new graph.new.graph)) }
        ensures none { IfNone result (calls.offers self.old graph.old.graph None self.new graph.new.graph) }
        ensures fails { IfSome result (λ have. IfErr have (λ e. calls.offering_fails self.old graph.old.graph e self.new graph.new.graph)) }
        ensures objects { graph.new.graph.objects ≡ graph.old.graph.objects }
        ensures failures { calls.failures self.old ≤ calls.failures self.new }
        ensures graph_failures { graph.old.failures ≤ graph.new.failures }
        ensures failed { IfSome result (λ have. IfErr have
            (IsRefusal (calls.failures self.old) (calls.failures self.new) graph.old.failures graph.new.failures)) }
        ensures unrefused { reports_refusals ≡ true → IfSome result (λ have. OnOk have (graph.new.refusals ≡ graph.old.refusals)) }
        ensures unrefused_none { reports_refusals ≡ true → IfNone result (graph.new.refusals ≡ graph.old.refusals) }
        ensures cause { reports_refusals ≡ true → IfSome result (λ have. IfErr have (λ e. ErrorHasCause
            (calls.failures self.old) (calls.failures self.new) e graph.old.refusals graph.new.refusals)) };

    /// Each offer lowers the count.
    ghost offer_lowers: { (n : Self) (g : GraphData) (id : ObjectId) (m : Self) (h : GraphData) → calls.offers n g (Some id) m h
        → calls.count m h < calls.count n g };

    /// A call without an offer doesn't raise it.
    ghost none_keeps: { (n : Self) (g : GraphData) (m : Self) (h : GraphData) → calls.offers n g None m h
        → calls.count m h ≤ calls.count n g };

    /// Neither does `in_common_with_remote`.
    ghost learning_keeps: { (n : Self) (g : GraphData) (id : ObjectId) (m : Self) (h : GraphData) → calls.learns n g id m h
        → calls.count m h ≤ calls.count n g };
}
