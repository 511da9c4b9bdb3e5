//! A negotiator that skips unreadable commits.
ghost use Rattle.std.specs.Prelude.{◌≡◌, ◌++◌, ◌∷◌, [], drop, IfErr, OnOk};
ghost use Rattle.gixp_graph.specs.declared.negotiator.NegotiatorError.TheVariants.{Memory};
ghost use Rattle.gixp_doubles.specs.Lenient.{MayAdd};
ghost use Rattle.gixp_doubles.specs.Recorder.{OffersFirstHave};

use gixp_graph::{Graph, Negotiator, NegotiatorError, Objects};
use gixp_hash::ObjectId;
use std::alloc::Global;

/// Offers the tips that exist, in order. A tip that can't be read counts as missing.
#[derive(Drop)]
pub struct Lenient {
    tips: Vec<ObjectId>,
    // The index of the next tip.
    next: usize,
}

impl Lenient {
    /// A negotiator without tips.
    pub fn new(alloc: Global) -> Lenient
        ensures { drop result.next result.tips.items ≡ [] }
    {
        Lenient {
            tips: Vec::new(alloc),
            next: 0,
        }
    }

    fn push(&mut self, id: ObjectId) -> Result<(), NegotiatorError>
        ensures added { OnOk result ((self.new.tips.items ≡ self.old.tips.items ++ id ∷ []) × (self.new.next ≡ self.old.next)) }
        ensures memory { IfErr result (λ e. e ≡ Memory) }
    {
        self.tips.push(id)?;
        Ok(())
    }

    fn take(&mut self) -> Option<ObjectId>
        ensures { OffersFirstHave (drop self.old.next self.old.tips.items) result (drop self.new.next self.new.tips.items) }
    {
        match self.tips.get(self.next) {
            Some(&id) => {
                self.next += 1;
                Some(id)
            }
            None => None,
        }
    }
}

impl Negotiator for Lenient {
    ghost use Rattle.std.specs.Prelude.{length};
    ghost use Rattle.std.proofs.Common.{arith, ap};
    ghost use Rattle.gixp_graph.specs.Run.{AnyCallLeft, AnyOfferLeft};

    ghost calls = { record {
      count = λ n g. length (drop n.next n.tips.items);
      failures = λ n. 0;
      knows = λ n g id m h. (m ≡ n) × (h ≡ g);
      adds = λ n g id m h. MayAdd n.tips.items id m.tips.items × (m.next ≡ n.next);
      learns = λ n g id m h. (m ≡ n) × (h ≡ g);
      offers = λ n g have m h. OffersFirstHave (drop n.next n.tips.items) have (drop m.next m.tips.items) × (h ≡ g);
      knowing_fails = AnyCallLeft;
      adding_fails = AnyCallLeft;
      learning_fails = AnyCallLeft;
      offering_fails = AnyOfferLeft;
    } };

    fn known_common<O: Objects>(
        &mut self,
        _id: ObjectId,
        _graph: &mut Graph<O>,
    ) -> Result<(), NegotiatorError> {
        Ok(())
    }

    fn add_tip<O: Objects>(
        &mut self,
        id: ObjectId,
        graph: &mut Graph<O>,
    ) -> Result<(), NegotiatorError> {
        match graph.lookup(&id) {
            Ok(Some(_)) => self.push(id),
            Ok(None) => Ok(()),
            Err(_) => Ok(()),
        }
    }

    fn in_common_with_remote<O: Objects>(
        &mut self,
        _id: ObjectId,
        _graph: &mut Graph<O>,
    ) -> Result<(), NegotiatorError> {
        Ok(())
    }

    fn next_have<O: Objects>(
        &mut self,
        _graph: &mut Graph<O>,
    ) -> Option<Result<ObjectId, NegotiatorError>> {
        match self.take() {
            Some(id) => Some(Ok(id)),
            None => None,
        }
    }

    ghost offer_lowers = { λ n g id m h r. Prim.omega (arith, ap length r.0) };

    ghost none_keeps = { λ n g m h r. Prim.omega (arith, ap length r.0.1) };

    ghost learning_keeps = { λ n g id m h r. Prim.omega (arith, ap (λ x. length (drop x.next x.tips.items)) r.0) };
}
