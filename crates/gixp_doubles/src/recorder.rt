//! A negotiator that records its calls.
ghost use Rattle.std.specs.Prelude.{◌≡◌, ◌++◌, ◌∷◌, ◌+◌, ◌-◌, ◌^◌, ◌≤◌, [], length, drop, OnOk, OnErr, IfErr};
ghost use Rattle.gixp_hash.specs.Failures.{HasRisen};
ghost use Rattle.gixp_graph.specs.declared.negotiator.NegotiatorError.TheVariants.{Memory};
ghost use Rattle.gixp_doubles.specs.Recorder.{OffersFirstHave};

use gixp_graph::{Graph, Negotiator, NegotiatorError, ObjectError, Objects};
use gixp_hash::ObjectId;
use std::alloc::Global;

/// Offers a fixed list of haves in order, and records its calls. One call may fail.
#[derive(Drop)]
pub struct Recorder {
    haves: Vec<ObjectId>,
    // The index of the next have.
    next: usize,
    /// The commits that were reported as known to both sides before the first have.
    pub known: Vec<ObjectId>,
    /// The tips that were added.
    pub tips: Vec<ObjectId>,
    /// The commits that the server acknowledged.
    pub common: Vec<ObjectId>,
    /// The number of calls before the one that fails.
    pub calls: u64,
    failures: u64,
}

impl Recorder {
    /// Offers these ids in order. No call fails.
    pub fn new(alloc: Global, haves: Vec<ObjectId>) -> Recorder
        ensures haves { drop result.next result.haves.items ≡ haves.items }
        ensures known { result.known.items ≡ [] }
        ensures tips { result.tips.items ≡ [] }
        ensures common { result.common.items ≡ [] }
        ensures calls { result.calls ≡ 2 ^ 64 - 1 }
    {
        Recorder {
            haves,
            next: 0,
            known: Vec::new(alloc),
            tips: Vec::new(alloc),
            common: Vec::new(alloc),
            calls: u64::MAX,
            failures: 0,
        }
    }

    // Counts a call. Returns an error if it is the one that fails.
    fn step(&mut self) -> Result<(), NegotiatorError>
        ensures haves { self.new.haves ≡ self.old.haves }
        ensures next { self.new.next ≡ self.old.next }
        ensures known { self.new.known ≡ self.old.known }
        ensures tips { self.new.tips ≡ self.old.tips }
        ensures common { self.new.common ≡ self.old.common }
        ensures calls { OnOk result (self.old.calls ≡ self.new.calls + 1) }
        ensures refused { OnErr result (self.old.calls ≡ 0) }
        ensures failures { self.old.failures ≤ self.new.failures }
        ensures failed { OnErr result (HasRisen self.old.failures self.new.failures) }
    {
        if self.calls == 0 {
            self.calls = u64::MAX;
            self.failures = self.failures.saturating_add(1);
            return Err(NegotiatorError::Lookup(ObjectError::Corrupt));
        }
        self.calls -= 1;
        Ok(())
    }

    fn take(&mut self) -> Option<ObjectId>
        ensures offers { OffersFirstHave (drop self.old.next self.old.haves.items) result (drop self.new.next self.new.haves.items) }
        ensures known { self.new.known ≡ self.old.known }
        ensures tips { self.new.tips ≡ self.old.tips }
        ensures common { self.new.common ≡ self.old.common }
        ensures failures { self.new.failures ≡ self.old.failures }
    {
        match self.haves.get(self.next) {
            Some(&id) => {
                self.next += 1;
                Some(id)
            }
            None => None,
        }
    }
}

fn write_down(list: &mut Vec<ObjectId>, id: ObjectId) -> Result<(), NegotiatorError>
    ensures written { OnOk result (list.new.items ≡ list.old.items ++ id ∷ []) }
    ensures memory { IfErr result (λ e. e ≡ Memory) }
{
    list.push(id)?;
    Ok(())
}

/// Each successful call adds its id only to its own list. Each offer is the first remaining have.
impl Negotiator for Recorder {
    ghost use Rattle.std.proofs.Common.{arith, ap};
    ghost use Rattle.gixp_graph.specs.Run.{AnyCallLeft, AnyOfferLeft};

    ghost calls = { record {
      count = λ n g. length (drop n.next n.haves.items);
      failures = λ n. n.failures;
      knows = λ n g id m h. (m.known.items ≡ n.known.items ++ id ∷ []) × (m.tips ≡ n.tips) × (m.common ≡ n.common)
          × (drop m.next m.haves.items ≡ drop n.next n.haves.items) × (h ≡ g);
      adds = λ n g id m h. (m.tips.items ≡ n.tips.items ++ id ∷ []) × (m.known ≡ n.known) × (m.common ≡ n.common)
          × (drop m.next m.haves.items ≡ drop n.next n.haves.items) × (h ≡ g);
      learns = λ n g id m h. (m.common.items ≡ n.common.items ++ id ∷ []) × (m.known ≡ n.known) × (m.tips ≡ n.tips)
          × (drop m.next m.haves.items ≡ drop n.next n.haves.items) × (h ≡ g);
      offers = λ n g have m h. OffersFirstHave (drop n.next n.haves.items) have (drop m.next m.haves.items) × (m.known ≡ n.known)
          × (m.tips ≡ n.tips) × (m.common ≡ n.common) × (h ≡ g);
      knowing_fails = AnyCallLeft;
      adding_fails = AnyCallLeft;
      learning_fails = AnyCallLeft;
      offering_fails = AnyOfferLeft;
    } };

    fn known_common<O: Objects>(
        &mut self,
        id: ObjectId,
        _graph: &mut Graph<O>,
    ) -> Result<(), NegotiatorError> {
        self.step()?;
        write_down(&mut self.known, id)
    }

    fn add_tip<O: Objects>(
        &mut self,
        id: ObjectId,
        _graph: &mut Graph<O>,
    ) -> Result<(), NegotiatorError> {
        self.step()?;
        write_down(&mut self.tips, id)
    }

    fn in_common_with_remote<O: Objects>(
        &mut self,
        id: ObjectId,
        _graph: &mut Graph<O>,
    ) -> Result<(), NegotiatorError> {
        self.step()?;
        write_down(&mut self.common, id)
    }

    fn next_have<O: Objects>(
        &mut self,
        _graph: &mut Graph<O>,
    ) -> Option<Result<ObjectId, NegotiatorError>> {
        match self.step() {
            Ok(()) => match self.take() {
                Some(id) => Some(Ok(id)),
                None => None,
            },
            Err(e) => Some(Err(e)),
        }
    }

    ghost offer_lowers = { λ n g id m h r. Prim.omega (arith, ap length r.0) };

    ghost none_keeps = { λ n g m h r. Prim.omega (arith, ap length r.0.1) };

    ghost learning_keeps = { λ n g id m h r. Prim.omega (arith, ap length r.3) };
}
