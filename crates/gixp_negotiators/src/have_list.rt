//! Offers a list of ids.
ghost use Rattle.std.specs.Prelude.{◌≡◌, List, length};
ghost use Rattle.gixp_negotiators.specs.HaveList.{OffersFirst};

use gixp_graph::{Graph, Negotiator, NegotiatorError, Objects};
use gixp_hash::ObjectId;
use std::marker::Model;

/// A negotiator that offers these ids, in their order, and ignores what the server has.
#[derive(Debug, Drop)]
pub struct HaveList {
    ids: Vec<ObjectId>,
    next: usize,
}

impl Model for HaveList {
    ghost use Rattle.std.specs.Prelude.{List, drop};
    ghost use Rattle.gixp_hash.specs.declared.object_id.ObjectId.{ObjectId};

    ghost Value = { List ObjectId };

    ghost view = { λ a. drop a.next a.ids.items };
}

impl HaveList {
    /// Offers these ids. It allocates nothing.
    pub fn new(ids: Vec<ObjectId>) -> HaveList
        ensures { result ≡ ids.items }
    {
        HaveList { ids, next: 0 }
    }

    fn take(&mut self) -> Option<ObjectId>
        ensures { OffersFirst self.old result self.new }
    {
        match self.ids.get(self.next) {
            Some(&id) => {
                self.next += 1;
                Some(id)
            }
            None => None,
        }
    }
}

impl Negotiator for HaveList {
    ghost use Rattle.std.specs.Prelude.{length, true};
    ghost use Rattle.gixp_negotiators.specs.HaveList.{list_calls};
    ghost use Rattle.std.proofs.Common.{arith, ap};

    ghost calls = { list_calls };

    ghost reports_refusals = { true };

    fn known_common<O: Objects>(
        &mut self,
        _id: ObjectId,
        _graph: &mut Graph<O>,
    ) -> Result<(), NegotiatorError> {
        Ok(())
    }

    fn add_tip<O: Objects>(
        &mut self,
        _id: ObjectId,
        _graph: &mut Graph<O>,
    ) -> Result<(), NegotiatorError> {
        Ok(())
    }

    fn in_common_with_remote<O: Objects>(
        &mut self,
        _id: ObjectId,
        _graph: &mut Graph<O>,
    ) -> Result<(), NegotiatorError> {
        Ok(())
    }

    fn next_have<O: Objects>(
        &mut self,
        _graph: &mut Graph<O>,
    ) -> Option<Result<ObjectId, NegotiatorError>> {
        match self.take() {
            Some(id) => Some(Ok(id)),
            None => None,
        }
    }

    ghost offer_lowers = { λ n g id m h r. Prim.omega (arith, ap length r.0) };

    ghost none_keeps = { λ n g m h r. Prim.omega (arith, ap length r.0.1) };

    ghost learning_keeps = { λ n g id m h r. Prim.omega (arith, ap length r.0) };
}
