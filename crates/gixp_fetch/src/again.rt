//! Negotiations whose requests repeat the common commits.
ghost use Rattle.gixp_fetch.specs.Again.{Renames};

use gixp_graph::{Negotiator, Objects, RefStore};
use gixp_negotiate::negotiate::Negotiate;
use gixp_negotiate::negotiate::negotiation::Negotiation;

/// A negotiation whose requests repeat all common commits, where each request has to be complete in itself.
pub trait NamesCommons: Negotiate {
    /// Where ids are recorded, the commits that the previous response acknowledged as common are added to them, and the
    /// haves of a round begin with all of them.
    ghost renames: { Renames Self.calls.goes };
}

impl<'a, O: Objects, R: RefStore, N: Negotiator, G: Objects, E: Drop> NamesCommons
    for Negotiation<'a, O, R, N, G, E> {
    ghost use Rattle.std.proofs.Common.{ap};
    ghost use Rattle.gixp_negotiate.specs.Negotiate.{Window};

    ghost renames = { record {
      keeps = λ n s a p r d m t b o. ap (λ (w : Window). w.kept) o.0.state;
      names = λ n s a p r d m t b o. (o.0.haves, o.0.asked);
    } };
}
