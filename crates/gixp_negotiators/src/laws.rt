//! Laws of the negotiators, each a function whose contract is the law.
ghost use Rattle.std.specs.Prelude.{◌≡◌, true};

use crate::algorithm::AnyNegotiator;
use crate::consecutive::Consecutive;
use crate::skipping::Skipping;
use gixp_graph::Negotiator;

/// git's negotiators don't ignore a failed look-up of the graph: the call returns that very error.
pub fn refusals_are_reported()
    ensures consecutive { ⟦<Consecutive as Negotiator>⟧.reports_refusals ≡ true }
    ensures skipping { ⟦<Skipping as Negotiator>⟧.reports_refusals ≡ true }
    ensures any { ⟦<AnyNegotiator as Negotiator>⟧.reports_refusals ≡ true }
{}
