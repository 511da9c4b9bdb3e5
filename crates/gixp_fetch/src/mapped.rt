//! Negotiations over a ref map.
ghost use Rattle.gixp_refmap.specs.declared.refmap.map.RefMap.{RefMap};
ghost use Rattle.gixp_fetch.specs.Mapped.{Knowledge, FollowsMap};

use gixp_graph::{Negotiator, Objects, RefStore};
use gixp_negotiate::negotiate::Negotiate;
use gixp_negotiate::negotiate::negotiation::Negotiation;

/// A negotiation over a ref map: its decision and its wants follow from the map's mappings.
pub trait NegotiatesMap: Negotiate {
    /// The ref map.
    ghost map_of: { Self → RefMap };

    /// What the negotiation knows in addition to the map.
    ghost knows: { Self → Knowledge };

    /// The first step decides what the mappings need, and the second adds their lines.
    ghost follows: { FollowsMap Self.calls.marks Self.calls.adds map_of knows };
}

impl<'a, O: Objects, R: RefStore, N: Negotiator, G: Objects, E: Drop> NegotiatesMap
    for Negotiation<'a, O, R, N, G, E> {
    ghost use Rattle.std.proofs.Common.{ap};
    ghost use Rattle.gixp_fetch.specs.Mapped.{lines_kept};

    ghost map_of = { λ n. n.ref_map.now };

    ghost knows = { λ n. record {
      tags = n.tags;
      shallow = n.shallow.now;
      commits = n.context.graph.now.graph.objects;
      existing = O.contents n.context.objects.now;
      refs = R.refs n.context.refs.now;
    } };

    ghost follows = { record {
      decides = λ n action m h. h.0;
      asks = λ n action m known a is_any b l h w. lines_kept a known is_any b _ _ _ _ _ _ _ _ h.5 h.7 h.6 (ap O.contents h.4) w.0;
    } };
}
