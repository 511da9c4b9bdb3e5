//! A negotiation whose first request asks for a filter.
ghost use Rattle.std.specs.Prelude.{◌≡◌, None, OnOk, OnErr};
ghost use Rattle.std.specs.Option.{option_copied};
ghost use Rattle.gixp_client.specs.Filters.{with_filter};

use gixp_fetch::mapped::NegotiatesMap;
use gixp_negotiate::negotiate::negotiation::PaysForHaves;
use gixp_negotiate::negotiate::one_round::State;
use gixp_negotiate::negotiate::{Action, Error, Negotiate, Round};
use gixp_requests::fetch::Arguments;
use gixp_response::fetch::Response;
use std::alloc::{AllocError, Global};

/// A negotiation whose first request asks for a filter if the server offers it. The line `filter` follows the wants
/// (gitprotocol-v2, "fetch"; gitprotocol-pack, "Packfile Negotiation").
#[derive(Drop)]
pub struct Filtered<'a, N> {
    negotiation: N,
    // The filter, until a request asks for it.
    filter: Option<&'a str>,
}

impl<'a, N> Filtered<'a, N> {
    /// Adds a filter to a negotiation. `None` adds nothing.
    pub fn new(negotiation: N, filter: Option<&'a str>) -> Filtered<'a, N>
        ensures negotiation { result.negotiation ≡ negotiation }
        ensures filter { result.filter ≡ filter.entry }
    {
        Filtered {
            negotiation,
            filter,
        }
    }
}

fn ask(filter: Option<&str>, arguments: &mut Arguments) -> Result<(), AllocError>
    ensures asked { OnOk result (arguments.new ≡ with_filter (option_copied filter.entry) arguments.old) }
    ensures refused { OnErr result (arguments.new ≡ arguments.old) }
{
    let Some(filter) = filter else {
        return Ok(());
    };
    if !arguments.can_use_filter() {
        return Ok(());
    }
    arguments.filter(filter)
}

impl<N: Negotiate> Negotiate for Filtered<'_, N> {
    ghost use Rattle.std.specs.Prelude.{◌⊎◌};
    ghost use Rattle.gixp_negotiate.specs.declared.negotiate.Error.TheVariants.{Memory};

    type AlternatesError = N::AlternatesError;

    ghost calls = { record {
      count = λ n. N.calls.count n.negotiation;
      marks = λ n action m. N.calls.marks n.negotiation action m.negotiation × (m.filter ≡ n.filter);
      adds = λ n known a any b m. N.calls.adds n.negotiation known a any b m.negotiation × (m.filter ≡ n.filter);
      goes = λ n s a p r last m t b.
          N.calls.goes n.negotiation s (with_filter (option_copied n.filter) a) p r last m.negotiation t b × (m.filter ≡ None);
      marking_fails = λ n e m. N.calls.marking_fails n.negotiation e m.negotiation × (m.filter ≡ n.filter);
      adding_fails = λ n known a e b m. N.calls.adding_fails n.negotiation known a e b m.negotiation × (m.filter ≡ n.filter);
      round_fails = λ n s a p e m t b. ((e ≡ Memory) × (b ≡ a) × (t ≡ s) × (m.negotiation ≡ n.negotiation))
          ⊎ N.calls.round_fails n.negotiation s (with_filter (option_copied n.filter) a) p e m.negotiation t b;
    } };

    fn mark_complete_and_common_ref(
        &mut self,
        alloc: Global,
    ) -> Result<Action, Error<N::AlternatesError>> {
        self.negotiation.mark_complete_and_common_ref(alloc)
    }

    fn add_wants(
        &mut self,
        arguments: &mut Arguments,
        remote_ref_target_known: &[bool],
    ) -> Result<bool, Error<N::AlternatesError>> {
        self.negotiation
            .add_wants(arguments, remote_ref_target_known)
    }

    fn one_round(
        &mut self,
        state: &mut State,
        arguments: &mut Arguments,
        previous_response: Option<&Response>,
    ) -> Result<(Round, bool), Error<N::AlternatesError>> {
        let filter = self.filter.take();
        if ask(filter, arguments).is_err() {
            return Err(Error::Memory);
        }
        self.negotiation
            .one_round(state, arguments, previous_response)
    }

    ghost goes_on = { λ n s a p r m t b h o.
        N.goes_on n.negotiation s (with_filter (option_copied n.filter) a) p r m.negotiation t b h o.0 };
}

impl<N: PaysForHaves> PaysForHaves for Filtered<'_, N> {
    ghost lawful = { record {
      lowers = λ n s a p r d m t b o. N.lawful.lowers n.negotiation s (with_filter (option_copied n.filter) a) p r d m.negotiation t b o.0;
      fills = λ n s a p r m t b o. N.lawful.fills n.negotiation s (with_filter (option_copied n.filter) a) p r m.negotiation t b o.0;
    } };

    ghost wide = { record {
      wide = λ n s a p r m t b l o. N.wide.wide n.negotiation s (with_filter (option_copied n.filter) a) p r m.negotiation t b l o.0;
    } };
}

impl<N: NegotiatesMap> NegotiatesMap for Filtered<'_, N> {
    ghost map_of = { λ n. N.map_of n.negotiation };

    ghost knows = { λ n. N.knows n.negotiation };

    ghost follows = { record {
      decides = λ n action m h. N.follows.decides n.negotiation action m.negotiation h.0;
      asks = λ n action m known a is_any b l h o.
          N.follows.asks n.negotiation action m.negotiation known a is_any b l.negotiation h.0 o.0;
    } };
}
