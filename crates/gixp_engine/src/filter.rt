//! A negotiation whose first request has a filter.
ghost use Rattle.std.specs.Prelude.{◌≡◌, None, OnOk, OnErr, IfOk};
ghost use Rattle.gixp_engine.specs.FilterLine.{with_filter_line, has_filters, AllowsFilter};

use crate::error::EngineError;
use crate::table::engine_table;
use gixp_handshake::Handshake;
use gixp_negotiate::negotiate::one_round::State;
use gixp_negotiate::negotiate::{Action, Error, Negotiate, Round};
use gixp_requests::Command;
use gixp_requests::fetch::Arguments;
use gixp_response::fetch::Response;
use std::alloc::{AllocError, Global};

/// A negotiation whose first request has the line `filter <spec>`, if there is a filter and the server offers filters
/// (gitprotocol-v2, "fetch"; gitprotocol-pack, "Packfile Negotiation").
#[derive(Drop)]
pub struct FilterOnce<'n, N> {
    negotiation: &'n mut N,
    // The filter, until a request has it.
    filter: Option<String>,
}

impl<'n, N> FilterOnce<'n, N> {
    pub(crate) fn new(negotiation: &'n mut N, filter: Option<String>) -> FilterOnce<'n, N>
        ensures negotiation { result.negotiation ≡ negotiation.entry }
        ensures filter { result.filter ≡ filter }
    {
        FilterOnce {
            negotiation,
            filter,
        }
    }
}

fn add_filter(filter: Option<String>, arguments: &mut Arguments) -> Result<(), AllocError>
    ensures added { OnOk result (arguments.new ≡ with_filter_line filter arguments.old) }
    ensures refused { OnErr result (arguments.new ≡ arguments.old) }
{
    let Some(filter) = filter else {
        return Ok(());
    };
    if !arguments.can_use_filter() {
        return Ok(());
    }
    arguments.filter(filter.as_str())
}

impl<N: Negotiate> Negotiate for FilterOnce<'_, N> {
    ghost use Rattle.std.specs.Prelude.{◌⊎◌};
    ghost use Rattle.gixp_negotiate.specs.declared.negotiate.Error.TheVariants.{Memory};

    type AlternatesError = N::AlternatesError;

    ghost calls = { record {
      count = λ n. N.calls.count n.negotiation.now;
      marks = λ n action m. N.calls.marks n.negotiation.now action m.negotiation.now × (m.filter ≡ n.filter);
      adds = λ n known a any b m. N.calls.adds n.negotiation.now known a any b m.negotiation.now × (m.filter ≡ n.filter);
      goes = λ n s a p r last m t b.
          N.calls.goes n.negotiation.now s (with_filter_line n.filter a) p r last m.negotiation.now t b × (m.filter ≡ None);
      marking_fails = λ n e m. N.calls.marking_fails n.negotiation.now e m.negotiation.now × (m.filter ≡ n.filter);
      adding_fails = λ n known a e b m. N.calls.adding_fails n.negotiation.now known a e b m.negotiation.now × (m.filter ≡ n.filter);
      round_fails = λ n s a p e m t b. ((e ≡ Memory) × (b ≡ a) × (t ≡ s) × (m.negotiation.now ≡ n.negotiation.now))
          ⊎ N.calls.round_fails n.negotiation.now s (with_filter_line n.filter a) p e m.negotiation.now t b;
    } };

    fn mark_complete_and_common_ref(
        &mut self,
        alloc: Global,
    ) -> Result<Action, Error<N::AlternatesError>> {
        self.negotiation.mark_complete_and_common_ref(alloc)
    }

    fn add_wants(
        &mut self,
        arguments: &mut Arguments,
        remote_ref_target_known: &[bool],
    ) -> Result<bool, Error<N::AlternatesError>> {
        self.negotiation
            .add_wants(arguments, remote_ref_target_known)
    }

    fn one_round(
        &mut self,
        state: &mut State,
        arguments: &mut Arguments,
        previous_response: Option<&Response>,
    ) -> Result<(Round, bool), Error<N::AlternatesError>> {
        let filter = self.filter.take();
        if add_filter(filter, arguments).is_err() {
            return Err(Error::Memory);
        }
        self.negotiation
            .one_round(state, arguments, previous_response)
    }

    ghost goes_on = { λ n s a p r m t b h o.
        N.goes_on n.negotiation.now s (with_filter_line n.filter a) p r m.negotiation.now t b h o.0 };
}

// Whether the server offers filters.
fn has_filters(alloc: Global, handshake: &Handshake) -> Result<bool, AllocError>
    ensures { IfOk result (λ can. can ≡ has_filters handshake.now) }
{
    let table = engine_table();
    let version = handshake.server_protocol_version;
    let features = table.default_features(alloc, Command::Fetch, version, &handshake.capabilities)?;
    let arguments = Arguments::new(alloc, &table, version, features)?;
    Ok(arguments.can_use_filter())
}

/// Returns `NoFilters` if there is a filter and the server offers none.
pub(crate) fn expect_filters(
    alloc: Global,
    handshake: &Handshake,
    filter: &Option<String>,
) -> Result<(), EngineError>
    ensures { AllowsFilter filter.now handshake.now result }
{
    if filter.is_none() {
        return Ok(());
    }
    match has_filters(alloc, handshake) {
        Ok(true) => Ok(()),
        Ok(false) => Err(EngineError::NoFilters),
        Err(_) => Err(EngineError::Memory),
    }
}
