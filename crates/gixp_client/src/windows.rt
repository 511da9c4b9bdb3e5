//! A negotiation with a limit of haves in one request, so that the responses fit into a pipe.
ghost use Rattle.std.specs.Prelude.{◌≡◌, ◌≤◌};

use gixp_fetch::mapped::NegotiatesMap;
use gixp_negotiate::negotiate::negotiation::PaysForHaves;
use gixp_negotiate::negotiate::one_round::State;
use gixp_negotiate::negotiate::{Action, Error, Negotiate, Round};
use gixp_requests::fetch::Arguments;
use gixp_response::fetch::Response;
use std::alloc::Global;

/// The limit of haves in one request of versions 0 and 1 over pipes.
///
/// Under these versions the server writes an acknowledgement of 56 bytes for each have that it knows while it still reads the
/// request. If a request has more haves than acknowledgements fit into the pipe to the client, client and server may block in a
/// write. 128 acknowledgements have 7,168 bytes, and the smallest pipe of Linux holds 8,192.
pub const MOST_HAVES: usize = 128;

/// A negotiation with a limit of haves in one request.
#[derive(Drop)]
pub struct Windowed<N> {
    negotiation: N,
    most: usize,
    ghost some: { 16 ≤ most },
}

impl<N: Negotiate> Windowed<N> {
    /// Limits the haves of each request to `most`. That is at least 16, the haves of a first request.
    pub fn new(negotiation: N, most: usize) -> Windowed<N>
        requires { 16 ≤ most }
        ensures negotiation { result.negotiation ≡ negotiation }
        ensures most { result.most ≡ most }
    {
        Windowed { negotiation, most }
    }
}

impl<N: Negotiate> Negotiate for Windowed<N> {
    ghost use Rattle.gixp_client.specs.Windows.{capped, capped_some};

    type AlternatesError = N::AlternatesError;

    ghost calls = { record {
      count = λ w. N.calls.count w.negotiation;
      marks = λ w action v. N.calls.marks w.negotiation action v.negotiation × (v.most ≡ w.most);
      adds = λ w known a any b v. N.calls.adds w.negotiation known a any b v.negotiation × (v.most ≡ w.most);
      goes = λ w s a p r last v t b. N.calls.goes w.negotiation (capped w.most s) a p r last v.negotiation t b × (v.most ≡ w.most);
      marking_fails = λ w e v. N.calls.marking_fails w.negotiation e v.negotiation × (v.most ≡ w.most);
      adding_fails = λ w known a e b v. N.calls.adding_fails w.negotiation known a e b v.negotiation × (v.most ≡ w.most);
      round_fails = λ w s a p e v t b. N.calls.round_fails w.negotiation (capped w.most s) a p e v.negotiation t b × (v.most ≡ w.most);
    } };

    fn mark_complete_and_common_ref(
        &mut self,
        alloc: Global,
    ) -> Result<Action, Error<N::AlternatesError>> {
        self.negotiation.mark_complete_and_common_ref(alloc)
    }

    fn add_wants(
        &mut self,
        arguments: &mut Arguments,
        remote_ref_target_known: &[bool],
    ) -> Result<bool, Error<N::AlternatesError>> {
        self.negotiation
            .add_wants(arguments, remote_ref_target_known)
    }

    fn one_round(
        &mut self,
        state: &mut State,
        arguments: &mut Arguments,
        previous_response: Option<&Response>,
    ) -> Result<(Round, bool), Error<N::AlternatesError>> {
        state.haves_to_send = state.haves_to_send.min(self.most);
        self.negotiation
            .one_round(state, arguments, previous_response)
    }

    ghost goes_on = { λ w s a p r v t b h o. N.goes_on w.negotiation (capped w.most s) a p r v.negotiation t b
        (capped_some s.haves_to_send w.most h w.some) o.0 };
}

impl<N: PaysForHaves> PaysForHaves for Windowed<N> {
    ghost use Rattle.gixp_client.specs.Windows.{capped, capped_wide};

    ghost lawful = { record {
      lowers = λ w s a p r d v t b o. N.lawful.lowers w.negotiation (capped w.most s) a p r d v.negotiation t b o.0;
      fills = λ w s a p r v t b o. N.lawful.fills w.negotiation (capped w.most s) a p r v.negotiation t b o.0;
    } };

    ghost wide = { record {
      wide = λ w s a p r v t b l o. N.wide.wide w.negotiation (capped w.most s) a p r v.negotiation t b
          (capped_wide s.haves_to_send w.most l w.some) o.0;
    } };
}

impl<N: NegotiatesMap> NegotiatesMap for Windowed<N> {
    ghost map_of = { λ w. N.map_of w.negotiation };

    ghost knows = { λ w. N.knows w.negotiation };

    ghost follows = { record {
      decides = λ w action v h. N.follows.decides w.negotiation action v.negotiation h.0;
      asks = λ w action v known a is_any b l h o. N.follows.asks w.negotiation action v.negotiation known a is_any b l.negotiation h.0 o.0;
    } };
}
