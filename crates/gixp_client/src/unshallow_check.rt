//! A negotiation that checks the server's shallow updates.
ghost use Rattle.std.specs.Prelude.{◌≡◌, None, IfOk, true, false};
ghost use Rattle.std.specs.Option.{option_copied};
ghost use Rattle.std.specs.BTreeSet.{contains};
ghost use Rattle.gixp_hash.specs.ObjectId.{id_cmp};
ghost use Rattle.gixp_client.specs.Unshallowed.{unknown_id, unknown_unshallow, noted, known_alone, TakesKnown};

use crate::error::Error;
use gixp_fetch::mapped::NegotiatesMap;
use gixp_fetch::options::Outcome;
use gixp_hash::ObjectId;
use gixp_negotiate::negotiate::negotiation::PaysForHaves;
use gixp_negotiate::negotiate::one_round::State;
use gixp_negotiate::negotiate::{self, Action, Negotiate, Round};
use gixp_requests::fetch::Arguments;
use gixp_response::fetch::Response;
use gixp_shallow::ShallowUpdate;
use std::alloc::Global;
use std::collections::BTreeSet;

/// A negotiation that records the first id that a response unshallows though it isn't in the boundary, which no server may do
/// (gitprotocol-pack, "Packfile Negotiation"). It also records whether a round was negotiated: before that, nothing is sent.
#[derive(Drop)]
pub struct UnshallowCheck<'a, N> {
    negotiation: N,
    boundary: &'a BTreeSet<ObjectId>,
    unknown: Option<ObjectId>,
    negotiated: bool,
}

// The id that the update unshallows, if it isn't in the boundary.
fn unknown_id(update: &ShallowUpdate, boundary: &BTreeSet<ObjectId>) -> Option<ObjectId>
    ensures { result ≡ unknown_id (contains id_cmp boundary.now) update.now }
{
    match update {
        ShallowUpdate::Shallow(_) => None,
        ShallowUpdate::Unshallow(id) => {
            if boundary.contains(id) {
                None
            } else {
                Some(*id)
            }
        }
    }
}

// The first id that the updates unshallow though it isn't in the boundary.
fn unknown_unshallow(updates: &[ShallowUpdate], boundary: &BTreeSet<ObjectId>) -> Option<ObjectId>
    ensures { result ≡ unknown_unshallow (contains id_cmp boundary.now) updates.now }
{
    for update in updates {
        if let Some(id) = unknown_id(update, boundary) {
            return Some(id);
        }
    }
    None
}

impl<'a, N> UnshallowCheck<'a, N> {
    /// Checks the responses of a negotiation. `boundary` is the shallow boundary of the repository.
    pub fn new(negotiation: N, boundary: &'a BTreeSet<ObjectId>) -> UnshallowCheck<'a, N>
        ensures negotiation { result.negotiation ≡ negotiation }
        ensures boundary { result.boundary.now ≡ boundary.now }
        ensures unknown { result.unknown ≡ None }
        ensures negotiated { result.negotiated ≡ false }
    {
        UnshallowCheck {
            negotiation,
            boundary,
            unknown: None,
            negotiated: false,
        }
    }

    /// The first id that a response, except the last one, unshallowed though it isn't in the boundary.
    pub fn unknown(&self) -> Option<ObjectId>
        ensures { result ≡ self.now.unknown }
    {
        self.unknown
    }

    /// Whether a round was negotiated. Before that, nothing is sent.
    pub fn is_negotiated(&self) -> bool
        ensures { result ≡ self.now.negotiated }
    {
        self.negotiated
    }

    // Checks a response.
    fn look(&mut self, answer: Option<&Response>)
        ensures negotiation { self.new.negotiation ≡ self.old.negotiation }
        ensures boundary { self.new.boundary ≡ self.old.boundary }
        ensures unknown { self.new.unknown
            ≡ noted (contains id_cmp self.old.boundary.now) self.old.unknown (option_copied answer.entry) }
        ensures negotiated { self.new.negotiated ≡ self.old.negotiated }
    {
        if self.unknown.is_some() {
            return;
        }
        if let Some(answer) = answer {
            self.unknown = unknown_unshallow(answer.shallow_updates(), self.boundary);
        }
    }
}

impl<N: Negotiate> Negotiate for UnshallowCheck<'_, N> {
    type AlternatesError = N::AlternatesError;

    ghost calls = { record {
      count = λ w. N.calls.count w.negotiation;
      marks = λ w action v. N.calls.marks w.negotiation action v.negotiation × (v.boundary ≡ w.boundary) × (v.unknown ≡ w.unknown)
          × (v.negotiated ≡ w.negotiated);
      adds = λ w known a any b v. N.calls.adds w.negotiation known a any b v.negotiation
          × (v.boundary ≡ w.boundary) × (v.unknown ≡ w.unknown) × (v.negotiated ≡ w.negotiated);
      goes = λ w s a p r last v t b. N.calls.goes w.negotiation s a p r last v.negotiation t b
          × (v.boundary ≡ w.boundary) × (v.unknown ≡ noted (contains id_cmp w.boundary.now) w.unknown p) × (v.negotiated ≡ true);
      marking_fails = λ w e v. N.calls.marking_fails w.negotiation e v.negotiation × (v.negotiated ≡ w.negotiated);
      adding_fails = λ w known a e b v. N.calls.adding_fails w.negotiation known a e b v.negotiation × (v.negotiated ≡ w.negotiated);
      round_fails = λ w s a p e v t b. N.calls.round_fails w.negotiation s a p e v.negotiation t b × (v.negotiated ≡ w.negotiated);
    } };

    fn mark_complete_and_common_ref(
        &mut self,
        alloc: Global,
    ) -> Result<Action, negotiate::Error<N::AlternatesError>> {
        self.negotiation.mark_complete_and_common_ref(alloc)
    }

    fn add_wants(
        &mut self,
        arguments: &mut Arguments,
        remote_ref_target_known: &[bool],
    ) -> Result<bool, negotiate::Error<N::AlternatesError>> {
        self.negotiation
            .add_wants(arguments, remote_ref_target_known)
    }

    fn one_round(
        &mut self,
        state: &mut State,
        arguments: &mut Arguments,
        previous_response: Option<&Response>,
    ) -> Result<(Round, bool), negotiate::Error<N::AlternatesError>> {
        self.look(previous_response);
        match self
            .negotiation
            .one_round(state, arguments, previous_response)
        {
            Ok(went) => {
                self.negotiated = true;
                Ok(went)
            }
            Err(e) => Err(e),
        }
    }

    ghost goes_on = { λ w s a p r v t b h o. N.goes_on w.negotiation s a p r v.negotiation t b h o.0 };
}

impl<N: PaysForHaves> PaysForHaves for UnshallowCheck<'_, N> {
    ghost lawful = { record {
      lowers = λ w s a p r d v t b o. N.lawful.lowers w.negotiation s a p r d v.negotiation t b o.0;
      fills = λ w s a p r v t b o. N.lawful.fills w.negotiation s a p r v.negotiation t b o.0;
    } };

    ghost wide = { record {
      wide = λ w s a p r v t b l o. N.wide.wide w.negotiation s a p r v.negotiation t b l o.0;
    } };
}

impl<N: NegotiatesMap> NegotiatesMap for UnshallowCheck<'_, N> {
    ghost map_of = { λ w. N.map_of w.negotiation };

    ghost knows = { λ w. N.knows w.negotiation };

    ghost follows = { record {
      decides = λ w action v h. N.follows.decides w.negotiation action v.negotiation h.0;
      asks = λ w action v known a is_any b l h o.
          N.follows.asks w.negotiation action v.negotiation known a is_any b l.negotiation h.0 o.0;
    } };
}

/// The result of a fetch, or `UnknownUnshallow` if a response unshallowed an id that isn't in the boundary. `unknown` is that id if
/// an earlier response did. The last response is checked here.
pub(crate) fn known_alone(
    received: Result<Option<Outcome>, Error>,
    unknown: Option<ObjectId>,
    boundary: &BTreeSet<ObjectId>,
) -> Result<Option<Outcome>, Error>
    ensures checked { result ≡ known_alone (contains id_cmp boundary.now) received unknown }
    ensures known { IfOk result (TakesKnown (contains id_cmp boundary.now)) }
{
    let outcome = match received {
        Ok(outcome) => outcome,
        Err(e) => return Err(e),
    };
    if let Some(id) = unknown {
        return Err(Error::UnknownUnshallow { id });
    }
    let Some(outcome) = outcome else {
        return Ok(None);
    };
    match unknown_unshallow(outcome.last_response.shallow_updates(), boundary) {
        Some(id) => Err(Error::UnknownUnshallow { id }),
        None => Ok(Some(outcome)),
    }
}
