//! Laws of the definitions, each a function whose contract is the law.
ghost use Rattle.std.specs.Prelude.{◌≡◌, ◌||◌, not, is_some, true, false, [], codes, ℕ, Bool, List, Option, Some, None, Vec, Result, Ok};
ghost use Rattle.std.specs.declared.alloc.Global.{Global as Allocator};
ghost use Rattle.gixp_refs.specs.declared.handshake.Ref.{Ref};
ghost use Rattle.gixp_refmap.specs.declared.refmap.init.Error.{Error as MapError};
ghost use Rattle.gixp_packetline.specs.Reading.{Reading};
ghost use Rattle.gixp_hash.specs.declared.object_id.ObjectId.{ObjectId};
ghost use Rattle.gixp_transport.specs.Greeting.{Parameter};
ghost use Rattle.gixp_requests.specs.Arguments.{ArgumentsValue, can_use};
ghost use Rattle.gixp_requests.specs.Feature.{FeatureValue};
ghost use Rattle.gixp_refmap.specs.declared.refmap.map.RefMap.{RefMap};
ghost use Rattle.gixp_handshake.specs.declared.handshake.read.Handshake.{Handshake};
ghost use Rattle.gixp_fetch.specs.declared.options.Outcome.{Outcome};
ghost use Rattle.gixp_fetch.specs.Fetch.{parties_of};
ghost use Rattle.gixp_fetch.specs.Mapped.{Knowledge};
ghost use Rattle.gixp_client.specs.IdSpecs.{are_ids};
ghost use Rattle.gixp_client.specs.ClientCalls.{asked_specs, OpensSession, MapsInSession, FetchesInSession, session_call};
ghost use Rattle.gixp_client.specs.FirstArguments.{call_by, first_arguments, tagged_arguments};
ghost use Rattle.gixp_client.specs.declared.name.ClientName.{ClientName as AnyName};
ghost use Rattle.gixp_client.specs.ClientMaps.{MapsRefsHere, ListsForMap};
ghost use Rattle.gixp_client.specs.ClientPromise.{IsOneRun};
ghost use Rattle.gixp_client.specs.declared.error.Error.{Error as SessionError};
ghost use Rattle.gixp_client.specs.declared.request.Request.{Request};

use crate::error::Error;
use crate::filter::Filtered;
use crate::unshallow_check::UnshallowCheck;
use crate::windows::Windowed;
use gixp_fetch::consume::ConsumePack;
use gixp_fetch::laws::headline;
use gixp_fetch::mapped::NegotiatesMap;
use gixp_negotiate::negotiate::Negotiate;
use gixp_negotiate::negotiate::negotiation::PaysForHaves;
use gixp_shallow::{ShallowMemory, ShallowStore};
use gixp_sidebands::Interrupt;

/// Opening a session, mapping its refs, and fetching the mapped refs is one run of the law
/// [`headline`](gixp_fetch::laws::headline). So its clauses `refs`, `mappings`, `requests`, `few`, `pack` hold. Between these calls
/// only the refs of the handshake may change. A session that maps ids without a list of refs is no such run.
pub fn sessions_are_runs<'a, N: PaysForHaves + NegotiatesMap, I: Interrupt, P, C: ConsumePack<P>>()
where
    C::Error: Into<Error>,
    ensures { (plain : Bool) (parameters : List Parameter) (agent : FeatureValue) (more : List FeatureValue) (request : Request)
        (start shaken middle : Reading)
        (handshake kept : Handshake) (made : RefMap) (known : Knowledge) (boundary after : List ObjectId) (consumer : C)
        (report : Result (Option Outcome) SessionError) (new : Reading) (consumer' : C)
        → OpensSession parameters plain start shaken handshake
        → MapsInSession request agent handshake plain shaken middle (Ok made)
        → (is_some handshake.refs || not (are_ids (asked_specs request))) ≡ true
        → kept ≡ record handshake { refs = kept.refs }
        → FetchesInSession
        (parties_of ⟦<UnshallowCheck<'a, Filtered<'a, Windowed<N>>> as Negotiate>⟧.calls
        ⟦<ShallowMemory as ShallowStore>⟧.calls I.polls C.consumes plain)
        ⟦<C::Error as Into<Error>>⟧.converts
        ⟦<UnshallowCheck<'a, Filtered<'a, Windowed<N>>> as NegotiatesMap>⟧.map_of
        ⟦<UnshallowCheck<'a, Filtered<'a, Windowed<N>>> as NegotiatesMap>⟧.knows (session_call kept agent more request)
        made known boundary after middle consumer report new consumer'
        → IsOneRun (parties_of ⟦<UnshallowCheck<'a, Filtered<'a, Windowed<N>>> as Negotiate>⟧.calls
        ⟦<ShallowMemory as ShallowStore>⟧.calls I.polls C.consumes plain)
        ⟦<C::Error as Into<Error>>⟧.converts
        ⟦<UnshallowCheck<'a, Filtered<'a, Windowed<N>>> as NegotiatesMap>⟧.map_of
        ⟦<UnshallowCheck<'a, Filtered<'a, Windowed<N>>> as NegotiatesMap>⟧.knows agent more request start made known boundary
        consumer report new consumer' }
{
    headline::<UnshallowCheck<'a, Filtered<'a, Windowed<N>>>, ShallowMemory, I, P, C>();
}

/// If the session already has the server's refs, it makes a ref map from them and sends nothing. Otherwise, if the refspecs are ids,
/// it makes the ref map from no refs and sends nothing, as git does. Otherwise the server lists the refs that have the prefixes of the
/// refspecs, at each call anew. So a list for other refspecs is never used.
pub fn maps_list_again()
    ensures here { (request : Request) (agent : FeatureValue) (shaken : Handshake) (refs : Vec Ref Allocator) (plain : Bool)
        (old new : Reading) (made : Result RefMap MapError) → shaken.refs ≡ Some refs
        → MapsInSession request agent shaken plain old new made
        → MapsRefsHere request shaken refs.items old new made }
    ensures ids { (request : Request) (agent : FeatureValue) (shaken : Handshake) (plain : Bool) (old new : Reading)
        (made : Result RefMap MapError) → shaken.refs ≡ None → are_ids (asked_specs request) ≡ true
        → MapsInSession request agent shaken plain old new made → MapsRefsHere request shaken [] old new made }
    ensures again { (request : Request) (agent : FeatureValue) (shaken : Handshake) (plain : Bool) (old new : Reading)
        (made : Result RefMap MapError) → shaken.refs ≡ None → are_ids (asked_specs request) ≡ false
        → MapsInSession request agent shaken plain old new made → ListsForMap request agent shaken plain old new made }
{}

/// A fetch never fails because the server can't include tags: such a server isn't asked to (gitprotocol-capabilities, "include-tag").
/// A fetch requests objects by their ids, and never refs by their names: no server is sent `want-ref` (gitprotocol-v2, "fetch").
pub fn servers_may_lack_features()
    ensures tags { (shaken : Handshake) (name : AnyName) (request : Request)
        → (asked : ArgumentsValue) × (tagged_arguments (call_by shaken name request) ≡ Ok asked) }
    ensures ids { (shaken : Handshake) (name : AnyName) (request : Request)
        → can_use (codes "ref-in-want") (first_arguments (call_by shaken name request)) ≡ false }
{}
