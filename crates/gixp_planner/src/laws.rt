//! Laws of the definitions that contracts cite. The functions do nothing. A caller that needs a law calls its function.
ghost use Rattle.std.specs.Prelude.{◌≡◌, ℕ, true, List};
ghost use Rattle.gixp_fetch.specs.Fetch.{parties_of};
ghost use Rattle.gixp_transport.specs.declared.bodies.Body.{Body};
ghost use Rattle.gixp_hash.specs.declared.object_id.ObjectId.{ObjectId};
ghost use Rattle.gixp_graph.specs.GraphData.{GraphValue};
ghost use Rattle.gixp_planner.specs.Discovered.{GreetingsFollow};
ghost use Rattle.gixp_planner.specs.Mapped.{MappingsFollow};
ghost use Rattle.gixp_planner.specs.Sought.{RefMapsFollow};
ghost use Rattle.gixp_planner.specs.Follows.{Follow};
ghost use Rattle.gixp_planner.specs.Alike.{CoursesFollow};
ghost use Rattle.gixp_planner.specs.Session.{NegotiatesOver, IsEmptyBoundary};

use gix_protocol::fetch::negotiate::{HaveList, Negotiate, Negotiation, NoRefs, Objects};
use gix_protocol::fetch::{ConsumePack, ReadToEnd, ShallowMemory, ShallowStore};
use gix_protocol::transport::{Discard, Interrupt, NeverInterrupt};
use std::alloc::AllocError;

/// The outcome of a handshake without an account is a function of the first body, except for failed allocations and reads: it has the
/// version, the capabilities and the refs of the body, or it fails with the error whose name follows from the body.
pub fn greetings_follow_bodies()
    ensures { GreetingsFollow }
{}

/// The requests up to the ref map, and the lines of the mappings and of the removed mappings, are a function of the
/// bodies and the refspecs, whatever the objects, graphs and negotiators. This includes sessions whose fetch failed:
/// [`plan`](crate::plan) says that each of them has a ref map, and writes its lines.
pub fn mappings_follow_bodies()
    ensures { MappingsFollow }
{}

/// Whether a session has a ref map after its handshake, the name of the map's error if it fails, and the requests up to then
/// are a function of the bodies and the refspecs, except for failed allocations and reads.
pub fn ref_maps_follow_bodies()
    ensures { RefMapsFollow }
{}

/// With a [`HaveList`], the requests and the outcome of a session that succeeds are a function of the bodies, the refspecs, the
/// objects and the ids, and so is the text that [`plan`](crate::plan) writes.
///
/// The objects are those of the repository and of the graph, whatever the graph has looked up; `NoObjects` has
/// none. A session whose transport counted a failure fails, so that each answer is its body's.
///
/// If a refspec is an error, each plan over these refspecs fails with its name, or with an allocation failure, and nothing is
/// written. Nothing is written either by a plan whose handshake fails.
pub fn texts_follow_bodies<'a, O: Objects + 'a, G: Objects + 'a>()
    ensures { (bodies : List Body) (specs : List (List ℕ)) (haves : List ObjectId) (objects others : O) (graph another : GraphValue)
        → O.contents objects ≡ O.contents others → graph.graph.objects ≡ another.graph.objects
        → Follow
        (parties_of ⟦<Negotiation<'a, O, NoRefs, HaveList, G, AllocError> as Negotiate>⟧.calls ⟦<ShallowMemory as ShallowStore>⟧.calls
        ⟦<NeverInterrupt as Interrupt>⟧.polls ⟦<ReadToEnd as ConsumePack<Discard>>⟧.consumes true)
        (NegotiatesOver objects graph haves)
        (NegotiatesOver others another haves)
        IsEmptyBoundary
        bodies specs }
{}

/// With a [`HaveList`], two sessions over the same bodies, refspecs, objects and ids send the same requests, print the same ref map,
/// and end at the same step with the same result or the same error name. This includes failed sessions. So [`plan`](crate::plan)
/// writes the same text, whether a pack was read to its end or not.
///
/// Sessions that end with `Memory`, or after a failure that the transport counted or a failure of the repository or its boundary, are
/// left out, since no body determines these. No session is interrupted.
pub fn courses_follow_bodies<'a, O: Objects + 'a, G: Objects + 'a>()
    ensures { (bodies : List Body) (specs : List (List ℕ)) (haves : List ObjectId) (objects others : O) (graph another : GraphValue)
        → O.contents objects ≡ O.contents others → graph.graph.objects ≡ another.graph.objects
        → CoursesFollow
        (parties_of ⟦<Negotiation<'a, O, NoRefs, HaveList, G, AllocError> as Negotiate>⟧.calls ⟦<ShallowMemory as ShallowStore>⟧.calls
        ⟦<NeverInterrupt as Interrupt>⟧.polls ⟦<ReadToEnd as ConsumePack<Discard>>⟧.consumes true)
        (NegotiatesOver objects graph haves)
        (NegotiatesOver others another haves)
        IsEmptyBoundary
        bodies specs }
{}
