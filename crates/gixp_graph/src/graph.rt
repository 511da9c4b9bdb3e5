//! A graph of commits over the objects of a repository.
ghost use Rattle.std.specs.Prelude.{◌≡◌, ◌≤◌, ◌⊎◌, ◌↔◌, None, IfOk, IfErr, OnOk, OnErr, IsSome, IsTrue, option_map};
ghost use Rattle.std.specs.FinMap as finite;
ghost use Rattle.gixp_hash.specs.declared.object_id.ObjectId.{ObjectId};
ghost use Rattle.gixp_graph.specs.declared.objects.ObjectError.TheVariants.{Memory};
ghost use Rattle.gixp_graph.specs.Object.{commit_at, time_at};
ghost use Rattle.gixp_hash.specs.Failures.{HasRisen};
ghost use Rattle.gixp_graph.specs.GraphData.{graph_of, shown, shown_time, parents_in, found_in, looked_up, flagged, is_marked, OnlyMarks, IsFaithful};
ghost use Rattle.gixp_graph.specs.Asked.{AsksWhere, AsksEach};
ghost use Rattle.gixp_graph.specs.Refusals.{ErrorIsRefusal};
ghost use Rattle.gixp_graph.specs.Complete.{IsComplete, IsDue};

use crate::commits::Commits;
use crate::flags::Flags;
use crate::objects::{ObjectError, Objects};
use crate::walk;
use gixp_hash::ObjectId;
use std::alloc::{AllocError, Global};
use std::marker::Model;

/// Commits that were looked up, with their marks, over the objects of a repository.
///
/// Each held commit is equal to the commit that the objects have.
#[derive(Drop)]
pub struct Graph<O: Objects> {
    alloc: Global,
    objects: O,
    commits: Commits,
}

impl<O: Objects> Model for Graph<O> {
    ghost use Rattle.gixp_graph.specs.GraphData.{GraphValue, coded_graph, graph_of, IsFaithful};

    ghost Value = { GraphValue };

    ghost coded = { coded_graph };

    ghost view = { λ a. record {
      graph = graph_of (O.contents a.objects) a.commits.held;
      failures = O.failures a.objects;
      asked = O.asked a.objects;
      refusals = O.refusals a.objects;
    } };

    ghost invariant = { λ a. IsFaithful (graph_of (O.contents a.objects) a.commits.held) };
}

impl<O: Objects> Graph<O> {
    /// A graph over these objects that holds no commit.
    pub fn new(alloc: Global, objects: O) -> Self
        ensures empty { result.graph ≡ graph_of (O.contents objects) finite.empty }
        ensures failures { result.failures ≡ O.failures objects }
        ensures asked { result.asked ≡ O.asked objects }
        ensures refusals { result.refusals ≡ O.refusals objects }
    {
        Graph {
            alloc,
            objects,
            commits: Commits::new(alloc),
        }
    }

    /// The time and the marks of a commit that is held.
    pub fn get(&self, id: &ObjectId) -> Option<(i64, Flags)>
        ensures value { result ≡ option_map shown (finite.get self.now.graph.held id.now) }
        ensures faithful { IsFaithful self.now.graph }
    {
        self.commits.get(id)
    }

    /// The time and the marks of a commit. A commit that isn't held is read from the objects; where they have it, the
    /// graph holds it from then on, at first without marks. Returns `None` where they have no such commit.
    ///
    /// # Errors
    ///
    /// Why the objects can't be read. The held commits and their marks stay the same.
    pub fn lookup(&mut self, id: &ObjectId) -> Result<Option<(i64, Flags)>, ObjectError>
        ensures found { IfOk result (λ found. found ≡ option_map shown (found_in self.old.graph id.now)) }

        // The time is the time of the objects' commit. A commit is found exactly where the objects have one.
        ensures time { IfOk result (λ found. shown_time found ≡ time_at self.old.graph.objects id.now) }
        ensures ok { OnOk result (self.new.graph ≡ graph_of self.old.graph.objects (looked_up self.old.graph id.now)) }
        ensures err { OnErr result (self.new.graph ≡ self.old.graph) }
        ensures faithful { IsFaithful self.old.graph }

        // A held commit isn't read again.
        ensures asked { AsksWhere (finite.get self.old.graph.held id.now ≡ None) id.now self.old.asked self.new.asked }

        // The error is the objects' error; or an allocation failed, and no call of the objects did.
        ensures unrefused { OnOk result (self.new.refusals ≡ self.old.refusals) }
        ensures refused { IfErr result (λ e. ErrorIsRefusal e self.old.refusals self.new.refusals) }
        ensures failures { self.old.failures ≤ self.new.failures }
        ensures failed { IfErr result (λ e. (e ≡ Memory) ⊎ HasRisen self.old.failures self.new.failures) }
    {
        self.commits.lookup(self.alloc, &mut self.objects, id)
    }

    /// The ids of the parents of a held commit, in the commit's order. Empty where the commit isn't held.
    pub fn parents(&self, alloc: Global, id: &ObjectId) -> Result<Vec<ObjectId>, AllocError>
        ensures { IfOk result (λ parents. parents.items ≡ parents_in self.now.graph.held id.now) }
    {
        self.commits.parents(alloc, id)
    }

    /// Adds marks to a held commit. Returns false and changes nothing where it isn't held.
    pub fn insert_flags(&mut self, id: &ObjectId, flags: Flags) -> bool
        ensures held { IsTrue result ↔ IsSome (finite.get self.old.graph.held id.now) }
        ensures flagged { self.new.graph ≡ graph_of self.old.graph.objects (flagged self.old.graph.held id.now flags) }
        ensures failures { self.new.failures ≡ self.old.failures }
        ensures asked { self.new.asked ≡ self.old.asked }
        ensures refusals { self.new.refusals ≡ self.old.refusals }
    {
        self.commits.insert_flags(id, flags)
    }

    /// Marks as complete the commits of these ids that the objects have. With a cutoff (in seconds since the epoch) it
    /// also marks the parents that the objects have of each commit so marked whose own time is at least the cutoff. Times may
    /// run backwards: a parent may be newer than its child.
    ///
    /// A commit that had the mark before keeps it. Where it is complete, the walk passes through it. So a later call
    /// with an earlier cutoff, or a call after an error, marks every complete commit.
    ///
    /// # Errors
    ///
    /// Why the objects can't be read. The commits looked up and marked so far stay; each of them is complete.
    pub fn mark_complete(
        &mut self,
        ids: &[ObjectId],
        cutoff: Option<i64>,
    ) -> Result<(), ObjectError>
        // The marked commits are the complete ones and those that were marked before.
        ensures complete { OnOk result ((id : ObjectId) → IsTrue (is_marked self.new.graph.held id)
            ↔ (IsTrue (is_marked self.old.graph.held id) ⊎ IsComplete (commit_at self.old.graph.objects) ids.now cutoff id)) }

        // Each complete commit is held.
        ensures reads { OnOk result ((id : ObjectId) → IsComplete (commit_at self.old.graph.objects) ids.now cutoff id
            → IsSome (finite.get self.new.graph.held id)) }

        // Also after an error, each commit that is newly held is complete.
        ensures held { (id : ObjectId) → IsSome (finite.get self.new.graph.held id) → IsSome (finite.get self.old.graph.held id)
            ⊎ IsComplete (commit_at self.old.graph.objects) ids.now cutoff id }

        // No other mark changes, and each newly marked commit is complete.
        ensures only_marks { OnlyMarks self.old.graph self.new.graph.held }
        ensures sound { (id : ObjectId) → IsTrue (is_marked self.new.graph.held id) → IsTrue (is_marked self.old.graph.held id)
            ⊎ IsComplete (commit_at self.old.graph.objects) ids.now cutoff id }
        ensures objects { self.new.graph.objects ≡ self.old.graph.objects }

        // No commit is read twice. Only ids are read whose commits aren't held and that may be complete: the given ids,
        // and the parents of each complete commit whose time is at least the cutoff.
        ensures asked { AsksEach (λ id. (finite.get self.old.graph.held id ≡ None)
            × IsDue (commit_at self.old.graph.objects) ids.now cutoff id) self.old.asked self.new.asked }

        // The error is the objects' error; or an allocation failed, and no call of the objects did.
        ensures unrefused { OnOk result (self.new.refusals ≡ self.old.refusals) }
        ensures refused { IfErr result (λ e. ErrorIsRefusal e self.old.refusals self.new.refusals) }
        ensures failures { self.old.failures ≤ self.new.failures }
        ensures failed { IfErr result (λ e. (e ≡ Memory) ⊎ HasRisen self.old.failures self.new.failures) }
    {
        walk::mark_complete(
            self.alloc,
            &mut self.objects,
            &mut self.commits,
            ids,
            cutoff,
        )
    }
}
