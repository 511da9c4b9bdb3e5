//! Offers each commit that isn't known to be common, the newest first.
ghost use Rattle.std.specs.Prelude.{◌≡◌, ◌≤◌, ◌<◌, ◌+◌, ◌-◌, ◌⊎◌, ◌∷◌, [], ◌||◌, bit_and, true, false};
ghost use Rattle.std.specs.Prelude.{IfOk, IfErr, IfSome, IfNone, None, OnOk, IsTrue, All};
ghost use Rattle.std.specs.BinaryHeap.{heap_items};
ghost use Rattle.gixp_graph.specs.GraphData.{parents_in};
ghost use Rattle.gixp_graph.specs.Negotiation.{IsMemory};
ghost use Rattle.gixp_negotiators.specs.Marks.{COMMON, COMMON_REF, SEEN, POPPED, has_mark, has_all, left};
ghost use Rattle.gixp_negotiators.specs.AddedMarks.{SeesNone, SeesOnly, MarksNoCommon, MarksCommonOnly, ListsNone, ListsOnly, PopsNone, PopsOnly};
ghost use Rattle.gixp_negotiators.specs.CommitMarks.{StaysIfSeen, IsMarkedIfThere, IsMarkedIfNew, IsListedIfNew};
ghost use Rattle.gixp_negotiators.specs.Offered.{IsOffered, TakesCommon};
ghost use Rattle.gixp_negotiators.specs.Spread.{is_there, IsKnown, WhereOpen, WhereNew, HasCommonParents};
ghost use Rattle.gixp_negotiators.specs.NewlyCommon.{AllCommonAmong, MarksCommonFrom, MarksCommonWithin, OwesAmong};
ghost use Rattle.gixp_negotiators.specs.NewlySeen.{SeesCommon, SeesAmong, OpensParents, FindsCommon};
ghost use Rattle.gixp_negotiators.specs.Spread.{KeepsSpread, SpreadsFrom, SpreadsAllFrom, StaysSpread};
ghost use Rattle.gixp_negotiators.specs.Queued.{Fits, AllCommon, EndsAtOnce};
ghost use Rattle.gixp_negotiators.specs.Newest.{IsNewestTimed};
ghost use Rattle.gixp_negotiators.specs.LooksUpCommits.{LooksUpCommits};
ghost use Rattle.gixp_negotiators.specs.Work.{to_take, to_mark};
ghost use Rattle.gixp_negotiators.specs.Calls.{Steps, StepsTaking, QueuesInTurn};

use crate::marks::{SEEN_COMMON, SEEN_REF, claim, either_has, has, look, parents_of};
use crate::queue::{Queue, Waiting};
use gixp_graph::{Flags, Graph, Negotiator, NegotiatorError, Objects};
use gixp_hash::ObjectId;
use std::alloc::Global;

/// Offers each commit that isn't known to be common, the newest first (`consecutive` of git's
/// `fetch.negotiationAlgorithm`).
///
/// A commit that is found is queued once, under its own time. One that is taken from the queue is offered unless it
/// is marked as common, and its parents are queued. Parents of a common commit are common. The offers end when all queued
/// commits are common.
///
/// The graph's marks record which commits were seen, taken and found common, so a graph is for one negotiation.
#[derive(Drop)]
pub struct Consecutive {
    alloc: Global,
    queue: Queue,
    // How many queued commits aren't common.
    uncommon: usize,
}

impl Consecutive {
    /// A negotiator without commits.
    pub fn new(alloc: Global) -> Consecutive
        ensures queue { heap_items result.queue.waiting ≡ [] }
        ensures uncommon { result.uncommon ≡ 0 }
    {
        Consecutive {
            alloc,
            queue: Queue::new(alloc),
            uncommon: 0,
        }
    }

    // Queues a commit, where it is found and wasn't seen before. Marks it as seen, and may add another mark.
    fn push<O: Objects>(
        &mut self,
        graph: &mut Graph<O>,
        id: &ObjectId,
        marks: Flags,
    ) -> Result<(), NegotiatorError>
        requires { (marks.0 ≡ SEEN) ⊎ ((marks.0 ≡ SEEN + COMMON) ⊎ (marks.0 ≡ SEEN + COMMON_REF)) }
        ensures keeps { OnOk result (Steps self.old graph.old.graph self.new graph.new.graph) }
        ensures room { OnOk result (to_take self.new.queue graph.new.graph ≤ to_take self.old.queue graph.old.graph) }
        ensures waits { OnOk result (IsMarkedIfThere SEEN graph.old.graph graph.new.graph id.now) }
        ensures spreads { OnOk result (StaysSpread is_there graph.old.graph graph.new.graph) }
        ensures settles { bit_and marks.0 COMMON ≡ 0 → MarksNoCommon graph.old.graph graph.new.graph }
        ensures marks_common_only { MarksCommonOnly id.now graph.old.graph graph.new.graph }
        ensures marked { OnOk result (IsMarkedIfNew marks.0 graph.old.graph graph.new.graph id.now) }
        ensures sees_only { SeesOnly id.now graph.old.graph graph.new.graph }
        ensures finds { OnOk result (bit_and marks.0 COMMON ≡ COMMON → SeesCommon graph.old.graph graph.new.graph) }
        ensures lists { OnOk result (bit_and marks.0 COMMON_REF ≡ 0 → ListsNone graph.old.graph graph.new.graph) }
        ensures lists_only { OnOk result (ListsOnly id.now graph.old.graph graph.new.graph) }
        ensures pops { OnOk result (PopsNone graph.old.graph graph.new.graph) }
        ensures again { OnOk result (StaysIfSeen self.old graph.old.graph id.now self.new graph.new.graph) }
        ensures looks { LooksUpCommits graph.old graph.new result }
    {
        let Some((time, flags)) = claim(graph, id, Flags::SEEN, marks)? else {
            return Ok(());
        };
        let is_common = either_has(flags, marks, Flags::COMMON);
        self.admit(is_common)?;
        Ok(self.queue.push(time, *id)?)
    }

    // Counts a newly queued commit, unless it is common.
    fn admit(&mut self, is_common: bool) -> Result<(), NegotiatorError>
        ensures queue { self.new.queue ≡ self.old.queue }
        ensures common { IsTrue is_common → OnOk result (self.new.uncommon ≡ self.old.uncommon) }
        ensures open { is_common ≡ false → OnOk result (self.new.uncommon ≡ self.old.uncommon + 1) }
        ensures failed { IfErr result IsMemory }
    {
        if is_common {
            return Ok(());
        }
        let Some(more) = self.uncommon.checked_add(1) else {
            return Err(NegotiatorError::Memory);
        };
        self.uncommon = more;
        Ok(())
    }

    // Stops counting a commit that is now common, where these marks say that it is queued.
    fn discount(&mut self, flags: Flags)
        ensures queue { self.new.queue ≡ self.old.queue }
        ensures waits { has_all SEEN flags.0 ≡ true → has_all POPPED flags.0 ≡ false → self.new.uncommon ≡ self.old.uncommon - 1 }
        ensures unseen { has_all SEEN flags.0 ≡ false → self.new.uncommon ≡ self.old.uncommon }
        ensures taken { has_all POPPED flags.0 ≡ true → self.new.uncommon ≡ self.old.uncommon }
    {
        if has(flags, Flags::SEEN) && !has(flags, Flags::POPPED) {
            self.uncommon = self.uncommon.saturating_sub(1);
        }
    }

    // Marks a commit as common. Returns false where it isn't found or was common before.
    fn make_common<O: Objects>(
        &mut self,
        graph: &mut Graph<O>,
        id: &ObjectId,
    ) -> Result<bool, NegotiatorError>
        ensures steps { OnOk result (QueuesInTurn self.old graph.old.graph self.new graph.new.graph) }
        ensures less { IfOk result (λ done. IsTrue done → left COMMON graph.new.graph + 1 ≤ left COMMON graph.old.graph) }
        ensures marked { OnOk result (IsMarkedIfThere COMMON graph.old.graph graph.new.graph id.now) }
        ensures queue { self.new.queue ≡ self.old.queue }
        ensures kept { IfOk result (λ done. done ≡ false → MarksNoCommon graph.old.graph graph.new.graph) }
        ensures marks_common_only { MarksCommonOnly id.now graph.old.graph graph.new.graph }
        ensures sees { SeesNone graph.old.graph graph.new.graph }
        ensures settled { IfOk result (λ done. IsTrue done → has_mark COMMON graph.new.graph.held id.now ≡ true) }
        ensures looks { LooksUpCommits graph.old graph.new result }
    {
        let Some((_, flags)) = claim(graph, id, Flags::COMMON, Flags::COMMON)? else {
            return Ok(false);
        };
        self.discount(flags);
        Ok(true)
    }

    // Marks a commit as common, and makes it due: its parents are to be marked. Does nothing where it isn't found or was
    // common before.
    fn reach<O: Objects>(
        &mut self,
        graph: &mut Graph<O>,
        id: &ObjectId,
        due: &mut Vec<ObjectId>,
    ) -> Result<(), NegotiatorError>
        ensures steps { OnOk result (QueuesInTurn self.old graph.old.graph self.new graph.new.graph) }
        ensures less { OnOk result (to_mark due.new.items graph.new.graph ≤ to_mark due.old.items graph.old.graph) }
        ensures queue { self.new.queue ≡ self.old.queue }
        ensures spreads { OnOk result (KeepsSpread is_there due.old.items graph.old.graph due.new.items graph.new.graph) }
        ensures marked { OnOk result (IsMarkedIfThere COMMON graph.old.graph graph.new.graph id.now) }
        ensures sees { SeesNone graph.old.graph graph.new.graph }
        ensures common { OnOk result (AllCommonAmong graph.old.graph due.old.items → AllCommonAmong graph.new.graph due.new.items) }
        ensures marks_common_only { MarksCommonOnly id.now graph.old.graph graph.new.graph }
        ensures owes { OnOk result (OwesAmong (id.now ∷ []) due.old.items due.new.items) }
        ensures looks { LooksUpCommits graph.old graph.new result }
    {
        if !self.make_common(graph, id)? {
            return Ok(());
        }
        Ok(due.push(*id)?)
    }

    // Marks some commits as common, and makes those due that weren't common before.
    fn reach_all<O: Objects>(
        &mut self,
        graph: &mut Graph<O>,
        ids: &[ObjectId],
        due: &mut Vec<ObjectId>,
    ) -> Result<(), NegotiatorError>
        ensures steps { OnOk result (QueuesInTurn self.old graph.old.graph self.new graph.new.graph) }
        ensures less { OnOk result (to_mark due.new.items graph.new.graph ≤ to_mark due.old.items graph.old.graph) }
        ensures queue { self.new.queue ≡ self.old.queue }
        ensures spreads { OnOk result (KeepsSpread is_there due.old.items graph.old.graph due.new.items graph.new.graph) }
        ensures marked { OnOk result (All (IsMarkedIfThere COMMON graph.old.graph graph.new.graph) ids.now) }
        ensures sees { SeesNone graph.old.graph graph.new.graph }
        ensures common { OnOk result (AllCommonAmong graph.old.graph due.old.items → AllCommonAmong graph.new.graph due.new.items) }
        ensures among { OnOk result (MarksCommonWithin ids.now graph.old.graph graph.new.graph) }
        ensures owes { OnOk result (OwesAmong ids.now due.old.items due.new.items) }
        ensures looks { LooksUpCommits graph.old graph.new result }
    {
        for id in ids {
            self.reach(graph, id, due)?;
        }
        Ok(())
    }

    // Queues a common commit, where it wasn't seen yet. Otherwise marks its parents as common.
    fn spread<O: Objects>(
        &mut self,
        graph: &mut Graph<O>,
        id: &ObjectId,
        due: &mut Vec<ObjectId>,
    ) -> Result<(), NegotiatorError>
        ensures steps { OnOk result (QueuesInTurn self.old graph.old.graph self.new graph.new.graph) }
        ensures less { OnOk result (to_mark due.new.items graph.new.graph ≤ to_mark due.old.items graph.old.graph) }
        ensures room { OnOk result (to_take self.new.queue graph.new.graph ≤ to_take self.old.queue graph.old.graph) }
        ensures spreads { OnOk result (SpreadsFrom is_there id.now due.old.items graph.old.graph due.new.items graph.new.graph) }
        ensures ancestors { OnOk result (has_mark SEEN graph.old.graph.held id.now ≡ true
            → HasCommonParents is_there graph.old.graph graph.new.graph id.now) }
        ensures finds { OnOk result (IsKnown graph.old.graph id.now → SeesCommon graph.old.graph graph.new.graph) }
        ensures common { OnOk result (AllCommonAmong graph.old.graph due.old.items → AllCommonAmong graph.new.graph due.new.items) }
        ensures among { OnOk result (MarksCommonWithin (parents_in graph.new.graph.held id.now) graph.old.graph graph.new.graph) }
        ensures owes { OnOk result (OwesAmong (parents_in graph.new.graph.held id.now) due.old.items due.new.items) }
        ensures looks { LooksUpCommits graph.old graph.new result }
    {
        let Some((_, flags)) = look(graph, id)? else {
            return Ok(());
        };
        if !has(flags, Flags::SEEN) {
            self.push(graph, id, Flags::SEEN)?;
            return Ok(());
        }
        let parents = parents_of(graph, self.alloc, id)?;
        self.reach_all(graph, &parents, due)?;
        Ok(())
    }

    // Spreads the mark from a commit to its ancestors.
    fn spread_all<O: Objects>(
        &mut self,
        graph: &mut Graph<O>,
        id: &ObjectId,
    ) -> Result<(), NegotiatorError>
        ensures steps { OnOk result (QueuesInTurn self.old graph.old.graph self.new graph.new.graph) }
        ensures room { OnOk result (to_take self.new.queue graph.new.graph ≤ to_take self.old.queue graph.old.graph) }
        ensures spreads { OnOk result (SpreadsAllFrom is_there id.now graph.old.graph graph.new.graph) }
        ensures ancestors { OnOk result (has_mark SEEN graph.old.graph.held id.now ≡ true
            → HasCommonParents is_there graph.old.graph graph.new.graph id.now) }
        ensures finds { OnOk result (IsKnown graph.old.graph id.now → SeesCommon graph.old.graph graph.new.graph) }
        ensures only { OnOk result (MarksCommonFrom id.now graph.old.graph graph.new.graph) }
        ensures looks { LooksUpCommits graph.old graph.new result }
    {
        let mut due = Vec::new(self.alloc);
        self.spread(graph, id, &mut due)?;
        while let Some(next) = due.pop() {
            self.spread(graph, &next, &mut due)?;
        }
        Ok(())
    }

    // Marks the ancestors of a commit as common, unless the commit is common already.
    fn mark_ancestors<O: Objects>(
        &mut self,
        graph: &mut Graph<O>,
        id: &ObjectId,
    ) -> Result<(), NegotiatorError>
        ensures steps { OnOk result (QueuesInTurn self.old graph.old.graph self.new graph.new.graph) }
        ensures room { OnOk result (to_take self.new.queue graph.new.graph ≤ to_take self.old.queue graph.old.graph) }
        ensures spreads { OnOk result (StaysSpread is_there graph.old.graph graph.new.graph) }
        ensures ancestors { OnOk result (WhereOpen graph.old.graph id.now
            (HasCommonParents is_there graph.old.graph graph.new.graph id.now)) }
        ensures finds { OnOk result (IsKnown graph.old.graph id.now → SeesCommon graph.old.graph graph.new.graph) }
        ensures only { OnOk result (MarksCommonFrom id.now graph.old.graph graph.new.graph) }
        ensures looks { LooksUpCommits graph.old graph.new result }
    {
        let Some((_, flags)) = look(graph, id)? else {
            return Ok(());
        };
        if has(flags, Flags::COMMON) {
            return Ok(());
        }
        self.spread_all(graph, id)?;
        Ok(())
    }

    // Marks a commit and its ancestors as common.
    fn mark_common<O: Objects>(
        &mut self,
        graph: &mut Graph<O>,
        id: &ObjectId,
    ) -> Result<(), NegotiatorError>
        ensures steps { OnOk result (QueuesInTurn self.old graph.old.graph self.new graph.new.graph) }
        ensures spreads { OnOk result (StaysSpread is_there graph.old.graph graph.new.graph) }
        ensures finds { OnOk result (SeesCommon graph.old.graph graph.new.graph) }
        ensures only { OnOk result (MarksCommonFrom id.now graph.old.graph graph.new.graph) }
        ensures common { OnOk result (IsMarkedIfThere COMMON graph.old.graph graph.new.graph id.now) }
        ensures looks { LooksUpCommits graph.old graph.new result }
    {
        if !self.make_common(graph, id)? {
            return Ok(());
        }
        self.spread_all(graph, id)?;
        Ok(())
    }

    // Queues a parent of a commit that was taken.
    fn follow<O: Objects>(
        &mut self,
        graph: &mut Graph<O>,
        parent: &ObjectId,
        is_common: bool,
    ) -> Result<(), NegotiatorError>
        ensures steps { OnOk result (QueuesInTurn self.old graph.old.graph self.new graph.new.graph) }
        ensures room { OnOk result (to_take self.new.queue graph.new.graph ≤ to_take self.old.queue graph.old.graph) }
        ensures waits { OnOk result (IsMarkedIfThere SEEN graph.old.graph graph.new.graph parent.now) }
        ensures spreads { OnOk result (StaysSpread is_there graph.old.graph graph.new.graph) }
        ensures finds { IsTrue is_common → OnOk result (SeesCommon graph.old.graph graph.new.graph) }
        ensures others { is_common ≡ false → OnOk result (SeesOnly parent.now graph.old.graph graph.new.graph) }
        ensures settles { is_common ≡ false → OnOk result (MarksNoCommon graph.old.graph graph.new.graph) }
        ensures looks { LooksUpCommits graph.old graph.new result }
    {
        if is_common {
            self.push(graph, parent, SEEN_COMMON)?;
            self.mark_ancestors(graph, parent)?;
            return Ok(());
        }
        self.push(graph, parent, Flags::SEEN)?;
        Ok(())
    }

    // Queues the parents of a commit that was taken.
    fn follow_all<O: Objects>(
        &mut self,
        graph: &mut Graph<O>,
        parents: &[ObjectId],
        is_common: bool,
    ) -> Result<(), NegotiatorError>
        ensures steps { OnOk result (QueuesInTurn self.old graph.old.graph self.new graph.new.graph) }
        ensures room { OnOk result (to_take self.new.queue graph.new.graph ≤ to_take self.old.queue graph.old.graph) }
        ensures waits { OnOk result (All (IsMarkedIfThere SEEN graph.old.graph graph.new.graph) parents.now) }
        ensures spreads { OnOk result (StaysSpread is_there graph.old.graph graph.new.graph) }
        ensures finds { IsTrue is_common → OnOk result (SeesCommon graph.old.graph graph.new.graph) }
        ensures others { is_common ≡ false → OnOk result (SeesAmong parents.now graph.old.graph graph.new.graph) }
        ensures settles { is_common ≡ false → OnOk result (MarksNoCommon graph.old.graph graph.new.graph) }
        ensures looks { LooksUpCommits graph.old graph.new result }
    {
        for parent in parents {
            self.follow(graph, parent, is_common)?;
        }
        Ok(())
    }

    // Stops counting a commit that is taken. A common one isn't counted.
    fn release(&mut self, is_common: bool)
        ensures queue { self.new.queue ≡ self.old.queue }
        ensures common { IsTrue is_common → self.new.uncommon ≡ self.old.uncommon }
        ensures open { is_common ≡ false → self.new.uncommon ≡ self.old.uncommon - 1 }
    {
        if !is_common {
            self.uncommon = self.uncommon.saturating_sub(1);
        }
    }

    // Takes a queued commit. Returns whether it is offered.
    fn take<O: Objects>(
        &mut self,
        graph: &mut Graph<O>,
        first: &Waiting,
    ) -> Result<bool, NegotiatorError>
        ensures keeps { OnOk result (StepsTaking first.now self.old graph.old.graph self.new graph.new.graph) }
        ensures offered { IfOk result (λ offered. IsTrue offered → IsOffered graph.old.graph graph.new.graph first.now.id) }
        ensures room { OnOk result (to_take self.new.queue graph.new.graph ≤ to_take self.old.queue graph.old.graph) }
        ensures spreads { OnOk result (StaysSpread is_there graph.old.graph graph.new.graph) }
        ensures passes { IfOk result (λ offered. offered ≡ false → SeesCommon graph.old.graph graph.new.graph) }
        ensures opens { IfOk result (λ offered. IsTrue offered → OpensParents graph.old.graph first.now.id graph.new.graph) }
        ensures pops { OnOk result (PopsOnly first.now.id graph.old.graph graph.new.graph) }
        ensures takes { IfOk result (λ offered. offered ≡ false → TakesCommon graph.old.graph None graph.new.graph) }
        ensures lists { OnOk result (ListsNone graph.old.graph graph.new.graph) }
        ensures looks { LooksUpCommits graph.old graph.new result }
    {
        let Some((_, flags)) = claim(graph, &first.id, Flags::POPPED, Flags::POPPED)? else {
            return Ok(false);
        };
        let is_common = has(flags, Flags::COMMON);
        self.release(is_common);
        let spreads = is_shared(flags);
        let parents = parents_of(graph, self.alloc, &first.id)?;
        self.follow_all(graph, &parents, spreads)?;
        Ok(!is_common)
    }

    // The next commit to offer.
    fn next<O: Objects>(
        &mut self,
        graph: &mut Graph<O>,
    ) -> Result<Option<ObjectId>, NegotiatorError>
        ensures offered { IfOk result (λ have. IfSome have (IsOffered graph.old.graph graph.new.graph)) }
        ensures newest { IfOk result (λ have. IfSome have
            (λ id. IsNewestTimed (heap_items self.old.queue.waiting) graph.old.graph id (heap_items self.new.queue.waiting))) }
        ensures none { IfOk result (λ have. IfNone have (Fits 0 self.old.uncommon (heap_items self.old.queue.waiting) graph.old.graph
            → AllCommon graph.new.graph)) }
        ensures keeps { OnOk result (Steps self.old graph.old.graph self.new graph.new.graph) }
        ensures spreads { OnOk result (StaysSpread is_there graph.old.graph graph.new.graph) }
        ensures finds { IfOk result (λ have. FindsCommon graph.old.graph have graph.new.graph) }
        ensures lists { OnOk result (ListsNone graph.old.graph graph.new.graph) }
        ensures takes { IfOk result (λ have. TakesCommon graph.old.graph have graph.new.graph) }
        ensures ends { IfOk result (λ have. EndsAtOnce self.old.uncommon (heap_items self.old.queue.waiting)
            self.old graph.old.graph have self.new graph.new.graph) }
        ensures looks { LooksUpCommits graph.old graph.new result }
    {
        while let Some(first) = self.queue.pop_unless_all_common(self.uncommon) {
            if self.take(graph, &first)? {
                return Ok(Some(first.id));
            }
        }
        Ok(None)
    }

    // Queues a commit that the server has as a ref, and marks its ancestors as common.
    fn know<O: Objects>(
        &mut self,
        graph: &mut Graph<O>,
        id: &ObjectId,
    ) -> Result<(), NegotiatorError>
        ensures keeps { OnOk result (Steps self.old graph.old.graph self.new graph.new.graph) }
        ensures waits { OnOk result (IsMarkedIfThere SEEN graph.old.graph graph.new.graph id.now) }
        ensures spreads { OnOk result (StaysSpread is_there graph.old.graph graph.new.graph) }
        ensures ancestors { OnOk result (WhereNew graph.old.graph id.now
            (HasCommonParents is_there graph.old.graph graph.new.graph id.now)) }
        ensures listed { OnOk result (IsListedIfNew graph.old.graph graph.new.graph id.now) }
        ensures lists { OnOk result (ListsOnly id.now graph.old.graph graph.new.graph) }
        ensures pops { OnOk result (PopsNone graph.old.graph graph.new.graph) }
        ensures finds { OnOk result (SeesAmong (id.now ∷ []) graph.old.graph graph.new.graph) }
        ensures again { OnOk result (StaysIfSeen self.old graph.old.graph id.now self.new graph.new.graph) }
        ensures only { OnOk result (MarksCommonFrom id.now graph.old.graph graph.new.graph) }
        ensures looks { LooksUpCommits graph.old graph.new result }
    {
        let Some((_, flags)) = look(graph, id)? else {
            return Ok(());
        };
        if has(flags, Flags::SEEN) {
            return Ok(());
        }
        self.push(graph, id, SEEN_REF)?;
        self.mark_ancestors(graph, id)?;
        Ok(())
    }
}

// Whether these marks are of a commit that is common, or that the server has as a ref.
fn is_shared(flags: Flags) -> bool
    ensures { result ≡ (has_all COMMON flags.0 || has_all COMMON_REF flags.0) }
{
    if has(flags, Flags::COMMON) {
        return true;
    }
    has(flags, Flags::COMMON_REF)
}

impl Negotiator for Consecutive {
    ghost use Rattle.gixp_negotiators.specs.MarkLaws.{offer_lowers, grows_left};
    ghost use Rattle.gixp_negotiators.specs.Marks.{POPPED, left};
    ghost use Rattle.gixp_negotiators.specs.Calls.{KnowsInTurn, AddsInTurn, LearnsInTurn, OffersInTurn};
    ghost use Rattle.gixp_negotiators.specs.OwnCalls.{calls_of};

    ghost calls = { calls_of (λ n g. left POPPED g) KnowsInTurn AddsInTurn LearnsInTurn OffersInTurn };

    ghost reports_refusals = { true };

    fn known_common<O: Objects>(
        &mut self,
        id: ObjectId,
        graph: &mut Graph<O>,
    ) -> Result<(), NegotiatorError> {
        self.know(graph, &id)
    }

    fn add_tip<O: Objects>(
        &mut self,
        id: ObjectId,
        graph: &mut Graph<O>,
    ) -> Result<(), NegotiatorError> {
        self.push(graph, &id, Flags::SEEN)
    }

    fn in_common_with_remote<O: Objects>(
        &mut self,
        id: ObjectId,
        graph: &mut Graph<O>,
    ) -> Result<(), NegotiatorError> {
        self.mark_common(graph, &id)
    }

    fn next_have<O: Objects>(
        &mut self,
        graph: &mut Graph<O>,
    ) -> Option<Result<ObjectId, NegotiatorError>> {
        match self.next(graph) {
            Ok(Some(id)) => Some(Ok(id)),
            Ok(None) => None,
            Err(e) => Some(Err(e)),
        }
    }

    ghost offer_lowers = { λ n g id m h r. offer_lowers g h id r.offers };

    ghost none_keeps = { λ n g m h r. grows_left POPPED g h r.grows };

    ghost learning_keeps = { λ n g id m h r. grows_left POPPED g h r.grows };
}
