//! Offers commits at growing distances, the newest first.
ghost use Rattle.std.specs.Prelude.{◌≡◌, ◌≢◌, ℕ, pos, List, ◌≤◌, ◌<◌, ◌+◌, ◌-◌, ◌⊎◌, ◌||◌, ◌∷◌, [], bit_and, true, false};
ghost use Rattle.std.specs.BTreeSet.{contains};
ghost use Rattle.std.specs.BTreeMap.{is_at};
ghost use Rattle.gixp_hash.specs.declared.object_id.ObjectId.{ObjectId};
ghost use Rattle.gixp_hash.specs.ObjectId.{id_cmp};
ghost use Rattle.std.specs.Prelude.{IfOk, IfErr, IfSome, IfNone, IsSome, OnOk, IsTrue, All};
ghost use Rattle.std.specs.BinaryHeap.{heap_items};
ghost use Rattle.gixp_graph.specs.Object.{commit_at};
ghost use Rattle.gixp_graph.specs.GraphData.{parents_in};
ghost use Rattle.gixp_negotiators.specs.declared.queue.Waiting.{Waiting};
ghost use Rattle.gixp_graph.specs.Negotiation.{IsMemory};
ghost use Rattle.gixp_negotiators.specs.Marks.{COMMON, COMMON_REF, SEEN, POPPED, has_all, has_mark, left};
ghost use Rattle.gixp_negotiators.specs.AddedMarks.{SeesOnly, MarksNoCommon, ListsNone, ListsOnly, PopsNone, MarksOnlyAsCommon};
ghost use Rattle.gixp_negotiators.specs.CommitMarks.{StaysIfSeen, IsMarkedIfThere, IsListedIfNew};
ghost use Rattle.gixp_negotiators.specs.Offered.{IsOffered};
ghost use Rattle.gixp_negotiators.specs.Spread.{was_seen, BecomesCommon, KeepsSpread, SpreadsFrom, Spreads};
ghost use Rattle.gixp_negotiators.specs.NewlyCommon.{StaysNewly, AllRead, AllHeld, MarksThrough, MarksCommonAmong};
ghost use Rattle.gixp_negotiators.specs.Owed.{FitsOwing};
ghost use Rattle.gixp_negotiators.specs.Queued.{AllCommon, EndsAtOnce, OffersNone};
ghost use Rattle.gixp_negotiators.specs.Dated.{IsNewestIn, QueuesNew};
ghost use Rattle.gixp_negotiators.specs.Unread.{KeepsUnread, IsUnreadIfNew};
ghost use Rattle.gixp_negotiators.specs.LooksUpCommits.{LooksUpCommits};
ghost use Rattle.gixp_negotiators.specs.Work.{to_take, to_mark};
ghost use Rattle.gixp_negotiators.specs.Calls.{FitsSkipping, CountsStill, CountsTaking, CountsAll};
ghost use Rattle.gixp_negotiators.specs.declared.skipping.Legacy.TheVariants.{Common, Skips};
ghost use Rattle.gixp_negotiators.specs.Distance.{distance_after, skip_of};
ghost use Rattle.gixp_negotiators.specs.Passing.{skip_in, HandsOne, Hands, AllTaken, IsCommonIfLeft, Takes, Distances};

use crate::marks::{SEEN_REF, add, claim, has, is_marked, parents_of};
use crate::queue::{Queue, Waiting};
use gixp_graph::{Flags, Graph, Negotiator, NegotiatorError, Objects};
use gixp_hash::ObjectId;
use std::alloc::Global;
use std::collections::{BTreeMap, BTreeSet};

// How many commits are skipped before the next is offered.
#[derive(Clone, Copy)]
struct Skip {
    // At its start.
    whole: u32,
    // How many are left to skip.
    left: u32,
}

// What a commit that was taken passes on to its parents.
#[derive(Clone, Copy)]
enum Legacy {
    Common,
    Skips(Skip),
}

/// Offers commits at growing distances, the newest first (`skipping` of git's
/// `fetch.negotiationAlgorithm`).
///
/// A commit that is found is queued once, under its own time. Along a line of commits that aren't known to be common,
/// the first is offered, then the next after one skipped commit, then the next after two, and so on: each distance is half
/// as long again as the one before, plus one. The last commit of a line is offered too. Parents of a common commit are
/// common. The offers end when all queued commits are common.
///
/// The graph's marks record which commits were seen, taken and found common, so a graph is for one negotiation.
#[derive(Drop)]
pub struct Skipping {
    alloc: Global,
    queue: Queue,
    // The distances of commits that were seen.
    skips: BTreeMap<ObjectId, Skip>,
    // Queued commits that weren't read before: they are queued at time 0, and their parents aren't known.
    unread: BTreeSet<ObjectId>,
    // How many queued commits aren't common.
    uncommon: usize,
}

impl Skipping {
    /// A negotiator without commits.
    pub fn new(alloc: Global) -> Skipping
        ensures queue { heap_items result.queue.waiting ≡ [] }
        ensures skips { result.skips.entries ≡ [] }
        ensures unread { result.unread.keys ≡ [] }
        ensures uncommon { result.uncommon ≡ 0 }
    {
        Skipping {
            alloc,
            queue: Queue::new(alloc),
            skips: BTreeMap::new(alloc),
            unread: BTreeSet::new(alloc),
            uncommon: 0,
        }
    }

    // Queues a commit, where it is found and wasn't seen before. Marks it as seen, and may add another mark.
    fn push<O: Objects>(
        &mut self,
        graph: &mut Graph<O>,
        id: &ObjectId,
        marks: Flags,
    ) -> Result<(), NegotiatorError>
        requires { (marks.0 ≡ SEEN) ⊎ (marks.0 ≡ SEEN + COMMON_REF) }
        ensures fits { OnOk result (CountsAll self.old graph.old.graph self.new graph.new.graph) }
        ensures room { OnOk result (to_take self.new.queue graph.new.graph ≤ to_take self.old.queue graph.old.graph) }
        ensures waits { OnOk result (IsMarkedIfThere SEEN graph.old.graph graph.new.graph id.now) }
        ensures listed { OnOk result (bit_and marks.0 COMMON_REF ≡ COMMON_REF → IsListedIfNew graph.old.graph graph.new.graph id.now) }
        ensures settles { MarksNoCommon graph.old.graph graph.new.graph }
        ensures queues { OnOk result (QueuesNew (heap_items self.old.queue.waiting) graph.old.graph (heap_items self.new.queue.waiting)) }
        ensures skips { OnOk result (self.new.skips ≡ self.old.skips) }
        ensures sees { SeesOnly id.now graph.old.graph graph.new.graph }
        ensures lists { OnOk result (bit_and marks.0 COMMON_REF ≡ 0 → ListsNone graph.old.graph graph.new.graph) }
        ensures lists_only { OnOk result (ListsOnly id.now graph.old.graph graph.new.graph) }
        ensures pops { OnOk result (PopsNone graph.old.graph graph.new.graph) }
        ensures unread { OnOk result (KeepsUnread self.old.unread graph.old.graph self.new.unread graph.new.graph) }
        ensures unread_if_new { OnOk result (IsUnreadIfNew graph.old.graph id.now self.new.unread) }
        ensures again { OnOk result (StaysIfSeen self.old graph.old.graph id.now self.new graph.new.graph) }
        ensures looks { LooksUpCommits graph.old graph.new result }
    {
        let is_read = graph.get(id).is_some();
        let Some((time, _)) = claim(graph, id, Flags::SEEN, marks)? else {
            return Ok(());
        };
        self.admit()?;
        let due = self.time_of(is_read, time, id)?;
        Ok(self.queue.push(due, *id)?)
    }

    fn admit(&mut self) -> Result<(), NegotiatorError>
        ensures queue { self.new.queue ≡ self.old.queue }
        ensures skips { self.new.skips ≡ self.old.skips }
        ensures unread { self.new.unread ≡ self.old.unread }
        ensures counted { OnOk result (self.new.uncommon ≡ self.old.uncommon + 1) }
        ensures failed { IfErr result IsMemory }
    {
        let Some(more) = self.uncommon.checked_add(1) else {
            return Err(NegotiatorError::Memory);
        };
        self.uncommon = more;
        Ok(())
    }

    // The time under which a commit is queued.
    fn time_of(&mut self, is_read: bool, time: i64, id: &ObjectId) -> Result<i64, NegotiatorError>
        ensures queue { self.new.queue ≡ self.old.queue }
        ensures skips { self.new.skips ≡ self.old.skips }
        ensures uncommon { self.new.uncommon ≡ self.old.uncommon }
        ensures read { is_read ≡ true → IfOk result (λ due. due ≡ time) }
        ensures stays { is_read ≡ true → OnOk result (self.new.unread ≡ self.old.unread) }

        // A commit that wasn't read is queued at time 0, and recorded as unread.
        ensures unread { is_read ≡ false → IfOk result (λ due. due ≡ pos 0) }
        ensures kept { is_read ≡ false → OnOk result ((q : ObjectId) → contains id_cmp self.new.unread q
            ≡ (is_at (id_cmp id.now) q || contains id_cmp self.old.unread q)) }
        ensures failed { IfErr result IsMemory }
    {
        if is_read {
            return Ok(time);
        }
        self.unread.insert(*id)?;
        Ok(0)
    }

    // Marks as common the parents of a common commit that were seen.
    fn spread<O: Objects>(
        &self,
        graph: &mut Graph<O>,
        id: &ObjectId,
        due: &mut Vec<ObjectId>,
    ) -> Result<(), NegotiatorError>
        ensures fits { OnOk result ((lost u : ℕ) (ws : List Waiting) → FitsOwing lost u ws graph.old.graph due.old.items
            → FitsOwing lost u ws graph.new.graph due.new.items) }
        ensures less { OnOk result (to_mark due.new.items graph.new.graph ≤ to_mark due.old.items graph.old.graph) }
        ensures spreads { OnOk result (SpreadsFrom was_seen id.now due.old.items graph.old.graph due.new.items graph.new.graph) }
        ensures newly { OnOk result (StaysNewly due.old.items graph.old.graph due.new.items graph.new.graph) }
        ensures among { OnOk result (MarksCommonAmong (parents_in graph.old.graph.held id.now) graph.old.graph graph.new.graph) }
        ensures marks { OnOk result (MarksOnlyAsCommon graph.old.graph graph.new.graph) }
        ensures looks { LooksUpCommits graph.old graph.new result }
    {
        let parents = parents_of(graph, self.alloc, id)?;
        reach_all(graph, &parents, due)?;
        Ok(())
    }

    // Stops counting a commit that is now common, unless it was taken.
    fn discount(&mut self, is_taken: bool)
        ensures queue { self.new.queue ≡ self.old.queue }
        ensures skips { self.new.skips ≡ self.old.skips }
        ensures unread { self.new.unread ≡ self.old.unread }
        ensures taken { is_taken ≡ true → self.new.uncommon ≡ self.old.uncommon }
        ensures waits { is_taken ≡ false → self.new.uncommon ≡ self.old.uncommon - 1 }
    {
        if !is_taken {
            self.uncommon = self.uncommon.saturating_sub(1);
        }
    }

    // Marks a commit as common, if it was seen, and each ancestor that was seen.
    fn mark_common<O: Objects>(
        &mut self,
        graph: &mut Graph<O>,
        id: &ObjectId,
    ) -> Result<(), NegotiatorError>
        ensures fits { OnOk result (CountsStill (AllRead self.old.unread graph.old.graph graph.new.graph)
            self.old graph.old.graph self.new graph.new.graph) }
        ensures common { OnOk result (has_mark SEEN graph.old.graph.held id.now ≡ true
            → has_mark COMMON graph.new.graph.held id.now ≡ true) }
        ensures queue { self.new.queue ≡ self.old.queue }
        ensures skips { self.new.skips ≡ self.old.skips }
        ensures spreads { OnOk result (AllRead self.old.unread graph.old.graph graph.new.graph
            → Spreads was_seen graph.old.graph graph.new.graph) }
        ensures unread { self.new.unread ≡ self.old.unread }
        ensures through { OnOk result (MarksThrough self.old.unread graph.old.graph id.now graph.new.graph) }
        ensures marks { OnOk result (MarksOnlyAsCommon graph.old.graph graph.new.graph) }
        ensures looks { LooksUpCommits graph.old graph.new result }
    {
        let mut due = Vec::new(self.alloc);
        reach(graph, id, &mut due)?;
        while let Some(next) = due.pop() {
            self.discount(is_marked(graph, &next, Flags::POPPED));
            if self.unread.contains(&next) {
                return Ok(());
            }
            self.spread(graph, &next, &mut due)?;
        }
        Ok(())
    }

    // The distance of a commit.
    fn skip_of(&self, id: &ObjectId) -> Skip
        ensures { result ≡ skip_in self.now.skips.entries id.now }
    {
        match self.skips.get(id) {
            Some(&skip) => skip,
            None => Skip { whole: 0, left: 0 },
        }
    }

    // Gives a commit this distance, unless its own is at least as long.
    fn raise(&mut self, id: &ObjectId, skip: Skip) -> Result<(), NegotiatorError>
        ensures queue { self.new.queue ≡ self.old.queue }
        ensures uncommon { self.new.uncommon ≡ self.old.uncommon }
        ensures unread { self.new.unread ≡ self.old.unread }
        ensures hands { OnOk result (HandsOne (Skips skip) id.now self.old.skips.entries self.new.skips.entries) }
        ensures failed { IfErr result IsMemory }
    {
        if self.skip_of(id).whole >= skip.whole {
            return Ok(());
        }
        self.skips.insert(*id, skip)?;
        Ok(())
    }

    // Passes on to a parent what it gets from a commit that was taken.
    fn pass<O: Objects>(
        &mut self,
        graph: &mut Graph<O>,
        id: &ObjectId,
        legacy: Legacy,
    ) -> Result<(), NegotiatorError>
        ensures fits { OnOk result (CountsStill (AllRead self.old.unread graph.old.graph graph.new.graph)
            self.old graph.old.graph self.new graph.new.graph) }
        ensures queue { self.new.queue ≡ self.old.queue }
        ensures hands { OnOk result (HandsOne legacy id.now self.old.skips.entries self.new.skips.entries) }
        ensures settles { legacy ≢ Common → OnOk result (MarksNoCommon graph.old.graph graph.new.graph) }
        ensures common { legacy ≡ Common → OnOk result (has_mark SEEN graph.old.graph.held id.now ≡ true
            → has_mark COMMON graph.new.graph.held id.now ≡ true) }
        ensures unread { self.new.unread ≡ self.old.unread }
        ensures marks { OnOk result (MarksOnlyAsCommon graph.old.graph graph.new.graph) }
        ensures looks { LooksUpCommits graph.old graph.new result }
    {
        match legacy {
            Legacy::Common => {
                self.mark_common(graph, id)?;
                Ok(())
            }
            Legacy::Skips(skip) => {
                self.raise(id, skip)?;
                Ok(())
            }
        }
    }

    // Queues a parent of a commit that was taken. Returns whether it is queued.
    fn follow<O: Objects>(
        &mut self,
        graph: &mut Graph<O>,
        parent: &ObjectId,
        legacy: Legacy,
    ) -> Result<bool, NegotiatorError>
        ensures fits { OnOk result (CountsStill (AllHeld self.old.unread graph.old.graph graph.new.graph)
            self.old graph.old.graph self.new graph.new.graph) }
        ensures room { OnOk result (to_take self.new.queue graph.new.graph ≤ to_take self.old.queue graph.old.graph) }
        ensures waits { OnOk result (IsMarkedIfThere SEEN graph.old.graph graph.new.graph parent.now) }
        ensures left { IfOk result (λ waits. waits ≡ true → has_mark POPPED graph.new.graph.held parent.now ≡ false) }
        ensures taken { IfOk result (λ waits. waits ≡ false → has_mark POPPED graph.new.graph.held parent.now ≡ true) }
        ensures hands { OnOk result (Hands legacy (parent.now ∷ []) graph.new.graph self.old.skips.entries self.new.skips.entries) }
        ensures queues { OnOk result (QueuesNew (heap_items self.old.queue.waiting) graph.old.graph (heap_items self.new.queue.waiting)) }
        ensures settles { legacy ≢ Common → OnOk result (MarksNoCommon graph.old.graph graph.new.graph) }
        ensures common { legacy ≡ Common → OnOk result (AllCommon graph.old.graph → AllCommon graph.new.graph) }
        ensures shares { legacy ≡ Common → OnOk result (IsCommonIfLeft graph.new.graph parent.now) }
        ensures lists { OnOk result (ListsNone graph.old.graph graph.new.graph) }
        ensures pops { OnOk result (PopsNone graph.old.graph graph.new.graph) }
        ensures unread { OnOk result (KeepsUnread self.old.unread graph.old.graph self.new.unread graph.new.graph) }
        ensures looks { LooksUpCommits graph.old graph.new result }
    {
        self.push(graph, parent, Flags::SEEN)?;
        if is_marked(graph, parent, Flags::POPPED) {
            return Ok(false);
        }
        self.pass(graph, parent, legacy)?;
        Ok(true)
    }

    // Queues the parents of a commit that was taken. Returns whether one of them is queued.
    fn follow_all<O: Objects>(
        &mut self,
        graph: &mut Graph<O>,
        parents: &[ObjectId],
        legacy: Legacy,
    ) -> Result<bool, NegotiatorError>
        ensures fits { OnOk result (CountsStill (AllHeld self.old.unread graph.old.graph graph.new.graph)
            self.old graph.old.graph self.new graph.new.graph) }
        ensures room { OnOk result (to_take self.new.queue graph.new.graph ≤ to_take self.old.queue graph.old.graph) }
        ensures waits { OnOk result (All (IsMarkedIfThere SEEN graph.old.graph graph.new.graph) parents.now) }
        ensures left { IfOk result (λ any. any ≡ true → AllTaken graph.new.graph parents.now → ⊥) }
        ensures taken { IfOk result (λ any. any ≡ false → AllTaken graph.new.graph parents.now) }
        ensures hands { OnOk result (Hands legacy parents.now graph.new.graph self.old.skips.entries self.new.skips.entries) }
        ensures queues { OnOk result (QueuesNew (heap_items self.old.queue.waiting) graph.old.graph (heap_items self.new.queue.waiting)) }
        ensures settles { legacy ≢ Common → OnOk result (MarksNoCommon graph.old.graph graph.new.graph) }
        ensures common { legacy ≡ Common → OnOk result (AllCommon graph.old.graph → AllCommon graph.new.graph) }
        ensures shares { legacy ≡ Common → OnOk result (All (IsCommonIfLeft graph.new.graph) parents.now) }
        ensures lists { OnOk result (ListsNone graph.old.graph graph.new.graph) }
        ensures pops { OnOk result (PopsNone graph.old.graph graph.new.graph) }
        ensures unread { OnOk result (KeepsUnread self.old.unread graph.old.graph self.new.unread graph.new.graph) }
        ensures looks { LooksUpCommits graph.old graph.new result }
    {
        let mut any = false;
        for parent in parents {
            let waits = self.follow(graph, parent, legacy)?;
            any |= waits;
        }
        Ok(any)
    }

    // Takes a queued commit. Returns whether it is offered.
    fn take<O: Objects>(
        &mut self,
        graph: &mut Graph<O>,
        first: &Waiting,
    ) -> Result<bool, NegotiatorError>
        ensures fits { OnOk result (CountsTaking (AllHeld self.old.unread graph.old.graph graph.new.graph) first.now
            self.old graph.old.graph self.new graph.new.graph) }
        ensures offered { IfOk result (λ offered. IsTrue offered → IsOffered graph.old.graph graph.new.graph first.now.id) }
        ensures takes { IfOk result
            (λ offered. Takes self.old.skips.entries graph.old.graph first.now.id offered self.new.skips.entries graph.new.graph) }
        ensures common { OnOk result (has_mark COMMON graph.old.graph.held first.now.id ≡ true
            → AllCommon graph.old.graph → AllCommon graph.new.graph) }
        ensures room { OnOk result (to_take self.new.queue graph.new.graph ≤ to_take self.old.queue graph.old.graph) }
        ensures queues { OnOk result (QueuesNew (heap_items self.old.queue.waiting) graph.old.graph (heap_items self.new.queue.waiting)) }
        ensures lists { OnOk result (ListsNone graph.old.graph graph.new.graph) }
        ensures unread { OnOk result (KeepsUnread self.old.unread graph.old.graph self.new.unread graph.new.graph) }
        ensures looks { LooksUpCommits graph.old graph.new result }
    {
        let Some((_, flags)) = claim(graph, &first.id, Flags::POPPED, Flags::POPPED)? else {
            return Ok(false);
        };
        self.unread.remove(&first.id);
        let skip = self.skip_of(&first.id);
        let is_common = has(flags, Flags::COMMON);
        self.discount(is_common);
        let parents = parents_of(graph, self.alloc, &first.id)?;
        let any = self.follow_all(graph, &parents, legacy_of(flags, skip))?;
        Ok(is_offered(is_common, skip.left, any))
    }

    // The next commit to offer.
    fn next<O: Objects>(
        &mut self,
        graph: &mut Graph<O>,
    ) -> Result<Option<ObjectId>, NegotiatorError>
        ensures offered { IfOk result (λ have. IfSome have (IsOffered graph.old.graph graph.new.graph)) }
        ensures newest { IfOk result (λ have. IfSome have
            (λ id. IsNewestIn (heap_items self.old.queue.waiting) graph.old.graph id (heap_items self.new.queue.waiting))) }
        ensures distances { IfOk result (λ have.
            Distances self.old.skips.entries graph.old.graph have self.new.skips.entries graph.new.graph) }
        ensures none { IfOk result (λ have. IfNone have ((lost : ℕ) → FitsSkipping lost self.old graph.old.graph
            → AllCommon graph.new.graph)) }
        ensures ends { IfOk result (λ have. EndsAtOnce self.old.uncommon (heap_items self.old.queue.waiting)
            self.old graph.old.graph have self.new graph.new.graph) }
        ensures offers_none { IfOk result
            (λ have. OffersNone self.old.uncommon (heap_items self.old.queue.waiting) graph.old.graph have) }
        ensures fits { OnOk result (CountsStill (AllHeld self.old.unread graph.old.graph graph.new.graph)
            self.old graph.old.graph self.new graph.new.graph) }
        ensures queues { OnOk result (QueuesNew (heap_items self.old.queue.waiting) graph.old.graph (heap_items self.new.queue.waiting)) }
        ensures lists { OnOk result (ListsNone graph.old.graph graph.new.graph) }
        ensures unread { OnOk result (KeepsUnread self.old.unread graph.old.graph self.new.unread graph.new.graph) }
        ensures looks { LooksUpCommits graph.old graph.new result }
    {
        while let Some(first) = self.queue.pop_unless_all_common(self.uncommon) {
            if self.take(graph, &first)? {
                return Ok(Some(first.id));
            }
        }
        Ok(None)
    }
}

// Marks as common a commit that was seen and wasn't common, and makes it due: its parents are to be marked.
fn reach<O: Objects>(
    graph: &mut Graph<O>,
    id: &ObjectId,
    due: &mut Vec<ObjectId>,
) -> Result<(), NegotiatorError>
    ensures fits { OnOk result ((lost u : ℕ) (ws : List Waiting) → FitsOwing lost u ws graph.old.graph due.old.items
        → FitsOwing lost u ws graph.new.graph due.new.items) }
    ensures common { OnOk result (has_mark SEEN graph.old.graph.held id.now ≡ true → has_mark COMMON graph.new.graph.held id.now ≡ true) }
    ensures less { OnOk result (to_mark due.new.items graph.new.graph ≤ to_mark due.old.items graph.old.graph) }
    ensures spreads { OnOk result (KeepsSpread was_seen due.old.items graph.old.graph due.new.items graph.new.graph) }
    ensures newly { OnOk result (StaysNewly due.old.items graph.old.graph due.new.items graph.new.graph) }
    ensures among { OnOk result (MarksCommonAmong (id.now ∷ []) graph.old.graph graph.new.graph) }
    ensures marks { OnOk result (MarksOnlyAsCommon graph.old.graph graph.new.graph) }
    ensures looks { LooksUpCommits graph.old graph.new result }
{
    if !is_due(graph, id) {
        return Ok(());
    }
    add(graph, id, Flags::COMMON);
    Ok(due.push(*id)?)
}

// Whether a commit was seen, and isn't common.
fn is_due<O: Objects>(graph: &Graph<O>, id: &ObjectId) -> bool
    ensures seen { IsTrue result → has_mark SEEN graph.now.graph.held id.now ≡ true }
    ensures open { IsTrue result → has_mark COMMON graph.now.graph.held id.now ≡ false }
    ensures there { IsTrue result → IsSome (commit_at graph.now.graph.objects id.now) }
    ensures other { result ≡ false → has_mark SEEN graph.now.graph.held id.now ≡ true → has_mark COMMON graph.now.graph.held id.now ≡ true }
{
    if is_marked(graph, id, Flags::SEEN) {
        let is_common = is_marked(graph, id, Flags::COMMON);
        return !is_common;
    }
    false
}

fn reach_all<O: Objects>(
    graph: &mut Graph<O>,
    ids: &[ObjectId],
    due: &mut Vec<ObjectId>,
) -> Result<(), NegotiatorError>
    ensures fits { OnOk result ((lost u : ℕ) (ws : List Waiting) → FitsOwing lost u ws graph.old.graph due.old.items
        → FitsOwing lost u ws graph.new.graph due.new.items) }
    ensures less { OnOk result (to_mark due.new.items graph.new.graph ≤ to_mark due.old.items graph.old.graph) }
    ensures spreads { OnOk result (KeepsSpread was_seen due.old.items graph.old.graph due.new.items graph.new.graph) }
    ensures newly { OnOk result (StaysNewly due.old.items graph.old.graph due.new.items graph.new.graph) }
    ensures common { OnOk result (All (BecomesCommon was_seen graph.old.graph graph.new.graph) ids.now) }
    ensures among { OnOk result (MarksCommonAmong ids.now graph.old.graph graph.new.graph) }
    ensures marks { OnOk result (MarksOnlyAsCommon graph.old.graph graph.new.graph) }
    ensures looks { LooksUpCommits graph.old graph.new result }
{
    for id in ids {
        reach(graph, id, due)?;
    }
    Ok(())
}

// Whether a commit that was taken is offered: where none is left to skip, or where it is the last of a line.
fn is_offered(is_common: bool, left: u32, any: bool) -> bool
    ensures common { IsTrue result → is_common ≡ false }
    ensures reached { is_common ≡ false → left ≡ 0 → IsTrue result }
    ensures last { is_common ≡ false → any ≡ false → IsTrue result }
    ensures passed { 0 < left → any ≡ true → result ≡ false }
{
    if is_common {
        return false;
    }
    if left == 0 {
        return true;
    }
    !any
}

// The next distance: half as long again, plus one.
fn next_distance(whole: u32) -> u32
    ensures { result ≡ distance_after whole }
{
    (whole / 2).saturating_add(whole).saturating_add(1)
}

// What a commit with these marks passes on to its parents.
fn legacy_of(flags: Flags, skip: Skip) -> Legacy
    ensures common { has_all COMMON flags.0 ≡ true → result ≡ Common }
    ensures listed { has_all COMMON_REF flags.0 ≡ true → result ≡ Common }
    ensures passes { has_all COMMON flags.0 ≡ false → has_all COMMON_REF flags.0 ≡ false → 0 < skip.left
        → result ≡ Skips (skip_of skip.whole (skip.left - 1)) }
    ensures grows { has_all COMMON flags.0 ≡ false → has_all COMMON_REF flags.0 ≡ false → skip.left ≡ 0
        → result ≡ Skips (skip_of (distance_after skip.whole) (distance_after skip.whole)) }
{
    if has(flags, Flags::COMMON) || has(flags, Flags::COMMON_REF) {
        return Legacy::Common;
    }
    if skip.left > 0 {
        return Legacy::Skips(Skip {
            whole: skip.whole,
            left: skip.left - 1,
        });
    }
    let whole = next_distance(skip.whole);
    Legacy::Skips(Skip { whole, left: whole })
}

impl Negotiator for Skipping {
    ghost use Rattle.gixp_negotiators.specs.MarkLaws.{offer_lowers, grows_left};
    ghost use Rattle.gixp_negotiators.specs.Marks.{POPPED, left};
    ghost use Rattle.gixp_negotiators.specs.Calls.{KnowsSkipping, AddsSkipping, LearnsSkipping, OffersSkipping};
    ghost use Rattle.gixp_negotiators.specs.OwnCalls.{calls_of};

    ghost calls = { calls_of (λ n g. left POPPED g) KnowsSkipping AddsSkipping LearnsSkipping OffersSkipping };

    ghost reports_refusals = { true };

    fn known_common<O: Objects>(
        &mut self,
        id: ObjectId,
        graph: &mut Graph<O>,
    ) -> Result<(), NegotiatorError> {
        self.push(graph, &id, SEEN_REF)
    }

    fn add_tip<O: Objects>(
        &mut self,
        id: ObjectId,
        graph: &mut Graph<O>,
    ) -> Result<(), NegotiatorError> {
        self.push(graph, &id, Flags::SEEN)
    }

    fn in_common_with_remote<O: Objects>(
        &mut self,
        id: ObjectId,
        graph: &mut Graph<O>,
    ) -> Result<(), NegotiatorError> {
        self.mark_common(graph, &id)
    }

    fn next_have<O: Objects>(
        &mut self,
        graph: &mut Graph<O>,
    ) -> Option<Result<ObjectId, NegotiatorError>> {
        match self.next(graph) {
            Ok(Some(id)) => Some(Ok(id)),
            Ok(None) => None,
            Err(e) => Some(Err(e)),
        }
    }

    ghost offer_lowers = { λ n g id m h r. offer_lowers g h id r.offers };

    ghost none_keeps = { λ n g m h r. grows_left POPPED g h r.grows };

    ghost learning_keeps = { λ n g id m h r. grows_left POPPED g h r.grows };
}
