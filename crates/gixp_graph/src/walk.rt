//! The walk that marks complete commits.
ghost use Rattle.std.specs.Prelude.{◌≡◌, ◌≤◌, ◌<◌, ◌⊎◌, ℤ, None, IfOk, IfErr, OnOk, OnErr, IsTrue, length, option_map};
ghost use Rattle.gixp_hash.specs.declared.object_id.ObjectId.{ObjectId};
ghost use Rattle.gixp_graph.specs.declared.objects.ObjectError.TheVariants.{Memory};
ghost use Rattle.gixp_hash.specs.Failures.{HasRisen};
ghost use Rattle.gixp_graph.specs.GraphData.{HeldCommit, graph_of, found_in, marked_found, commit_in, is_marked, OnlyMarks};
ghost use Rattle.gixp_graph.specs.Complete.{IsComplete};
ghost use Rattle.gixp_graph.specs.Table.{id_at, ids_at, AllNamed, KeepsNumbers};
ghost use Rattle.gixp_graph.specs.Visited.{AllVisitedNamed, IsOneToOne};
ghost use Rattle.gixp_graph.specs.Waiting.{AllQueuedNamed};
ghost use Rattle.gixp_graph.specs.Asked.{AsksWhere};
ghost use Rattle.gixp_graph.specs.Refusals.{ErrorIsRefusal};
ghost use Rattle.gixp_graph.specs.Walk.{walk_of, IsUnread, Visits, VisitsSome, VisitsEach, AsksAll, AsksSome, AsksDue};
ghost use Rattle.std.specs.FinMap as finite;

use crate::commits::Commits;
use crate::flags::Flags;
use crate::objects::{ObjectError, Objects};
use crate::queue::TimeQueue;
use crate::visited::Visited;
use bitflags::Flags as _;
use gixp_hash::ObjectId;
use std::alloc::Global;

// Marks the commit with this number, where it is found. Returns its time.
fn mark_found<O: Objects>(
    alloc: Global,
    objects: &mut O,
    commits: &mut Commits,
    number: usize,
) -> Result<Option<i64>, ObjectError>
    requires { number < length commits.old.ids }
    ensures time { IfOk result (λ time. time ≡ option_map (λ (h : HeldCommit). h.time)
        (found_in (graph_of (O.contents objects.old) commits.old.held) (id_at commits.old.ids number))) }
    ensures ok { OnOk result (commits.new.held ≡ marked_found (graph_of (O.contents objects.old) commits.old.held)
        (id_at commits.old.ids number)) }
    ensures err { OnErr result (commits.new.held ≡ commits.old.held) }
    ensures once { IsOneToOne commits.old.ids }
    ensures asked { AsksWhere (finite.get commits.old.held (id_at commits.old.ids number) ≡ None) (id_at commits.old.ids number)
        (O.asked objects.old) (O.asked objects.new) }
    ensures kept { KeepsNumbers commits.old.ids commits.new.ids }
    ensures contents { O.contents objects.new ≡ O.contents objects.old }
    ensures unrefused { OnOk result (O.refusals objects.new ≡ O.refusals objects.old) }
    ensures refused { IfErr result (λ e. ErrorIsRefusal e (O.refusals objects.old) (O.refusals objects.new)) }
    ensures failures { O.failures objects.old ≤ O.failures objects.new }
    ensures failed { IfErr result (λ e. (e ≡ Memory) ⊎ HasRisen (O.failures objects.old) (O.failures objects.new)) }
{
    let Some((time, flags)) = commits.lookup_at(alloc, objects, number)? else {
        return Ok(None);
    };
    if flags.contains(Flags::COMPLETE) {
        return Ok(Some(time));
    }
    commits.insert_flags_at(number, Flags::COMPLETE);
    Ok(Some(time))
}

// Marks and queues the commit with this number, where it wasn't visited before and is found.
fn visit<O: Objects>(
    alloc: Global,
    objects: &mut O,
    commits: &mut Commits,
    visited: &mut Visited,
    queue: &mut TimeQueue,
    number: usize,
) -> Result<(), ObjectError>
    requires named { number < length commits.old.ids }
    requires visited_named { AllVisitedNamed commits.old.ids visited.old }
    requires queue_named { AllQueuedNamed commits.old.ids queue.old }
    ensures visits { OnOk result (Visits (O.contents objects.old) (id_at commits.old.ids number)
        (walk_of commits.old visited.old queue.old) (walk_of commits.new visited.new queue.new)) }
    ensures visited_named { OnOk result (AllVisitedNamed commits.new.ids visited.new) }
    ensures queue_named { OnOk result (AllQueuedNamed commits.new.ids queue.new) }
    ensures asked { AsksWhere (IsUnread (walk_of commits.old visited.old queue.old) (id_at commits.old.ids number))
        (id_at commits.old.ids number) (O.asked objects.old) (O.asked objects.new) }
    ensures err { OnErr result ((commits.new.held ≡ commits.old.held)
        ⊎ (commits.new.held ≡ marked_found (graph_of (O.contents objects.old) commits.old.held) (id_at commits.old.ids number))) }
    ensures kept { KeepsNumbers commits.old.ids commits.new.ids }
    ensures contents { O.contents objects.new ≡ O.contents objects.old }
    ensures unrefused { OnOk result (O.refusals objects.new ≡ O.refusals objects.old) }
    ensures refused { IfErr result (λ e. ErrorIsRefusal e (O.refusals objects.old) (O.refusals objects.new)) }
    ensures failures { O.failures objects.old ≤ O.failures objects.new }
    ensures failed { IfErr result (λ e. (e ≡ Memory) ⊎ HasRisen (O.failures objects.old) (O.failures objects.new)) }
{
    match visited.insert(number) {
        Ok(true) => {}
        Ok(false) => return Ok(()),
        Err(_) => return Err(ObjectError::Memory),
    }
    let Some(time) = mark_found(alloc, objects, commits, number)? else {
        return Ok(());
    };
    match queue.push(time, number) {
        Ok(()) => Ok(()),
        Err(_) => Err(ObjectError::Memory),
    }
}

fn visit_each<O: Objects>(
    alloc: Global,
    objects: &mut O,
    commits: &mut Commits,
    visited: &mut Visited,
    queue: &mut TimeQueue,
    numbers: &[usize],
) -> Result<(), ObjectError>
    requires named { AllNamed commits.old.ids numbers.now }
    requires visited_named { AllVisitedNamed commits.old.ids visited.old }
    requires queue_named { AllQueuedNamed commits.old.ids queue.old }
    ensures each { OnOk result (VisitsEach (O.contents objects.old) (ids_at commits.old.ids numbers.now)
        (walk_of commits.old visited.old queue.old) (walk_of commits.new visited.new queue.new)) }
    ensures visited_named { OnOk result (AllVisitedNamed commits.new.ids visited.new) }
    ensures queue_named { OnOk result (AllQueuedNamed commits.new.ids queue.new) }
    ensures asked { OnOk result (AsksAll (O.contents objects.old) (ids_at commits.old.ids numbers.now)
        (walk_of commits.old visited.old queue.old) (walk_of commits.new visited.new queue.new) (O.asked objects.old)
        (O.asked objects.new)) }
    ensures asked_some { OnErr result (AsksSome (O.contents objects.old) (ids_at commits.old.ids numbers.now)
        (walk_of commits.old visited.old queue.old) (O.asked objects.old) (O.asked objects.new)) }
    ensures some { VisitsSome (O.contents objects.old) (ids_at commits.old.ids numbers.now) commits.old.held commits.new.held }
    ensures kept { KeepsNumbers commits.old.ids commits.new.ids }
    ensures contents { O.contents objects.new ≡ O.contents objects.old }
    ensures unrefused { OnOk result (O.refusals objects.new ≡ O.refusals objects.old) }
    ensures refused { IfErr result (λ e. ErrorIsRefusal e (O.refusals objects.old) (O.refusals objects.new)) }
    ensures failures { O.failures objects.old ≤ O.failures objects.new }
    ensures failed { IfErr result (λ e. (e ≡ Memory) ⊎ HasRisen (O.failures objects.old) (O.failures objects.new)) }
{
    for &number in numbers {
        visit(alloc, objects, commits, visited, queue, number)?;
    }
    Ok(())
}

/// Marks the commits of these ids that are found. With a cutoff it also marks the parents that are found of each
/// commit so marked whose own time is at least the cutoff.
///
/// The walk takes the newest commit first, so it may stop at the first time before the cutoff: no queued commit is
/// newer. A parent that is newer than its child is queued under its own time, and is taken next. The walk has its own set
/// of visited nodes, so it passes through commits that had the mark before.
pub(crate) fn mark_complete<O: Objects>(
    alloc: Global,
    objects: &mut O,
    commits: &mut Commits,
    ids: &[ObjectId],
    cutoff: Option<i64>,
) -> Result<(), ObjectError>
    ensures only_marks { OnlyMarks (graph_of (O.contents objects.old) commits.old.held) commits.new.held }
    ensures sound { (id : ObjectId) → IsTrue (is_marked commits.new.held id) → IsTrue (is_marked commits.old.held id)
        ⊎ IsComplete (commit_in (graph_of (O.contents objects.old) commits.old.held)) ids.now cutoff id }
    ensures complete { OnOk result ((id : ObjectId) → IsComplete
        (commit_in (graph_of (O.contents objects.old) commits.old.held)) ids.now cutoff id → IsTrue (is_marked commits.new.held id)) }
    ensures asked { AsksDue (graph_of (O.contents objects.old) commits.old.held) ids.now cutoff (O.asked objects.old)
        (O.asked objects.new) }
    ensures contents { O.contents objects.new ≡ O.contents objects.old }
    ensures unrefused { OnOk result (O.refusals objects.new ≡ O.refusals objects.old) }
    ensures refused { IfErr result (λ e. ErrorIsRefusal e (O.refusals objects.old) (O.refusals objects.new)) }
    ensures failures { O.failures objects.old ≤ O.failures objects.new }
    ensures failed { IfErr result (λ e. (e ≡ Memory) ⊎ HasRisen (O.failures objects.old) (O.failures objects.new)) }
{
    let mut visited = Visited::new(alloc);
    let mut queue = TimeQueue::new(alloc);
    let Ok(tips) = commits.numbers(alloc, ids) else {
        return Err(ObjectError::Memory);
    };
    visit_each(
        alloc,
        objects,
        commits,
        &mut visited,
        &mut queue,
        tips.as_slice(),
    )?;
    let Some(cutoff) = cutoff else {
        return Ok(());
    };
    let mut parents = Vec::new(alloc);
    while let Some(newest) = queue.pop_newest() {
        if newest.time < cutoff {
            return Ok(());
        }
        let Ok(()) = commits.parent_numbers(newest.number, &mut parents) else {
            return Err(ObjectError::Memory);
        };
        visit_each(
            alloc,
            objects,
            commits,
            &mut visited,
            &mut queue,
            parents.as_slice(),
        )?;
    }
    Ok(())
}
