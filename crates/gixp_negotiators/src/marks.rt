//! Marks of commits.
ghost use Rattle.std.specs.Prelude.{◌≡◌, ℕ, ◌≤◌, ◌==◌, ◌||◌, IsTrue, IfOk, IfErr, IfSome, IfNone, IsSome, Some, None, bit_and, true, false};
ghost use Rattle.std.specs.FinMap as finite;
ghost use Rattle.gixp_graph.specs.Object.{commit_at, time_at};
ghost use Rattle.gixp_graph.specs.GraphData.{parents_in};
ghost use Rattle.gixp_graph.specs.Negotiation.{IsMemory};
ghost use Rattle.gixp_negotiators.specs.LooksUpCommits.{LooksUpCommits};
ghost use Rattle.gixp_negotiators.specs.Marks.{COMMON, COMMON_REF, SEEN, POPPED, has_mark, has_all, left};
ghost use Rattle.gixp_negotiators.specs.AddedMarks.{Grows, AddsNone, SeesNone, SeesOnly, MarksNoCommon, MarksCommonOnly, ListsNone, ListsOnly, PopsNone, PopsOnly};
ghost use Rattle.gixp_negotiators.specs.CommitMarks.{Claims, IsFoundWith, IsMarkedIfThere, IsMarkedIfSeen};

use gixp_graph::{Flags, Graph, NegotiatorError, Objects};
use gixp_hash::ObjectId;
use std::alloc::Global;

/// The marks of a queued common commit.
pub(crate) const SEEN_COMMON: Flags = Flags(Flags::SEEN.0 | Flags::COMMON.0);

/// The marks of a queued commit that the server has as a ref.
pub(crate) const SEEN_REF: Flags = Flags(Flags::SEEN.0 | Flags::COMMON_REF.0);

/// Whether a commit with these flags has all of these marks.
pub(crate) fn has(flags: Flags, marks: Flags) -> bool
    ensures { result ≡ (bit_and flags.0 marks.0 == marks.0) }
{
    flags.0 & marks.0 == marks.0
}

/// Whether one of two sets of flags has all of these marks.
pub(crate) fn either_has(flags: Flags, more: Flags, marks: Flags) -> bool
    ensures { result ≡ (has_all marks.0 flags.0 || has_all marks.0 more.0) }
{
    if has(flags, marks) {
        return true;
    }
    has(more, marks)
}

/// The time and the marks of a commit, where it is found. The graph holds it from then on.
pub(crate) fn look<O: Objects>(
    graph: &mut Graph<O>,
    id: &ObjectId,
) -> Result<Option<(i64, Flags)>, NegotiatorError>
    ensures found { IfOk result (λ found. IfSome found (λ x. IsFoundWith graph.new.graph id.now x.1)) }
    ensures timed { IfOk result (λ found. IfSome found (λ x. time_at graph.old.graph.objects id.now ≡ Some x.0)) }
    ensures none { IfOk result (λ found. IfNone found (commit_at graph.old.graph.objects id.now ≡ None)) }
    ensures absent { IfOk result (λ found. IfNone found (has_mark SEEN graph.new.graph.held id.now ≡ false)) }
    ensures sees { SeesNone graph.old.graph graph.new.graph }
    ensures settles { MarksNoCommon graph.old.graph graph.new.graph }
    ensures lists { ListsNone graph.old.graph graph.new.graph }
    ensures pops { PopsNone graph.old.graph graph.new.graph }
    ensures marks { (mark : ℕ) → has_all mark 0 ≡ false → AddsNone mark graph.old.graph graph.new.graph }
    ensures held { IsSome (finite.get graph.old.graph.held id.now) → graph.new.graph ≡ graph.old.graph }
    ensures looks { LooksUpCommits graph.old graph.new result }
{
    Ok(graph.lookup(id)?)
}

/// Adds marks to a held commit. COMPLETE isn't among them.
pub(crate) fn add<O: Objects>(graph: &mut Graph<O>, id: &ObjectId, marks: Flags)
    requires { bit_and marks.0 1 ≡ 0 }
    ensures grows { Grows graph.old.graph graph.new.graph }
    ensures sees { bit_and marks.0 SEEN ≡ 0 → SeesNone graph.old.graph graph.new.graph }
    ensures sees_only { SeesOnly id.now graph.old.graph graph.new.graph }
    ensures settles { bit_and marks.0 COMMON ≡ 0 → MarksNoCommon graph.old.graph graph.new.graph }
    ensures marks_common_only { MarksCommonOnly id.now graph.old.graph graph.new.graph }
    ensures lists { bit_and marks.0 COMMON_REF ≡ 0 → ListsNone graph.old.graph graph.new.graph }
    ensures lists_only { ListsOnly id.now graph.old.graph graph.new.graph }
    ensures pops { bit_and marks.0 POPPED ≡ 0 → PopsNone graph.old.graph graph.new.graph }
    ensures pops_only { PopsOnly id.now graph.old.graph graph.new.graph }
    ensures seen { left SEEN graph.new.graph ≤ left SEEN graph.old.graph }
    ensures common { left COMMON graph.new.graph ≤ left COMMON graph.old.graph }
    ensures marked { IsSome (finite.get graph.old.graph.held id.now) → has_mark marks.0 graph.new.graph.held id.now ≡ true }
    ensures failures { graph.new.failures ≡ graph.old.failures }
    ensures refusals { graph.new.refusals ≡ graph.old.refusals }
{
    graph.insert_flags(id, marks);
}

/// Adds marks to a commit, where it is found and doesn't have the first of them. Returns its time and its marks before.
pub(crate) fn claim<O: Objects>(
    graph: &mut Graph<O>,
    id: &ObjectId,
    mark: Flags,
    marks: Flags,
) -> Result<Option<(i64, Flags)>, NegotiatorError>
    requires others { bit_and marks.0 1 ≡ 0 }
    requires first { bit_and marks.0 mark.0 ≡ mark.0 }
    ensures claimed { IfOk result (λ found. IfSome found (λ x. Claims mark.0 graph.old.graph graph.new.graph id.now x.1)) }
    ensures timed { IfOk result (λ found. IfSome found (λ x. time_at graph.old.graph.objects id.now ≡ Some x.0)) }
    ensures marked { IfOk result (λ found. IfSome found (λ x. has_mark marks.0 graph.new.graph.held id.now ≡ true)) }
    ensures none { IfOk result (λ found. IfNone found (IsMarkedIfThere mark.0 graph.old.graph graph.new.graph id.now)) }

    // Where nothing was added, the commit wasn't seen, or had the mark.
    ensures absent { IfOk result (λ found. IfNone found (SeesNone graph.old.graph graph.new.graph
        × IsMarkedIfSeen mark.0 graph.new.graph id.now)) }
    ensures kept { IfOk result (λ found. IfNone found (MarksNoCommon graph.old.graph graph.new.graph)) }
    ensures unlisted { IfOk result (λ found. IfNone found (ListsNone graph.old.graph graph.new.graph)) }
    ensures unpopped { IfOk result (λ found. IfNone found (PopsNone graph.old.graph graph.new.graph)) }
    ensures again { IfOk result (λ found. IfNone found
        (IsSome (finite.get graph.old.graph.held id.now) → graph.new.graph ≡ graph.old.graph)) }
    ensures spent { mark.0 ≡ POPPED → IfOk result
        (λ found. IfNone found (IsSome (commit_at graph.old.graph.objects id.now) → has_mark POPPED graph.old.graph.held id.now ≡ true)) }
    ensures sees { bit_and marks.0 SEEN ≡ 0 → SeesNone graph.old.graph graph.new.graph }
    ensures sees_only { SeesOnly id.now graph.old.graph graph.new.graph }
    ensures settles { bit_and marks.0 COMMON ≡ 0 → MarksNoCommon graph.old.graph graph.new.graph }
    ensures marks_common_only { MarksCommonOnly id.now graph.old.graph graph.new.graph }
    ensures lists { bit_and marks.0 COMMON_REF ≡ 0 → ListsNone graph.old.graph graph.new.graph }
    ensures lists_only { ListsOnly id.now graph.old.graph graph.new.graph }
    ensures pops { bit_and marks.0 POPPED ≡ 0 → PopsNone graph.old.graph graph.new.graph }
    ensures pops_only { PopsOnly id.now graph.old.graph graph.new.graph }
    ensures looks { LooksUpCommits graph.old graph.new result }
{
    let Some((time, flags)) = look(graph, id)? else {
        return Ok(None);
    };
    if has(flags, mark) {
        return Ok(None);
    }
    add(graph, id, marks);
    Ok(Some((time, flags)))
}

/// Whether a commit is held and has all of these marks.
pub(crate) fn is_marked<O: Objects>(graph: &Graph<O>, id: &ObjectId, marks: Flags) -> bool
    ensures value { result ≡ has_mark marks.0 graph.now.graph.held id.now }
    ensures there { IsTrue result → IsSome (commit_at graph.now.graph.objects id.now) }
{
    match graph.get(id) {
        Some((_, flags)) => has(flags, marks),
        None => false,
    }
}

/// The parents of a held commit.
pub(crate) fn parents_of<O: Objects>(
    graph: &Graph<O>,
    alloc: Global,
    id: &ObjectId,
) -> Result<Vec<ObjectId>, NegotiatorError>
    ensures parents { IfOk result (λ parents. parents.items ≡ parents_in graph.now.graph.held id.now) }
    ensures failed { IfErr result IsMemory }
{
    Ok(graph.parents(alloc, id)?)
}
