//! The objects that tips reach.
ghost use Rattle.std.specs.Prelude.{◌≡◌, ◌≤◌, ◌⊎◌, ◌↔◌, IfOk, IfErr, OnOk, IsTrue, option_map};
ghost use Rattle.std.specs.FinMap as finite;
ghost use Rattle.gixp_hash.specs.declared.object_id.ObjectId.{ObjectId};
ghost use Rattle.gixp_hash.specs.Failures.{HasRisen};
ghost use Rattle.gixp_graph.specs.Asked.{AsksWhere, AsksEach};
ghost use Rattle.gixp_graph.specs.Refusals.{ErrorIsRefusal};
ghost use Rattle.gixp_graph.specs.declared.objects.ObjectError.TheVariants.{Memory};
ghost use Rattle.gixp_memory.specs.Repository.{with_new};
ghost use Rattle.gixp_reachable.specs.Reachable.{IsReachable, as_stored};
ghost use Rattle.gixp_reachable.specs.Traversal.{traversed, IsUnfound, VisitsObject};

use gixp_graph::{Find, ObjectError, ObjectKind, Objects};
use gixp_hash::ObjectId;
use gixp_memory::StoredObjects;
use std::alloc::{AllocError, Global};

// Adds an object that isn't a commit.
fn add_other(
    found: &mut StoredObjects,
    id: ObjectId,
    kind: Option<ObjectKind>,
) -> Result<(), AllocError>
    ensures { OnOk result (found.new ≡ with_new found.old id kind) }
{
    match kind {
        Some(kind) => found.add(id, kind),
        None => found.add_id(id),
    }
}

// Adds an object, unless it was added before or doesn't exist. The parents of a commit wait then.
fn visit<O: Objects>(
    alloc: Global,
    objects: &mut O,
    found: &mut StoredObjects,
    waiting: &mut Vec<ObjectId>,
    id: &ObjectId,
) -> Result<(), ObjectError>
    ensures visits { OnOk result (VisitsObject (O.contents objects.old) id.now
        (traversed found.old waiting.old.items) (traversed found.new waiting.new.items)) }
    ensures contents { O.contents objects.new ≡ O.contents objects.old }
    ensures asked { AsksWhere (IsUnfound (O.contents objects.old) found.old id.now) id.now (O.asked objects.old) (O.asked objects.new) }
    ensures unrefused { OnOk result (O.refusals objects.new ≡ O.refusals objects.old) }
    ensures refused { IfErr result (λ e. ErrorIsRefusal e (O.refusals objects.old) (O.refusals objects.new)) }
    ensures failures { O.failures objects.old ≤ O.failures objects.new }
    ensures failed { IfErr result (λ e. (e ≡ Memory) ⊎ HasRisen (O.failures objects.old) (O.failures objects.new)) }
{
    if found.has_object(id) || !objects.exists(id) {
        return Ok(());
    }
    match objects.commit(alloc, id)? {
        Some(commit) => {
            waiting.extend_from_slice(commit.parents.as_slice())?;
            found.add_commit(*id, commit)?;
        }
        None => add_other(found, *id, objects.kind(id))?,
    }
    Ok(())
}

/// Returns the objects that `tips` reach (gitglossary, "reachable"): each tip that exists, and the existing parents of each
/// commit in the result. Each object has its kind; a commit also has its time and its parents.
///
/// A fetch takes the history of an object that exists as complete. After an interrupted fetch a repository may have a commit
/// without its history, which no ref reaches. A fetch over the result requests that commit again, with its history. git checks
/// connectivity before a fetch.
///
/// Tips are the ids of refs. A tag isn't followed: pass the tag and the object that it peels to, as `git show-ref --dereference`
/// prints them. Trees aren't followed: a fetch needs only commits and the objects of refs. A parent may be missing, as in a
/// shallow repository. The whole history is read, each commit once. Commits that are each other's parents don't make the walk
/// endless. `Shared` implements `Objects` over a reference to a `Find`.
///
/// # Errors
///
/// Why an object can't be read, or `Memory` where an allocation failed. A later call may succeed.
pub fn reachable_objects<O: Objects>(
    alloc: Global,
    objects: &mut O,
    tips: &[ObjectId],
) -> Result<StoredObjects, ObjectError>
    // The result has exactly the objects that the tips reach.
    ensures reached { IfOk result (λ found. (id : ObjectId) → IsTrue (finite.contains_key found id)
        ↔ IsReachable (O.contents objects.old) tips.now id) }

    // Each has the kind and the commit that it has among all objects. The kind of a commit is `Commit`.
    ensures values { IfOk result (λ found. (id : ObjectId) → IsReachable (O.contents objects.old) tips.now id
        → finite.get found id ≡ option_map as_stored (finite.get (O.contents objects.old) id)) }

    // No id is read twice, and only ids that the tips reach are read.
    ensures asked { AsksEach (IsReachable (O.contents objects.old) tips.now) (O.asked objects.old) (O.asked objects.new) }
    ensures contents { O.contents objects.new ≡ O.contents objects.old }

    // An error is that of a failed read, or an allocation failed.
    ensures unrefused { OnOk result (O.refusals objects.new ≡ O.refusals objects.old) }
    ensures refused { IfErr result (λ e. ErrorIsRefusal e (O.refusals objects.old) (O.refusals objects.new)) }
    ensures failures { O.failures objects.old ≤ O.failures objects.new }
    ensures failed { IfErr result (λ e. (e ≡ Memory) ⊎ HasRisen (O.failures objects.old) (O.failures objects.new)) }
{
    let mut found = StoredObjects::new(alloc);
    let mut waiting = Vec::from_slice(alloc, tips)?;
    while let Some(id) = waiting.pop() {
        visit(alloc, objects, &mut found, &mut waiting, &id)?;
    }
    Ok(found)
}
