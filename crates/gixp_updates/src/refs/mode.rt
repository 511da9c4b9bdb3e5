//! How a local ref changes, or why it stays the same.
ghost use Rattle.std.specs.Prelude.{◌≡◌, ◌≢◌, ℕ, ◌&&◌, ◌||◌, not, if◌then◌else◌, IfErr, IfOk, Some, None, Option};
ghost use Rattle.std.specs.Option.{option_copied};
ghost use Rattle.std.specs.FinMap as finite;
ghost use Rattle.std.specs.Str.{bytes_eq};
ghost use Rattle.bstr.specs.Owned.{bstring_bytes};
ghost use Rattle.gixp_graph.specs.Object.{kind_at, commit_at};
ghost use Rattle.gixp_updates.specs.Modes.{is_writable, is_tag_name, is_branch_name, is_among, is_commit, is_tree_or_blob, ByAncestry, Moves, made, ByOld, not_there, ByNew, IsMode};
ghost use Rattle.gixp_updates.specs.LocalSide.{local_of};
ghost use Rattle.gixp_updates.specs.UpdateError.{Consults};
ghost use Rattle.gixp_updates.specs.Limits.{KeepsLimit};
ghost use Rattle.gixp_updates.specs.declared.refs.error.Error.TheVariants.{TooManyCommits};
ghost use Rattle.gixp_graph.specs.Asked.{AsksOnce};

use crate::refs::ancestor::is_ancestor;
use crate::refs::error::Error;
use crate::refs::update::Mode;
use bstr::{BStr, BString};
use gixp_graph::{Graph, ObjectKind, Objects, RefStore};
use gixp_hash::ObjectId;
use gixp_refspec::name::is_partial_name;
use std::alloc::Global;

// Whether a ref with this local name may be written.
fn is_writable(name: &[u8]) -> bool
    ensures { result ≡ is_writable name.now }
{
    name.starts_with(b"refs/") && is_partial_name(name)
}

// Whether the name is a tag's.
fn is_tag_name(name: &[u8]) -> bool
    ensures { result ≡ is_tag_name name.now }
{
    name.starts_with(b"refs/tags/")
}

// Whether the name is a branch's.
fn is_branch_name(name: &[u8]) -> bool
    ensures { result ≡ is_branch_name name.now }
{
    name.starts_with(b"refs/heads/")
}

fn is_text(text: &BString, name: &[u8]) -> bool
    ensures { result ≡ bytes_eq (bstring_bytes text.now) name.now }
{
    text.as_bytes() == name
}

fn is_among(names: &[BString], name: &[u8]) -> bool
    ensures { result ≡ is_among names.now name.now }
{
    names.iter().any(|other| is_text(other, name))
}

// Whether the id belongs to a tree or a blob.
fn is_tree_or_blob<O: Objects>(objects: &O, id: &ObjectId) -> bool
    ensures { result ≡ is_tree_or_blob (kind_at (O.contents objects.now) id.now) }
{
    match objects.kind(id) {
        Some(ObjectKind::Tree | ObjectKind::Blob) => true,
        Some(ObjectKind::Commit | ObjectKind::Tag) => false,
        None => false,
    }
}

// Whether the id belongs to a commit.
fn is_commit<P: Objects>(graph: &mut Graph<P>, id: &ObjectId) -> Result<bool, Error>
    ensures commit { IfOk result (λ is. is ≡ is_commit graph.old.graph.objects id.now) }
    ensures consults { (limit : Option ℕ) → Consults limit result graph.old graph.new }
    ensures asked { AsksOnce id.now graph.old.asked graph.new.asked }
    ensures unlimited { IfErr result (λ e. e ≢ TooManyCommits) }
{
    Ok(graph.lookup(id)?.is_some())
}

/// The wanted change of a mapping's local ref.
#[derive(Clone, Copy)]
pub(crate) struct Wanted {
    /// The id that it gets. None for an unborn ref.
    pub id: Option<ObjectId>,
    /// Whether the refspec begins with a plus.
    pub is_forced: bool,
    /// Whether it is a tag that is written only if its object exists.
    pub is_implicit_tag: bool,
}

// A ref that gets an id.
#[derive(Clone, Copy)]
struct Target<'a> {
    name: &'a [u8],
    id: &'a ObjectId,
    is_forced: bool,
}

// `Forced` with force, else the other mode.
fn forced_or(is_forced: bool, other: Mode) -> Mode
    ensures { result ≡ (if is_forced then Mode.Forced else other) }
{
    if is_forced { Mode::Forced } else { other }
}

// The mode of a ref that moves from one commit to another.
fn by_ancestry<P: Objects>(
    alloc: Global,
    graph: &mut Graph<P>,
    is_forced: bool,
    old: &ObjectId,
    new: &ObjectId,
    most_commits: Option<usize>,
) -> Result<Mode, Error>
    ensures mode { IfOk result (λ mode. ByAncestry graph.old.graph.objects is_forced old.now new.now mode) }
    ensures consults { Consults most_commits result graph.old graph.new }
    ensures limited { KeepsLimit (commit_at graph.old.graph.objects) (λ q. q ≡ new.now) most_commits 0 result
        graph.old.asked graph.new.asked }
{
    if is_ancestor(alloc, graph, old, new, most_commits)? {
        return Ok(Mode::FastForward);
    }
    if is_forced {
        Ok(Mode::Forced)
    } else {
        Ok(Mode::RejectedNonFastForward)
    }
}

// Whether a branch would get an id that isn't a commit's.
fn is_misplaced(name: &[u8], is_commit: bool) -> bool
    ensures { result ≡ (is_branch_name name.now && not is_commit) }
{
    is_branch_name(name) && !is_commit
}

fn are_commits(is_old_commit: bool, is_new_commit: bool) -> bool
    ensures { result ≡ (is_old_commit && is_new_commit) }
{
    is_old_commit && is_new_commit
}

// Whether a ref may get an id, where the old or the new id isn't known to be a commit's.
fn is_free<O: Objects>(objects: &O, target: Target<'_>, old: &ObjectId) -> bool
    ensures { result ≡ (target.entry.is_forced || is_tree_or_blob (kind_at (O.contents objects.now) old.now) || is_tree_or_blob
        (kind_at (O.contents objects.now) target.entry.id.now)) }
{
    target.is_forced || is_tree_or_blob(objects, old) || is_tree_or_blob(objects, target.id)
}

// The mode of a ref that moves to another id.
fn moved<O: Objects, P: Objects>(
    alloc: Global,
    objects: &O,
    graph: &mut Graph<P>,
    target: Target<'_>,
    old: &ObjectId,
    most_commits: Option<usize>,
) -> Result<Mode, Error>
    ensures mode { IfOk result (λ mode. Moves
        (O.contents objects.now) graph.old.graph.objects target.entry.is_forced target.entry.name.now old.now target.entry.id.now
        mode) }
    ensures consults { Consults most_commits result graph.old graph.new }
    ensures limited { KeepsLimit (commit_at graph.old.graph.objects) (λ q. q ≡ target.entry.id.now) most_commits 2 result
        graph.old.asked graph.new.asked }
{
    if is_tag_name(target.name) {
        return Ok(forced_or(target.is_forced, Mode::RejectedTagUpdate));
    }
    let is_new_commit = match is_commit(graph, target.id) {
        Ok(is_new_commit) => is_new_commit,
        Err(e) => return Err(e),
    };
    if is_misplaced(target.name, is_new_commit) {
        return Ok(Mode::RejectedNonCommit);
    }
    let is_old_commit = match is_commit(graph, old) {
        Ok(is_old_commit) => is_old_commit,
        Err(e) => return Err(e),
    };
    if are_commits(is_old_commit, is_new_commit) {
        return by_ancestry(alloc, graph, target.is_forced, old, target.id, most_commits);
    }
    Ok(forced_or(is_free(objects, target, old), Mode::RejectedNonFastForward))
}

// The mode of a new ref.
fn made<P: Objects>(graph: &mut Graph<P>, target: Target<'_>) -> Result<Mode, Error>
    ensures mode { IfOk result (λ mode. mode ≡ made graph.old.graph.objects target.entry.name.now target.entry.id.now) }
    ensures consults { (limit : Option ℕ) → Consults limit result graph.old graph.new }
    ensures limited { (limit : Option ℕ) → KeepsLimit (commit_at graph.old.graph.objects) (λ q. q ≡ target.entry.id.now) limit 2 result
        graph.old.asked graph.new.asked }
{
    match is_commit(graph, target.id) {
        Ok(is_commit) => {
            if is_misplaced(target.name, is_commit) {
                Ok(Mode::RejectedNonCommit)
            } else {
                Ok(Mode::New)
            }
        }
        Err(e) => Err(e),
    }
}

fn is_same(old: &ObjectId, new: &ObjectId) -> bool
    ensures { result ≡ bytes_eq old.now.bytes new.now.bytes }
{
    old.bytes == new.bytes
}

// The mode of a ref by its current id.
fn by_old<O: Objects, P: Objects>(
    alloc: Global,
    objects: &O,
    graph: &mut Graph<P>,
    target: Target<'_>,
    old: Option<ObjectId>,
    most_commits: Option<usize>,
) -> Result<Mode, Error>
    ensures mode { IfOk result (λ mode. ByOld
        (O.contents objects.now) graph.old.graph.objects target.entry.is_forced target.entry.name.now old target.entry.id.now mode) }
    ensures consults { Consults most_commits result graph.old graph.new }
    ensures limited { KeepsLimit (commit_at graph.old.graph.objects) (λ q. q ≡ target.entry.id.now) most_commits 2 result
        graph.old.asked graph.new.asked }
{
    let Some(old) = old else {
        return made(graph, target);
    };
    if is_same(&old, target.id) {
        return Ok(Mode::NoChangeNeeded);
    }
    moved(alloc, objects, graph, target, &old, most_commits)
}

// The mode of a ref whose new object is missing.
fn not_there(is_implicit_tag: bool, id: ObjectId) -> Mode
    ensures { result ≡ not_there is_implicit_tag id }
{
    if is_implicit_tag {
        Mode::ImplicitTagNotSentByRemote
    } else {
        Mode::RejectedSourceObjectNotFound { id }
    }
}

// The mode of a ref whose source is unborn.
fn unborn(is_there: bool) -> Mode
    ensures { result ≡ (if is_there then Mode.RejectedToReplaceWithUnborn else Mode.NoChangeNeeded) }
{
    if is_there {
        Mode::RejectedToReplaceWithUnborn
    } else {
        Mode::NoChangeNeeded
    }
}

/// The refs and objects of a repository.
#[derive(Clone, Copy)]
pub(crate) struct Local<'a, R, O> {
    pub refs: &'a R,
    pub objects: &'a O,
    pub checked_out: &'a [BString],
    pub most_commits: Option<usize>,
}

// The mode of a ref by its new id.
fn by_new<R: RefStore, O: Objects, P: Objects>(
    alloc: Global,
    local: &Local<'_, R, O>,
    graph: &mut Graph<P>,
    wanted: Wanted,
    name: &[u8],
) -> Result<Mode, Error>
    ensures mode { IfOk result (λ mode. ByNew (local_of R.refs O.contents local.now graph.old.graph) wanted name.now wanted.id mode) }
    ensures consults { Consults local.now.most_commits result graph.old graph.new }
    ensures limited { KeepsLimit (commit_at graph.old.graph.objects) (λ q. wanted.id ≡ Some q) local.now.most_commits 2 result
        graph.old.asked graph.new.asked }
{
    let old = local.refs.find(BStr::new(name));
    let Some(id) = wanted.id else {
        return Ok(unborn(old.is_some()));
    };
    if !local.objects.exists(&id) {
        return Ok(not_there(wanted.is_implicit_tag, id));
    }
    let target = Target {
        name,
        id: &id,
        is_forced: wanted.is_forced,
    };
    by_old(alloc, local.objects, graph, target, old, local.most_commits)
}

/// How the local ref of a mapping changes, or why it stays the same.
pub(crate) fn mode_of<R: RefStore, O: Objects, P: Objects>(
    alloc: Global,
    local: &Local<'_, R, O>,
    graph: &mut Graph<P>,
    wanted: Wanted,
    name: Option<&[u8]>,
) -> Result<Mode, Error>
    ensures mode { IfOk result (λ mode. IsMode (local_of R.refs O.contents local.now graph.old.graph) wanted
        (option_copied name.entry) mode) }
    ensures consults { Consults local.now.most_commits result graph.old graph.new }
    ensures limited { KeepsLimit (commit_at graph.old.graph.objects) (λ q. wanted.id ≡ Some q) local.now.most_commits 2 result
        graph.old.asked graph.new.asked }
{
    let Some(name) = name else {
        return Ok(Mode::NoChangeNeeded);
    };
    if !is_writable(name) {
        return Ok(Mode::RejectedUnsafeName);
    }
    if is_among(local.checked_out, name) {
        return Ok(Mode::RejectedCurrentlyCheckedOut);
    }
    by_new(alloc, local, graph, wanted, name)
}
