//! The changes of the local refs, as far as the refs and the commits before a fetch determine them.
ghost use Rattle.std.specs.Prelude.{◌≡◌, [], None, IfOk, map};
ghost use Rattle.std.specs.List.{zip};
ghost use Rattle.gixp_graph.specs.Object.{commit_at};
ghost use Rattle.gixp_updates.specs.Modes.{is_among};
ghost use Rattle.gixp_updates.specs.UpdateError.{Consults};
ghost use Rattle.gixp_updates.specs.Limits.{KeepsLimitOfEach};
ghost use Rattle.gixp_fetch_cli.specs.Changes.{unseen_change, change_by, change_of, change_in, AreChanges};

use gixp_graph::{Graph, Objects, RefStore};
use gixp_hash::ObjectId;
use gixp_refmap::RefMap;
use gixp_refmap::fetch::Tags;
use gixp_refmap::refmap::Mapping;
use gixp_updates::refs::Update;
use gixp_updates::refs::update::{Error, Mode, Options, update};
use std::alloc::{AllocError, Global};

/// The change of a local ref by a fetch.
#[derive(Clone, Copy, Debug, PartialEq, Eq)]
pub enum Change {
    /// The ref is created.
    New,
    /// The ref moves from an ancestor of the new commit.
    FastForward,
    /// The ref moves by a `+` in the refspec.
    Forced,
    /// The ref has the object already.
    Same,
    /// The update is rejected, for the ref's name or since the move isn't a fast-forward.
    Refused,
}

// The change of a ref whose new object isn't in the repository yet.
fn unseen_change(held: Option<ObjectId>, new: &ObjectId) -> Option<Change>
    ensures { result ≡ unseen_change held new.now }
{
    let Some(old) = held else {
        return Some(Change::New);
    };
    if old.bytes == new.bytes {
        Some(Change::Same)
    } else {
        None
    }
}

// The change by the mode of the update that the repository has before the pack.
fn change_by(held: Option<ObjectId>, mode: Mode) -> Option<Change>
    ensures { result ≡ change_by held mode }
{
    match mode {
        Mode::NoChangeNeeded => Some(Change::Same),
        Mode::FastForward => Some(Change::FastForward),
        Mode::Forced => Some(Change::Forced),
        Mode::New => Some(Change::New),
        Mode::ImplicitTagNotSentByRemote => None,
        Mode::RejectedSourceObjectNotFound { id } => unseen_change(held, &id),
        Mode::RejectedTagUpdate => Some(Change::Refused),
        Mode::RejectedNonFastForward => Some(Change::Refused),
        Mode::RejectedToReplaceWithUnborn => Some(Change::Refused),
        Mode::RejectedCurrentlyCheckedOut => Some(Change::Refused),
        Mode::RejectedUnsafeName => Some(Change::Refused),
        Mode::RejectedNonCommit => Some(Change::Refused),
    }
}

fn change_of<R: RefStore>(refs: &R, mapping: &Mapping, update: &Update) -> Option<Change>
    ensures { result ≡ change_of (R.refs refs.now) (mapping.now, update.now) }
{
    match &mapping.local {
        Some(name) => change_by(refs.find(name.as_bstr()), update.mode),
        None => None,
    }
}

fn changes_of<R: RefStore>(
    alloc: Global,
    refs: &R,
    mappings: &[Mapping],
    updates: &[Update],
) -> Result<Vec<Option<Change>>, AllocError>
    ensures { IfOk result (λ changes. changes.items ≡ map (change_of (R.refs refs.now)) (zip mappings.now updates.now)) }
{
    let mut changes = Vec::new(alloc);
    'pairs: for (mapping, update) in mappings.iter().zip(updates) {
        changes.push(change_of(refs, mapping, update))?;
    }
    Ok(changes)
}

/// The change of each mapping's local ref, by the refs, the objects and the commits before the fetch. There is none where the
/// mapping has no local name, or where an existing ref moves to an object that the repository doesn't have yet.
///
/// # Errors
///
/// Those of `update`: a commit can't be read, or an allocation failed. The graph keeps the commits that were looked up.
pub fn changes<R: RefStore, O: Objects, P: Objects>(
    alloc: Global,
    map: &RefMap,
    refs: &R,
    objects: &O,
    graph: &mut Graph<P>,
    tags: Tags,
) -> Result<Vec<Option<Change>>, Error>
    ensures changes { IfOk result (λ changes. AreChanges
        (record {
          refs = R.refs refs.now;
          objects = O.contents objects.now;
          commits = graph.old.graph.objects;
          is_checked_out = is_among [];
        })
        tags map.now.refspecs.items map.now.extra_refspecs.items map.now.mappings.items changes.items) }
    ensures consults { Consults None result graph.old graph.new }
    ensures limited { KeepsLimitOfEach (commit_at graph.old.graph.objects) map.now.mappings.items None result graph.old.asked
        graph.new.asked }
{
    let options = Options {
        tags,
        checked_out: &[],
        most_commits: None,
    };
    let updates = update(alloc, map, refs, objects, graph, &options)?;
    let changes = changes_of(alloc, refs, &map.mappings, &updates)?;
    Ok(changes)
}

/// The change of the mapping at this index.
pub(crate) fn change_in(changes: &[Option<Change>], place: usize) -> Option<Change>
    ensures { result ≡ change_in changes.now place }
{
    match changes.get(place) {
        Some(change) => *change,
        None => None,
    }
}
