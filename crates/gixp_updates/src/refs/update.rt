//! The updates of the local refs.
ghost use Rattle.std.specs.Prelude.{◌≡◌, IfOk};
ghost use Rattle.std.specs.Option.{option_copied, option_map};
ghost use Rattle.bstr.specs.Owned.{bstring_bytes};
ghost use Rattle.gixp_updates.specs.Modes.{writes, is_rejected, is_failure, AreUpdates};
ghost use Rattle.gixp_updates.specs.LocalSide.{local_with};
ghost use Rattle.gixp_updates.specs.UpdateError.{Consults};
ghost use Rattle.gixp_updates.specs.Limits.{KeepsLimitOfEach};
ghost use Rattle.gixp_graph.specs.Object.{commit_at};

use crate::refs::edit::{Update, update_of, wanted_of};
pub use crate::refs::error::Error;
use crate::refs::mode::Local;
pub use crate::refs::written::edits;
use bstr::BString;
use gixp_graph::{Graph, Objects, RefStore};
use gixp_hash::ObjectId;
use gixp_refmap::RefMap;
use gixp_refmap::fetch::Tags;
use gixp_refmap::refmap::Mapping;
use std::alloc::Global;

/// The update of the local ref of one mapping. The names are from `gix::remote::fetch::refs::update::Mode`, and two
/// more.
#[derive(Clone, Copy, Debug, PartialEq, Eq)]
pub enum Mode {
    /// The ref stays: it has the id already, or the mapping has no local name, or neither a ref nor an id exists.
    NoChangeNeeded,
    /// The ref moves to a descendant of its commit.
    FastForward,
    /// The ref gets the id, though it isn't a fast-forward, or isn't known to be one.
    Forced,
    /// The ref is created.
    New,
    /// The ref stays, since it is a tag that is written only if its object exists (`Tags::Included`).
    ImplicitTagNotSentByRemote,
    /// The ref stays, since its new object is missing.
    RejectedSourceObjectNotFound {
        /// The id of the object.
        id: ObjectId,
    },
    /// The ref stays, since it is a tag, and the refspec doesn't begin with `+`.
    RejectedTagUpdate,
    /// The ref stays, since it would lose commits, or may lose some, and the refspec doesn't begin with `+`.
    RejectedNonFastForward,
    /// The ref stays, since the ref of the server is unborn.
    RejectedToReplaceWithUnborn,
    /// The ref stays, since it is a branch that is checked out in a work tree.
    RejectedCurrentlyCheckedOut,
    /// The ref stays, since its name isn't valid, or doesn't begin with `refs/`.
    RejectedUnsafeName,
    /// The ref stays, since it is a branch, and its new object isn't a commit.
    RejectedNonCommit,
}

impl Mode {
    /// Whether the ref is written.
    pub fn writes(&self) -> bool
        ensures { result ≡ writes self.now }
    {
        matches!(self, Mode::FastForward | Mode::Forced | Mode::New)
    }

    /// Whether the ref stays although the mapping wants to change it. Whether a program has to fail for it is reported by
    /// [`Update::fails`](crate::refs::Update::fails): a tag that was mapped by `Tags::Included` is rejected if it moved, but
    /// `git fetch` exits with 0.
    pub fn is_rejected(&self) -> bool
        ensures { result ≡ is_rejected self.now }
    {
        match self {
            Mode::NoChangeNeeded
            | Mode::FastForward
            | Mode::Forced
            | Mode::New
            | Mode::ImplicitTagNotSentByRemote => false,
            Mode::RejectedSourceObjectNotFound { .. }
            | Mode::RejectedTagUpdate
            | Mode::RejectedNonFastForward
            | Mode::RejectedToReplaceWithUnborn
            | Mode::RejectedCurrentlyCheckedOut
            | Mode::RejectedUnsafeName
            | Mode::RejectedNonCommit => true,
        }
    }

    /// Whether the ref stays although the mapping wants to change it, and its name is valid: `git fetch` skips an invalid
    /// name with a message.
    pub(crate) fn is_failure(&self) -> bool
        ensures { result ≡ is_failure self.now }
    {
        match self {
            Mode::RejectedUnsafeName => false,
            other => other.is_rejected(),
        }
    }
}

/// The options of an update.
#[derive(Clone, Copy)]
pub struct Options<'a> {
    /// The tags of the fetch.
    pub tags: Tags,
    /// The full names of the branches that are checked out in a work tree. Empty for a bare repository.
    pub checked_out: &'a [BString],
    /// How many ids the search among the ancestors of one commit may look up. `None` sets no limit.
    pub most_commits: Option<usize>,
}

/// The update of the local ref of each mapping, in the order of the map, after the fetch (git-fetch, "<refspec>"). If
/// an update has an [`Edit`](crate::refs::Edit), its id has to be written to the ref. All other refs stay.
///
/// Call it after every fetch, with or without a pack: after `Ok(None)` no object was missing, but refs may have to
/// be written. If no update has an edit, there is nothing to do.
///
/// The objects and the graph have to include what was fetched; a graph that was made before may be out of date. A
/// ref of a tag that is only included (`Tags::Included`) is written if its object was fetched or existed. An existing tag, or
/// a ref that would lose commits, is written only by a refspec that begins with `+`. The same holds for a ref whose old or
/// new object is an annotated tag, except in `refs/tags/`, since the tag's target isn't known.
///
/// # Errors
///
/// `FindObject` where a commit can't be read, `Memory` where an allocation failed, `TooManyCommits` where the search
/// among the ancestors of a commit exceeded the limit of the options. Nothing is written. The graph holds what was looked up,
/// without marks, and a later call may succeed.
pub fn update<R: RefStore, O: Objects, P: Objects>(
    alloc: Global,
    map: &RefMap,
    refs: &R,
    objects: &O,
    graph: &mut Graph<P>,
    options: &Options<'_>,
) -> Result<Vec<Update>, Error>
    ensures updates { IfOk result (λ updates.
        AreUpdates (local_with R.refs O.contents refs.now objects.now options.now graph.old.graph) options.now.tags
        map.now.refspecs.items map.now.extra_refspecs.items map.now.mappings.items updates.items) }
    ensures consults { Consults options.now.most_commits result graph.old graph.new }

    // For each mapping at most two ids are looked up, and then its ancestors are searched within the limit at most once.
    // `TooManyCommits` is returned only if more ids can be reached from the commit of a mapping.
    ensures limited { KeepsLimitOfEach (commit_at graph.old.graph.objects) map.now.mappings.items options.now.most_commits result
        graph.old.asked graph.new.asked }
{
    let local = Local {
        refs,
        objects,
        checked_out: options.checked_out,
        most_commits: options.most_commits,
    };
    let mut updates = Vec::new(alloc);
    for mapping in &map.mappings {
        let wanted = wanted_of(options.tags, &map.refspecs, &map.extra_refspecs, mapping);
        let name = local_name(mapping);
        updates.push(update_of(alloc, &local, graph, wanted, name)?)?;
    }
    Ok(updates)
}

fn local_name(mapping: &Mapping) -> Option<&[u8]>
    ensures { option_copied result ≡ option_map bstring_bytes mapping.now.local }
{
    match &mapping.local {
        Some(name) => Some(name.as_bytes()),
        None => None,
    }
}
