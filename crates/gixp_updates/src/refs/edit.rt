//! The updates of local refs.
ghost use Rattle.std.specs.Prelude.{◌≡◌, ℕ, IfOk, if◌then◌else◌, None, Some};
ghost use Rattle.std.specs.Option.{option_copied, option_map};
ghost use Rattle.bstr.specs.Owned.{bstring_bytes};
ghost use Rattle.gixp_refspec.specs.RefSpec.{value_of, owned_value_of};
ghost use Rattle.gixp_refspec.specs.Spec.{is_forced};
ghost use Rattle.gixp_refmap.specs.Mapping.{spec_at};
ghost use Rattle.gixp_updates.specs.LocalSide.{local_of};
ghost use Rattle.gixp_updates.specs.Modes.{is_text, is_tags_spec, includes, holds_at, wanted_of, edit_to, edit_of, IsUpdate};
ghost use Rattle.gixp_updates.specs.UpdateError.{Consults};
ghost use Rattle.gixp_updates.specs.Limits.{KeepsLimit};
ghost use Rattle.gixp_graph.specs.Object.{commit_at};
ghost use Rattle.std.specs.Prelude.{codes};

use crate::refs::error::Error;
use crate::refs::mode::{Local, Wanted, mode_of};
use crate::refs::update::Mode;
use bstr::BStr;
use gixp_graph::{Graph, Objects, RefStore};
use gixp_hash::ObjectId;
use gixp_refmap::fetch::Tags;
use gixp_refmap::refmap::Mapping;
use gixp_refspec::spec::Sign;
use gixp_refspec::{RefSpec, RefSpecRef};
use std::alloc::Global;

/// The change of a local ref.
#[derive(Clone, Copy, Debug, PartialEq, Eq)]
pub struct Edit {
    /// The id of the ref before. None for a new ref.
    pub previous: Option<ObjectId>,
    /// The id that the ref gets.
    pub new: ObjectId,
}

/// The update of the local ref of one mapping.
#[derive(Clone, Copy, Debug, PartialEq, Eq)]
pub struct Update {
    /// How the ref changes, or why it stays the same.
    pub mode: Mode,
    /// The change to write. None if the ref stays the same.
    pub edit: Option<Edit>,
}

// Whether the other text exists and is equal.
fn is_text(text: &[u8], other: Option<&[u8]>) -> bool
    ensures { result ≡ is_text text.now (option_copied other.entry) }
{
    match other {
        Some(other) => other == text,
        None => false,
    }
}

// Whether a refspec is the one of all tags.
fn is_tags_spec(spec: RefSpecRef<'_>) -> bool
    ensures { result ≡ is_tags_spec (value_of spec.entry) }
{
    matches!(spec.sign, Sign::Plain)
        && spec.source == b"refs/tags/*".as_slice()
        && is_text(b"refs/tags/*", spec.destination)
}

// Whether a refspec begins with a plus.
fn is_forced(spec: RefSpecRef<'_>) -> bool
    ensures { result ≡ is_forced (value_of spec.entry).sign }
{
    matches!(spec.sign, Sign::Force)
}

// Whether the refspec exists and begins with a plus.
fn is_forced_at(spec: Option<&RefSpec>) -> bool
    ensures { result ≡ holds_at (λ s. is_forced s.sign) (option_copied spec.entry) }
{
    match spec {
        Some(spec) => is_forced(spec.to_ref()),
        None => false,
    }
}

// Whether the refspec exists and is the one of all tags.
fn is_tags_spec_at(spec: Option<&RefSpec>) -> bool
    ensures { result ≡ holds_at is_tags_spec (option_copied spec.entry) }
{
    match spec {
        Some(spec) => is_tags_spec(spec.to_ref()),
        None => false,
    }
}

// Whether tags are written if their objects exist.
fn includes(tags: Tags) -> bool
    ensures { result ≡ includes tags }
{
    matches!(tags, Tags::Included)
}

/// The wanted change of a mapping's local ref.
pub(crate) fn wanted_of(
    tags: Tags,
    refspecs: &[RefSpec],
    extra_refspecs: &[RefSpec],
    mapping: &Mapping,
) -> Wanted
    ensures { result ≡ wanted_of tags refspecs.now extra_refspecs.now mapping.now }
{
    let spec = mapping.spec_index.get(refspecs, extra_refspecs);
    let is_implicit = mapping.spec_index.implicit_index().is_some();
    Wanted {
        id: mapping.remote.as_id().copied(),
        is_forced: is_forced_at(spec),
        is_implicit_tag: includes(tags) && is_implicit && is_tags_spec_at(spec),
    }
}

// The change of a ref, if the ref gets an id.
fn edit_to<R: RefStore, O>(
    local: &Local<'_, R, O>,
    name: Option<&[u8]>,
    id: Option<ObjectId>,
) -> Option<Edit>
    ensures { result ≡ edit_to (R.refs local.now.refs.now) (option_copied name.entry) id }
{
    match (name, id) {
        (Some(name), Some(new)) => Some(Edit {
            previous: local.refs.find(BStr::new(name)),
            new,
        }),
        _ => None,
    }
}

/// The update of a mapping.
pub(crate) fn update_of<R: RefStore, O: Objects, P: Objects>(
    alloc: Global,
    local: &Local<'_, R, O>,
    graph: &mut Graph<P>,
    wanted: Wanted,
    name: Option<&[u8]>,
) -> Result<Update, Error>
    ensures update { IfOk result (IsUpdate (local_of R.refs O.contents local.now graph.old.graph) wanted (option_copied name.entry)) }
    ensures consults { Consults local.now.most_commits result graph.old graph.new }
    ensures limited { KeepsLimit (commit_at graph.old.graph.objects) (λ q. wanted.id ≡ Some q) local.now.most_commits 2 result
        graph.old.asked graph.new.asked }
{
    match mode_of(alloc, local, graph, wanted, name) {
        Ok(mode) => Ok(Update {
            mode,
            edit: if mode.writes() {
                edit_to(local, name, wanted.id)
            } else {
                None
            },
        }),
        Err(e) => Err(e),
    }
}
