//! The local refs to write, by name, and the updates for which a program has to fail.
ghost use Rattle.std.specs.Prelude.{◌≡◌, IfOk};
ghost use Rattle.std.specs.Option.{option_map};
ghost use Rattle.gixp_updates.specs.Modes.{wanted_of, fails_as};
ghost use Rattle.gixp_updates.specs.NamedEdits.{edit_value, edit_values, edit_named, edits_named};

use crate::refs::edit::{Edit, Update, wanted_of};
use bstr::BStr;
use gixp_refmap::RefMap;
use gixp_refmap::fetch::Tags;
use gixp_refmap::refmap::Mapping;
use std::alloc::{AllocError, Global};

impl Update {
    /// Whether `git fetch` would exit with a status other than 0 for this update: the ref stays although the mapping wants
    /// to change it. Takes the map, the mapping of this update, and the tags of the fetch.
    ///
    /// Two kinds of rejected refs aren't failures. One is a tag that was mapped by `Tags::Included`: git skips such a tag
    /// if it exists. The other is a ref with an invalid name: git skips it with a message. A refspec that matched nothing has
    /// no mapping; [`unmatched`](crate::refs::unmatched::unmatched) reports it.
    pub fn fails(&self, map: &RefMap, mapping: &Mapping, tags: Tags) -> bool
        ensures { result ≡ fails_as (wanted_of tags map.now.refspecs.items map.now.extra_refspecs.items mapping.now) self.now.mode }
    {
        let wanted = wanted_of(tags, &map.refspecs, &map.extra_refspecs, mapping);
        self.mode.is_failure() && !wanted.is_implicit_tag
    }
}

// The local name of a mapping, with the change that its update writes.
fn named_edit<'a>(mapping: &'a Mapping, update: &Update) -> Option<(BStr<'a>, Edit)>
    ensures { option_map edit_value result ≡ edit_named (update.now, mapping.now) }
{
    match (&mapping.local, update.edit) {
        (Some(name), Some(edit)) => Some((name.as_bstr(), edit)),
        _ => None,
    }
}

/// The changes to write: the full name of each local ref whose update has an [`Edit`], with that edit, in the order of
/// the map. The updates are the result of [`update`](crate::refs::update::update) for this map.
///
/// # Errors
///
/// Only an allocation failure.
pub fn edits<'a>(
    alloc: Global,
    map: &'a RefMap,
    updates: &[Update],
) -> Result<Vec<(BStr<'a>, Edit)>, AllocError>
    ensures { IfOk result (λ edits. edit_values edits.items ≡ edits_named map.now.mappings.items updates.now) }
{
    let mut edits = Vec::new(alloc);
    let mut mappings = map.mappings.as_slice();
    let mut rest = updates;
    while let Some((update, others)) = rest.split_first() {
        let Some((mapping, later)) = mappings.split_first() else {
            return Ok(edits);
        };
        if let Some(edit) = named_edit(mapping, update) {
            edits.push(edit)?;
        }
        mappings = later;
        rest = others;
    }
    Ok(edits)
}
