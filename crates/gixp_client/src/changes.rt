//! The changes of local refs that refspecs and a server's refs ask for.
ghost use Rattle.std.specs.Prelude.{◌≡◌, ℕ, ◌&&◌, ◌||◌, not, ◌++◌, List, IfOk, OnOk, map};
ghost use Rattle.std.specs.Option.{option_map};
ghost use Rattle.std.specs.List.{filter_map, flat_map};
ghost use Rattle.std.specs.Str.{bytes_eq};
ghost use Rattle.std.specs.FinMap as finite;
ghost use Rattle.bstr.specs.Owned.{bstring_bytes};
ghost use Rattle.gixp_hash.specs.declared.object_id.ObjectId.{ObjectId};
ghost use Rattle.gixp_refspec.specs.RefSpec.{owned_value_of};
ghost use Rattle.gixp_client.specs.Changes.{change_value, change_values, listed_value, change_to, change_by, matches, writes, is_written, goes_to, is_mapped, has_key, removals, removals_of, changes_of};

use bstr::BString;
use gixp_graph::RefStore;
use gixp_hash::ObjectId;
use gixp_memory::StoredRefs;
use gixp_refmap::RefMap;
use gixp_refmap::refmap::Mapping;
use gixp_refspec::instruction::Fetch;
use gixp_refspec::needle::around_star;
use gixp_refspec::{Instruction, RefSpec};
use std::alloc::{AllocError, Global};
use std::collections::BTreeSet;

/// The change of one local ref that a ref map asks for.
#[derive(Debug, Drop, PartialEq, Eq)]
pub enum LocalChange {
    /// The ref is created.
    Made {
        /// Its full name.
        name: BString,
        /// The id it will hold.
        id: ObjectId,
    },
    /// The ref holds another id. git may fast-forward it, force it, or reject the update.
    Moved {
        /// Its full name.
        name: BString,
        /// The id it holds now.
        old: ObjectId,
        /// The id it will hold.
        new: ObjectId,
    },
    /// The ref already holds the id.
    Kept {
        /// Its full name.
        name: BString,
        /// The id.
        id: ObjectId,
    },
    /// A refspec maps to this name, and the server no longer has a ref for it (git-fetch, "--prune").
    Removed {
        /// Its full name.
        name: BString,
        /// The id it holds now.
        old: ObjectId,
    },
}

/// A store that can list its refs.
pub trait ListedRefs: RefStore {
    /// The refs that hold an id, in the order of `list`.
    ghost listed: { Self → List (List ℕ × ObjectId) };

    /// The full name and the id of each ref that holds an id.
    ///
    /// # Errors
    ///
    /// Only when an allocation fails.
    fn list(&self, alloc: Global) -> Result<Vec<(BString, ObjectId)>, AllocError>
        ensures listed { IfOk result (λ found. map listed_value found.items ≡ listed self.now) }
        ensures all { Self.refs self.now ≡ finite.from_entries (listed self.now) };
}

impl ListedRefs for StoredRefs {
    ghost use Rattle.std.specs.Prelude.{map};
    ghost use Rattle.gixp_memory.specs.Repository.{held_ref};

    ghost listed = { λ s. map held_ref s };

    fn list(&self, alloc: Global) -> Result<Vec<(BString, ObjectId)>, AllocError> {
        let mut refs = Vec::new(alloc);
        for (name, id) in self.to_vec(alloc)? {
            refs.push((BString::from_slice(alloc, name.as_bytes())?, id))?;
        }
        Ok(refs)
    }
}

fn change_of(name: BString, old: Option<ObjectId>, id: ObjectId) -> LocalChange
    ensures { change_value result ≡ change_to (bstring_bytes name) old id }
{
    match old {
        None => LocalChange::Made { name, id },
        Some(old) => {
            if old.bytes == id.bytes {
                LocalChange::Kept { name, id }
            } else {
                LocalChange::Moved { name, old, new: id }
            }
        }
    }
}

// No change if the mapping has no local name, its local name isn't safe, or the server's ref has no object.
fn mapped_change<R: RefStore>(
    alloc: Global,
    mapping: &Mapping,
    refs: &R,
) -> Result<Option<LocalChange>, AllocError>
    ensures { IfOk result (λ change. option_map change_value change ≡ change_by (R.refs refs.now) mapping.now) }
{
    if !mapping.has_safe_local_name() {
        return Ok(None);
    }
    let Some(name) = &mapping.local else {
        return Ok(None);
    };
    let Some(id) = mapping.remote.as_id() else {
        return Ok(None);
    };
    let name = BString::from_slice(alloc, name.as_bytes())?;
    let old = refs.find(name.as_bstr());
    Ok(Some(change_of(name, old, *id)))
}

fn mapped_changes<R: RefStore>(
    alloc: Global,
    mappings: &[Mapping],
    refs: &R,
) -> Result<Vec<LocalChange>, AllocError>
    ensures { IfOk result (λ changes. change_values changes.items ≡ filter_map (change_by (R.refs refs.now)) mappings.now) }
{
    let mut changes = Vec::new(alloc);
    let mut rest = mappings;
    while let Some((mapping, tail)) = rest.split_first() {
        if let Some(change) = mapped_change(alloc, mapping, refs)? {
            changes.push(change)?;
        }
        rest = tail;
    }
    Ok(changes)
}

// Whether the destination of a refspec, which may contain a `*`, matches a name.
fn matches(destination: &[u8], name: &[u8]) -> bool
    ensures { result ≡ matches destination.now name.now }
{
    match around_star(destination) {
        Some((front, back)) => name.starts_with(front) && name[front.len()..].ends_with(back),
        None => destination == name,
    }
}

fn writes(spec: &RefSpec, name: &[u8]) -> bool
    ensures { result ≡ writes (owned_value_of spec.now) name.now }
{
    match spec.to_ref().instruction() {
        Instruction::Fetch(Fetch::AndUpdate { dst, .. }) => matches(dst.as_bytes(), name),
        Instruction::Fetch(Fetch::Only { .. } | Fetch::Exclude { .. }) => false,
    }
}

fn is_written(specs: &[RefSpec], name: &[u8]) -> bool
    ensures { result ≡ is_written specs.now name.now }
{
    specs.iter().any(|spec| writes(spec, name))
}

fn insert_name<'a>(names: &mut BTreeSet<&'a [u8]>, name: &'a BString) -> Result<(), AllocError>
    ensures { OnOk result ((text : List ℕ) → has_key names.new text ≡ (bytes_eq (bstring_bytes name.now) text || has_key names.old text)) }
{
    names.insert(name.as_bytes())?;
    Ok(())
}

fn add_name<'a>(names: &mut BTreeSet<&'a [u8]>, mapping: &'a Mapping) -> Result<(), AllocError>
    ensures { OnOk result ((name : List ℕ) → has_key names.new name ≡ (goes_to mapping.now name || has_key names.old name)) }
{
    match &mapping.local {
        Some(name) => insert_name(names, name),
        None => Ok(()),
    }
}

// The local names of the mappings.
fn mapped_names(alloc: Global, mappings: &[Mapping]) -> Result<BTreeSet<&[u8]>, AllocError>
    ensures { IfOk result (λ names. (name : List ℕ) → has_key names name ≡ is_mapped mappings.now name) }
{
    let mut names = BTreeSet::new(alloc);
    let mut rest = mappings;
    while let Some((mapping, tail)) = rest.split_first() {
        add_name(&mut names, mapping)?;
        rest = tail;
    }
    Ok(names)
}

// Removes the ref if a refspec writes its name and no mapping does.
fn add_removal(
    changes: &mut Vec<LocalChange>,
    specs: &[RefSpec],
    mapped: &BTreeSet<&[u8]>,
    name: BString,
    old: ObjectId,
) -> Result<(), AllocError>
    ensures { OnOk result (change_values changes.new.items ≡ change_values changes.old.items
        ++ removals (is_written specs.now (bstring_bytes name) && not (has_key mapped.now (bstring_bytes name)))
        (bstring_bytes name, old)) }
{
    if is_written(specs, name.as_bytes()) && !mapped.contains(name.as_bytes()) {
        changes.push(LocalChange::Removed { name, old })?;
    }
    Ok(())
}

// Removes each ref whose name a refspec writes and no mapping does.
fn add_removals(
    alloc: Global,
    changes: &mut Vec<LocalChange>,
    found: &RefMap,
    refs: Vec<(BString, ObjectId)>,
) -> Result<(), AllocError>
    ensures { OnOk result (change_values changes.new.items ≡ change_values changes.old.items
        ++ flat_map (removals_of found.now.refspecs.items found.now.mappings.items) (map listed_value refs.items)) }
{
    let mapped = mapped_names(alloc, &found.mappings)?;
    'refs: for (name, old) in refs {
        add_removal(changes, &found.refspecs, &mapped, name, old)?;
    }
    Ok(())
}

/// The changes of local refs that a ref map asks for. First, in the order of the map, the ref of each mapping. Then the refs to
/// remove: a refspec of the map writes their name, but no mapping does (git-fetch, "--prune"). Refs whose name isn't safe are left
/// out, and so are refs that no refspec writes.
///
/// This function looks at no object. `refs::update::update` checks whether an update loses commits and whether the objects exist.
/// So a new ref whose history ends at an unrequested shallow update is `Made` here, where git rejects it.
///
/// # Errors
///
/// Only when an allocation fails.
pub fn local_changes<R: ListedRefs>(
    alloc: Global,
    map: &RefMap,
    refs: &R,
) -> Result<Vec<LocalChange>, AllocError>
    ensures { IfOk result (λ changes. change_values changes.items
        ≡ changes_of map.now.mappings.items map.now.refspecs.items (R.refs refs.now) (R.listed refs.now)) }
{
    let mut changes = mapped_changes(alloc, &map.mappings, refs)?;
    let listed = refs.list(alloc)?;
    add_removals(alloc, &mut changes, map, listed)?;
    Ok(changes)
}
