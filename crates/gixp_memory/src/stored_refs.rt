//! The refs of a repository in memory, filled from lists or from texts.
ghost use Rattle.std.specs.Prelude.{◌≡◌, ℕ, [], Some, None, Vec, IfOk, OnOk, OnErr, map, true, false};
ghost use Rattle.std.specs.BTreeMap.{values};
ghost use Rattle.std.specs.declared.alloc.Global.{Global};
ghost use Rattle.gixp_hash.specs.declared.object_id.ObjectId.{ObjectId};
ghost use Rattle.gixp_memory.specs.Text.{FillsByText};
ghost use Rattle.gixp_memory.specs.Repository.{held_ref, ref_line, ref_by, ref_named, peeled_name, with_ref, named_id_of};
ghost use Rattle.gixp_memory.specs.declared.stored_refs.StoredRef.{StoredRef};
ghost use Rattle.std.specs.Option.{option_copied};

use crate::texts::{TextError, named_id};
use bstr::BStr;
use gixp_graph::{RefStore, RefStoreError};
use gixp_hash::ObjectId;
use gixp_utils::{line_words, text_lines};
use std::alloc::{AllocError, Global};
use std::collections::BTreeMap;
use std::marker::Model;

/// The id of a ref, and the id that it peels to.
#[derive(Clone, Copy, Drop)]
pub(crate) struct StoredRef {
    pub id: ObjectId,
    pub peeled: ObjectId,
}

/// The refs of a repository in memory, sorted by name: the id of each, and the id of the object that it peels to,
/// which isn't a tag.
#[derive(Drop)]
pub struct StoredRefs {
    names: BTreeMap<Vec<u8>, StoredRef>,
}

impl Model for StoredRefs {
    ghost use Rattle.std.specs.Prelude.{List, map};
    ghost use Rattle.gixp_memory.specs.Repository.{PeeledRef, coded_refs};

    ghost Value = { List PeeledRef };

    ghost coded = { coded_refs };

    ghost use Rattle.gixp_memory.specs.RefEntries.{named_ref};

    ghost view = { λ a. map named_ref a.names.entries };
}

impl StoredRefs {
    /// A repository without refs.
    pub fn new(alloc: Global) -> StoredRefs
        ensures { result ≡ [] }
    {
        StoredRefs {
            names: BTreeMap::new(alloc),
        }
    }

    /// Adds a ref with its id and the id that it peels to. It replaces an existing ref with this name.
    ///
    /// # Errors
    ///
    /// Only an allocation failure; nothing is added then.
    pub fn add(&mut self, name: Vec<u8>, id: ObjectId, peeled: ObjectId) -> Result<(), AllocError>
        ensures ok { OnOk result (self.new ≡ with_ref self.old (record { name = name.items; id = id; peeled = peeled })) }
        ensures err { OnErr result (self.new ≡ self.old) }
    {
        self.names.insert(name, StoredRef { id, peeled })?;
        Ok(())
    }

    /// The full name and the id of each ref, sorted by name.
    ///
    /// # Errors
    ///
    /// Only an allocation failure.
    pub fn to_vec(&self, alloc: Global) -> Result<Vec<(BStr<'_>, ObjectId)>, AllocError>
        ensures { IfOk result (λ refs. map named_id_of refs.items ≡ map held_ref self.now) }
    {
        match named_ids_of(alloc, &self.names) {
            Ok(refs) => Ok(refs),
            Err(e) => Err(e),
        }
    }

    // The id of the ref with this name.
    fn held(&self, name: &[u8]) -> Option<ObjectId>
        ensures { result ≡ ref_named self.now name.now }
    {
        match self.names.get(name) {
            Some(stored) => Some(stored.id),
            None => None,
        }
    }

    // Adds a ref, or for a name with `^{}` the id that an existing ref peels to. Returns false where that ref doesn't exist.
    fn add_by(&mut self, alloc: Global, id: ObjectId, name: &[u8]) -> Result<bool, AllocError>
        ensures read { IfOk result (λ is_read. is_read ≡ true → ref_by self.old id name.now (peeled_name name.now) ≡ Some self.new) }
        ensures unread { IfOk result (λ is_read. is_read ≡ false → (ref_by self.old id name.now (peeled_name name.now) ≡ None)
            × (self.new ≡ self.old)) }
        ensures err { OnErr result (self.new ≡ self.old) }
    {
        let Some(base) = peeled_name(name) else {
            let name = Vec::from_slice(alloc, name)?;
            self.add(name, id, id)?;
            return Ok(true);
        };
        let Some(held) = self.held(base) else {
            return Ok(false);
        };
        let base = Vec::from_slice(alloc, base)?;
        self.add(base, held, id)?;
        Ok(true)
    }

    // Adds the ref of a line. Returns false where the line isn't a ref's.
    fn add_ref_line(&mut self, alloc: Global, line: &[u8]) -> Result<bool, AllocError>
        ensures read { IfOk result (λ is_read. is_read ≡ true → ref_line self.old line.now ≡ Some self.new) }
        ensures unread { IfOk result (λ is_read. is_read ≡ false → (ref_line self.old line.now ≡ None) × (self.new ≡ self.old)) }
        ensures err { OnErr result (self.new ≡ self.old) }
    {
        let Ok(words) = line_words(alloc, line) else {
            return Err(AllocError);
        };
        let [id, name] = words.as_slice() else {
            return Ok(false);
        };
        let Some(id) = named_id(id.as_bytes()) else {
            return Ok(false);
        };
        self.add_by(alloc, id, name.as_bytes())
    }

    /// Adds the refs of the output of `git show-ref -d`. Each line has an id, a space and the full name of a ref. The
    /// line of a tag may be followed by a line with the id that the tag peels to, and its name with `^{}`. Names aren't checked
    /// (git-check-ref-format). Where a name has two lines, the later one counts.
    ///
    /// # Errors
    ///
    /// The number of the first line that isn't of this form, or whose `^{}` follows no name of an earlier ref, or an
    /// allocation failure. The refs of the lines before it are added.
    pub fn read_refs(&mut self, alloc: Global, text: &[u8]) -> Result<(), TextError>
        ensures { FillsByText ref_line self.old text.now self.new result }
    {
        let Ok(lines) = text_lines(alloc, text) else {
            return Err(TextError::Memory);
        };
        let mut number = 0;
        for line in &lines {
            match self.add_ref_line(alloc, line.as_bytes()) {
                Ok(true) => number += 1,
                Ok(false) => return Err(TextError::Line(number + 1)),
                Err(_) => return Err(TextError::Memory),
            }
        }
        Ok(())
    }
}

fn peeled_name(name: &[u8]) -> Option<&[u8]>
    ensures { option_copied result ≡ peeled_name name.now }
{
    name.strip_suffix(b"^{}")
}

// The names of the refs and their ids.
fn named_ids_of(
    alloc: Global,
    names: &BTreeMap<Vec<u8>, StoredRef>,
) -> Result<Vec<(BStr<'_>, ObjectId)>, AllocError>
    ensures { IfOk result (λ refs. map named_id_of refs.items
        ≡ map (λ (e : Vec ℕ Global × StoredRef). (e.0.items, e.1.id)) names.now.entries) }
{
    names
        .iter()
        .map(|(name, stored)| (BStr::new(name), stored.id))
        .collect(alloc)
}

// The ids that the refs peel to.
fn targets(alloc: Global, names: &BTreeMap<Vec<u8>, StoredRef>) -> Result<Vec<ObjectId>, AllocError>
    ensures { IfOk result (λ ids. ids.items ≡ map (λ (r : StoredRef). r.peeled) (values names.now)) }
{
    names.values().map(|stored| stored.peeled).collect(alloc)
}

impl RefStore for StoredRefs {
    ghost use Rattle.gixp_memory.specs.Repository.{refs_held, peeled_ids};

    ghost refs = { λ s. refs_held s };

    ghost targets = { λ s. peeled_ids s };

    ghost failures = { λ _. 0 };

    fn find(&self, name: BStr<'_>) -> Option<ObjectId> {
        self.held(name.as_bytes())
    }

    fn peeled(&mut self, alloc: Global) -> Result<Vec<ObjectId>, RefStoreError> {
        let Ok(ids) = targets(alloc, &self.names) else {
            return Err(RefStoreError::Memory);
        };
        Ok(ids)
    }
}

/// The error of a repository without alternates (gitrepository-layout, `objects/info/alternates`): none is opened, so
/// no call returns it. For `NegotiateContext`, as `Ok::<_, NoAlternates>(&mut [])`.
#[derive(Clone, Copy, Debug, PartialEq, Eq)]
pub struct NoAlternates;
