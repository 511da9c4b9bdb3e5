//! Objects in a sorted list.
ghost use Rattle.std.proofs.Props.{props};
ghost use Rattle.gix_protocol.specs.ObjectId.{id_cmp};
ghost use Rattle.std.specs.Prelude.{◌≡◌, true, IfOk};
ghost use Rattle.std.specs.Option.{option_map};
ghost use Rattle.gix_protocol.specs.Object.{commit_of};
ghost use Rattle.gixp_watcher.specs.declared.rows.ObjectRow.{ObjectRow};
ghost use Rattle.gixp_watcher.specs.Sorted.{Rises, IsAboveLast};

use crate::row::{ReadError, object_in};
use crate::rows::ObjectRow;
use gix_protocol::ObjectId;
use gix_protocol::fetch::negotiate::{CommitData, Find, ObjectError, ObjectKind};
use std::alloc::Global;
use std::cmp::Ordering;

/// The objects of a repository, in the order of their ids.
#[derive(Drop)]
pub struct SortedObjects {
    rows: Vec<ObjectRow>,
    ghost rising: { Rises id_cmp (λ r. r.id) rows.items } by { Prim.hlevel props },
}

impl SortedObjects {
    ghost use Rattle.std.specs.Prelude.{◌≡◌, IfOk};
    ghost use Rattle.std.specs.Option.{option_map, option_copied};
    ghost use Rattle.std.specs.FinMap as finite;
    ghost use Rattle.gixp_watcher.specs.Sorted.{object_of, objects_of};

    /// Reads a text with one line per object, ordered by id. A line has the id and the type. For a commit the committer's time in
    /// seconds and the ids of the parents follow. Single blanks separate them.
    ///
    /// # Errors
    ///
    /// The number of the first line that is malformed or out of order, or an allocation failure.
    pub fn read(alloc: Global, text: &[u8]) -> Result<SortedObjects, ReadError> {
        let mut objects = SortedObjects {
            rows: Vec::new(alloc),
        };
        let mut number = 0usize;
        for line in text.split(|byte| *byte == b'\n') {
            number = number.saturating_add(1);
            if line.is_empty() {
                continue;
            }
            let Some(row) = object_in(alloc, line)? else {
                return Err(ReadError::Line(number));
            };
            if !objects.push(row)? {
                return Err(ReadError::Line(number));
            }
        }
        Ok(objects)
    }

    // Adds an object if its id is greater than all others. Returns whether it is.
    fn push(&mut self, row: ObjectRow) -> Result<bool, ReadError> {
        if !follows(&self.rows, &row) {
            return Ok(false);
        }
        self.rows.push(row)?;
        Ok(true)
    }

    fn get(&self, id: &ObjectId) -> Option<&ObjectRow>
        ensures { option_map object_of (option_copied result) ≡ finite.get (objects_of self.now.rows.items) id.now }
    {
        let by_id = |row: &ObjectRow| -> Ordering
            ensures { result ≡ id_cmp row.now.id id.entry.now }
        { row.id.cmp(id) };
        match self.rows.binary_search_by(by_id) {
            Ok(index) => Some(&self.rows[index]),
            Err(_) => None,
        }
    }
}

// Whether the id of the row is greater than that of the last one.
fn follows(rows: &[ObjectRow], row: &ObjectRow) -> bool
    ensures { result ≡ true → IsAboveLast id_cmp (λ (r : ObjectRow). r.id) rows.now row.now }
{
    match rows.last() {
        Some(last) => last.id.cmp(&row.id).is_lt(),
        None => true,
    }
}

fn copied(alloc: Global, commit: &Option<CommitData>) -> Result<Option<CommitData>, ObjectError>
    ensures { IfOk result (λ copy. option_map commit_of copy ≡ option_map commit_of commit.now) }
{
    match commit {
        Some(commit) => Ok(Some(CommitData {
            time: commit.time,
            parents: Vec::from_slice(alloc, &commit.parents)?,
        })),
        None => Ok(None),
    }
}

impl Find for SortedObjects {
    ghost use Rattle.gixp_watcher.specs.Sorted.{objects_of};

    ghost contents = { λ s. objects_of s.rows.items };

    fn has_object(&self, id: &ObjectId) -> bool {
        self.get(id).is_some()
    }

    fn find_kind(&self, id: &ObjectId) -> Option<ObjectKind> {
        Some(self.get(id)?.kind)
    }

    fn find_commit(&self, alloc: Global, id: &ObjectId) -> Result<Option<CommitData>, ObjectError> {
        match self.get(id) {
            Some(row) => copied(alloc, &row.commit),
            None => Ok(None),
        }
    }
}
