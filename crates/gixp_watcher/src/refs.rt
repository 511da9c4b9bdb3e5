//! Refs in a sorted list.
ghost use Rattle.std.proofs.Props.{props};
ghost use Rattle.std.specs.Ordering.{nat_cmp};
ghost use Rattle.std.specs.Cmp.Lexicographic.{slice_cmp};
ghost use Rattle.std.specs.Prelude.{◌≡◌, true, IfOk};
ghost use Rattle.gix_protocol.specs.Changes.{listed_value};
ghost use Rattle.gixp_watcher.specs.Sorted.{Rises, IsAboveLast, name_of, name_and_id};

use crate::row::{ReadError, ref_in};
use crate::rows::RefRow;
use bstr::{BStr, BString};
use gix_protocol::ObjectId;
use gix_protocol::client::ListedRefs;
use gix_protocol::fetch::negotiate::{RefStore, RefStoreError};
use std::alloc::{AllocError, Global};
use std::cmp::Ordering;

/// The refs of a repository that hold an id, in the order of their names.
#[derive(Drop)]
pub struct SortedRefs {
    rows: Vec<RefRow>,
    ghost rising: { Rises (slice_cmp nat_cmp) name_of rows.items } by { Prim.hlevel props },
}

impl SortedRefs {
    ghost use Rattle.std.specs.Prelude.{◌≡◌, IfOk, map, List, ℕ};
    ghost use Rattle.std.specs.FinMap as finite;
    ghost use Rattle.gixp_watcher.specs.Sorted.{refs_of};

    /// Reads a text with one line per ref, ordered by name. A line has the name, the id that the ref holds, and that id peeled.
    /// Single blanks separate them.
    ///
    /// # Errors
    ///
    /// The number of the first line that is malformed or out of order, or an allocation failure.
    pub fn read(alloc: Global, text: &[u8]) -> Result<SortedRefs, ReadError> {
        let mut refs = SortedRefs {
            rows: Vec::new(alloc),
        };
        let mut number = 0usize;
        for line in text.split(|byte| *byte == b'\n') {
            number = number.saturating_add(1);
            if line.is_empty() {
                continue;
            }
            let Some(row) = ref_in(alloc, line)? else {
                return Err(ReadError::Line(number));
            };
            if !refs.push(row)? {
                return Err(ReadError::Line(number));
            }
        }
        Ok(refs)
    }

    // Adds a ref if its name is greater than all others. Returns whether it is.
    fn push(&mut self, row: RefRow) -> Result<bool, ReadError> {
        if !follows(&self.rows, &row) {
            return Ok(false);
        }
        self.rows.push(row)?;
        Ok(true)
    }

    fn get(&self, name: &[u8]) -> Option<ObjectId>
        ensures { result ≡ finite.get (refs_of self.now.rows.items) name.now }
    {
        let by_name = |row: &RefRow| -> Ordering
            ensures { result ≡ slice_cmp nat_cmp (name_of row.now) name.entry.now }
        { row.name.as_bytes().cmp(name) };
        match self.rows.binary_search_by(by_name) {
            Ok(index) => Some(self.rows[index].id),
            Err(_) => None,
        }
    }
}

// Whether the name of the row is greater than that of the last one.
fn follows(rows: &[RefRow], row: &RefRow) -> bool
    ensures { result ≡ true → IsAboveLast (slice_cmp nat_cmp) name_of rows.now row.now }
{
    match rows.last() {
        Some(last) => last.name.as_bytes().cmp(row.name.as_bytes()).is_lt(),
        None => true,
    }
}

fn listed(alloc: Global, row: &RefRow) -> Result<(BString, ObjectId), AllocError>
    ensures { IfOk result (λ e. listed_value e ≡ name_and_id row.now) }
{
    Ok((BString::from_slice(alloc, row.name.as_bytes())?, row.id))
}

impl RefStore for SortedRefs {
    ghost use Rattle.std.specs.Prelude.{map};
    ghost use Rattle.gixp_watcher.specs.Sorted.{refs_of, peeled_of};

    ghost refs = { λ s. refs_of s.rows.items };

    ghost targets = { λ s. map peeled_of s.rows.items };

    ghost failures = { λ _. 0 };

    fn find(&self, name: BStr<'_>) -> Option<ObjectId> {
        self.get(name.as_bytes())
    }

    fn peeled(&mut self, alloc: Global) -> Result<Vec<ObjectId>, RefStoreError> {
        Ok(self.rows.iter().map(|row| row.peeled).collect(alloc)?)
    }
}

impl ListedRefs for SortedRefs {
    ghost use Rattle.std.specs.Prelude.{map};
    ghost use Rattle.gixp_watcher.specs.Sorted.{name_and_id};

    ghost listed = { λ s. map name_and_id s.rows.items };

    fn list(&self, alloc: Global) -> Result<Vec<(BString, ObjectId)>, AllocError> {
        let mut refs = Vec::new(alloc);
        let mut rest = self.rows.as_slice();
        while let Some((row, tail)) = rest.split_first() {
            refs.push(listed(alloc, row)?)?;
            rest = tail;
        }
        Ok(refs)
    }
}
