//! The `fetch` commands of a batch (gitremote-helpers, "fetch").
ghost use Rattle.std.specs.Prelude.{◌≡◌, ◌==◌, [], length, is_some, IfOk, OnOk};
ghost use Rattle.gixp_hash.specs.ObjectId.{id_of};
ghost use Rattle.gixp_remote_rules.specs.Batch.{wanted_ids, fetch_lines, with_want, with_fetch_line};

use gixp_hash::ObjectId;
use std::alloc::{AllocError, Global};
use std::collections::BTreeSet;
use std::mem;

/// The commands of a batch: the ids, sorted and without duplicates, and the lines as git sent them.
#[derive(Drop)]
pub struct Batch {
    ids: BTreeSet<ObjectId>,
    lines: Vec<u8>,
}

impl Batch {
    /// An empty batch.
    pub fn new(alloc: Global) -> Batch
        ensures wanted { wanted_ids result ≡ [] }
        ensures lines { fetch_lines result ≡ [] }
    {
        Batch {
            ids: BTreeSet::new(alloc),
            lines: Vec::new(alloc),
        }
    }

    /// Whether the batch has no line.
    pub fn is_empty(&self) -> bool
        ensures { result ≡ (length (fetch_lines self.now) == 0) }
    {
        self.lines.is_empty()
    }

    /// Adds an id in hexadecimal. Returns whether the text is an id.
    ///
    /// # Errors
    ///
    /// Only when an allocation fails.
    pub fn add(&mut self, text: &[u8]) -> Result<bool, AllocError>
        ensures is_id { IfOk result (λ is_id. is_id ≡ is_some (id_of text.now)) }
        ensures wanted { OnOk result (wanted_ids self.new ≡ with_want (wanted_ids self.old) text.now) }
        ensures lines { fetch_lines self.new ≡ fetch_lines self.old }
    {
        match ObjectId::from_hex(text) {
            Ok(id) => {
                self.ids.insert(id)?;
                Ok(true)
            }
            Err(_) => Ok(false),
        }
    }

    /// Adds the line of a command, without its line feed.
    ///
    /// # Errors
    ///
    /// Only when an allocation fails.
    pub fn add_line(&mut self, line: &[u8]) -> Result<(), AllocError>
        ensures lines { OnOk result (fetch_lines self.new ≡ with_fetch_line (fetch_lines self.old) line.now) }
        ensures wanted { wanted_ids self.new ≡ wanted_ids self.old }
    {
        self.lines.extend_from_slice(line)?;
        self.lines.push(b'\n')?;
        Ok(())
    }

    /// Takes all ids out. The batch is empty then.
    ///
    /// # Errors
    ///
    /// Only when an allocation fails.
    pub fn take_ids(&mut self, alloc: Global) -> Result<Vec<ObjectId>, AllocError>
        ensures taken { IfOk result (λ ids. ids.items ≡ wanted_ids self.old) }
        ensures over { wanted_ids self.new ≡ [] }
        ensures lines { fetch_lines self.new ≡ [] }
    {
        self.lines = Vec::new(alloc);
        let ids = mem::replace(&mut self.ids, BTreeSet::new(alloc));
        ids.into_iter().collect(alloc)
    }

    /// Takes all lines out. The batch is empty then.
    pub fn take_lines(&mut self, alloc: Global) -> Vec<u8>
        ensures taken { result.items ≡ fetch_lines self.old }
        ensures over { wanted_ids self.new ≡ [] }
        ensures lines { fetch_lines self.new ≡ [] }
    {
        self.ids = BTreeSet::new(alloc);
        mem::replace(&mut self.lines, Vec::new(alloc))
    }
}
