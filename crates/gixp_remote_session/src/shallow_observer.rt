//! An observer that records the server's updates of the shallow boundary. The updates precede the
//! pack, and `git index-pack` needs them. It also records whether the server is ready to send the
//! pack.
ghost use Rattle.std.specs.Prelude.{◌≡◌, true, false, [], None, Ok, Err, IfOk, IfSome};
ghost use Rattle.gixp_packfile_uris.specs.Line.{without_band};
ghost use Rattle.gix_protocol.specs.AnswerLine.{shallow_update_line};
ghost use Rattle.gix_protocol.specs.Boundary.{boundary};
ghost use Rattle.gixp_remote_session.specs.ShallowLines.{begins_update, update_in, update_of_line, RecordsUpdate, RecordsLine};
ghost use Rattle.gixp_remote_session.specs.declared.error.Error.TheVariants.{Memory};

use crate::error::Error;
use crate::readiness::Readiness;
use gix_protocol::client::LineObserver;
use gix_protocol::fetch::response::shallow_update_from_line;
use gix_protocol::transport::{MessageKind, ObjectId};
use gixp_shallow::{ShallowUpdate, new_boundary};
use std::alloc::Global;
use std::cell::{Cell, RefCell};

/// The server's updates of the shallow boundary.
#[derive(Drop)]
pub(crate) struct ShallowUpdates {
    alloc: Global,
    updates: Vec<ShallowUpdate>,
    // Whether an update is missing, since an allocation failed.
    is_incomplete: bool,
}

impl ShallowUpdates {
    /// No updates.
    pub(crate) fn new(alloc: Global) -> ShallowUpdates
        ensures updates { result.updates.items ≡ [] }
        ensures incomplete { result.is_incomplete ≡ false }
    {
        ShallowUpdates {
            alloc,
            updates: Vec::new(alloc),
            is_incomplete: false,
        }
    }

    // Records the update in a line, if it has one.
    fn record_line(&mut self, line: &[u8])
        ensures { RecordsLine (update_of_line line.now) self.old self.new }
    {
        match update_of(self.alloc, line) {
            Some(update) => self.record_update(update),
            None => {}
        }
    }

    // Records an update.
    fn record_update(&mut self, update: ShallowUpdate)
        ensures { RecordsUpdate update self.old self.new }
    {
        match self.updates.push(update) {
            Ok(()) => {}
            Err(_) => self.is_incomplete = true,
        }
    }

    /// The boundary after the updates. `None` if there are none.
    pub(crate) fn apply_to(
        &self,
        alloc: Global,
        old: &[ObjectId],
    ) -> Result<Option<Vec<ObjectId>>, Error>
        ensures incomplete { self.now.is_incomplete ≡ true → result ≡ Err Memory }
        ensures nothing { self.now.is_incomplete ≡ false → self.now.updates.items ≡ [] → result ≡ Ok None }
        ensures boundary { IfOk result (λ found. IfSome found (λ ids. ids.items ≡ boundary old.now self.now.updates.items)) }
    {
        if self.is_incomplete {
            return Err(Error::Memory);
        }
        if self.updates.is_empty() {
            return Ok(None);
        }
        Ok(Some(new_boundary(alloc, old, &self.updates)?))
    }
}

// A line without its band, if the lines are multiplexed.
fn without_band(line: &[u8]) -> &[u8]
    ensures { result.now ≡ without_band line.now }
{
    match line.strip_prefix(b"\x01") {
        Some(text) => text,
        None => line,
    }
}

// Whether a text begins as the line of an update does.
fn begins_update(text: &[u8]) -> bool
    ensures { result ≡ begins_update text.now }
{
    text.starts_with(b"shallow ") || text.starts_with(b"unshallow ")
}

// The update in a text, as a response has it.
fn read_update(alloc: Global, text: &str) -> Option<ShallowUpdate>
    ensures { result ≡ shallow_update_line text.now }
{
    match shallow_update_from_line(alloc, text) {
        Ok(update) => Some(update),
        Err(_) => None,
    }
}

// The update in a line without its band. Other lines aren't read: the error for each would be a copy
// of the line.
fn update_in(alloc: Global, line: &[u8]) -> Option<ShallowUpdate>
    ensures { result ≡ update_in line.now }
{
    if !begins_update(line) {
        return None;
    }
    match str::from_utf8(line) {
        Ok(text) => read_update(alloc, text),
        Err(_) => None,
    }
}

// The update in a line.
fn update_of(alloc: Global, line: &[u8]) -> Option<ShallowUpdate>
    ensures { result ≡ update_of_line line.now }
{
    update_in(alloc, without_band(line))
}

/// Removes all updates.
pub(crate) fn clear_updates(shallow_updates: &RefCell<ShallowUpdates>) {
    if let Ok(mut shallow_updates) = shallow_updates.try_borrow_mut() {
        shallow_updates.updates.clear();
        shallow_updates.is_incomplete = false;
    }
}

/// An observer that records the updates of the boundary, and whether the pack is missing after
/// `ready`.
#[derive(Drop)]
pub(crate) struct ShallowObserver<'a> {
    pub(crate) shallow_updates: &'a RefCell<ShallowUpdates>,
    pub(crate) readiness: &'a Cell<Readiness>,
}

impl LineObserver for ShallowObserver<'_> {
    fn line(&mut self, line: &[u8]) {
        if let Ok(mut shallow_updates) = self.shallow_updates.try_borrow_mut() {
            shallow_updates.record_line(line);
        }
        self.readiness.set(self.readiness.get().after_line(line));
    }

    fn end(&mut self, stop: Option<MessageKind>) {
        self.readiness.set(self.readiness.get().after_end(stop));
    }
}
