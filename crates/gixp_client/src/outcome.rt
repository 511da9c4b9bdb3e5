//! The parts of a session's fetch before and after its run.
ghost use Rattle.std.specs.Prelude.{◌≡◌, ◌⊎◌, if◌then◌else◌, false, None, IfOk, IfErr, Ok, Err};
ghost use Rattle.gixp_response.specs.Answer.{update_items};
ghost use Rattle.gixp_fetch.specs.FetchShallow.{shallow_value, is_change};
ghost use Rattle.gixp_client.specs.Filters.{offers_filter};
ghost use Rattle.gixp_client.specs.Boundaries.{IsBoundaryAfter};
ghost use Rattle.gixp_client.specs.SessionStates.{is_reported, IsReport};

use crate::boundary::Boundary;
use crate::error::Error;
use crate::fetched::Fetched;
use crate::listen::Kept;
use crate::request::Request;
use gixp_fetch::options::Outcome;
use gixp_handshake::Handshake;
use gixp_hash::ObjectId;
use gixp_requests::Command;
use gixp_requests::command::CommandTable;
use gixp_requests::fetch::Arguments;
use gixp_shallow::{Shallow, ShallowMemory, ShallowUpdate};
use std::alloc::{AllocError, Global};

pub(crate) fn store_of(alloc: Global, boundary: &[ObjectId]) -> Result<ShallowMemory, AllocError>
    ensures ids { IfOk result (λ store. store.ids.items ≡ boundary.now) }
    ensures unlocked { IfOk result (λ store. store.locked ≡ false) }
{
    let ids = Vec::from_slice(alloc, boundary)?;
    Ok(ShallowMemory::new(ids))
}

/// A copy of the shallow updates that the handshake received.
pub(crate) fn copied_updates(
    alloc: Global,
    updates: &Option<Vec<ShallowUpdate>>,
) -> Result<Option<Vec<ShallowUpdate>>, AllocError>
    ensures { IfOk result (λ copy. update_items copy ≡ update_items updates.now) }
{
    match updates {
        Some(updates) => Ok(Some(Vec::from_slice(alloc, updates)?)),
        None => Ok(None),
    }
}

/// The shallow updates that the handshake received, unless a negotiated round consumed them.
pub(crate) fn updates_left(
    updates: Option<Vec<ShallowUpdate>>,
    is_negotiated: bool,
) -> Option<Vec<ShallowUpdate>>
    ensures { result ≡ (if is_negotiated then None else updates) }
{
    if is_negotiated { None } else { updates }
}

/// Whether the server offers filters.
pub(crate) fn can_filter(alloc: Global, shaken: &Handshake) -> Result<bool, AllocError>
    ensures { IfOk result (λ can. can ≡ offers_filter shaken.now) }
{
    let table = CommandTable::git();
    let version = shaken.server_protocol_version;
    let features = table.default_features(alloc, Command::Fetch, version, &shaken.capabilities)?;
    let arguments = Arguments::new(alloc, &table, version, features)?;
    Ok(arguments.can_use_filter())
}

/// Whether the server reported an error that ends the fetch.
pub(crate) fn is_reported(messages: &Kept, goes_on: bool) -> bool
    ensures { result ≡ is_reported goes_on messages.now.has_error }
{
    !goes_on && messages.has_error()
}

/// The error that the server reported, with its message if that was kept.
pub(crate) fn reported(messages: &Kept) -> Error
    ensures { IsReport messages.now result }
{
    match messages.first_error() {
        Some(message_text) => match message_text.text.clone() {
            Ok(message) => Error::Reported { message },
            Err(_) => Error::Memory,
        },
        None => Error::Memory,
    }
}

// Whether the request changes the boundary.
fn asks_change(shallow: &Shallow) -> bool
    ensures { result ≡ is_change (shallow_value shallow.now) }
{
    match shallow {
        Shallow::NoChange => false,
        _ => true,
    }
}

/// The result of a fetch with the shallow boundary after it.
pub(crate) fn finish_fetch(
    alloc: Global,
    received: Result<Option<Outcome>, Error>,
    messages: Kept,
    request: &Request,
    before: &[ObjectId],
    after: &[ObjectId],
) -> Result<Fetched, Error>
    ensures outcome { IfOk result (λ f. received ≡ Ok f.outcome) }
    ensures boundary { IfOk result (λ f. IsBoundaryAfter (is_change (shallow_value request.now.shallow)) before.now after.now f.boundary) }
    ensures messages { IfOk result (λ f. f.messages ≡ messages) }
    ensures refused { IfErr result (λ e. (received ≡ Err e) ⊎ (e ≡ Error.Memory)) }
{
    let outcome = match received {
        Ok(outcome) => outcome,
        Err(e) => return Err(e),
    };
    let is_asked = asks_change(&request.shallow);
    match Boundary::changed(alloc, before, after, is_asked) {
        Ok(boundary) => Ok(Fetched {
            outcome,
            boundary,
            messages,
        }),
        Err(_) => Err(Error::Memory),
    }
}
