//! The state of a session.
ghost use Rattle.std.specs.Prelude.{◌≡◌, is_some};
ghost use Rattle.gixp_client.specs.ClientError.{message_in};
ghost use Rattle.gixp_client.specs.SessionStates.{state_after_answers, state_after_request, state_after_answer, state_after_silent_error, state_after_refusal, state_after_map, state_after_outcome, state_after_fetch};

use crate::error::Error;
use gixp_capabilities::client;
use gixp_fetch::options::Outcome;
use gixp_packetline::Protocol;
use gixp_response::fetch::response;

/// Whether another call of a session is possible.
#[derive(Clone, Copy, Debug, PartialEq, Eq, Drop)]
pub enum State {
    /// The server waits for a request, and everything that it sent was read.
    AtStop,
    /// The session has ended. The server closed the connection, or the client ended the session.
    Ended,
    /// A request failed, or its response couldn't be read. So the next bytes of the server are unknown. No further request is
    /// possible.
    Broken,
}

// The state after a complete response. Under versions 0 and 1 it is `otherwise`.
fn state_after_answers(version: Protocol, otherwise: State) -> State
    ensures { result ≡ state_after_answers version otherwise }
{
    match version {
        Protocol::V2 => State::AtStop,
        Protocol::V0 | Protocol::V1 => otherwise,
    }
}

// The state after a request that couldn't be sent.
fn state_after_request(e: &client::Error) -> State
    ensures { result ≡ state_after_request e.now }
{
    match e {
        client::Error::LineTooLong => State::AtStop,
        _ => State::Broken,
    }
}

// The state after a response that couldn't be read.
fn state_after_answer(e: &response::Error) -> State
    ensures { result ≡ state_after_answer e.now }
{
    match e {
        response::Error::MissingServerCapability { .. } => State::AtStop,
        _ => State::Broken,
    }
}

// The state after a call that failed without a server message.
fn state_after_silent_error(version: Protocol, e: &Error) -> State
    ensures { result ≡ state_after_silent_error version e.now }
{
    match e {
        Error::Refspec { .. } | Error::UnsupportedListing => State::AtStop,
        Error::UnknownObjectFormat { .. } | Error::Conflicts(_) => State::AtStop,
        Error::UnsupportedRefName => State::AtStop,
        Error::MissingFeature { .. } | Error::LocalRefs(_) => State::AtStop,
        Error::Request(e) => state_after_request(e),
        Error::Answer(e) => state_after_answer(e),
        Error::Unnegotiated { .. } => state_after_answers(version, State::Ended),
        Error::UnknownUnshallow { .. } => state_after_answers(version, State::Ended),
        Error::Objects(_) => state_after_answers(version, State::Broken),
        _ => State::Broken,
    }
}

fn has_message(e: &Error) -> bool
    ensures { result ≡ is_some (message_in e.now) }
{
    match e.server_message() {
        Some(_) => true,
        None => false,
    }
}

/// The state after a call that failed with this error.
pub(crate) fn state_after_refusal(version: Protocol, e: &Error) -> State
    ensures { result ≡ state_after_refusal version e.now }
{
    if has_message(e) {
        State::Ended
    } else {
        state_after_silent_error(version, e)
    }
}

/// The state after a failed ref map. `is_here`: whether the session had the refs already.
pub(crate) fn state_after_map(is_here: bool, version: Protocol, e: &Error) -> State
    ensures { result ≡ state_after_map is_here version e.now }
{
    if is_here {
        State::AtStop
    } else {
        state_after_refusal(version, e)
    }
}

// The state after a fetch with this outcome.
fn state_after_outcome(version: Protocol, outcome: &Option<Outcome>) -> State
    ensures { result ≡ state_after_outcome version outcome.now }
{
    match outcome {
        None => State::AtStop,
        Some(_) => state_after_answers(version, State::Ended),
    }
}

pub(crate) fn state_after_fetch(
    is_negotiated: bool,
    version: Protocol,
    received: &Result<Option<Outcome>, Error>,
) -> State
    ensures { result ≡ state_after_fetch is_negotiated version received.now }
{
    match received {
        Ok(outcome) => state_after_outcome(version, outcome),
        Err(e) => {
            if is_negotiated {
                state_after_refusal(version, e)
            } else {
                State::AtStop
            }
        }
    }
}
