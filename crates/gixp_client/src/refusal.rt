//! The `ErrorKind` in lower errors, and the error of a failed fetch.
ghost use Rattle.std.specs.Prelude.{◌≡◌};
ghost use Rattle.gixp_client.specs.ClientError.{NamesMissing, IsReportOf, client_kind, parse_kind, answer_kind, pack_kind};
ghost use Rattle.gixp_client.specs.ClientCalls.{IsReportedResult};

use crate::consumer::PackError;
use crate::error::Error;
use gixp_capabilities::client;
use gixp_fetch::error::Error as FetchError;
use gixp_fetch::options::Outcome;
use gixp_packetline::read;
use gixp_refs::handshake::refs::parse;
use gixp_response::fetch::response;
use std::alloc::Global;
use std::io::ErrorKind;

/// The kind in an error of a call to the server.
pub(crate) fn client_kind(e: &client::Error) -> Option<ErrorKind>
    ensures { result ≡ client_kind e.now }
{
    match e {
        client::Error::Io(kind) => Some(*kind),
        client::Error::Read(read::Error::Io(kind)) => Some(*kind),
        _ => None,
    }
}

/// The kind in an error of the reader of refs.
pub(crate) fn parse_kind(e: &parse::Error) -> Option<ErrorKind>
    ensures { result ≡ parse_kind e.now }
{
    match e {
        parse::Error::Io(kind) => Some(*kind),
        _ => None,
    }
}

/// The kind in an error of the reader of responses.
pub(crate) fn answer_kind(e: &response::Error) -> Option<ErrorKind>
    ensures { result ≡ answer_kind e.now }
{
    match e {
        response::Error::Io(kind) => Some(*kind),
        response::Error::Transport(e) => client_kind(e),
        _ => None,
    }
}

/// The kind in an error of a pack's consumer.
pub(crate) fn pack_kind(e: &PackError) -> Option<ErrorKind>
    ensures { result ≡ pack_kind e.now }
{
    match e {
        PackError::Read(read::Error::Io(kind)) => Some(*kind),
        _ => None,
    }
}

/// The error for a feature that the server doesn't offer.
pub(crate) fn missing(alloc: Global, feature: &str) -> Error
    ensures { NamesMissing feature.now result }
{
    match String::from_str(alloc, feature) {
        Ok(feature) => Error::MissingFeature { feature },
        Err(_) => Error::Memory,
    }
}

// The error of a failed fetch, without a type of the caller's. `ShallowMemory` fails only when an allocation fails.
fn refusal<A: Drop, E: Into<Error>>(alloc: Global, e: FetchError<A, E>) -> Error
    ensures { IsReportOf E.converts e result }
{
    match e {
        FetchError::FetchResponse(e) => Error::Answer(e),
        FetchError::Negotiate(e) => Error::from(e),
        FetchError::Client(e) => Error::from(e),
        FetchError::MissingServerFeature {
            feature,
            description: _,
        } => missing(alloc, feature),
        FetchError::WriteShallowFile(_) => Error::Memory,
        FetchError::ReadShallowFile(_) => Error::Memory,
        FetchError::LockShallowFile(_) => Error::Memory,
        FetchError::RejectShallowRemote => Error::ShallowServer,
        FetchError::ConsumePack(e) => e.into(),
        FetchError::ReadRemainingBytes(e) => Error::Rest(e),
        FetchError::Memory => Error::Memory,
    }
}

/// The result of a fetch, without a type of the caller's.
pub(crate) fn report<A: Drop, E: Into<Error>>(
    alloc: Global,
    received: Result<Option<Outcome>, FetchError<A, E>>,
) -> Result<Option<Outcome>, Error>
    ensures { IsReportedResult E.converts received result }
{
    match received {
        Ok(outcome) => Ok(outcome),
        Err(e) => Err(refusal(alloc, e)),
    }
}
