//! One request for a pack, up to the start of the pack.
ghost use Rattle.std.specs.Prelude.{IfOk};
ghost use Rattle.gixp_examples.specs.OneCommit.{FetchesOne};

use gix_protocol::command::{Command, CommandTable};
use gix_protocol::fetch::{Arguments, Response, response};
use gix_protocol::transport::{ObjectId, Service, Transport, client};
use std::alloc::{AllocError, Global};

/// The error of a fetch.
#[derive(Debug, Drop)]
pub enum Error {
    /// The handshake or the request failed.
    Transport(client::Error),
    /// The response can't be read.
    Answer(response::Error),
}

impl From<client::Error> for Error {
    fn from(e: client::Error) -> Error {
        Error::Transport(e)
    }
}

impl From<response::Error> for Error {
    fn from(e: response::Error) -> Error {
        Error::Answer(e)
    }
}

impl From<AllocError> for Error {
    fn from(e: AllocError) -> Error {
        Error::Transport(client::Error::from(e))
    }
}

/// Requests one commit, and reads the response up to the pack. Returns whether there is a pack. The caller then reads the pack from
/// the transport, by [`gix_protocol::transport::WithSidebands`].
pub fn fetch_one<T: Transport>(
    alloc: Global,
    transport: &mut T,
    id: &ObjectId,
) -> Result<bool, Error>
    ensures { IfOk result (FetchesOne id.now (T.reading transport.old) (T.reading transport.new)) }
{
    let found = transport.handshake(alloc, Service::UploadPack, &[])?;
    let table = CommandTable::git();
    let version = found.actual_protocol;
    let features = table.default_features(alloc, Command::Fetch, version, &found.capabilities)?;
    let mut arguments = Arguments::new(alloc, &table, version, features)?;
    arguments.want(id)?;
    arguments.send(transport, true)?;
    let answer = Response::from_line_reader(alloc, version, transport, true, false)?;
    Ok(answer.has_pack())
}
