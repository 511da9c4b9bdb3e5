//! `gixp_watch FROM TO FOLDER` fetches one commit of each branch. The files FROM and TO are the two ends of a server, such as those
//! of `git upload-pack`.
//!
//! The folder has the repository: `objects` and `refs`, in the forms that [`SortedObjects::read`] and [`SortedRefs::read`] read,
//! and `shallow`. A missing file counts as empty. The program writes the pack into the file `pack` there, then the new boundary
//! into `shallow`. Last, it prints the changes of refs as commands for `git update-ref --stdin`. If the fetch fails, the folder is
//! unchanged, except for a part of a pack in `incoming`, and nothing is printed. The exit status is [`exit_status`] of a failed
//! fetch, 1 if a file can't be read or written, and 64 for a wrong command line.
#![tactic(auto)]

use gix_protocol::client::{
    Boundary, Error, LocalChange, RemoteLines, Repository, Request, Session, local_changes,
    over_streams,
};
use gix_protocol::fetch::{RefMap, Shallow, ShallowError, Tags, shallow_ids, shallow_text};
use gixp_watcher::{LimitedPack, ReadError, SortedObjects, SortedRefs, exit_status};
use std::alloc::{AllocError, AllocFailed, Global};
use std::fs::{File, OpenOptions};
use std::io::{ErrorKind, Write};
use std::num::NonZeroU32;
use std::process::ExitCode;
use std::{env, fs, io};

// The limit of a pack's bytes.
const MOST: usize = 1 << 30;

/// The errors of the program.
#[derive(Debug, Drop)]
enum Failure {
    Usage,
    File(ErrorKind),
    Text(ReadError),
    Boundary(ShallowError),
    Fetch(Error),
}

impl From<io::Error> for Failure {
    fn from(e: io::Error) -> Failure {
        Failure::File(e.kind())
    }
}

impl From<ReadError> for Failure {
    fn from(e: ReadError) -> Failure {
        Failure::Text(e)
    }
}

impl From<ShallowError> for Failure {
    fn from(e: ShallowError) -> Failure {
        Failure::Boundary(e)
    }
}

impl From<Error> for Failure {
    fn from(e: Error) -> Failure {
        Failure::Fetch(e)
    }
}

impl From<AllocError> for Failure {
    fn from(e: AllocError) -> Failure {
        Failure::Fetch(Error::from(e))
    }
}

impl<T: Drop> From<AllocFailed<T>> for Failure {
    fn from(e: AllocFailed<T>) -> Failure {
        Failure::Fetch(Error::from(e))
    }
}

// The bytes of a file, empty if the file doesn't exist.
fn read_file(rt: &HostRuntime, folder: &str, name: &str) -> Result<Vec<u8>, Failure> {
    let path = format!(in rt.alloc(); "{folder}/{name}")?;
    match fs::read(rt, path.as_str()) {
        Ok(text) => Ok(text),
        Err(e) if e.kind() == ErrorKind::NotFound => Ok(Vec::new(rt.alloc())),
        Err(e) => Err(Failure::from(e)),
    }
}

// Requests one commit of each branch, and no tags.
fn request(alloc: Global) -> Result<Request, Error> {
    let mut request = Request::new(alloc);
    request.add_refspec(b"+refs/heads/*:refs/remotes/origin/*")?;
    request.tags = Tags::None;
    request.shallow = Shallow::DepthAtRemote(NonZeroU32::MIN);
    Ok(request)
}

// The command of `git update-ref --stdin` for a change, empty if the ref is unchanged.
fn command(alloc: Global, change: &LocalChange) -> Result<String, AllocError> {
    match change {
        LocalChange::Made { name, id } => format!(in alloc; "create {name} {id}\n"),
        LocalChange::Moved { name, old, new } => format!(in alloc; "update {name} {new} {old}\n"),
        LocalChange::Removed { name, old } => format!(in alloc; "delete {name} {old}\n"),
        LocalChange::Kept { .. } => Ok(String::new(alloc)),
    }
}

// Stores the pack, then the boundary.
fn keep(
    rt: &HostRuntime,
    folder: &str,
    has_pack: bool,
    boundary: &Boundary,
) -> Result<(), Failure> {
    let alloc = rt.alloc();
    let incoming = format!(in alloc; "{folder}/incoming")?;
    if has_pack {
        let pack = format!(in alloc; "{folder}/pack")?;
        fs::rename(rt, incoming.as_str(), pack.as_str())?;
    } else {
        fs::remove_file(rt, incoming.as_str())?;
    }
    let shallow = format!(in alloc; "{folder}/shallow")?;
    if !boundary.ids.is_empty() {
        let lock = format!(in alloc; "{shallow}.lock")?;
        fs::write(rt, lock.as_str(), shallow_text(alloc, &boundary.ids)?)?;
        fs::rename(rt, lock.as_str(), shallow.as_str())?;
    } else if fs::exists(rt, shallow.as_str())? {
        fs::remove_file(rt, shallow.as_str())?;
    }
    Ok(())
}

// Fetches into the folder. Returns the map and the refs before the fetch.
fn fetch(
    rt: &HostRuntime,
    from: &str,
    to: &str,
    folder: &str,
) -> Result<(RefMap, SortedRefs), Failure> {
    let alloc = rt.alloc();
    let objects = SortedObjects::read(alloc, &read_file(rt, folder, "objects")?)?;
    let mut refs = SortedRefs::read(alloc, &read_file(rt, folder, "refs")?)?;
    let boundary = shallow_ids(alloc, &read_file(rt, folder, "shallow")?)?;
    let request = request(alloc)?;
    let to = OpenOptions::new().write(true).open(rt, to)?; // before the other: a server waits for this one
    let from = File::open(rt, from)?;
    let transport = over_streams(alloc, from, to)?;
    let lines = RemoteLines::new(alloc, rt.stderr());
    let mut session = Session::open(alloc, transport, "watch/1.0", lines)?;
    let map = session.map(&request)?;
    let incoming = format!(in alloc; "{folder}/incoming")?;
    let mut pack = LimitedPack::new(alloc, fs::create(rt, incoming.as_str())?, MOST);
    let repository = Repository {
        objects: &objects,
        refs: &mut refs,
        boundary: &boundary,
    };
    let fetched = session.fetch(&map, repository, &request, &mut pack)?;
    session.close()?;
    pack.into_writer().sync_all()?;
    keep(rt, folder, fetched.has_pack(), &fetched.boundary)?;
    Ok((map, refs))
}

// Fetches, and prints the changes of refs.
fn watch(rt: &HostRuntime, words: &[String]) -> Result<(), Failure> {
    let alloc = rt.alloc();
    let [_, from, to, folder] = words else {
        return Err(Failure::Usage);
    };
    let (map, refs) = fetch(rt, from.as_str(), to.as_str(), folder.as_str())?;
    let mut output = io::writer(rt);
    for change in &local_changes(alloc, &map, &refs)? {
        output.write_all(command(alloc, change)?.as_bytes())?;
    }
    Ok(output.flush()?)
}

fn status(failure: &Failure) -> u8 {
    match failure {
        Failure::Usage => 64,
        Failure::File(_) | Failure::Text(_) | Failure::Boundary(_) => 1,
        Failure::Fetch(e) => exit_status(e),
    }
}

// Runs the command line.
fn run(rt: &HostRuntime) -> Result<(), Failure> {
    let mut words = Vec::new(rt.alloc());
    for word in env::args(rt)? {
        words.push(word)?;
    }
    watch(rt, &words)
}

fn main(rt: HostRuntime) -> ExitCode {
    match run(&rt) {
        Ok(()) => ExitCode::SUCCESS,
        Err(failure) => {
            let _ = match &failure {
                Failure::Fetch(e) => eprintln!(rt; "gixp_watch: {e}"),
                other => eprintln!(rt; "gixp_watch: {other:?}"),
            };
            ExitCode::from(status(&failure))
        }
    }
}
