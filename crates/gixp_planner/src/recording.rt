//! A recorded session in a folder: the server's answers, and the haves to offer.
ghost use Rattle.std.specs.Prelude.{◌≡◌, ◌⊎◌, IfErr};
ghost use Rattle.gixp_planner.specs.Refusal.{FileIsUnread, IsNoHave};
ghost use Rattle.gixp_planner.specs.Recorded.{file_bytes, ReadsBodies, ReadsHavesOf, IsBodiesOrError};

use crate::error::PlanError;
use crate::haves::parse_haves;
use gix_protocol::transport::{Body, ObjectId};
use std::alloc::Global;
use std::io::ErrorKind;
use std::{fs, io};

// The bytes of a file, none where it doesn't exist, or why it can't be read.
fn file_bytes(read: io::Result<Vec<u8>>) -> Result<Option<Vec<u8>>, ErrorKind>
    ensures { result ≡ file_bytes read }
{
    match read {
        Ok(bytes) => Ok(Some(bytes)),
        Err(e) => match e.kind() {
            ErrorKind::NotFound => Ok(None),
            kind => Err(kind),
        },
    }
}

fn read_file(rt: &HostRuntime, folder: &str, name: &str) -> Result<Option<Vec<u8>>, ErrorKind> {
    match format!(in rt.alloc(); "{folder}/{name}") {
        Ok(path) => file_bytes(fs::read(rt, path.as_str())),
        Err(_) => Err(ErrorKind::OutOfMemory),
    }
}

fn read_body(rt: &HostRuntime, folder: &str, number: u64) -> Result<Option<Vec<u8>>, ErrorKind> {
    match number.to_string(rt.alloc()) {
        Ok(name) => read_file(rt, folder, name.as_str()),
        Err(_) => Err(ErrorKind::OutOfMemory),
    }
}

// The bodies of the files from number 0 on, up to the first that doesn't exist.
fn bodies_of<F: Fn(u64) -> Result<Option<Vec<u8>>, ErrorKind>>(
    alloc: Global,
    file: F,
) -> Result<Vec<Body>, ErrorKind>
    requires { F.IsAlwaysCallable file }
    ensures { ReadsBodies (F.post file) result }
{
    let mut bodies = Vec::new(alloc);
    for number in 0..u64::MAX {
        let bytes = match file(number) {
            Ok(Some(bytes)) => bytes,
            Ok(None) => return Ok(bodies),
            Err(kind) => return Err(kind),
        };
        match bodies.push(Body::Bytes(bytes)) {
            Ok(()) => {}
            Err(_) => return Err(ErrorKind::OutOfMemory),
        }
    }
    Err(ErrorKind::OutOfMemory)
}

fn bodies_or_error(read: Result<Vec<Body>, ErrorKind>) -> Result<Vec<Body>, PlanError>
    ensures bodies { IsBodiesOrError read result }
    ensures unread { IfErr result FileIsUnread }
{
    match read {
        Ok(bodies) => Ok(bodies),
        Err(kind) => Err(PlanError::device(kind)),
    }
}

/// The bodies of a folder: the files `0`, `1`, `2` and so on, up to the first that doesn't exist.
///
/// # Errors
///
/// `file Io` where one exists and can't be read, `file Memory` on an allocation failure.
pub fn read_bodies(rt: &HostRuntime, folder: &str) -> Result<Vec<Body>, PlanError>
    ensures { IfErr result FileIsUnread }
{
    bodies_or_error(bodies_of(rt.alloc(), |number| { read_body(rt, folder, number) }))
}

fn haves_of(
    alloc: Global,
    file: Result<Option<Vec<u8>>, ErrorKind>,
) -> Result<Vec<ObjectId>, PlanError>
    ensures { ReadsHavesOf file result }
{
    match file {
        Ok(Some(text)) => parse_haves(alloc, &text),
        Ok(None) => parse_haves(alloc, b""),
        Err(kind) => Err(PlanError::device(kind)),
    }
}

/// The ids of the folder's file `haves`, none where it doesn't exist.
///
/// # Errors
///
/// `file Io` where it exists and can't be read, `file Memory` on an allocation failure, else as `parse_haves`.
pub fn read_haves(rt: &HostRuntime, folder: &str) -> Result<Vec<ObjectId>, PlanError>
    ensures { IfErr result (λ e. FileIsUnread e ⊎ IsNoHave e) }
{
    haves_of(rt.alloc(), read_file(rt, folder, "haves"))
}
