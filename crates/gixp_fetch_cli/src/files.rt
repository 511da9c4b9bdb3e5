//! The files that the command line names: the texts of the repository, the questions about objects, and the boundary.
ghost use Rattle.std.specs.Prelude.{◌≡◌, [], unwrap_or, option_map, is_some, IfOk, IfSome};
ghost use Rattle.gix_protocol.specs.Repository.{peeled_ids};
ghost use Rattle.gixp_fetch_common.specs.Tips.{HasTips};
ghost use Rattle.gixp_fetch_cli.specs.UnreadFiles.{FailureIsTextError, FailureIsUnanswered};

use crate::options::{Files, Questions};
use gix_protocol::fetch::negotiate::{StoredObjects, StoredRefs, TextError};
use gix_protocol::fetch::{RefMap, shallow_ids, shallow_text};
use gix_protocol::transport::ObjectId;
use gixp_fetch_common::failure::Failure;
use gixp_fetch_common::repository::{KnownRepository, tips_of};
use gixp_fetch_common::{BatchCheck, BatchCheckError, Haves, named_ids};
use std::alloc::Global;
use std::fs;
use std::fs::{File, OpenOptions};
use std::io::{BufReader, BufWriter, ErrorKind};

// The bytes of a file, or none where no file is named.
fn text_in(rt: &HostRuntime, path: Option<&str>) -> Result<Vec<u8>, Failure> {
    let Some(path) = path else {
        return Ok(Vec::new(rt.alloc()));
    };
    fs::read(rt, path).map_err(|e| Failure::of_file(rt.alloc(), path, e.kind()))
}

// The boundary in a file. A missing file is an empty boundary.
fn boundary_in(rt: &HostRuntime, path: Option<&str>) -> Result<Vec<ObjectId>, Failure> {
    let alloc = rt.alloc();
    let Some(path) = path else {
        return Ok(Vec::new(alloc));
    };
    let text = match fs::read(rt, path) {
        Ok(text) => text,
        Err(e) => match e.kind() {
            ErrorKind::NotFound => Vec::new(alloc),
            kind => return Err(Failure::of_file(alloc, path, kind)),
        },
    };
    shallow_ids(alloc, &text).map_err(|_| Failure::of_file(alloc, path, ErrorKind::InvalidData))
}

// The failure of a text.
fn text_failure(alloc: Global, path: Option<&str>, e: TextError) -> Failure
    ensures { FailureIsTextError (unwrap_or (option_map (λ w. w.now) path.entry) []) e result }
{
    match e {
        TextError::Line(line) => Failure::of_line(alloc, path.unwrap_or(""), line),
        TextError::Memory => Failure::Memory,
    }
}

// The objects of both texts, without the commits where the negotiator reads their text.
fn objects_in(rt: &HostRuntime, files: &Files<'_>, haves: Haves) -> Result<StoredObjects, Failure> {
    let alloc = rt.alloc();
    let mut objects = StoredObjects::new(alloc);
    if haves != Haves::InOrder {
        let text = text_in(rt, files.commits)?;
        objects
            .read_commits(alloc, &text)
            .map_err(|e| text_failure(alloc, files.commits, e))?;
    }
    let text = text_in(rt, files.objects)?;
    objects
        .read_kinds(alloc, &text)
        .map_err(|e| text_failure(alloc, files.objects, e))?;
    Ok(objects)
}

fn refs_in(rt: &HostRuntime, path: Option<&str>) -> Result<StoredRefs, Failure> {
    let alloc = rt.alloc();
    let mut refs = StoredRefs::new(alloc);
    let text = text_in(rt, path)?;
    refs.read_refs(alloc, &text)
        .map_err(|e| text_failure(alloc, path, e))?;
    Ok(refs)
}

/// Reads the texts of the repository, but not the commits where they are offered in the order of their text.
///
/// # Errors
///
/// A file that can't be read, or a line of one that isn't as git writes it; or an allocation failure.
pub fn read_repository(
    rt: &HostRuntime,
    files: &Files<'_>,
    haves: Haves,
) -> Result<KnownRepository, Failure>
    ensures known { IfOk result (λ r. is_some r.tips ≡ is_some files.now.refs) }
    ensures tips { IfOk result (λ r. IfSome r.tips (HasTips r.objects (peeled_ids r.refs))) }
{
    let objects = objects_in(rt, files, haves)?;
    let mut refs = refs_in(rt, files.refs)?;
    let tips = match files.refs {
        Some(_) => Some(tips_of(rt.alloc(), &mut refs, &objects)?),
        None => None,
    };
    Ok(KnownRepository {
        objects,
        refs,
        tips,
        boundary: boundary_in(rt, files.shallow)?,
    })
}

/// Asks a program which of the objects that a map names the repository has, and adds these. The file of the questions is opened
/// first, and closed after the last answer.
pub fn ask_objects(
    rt: &HostRuntime,
    questions: Questions<'_>,
    map: &RefMap,
    objects: &mut StoredObjects,
) -> Result<(), Failure> {
    let alloc = rt.alloc();
    let ids: Vec<ObjectId> = named_ids(alloc, &map.mappings)?.into_iter().collect(alloc)?;
    let asks = OpenOptions::new()
        .write(true)
        .open(rt, questions.ask)
        .map_err(|e| Failure::of_file(alloc, questions.ask, e.kind()))?;
    let answers = File::open(rt, questions.answers).map_err(|e| Failure::of_file(
        alloc,
        questions.answers,
        e.kind(),
    ))?;
    let asks = BufWriter::new(alloc, asks).map_err(|_| Failure::Memory)?;
    let answers = BufReader::new(alloc, answers).map_err(|_| Failure::Memory)?;
    BatchCheck::new(alloc, asks, answers)
        .ask(&ids, objects)
        .map_err(|e| questions_failure(alloc, questions, e))
}

// The failure of a batch check.
fn questions_failure(alloc: Global, questions: Questions<'_>, e: BatchCheckError) -> Failure
    ensures { FailureIsUnanswered questions.entry.ask.now questions.entry.answers.now e result }
{
    match e {
        BatchCheckError::Ask(kind) => Failure::of_file(alloc, questions.ask, kind),
        BatchCheckError::Answer(kind) => Failure::of_file(alloc, questions.answers, kind),
        BatchCheckError::Line(line) => Failure::of_line(alloc, questions.answers, line),
        BatchCheckError::Memory => Failure::Memory,
    }
}

/// Writes the new boundary to the path with `.new` appended, if a path is named.
pub fn write_boundary(
    rt: &HostRuntime,
    path: Option<&str>,
    new: &[ObjectId],
) -> Result<(), Failure> {
    let Some(path) = path else {
        return Ok(());
    };
    let alloc = rt.alloc();
    let text = shallow_text(alloc, new)?;
    let path = format!(in alloc; "{path}.new")?;
    fs::write(rt, path.as_str(), text.as_slice()).map_err(|e| Failure::of_file(
        alloc,
        path.as_str(),
        e.kind(),
    ))
}
