//! The objects and refs of the repository that fetches, as git lists them.
ghost use Rattle.std.specs.Prelude.{◌≡◌, ◌≢◌, ◌<◌, ◌==◌, ◌++◌, [], length, true, is_some, option_map, Some, None, IfOk, IfErr, IfSome, OnOk, MatchResult};
ghost use Rattle.std.specs.FinMap as finite;
ghost use Rattle.std.specs.List.{position};
ghost use Rattle.gix_protocol.specs.Repository.{peeled_ids};
ghost use Rattle.gixp_fetch_common.specs.Tips.{HasTips};
ghost use Rattle.gixp_remote_session.specs.ListedObjects.{id_text, listed_object, listed_line, listed_objects, ErrorIsUnlisted, object_kind, with_commit, objects_of_list, refs_of_list};

use crate::error::Error;
use crate::pipes::REFS;
use crate::shell::{NOTHING, Shell};
use gix_protocol::fetch::negotiate::{ObjectKind, StoredObjects, StoredRefs};
use gix_protocol::transport::ObjectId;
use gixp_fetch_common::repository::{KnownRepository, tips_of};
use gixp_remote_rules::{
    Program, Question, ShellRequest, ShellTask, Start, question_argv, question_variables,
};
use gixp_utils::text_pieces;
use std::alloc::{AllocError, Global};
use std::fs;

// The offset of the first space.
fn find_space(line: &[u8]) -> Option<usize>
    ensures offset { result ≡ position (λ b. b == 32) line.now }
    ensures within { IfSome result (λ at. at < length line.now) }
{
    line.iter().position(|b| *b == b' ')
}

/// An object that git lists.
#[derive(Clone, Copy)]
pub(crate) struct ListedObject {
    pub(crate) id: ObjectId,
    pub(crate) is_commit: bool,
}

// The id in a line, and whether it is a commit. After the id of another object git prints a space
// and a name.
fn id_text(line: &[u8]) -> (&[u8], bool)
    ensures { (result.0.now, result.1) ≡ id_text line.now }
{
    match find_space(line) {
        Some(at) => (&line[..at], false),
        None => (line, true),
    }
}

// The object of a line.
fn listed_object(line: &[u8]) -> Result<ListedObject, Error>
    ensures { MatchResult result (λ s. listed_object (id_text line.now) ≡ Some s) (ErrorIsUnlisted (listed_object (id_text line.now))) }
{
    let (text, is_commit) = id_text(line);
    match ObjectId::from_hex(text) {
        Ok(id) => Ok(ListedObject { id, is_commit }),
        Err(_) => Err(Error::Other("the repository can't be read")),
    }
}

// Adds the object of a line, unless the line is empty.
fn add_listed(listed: &mut Vec<ListedObject>, line: &[u8]) -> Result<(), Error>
    ensures added { OnOk result (option_map (λ first. listed.old.items ++ first) (listed_line line.now) ≡ Some listed.new.items) }
    ensures unlisted { IfErr result (ErrorIsUnlisted (listed_line line.now)) }
{
    if !line.is_empty() {
        listed.push(listed_object(line)?)?;
    }
    Ok(())
}

/// The objects that git lists, one in each line.
pub(crate) fn listed_objects(alloc: Global, text: &[u8]) -> Result<Vec<ListedObject>, Error>
    ensures listed { IfOk result (λ listed. listed_objects text.now ≡ Some listed.items) }
    ensures unlisted { IfErr result (ErrorIsUnlisted (listed_objects text.now)) }
{
    let mut listed = Vec::new(alloc);
    let lines = text_pieces(alloc, text)?;
    'lines: for line in &lines {
        add_listed(&mut listed, line.as_bytes())?;
    }
    Ok(listed)
}

// The kind of a listed object. Any object that isn't a commit counts as a tag.
fn object_kind(is_commit: bool) -> ObjectKind
    ensures { result ≡ object_kind is_commit }
{
    if is_commit {
        ObjectKind::Commit
    } else {
        ObjectKind::Tag
    }
}

fn objects_of(alloc: Global, listed: &[ListedObject]) -> Result<StoredObjects, AllocError>
    ensures { IfOk result (λ objects. objects ≡ objects_of_list listed.now) }
{
    let mut objects = StoredObjects::new(alloc);
    'listed: for one in listed {
        objects.add(one.id, object_kind(one.is_commit))?;
    }
    Ok(objects)
}

// Adds a ref to a commit. Its name is the id.
fn add_ref(alloc: Global, refs: &mut StoredRefs, one: &ListedObject) -> Result<(), AllocError>
    ensures { OnOk result (refs.new ≡ with_commit refs.old one.now) }
{
    if one.is_commit {
        let name = Vec::from_slice(alloc, &one.id.to_hex())?;
        refs.add(name, one.id, one.id)?;
    }
    Ok(())
}

// A ref to each listed commit. The names have no meaning.
fn refs_of(alloc: Global, listed: &[ListedObject]) -> Result<StoredRefs, AllocError>
    ensures { IfOk result (λ refs. refs ≡ refs_of_list listed.now) }
{
    let mut refs = StoredRefs::new(alloc);
    'listed: for one in listed {
        add_ref(alloc, &mut refs, one)?;
    }
    Ok(refs)
}

/// A repository without objects and refs.
pub(crate) fn new_repository(alloc: Global, boundary: Vec<ObjectId>) -> KnownRepository
    ensures objects { result.objects ≡ finite.empty }
    ensures refs { result.refs ≡ [] }
    ensures tips { result.tips ≡ None }
    ensures boundary { result.boundary ≡ boundary }
{
    KnownRepository {
        objects: StoredObjects::new(alloc),
        refs: StoredRefs::new(alloc),
        tips: None,
        boundary,
    }
}

/// Starts the question about the refs. It has a pipe of its own, so nothing waits for it.
pub(crate) fn ask_refs(alloc: Global, shell: &mut Shell) -> Result<(), Error> {
    let argv = question_argv(alloc, Question::Refs)?;
    let variables = question_variables(alloc, &[])?;
    shell.send(&ShellRequest::Start(Start {
        task: ShellTask::Refs,
        program: Program::Git,
        input: NOTHING,
        output: REFS,
        variables: &variables,
        argv: &argv,
    }))
}

// The repository with the listed objects.
fn repository_of(
    alloc: Global,
    text: &[u8],
    boundary: Vec<ObjectId>,
) -> Result<KnownRepository, Error>
    ensures objects { IfOk result (λ r. option_map objects_of_list (listed_objects text.now) ≡ Some r.objects) }
    ensures refs { IfOk result (λ r. option_map (λ listed. peeled_ids (refs_of_list listed)) (listed_objects text.now) ≡ Some (peeled_ids r.refs)) }
    ensures known { IfOk result (λ r. is_some r.tips ≡ true) }
    ensures tips { IfOk result (λ r. IfSome r.tips (HasTips r.objects (peeled_ids r.refs))) }
    ensures boundary { IfOk result (λ r. r.boundary ≡ boundary) }
{
    let listed = listed_objects(alloc, text)?;
    let objects = objects_of(alloc, &listed)?;
    let mut refs = refs_of(alloc, &listed)?;
    let tips = Some(tips_of(alloc, &mut refs, &objects)?);
    Ok(KnownRepository {
        objects,
        refs,
        tips,
        boundary,
    })
}

// The repository with the listed objects, or without objects if git failed.
fn repository_by(
    alloc: Global,
    text: &[u8],
    status: u32,
    boundary: Vec<ObjectId>,
) -> Result<KnownRepository, Error>
    ensures objects { status ≡ 0 → IfOk result (λ r. option_map objects_of_list (listed_objects text.now) ≡ Some r.objects) }
    ensures refs { status ≡ 0 → IfOk result (λ r. option_map (λ listed. peeled_ids (refs_of_list listed)) (listed_objects text.now)
        ≡ Some (peeled_ids r.refs)) }
    ensures tips { IfOk result (λ r. IfSome r.tips (HasTips r.objects (peeled_ids r.refs))) }
    ensures failed { status ≢ 0 → IfOk result (λ r. (r.objects ≡ finite.empty) × (r.refs ≡ []) × (r.tips ≡ None)) }
    ensures boundary { IfOk result (λ r. r.boundary ≡ boundary) }
{
    if status == 0 {
        repository_of(alloc, text, boundary)
    } else {
        Ok(new_repository(alloc, boundary))
    }
}

/// The objects that the refs of the repository point to, as git was asked. git fails if a tag
/// points to a missing object. Then no objects are known.
pub(crate) fn read_repository(
    rt: &HostRuntime,
    shell: &mut Shell,
    boundary: Vec<ObjectId>,
) -> Result<KnownRepository, Error>
    ensures boundary { IfOk result (λ r. r.boundary ≡ boundary) }
{
    let text = fs::read(rt, REFS)?;
    let status = shell.status(ShellTask::Refs)?;
    repository_by(rt.alloc(), &text, status, boundary)
}
