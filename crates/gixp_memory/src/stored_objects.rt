//! The objects of a repository in memory, filled from lists or from texts.
ghost use Rattle.std.specs.Prelude.{◌≡◌, Some, None, IfOk, IfErr, IfSome, OnOk, OnErr, is_some, option_map, true, false};
ghost use Rattle.std.specs.FinMap as finite;
ghost use Rattle.gixp_graph.specs.Object.{commit_of};
ghost use Rattle.gixp_graph.specs.declared.objects.ObjectError.TheVariants.{Memory};
ghost use Rattle.gixp_utils.specs.Lines.{line_words};
ghost use Rattle.gixp_memory.specs.Memory.{kind_answered, answer_value};
ghost use Rattle.gixp_memory.specs.Text.{FillsByText};
ghost use Rattle.gixp_memory.specs.Repository.{with_commit, with_new, with_kind, with_id, commit_line, kind_line, commit_of_words, kind_of_words, named_kind};
ghost use Rattle.gixp_memory.specs.Repository.{entry_value, answered_kind, answer_of_words, answer_to, with_answer};

use crate::texts::{TextError, named_id, named_ids, named_kind, seconds};
use gixp_graph::{CommitData, Find, ObjectError, ObjectKind};
use gixp_hash::ObjectId;
use gixp_utils::{line_words, text_lines, without_line_end};
use std::alloc::{AllocError, Global};
use std::collections::BTreeMap;
use std::marker::Model;

/// An object of a repository in memory.
#[derive(Drop)]
pub(crate) struct StoredObject {
    /// None where the kind isn't known.
    pub kind: Option<ObjectKind>,
    /// Present where the object is a commit.
    pub commit: Option<CommitData>,
}

/// The objects of a repository in memory, by id: the kind of each, and the time and parents of commits.
///
/// They are read over a shared reference, so `Shared` implements `Objects` over them for a graph and for
/// `NegotiateContext`. The parents of a commit need not exist: a look-up of one then finds none, as in a shallow repository.
/// Parents may even lead back to a commit, which can't happen in git. A walk visits each commit once.
#[derive(Drop)]
pub struct StoredObjects {
    objects: BTreeMap<ObjectId, StoredObject>,
}

impl Model for StoredObjects {
    ghost use Rattle.gixp_graph.specs.Object.{Objects, coded_object};
    ghost use Rattle.gixp_hash.specs.ObjectId.{coded_id};
    ghost use Rattle.std.specs.FinMap as map;

    ghost Value = { Objects };

    ghost coded = { map.code coded_id coded_object };

    ghost use Rattle.gixp_memory.specs.Memory.{objects_of};

    ghost view = { λ a. objects_of a.objects.entries };
}

impl StoredObjects {
    /// A repository without objects.
    pub fn new(alloc: Global) -> StoredObjects
        ensures { result ≡ finite.empty }
    {
        StoredObjects {
            objects: BTreeMap::new(alloc),
        }
    }

    fn add_object(
        &mut self,
        id: ObjectId,
        kind: Option<ObjectKind>,
        commit: Option<CommitData>,
    ) -> Result<(), AllocError>
        ensures ok { OnOk result (self.new ≡ finite.insert self.old id
            (record { kind = kind; commit = option_map commit_of commit })) }
        ensures err { OnErr result (self.new ≡ self.old) }
    {
        match self.objects.insert(id, StoredObject { kind, commit }) {
            Ok(_) => Ok(()),
            Err(_) => Err(AllocError),
        }
    }

    // Adds an object, unless one with this id exists.
    fn put_new(&mut self, id: ObjectId, kind: Option<ObjectKind>) -> Result<(), AllocError>
        ensures ok { OnOk result (self.new ≡ with_new self.old id kind) }
        ensures err { OnErr result (self.new ≡ self.old) }
    {
        if self.has_object(&id) {
            return Ok(());
        }
        self.add_object(id, kind, None)
    }

    /// Adds an object of a kind. An existing object with this id stays the same.
    ///
    /// # Errors
    ///
    /// Only an allocation failure; nothing is added then.
    pub fn add(&mut self, id: ObjectId, kind: ObjectKind) -> Result<(), AllocError>
        ensures ok { OnOk result (self.new ≡ with_kind self.old id kind) }
        ensures err { OnErr result (self.new ≡ self.old) }
    {
        self.put_new(id, Some(kind))
    }

    /// Adds an object whose kind isn't known. An existing object with this id stays the same.
    ///
    /// # Errors
    ///
    /// Only an allocation failure; nothing is added then.
    pub fn add_id(&mut self, id: ObjectId) -> Result<(), AllocError>
        ensures ok { OnOk result (self.new ≡ with_id self.old id) }
        ensures err { OnErr result (self.new ≡ self.old) }
    {
        self.put_new(id, None)
    }

    /// Adds a commit. It replaces an existing object with this id.
    ///
    /// # Errors
    ///
    /// Only an allocation failure; nothing is added then.
    pub fn add_commit(&mut self, id: ObjectId, commit: CommitData) -> Result<(), AllocError>
        ensures ok { OnOk result (self.new ≡ with_commit self.old id (commit_of commit)) }
        ensures err { OnErr result (self.new ≡ self.old) }
    {
        self.add_object(id, Some(ObjectKind::Commit), Some(commit))
    }

    // Adds the commit of a line. Returns false where the line isn't a commit's.
    fn add_commit_line(&mut self, alloc: Global, line: &[u8]) -> Result<bool, AllocError>
        ensures read { IfOk result (λ is_read. is_read ≡ true → commit_line self.old line.now ≡ Some self.new) }
        ensures unread { IfOk result (λ is_read. is_read ≡ false → (commit_line self.old line.now ≡ None) × (self.new ≡ self.old)) }
        ensures err { OnErr result (self.new ≡ self.old) }
    {
        let Some((id, commit)) = commit_in(alloc, line)? else {
            return Ok(false);
        };
        self.add_commit(id, commit)?;
        Ok(true)
    }

    // Adds the object of a line. Returns false where the line isn't an object's.
    fn add_kind_line(&mut self, alloc: Global, line: &[u8]) -> Result<bool, AllocError>
        ensures read { IfOk result (λ is_read. is_read ≡ true → kind_line self.old line.now ≡ Some self.new) }
        ensures unread { IfOk result (λ is_read. is_read ≡ false → (kind_line self.old line.now ≡ None) × (self.new ≡ self.old)) }
        ensures err { OnErr result (self.new ≡ self.old) }
    {
        let Some((id, kind)) = kind_in(alloc, line)? else {
            return Ok(false);
        };
        self.add(id, kind)?;
        Ok(true)
    }

    /// Adds the commits of the output of `git rev-list --timestamp --parents`. Each line has the committer's time in
    /// seconds since the epoch, the id, and the ids of the parents, separated by single spaces. Where an id has two lines, the
    /// later one counts.
    ///
    /// # Errors
    ///
    /// The number of the first line that isn't of this form, or an allocation failure. The commits of the lines before
    /// are added.
    pub fn read_commits(&mut self, alloc: Global, text: &[u8]) -> Result<(), TextError>
        ensures { FillsByText commit_line self.old text.now self.new result }
    {
        let Ok(lines) = text_lines(alloc, text) else {
            return Err(TextError::Memory);
        };
        let mut number = 0;
        for line in &lines {
            match self.add_commit_line(alloc, line.as_bytes()) {
                Ok(true) => number += 1,
                Ok(false) => return Err(TextError::Line(number + 1)),
                Err(_) => return Err(TextError::Memory),
            }
        }
        Ok(())
    }

    /// Adds the objects of the output of `git cat-file --batch-check` with the format `%(objectname) %(objecttype)`:
    /// lines of an id, a space and a kind. An existing object stays the same, so commits may be read before or after.
    ///
    /// # Errors
    ///
    /// The number of the first line that isn't of this form, or an allocation failure. The objects of the lines before
    /// are added.
    pub fn read_kinds(&mut self, alloc: Global, text: &[u8]) -> Result<(), TextError>
        ensures { FillsByText kind_line self.old text.now self.new result }
    {
        let Ok(lines) = text_lines(alloc, text) else {
            return Err(TextError::Memory);
        };
        let mut number = 0;
        for line in &lines {
            match self.add_kind_line(alloc, line.as_bytes()) {
                Ok(true) => number += 1,
                Ok(false) => return Err(TextError::Line(number + 1)),
                Err(_) => return Err(TextError::Memory),
            }
        }
        Ok(())
    }

    /// Adds the object that a line of `git cat-file --batch-check` reports for an id, where it reports one. The line,
    /// with or without its LF, has the id, a space, and `missing` or the object's kind; a space and the size may follow the
    /// kind. An existing object stays the same. Returns whether the line is about this id; if not, nothing is added.
    ///
    /// # Errors
    ///
    /// Only an allocation failure; nothing is added then.
    pub fn add_answer(
        &mut self,
        alloc: Global,
        id: &ObjectId,
        line: &[u8],
    ) -> Result<bool, AllocError>
        ensures read { IfOk result (λ is_read. is_read ≡ true
            → IfSome (answer_to id.now line.now) (λ kind. self.new ≡ with_answer self.old id.now kind)) }
        ensures answer { IfOk result (λ is_read. is_read ≡ is_some (answer_to id.now line.now)) }
        ensures unread { IfOk result (λ is_read. is_read ≡ false → self.new ≡ self.old) }
        ensures err { OnErr result (self.new ≡ self.old) }
    {
        match answer_to(alloc, id, line)? {
            Some(Answered::Kind(kind)) => {
                self.add(*id, kind)?;
                Ok(true)
            }
            Some(Answered::Missing) => Ok(true),
            None => Ok(false),
        }
    }
}

// What `git cat-file` reports of an object.
#[derive(Clone, Copy)]
enum Answered {
    // The object exists and has this kind.
    Kind(ObjectKind),
    Missing,
}

// Reads the word after the id.
fn answered_kind(word: &[u8]) -> Option<Answered>
    ensures { option_map kind_answered result ≡ answered_kind word.now }
{
    if word == b"missing".as_slice() {
        return Some(Answered::Missing);
    }
    sized_kind(word)
}

// Reads the word after the id where a size follows.
fn sized_kind(word: &[u8]) -> Option<Answered>
    ensures { option_map kind_answered result ≡ option_map (λ kind. Some kind) (named_kind word.now) }
{
    match named_kind(word) {
        Some(kind) => Some(Answered::Kind(kind)),
        None => None,
    }
}

// The id of a line of `git cat-file`, and what the line reports.
fn answer_in(alloc: Global, line: &[u8]) -> Result<Option<(ObjectId, Answered)>, AllocError>
    ensures { IfOk result (λ found. option_map answer_value found ≡ answer_of_words (line_words line.now)) }
{
    let Ok(words) = line_words(alloc, line) else {
        return Err(AllocError);
    };
    let (id, kind) = match words.as_slice() {
        [id, kind] => (id, answered_kind(kind.as_bytes())),
        [id, kind, _size] => (id, sized_kind(kind.as_bytes())),
        _ => return Ok(None),
    };
    let (Some(id), Some(kind)) = (named_id(id.as_bytes()), kind) else {
        return Ok(None);
    };
    Ok(Some((id, kind)))
}

// What the line reports of this id. None where it isn't about this id.
fn answer_to(alloc: Global, id: &ObjectId, line: &[u8]) -> Result<Option<Answered>, AllocError>
    ensures { IfOk result (λ found. option_map kind_answered found ≡ answer_to id.now line.now) }
{
    match answer_in(alloc, without_line_end(line))? {
        Some((answered, kind)) => {
            if answered.as_bytes() == id.as_bytes() {
                Ok(Some(kind))
            } else {
                Ok(None)
            }
        }
        None => Ok(None),
    }
}

// The commit of a line, with its id.
fn commit_in(alloc: Global, line: &[u8]) -> Result<Option<(ObjectId, CommitData)>, AllocError>
    ensures { IfOk result (λ found. option_map entry_value found ≡ commit_of_words (line_words line.now)) }
{
    let Ok(words) = line_words(alloc, line) else {
        return Err(AllocError);
    };
    let [time, id, parents @ ..] = words.as_slice() else {
        return Ok(None);
    };
    let (Some(time), Some(id)) = (seconds(time.as_bytes()), named_id(id.as_bytes())) else {
        return Ok(None);
    };
    let Some(parents) = named_ids(alloc, parents)? else {
        return Ok(None);
    };
    Ok(Some((id, CommitData { time, parents })))
}

// The object of a line, with its id.
fn kind_in(alloc: Global, line: &[u8]) -> Result<Option<(ObjectId, ObjectKind)>, AllocError>
    ensures { IfOk result (λ found. found ≡ kind_of_words (line_words line.now)) }
{
    let Ok(words) = line_words(alloc, line) else {
        return Err(AllocError);
    };
    let [id, kind] = words.as_slice() else {
        return Ok(None);
    };
    let (Some(id), Some(kind)) = (named_id(id.as_bytes()), named_kind(kind.as_bytes())) else {
        return Ok(None);
    };
    Ok(Some((id, kind)))
}

fn copied(alloc: Global, commit: &Option<CommitData>) -> Result<Option<CommitData>, ObjectError>
    ensures found { IfOk result (λ copy. option_map commit_of copy ≡ option_map commit_of commit.now) }
    ensures failed { IfErr result (λ e. e ≡ Memory) }
{
    match commit {
        Some(commit) => {
            let time = commit.time;
            let parents = Vec::from_slice(alloc, commit.parents.as_slice())?;
            Ok(Some(CommitData { time, parents }))
        }
        None => Ok(None),
    }
}

impl Find for StoredObjects {
    ghost use Rattle.gixp_graph.specs.declared.objects.ObjectError.TheVariants.{Memory};

    ghost contents = { λ s. s };

    ghost refuses = { λ _ _ e. e ≡ Memory };

    fn has_object(&self, id: &ObjectId) -> bool {
        self.objects.contains_key(id)
    }

    fn find_kind(&self, id: &ObjectId) -> Option<ObjectKind> {
        match self.objects.get(id) {
            Some(object) => object.kind,
            None => None,
        }
    }

    fn find_commit(&self, alloc: Global, id: &ObjectId) -> Result<Option<CommitData>, ObjectError> {
        match self.objects.get(id) {
            Some(object) => copied(alloc, &object.commit),
            None => Ok(None),
        }
    }
}
