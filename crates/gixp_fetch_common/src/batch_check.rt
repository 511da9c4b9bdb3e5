//! Which objects a repository has, as a program such as `git cat-file --batch-check` answers.
ghost use Rattle.std.specs.Prelude.{◌≡◌, ◌∷◌, ◌++◌, ◌||◌, [], length, IfOk, IfErr, OnOk, OnErr};
ghost use Rattle.std.specs.BTreeSet.{contains};
ghost use Rattle.std.specs.Option.{option_copied};
ghost use Rattle.std.specs.Io.KnownBytes.{Appends, Consumes};
ghost use Rattle.std.specs.Io.Buffered.{writer_buffer, writer_contents};
ghost use Rattle.gixp_fetch_common.specs.declared.batch_check.BatchCheckError.TheVariants.{Memory};
ghost use Rattle.gixp_hash.specs.declared.object_id.ObjectId.{ObjectId};
ghost use Rattle.gixp_hash.specs.ObjectId.{id_cmp};
ghost use Rattle.gixp_fetch_common.specs.AnswersIds.{is_named, AddsIds, HasIds, question, questions, AnswersIds, AnswersSome};
ghost use Rattle.gixp_fetch_common.specs.Unanswered.{line_number, SendFails, AnswersFail, LineFails, CheckFails};

use gixp_hash::ObjectId;
use gixp_memory::StoredObjects;
use gixp_refmap::refmap::Mapping;
use std::alloc::{AllocError, AllocFailed, Global};
use std::collections::BTreeSet;
use std::io;
use std::io::{BufRead, BufWriter, ErrorKind, Write};

/// Why a batch check failed.
#[derive(Clone, Copy, Debug, PartialEq, Eq)]
pub enum BatchCheckError {
    /// A write of questions failed with this kind.
    Ask(ErrorKind),
    /// A read of answers failed with this kind.
    Answer(ErrorKind),
    /// The line of this number, from 1 on, is no answer to its question, or is missing.
    Line(usize),
    /// An allocation failed.
    Memory,
}

impl From<AllocError> for BatchCheckError {
    ghost from_gives = { λ _ e. e ≡ Memory };

    fn from(_e: AllocError) -> Self {
        BatchCheckError::Memory
    }
}

impl<T: Drop> From<AllocFailed<T>> for BatchCheckError {
    ghost from_gives = { λ _ e. e ≡ Memory };

    fn from(_e: AllocFailed<T>) -> Self {
        BatchCheckError::Memory
    }
}

// How many questions are written before their answers are read. An answer has 69 bytes at most, and the smallest pipe that Linux
// makes holds 8,192, so that neither side waits in a write for the other to read.
const MOST_QUESTIONS: usize = 100;

fn add_id(ids: &mut BTreeSet<ObjectId>, named: Option<&ObjectId>) -> Result<(), AllocError>
    ensures { OnOk result ((id : ObjectId) → contains id_cmp ids.new id
        ≡ (contains id_cmp ids.old id || is_named (option_copied named.entry) id)) }
{
    if let Some(id) = named {
        ids.insert(*id)?;
    }
    Ok(())
}

fn add_ids(ids: &mut BTreeSet<ObjectId>, mapping: &Mapping) -> Result<(), AllocError>
    ensures { OnOk result (AddsIds (mapping.now ∷ []) ids.old ids.new) }
{
    add_id(ids, mapping.remote.as_id())?;
    add_id(ids, mapping.remote.peeled_id())
}

/// The ids that mappings name, and the ids of the objects that their tags point at, each once.
///
/// # Errors
///
/// An allocation failure alone.
pub fn named_ids(alloc: Global, mappings: &[Mapping]) -> Result<BTreeSet<ObjectId>, AllocError>
    ensures { IfOk result (HasIds mappings.now) }
{
    let mut ids = BTreeSet::new(alloc);
    'mappings: for mapping in mappings {
        add_ids(&mut ids, mapping)?;
    }
    Ok(ids)
}

fn push_question(text: &mut Vec<u8>, id: &ObjectId) -> Result<(), AllocError>
    ensures { OnOk result (text.new.items ≡ text.old.items ++ question id.now) }
{
    text.extend_from_slice(&id.to_hex())?;
    text.push(b'\n')?;
    Ok(())
}

fn question_text(alloc: Global, ids: &[ObjectId]) -> Result<Vec<u8>, AllocError>
    ensures { IfOk result (λ text. text.items ≡ questions ids.now) }
{
    let mut text = Vec::new(alloc);
    'ids: for id in ids {
        push_question(&mut text, id)?;
    }
    Ok(text)
}

// Writes a text, and leaves no byte of it in the buffer.
fn write_through<W: Write + Drop>(writer: &mut BufWriter<W>, text: &[u8]) -> io::Result<()>
    ensures written { OnOk result (Appends (writer_contents W.contents writer.old) (writer_contents W.contents writer.new) text.now) }
    ensures flushed { OnOk result (writer_buffer writer.new ≡ []) }
{
    writer.write_all(text)?;
    writer.flush()
}

/// A program that answers which objects a repository has, by the stream that it reads and the stream that it writes.
#[derive(Drop)]
pub struct BatchCheck<W: Write + Drop, R> {
    alloc: Global,
    asks: BufWriter<W>,
    answers: R,
    // The last line.
    line: Vec<u8>,
    // How many lines were read.
    lines: usize,
}

impl<W: Write + Drop, R: BufRead> BatchCheck<W, R> {
    /// The buffer of `asks` is flushed before an answer is read.
    pub fn new(alloc: Global, asks: BufWriter<W>, answers: R) -> BatchCheck<W, R>
        ensures asks { result.asks ≡ asks }
        ensures answers { result.answers ≡ answers }
        ensures lines { result.lines ≡ 0 }
    {
        BatchCheck {
            alloc,
            asks,
            answers,
            line: Vec::new(alloc),
            lines: 0,
        }
    }

    fn send_questions(&mut self, ids: &[ObjectId]) -> Result<(), BatchCheckError>
        ensures asked { OnOk result (Appends (writer_contents W.contents self.old.asks)
            (writer_contents W.contents self.new.asks) (questions ids.now)) }
        ensures flushed { OnOk result (writer_buffer self.new.asks ≡ []) }
        ensures answers { self.new.answers ≡ self.old.answers }
        ensures lines { self.new.lines ≡ self.old.lines }
        ensures fails { IfErr result SendFails }
    {
        let text = question_text(self.alloc, ids)?;
        match write_through(&mut self.asks, &text) {
            Ok(()) => Ok(()),
            Err(e) => Err(BatchCheckError::Ask(e.kind())),
        }
    }

    fn read_line(&mut self) -> Result<(), BatchCheckError>
        ensures read { OnOk result (Consumes (R.remaining self.old.answers) (R.remaining self.new.answers) self.new.line.items) }
        ensures asks { self.new.asks ≡ self.old.asks }
        ensures lines { self.new.lines ≡ line_number self.old.lines 1 }
        ensures fails { IfErr result LineFails }
    {
        self.line.clear();
        self.lines = self.lines.saturating_add(1);
        match self.answers.read_until(b'\n', &mut self.line) {
            Ok(_) => Ok(()),
            Err(e) if e.kind() == ErrorKind::OutOfMemory => Err(BatchCheckError::Memory),
            Err(e) => Err(BatchCheckError::Answer(e.kind())),
        }
    }

    fn read_answer(
        &mut self,
        id: &ObjectId,
        objects: &mut StoredObjects,
    ) -> Result<(), BatchCheckError>
        ensures reported { OnOk result (AnswersIds (id.now ∷ []) objects.old objects.new
            (R.remaining self.old.answers) (R.remaining self.new.answers)) }
        ensures kept { OnErr result (objects.new ≡ objects.old) }
        ensures asks { self.new.asks ≡ self.old.asks }
        ensures lines { self.new.lines ≡ line_number self.old.lines 1 }
        ensures fails { IfErr result (λ e. AnswersFail self.old.lines (id.now ∷ []) objects.old objects.new
            (R.remaining self.old.answers) (R.remaining self.new.answers) e) }
    {
        self.read_line()?;
        if objects.add_answer(self.alloc, id, &self.line)? {
            return Ok(());
        }
        Err(BatchCheckError::Line(self.lines))
    }

    fn read_answers(
        &mut self,
        ids: &[ObjectId],
        objects: &mut StoredObjects,
    ) -> Result<(), BatchCheckError>
        ensures reported { OnOk result (AnswersIds ids.now objects.old objects.new
            (R.remaining self.old.answers) (R.remaining self.new.answers)) }
        ensures some { AnswersSome ids.now objects.old objects.new }
        ensures asks { self.new.asks ≡ self.old.asks }
        ensures lines { OnOk result (self.new.lines ≡ line_number self.old.lines (length ids.now)) }
        ensures fails { IfErr result (λ e. AnswersFail self.old.lines ids.now objects.old objects.new
            (R.remaining self.old.answers) (R.remaining self.new.answers) e) }
    {
        'ids: for id in ids {
            self.read_answer(id, objects)?;
        }
        Ok(())
    }

    fn ask_batch(
        &mut self,
        ids: &[ObjectId],
        objects: &mut StoredObjects,
    ) -> Result<(), BatchCheckError>
        ensures asked { OnOk result (Appends (writer_contents W.contents self.old.asks)
            (writer_contents W.contents self.new.asks) (questions ids.now)) }
        ensures reported { OnOk result (AnswersIds ids.now objects.old objects.new
            (R.remaining self.old.answers) (R.remaining self.new.answers)) }
        ensures some { AnswersSome ids.now objects.old objects.new }
        ensures flushed { OnOk result (writer_buffer self.new.asks ≡ []) }
        ensures lines { OnOk result (self.new.lines ≡ line_number self.old.lines (length ids.now)) }
        ensures fails { IfErr result (λ e. CheckFails self.old.lines ids.now objects.old objects.new
            (R.remaining self.old.answers) (R.remaining self.new.answers) e) }
    {
        self.send_questions(ids)?;
        self.read_answers(ids, objects)
    }

    /// Asks which of these objects the repository has, and adds them. An object that was added before stays as it is.
    ///
    /// # Errors
    ///
    /// A failed write or read, or a line that is no answer to its question; the objects of the earlier answers are added then.
    /// `Line` has the line's number among all lines that were read, from 1 on.
    pub fn ask(
        &mut self,
        ids: &[ObjectId],
        objects: &mut StoredObjects,
    ) -> Result<(), BatchCheckError>
        ensures asked { OnOk result (Appends (writer_contents W.contents self.old.asks)
            (writer_contents W.contents self.new.asks) (questions ids.now)) }
        ensures reported { OnOk result (AnswersIds ids.now objects.old objects.new
            (R.remaining self.old.answers) (R.remaining self.new.answers)) }
        ensures some { AnswersSome ids.now objects.old objects.new }
        ensures flushed { OnOk result (writer_buffer self.old.asks ≡ [] → writer_buffer self.new.asks ≡ []) }
        ensures lines { OnOk result (self.new.lines ≡ line_number self.old.lines (length ids.now)) }
        ensures fails { IfErr result (λ e. CheckFails self.old.lines ids.now objects.old objects.new
            (R.remaining self.old.answers) (R.remaining self.new.answers) e) }
    {
        let mut rest = ids;
        'few: while !rest.is_empty() {
            let (few, later) = rest.split_at(rest.len().min(MOST_QUESTIONS));
            self.ask_batch(few, objects)?;
            rest = later;
        }
        Ok(())
    }
}
