//! A negotiator that offers the commits of a text, and reads a line only when a have is requested.
ghost use Rattle.std.specs.Prelude.{◌≡◌, ◌-◌, ◌^◌, ◌≤◌, ◌<◌, [], ◌∷◌, Some, None, true, false, IfOk, IfErr, IfSome, IfNone, OnOk, OnSome};
ghost use Rattle.std.specs.BTreeSet.{contains};
ghost use Rattle.std.specs.FinMap as finite;
ghost use Rattle.std.specs.Io.BufRead.{strip_last};
ghost use Rattle.std.specs.Io.KnownBytes.{IsAtEnd};
ghost use Rattle.gixp_hash.specs.declared.object_id.ObjectId.{ObjectId};
ghost use Rattle.gixp_hash.specs.ObjectId.{id_cmp};
ghost use Rattle.gixp_utils.specs.Lines.{text_lines};
ghost use Rattle.gixp_memory.specs.Repository.{commit_line};
ghost use Rattle.gixp_fetch_common.specs.KnownCommits.{parents_of, AreAwaitedOrKnown, AwaitsUnknown, AwaitsUnknownBut};
ghost use Rattle.gixp_fetch_common.specs.SharedCommits.{IsSharedBut, IsSharedWhole, Shares, SharesSome};
ghost use Rattle.gixp_fetch_common.specs.ListedCommits.{id_in, IsNoCommit, ReadsTextLines, ReadsCommit, IsUncommon, OffersNext};
ghost use Rattle.gixp_fetch_common.specs.ListedCommits.{error_of_refusal, line_number, ListedOfferFails, KeepsCommitText};

use crate::known_commits::KnownCommits;
use gixp_graph::{Graph, Negotiator, NegotiatorError, ObjectError, Objects};
use gixp_hash::ObjectId;
use gixp_memory::TextError;
use gixp_utils::{line_words, without_line_end};
use std::alloc::{AllocError, Global};
use std::collections::BTreeSet;
use std::io;
use std::io::{BufRead, ErrorKind};

/// Why no further line of a text can be read.
#[derive(Clone, Copy, Debug, PartialEq, Eq)]
pub enum Refusal {
    /// A read failed with this kind.
    Read(ErrorKind),
    /// The line of this number, from 1 on, is no commit.
    Line(usize),
}

#[derive(Drop)]
struct CommitText<R> {
    alloc: Global,
    text: R,
    // The last line, with its LF.
    line: Vec<u8>,
    // How many more lines may be read. Before the first line that is `usize::MAX`, which is more than any text has.
    left: usize,
    known: KnownCommits,
    refusal: Option<Refusal>,
}

// The commit of a line `TIME ID PARENT..`, with or without its LF.
fn commit_id(alloc: Global, line: &[u8]) -> Result<Option<ObjectId>, AllocError>
    ensures { IfOk result (λ id. id ≡ id_in (strip_last 10 line.now)) }
{
    let words = line_words(alloc, without_line_end(line))?;
    let Some(word) = words.get(1) else {
        return Ok(None);
    };
    match ObjectId::from_hex(word.as_bytes()) {
        Ok(id) => Ok(Some(id)),
        Err(_) => Ok(None),
    }
}

impl<R: BufRead> CommitText<R> {
    // The number of the last line, from 1 on.
    fn line_number(&self) -> usize
        ensures { result ≡ line_number self.now.left }
    {
        usize::MAX - self.left
    }

    // Reads a line with its LF. Returns false at the end of the text.
    fn read_line(&mut self) -> io::Result<bool>
        ensures read { IfOk result (λ is_there. is_there ≡ true → ReadsTextLines (R.remaining self.old.text)
            (strip_last 10 self.new.line.items ∷ []) (R.remaining self.new.text)) }
        ensures one { IfOk result (λ is_there. is_there ≡ true
            → text_lines self.new.line.items ≡ strip_last 10 self.new.line.items ∷ []) }
        ensures end { IfOk result (λ is_there. is_there ≡ false → IsAtEnd (R.remaining self.old.text)) }
        ensures left { self.new.left ≡ self.old.left }
        ensures known { self.new.known ≡ self.old.known }
        ensures refusal { self.new.refusal ≡ self.old.refusal }
    {
        self.line.clear();
        let count = self.text.read_until(b'\n', &mut self.line)?;
        Ok(count != 0)
    }

    // Adds the commit of the line and returns its id, or none where the line is no commit.
    fn add_line(&mut self) -> Result<Option<ObjectId>, AllocError>
        ensures named { text_lines self.old.line.items ≡ strip_last 10 self.old.line.items ∷ []
            → IfOk result (λ id. IfSome id (λ id. id_in (strip_last 10 self.old.line.items) ≡ Some id)) }
        ensures added { text_lines self.old.line.items ≡ strip_last 10 self.old.line.items ∷ []
            → IfOk result (λ id. OnSome id (commit_line self.old.known.read (strip_last 10 self.old.line.items)
            ≡ Some self.new.known.read)) }
        ensures none { text_lines self.old.line.items ≡ strip_last 10 self.old.line.items ∷ []
            → IfOk result (λ id. IfNone id (IsNoCommit self.old.line.items)) }
        ensures text { self.new.text ≡ self.old.text }
        ensures line { self.new.line ≡ self.old.line }
        ensures left { self.new.left ≡ self.old.left }
        ensures common { self.new.known.common ≡ self.old.known.common }
        ensures awaited { self.new.known.awaited ≡ self.old.known.awaited }
        ensures refusal { self.new.refusal ≡ self.old.refusal }
    {
        match self.known.read.read_commits(self.alloc, &self.line) {
            Ok(()) => commit_id(self.alloc, &self.line),
            Err(TextError::Line(_)) => Ok(None),
            Err(TextError::Memory) => Err(AllocError),
        }
    }

    // Stores the refusal, and returns its error.
    fn refuse(&mut self, refusal: Refusal) -> NegotiatorError
        ensures refusal { self.new.refusal ≡ Some refusal }
        ensures reported { result ≡ error_of_refusal refusal }
        ensures text { self.new.text ≡ self.old.text }
        ensures line { self.new.line ≡ self.old.line }
        ensures left { self.new.left ≡ self.old.left }
        ensures known { self.new.known ≡ self.old.known }
    {
        self.refusal = Some(refusal);
        match refusal {
            Refusal::Read(kind) => NegotiatorError::Lookup(ObjectError::Io(kind)),
            Refusal::Line(_) => NegotiatorError::Lookup(ObjectError::Corrupt),
        }
    }

    // Reads the next commit; none at the end of the text.
    fn read_commit(&mut self) -> Result<Option<ObjectId>, NegotiatorError>
        ensures read { IfOk result (λ id. IfSome id (λ id. ReadsCommit (R.remaining self.old.text) self.old.known id
            (R.remaining self.new.text) self.new.known)) }
        ensures end { IfOk result (λ id. IfNone id (IsAtEnd (R.remaining self.old.text))) }
        ensures known { IfOk result (λ id. IfNone id (self.new.known ≡ self.old.known)) }
        ensures left { self.new.left ≡ self.old.left }
        ensures common { self.new.known.common ≡ self.old.known.common }
        ensures awaited { self.new.known.awaited ≡ self.old.known.awaited }
        ensures refusal { OnOk result (self.new.refusal ≡ self.old.refusal) }
        ensures fails { IfErr result (λ e. ListedOfferFails self.new.line.items (line_number self.new.left) self.old.refusal e self.new.refusal) }
    {
        match self.read_line() {
            Ok(true) => {}
            Ok(false) => return Ok(None),
            Err(e) if e.kind() == ErrorKind::OutOfMemory => return Err(NegotiatorError::Memory),
            Err(e) => return Err(self.refuse(Refusal::Read(e.kind()))),
        }
        match self.add_line() {
            Ok(Some(id)) => Ok(Some(id)),
            Ok(None) => {
                let number = self.line_number();
                Err(self.refuse(Refusal::Line(number)))
            }
            Err(_) => Err(NegotiatorError::Memory),
        }
    }

    // Whether the commit that was read last is to be offered. A common one isn't, and its ancestors become common.
    fn offer(&mut self, id: &ObjectId) -> Result<bool, AllocError>
        ensures uncommon { IfOk result (λ is_offered. is_offered ≡ true → IsUncommon self.new.known.common id.now) }
        ensures awaits { IfOk result (λ is_offered. is_offered ≡ true → AreAwaitedOrKnown self.new.known.read self.new.known.common
            self.new.known.awaited (parents_of self.new.known.read id.now)) }
        ensures common { IfOk result (λ is_offered. is_offered ≡ false → contains id_cmp self.new.known.common id.now ≡ true) }
        ensures whole { OnOk result (IsSharedBut self.old.known.read self.old.known.common (id.now ∷ [])
            → IsSharedWhole self.new.known.read self.new.known.common) }
        ensures some { finite.contains_key self.old.known.read id.now ≡ true → SharesSome self.old.known id.now self.new.known }
        ensures unknown { AwaitsUnknownBut self.old.known id.now → AwaitsUnknown self.new.known }
        ensures text { self.new.text ≡ self.old.text }
        ensures line { self.new.line ≡ self.old.line }
        ensures left { self.new.left ≡ self.old.left }
        ensures refusal { self.new.refusal ≡ self.old.refusal }
    {
        self.known.forget(id);
        if self.known.is_common(id) {
            return match self.known.share(self.alloc, *id) {
                Ok(()) => Ok(false),
                Err(_) => Err(AllocError),
            };
        }
        match self.known.await_parents(self.alloc, id) {
            Ok(()) => Ok(true),
            Err(_) => Err(AllocError),
        }
    }

    fn share(&mut self, id: ObjectId) -> Result<(), AllocError>
        ensures kept { KeepsCommitText self.old self.new }
        ensures all { OnOk result (Shares self.old.known id self.new.known) }
        ensures some { SharesSome self.old.known id self.new.known }
    {
        self.known.share(self.alloc, id)
    }

    // The next commit that isn't common.
    fn next(&mut self) -> Result<Option<ObjectId>, NegotiatorError>
        ensures offers { IfOk result (λ have. OffersNext R.remaining self.old have self.new) }
        ensures left { self.new.left ≤ self.old.left }
        ensures refusal { OnOk result (self.new.refusal ≡ self.old.refusal) }
        ensures fails { IfErr result (λ e. ListedOfferFails self.new.line.items (line_number self.new.left) self.old.refusal e self.new.refusal) }
    {
        'lines: while self.left > 0 {
            if self.known.is_over() {
                return Ok(None);
            }
            self.left -= 1;
            match self.read_commit() {
                Ok(Some(id)) => match self.offer(&id) {
                    Ok(true) => return Ok(Some(id)),
                    Ok(false) => {}
                    Err(_) => return Err(NegotiatorError::Memory),
                },
                Ok(None) => return Ok(None),
                Err(e) => return Err(e),
            }
        }
        Ok(None)
    }
}

/// Offers the commits of a text of `git rev-list --timestamp --parents`, in its order, without the ancestors of commits that the
/// server acknowledged. A line is read only when a have is requested. Where the tips of the history are known, no line is read after
/// the last commit that isn't common.
#[derive(Drop)]
pub struct ListedCommits<R> {
    commits: CommitText<R>,
    failures: u64,
}

impl<R: BufRead> ListedCommits<R> {
    /// Reads nothing yet. `tips` are those of the listed history, where they are known.
    pub fn new(alloc: Global, text: R, tips: Option<BTreeSet<ObjectId>>) -> ListedCommits<R>
        ensures text { result.commits.text ≡ text }
        ensures read { result.commits.known.read ≡ finite.empty }
        ensures awaited { result.commits.known.awaited ≡ tips }
        ensures common { result.commits.known.common.keys ≡ [] }
        ensures unknown { AwaitsUnknown result.commits.known }
        ensures refusal { result.commits.refusal ≡ None }
        ensures left { result.commits.left ≡ 2 ^ 64 - 1 }
        ensures failures { result.failures ≡ 0 }
    {
        ListedCommits {
            commits: CommitText {
                alloc,
                text,
                line: Vec::new(alloc),
                left: usize::MAX,
                known: KnownCommits::new(alloc, tips),
                refusal: None,
            },
            failures: 0,
        }
    }

    /// Why no further line can be read, if a line couldn't be.
    pub fn refusal(&self) -> Option<Refusal>
        ensures { result ≡ self.now.commits.refusal }
    {
        self.commits.refusal
    }
}

impl<R: BufRead> Negotiator for ListedCommits<R> {
    ghost use Rattle.std.specs.Prelude.{◌≡◌};
    ghost use Rattle.std.proofs.Common.{arith};
    ghost use Rattle.gixp_graph.specs.declared.negotiator.NegotiatorError.TheVariants.{Memory};
    ghost use Rattle.gixp_fetch_common.specs.ListedCommits.{OffersNext, KeepsCommitText, line_number, ListedOfferFails};
    ghost use Rattle.gixp_fetch_common.specs.SharedCommits.{Shares, SharesSome};

    ghost calls = { record {
      count = λ n g. n.commits.left;
      failures = λ n. n.failures;
      knows = λ n g id m h. (m ≡ n) × (h ≡ g);
      adds = λ n g id m h. (m ≡ n) × (h ≡ g);
      learns = λ n g id m h. KeepsCommitText n.commits m.commits × (h ≡ g) × Shares n.commits.known id m.commits.known
          × SharesSome n.commits.known id m.commits.known;
      offers = λ n g have m h. OffersNext R.remaining n.commits have m.commits × (h ≡ g);
      knowing_fails = λ n g id e m h. ⊥;
      adding_fails = λ n g id e m h. ⊥;
      learning_fails = λ n g id e m h. (e ≡ Memory) × KeepsCommitText n.commits m.commits × (h ≡ g)
          × SharesSome n.commits.known id m.commits.known;
      offering_fails = λ n g e m h. ListedOfferFails m.commits.line.items (line_number m.commits.left) n.commits.refusal e
          m.commits.refusal × (h ≡ g);
    } };

    // Does nothing: the commit is offered, and its ancestors become common when the server acknowledges it.
    fn known_common<O: Objects>(
        &mut self,
        _id: ObjectId,
        _graph: &mut Graph<O>,
    ) -> Result<(), NegotiatorError> {
        Ok(())
    }

    fn add_tip<O: Objects>(
        &mut self,
        _id: ObjectId,
        _graph: &mut Graph<O>,
    ) -> Result<(), NegotiatorError> {
        Ok(())
    }

    fn in_common_with_remote<O: Objects>(
        &mut self,
        id: ObjectId,
        _graph: &mut Graph<O>,
    ) -> Result<(), NegotiatorError> {
        match self.commits.share(id) {
            Ok(()) => Ok(()),
            Err(_) => {
                self.failures = self.failures.saturating_add(1);
                Err(NegotiatorError::Memory)
            }
        }
    }

    fn next_have<O: Objects>(
        &mut self,
        _graph: &mut Graph<O>,
    ) -> Option<Result<ObjectId, NegotiatorError>> {
        match self.commits.next() {
            Ok(Some(id)) => Some(Ok(id)),
            Ok(None) => None,
            Err(e) => {
                self.failures = self.failures.saturating_add(1);
                Some(Err(e))
            }
        }
    }

    ghost offer_lowers = { λ n g id m h r. Prim.omega (arith, r.0.spent) };

    ghost none_keeps = { λ n g m h r. r.0.lowers };

    ghost learning_keeps = { λ n g id m h r. Prim.omega (arith, r.0.left) };
}
