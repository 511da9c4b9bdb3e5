//! Lines of a reference advertisement of version 0 or 1 (gitprotocol-pack, "Reference Discovery").
ghost use Rattle.std.specs.Prelude.{◌≡◌, ◌++◌, ◌==◌, map, Ok, Err, MatchResult, Some};
ghost use Rattle.std.specs.List.{list_all};
ghost use Rattle.gixp_refs.specs.declared.handshake.refs.parse.Error.TheVariants.{Memory};
ghost use Rattle.gixp_refs.specs.Ref.{ref_value};
ghost use Rattle.gixp_refs.specs.RefLine.{bad_id, malformed_v1, id_value};
ghost use Rattle.gixp_refs.specs.ParseError.{AnswersRefs, IsParseRefusal};
ghost use Rattle.gixp_refs.specs.RefAdvertisement.{line_by_path, plain_line, peeled_line, v1_line, names, pair, single, closed};
ghost use Rattle.gixp_refs.specs.V1Refs.{symref_values};
ghost use Rattle.gixp_refs.specs.V1Line.{line_of, named_value, so_far_value, nothing_so_far, with_pair, with_found, with_closed, with_line, with_text};

use crate::handshake::Ref;
use crate::handshake::refs::line::read_id;
use crate::handshake::refs::parse::{Error, Invariant};
use crate::handshake::refs::symrefs::{Targets, is_symref, target_of};
use crate::trim::trim_end;
use bstr::BString;
use gixp_capabilities::text::cut;
use gixp_hash::{ObjectId, decode};
use gixp_shallow::ShallowUpdate;
use std::alloc::Global;

// The meaning of a line.
#[derive(Clone, Copy)]
pub(crate) enum Line<'a> {
    // It only carries the capabilities.
    Nothing,
    // The peeled value of a tag.
    Peeled { left: &'a [u8], base: &'a [u8] },
    Named { object: ObjectId, name: &'a [u8] },
    Shallow(ObjectId),
}

fn malformed(alloc: Global, line: &[u8]) -> Error
    ensures { IsParseRefusal result (malformed_v1 line.now) }
{
    match BString::from_slice(alloc, line) {
        Ok(line) => Error::MalformedV1RefLine(line),
        Err(_) => Error::Memory,
    }
}

fn id_in(text: &[u8]) -> Result<ObjectId, decode::Error>
    ensures { MatchResult result (λ id. id_value text.now ≡ Ok id.bytes) (λ e. id_value text.now ≡ Err (bad_id e)) }
{
    ObjectId::from_hex(text)
}

fn is_zeros(text: &[u8]) -> bool
    ensures { result ≡ list_all (λ b. b == 48) text.now }
{
    text.iter().all(|byte| *byte == b'0')
}

// Reads a line whose path ends in `^{}`.
fn peeled_line<'a>(left: &'a [u8], base: &'a [u8]) -> Line<'a>
    ensures { line_of result ≡ peeled_line left.now base.now }
{
    if is_zeros(left) && base == b"capabilities".as_slice() {
        Line::Nothing
    } else {
        Line::Peeled { left, base }
    }
}

// Reads a line whose path doesn't end in `^{}`.
fn read_plain<'a>(left: &[u8], path: &'a [u8]) -> Result<Line<'a>, Error>
    ensures { AnswersRefs line_of (plain_line left.now path.now (id_value left.now)) result }
{
    match id_in(left) {
        Ok(object) => Ok(Line::Named { object, name: path }),
        Err(e) => {
            if left != b"shallow".as_slice() {
                return Err(Error::Id(e));
            }
            Ok(Line::Shallow(read_id(path)?))
        }
    }
}

fn read_path<'a>(left: &'a [u8], path: &'a [u8]) -> Result<Line<'a>, Error>
    ensures { AnswersRefs line_of (line_by_path left.now path.now) result }
{
    match path.strip_suffix(b"^{}") {
        Some(base) => Ok(peeled_line(left, base)),
        None => read_plain(left, path),
    }
}

pub(crate) fn read_line(alloc: Global, line: &[u8]) -> Result<Line<'_>, Error>
    ensures { AnswersRefs line_of (v1_line line.now) result }
{
    let line = trim_end(line);
    let (left, path) = cut(line, b' ');
    match path {
        Some(path) if !path.is_empty() => read_path(left, path),
        _ => Err(malformed(alloc, line)),
    }
}

// A ref line that a peeled line may follow.
#[derive(Drop)]
pub(crate) struct RefLine {
    object: ObjectId,
    name: BString,
}

// The ref of a ref line without a peeled line.
fn make_single(targets: &Targets, line: RefLine) -> Result<Ref, Error>
    ensures { AnswersRefs ref_value (Ok (single (symref_values targets.now.entries) (named_value line))) result }
{
    let target = match target_of(targets, &line.name) {
        Some(target) => target,
        None => {
            return Ok(Ref::Direct {
                full_ref_name: line.name,
                object: line.object,
            });
        }
    };
    let target = target.clone()?;
    Ok(Ref::Symbolic {
        full_ref_name: line.name,
        target,
        tag: None,
        object: line.object,
    })
}

// The ref of a ref line and its peeled line.
fn make_pair(targets: &Targets, line: RefLine, left: &[u8], base: &[u8]) -> Result<Ref, Error>
    ensures { AnswersRefs ref_value (pair (symref_values targets.now.entries) (Some (named_value line)) left.now base.now) result }
{
    if is_symref(targets, &line.name) {
        return Err(Error::InvariantViolation {
            message: Invariant::PeeledAlone,
        });
    }
    if line.name.as_bytes() != base {
        return Err(Error::InvariantViolation {
            message: Invariant::PeeledElsewhere,
        });
    }
    let object = read_id(left)?;
    Ok(Ref::Peeled {
        full_ref_name: line.name,
        tag: line.object,
        object,
    })
}

// The state after some lines: the finished refs, the open ref line, and the shallow updates.
#[derive(Drop)]
pub(crate) struct Advertised {
    refs: Vec<Ref>,
    last: Option<RefLine>,
    updates: Vec<ShallowUpdate>,
}

impl Advertised {
    pub(crate) fn new(alloc: Global) -> Advertised
        ensures { so_far_value result ≡ nothing_so_far }
    {
        Advertised {
            refs: Vec::new(alloc),
            last: None,
            updates: Vec::new(alloc),
        }
    }

    // Adds one more line. After an error the state is arbitrary.
    pub(crate) fn add(&mut self, alloc: Global, targets: &Targets, line: &[u8]) -> Result<(), Error>
        ensures { AnswersRefs (λ _. so_far_value self.new)
            (with_text (symref_values targets.now.entries) (so_far_value self.old) line.now) result }
    {
        self.add_line(alloc, targets, read_line(alloc, line)?)
    }

    // The refs and the shallow updates of all lines.
    pub(crate) fn finish(
        mut self,
        targets: &Targets,
    ) -> Result<(Vec<Ref>, Vec<ShallowUpdate>), Error>
        ensures { MatchResult result
            (λ found. (map ref_value found.0.items ≡ (so_far_value self).refs ++ closed (symref_values targets.now.entries)
            (so_far_value self).open_line) × (found.1.items ≡ (so_far_value self).updates))
            (λ e. e ≡ Memory) }
    {
        self.close(targets)?;
        let Advertised {
            refs,
            last: _,
            updates,
        } = self;
        Ok((refs, updates))
    }

    fn add_line(&mut self, alloc: Global, targets: &Targets, line: Line<'_>) -> Result<(), Error>
        ensures { AnswersRefs (λ _. so_far_value self.new)
            (with_line (symref_values targets.now.entries) (so_far_value self.old) (line_of line.entry)) result }
    {
        match line {
            Line::Nothing => Ok(()),
            Line::Shallow(id) => {
                self.updates.push(ShallowUpdate::Shallow(id))?;
                Ok(())
            }
            Line::Named { object, name } => self.add_named(alloc, targets, object, name),
            Line::Peeled { left, base } => self.peel(targets, left, base),
        }
    }

    // Adds a ref line. The open one has no peeled line.
    fn add_named(
        &mut self,
        alloc: Global,
        targets: &Targets,
        object: ObjectId,
        name: &[u8],
    ) -> Result<(), Error>
        ensures { AnswersRefs (λ _. so_far_value self.new)
            (with_line (symref_values targets.now.entries) (so_far_value self.old) (names object.bytes name.now)) result }
    {
        let name = BString::from_slice(alloc, name)?;
        self.close(targets)?;
        self.last = Some(RefLine { object, name });
        Ok(())
    }

    // Finishes the open ref line, which has no peeled line.
    fn close(&mut self, targets: &Targets) -> Result<(), Error>
        ensures { MatchResult result (λ _. so_far_value self.new ≡ with_closed (symref_values targets.now.entries)
            (so_far_value self.old)) (λ e. e ≡ Memory) }
    {
        match self.last.take() {
            None => Ok(()),
            Some(line) => self.push(make_single(targets, line)?),
        }
    }

    fn peel(&mut self, targets: &Targets, left: &[u8], base: &[u8]) -> Result<(), Error>
        ensures { AnswersRefs (λ _. so_far_value self.new) (with_pair (so_far_value self.old)
            (pair (symref_values targets.now.entries) (so_far_value self.old).open_line left.now base.now)) result }
    {
        match self.last.take() {
            None => Err(Error::InvariantViolation {
                message: Invariant::PeeledAlone,
            }),
            Some(line) => self.push(make_pair(targets, line, left, base)?),
        }
    }

    fn push(&mut self, found: Ref) -> Result<(), Error>
        ensures { MatchResult result (λ _. so_far_value self.new ≡ with_found (so_far_value self.old) (ref_value found)) (λ e. e ≡ Memory) }
    {
        self.refs.push(found)?;
        Ok(())
    }
}
