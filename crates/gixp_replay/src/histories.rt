//! A text that describes a repository, the server's commits, and the conversation.
//!
//! Each line is a word and its arguments. An id is a number: the last eight bytes of the 20. A name `-` means none.
//!
//!     commit ID TIME PARENT..    a commit
//!     packed ID TIME PARENT..    a commit that only the graph's objects have
//!     object ID KIND             an object of the kind `blob`, `tree` or `tag`, or `-` for an unknown kind
//!     apart ID KIND              an object that the graph's objects don't have; also of the kind `commit`
//!     broken ID                  a commit whose look-up fails
//!     ref NAME ID                a ref
//!     leads ID..                 the peeled ids of the refs
//!     refs-fail ERROR            the refs can't be listed: `open`, `iter`, `peel`, or `io` for a read that failed
//!     alternate ID..             an alternate, and the peeled ids of its refs
//!     alternate-fails ERROR      an alternate whose refs can't be listed
//!     no-alternates              the alternates can't be opened
//!     extra SPEC                 an added refspec
//!     mapping LOCAL PLACE SOURCE a mapping: its local name, the index of its refspec after `explicit-` or `extra-`, and its
//!                                source: `id ID`, `direct NAME ID`, `peeled NAME TAG ID`, `symbolic NAME TAG ID` or
//!                                `unborn NAME`
//!     haves FROM COUNT           this number of haves, from this id on
//!     answer WORD..              a response: a common id, `ready` or `NAK` each
//!     answer-many FROM COUNT     a response with this number of common ids, from this one on
use crate::rows::{cut_at_byte, meaning_of, number};
use bstr::{BStr, BString};
use gixp_doubles::{MemoryObjects, MemoryRefs};
use gixp_graph::{CommitData, ObjectError, ObjectKind, RefStoreError};
use gixp_hash::ObjectId;
use gixp_packetline::{LineReader, Protocol};
use gixp_refmap::refmap::{Mapping, RefMap, Source, SpecIndex};
use gixp_refs::handshake::Ref;
use gixp_refspec::parse::{Operation, parse};
use gixp_response::fetch::Response;
use std::alloc::{AllocError, Global};
use std::io::ErrorKind;

#[derive(Clone, Copy)]
enum Line {
    Commit,
    Packed,
    Object,
    Apart,
    Broken,
    Ref,
    Leads,
    RefsFail,
    Alternate,
    AlternateFails,
    NoAlternates,
    Extra,
    Mapping,
    Haves,
    Answer,
    AnswerMany,
}

static LINES: [(&str, Line); 16] = [
    ("commit", Line::Commit),
    ("packed", Line::Packed),
    ("object", Line::Object),
    ("apart", Line::Apart),
    ("broken", Line::Broken),
    ("ref", Line::Ref),
    ("leads", Line::Leads),
    ("refs-fail", Line::RefsFail),
    ("alternate", Line::Alternate),
    ("alternate-fails", Line::AlternateFails),
    ("no-alternates", Line::NoAlternates),
    ("extra", Line::Extra),
    ("mapping", Line::Mapping),
    ("haves", Line::Haves),
    ("answer", Line::Answer),
    ("answer-many", Line::AnswerMany),
];

static KINDS: [(&str, ObjectKind); 4] = [
    ("commit", ObjectKind::Commit),
    ("blob", ObjectKind::Blob),
    ("tree", ObjectKind::Tree),
    ("tag", ObjectKind::Tag),
];

static ERRORS: [(&str, RefStoreError); 4] = [
    ("open", RefStoreError::OpenPackedRefsBuffer),
    ("iter", RefStoreError::Iter),
    ("peel", RefStoreError::Peel),
    ("io", RefStoreError::Io(ErrorKind::TimedOut)),
];

// The source of a mapping.
#[derive(Clone, Copy)]
enum Form {
    Id,
    Direct,
    Peeled,
    Symbolic,
    Unborn,
}

static FORMS: [(&str, Form); 5] = [
    ("id", Form::Id),
    ("direct", Form::Direct),
    ("peeled", Form::Peeled),
    ("symbolic", Form::Symbolic),
    ("unborn", Form::Unborn),
];

/// The input of a negotiation.
#[derive(Drop)]
pub(crate) struct History {
    /// The ids of the graph's objects, in the order of their lines.
    pub(crate) ids: Vec<ObjectId>,
    /// The objects of the graph.
    pub(crate) objects: MemoryObjects,
    /// The objects that are checked for existence.
    pub(crate) existing: MemoryObjects,
    pub(crate) refs: MemoryRefs,
    pub(crate) alternates: Vec<MemoryRefs>,
    pub(crate) has_alternates: bool,
    pub(crate) map: RefMap,
    pub(crate) haves: Vec<ObjectId>,
    /// The server's responses, in order.
    pub(crate) answers: Vec<Response>,
    /// Whether a line begins with an unknown word.
    pub(crate) is_unknown: bool,
}

/// The id with this number.
pub(crate) fn id_of(number: u64) -> ObjectId {
    let [a, b, c, d, e, f, g, h] = number.to_be_bytes();
    ObjectId {
        bytes: [0, 0, 0, 0, 0, 0, 0, 0, 0, 0, 0, 0, a, b, c, d, e, f, g, h],
    }
}

fn id(word: &[u8]) -> ObjectId {
    id_of(number(word).unwrap_or(0))
}

fn ids(alloc: Global, words: &[u8]) -> Result<Vec<ObjectId>, AllocError> {
    let mut list = Vec::new(alloc);
    for word in words.split(|b| *b == b' ') {
        if !word.is_empty() {
            list.push(id(word))?;
        }
    }
    Ok(list)
}

// Adds `count` ids from the first one on.
fn push_ids(list: &mut Vec<ObjectId>, words: &[u8]) -> Result<(), AllocError> {
    let (from, count) = cut_at_byte(words, b' ');
    let from = number(from).unwrap_or(0);
    for place in 0..number(count).unwrap_or(0) {
        list.push(id_of(from.wrapping_add(place)))?;
    }
    Ok(())
}

fn signed(word: &[u8]) -> i64 {
    str::from_utf8(word)
        .unwrap_or("")
        .parse::<i64>()
        .unwrap_or(0)
}

fn error(word: &[u8]) -> RefStoreError {
    meaning_of(&ERRORS, word).unwrap_or(RefStoreError::Io(ErrorKind::TimedOut))
}

fn text(alloc: Global, word: &[u8]) -> Result<BString, AllocError> {
    BString::from_slice(alloc, word)
}

// A text, or none for `-`.
fn option(word: &[u8]) -> Option<&[u8]> {
    match word {
        [b'-'] => None,
        _ => Some(word),
    }
}

fn commit(alloc: Global, words: &[u8]) -> Result<CommitData, AllocError> {
    let (time, parents) = cut_at_byte(words, b' ');
    Ok(CommitData {
        time: signed(time),
        parents: ids(alloc, parents)?,
    })
}

// Adds a commit that can't be read.
fn add_broken(objects: &mut MemoryObjects, id: ObjectId) -> Result<(), AllocError> {
    objects.add(id, Some(ObjectKind::Commit))?;
    objects.corrupt.insert(id)?;
    Ok(())
}

// Adds the object of a line. Returns false if the line has none.
fn add_object(
    alloc: Global,
    history: &mut History,
    line: Line,
    rest: &[u8],
) -> Result<bool, AllocError> {
    let (word, rest) = cut_at_byte(rest, b' ');
    let id = id(word);
    match line {
        Line::Commit => {
            history.existing.add_commit(id, commit(alloc, rest)?)?;
            history.objects.add_commit(id, commit(alloc, rest)?)?;
        }
        Line::Packed => history.objects.add_commit(id, commit(alloc, rest)?)?,
        Line::Object => {
            history.existing.add(id, meaning_of(&KINDS, rest))?;
            history.objects.add(id, meaning_of(&KINDS, rest))?;
        }
        Line::Broken => {
            add_broken(&mut history.existing, id)?;
            add_broken(&mut history.objects, id)?;
        }
        Line::Apart => {
            history.existing.add(id, meaning_of(&KINDS, rest))?;
            return Ok(true);
        }
        _ => return Ok(false),
    }
    history.ids.push(id)?;
    Ok(true)
}

fn alternate(alloc: Global, targets: Vec<ObjectId>, error: Option<RefStoreError>) -> MemoryRefs {
    let mut refs = MemoryRefs::new(alloc);
    refs.targets = targets;
    refs.error = error;
    refs
}

// Adds the ref of a line, or the peeled ids. Returns false if the line has none.
fn add_refs(
    alloc: Global,
    history: &mut History,
    line: Line,
    rest: &[u8],
) -> Result<bool, AllocError> {
    match line {
        Line::Ref => {
            let (name, word) = cut_at_byte(rest, b' ');
            history.refs.add(name.to_vec(alloc)?, id(word))?;
        }
        Line::Leads => {
            let targets = ids(alloc, rest)?;
            history.refs.targets.extend_from_slice(&targets)?;
        }
        Line::RefsFail => history.refs.error = Some(error(rest)),
        Line::Alternate => history
            .alternates
            .push(alternate(alloc, ids(alloc, rest)?, None))?,
        Line::AlternateFails => history
            .alternates
            .push(alternate(alloc, Vec::new(alloc), Some(error(rest))))?,
        Line::NoAlternates => history.has_alternates = false,
        _ => return Ok(false),
    }
    Ok(true)
}

fn source(alloc: Global, words: &[u8]) -> Result<Source, AllocError> {
    let (form, rest) = cut_at_byte(words, b' ');
    let (name, rest) = cut_at_byte(rest, b' ');
    let full_ref_name = text(alloc, name)?;
    let (first, second) = cut_at_byte(rest, b' ');
    Ok(match meaning_of(&FORMS, form) {
        Some(Form::Direct) => Source::Ref(Ref::Direct {
            full_ref_name,
            object: id(first),
        }),
        Some(Form::Peeled) => Source::Ref(Ref::Peeled {
            full_ref_name,
            tag: id(first),
            object: id(second),
        }),
        Some(Form::Symbolic) => Source::Ref(Ref::Symbolic {
            full_ref_name,
            target: text(alloc, b"refs/heads/main")?,
            tag: option(first).map(id),
            object: id(second),
        }),
        Some(Form::Unborn) => Source::Ref(Ref::Unborn {
            full_ref_name,
            target: text(alloc, b"refs/heads/main")?,
        }),
        _ => Source::ObjectId(id(name)),
    })
}

fn mapping(alloc: Global, words: &[u8]) -> Result<Mapping, AllocError> {
    let (name, rest) = cut_at_byte(words, b' ');
    let (index, rest) = cut_at_byte(rest, b' ');
    let local = match option(name) {
        Some(name) => Some(text(alloc, name)?),
        None => None,
    };
    let (from, digits) = cut_at_byte(index, b'-');
    let place = usize::try_from(number(digits).unwrap_or(0)).unwrap_or(0);
    Ok(Mapping {
        remote: source(alloc, rest)?,
        local,
        spec_index: match from {
            [b'e', b'x', b't', ..] => SpecIndex::Implicit(place),
            _ => SpecIndex::ExplicitInRemote(place),
        },
    })
}

// Adds the mapping or refspec of a line. Returns false if the line has none.
fn add_mapping(
    alloc: Global,
    history: &mut History,
    line: Line,
    rest: &[u8],
) -> Result<bool, AllocError> {
    match line {
        Line::Mapping => history.map.mappings.push(mapping(alloc, rest)?)?,
        Line::Extra => match parse(BStr::new(rest), Operation::Fetch) {
            Ok(spec) => history.map.extra_refspecs.push(spec.to_owned(alloc)?)?,
            Err(_) => {}
        },
        _ => return Ok(false),
    }
    Ok(true)
}

fn push_common(lines: &mut Vec<u8>, id: &ObjectId) -> Result<(), AllocError> {
    lines.extend_from_slice(b"0031ACK ")?;
    lines.extend_from_slice(&id.to_hex())?;
    lines.push(b'\n')?;
    Ok(())
}

// The packet lines of a response.
fn answer_lines(alloc: Global, line: Line, rest: &[u8]) -> Result<Vec<u8>, AllocError> {
    let mut lines = b"0014acknowledgments\n".to_vec(alloc)?;
    if let Line::AnswerMany = line {
        let mut list = Vec::new(alloc);
        push_ids(&mut list, rest)?;
        for id in &list {
            push_common(&mut lines, id)?;
        }
    } else {
        for word in rest.split(|b| *b == b' ') {
            match word {
                [b'r', ..] => lines.extend_from_slice(b"000aready\n")?,
                [b'N', ..] => lines.extend_from_slice(b"0008NAK\n")?,
                _ => push_common(&mut lines, &id(word))?,
            }
        }
    }
    lines.extend_from_slice(b"0000")?;
    Ok(lines)
}

fn add_answer(
    alloc: Global,
    history: &mut History,
    line: Line,
    rest: &[u8],
) -> Result<(), AllocError> {
    let lines = answer_lines(alloc, line, rest)?;
    let mut bytes = lines.as_slice();
    let mut reader = LineReader::new(alloc, &mut bytes)?;
    match Response::from_line_reader(alloc, Protocol::V2, &mut reader, false, true) {
        Ok(answer) => {
            history.answers.push(answer)?;
            Ok(())
        }
        Err(_) => Err(AllocError),
    }
}

fn add_line(alloc: Global, history: &mut History, text: &[u8]) -> Result<(), AllocError> {
    if text.is_empty() {
        return Ok(());
    }
    let (word, rest) = cut_at_byte(text, b' ');
    let Some(line) = meaning_of(&LINES, word) else {
        history.is_unknown = true;
        return Ok(());
    };
    let is_added = add_object(alloc, history, line, rest)?
        || add_refs(alloc, history, line, rest)?
        || add_mapping(alloc, history, line, rest)?;
    if is_added {
        return Ok(());
    }
    match line {
        Line::Haves => push_ids(&mut history.haves, rest),
        _ => add_answer(alloc, history, line, rest),
    }
}

impl History {
    /// Parses a text. The look-up with the number `fail` fails, as a read of a test vector does.
    pub(crate) fn of_text(alloc: Global, lines: &[u8], fail: u64) -> Result<History, AllocError> {
        let mut history = History {
            ids: Vec::new(alloc),
            objects: MemoryObjects::new(alloc),
            existing: MemoryObjects::new(alloc),
            refs: MemoryRefs::new(alloc),
            alternates: Vec::new(alloc),
            has_alternates: true,
            map: RefMap::empty(alloc),
            haves: Vec::new(alloc),
            answers: Vec::new(alloc),
            is_unknown: false,
        };
        for line in lines.split(|b| *b == b'\n') {
            add_line(alloc, &mut history, line)?;
        }
        if fail > 0 {
            history.objects.calls = fail - 1;
            history.objects.error = ObjectError::Io(ErrorKind::Interrupted);
        }
        Ok(history)
    }
}
