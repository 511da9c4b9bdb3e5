//! The lines of a store's texts.
use crate::rows::{ObjectRow, RefRow};
use bstr::BString;
use gix_protocol::ObjectId;
use gix_protocol::fetch::negotiate::{CommitData, ObjectKind};
use std::alloc::{AllocError, AllocFailed, Global};

/// The error of reading a store's text.
#[derive(Clone, Copy, Debug, PartialEq, Eq, Drop)]
pub enum ReadError {
    /// The line of this number is malformed or out of order.
    Line(usize),
    /// An allocation failed.
    Memory,
}

impl From<AllocError> for ReadError {
    fn from(_error: AllocError) -> ReadError {
        ReadError::Memory
    }
}

impl<T: Drop> From<AllocFailed<T>> for ReadError {
    fn from(_error: AllocFailed<T>) -> ReadError {
        ReadError::Memory
    }
}

fn kind_in(word: &[u8]) -> Option<ObjectKind> {
    match word {
        b"commit" => Some(ObjectKind::Commit),
        b"tree" => Some(ObjectKind::Tree),
        b"blob" => Some(ObjectKind::Blob),
        b"tag" => Some(ObjectKind::Tag),
        _ => None,
    }
}

fn seconds_in(word: &[u8]) -> Option<i64> {
    str::from_utf8(word).ok()?.parse().ok()
}

/// The object of a line.
pub(crate) fn object_in(alloc: Global, line: &[u8]) -> Result<Option<ObjectRow>, AllocError> {
    let mut words = line.split(|byte| *byte == b' ');
    let (Some(id), Some(kind)) = (id_in(words.next()), words.next()) else {
        return Ok(None);
    };
    let Some(kind) = kind_in(kind) else {
        return Ok(None);
    };
    let Some(time) = words.next() else {
        return Ok(Some(ObjectRow {
            id,
            kind,
            commit: None,
        }));
    };
    let Some(time) = seconds_in(time) else {
        return Ok(None);
    };
    let mut parents = Vec::new(alloc);
    for word in words {
        let Some(parent) = id_in(Some(word)) else {
            return Ok(None);
        };
        parents.push(parent)?;
    }
    let commit = Some(CommitData { time, parents });
    Ok(Some(ObjectRow { id, kind, commit }))
}

fn id_in(word: Option<&[u8]>) -> Option<ObjectId> {
    ObjectId::from_hex(word?).ok()
}

/// The ref of a line.
pub(crate) fn ref_in(alloc: Global, line: &[u8]) -> Result<Option<RefRow>, AllocError> {
    let mut words = line.split(|byte| *byte == b' ');
    let (Some(name), Some(id), Some(peeled)) = (
        words.next(),
        id_in(words.next()),
        id_in(words.next()),
    ) else {
        return Ok(None);
    };
    let name = BString::from_slice(alloc, name)?;
    Ok(Some(RefRow { name, id, peeled }))
}
