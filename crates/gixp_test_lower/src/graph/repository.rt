//! A repository in memory.
ghost use Rattle.std.specs.Prelude.{◌≡◌, ◌≤◌, ℕ};

use gixp_graph::{CommitData, ObjectError, ObjectKind, Objects};
use gixp_hash::ObjectId;
use std::alloc::{AllocError, Global};
use std::collections::BTreeMap;
use std::io;

/// Commits by id. The lookup that finds `looks` at 0 fails, and so does each later one.
#[derive(Drop)]
pub(crate) struct Repository {
    pub commits: BTreeMap<ObjectId, CommitData>,
    pub looks: u64,
    pub failures: u64,
}

impl Objects for Repository {
    ghost use Rattle.gixp_test_lower.specs.Listed.{objects_of};

    ghost contents = { λ r. objects_of r.commits.entries };

    ghost failures = { λ r. r.failures };

    fn exists(&self, id: &ObjectId) -> bool {
        self.commits.contains_key(id)
    }

    fn kind(&self, id: &ObjectId) -> Option<ObjectKind> {
        match self.commits.get(id) {
            Some(_) => Some(ObjectKind::Commit),
            None => None,
        }
    }

    fn commit(&mut self, alloc: Global, id: &ObjectId) -> Result<Option<CommitData>, ObjectError> {
        if self.looks == 0 {
            self.failures = self.failures.saturating_add(1);
            return Err(ObjectError::Io(io::ErrorKind::Other));
        }
        self.looks -= 1;
        match self.commits.get(id) {
            Some(commit) => {
                let time = commit.time;
                match Vec::from_slice(alloc, commit.parents.as_slice()) {
                    Ok(parents) => Ok(Some(CommitData { time, parents })),
                    Err(_) => Err(ObjectError::Memory),
                }
            }
            None => Ok(None),
        }
    }
}

/// An id for each number.
pub(crate) fn id(number: u16) -> ObjectId {
    let [high, low] = number.to_be_bytes();
    let mut bytes = [7; 20];
    bytes[0] = low;
    bytes[19] = high;
    ObjectId { bytes }
}

pub(crate) fn add(
    alloc: Global,
    commits: &mut BTreeMap<ObjectId, CommitData>,
    number: u16,
    time: i64,
    parents: &[u16],
) -> Result<(), AllocError> {
    let mut ids = Vec::new(alloc);
    for &parent in parents {
        ids.push(id(parent))?;
    }
    commits.insert(id(number), CommitData { time, parents: ids })?;
    Ok(())
}

/// A repository of these commits that never fails.
pub(crate) fn never_failing(commits: BTreeMap<ObjectId, CommitData>) -> Repository {
    Repository {
        commits,
        looks: u64::MAX,
        failures: 0,
    }
}
