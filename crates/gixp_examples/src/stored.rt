//! A repository in memory, from git's output for one on disk.
use gix_protocol::fetch::negotiate::{StoredObjects, StoredRefs, TextError};
use std::alloc::Global;

/// The objects and the refs of a repository, from the texts that git prints about it.
pub fn stored_repository(
    alloc: Global,
    commits: &[u8],
    others: &[u8],
    names: &[u8],
) -> Result<(StoredObjects, StoredRefs), TextError> {
    let mut objects = StoredObjects::new(alloc);
    objects.read_commits(alloc, commits)?; // git rev-list --all --timestamp --parents
    objects.read_kinds(alloc, others)?; // git cat-file --batch-check='%(objectname) %(objecttype)', given ids
    let mut refs = StoredRefs::new(alloc);
    refs.read_refs(alloc, names)?; // git show-ref -d
    Ok((objects, refs))
}
