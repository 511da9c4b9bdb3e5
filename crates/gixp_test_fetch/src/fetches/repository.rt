//! A repository with a ref and without objects, where one call may fail.
use crate::negotiations::repository::id;
use gixp_doubles::{MemoryObjects, MemoryRefs, Recorder};
use gixp_shallow::Shallow;
use std::alloc::{AllocError, Global};

/// The objects, the refs, the negotiator, and the change of depth.
#[derive(Drop)]
pub(crate) struct Repository {
    pub(crate) objects: MemoryObjects,
    pub(crate) refs: MemoryRefs,
    pub(crate) recorder: Recorder,
    pub(crate) shallow: Shallow,
}

/// A repository where no call fails, and that offers so many commits.
pub(crate) fn sound(alloc: Global, haves: usize) -> Result<Repository, AllocError> {
    let mut refs = MemoryRefs::new(alloc);
    refs.targets.push(id(1))?;
    let haves = vec![in alloc; id(2); haves]?;
    Ok(Repository {
        objects: MemoryObjects::new(alloc),
        refs,
        recorder: Recorder::new(alloc, haves),
        shallow: Shallow::NoChange,
    })
}
