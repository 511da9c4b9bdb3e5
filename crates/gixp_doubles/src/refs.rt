//! Refs in memory that fail on request.
ghost use Rattle.std.specs.Prelude.{◌≡◌, ◌≤◌, ◌⊎◌, [], None, IfOk, IfErr, IfSome, IfNone, OnOk, OnErr};
ghost use Rattle.gixp_hash.specs.Failures.{HasRisen};
ghost use Rattle.gixp_graph.specs.declared.refs.RefStoreError.TheVariants.{Memory};
ghost use Rattle.gixp_memory.specs.Repository.{with_ref};
ghost use Rattle.gixp_doubles.specs.Repository.{KeepsTargets};

use bstr::BStr;
use gixp_graph::{RefStore, RefStoreError};
use gixp_hash::ObjectId;
use gixp_memory::StoredRefs;
use std::alloc::{AllocError, Global};

/// The refs of a repository in memory.
#[derive(Drop)]
pub struct MemoryRefs {
    /// The refs by name.
    pub names: StoredRefs,
    /// The peeled ids of the refs, in the order of their listing.
    pub targets: Vec<ObjectId>,
    /// The error of a listing, if it is to fail.
    pub error: Option<RefStoreError>,
    failures: u64,
}

impl MemoryRefs {
    /// No refs.
    pub fn new(alloc: Global) -> MemoryRefs
        ensures names { result.names ≡ [] }
        ensures targets { result.targets.items ≡ [] }
        ensures error { result.error ≡ None }
        ensures failures { result.failures ≡ 0 }
    {
        MemoryRefs {
            names: StoredRefs::new(alloc),
            targets: Vec::new(alloc),
            error: None,
            failures: 0,
        }
    }

    /// Adds a ref that holds an id. It replaces a ref of the same name.
    ///
    /// # Errors
    ///
    /// Only when an allocation fails. Then nothing is added.
    pub fn add(&mut self, name: Vec<u8>, id: ObjectId) -> Result<(), AllocError>
        ensures added { OnOk result (self.new.names ≡ with_ref self.old.names (record { name = name.items; id = id; peeled = id })) }
        ensures failed { OnErr result (self.new.names ≡ self.old.names) }
        ensures kept { KeepsTargets self.old self.new }
    {
        self.names.add(name, id, id)
    }

    // The result of a call of `peeled`. If there is an error, the call fails, and so do later ones.
    fn list(&mut self, alloc: Global) -> Result<Vec<ObjectId>, RefStoreError>
        ensures peeled { IfOk result (λ ids. ids.items ≡ self.old.targets.items) }
        ensures names { self.new.names ≡ self.old.names }
        ensures targets { self.new.targets ≡ self.old.targets }
        ensures error { self.new.error ≡ self.old.error }
        ensures refused { IfSome self.old.error (λ why. IfErr result (λ e. e ≡ why)) }
        ensures fails { IfSome self.old.error (λ why. OnOk result ⊥) }
        ensures memory { IfNone self.old.error (IfErr result (λ e. e ≡ Memory)) }
        ensures unfailed { IfNone self.old.error (self.new.failures ≡ self.old.failures) }
        ensures failures { self.old.failures ≤ self.new.failures }
        ensures failed { IfErr result (λ e. (e ≡ Memory) ⊎ HasRisen self.old.failures self.new.failures) }
    {
        match self.error {
            Some(error) => {
                self.failures = self.failures.saturating_add(1);
                Err(error)
            }
            None => Ok(Vec::from_slice(alloc, self.targets.as_slice())?),
        }
    }
}

impl RefStore for MemoryRefs {
    ghost use Rattle.gixp_memory.specs.Repository.{refs_held};

    ghost refs = { λ m. refs_held m.names };

    ghost targets = { λ m. m.targets.items };

    ghost failures = { λ m. m.failures };

    fn find(&self, name: BStr<'_>) -> Option<ObjectId> {
        self.names.find(name)
    }

    fn peeled(&mut self, alloc: Global) -> Result<Vec<ObjectId>, RefStoreError> {
        self.list(alloc)
    }
}
