//! A shallow boundary in a file.
ghost use Rattle.std.specs.Prelude.{◌≡◌, ◌++◌, codes, true, false, IfOk, IfErr, OnOk, string_bytes};
ghost use Rattle.gixp_shallow.specs.Store.{HasFailed, to_lock, to_read};
ghost use Rattle.gixp_shallow.specs.ShallowFile.{IsKept, HoldsLock, RefusesInFile, RefusesAlone, is_left};

use crate::store::{ShallowError, ShallowStore};
use crate::text::{shallow_ids, shallow_text};
use gixp_hash::ObjectId;
use std::alloc::{AllocError, Global};
use std::fs;
use std::fs::{File, OpenOptions};
use std::io::{self, ErrorKind, Read};
use std::rt::Files;

/// A shallow boundary in a file, as git stores it in `shallow` in a repository's folder. A missing file is an empty boundary.
///
/// The lock is another file, whose name has `.lock` appended. It is created only if it doesn't exist. The new boundary
/// is written into the lock file, which then replaces the file; if no id is left, the file is removed. So other
/// programs see the boundary before or after a write, provided that the system renames files atomically.
///
/// A contract can't say what a file contains. So no contract promises that the file has the text that was written, that
/// the lock excludes programs that don't ask for it, or that a file survives a loss of power. The contracts cover this
/// value only: what each call returns, whether it holds the lock file, and how many calls failed for another reason
/// than an allocation failure. If the program ends before `release`, the lock file remains.
#[derive(Drop)]
pub struct ShallowFile<'a, F> {
    files: &'a F,
    alloc: Global,
    path: String,
    lock_path: String,
    // Whether the lock file exists because this store created it.
    held: bool,
    failures: u64,
}

fn lock_path_of(alloc: Global, path: &str) -> Result<String, AllocError>
    ensures { IfOk result (λ lock. string_bytes lock ≡ path.now ++ codes ".lock") }
{
    let mut lock = String::from_str(alloc, path)?;
    lock.push_str(".lock")?;
    Ok(lock)
}

impl<'a, F: Files> ShallowFile<'a, F> {
    /// The boundary in the file at this path. Nothing is read or written yet.
    ///
    /// # Errors
    ///
    /// An allocation failed.
    pub fn new(files: &'a F, alloc: Global, path: &str) -> Result<ShallowFile<'a, F>, AllocError>
        ensures path { IfOk result (λ file. string_bytes file.path ≡ path.now) }
        ensures lock { IfOk result (λ file. string_bytes file.lock_path ≡ path.now ++ codes ".lock") }
        ensures held { IfOk result (λ file. file.held ≡ false) }
        ensures failures { IfOk result (λ file. file.failures ≡ 0) }
    {
        let path_text = String::from_str(alloc, path)?;
        let lock_path = lock_path_of(alloc, path)?;
        Ok(ShallowFile {
            files,
            alloc,
            path: path_text,
            lock_path,
            held: false,
            failures: 0,
        })
    }

    /// Whether this store holds the lock.
    pub fn is_locked(&self) -> bool
        ensures { result ≡ self.now.held }
    {
        self.held
    }

    fn count_failure(&mut self)
        ensures counted { HasFailed self.old.failures self.new.failures }
        ensures kept { IsKept self.old self.new }
        ensures held { self.new.held ≡ self.old.held }
    {
        self.failures = self.failures.saturating_add(1);
    }

    #[tactic(auto, using(crate::proofs::FileLemmas::lock_refused))]
    fn take_lock(&mut self) -> Result<(), ShallowError>
        ensures locked { OnOk result (HoldsLock true self.old self.new) }
        ensures refused { IfErr result (λ e. RefusesInFile to_lock self.old e self.new) }
    {
        match self.make_lock() {
            Ok(()) => {
                self.held = true;
                Ok(())
            }
            Err(e) => match e.kind() {
                ErrorKind::AlreadyExists => {
                    self.count_failure();
                    Err(ShallowError::Locked)
                }
                kind => Err(self.refusal(kind)),
            },
        }
    }

    // Releases the lock, if it is held.
    fn drop_lock(&mut self)
        ensures { HoldsLock false self.old self.new }
    {
        if self.held {
            let _ = fs::remove_file(self.files, self.lock_path.as_str());
            self.held = false;
        }
    }

    fn make_lock(&self) -> io::Result<()> {
        match OpenOptions::new()
            .write(true)
            .create_new(true)
            .open(self.files, self.lock_path.as_str())
        {
            Ok(_) => Ok(()),
            Err(e) => Err(e),
        }
    }

    fn load(&self, alloc: Global) -> io::Result<Vec<u8>> {
        let mut file = File::open(self.files, self.path.as_str())?;
        let mut text = Vec::new(alloc);
        file.read_to_end(&mut text)?;
        Ok(text)
    }

    // Replaces the file with this text, by way of the lock file.
    fn replace(&self, text: &[u8]) -> io::Result<()> {
        fs::write(self.files, self.lock_path.as_str(), text)?;
        fs::rename(self.files, self.lock_path.as_str(), self.path.as_str())
    }

    // Removes the file, if it exists.
    fn remove(&self) -> io::Result<()> {
        match fs::remove_file(self.files, self.path.as_str()) {
            Ok(()) => Ok(()),
            Err(e) => match e.kind() {
                ErrorKind::NotFound => Ok(()),
                _ => Err(e),
            },
        }
    }

    // The error for a failed call of the system; it is counted, unless memory ran out.
    fn refusal(&mut self, kind: ErrorKind) -> ShallowError
        ensures refused { RefusesInFile to_read self.old result self.new }
    {
        match kind {
            ErrorKind::OutOfMemory => ShallowError::Memory,
            _ => {
                self.count_failure();
                ShallowError::Io(kind)
            }
        }
    }

    // Writes the boundary while the lock is held.
    fn write_locked(&mut self, boundary: &[ObjectId]) -> Result<(), ShallowError>
        requires { self.old.held ≡ true }
        ensures written { OnOk result (HoldsLock (is_left boundary.now) self.old self.new) }
        ensures refused { IfErr result (λ e. RefusesInFile to_read self.old e self.new) }
    {
        match boundary {
            [] => match self.remove() {
                Ok(()) => Ok(()),
                Err(e) => Err(self.refusal(e.kind())),
            },
            [_, ..] => self.write_text(boundary),
        }
    }

    // Writes the boundary while the lock is held, and releases the lock.
    #[tactic(auto, using(crate::proofs::FileLemmas::alone_refused, crate::proofs::FileLemmas::alone_written))]
    fn write_alone(&mut self, boundary: &[ObjectId]) -> Result<(), ShallowError>
        requires { self.old.held ≡ true }
        ensures written { OnOk result (HoldsLock false self.old self.new) }
        ensures refused { IfErr result (λ e. RefusesAlone self.old e self.new) }
    {
        let result = self.write_locked(boundary);
        self.drop_lock();
        match result {
            Ok(()) => Ok(()),
            Err(e) => Err(e),
        }
    }

    // Writes the text of the boundary into the lock file, which then replaces the file.
    fn write_text(&mut self, boundary: &[ObjectId]) -> Result<(), ShallowError>
        ensures written { OnOk result (HoldsLock false self.old self.new) }
        ensures refused { IfErr result (λ e. RefusesInFile to_read self.old e self.new) }
    {
        let text = match shallow_text(self.alloc, boundary) {
            Ok(text) => text,
            Err(_) => return Err(ShallowError::Memory),
        };
        match self.replace(&text) {
            Ok(()) => {
                self.held = false;
                Ok(())
            }
            Err(e) => Err(self.refusal(e.kind())),
        }
    }
}

impl<'a, F: Files> ShallowStore for ShallowFile<'a, F> {
    ghost use Rattle.std.specs.Prelude.{◌≡◌, true, false};
    ghost use Rattle.std.specs.List.Sorted.{IsStrictlySortedBy};
    ghost use Rattle.gixp_hash.specs.ObjectId.{id_cmp};
    ghost use Rattle.gixp_shallow.specs.ShallowFile.{IsKept, HoldsLock, RefusesInFile, is_left_of};

    ghost calls = { record {
      failures = λ call s e t. RefusesInFile call s e t;
      count = λ s. s.failures;
      locks = λ s t. HoldsLock true s t;
      reads = λ s ids t. IsStrictlySortedBy id_cmp ids × HoldsLock s.held s t;
      writes = λ s ids t. HoldsLock (is_left_of s.held ids) s t;
      releases = λ s t. HoldsLock false s t;
    } };

    fn lock(&mut self) -> Result<(), ShallowError> {
        self.take_lock()
    }

    #[tactic(auto, using(crate::proofs::FileLemmas::not_locked))]
    fn read(&mut self, alloc: Global) -> Result<Vec<ObjectId>, ShallowError> {
        let text = match self.load(alloc) {
            Ok(text) => text,
            Err(e) => match e.kind() {
                ErrorKind::NotFound => return Ok(Vec::new(alloc)),
                kind => return Err(self.refusal(kind)),
            },
        };
        match shallow_ids(alloc, &text) {
            Ok(ids) => Ok(ids),
            Err(ShallowError::Memory) => Err(ShallowError::Memory),
            Err(e) => {
                self.count_failure();
                Err(e)
            }
        }
    }

    #[tactic(auto, using(crate::proofs::FileLemmas::write_had, crate::proofs::FileLemmas::write_refused, crate::proofs::FileLemmas::write_unlocked, crate::proofs::FileLemmas::write_alone_refused, crate::proofs::FileLemmas::write_alone_written))]
    fn write(&mut self, boundary: &[ObjectId]) -> Result<(), ShallowError> {
        if self.held {
            return match self.write_locked(boundary) {
                Ok(()) => Ok(()),
                Err(e) => Err(e),
            };
        }
        match self.take_lock() {
            Ok(()) => self.write_alone(boundary),
            Err(e) => Err(e),
        }
    }

    fn release(&mut self) {
        self.drop_lock();
    }

    ghost counted = { λ call s e t h. h.counted };
}
