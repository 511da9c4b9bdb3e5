//! Where a pack is written.
ghost use Rattle.std.specs.Prelude.{◌≡◌, ◌++◌, IfOk, OnOk, OnErr, codes, string_bytes, true, false};

use std::alloc::{AllocError, Global};
use std::fs::OpenOptions;
use std::io::Write;
use std::rt::Files;
use std::{fs, io};

/// Where a pack is written: it is begun when a pack comes, and then kept if the pack is whole, or given up.
///
/// A relation between the values before and after describes each call. After `keep` the pack's name has what was written into the
/// writer, which `begin` returned.
pub trait PackPlace {
    /// What the pack is written into.
    type Writer: Write + Drop;

    /// What `begin` does, by the writer that it returns.
    ghost begins: { Self → Self.Writer → Self → Type 0 };

    /// What `keep` does, by the writer of the pack.
    ghost keeps: { Self → Self.Writer → Self → Type 0 };

    /// What `give_up` does, by the writer of the pack.
    ghost gives_up: { Self → Self.Writer → Self → Type 0 };

    /// Begins a pack.
    ///
    /// # Errors
    ///
    /// Why nothing can be written. Nothing is begun then.
    fn begin(&mut self) -> io::Result<Self::Writer>
        ensures begun { IfOk result (λ writer. begins self.old writer self.new) }
        ensures refused { OnErr result (self.new ≡ self.old) };

    /// Gives what was written the pack's name.
    ///
    /// # Errors
    ///
    /// Why that failed. The pack is given up then.
    fn keep(&mut self, writer: Self::Writer) -> io::Result<()>
        ensures kept { OnOk result (keeps self.old writer self.new) }
        ensures refused { OnErr result (gives_up self.old writer self.new) };

    /// Removes what was written.
    fn give_up(&mut self, writer: Self::Writer)
        ensures { gives_up self.old writer self.new };
}

/// A pack in a file. It is written to the path with `.lock` appended, which is then renamed. A pipe or a device is written directly.
#[derive(Drop)]
pub struct PackFile<'a, F> {
    files: &'a F,
    path: String,
    lock: String,
    // Whether the lock file exists and this made it.
    is_locked: bool,
}

fn lock_of(alloc: Global, path: &str) -> Result<String, AllocError>
    ensures { IfOk result (λ lock. string_bytes lock ≡ path.now ++ codes ".lock") }
{
    let mut lock = String::from_str(alloc, path)?;
    lock.push_str(".lock")?;
    Ok(lock)
}

impl<'a, F: Files> PackFile<'a, F> {
    /// A pack in the file at this path. Nothing is opened yet.
    pub fn new(files: &'a F, alloc: Global, path: &str) -> Result<PackFile<'a, F>, AllocError>
        ensures path { IfOk result (λ file. string_bytes file.path ≡ path.now) }
        ensures lock { IfOk result (λ file. string_bytes file.lock ≡ path.now ++ codes ".lock") }
        ensures unlocked { IfOk result (λ file. file.is_locked ≡ false) }
    {
        let path_text = String::from_str(alloc, path)?;
        let lock = lock_of(alloc, path)?;
        Ok(PackFile {
            files,
            path: path_text,
            lock,
            is_locked: false,
        })
    }

    // Whether the path is a pipe, a device or another thing that is no file.
    fn is_stream(&self) -> bool {
        match fs::metadata(self.files, self.path.as_str()) {
            Ok(found) => !found.is_file(),
            Err(_) => false,
        }
    }
}

impl<F: Files> PackFile<'_, F> {
    fn open_stream(&mut self) -> io::Result<F::File>
        ensures { self.new ≡ self.old }
    {
        OpenOptions::new()
            .write(true)
            .open(self.files, self.path.as_str())
    }

    // Makes the lock file, which must not exist.
    fn open_lock(&mut self) -> io::Result<F::File>
        ensures locked { OnOk result (self.new ≡ record self.old { is_locked = true }) }
        ensures refused { OnErr result (self.new ≡ self.old) }
    {
        let file = OpenOptions::new()
            .write(true)
            .create_new(true)
            .open(self.files, self.lock.as_str())?;
        self.is_locked = true;
        Ok(file)
    }

    // Removes the lock file, if this made it.
    fn remove_lock(&mut self)
        ensures { self.new ≡ record self.old { is_locked = false } }
    {
        if self.is_locked {
            let _ = fs::remove_file(self.files, self.lock.as_str());
            self.is_locked = false;
        }
    }

    // Renames the lock file to the pack's path. Removes it where that fails.
    fn rename_lock(&mut self) -> io::Result<()>
        ensures { self.new ≡ record self.old { is_locked = false } }
    {
        match fs::rename(self.files, self.lock.as_str(), self.path.as_str()) {
            Ok(()) => {
                self.is_locked = false;
                Ok(())
            }
            Err(e) => {
                self.remove_lock();
                Err(e)
            }
        }
    }
}

impl<F: Files> PackPlace for PackFile<'_, F>
where
    F::File: Drop,
{
    ghost use Rattle.gixp_fetch_common.specs.PackPlace.{BeginsFile, IsOver};

    type Writer = F::File;

    ghost begins = { λ p w q. BeginsFile p q };

    ghost keeps = { λ p w q. IsOver p q };

    ghost gives_up = { λ p w q. IsOver p q };

    fn begin(&mut self) -> io::Result<F::File> {
        if self.is_stream() {
            return self.open_stream();
        }
        self.open_lock()
    }

    fn keep(&mut self, _writer: F::File) -> io::Result<()> {
        if !self.is_locked {
            return Ok(());
        }
        self.rename_lock()
    }

    fn give_up(&mut self, _writer: F::File) {
        self.remove_lock();
    }
}
