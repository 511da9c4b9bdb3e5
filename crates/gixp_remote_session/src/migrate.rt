//! Moves packs and objects out of quarantine, as git does.
ghost use Rattle.std.specs.Prelude.{◌≡◌, ◌∷◌, [], map, IfOk, IfSome, codes, string_bytes};
ghost use Rattle.std.specs.Char.{is_ascii_hexdigit};
ghost use Rattle.std.specs.List.{list_all};
ghost use Rattle.bstr.specs.Owned.{bstring_bytes};
ghost use Rattle.gixp_remote_rules.specs.IndexPack.{pack_file};
ghost use Rattle.gixp_remote_session.specs.Packs.{is_in_every_pack, is_object_folder};

use crate::error::Error;
use crate::pack::plan::PackPlan;
use crate::paths::RepositoryPaths;
use crate::shell::Shell;
use bstr::{BString, ByteSlice};
use gix_protocol::transport::ObjectId;
use gixp_remote_rules::{ShellRequest, pack_file};
use std::fs;

fn path_of(path: &[u8]) -> Result<&str, Error>
    ensures { IfOk result (λ p. p.now ≡ path.now) }
{
    match path.to_str() {
        Ok(path) => Ok(path),
        Err(_) => Err(Error::Other("a path of the object directory is not UTF-8")),
    }
}

// Copies a file. It gets its final name when it is complete.
fn copy_file(rt: &HostRuntime, from: &str, to: &str, folder: &str) -> Result<(), Error> {
    let name = match from.rsplit_once('/') {
        Some((_, name)) => name,
        None => from,
    };
    let part = format!(in rt.alloc(); "{folder}/tmp_obj_{name}")?;
    let part = part.as_str();
    let copied = match fs::copy(rt, from, part) {
        Ok(_) => fs::rename(rt, part, to),
        Err(e) => Err(e),
    };
    if copied.is_err() {
        let _ = fs::remove_file(rt, part);
    }
    copied?;
    let _ = fs::remove_file(rt, from);
    Ok(())
}

// Moves a file, unless the target exists. If that fails, as across file systems, the file is
// copied.
fn move_file(rt: &HostRuntime, from: &str, to: &str, folder: &str) -> Result<(), Error> {
    if fs::metadata(rt, to).is_ok() {
        let _ = fs::remove_file(rt, from);
        return Ok(());
    }
    match fs::rename(rt, from, to) {
        Ok(()) => Ok(()),
        Err(_) => copy_file(rt, from, to, folder),
    }
}

// Whether every pack has a file with this extension.
fn is_in_every_pack(end: &[u8]) -> bool
    ensures { result ≡ is_in_every_pack end.now }
{
    end == b".pack".as_slice() || end == b".idx".as_slice()
}

// The files of a pack in the order in which they are moved. The file `.promisor` precedes the pack:
// without it the pack's missing objects would be errors. The index is last: git finds a pack by it.
fn parts_in_order() -> &'static [&'static [u8]]
    ensures { map (λ end. end.now) result.now ≡ codes ".promisor" ∷ codes ".pack" ∷ codes ".rev" ∷ codes ".idx" ∷ [] }
{
    &[b".promisor", b".pack", b".rev", b".idx"]
}

// Moves a file of a pack, if the pack has it.
fn move_part(
    rt: &HostRuntime,
    from: &[u8],
    to: &[u8],
    folder: &str,
    end: &[u8],
) -> Result<(), Error> {
    let one = path_of(from)?;
    if is_in_every_pack(end) || fs::metadata(rt, one).is_ok() {
        move_file(rt, one, path_of(to)?, folder)?;
    }
    Ok(())
}

/// Moves a pack out of quarantine, its lock first and its index last. Returns the path of its lock.
/// `None` if the repository has the pack already.
pub(crate) fn migrate_pack(
    rt: &HostRuntime,
    shell: &mut Shell,
    paths: &RepositoryPaths,
    plan: &PackPlan,
    hash: &ObjectId,
) -> Result<Option<BString>, Error>
    ensures { IfOk result (λ lock. IfSome lock (λ l. bstring_bytes l
        ≡ pack_file (string_bytes paths.now.objects) hash.now (codes ".keep"))) }
{
    let alloc = rt.alloc();
    let from = plan.folder.as_bytes();
    let to = paths.objects.as_bytes();
    let index = pack_file(alloc, to, hash, b".idx")?;
    if fs::metadata(rt, path_of(&index)?).is_ok() {
        return Ok(None);
    }
    // a quarantine of git's own, as during a hook, may have no folder for packs
    let packs = format!(in alloc; "{}/pack", paths.objects)?;
    fs::create_dir_all(rt, packs.as_str())?;
    let lock = pack_file(alloc, to, hash, b".keep")?;
    let status = shell.ask(&ShellRequest::Hold(&lock))?;
    for end in parts_in_order() {
        let end = *end;
        let one = pack_file(alloc, from, hash, end)?;
        let other = pack_file(alloc, to, hash, end)?;
        move_part(rt, &one, &other, packs.as_str(), end)?;
    }
    let _ = fs::remove_file(rt, path_of(&pack_file(alloc, from, hash, b".keep")?)?);
    if status == 0 {
        Ok(Some(BString::from(lock)))
    } else {
        Ok(None)
    }
}

fn are_hex_digits(name: &[u8]) -> bool
    ensures { result ≡ list_all is_ascii_hexdigit name.now }
{
    name.iter().all(|b| b.is_ascii_hexdigit())
}

// Whether a folder has loose objects: its name is two hexadecimal digits.
fn is_object_folder(name: &[u8]) -> bool
    ensures { result ≡ is_object_folder name.now }
{
    name.len() == 2 && are_hex_digits(name)
}

// Moves the loose objects of a folder one by one, if the folder exists already or is on another
// file system.
fn move_objects(rt: &HostRuntime, from: &str, to: &str) -> Result<(), Error> {
    let _ = fs::create_dir(rt, to);
    for entry in fs::read_dir(rt, from)? {
        let entry = entry?;
        let name = entry.file_name();
        let one = format!(in rt.alloc(); "{from}/{name}")?;
        let other = format!(in rt.alloc(); "{to}/{name}")?;
        move_file(rt, one.as_str(), other.as_str(), to)?;
    }
    let _ = fs::remove_dir(rt, from);
    Ok(())
}

/// Moves loose objects out of quarantine.
pub(crate) fn migrate_objects(
    rt: &HostRuntime,
    paths: &RepositoryPaths,
    plan: &PackPlan,
) -> Result<(), Error> {
    for entry in fs::read_dir(rt, plan.folder.as_str())? {
        let entry = entry?;
        let name = entry.file_name();
        if is_object_folder(name.as_bytes()) {
            let from = format!(in rt.alloc(); "{}/{name}", plan.folder)?;
            let to = format!(in rt.alloc(); "{}/{name}", paths.objects)?;
            // a new folder keeps the permissions that git gave it
            if fs::rename(rt, from.as_str(), to.as_str()).is_err() {
                move_objects(rt, from.as_str(), to.as_str())?;
            }
        }
    }
    Ok(())
}
