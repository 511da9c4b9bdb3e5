//! Creates and removes the quarantine of a pack: an object directory of its own.
use crate::error::Error;
use crate::pack::plan::PackPlan;
use crate::pack::state::PackState;
use crate::pipes::{BOUNDARY, IDS};
use crate::shell::Shell;
use gixp_remote_rules::ShellRequest;
use std::io::ErrorKind;
use std::{fs, io};

/// Creates the quarantine, unless a pack is in it already. The shell removes it at the end.
pub(crate) fn make_folder(
    rt: &HostRuntime,
    shell: &mut Shell,
    plan: &PackPlan,
) -> Result<(), Error> {
    if shell.pack == PackState::Unbegun {
        shell.ask(&ShellRequest::Folder(plan.folder.as_bytes()))?;
        fs::create_dir_all(rt, plan.folder.as_str())?;
    }
    Ok(())
}

// Returns the error of a removal, unless the file or folder didn't exist.
fn unless_absent(removed: io::Result<()>) -> io::Result<()> {
    match removed {
        Ok(()) => Ok(()),
        Err(e) => {
            if e.kind() == ErrorKind::NotFound {
                Ok(())
            } else {
                Err(e)
            }
        }
    }
}

// Removes the files of a quarantine that has no pack, and its folders. Stops at the first error.
fn remove_quarantine(rt: &HostRuntime, plan: &PackPlan) -> Result<(), Error> {
    let folder = &plan.folder;
    unless_absent(fs::remove_file(rt, plan.shallow.as_str()))?;
    for name in [IDS, BOUNDARY] {
        let path = format!(in rt.alloc(); "{folder}/{name}")?;
        unless_absent(fs::remove_file(rt, path.as_str()))?;
    }
    let packs = format!(in rt.alloc(); "{folder}/pack")?;
    unless_absent(fs::remove_dir(rt, packs.as_str()))?;
    unless_absent(fs::remove_dir(rt, folder.as_str()))?;
    Ok(())
}

/// Removes the quarantine after a fetch that succeeded. After an error the shell removes the rest
/// when the helper ends. If it fails too, it prints the error.
pub(crate) fn clear_folder(rt: &HostRuntime, plan: &PackPlan) {
    let _ = remove_quarantine(rt, plan);
}
