//! Changes the shallow boundary, under git's own lock (gitrepository-layout, "shallow").
ghost use Rattle.std.specs.Prelude.{◌++◌, option_map, IfOk};
ghost use Rattle.gixp_remote_rules.specs.ShallowBoundary.{boundary_value};
ghost use Rattle.gixp_fetch_common.specs.ChangedBoundary.{ChangesTo};
ghost use Rattle.gixp_remote_session.specs.Boundaries.{boundary_then};

use crate::connectivity::present_ids;
use crate::error::Error;
use crate::fetch_result::FetchResult;
use crate::job::FetchJob;
use crate::pack::plan::PackPlan;
use crate::pack::quarantine::make_folder;
use crate::paths::RepositoryPaths;
use crate::pipes::BOUNDARY;
use crate::shell::Shell;
use gix_protocol::fetch::shallow_text;
use gix_protocol::transport::ObjectId;
use gixp_fetch_common::boundary_to_write;
use gixp_remote_rules::{
    BoundaryChange, HelperOptions, ShallowPolicy, ShellRequest, added, boundary_after,
    shallow_policy,
};
use std::alloc::{AllocError, Global};
use std::collections::BTreeSet;
use std::fs;

/// The boundary after the fetch, and whether an id that is added to it was present before the
/// fetch. Called before the pack is moved out of quarantine.
pub(crate) fn boundary_of(
    job: FetchJob<'_, '_>,
    shell: &mut Shell,
    plan: &PackPlan,
    old: &[ObjectId],
    fetched: &FetchResult,
) -> Result<(BoundaryChange, bool), Error> {
    let alloc = job.context.rt.alloc();
    let known: BTreeSet<ObjectId> = old.iter().copied().collect(alloc)?;
    let ids = added(alloc, &known, &fetched.boundary)?;
    let policy = shallow_policy(job.options);
    let mut before = BTreeSet::new(alloc);
    let mut commits = BTreeSet::new(alloc);
    if !ids.is_empty() && policy != ShallowPolicy::Keep {
        before = present_ids(job, shell, plan, &[], &ids, false)?;
        commits = present_ids(job, shell, plan, fetched.variables(plan), &ids, true)?;
    }
    let boundary = boundary_after(alloc, policy, &fetched.boundary, &ids, &before, &commits)?;
    Ok((boundary, !before.is_empty()))
}

/// Takes git's lock of the boundary.
pub(crate) fn lock_boundary(
    alloc: Global,
    shell: &mut Shell,
    paths: &RepositoryPaths,
) -> Result<(), Error> {
    let lock = paths.shallow_lock.as_bytes();
    if shell.ask(&ShellRequest::Hold(lock))? == 0 {
        Ok(())
    } else {
        Err(Error::with_text(
            alloc,
            "Unable to create (it exists, or can't be written)",
            lock,
        ))
    }
}

// The old boundary and more ids, if there are more.
fn grown(
    alloc: Global,
    old: &[ObjectId],
    more: &[ObjectId],
) -> Result<Option<Vec<ObjectId>>, AllocError>
    ensures { IfOk result (λ new. ChangesTo old.now (old.now ++ more.now) (option_map (λ v. v.items) new)) }
{
    if more.is_empty() {
        return Ok(None);
    }
    let mut ids = Vec::from_slice(alloc, old)?;
    ids.extend_from_slice(more)?;
    Ok(Some(ids))
}

/// The new boundary, unless it is the old one.
pub(crate) fn changed(
    alloc: Global,
    boundary: &BoundaryChange,
    old: &[ObjectId],
) -> Result<Option<Vec<ObjectId>>, AllocError>
    ensures { IfOk result (λ new. ChangesTo old.now (boundary_then old.now (boundary_value boundary.now)) (option_map (λ v. v.items) new)) }
{
    match boundary {
        BoundaryChange::Becomes(ids) => boundary_to_write(alloc, old, ids),
        BoundaryChange::Grows(more) => grown(alloc, old, more),
        BoundaryChange::Stays | BoundaryChange::Refused(_) => Ok(None),
    }
}

/// Writes the new boundary into the quarantine, under git's lock. Fails if the boundary has changed
/// since it was read.
pub(crate) fn prepare_boundary(
    job: FetchJob<'_, '_>,
    shell: &mut Shell,
    paths: &RepositoryPaths,
    plan: &PackPlan,
    old: &[ObjectId],
    new: &[ObjectId],
) -> Result<(), Error> {
    let rt = job.context.rt;
    if !job.options.has_depth() {
        lock_boundary(rt.alloc(), shell, paths)?;
    }
    if paths.own_boundary(rt)?.as_slice() != old {
        return Err(Error::Fatal("shallow file has changed since we read it"));
    }
    let text = shallow_text(rt.alloc(), new)?;
    make_folder(rt, shell, plan)?;
    let path = format!(in rt.alloc(); "{}/{BOUNDARY}", plan.folder)?;
    fs::write(rt, path.as_str(), text.as_slice())?;
    Ok(())
}

/// Replaces the boundary by the one that was prepared, and releases the lock.
pub(crate) fn replace_boundary(
    rt: &HostRuntime,
    shell: &mut Shell,
    paths: &RepositoryPaths,
    new: &[ObjectId],
) -> Result<(), Error> {
    let lock = paths.shallow_lock.as_bytes();
    if new.is_empty() {
        let _ = fs::remove_file(rt, paths.shallow.as_str());
        shell.ask(&ShellRequest::Free(lock))?;
        return Ok(());
    }
    if shell.ask(&ShellRequest::Replace(lock, paths.shallow.as_bytes()))? == 0 {
        Ok(())
    } else {
        Err(Error::Other("the shallow boundary can't be written"))
    }
}

/// Releases the lock of the boundary, if it is held.
pub(crate) fn unlock_boundary(
    options: &HelperOptions,
    shell: &mut Shell,
    paths: &RepositoryPaths,
) -> Result<(), Error> {
    if options.has_depth() {
        shell.ask(&ShellRequest::Free(paths.shallow_lock.as_bytes()))?;
    }
    Ok(())
}
