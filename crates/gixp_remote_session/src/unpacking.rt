//! The unpack limit of the user (git-config, "fetch.unpackLimit", "transfer.unpackLimit").
use crate::error::{Error, unless_reported};
use crate::job::FetchJob;
use crate::shell::Shell;
use gixp_remote_rules::{Question, may_unpack, parse_limit, unpack_limit};

// The limit of a setting. git parses the number, and reports an error itself.
fn read_limit(job: FetchJob<'_, '_>, shell: &mut Shell, name: &[u8]) -> Result<Option<u32>, Error> {
    if job.context.settings.last(name).is_none() {
        return Ok(None);
    }
    let output = shell.ask_git(job.context.rt, Question::Number(name))?;
    if output.status == 0 {
        Ok(parse_limit(&output.text))
    } else {
        Err(unless_reported(
            output.status,
            "git can't read the unpack limit: its status is",
        ))
    }
}

/// A pack with fewer objects is unpacked. `None` keeps every pack.
pub(crate) fn choose_limit(
    job: FetchJob<'_, '_>,
    shell: &mut Shell,
    has_checks: bool,
) -> Result<Option<u32>, Error> {
    if !may_unpack(job.options, has_checks) {
        return Ok(None);
    }
    let transfer = read_limit(job, shell, b"transfer.unpacklimit")?;
    let fetch = read_limit(job, shell, b"fetch.unpacklimit")?;
    Ok(Some(unpack_limit(transfer, fetch)))
}
