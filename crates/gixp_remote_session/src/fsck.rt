//! How git checks the objects of a pack (git-config, "fetch.fsckObjects", "fetch.fsck.<msg-id>").
ghost use Rattle.std.specs.Prelude.{◌≡◌, OnOk};
ghost use Rattle.gixp_remote_session.specs.FsckList.{with_pair};

use crate::error::{Error, print_error, unless_reported};
use crate::job::FetchJob;
use crate::shell::{NOTHING, Shell};
use bstr::{BString, ByteSlice};
use gixp_remote_rules::{
    MessageId, Program, Question, ShellTask, fsck_arg, is_true, message_id, path_answer,
    question_argv, question_variables,
};
use std::alloc::AllocError;

/// The arguments for checking objects, as `git fetch-pack` passes them.
pub(crate) fn fsck_argv(job: FetchJob<'_, '_>, shell: &mut Shell) -> Result<Vec<BString>, Error> {
    let alloc = job.context.rt.alloc();
    let settings = job.context.settings;
    let chosen = match settings.last(b"fetch.fsckobjects") {
        Some(found) => Some(found),
        None => settings.last(b"transfer.fsckobjects"),
    };
    let Some(chosen) = chosen else {
        return Ok(Vec::new(alloc));
    };
    match is_true(chosen) {
        Some(false) => return Ok(Vec::new(alloc)),
        Some(true) => {}
        None => return Err(Error::with_text(alloc, "bad boolean value of", chosen.name.as_bytes())),
    }
    let mut list = Vec::new(alloc);
    for entry in settings.entries() {
        if let Some(name) = entry.name.as_bytes().strip_prefix(b"fetch.fsck.") {
            if name == b"skiplist".as_slice() {
                add_skip_list(job, shell, &mut list, &entry.value)?;
            } else {
                add_severity(job, shell, &mut list, name, entry.text())?;
            }
        }
    }
    let mut argv = Vec::new(alloc);
    argv.push(BString::from(fsck_arg(alloc, job.options, &list)?))?;
    Ok(argv)
}

// Adds a word and its value to the list.
fn add_pair(list: &mut Vec<u8>, name: &[u8], value: &[u8]) -> Result<(), AllocError>
    ensures { OnOk result (list.new.items ≡ with_pair list.old.items name.now value.now) }
{
    let mark: &[u8] = if list.is_empty() { b"=" } else { b"," };
    list.extend_from_slice(mark)?;
    list.extend_from_slice(name)?;
    list.extend_from_slice(b"=")?;
    list.extend_from_slice(value)
}

// Adds the path of a list of objects that aren't checked. As in git, an entry without a value is
// reported and skipped, and each entry counts.
fn add_skip_list(
    job: FetchJob<'_, '_>,
    shell: &mut Shell,
    list: &mut Vec<u8>,
    value: &Option<BString>,
) -> Result<(), Error> {
    let rt = job.context.rt;
    let Some(value) = value else {
        print_error(rt, "error", &"missing value for 'fetch.fsck.skiplist'");
        return Ok(());
    };
    let output = shell.ask_git(rt, Question::SkipList(value.as_bytes()))?;
    match path_answer(&output.text, output.status) {
        Some(path) => Ok(add_pair(list, b"skiplist", path)?),
        None => Err(unless_reported(
            output.status,
            "git can't read fetch.fsck.skipList: its status is",
        )),
    }
}

// Adds a message and its severity, as the user set them.
fn add_severity(
    job: FetchJob<'_, '_>,
    shell: &mut Shell,
    list: &mut Vec<u8>,
    name: &[u8],
    value: &[u8],
) -> Result<(), Error> {
    let rt = job.context.rt;
    let alloc = rt.alloc();
    let argv = question_argv(alloc, Question::Check(name))?;
    let variables = question_variables(alloc, &[])?;
    let output = shell.run(
        rt,
        ShellTask::Probe,
        Program::Git,
        NOTHING,
        &variables,
        &argv,
    )?;
    match message_id(output.status) {
        Some(MessageId::Known) => Ok(add_pair(list, name, value)?),
        Some(MessageId::Unknown) => {
            let name = BString::from_slice(alloc, name)?;
            print_error(
                rt,
                "warning",
                &format!(in alloc; "Skipping unknown msg id '{name}'")?,
            );
            Ok(())
        }
        None => Err(Error::Status(
            "git can't check the name of a message: its status is",
            output.status,
        )),
    }
}
