//! Checks which objects are present and connected.
ghost use Rattle.std.specs.Prelude.{◌≡◌, ◌↔◌, IsOk};

use crate::error::Error;
use crate::fetch_result::FetchResult;
use crate::job::FetchJob;
use crate::pack::plan::PackPlan;
use crate::pack::quarantine::make_folder;
use crate::pipes::{BOUNDARY, IDS};
use crate::repository::listed_objects;
use crate::shell::{GitOutput, Shell};
use bstr::BString;
use gix_protocol::fetch::shallow_text;
use gix_protocol::transport::ObjectId;
use gixp_remote_rules::{
    ConnectivityCheck, Program, Question, ShellTask, connectivity_check, question_argv,
    question_variables, roots,
};
use std::collections::BTreeSet;
use std::fs;

// Asks git about ids, which it reads from a file in the quarantine. `variables` decide which
// objects git sees.
fn ask_about(
    job: FetchJob<'_, '_>,
    shell: &mut Shell,
    plan: &PackPlan,
    variables: &[BString],
    question: Question<'_>,
    ids: &[ObjectId],
) -> Result<GitOutput, Error> {
    let rt = job.context.rt;
    let alloc = rt.alloc();
    let text = shallow_text(alloc, ids)?;
    make_folder(rt, shell, plan)?;
    let path = format!(in alloc; "{}/{IDS}", plan.folder)?;
    fs::write(rt, path.as_str(), text.as_slice())?;
    let argv = question_argv(alloc, question)?;
    let variables = question_variables(alloc, variables)?;
    shell.run(
        rt,
        ShellTask::Question,
        Program::Git,
        IDS,
        &variables,
        &argv,
    )
}

/// The ids whose objects are present, or only the commits among them. `variables` decide which
/// objects git sees.
pub(crate) fn present_ids(
    job: FetchJob<'_, '_>,
    shell: &mut Shell,
    plan: &PackPlan,
    variables: &[BString],
    ids: &[ObjectId],
    commits_alone: bool,
) -> Result<BTreeSet<ObjectId>, Error> {
    let alloc = job.context.rt.alloc();
    let output = ask_about(job, shell, plan, variables, Question::Present, ids)?;
    if output.status != 0 {
        return Err(Error::Other("the repository can't be read"));
    }
    let mut found = BTreeSet::new(alloc);
    for listed in listed_objects(alloc, &output.text)? {
        if listed.is_commit || !commits_alone {
            found.insert(listed.id)?;
        }
    }
    Ok(found)
}

/// Fails if git must check connectivity now and an object is missing. The new boundary, if there is
/// one, is in the quarantine.
pub(crate) fn check_connected(
    job: FetchJob<'_, '_>,
    shell: &mut Shell,
    plan: &PackPlan,
    fetched: &FetchResult,
    old: &[ObjectId],
    new: Option<&[ObjectId]>,
) -> Result<(), Error> {
    let alloc = job.context.rt.alloc();
    let has_boundary = fetched.pack.has_boundary();
    let variables = fetched.variables(plan);
    match connectivity_check(job.options, new.is_some(), has_boundary) {
        ConnectivityCheck::Skip => Ok(()),
        ConnectivityCheck::Deepened => {
            let new = new.unwrap_or(&[]);
            let ids = roots(alloc, job.ids, old, &new.iter().copied().collect(alloc)?)?;
            let path = format!(in alloc; "{}/{BOUNDARY}", plan.folder)?;
            let path: &[u8] = if new.is_empty() { b"" } else { path.as_bytes() };
            let output = ask_about(job, shell, plan, variables, Question::Connected(path), &ids)?;
            connected_by(output.status, "remote did not send all necessary objects")
        }
        ConnectivityCheck::Unasked => {
            let output = ask_about(
                job,
                shell,
                plan,
                variables,
                Question::ConnectedToRefs,
                job.ids,
            )?;
            connected_by(
                output.status,
                "shallow update not allowed: the server is shallow, and only --update-shallow takes over its boundary",
            )
        }
    }
}

// Fails if git exited with another status than 0.
fn connected_by(status: u32, why: &'static str) -> Result<(), Error>
    ensures { IsOk result ↔ (status ≡ 0) }
{
    if status == 0 {
        Ok(())
    } else {
        Err(Error::Fatal(why))
    }
}
