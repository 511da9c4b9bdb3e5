//! One fetch of objects by their ids.
ghost use Rattle.std.specs.Prelude.{◌≡◌, ◌==◌, Bool, length, IfOk};
ghost use Rattle.gixp_remote_rules.specs.HelperOptions.{options_value};
ghost use Rattle.gixp_remote_session.specs.ServerLeft.{server_left};
ghost use Rattle.gixp_remote_session.specs.Packs.{ErrorIsFailure, is_connected};

use crate::boundary::{
    boundary_of, changed, lock_boundary, prepare_boundary, replace_boundary, unlock_boundary,
};
use crate::connect::{ServerContext, drop_session, shake_hands, start_server};
use crate::connectivity::check_connected;
use crate::error::Error;
use crate::fetch_result::FetchResult;
use crate::first_haves::fetch_with_first;
use crate::fsck::fsck_argv;
use crate::history::shallow_of;
use crate::job::{
    FetchJob, filter_of, haves_for, known_repository, list_commits, map_of_ids, request_of,
    start_borrowed_questions, start_questions,
};
use crate::migrate::{migrate_objects, migrate_pack};
use crate::pack::plan::{PackPlan, PackRules};
use crate::pack::run::BAD_HEADER;
use crate::pack::state::PackState;
use crate::pack::{PackPreamble, QuarantinedPack};
use crate::paths::RepositoryPaths;
use crate::readiness::Readiness;
use crate::shallow_observer::clear_updates;
use crate::shell::{NOT_STARTED, Shell};
use crate::transport::HelperSession;
use crate::unpacking::choose_limit;
use crate::uris::{clear_uris, download_all, expect_lines};
use bstr::BString;
use gix_protocol::client;
use gix_protocol::client::Fetched;
use gix_protocol::fetch::Shallow;
use gix_protocol::transport::{ObjectId, Protocol};
use gixp_fetch_common::failure::{Failure, unless_failed};
use gixp_fetch_common::negotiate::{negotiate, offer_in_order};
use gixp_fetch_common::receive::PackReceiver;
use gixp_fetch_common::repository::KnownRepository;
use gixp_fetch_common::session::{MappedFetch, ask_filter};
use gixp_fetch_common::{Haves, PackPlace};
use gixp_remote_rules::{BoundaryChange, HelperOptions, reports_connectivity};
use std::alloc::Global;
use std::fs::File;
use std::io::ErrorKind;

/// The session, if one is open.
pub(crate) type OpenSession<'a> = Option<HelperSession<'a>>;

// The parts of a fetch that are known before its session.
#[derive(Clone, Copy)]
struct FetchPlan<'a, 'b, 'c> {
    job: FetchJob<'a, 'b>,
    shallow: &'c Shallow,
    filter: Option<&'c str>,
    haves: Haves,
    pack: &'c PackPlan,
}

// Fetches with all haves.
fn fetch_with_all<P: PackPlace>(
    context: ServerContext<'_>,
    session: &mut HelperSession<'_>,
    repository: &mut KnownRepository,
    asked: MappedFetch<'_>,
    commits: Option<File>,
    pack: &mut PackReceiver<P>,
) -> Result<Fetched, Failure> {
    let alloc = context.rt.alloc();
    match commits {
        Some(file) => { offer_in_order(alloc, session, repository, asked, "commits", file, pack) }
        None => negotiate(context.rt, session, repository, asked, pack),
    }
}

// Fetches over a session. Returns the boundary as the server has it.
fn run_fetch<P: PackPlace + Drop>(
    context: ServerContext<'_>,
    session: &mut HelperSession<'_>,
    asked: MappedFetch<'_>,
    repository: &mut KnownRepository,
    commits: Option<File>,
    place: P,
) -> Result<Vec<ObjectId>, Failure> {
    let alloc = context.rt.alloc();
    let mut pack = PackReceiver::new(alloc, place);
    let fetched = if context.missing.get().acknowledges_one() {
        fetch_with_first(alloc, session, repository, asked, commits, &mut pack)
    } else {
        fetch_with_all(context, session, repository, asked, commits, &mut pack)
    };
    match unless_failed(fetched, context.has_failed.get()) {
        Ok(fetched) => keep_pack(alloc, &mut pack, &fetched.boundary),
        Err(e) => {
            pack.give_up();
            Err(e)
        }
    }
}

// The error if the pack isn't accepted. git reports the reason itself.
fn refusal_of(kind: ErrorKind) -> Failure {
    match kind {
        ErrorKind::OutOfMemory => Failure::Memory,
        _ => Failure::PackRefused,
    }
}

// Waits until git has accepted the pack. Returns the boundary as the server has it.
fn keep_pack<P: PackPlace>(
    alloc: Global,
    pack: &mut PackReceiver<P>,
    boundary: &client::Boundary,
) -> Result<Vec<ObjectId>, Failure> {
    match pack.keep() {
        Ok(_) => {}
        Err(e) => return Err(refusal_of(e.kind())),
    }
    Ok(boundary.with_unasked(alloc)?)
}

// The error of a fetch. A bad pack header, a git that isn't started and a refused pack override the
// session's error.
fn error_of(pack: PackState, e: Failure) -> Error
    ensures { ErrorIsFailure pack e result }
{
    match pack {
        PackState::Unreadable => Error::Fatal(BAD_HEADER),
        PackState::Unstarted => Error::Other(NOT_STARTED),
        PackState::Refused => Error::Fetch(Failure::PackRefused),
        PackState::Unbegun
        | PackState::Begun
        | PackState::Indexed(_)
        | PackState::Unpacked(_)
        | PackState::Empty(_) => Error::Fetch(e),
    }
}

// Downloads the packs that the server named by URIs, and returns the whole result.
fn fetch_result(
    job: FetchJob<'_, '_>,
    shell: &mut Shell,
    plan: &PackPlan,
    boundary: Vec<ObjectId>,
) -> Result<FetchResult, Error> {
    let pack = shell.pack;
    let packs = download_all(job, shell, plan, pack)?;
    Ok(FetchResult {
        pack,
        boundary,
        packs,
    })
}

// Fetches over one session.
fn fetch_over_session(
    plan: FetchPlan<'_, '_, '_>,
    shell: &mut Shell,
    session: &mut HelperSession<'_>,
    repository: &mut KnownRepository,
    commits: Option<File>,
) -> Result<FetchResult, Error> {
    let job = plan.job;
    let rt = job.context.rt;
    let mut request = request_of(rt.alloc(), job, plan.shallow)?;
    ask_filter(rt, session, &mut request, plan.filter)?;
    let map = map_of_ids(rt.alloc(), job.ids)?;
    let asked = MappedFetch {
        map: &map,
        request: &request,
        haves: plan.haves,
        commits: None,
    };
    let pack = plan.pack.copy(rt.alloc())?;
    if session.version() == Protocol::V2 {
        clear_updates(job.context.shallow_updates);
    }
    clear_uris(job.context.uris);
    job.context.readiness.set(Readiness::Unready);
    let preamble = PackPreamble {
        shallow_updates: job.context.shallow_updates,
        uris: job.context.uris,
    };
    let place = QuarantinedPack::new(rt.clone()?, shell, pack, preamble);
    let fetched = run_fetch(job.context, session, asked, repository, commits, place);
    job.context.readiness.get().expect_pack()?;
    expect_lines(job.context.uris)?;
    match fetched {
        Ok(boundary) => fetch_result(job, shell, plan.pack, boundary),
        Err(e) => Err(error_of(shell.pack, e)),
    }
}

// Whether the server closed an old session before a pack began. Then the fetch is tried over a new
// one. A web server gets each request on its own.
fn server_left(
    context: ServerContext<'_>,
    fetched: &Result<FetchResult, Error>,
    shell: &Shell,
) -> bool
    ensures { result ≡ server_left fetched.now shell.now.pack context.entry.address.now.scheme }
{
    match fetched {
        Ok(_) => false,
        Err(e) => {
            e.is_hang_up() && shell.pack == PackState::Unbegun && !context.address.scheme.is_web()
        }
    }
}

// Fetches over the open session, or over a new one if there is none or the server has closed it.
fn fetch_or_reconnect<'a>(
    plan: FetchPlan<'a, '_, '_>,
    shell: &mut Shell,
    open: &mut OpenSession<'a>,
    repository: &mut KnownRepository,
    commits: Option<File>,
) -> Result<FetchResult, Error> {
    let context = plan.job.context;
    let mut commits = commits;
    if let Some(mut session) = open.take() {
        let fetched = fetch_over_session(plan, shell, &mut session, repository, commits.take());
        if !server_left(context, &fetched, shell) {
            store_or_end(context, session, open, fetched.is_ok());
            return fetched;
        }
        commits = list_commits(plan.job, shell, plan.haves)?;
    }
    let options = plan.job.options;
    start_server(context, shell, options.family)?;
    let mut session = shake_hands(context, options)?;
    let fetched = fetch_over_session(plan, shell, &mut session, repository, commits);
    store_or_end(context, session, open, fetched.is_ok());
    fetched
}

// Stores a session of version 2 that succeeded, and ends any other.
fn store_or_end<'a>(
    context: ServerContext<'a>,
    session: HelperSession<'a>,
    open: &mut OpenSession<'a>,
    is_well: bool,
) {
    if is_well && session.version() == Protocol::V2 {
        *open = Some(session);
    } else {
        drop_session(context, session);
    }
}

/// The parts of the reply to git.
#[derive(Drop)]
pub(crate) struct FetchReply {
    /// The lock of the pack.
    pub(crate) lock: Option<BString>,
    /// Whether connectivity was checked.
    pub(crate) is_connected: bool,
}

/// A fetch that succeeded.
#[derive(Drop)]
pub(crate) struct FinishedFetch {
    pub(crate) reply: FetchReply,
    /// The quarantine of the pack.
    pub(crate) pack: PackPlan,
}

// Moves the packs out of quarantine, the server's own pack last, and returns its lock. git accepts
// one lock from a helper. The shell removes the locks of the other packs at the end.
fn migrate_packs(
    rt: &HostRuntime,
    shell: &mut Shell,
    paths: &RepositoryPaths,
    plan: &PackPlan,
    fetched: &FetchResult,
) -> Result<Option<BString>, Error> {
    for pack in &fetched.packs {
        let _ = migrate_pack(rt, shell, paths, plan, pack)?;
    }
    match fetched.pack {
        PackState::Indexed(indexed) => migrate_pack(rt, shell, paths, plan, &indexed.hash),
        PackState::Unpacked(_) => {
            migrate_objects(rt, paths, plan)?;
            Ok(None)
        }
        PackState::Unbegun
        | PackState::Begun
        | PackState::Unreadable
        | PackState::Unstarted
        | PackState::Refused
        | PackState::Empty(_) => Ok(None),
    }
}

// Moves the packs out of quarantine, and changes the boundary. Whatever else can fail is done
// before.
fn finish_fetch(
    plan: FetchPlan<'_, '_, '_>,
    shell: &mut Shell,
    paths: &RepositoryPaths,
    old: &[ObjectId],
    fetched: &FetchResult,
) -> Result<FetchReply, Error>
    ensures connected { IfOk result (λ reply. (was_here : Bool) × (reply.is_connected ≡ is_connected
        (options_value plan.entry.job.options.now) fetched.now.pack (length fetched.now.packs.items == 0) was_here)) }
{
    let job = plan.job;
    let rt = job.context.rt;
    let (boundary, was_here) = boundary_of(job, shell, plan.pack, old, fetched)?;
    if let BoundaryChange::Refused(id) = &boundary {
        let digits = id.to_hex();
        return Err(Error::with_text(
            rt.alloc(),
            "the server's shallow boundary has an id that is not a commit of this repository:",
            &digits,
        ));
    }
    let new = changed(rt.alloc(), &boundary, old)?;
    if let Some(new) = &new {
        prepare_boundary(job, shell, paths, plan.pack, old, new)?;
    }
    check_connected(job, shell, plan.pack, fetched, old, new.as_deref())?;
    let lock = migrate_packs(rt, shell, paths, plan.pack, fetched)?;
    match &new {
        Some(new) => replace_boundary(rt, shell, paths, new)?,
        None => unlock_boundary(job.options, shell, paths)?,
    }
    let is_connected = is_connected(job.options, fetched, was_here);
    Ok(FetchReply { lock, is_connected })
}

// Whether git checked connectivity: it did so only if one pack came, and it indexed that.
fn is_connected(options: &HelperOptions, fetched: &FetchResult, was_here: bool) -> bool
    ensures { result ≡ is_connected (options_value options.now) fetched.now.pack (length fetched.now.packs.items == 0) was_here }
{
    match fetched.pack {
        PackState::Indexed(indexed) => {
            fetched.packs.is_empty()
                && reports_connectivity(options, indexed.has_boundary, was_here, indexed.status)
        }
        PackState::Unbegun
        | PackState::Begun
        | PackState::Unreadable
        | PackState::Unstarted
        | PackState::Refused
        | PackState::Unpacked(_)
        | PackState::Empty(_) => false,
    }
}

/// Fetches objects by their ids. The quarantine gets this name.
pub(crate) fn fetch<'a>(
    job: FetchJob<'a, '_>,
    shell: &mut Shell,
    open: &mut OpenSession<'a>,
    folder: &[u8],
) -> Result<FinishedFetch, Error> {
    let rt = job.context.rt;
    let alloc = rt.alloc();
    let mut commits = start_questions(job, shell)?;
    let paths = RepositoryPaths::read(rt, shell)?;
    paths.expect_format(alloc, job.options.is_cloning)?;
    if job.options.has_depth() {
        lock_boundary(alloc, shell, &paths)?;
    }
    let old = paths.boundary(rt)?;
    let shallow = shallow_of(rt, shell, job.options)?;
    let has_alternates = paths.has_alternates(rt)?;
    let haves = haves_for(job, has_alternates)?;
    if commits.is_none() {
        commits = start_borrowed_questions(job, shell, has_alternates, haves)?;
    }
    let mut repository = known_repository(job, shell, &old, has_alternates, haves)?;
    let checks = fsck_argv(job, shell)?;
    let rules = PackRules {
        checks: &checks,
        limit: choose_limit(job, shell, !checks.is_empty())?,
    };
    let pack = PackPlan::new(rt, &paths, folder, job.options, rules, &old)?;
    let filter = filter_of(alloc, job.options)?;
    let plan = FetchPlan {
        job,
        shallow: &shallow,
        filter: filter.as_deref(),
        haves,
        pack: &pack,
    };
    let fetched = fetch_or_reconnect(plan, shell, open, &mut repository, commits)?;
    let reply = finish_fetch(plan, shell, &paths, &old, &fetched)?;
    Ok(FinishedFetch { reply, pack })
}
