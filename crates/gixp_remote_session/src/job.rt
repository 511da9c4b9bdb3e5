//! A fetch that git asks for: the request to the server, and the commits for haves.
ghost use Rattle.std.specs.Prelude.{◌≡◌, ◌&&◌, ◌||◌, if◌then◌else◌, true, false, not, IfOk, Ok, map, option_map, string_bytes};
ghost use Rattle.bstr.specs.Owned.{bstring_bytes};
ghost use Rattle.gix_protocol.specs.Values.{mapping_value};
ghost use Rattle.gixp_shallow.specs.Shallow.{shallow_value};
ghost use Rattle.gix_protocol.specs.TagsType.TheVariants.{Included, None};
ghost use Rattle.gix_protocol.specs.AlgorithmType.TheVariants.{Noop};
ghost use Rattle.gixp_fetch_common.specs.declared.haves.Haves.TheVariants.{By};
ghost use Rattle.gixp_remote_session.specs.Downloads.{protocols_of};
ghost use Rattle.gixp_remote_session.specs.Wanted.{wanted};

use crate::connect::ServerContext;
use crate::error::Error;
use crate::pipes::COMMITS;
use crate::repository::{ask_refs, new_repository, read_repository};
use crate::setup::{bytes_of, choose_haves, variable};
use crate::shell::{NOTHING, Shell};
use crate::uris::protocols_of;
use bstr::ByteSlice;
use gix_protocol::client::Request;
use gix_protocol::fetch::negotiate::Algorithm;
use gix_protocol::fetch::refmap::{Mapping, Source, SpecIndex};
use gix_protocol::fetch::{RefMap, Shallow, Tags};
use gix_protocol::transport::{Kind, ObjectId};
use gixp_fetch_common::Haves;
use gixp_fetch_common::repository::KnownRepository;
use gixp_remote_rules::{
    HelperOptions, Program, Question, ShellTask, Start, listing_argv, question_variables,
};
use std::alloc::{AllocError, Global};
use std::fs::File;

/// A fetch that git asks for.
#[derive(Clone, Copy)]
pub(crate) struct FetchJob<'a, 'b> {
    pub(crate) context: ServerContext<'a>,
    pub(crate) options: &'b HelperOptions,
    /// The ids that git asks for.
    pub(crate) ids: &'b [ObjectId],
}

/// The ref map, which has only the ids.
pub(crate) fn map_of_ids(alloc: Global, ids: &[ObjectId]) -> Result<RefMap, Error>
    ensures wanted { IfOk result (λ m. map mapping_value m.mappings.items ≡ map wanted ids.now) }
{
    let mut mappings = Vec::new(alloc);
    for id in ids {
        mappings.push(Mapping {
            remote: Source::ObjectId(*id),
            local: None,
            spec_index: SpecIndex::ExplicitInRemote(0),
        })?;
    }
    Ok(RefMap {
        mappings,
        refspecs: Vec::new(alloc),
        extra_refspecs: Vec::new(alloc),
        fixes: Vec::new(alloc),
        remote_refs: Vec::new(alloc),
        object_hash: Kind::Sha1,
    })
}

fn tags_of(options: &HelperOptions) -> Tags
    ensures { result ≡ (if options.now.follows_tags then Included else None) }
{
    if options.follows_tags {
        Tags::Included
    } else {
        Tags::None
    }
}

/// The request to the server, without a filter. If the server reports an error on band 3, the fetch
/// goes on, and the error is reported at its end.
pub(crate) fn request_of(
    alloc: Global,
    job: FetchJob<'_, '_>,
    shallow: &Shallow,
) -> Result<Request, AllocError>
    ensures tags { IfOk result (λ request. request.tags ≡ (if job.entry.options.now.follows_tags then Included else None)) }
    ensures shallow { IfOk result (λ request. shallow_value request.shallow ≡ shallow_value shallow.now) }
    ensures goes_on { IfOk result (λ request. request.goes_on ≡ true) }
    ensures trusts { IfOk result (λ request. request.trusts_objects ≡ true) }
    ensures pipes { IfOk result (λ request. request.is_over_pipes ≡ true) }
    ensures rejects { IfOk result (λ request. request.rejects_shallow ≡ job.entry.options.now.rejects_shallow) }
    ensures progress { IfOk result (λ request. request.wants_progress ≡ (job.entry.options.now.shows_progress && not job.entry.options.now.is_quiet)) }
    ensures uris { IfOk result (λ request. request.uri_protocols
        ≡ protocols_of job.entry.context.uri_setting.http job.entry.context.uri_setting.https) }
{
    let options = job.options;
    let mut request = Request::new(alloc);
    request.tags = tags_of(options);
    request.shallow = shallow.clone()?;
    request.rejects_shallow = options.rejects_shallow;
    request.goes_on = true;
    // git was asked what the refs reach.
    request.trusts_objects = true;
    request.wants_progress = options.wants_progress();
    request.uri_protocols = protocols_of(job.context.uri_setting);
    Ok(request)
}

/// The filter that git asks for.
pub(crate) fn filter_of(alloc: Global, options: &HelperOptions) -> Result<Option<String>, Error>
    ensures { IfOk result (λ filter. option_map string_bytes filter ≡ option_map bstring_bytes options.now.filter) }
{
    let Some(filter) = &options.filter else {
        return Ok(None);
    };
    match filter.as_bytes().to_str() {
        Ok(filter) => Ok(Some(String::from_str(alloc, filter)?)),
        Err(_) => Err(Error::with_text(alloc, "this filter is not UTF-8:", filter.as_bytes())),
    }
}

// Starts git, which lists commits while the haves are sent.
fn start_listing(job: FetchJob<'_, '_>, shell: &mut Shell) -> Result<(), Error> {
    let alloc = job.context.rt.alloc();
    let limit = variable(job.context.rt, "GIXP_COMMITS")?;
    let argv = listing_argv(alloc, bytes_of(&limit))?;
    let variables = question_variables(alloc, &[])?;
    shell.start(Start {
        task: ShellTask::Listing,
        program: Program::Git,
        input: NOTHING,
        output: COMMITS,
        variables: &variables,
        argv: &argv,
    })
}

// Whether haves are sent: not for a refetch, and not in a clone without alternates.
fn offers_commits(options: &HelperOptions, has_alternates: bool) -> bool
    ensures { result ≡ (not options.now.is_refetch && (not options.now.is_cloning || has_alternates)) }
{
    !options.is_refetch && (!options.is_cloning || has_alternates)
}

/// How the haves are chosen.
pub(crate) fn haves_for(job: FetchJob<'_, '_>, has_alternates: bool) -> Result<Haves, Error>
    ensures none { (not job.entry.options.now.is_refetch && (not job.entry.options.now.is_cloning || has_alternates)) ≡ false
        → result ≡ Ok (By Noop) }
{
    if offers_commits(job.options, has_alternates) {
        choose_haves(job.context.rt, job.context.settings)
    } else {
        Ok(Haves::By(Algorithm::Noop))
    }
}

/// Starts the list of commits, if haves are sent in its order.
pub(crate) fn list_commits(
    job: FetchJob<'_, '_>,
    shell: &mut Shell,
    haves: Haves,
) -> Result<Option<File>, Error> {
    if haves != Haves::InOrder {
        return Ok(None);
    }
    start_listing(job, shell)?;
    Ok(Some(File::open(job.context.rt, COMMITS)?))
}

/// Starts all questions to git at once: the paths of the repository, its refs, and the list of
/// commits, as far as it is known that haves are sent.
pub(crate) fn start_questions(
    job: FetchJob<'_, '_>,
    shell: &mut Shell,
) -> Result<Option<File>, Error> {
    shell.start_watch()?;
    shell.ask_paths()?;
    if offers_commits(job.options, false) {
        ask_refs(job.context.rt.alloc(), shell)?;
    }
    list_commits(job, shell, haves_for(job, false)?)
}

/// Starts the questions about refs and commits that are needed because of alternates.
pub(crate) fn start_borrowed_questions(
    job: FetchJob<'_, '_>,
    shell: &mut Shell,
    has_alternates: bool,
    haves: Haves,
) -> Result<Option<File>, Error> {
    if offers_commits(job.options, has_alternates) && !offers_commits(job.options, false) {
        ask_refs(job.context.rt.alloc(), shell)?;
    }
    list_commits(job, shell, haves)
}

/// The objects and refs of the repository that fetches. Commits are read only if a negotiator
/// chooses the haves.
pub(crate) fn known_repository(
    job: FetchJob<'_, '_>,
    shell: &mut Shell,
    boundary: &[ObjectId],
    has_alternates: bool,
    haves: Haves,
) -> Result<KnownRepository, Error> {
    let alloc = job.context.rt.alloc();
    let boundary = Vec::from_slice(alloc, boundary)?;
    if !offers_commits(job.options, has_alternates) {
        return Ok(new_repository(alloc, boundary));
    }
    let mut found = read_repository(job.context.rt, shell, boundary)?;
    if haves != Haves::InOrder && haves != Haves::By(Algorithm::Noop) {
        let output = shell.ask_git(job.context.rt, Question::Commits)?;
        if found.objects.read_commits(alloc, &output.text).is_err() {
            return Err(Error::Other("the repository can't be read"));
        }
    }
    Ok(found)
}
