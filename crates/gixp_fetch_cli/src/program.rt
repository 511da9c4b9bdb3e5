//! The run of `gixp_fetch_pack`: the command line, the session, the report and the status.
ghost use Rattle.std.specs.Prelude.{◌≡◌, ◌&&◌, [], None, is_some, option_map, Ok, Err, IfOk, IfErr, OnOk};
ghost use Rattle.gix_protocol.specs.Boundaries.{ids_after};
ghost use Rattle.gix_protocol.specs.UpdateErrorType.{Error as UpdateError};
ghost use Rattle.gixp_fetch_common.specs.ChangedBoundary.{ChangesTo};
ghost use Rattle.gixp_fetch_common.specs.Failures.{FailureIsUpdate};
ghost use Rattle.gixp_fetch_common.specs.Received.{DropsHeld};
ghost use Rattle.gixp_fetch_cli.specs.Kept.{KeepsOrDrops};
ghost use Rattle.gixp_fetch_cli.specs.ReportedChanges.{knows_commits, local_side, ReportsChanges};

use crate::change::{Change, changes};
use crate::connection::connect;
use crate::files::{ask_objects, read_repository, write_boundary};
use crate::missing::missing_name;
use crate::options::{FetchArgs, OptionError, OutputOptions, ProgramOptions, Server, Task};
use crate::report::{listing, report};
use crate::request::request_of;
use crate::streams::{ClientStream, ServerStream};
use crate::usage::{USAGE, VERSION, print_refusal};
use gix_protocol::client::{Fetched, Session};
use gix_protocol::fetch::RefMap;
use gix_protocol::fetch::negotiate::{Find, Graph, RefStore, Shared, StoredObjects, StoredRefs};
use gix_protocol::transport::{Connection, Discard, ObjectId, Transport};
use gixp_fetch_common::failure::{Failure, unless_failed};
use gixp_fetch_common::messages::MessagePrinter;
use gixp_fetch_common::negotiate::negotiate;
use gixp_fetch_common::receive::PackReceiver;
use gixp_fetch_common::repository::KnownRepository;
use gixp_fetch_common::session::{MappedFetch, ask_filter, map, open, refs};
use gixp_fetch_common::{Haves, PackFile, PackPlace, boundary_to_write};
use gixp_pack::PackSummary;
use std::alloc::Global;
use std::cell::Cell;
use std::fs::{File, OpenOptions};
use std::io::{BufWriter, Input, Printer, StdinLock, Write};
use std::process::ExitCode;
use std::{env, fs, io};

// The words of the command line.
fn read_words(rt: &HostRuntime) -> Result<Vec<String>, Failure> {
    let words = env::args(rt).map_err(|e| Failure::Io(e.kind()))?;
    let mut found = Vec::new(rt.alloc());
    for word in words.skip(1) {
        found.push(word)?;
    }
    Ok(found)
}

// The stream to the server. It is buffered, since each line is written in three pieces.
type ServerInput<'a> = BufWriter<ClientStream<File, Printer<'a, HostRuntime>>>;

type ServerOutput = ServerStream<File, StdinLock<'static>>;

fn open_target<'a>(rt: &'a HostRuntime, path: &str) -> Result<ServerInput<'a>, Failure> {
    let alloc = rt.alloc();
    let target = if path == "-" {
        ClientStream::Standard(io::writer(rt))
    } else {
        let file = OpenOptions::new()
            .write(true)
            .open(rt, path)
            .map_err(|e| Failure::of_file(alloc, path, e.kind()))?;
        ClientStream::File(file)
    };
    BufWriter::new(alloc, target).map_err(|_| Failure::Memory)
}

fn open_source(rt: &HostRuntime, path: &str) -> Result<ServerOutput, Failure> {
    if path == "-" {
        return Ok(ServerStream::Standard(rt.reader()));
    }
    let file = File::open(rt, path).map_err(|e| Failure::of_file(rt.alloc(), path, e.kind()))?;
    Ok(ServerStream::File(file))
}

// Opens the server's input first: the server may wait for that before it opens its output.
fn open_transport<'a>(
    rt: &'a HostRuntime,
    server: &Server<'_>,
) -> Result<Connection<ServerOutput, ServerInput<'a>>, Failure> {
    let to = open_target(rt, server.to)?;
    let from = open_source(rt, server.from)?;
    Ok(connect(rt.alloc(), from, to, server)?)
}

// Writes a text to the file of the report, or to standard output unless the output is quiet.
fn write_output(rt: &HostRuntime, output: &OutputOptions<'_>, text: &[u8]) -> Result<(), Failure> {
    if let Some(path) = output.report {
        return fs::write(rt, path, text).map_err(|e| Failure::of_file(rt.alloc(), path, e.kind()));
    }
    if output.is_quiet {
        return Ok(());
    }
    let mut writer = io::writer(rt);
    writer.write_all(text).map_err(|e| Failure::Io(e.kind()))
}

fn printer<'a>(
    rt: &'a HostRuntime,
    has_failed: &'a Cell<bool>,
) -> Result<MessagePrinter<'a>, Failure> {
    MessagePrinter::new(rt, false, has_failed).map_err(|_| Failure::Memory)
}

// Lists the refs of the server, and ends the session unless `keeps_open`.
fn list(rt: &HostRuntime, options: &ProgramOptions<'_>, keeps_open: bool) -> Result<(), Failure> {
    let alloc = rt.alloc();
    let transport = open_transport(rt, &options.server)?;
    let has_failed = Cell::new(false);
    let printer = printer(rt, &has_failed)?;
    let mut session = open(alloc, transport, options.server.agent, printer, Discard)?;
    let text = listing(alloc, refs(alloc, &mut session)?)?;
    if keeps_open {
        let _ = session.into_transport();
    } else {
        drop(session);
    }
    write_output(rt, &options.output, &text)
}

// Fetches the mapped refs, writes the new boundary, and then keeps the pack.
fn fetch_pack<T: Transport + Drop>(
    rt: &HostRuntime,
    session: &mut Session<T, MessagePrinter<'_>, Discard>,
    repository: &mut KnownRepository,
    asked: MappedFetch<'_>,
    path: &str,
    shallow: Option<&str>,
) -> Result<Option<PackSummary>, Failure>
    ensures { asked.entry.map.now.mappings.items ≡ [] → (result ≡ Ok None) × (session.new ≡ session.old)
        × (repository.new ≡ repository.old) }
{
    let alloc = rt.alloc();
    if asked.map.is_empty() {
        return Ok(None);
    }
    let mut pack = PackReceiver::new(alloc, PackFile::new(rt, alloc, path)?);
    let fetched = negotiate(rt, session, repository, asked, &mut pack);
    let fetched = unless_failed(fetched, session.listener().has_failed());
    let written = write_new_boundary(rt, shallow, &repository.boundary, fetched);
    keep_pack(alloc, path, written, &mut pack)
}

// Keeps the pack of a fetch whose boundary was written, and removes any other.
fn keep_pack<P: PackPlace>(
    alloc: Global,
    path: &str,
    written: Result<(), Failure>,
    pack: &mut PackReceiver<P>,
) -> Result<Option<PackSummary>, Failure>
    ensures written { OnOk written (KeepsOrDrops P.keeps P.gives_up path.now pack.old.whole pack.old.place result pack.new.place) }
    ensures unwritten { IfErr written (λ e. (result ≡ Err e) × DropsHeld P.gives_up pack.old.whole pack.old.place pack.new.place) }
    ensures over { pack.new.whole ≡ None }
{
    match written {
        Ok(()) => match pack.keep() {
            Ok(summary) => Ok(summary),
            Err(e) => Err(Failure::of_file(alloc, path, e.kind())),
        },
        Err(e) => {
            pack.give_up();
            Err(e)
        }
    }
}

// The boundary to write after a fetch that succeeded, if it differs from the old one.
fn changed_boundary(
    alloc: Global,
    old: &[ObjectId],
    fetched: Result<Fetched, Failure>,
) -> Result<Option<Vec<ObjectId>>, Failure>
    ensures changed { IfOk fetched (λ f. IfOk result (λ new.
        ChangesTo old.now (ids_after f.boundary.ids.items f.boundary.unasked.items) (option_map (λ v. v.items) new))) }
    ensures failed { IfErr fetched (λ e. result ≡ Err e) }
{
    match fetched {
        Ok(fetched) => {
            let boundary = fetched.boundary.with_unasked(alloc)?;
            Ok(boundary_to_write(alloc, old, &boundary)?)
        }
        Err(unfetched) => Err(unfetched),
    }
}

// Writes the boundary of a fetch that succeeded, if it differs from the old one.
fn write_new_boundary(
    rt: &HostRuntime,
    path: Option<&str>,
    old: &[ObjectId],
    fetched: Result<Fetched, Failure>,
) -> Result<(), Failure>
    ensures { IfErr fetched (λ e. result ≡ Err e) }
{
    match changed_boundary(rt.alloc(), old, fetched) {
        Ok(Some(boundary)) => write_boundary(rt, path, &boundary),
        Ok(None) => Ok(()),
        Err(e) => Err(e),
    }
}

fn fetch(
    rt: &HostRuntime,
    options: &ProgramOptions<'_>,
    fetch_args: &FetchArgs<'_>,
) -> Result<(), Failure> {
    let alloc = rt.alloc();
    let mut repository = read_repository(rt, &options.files, fetch_args.haves)?;
    let transport = open_transport(rt, &options.server)?;
    let has_failed = Cell::new(false);
    let printer = printer(rt, &has_failed)?;
    let mut session = open(alloc, transport, options.server.agent, printer, Discard)?;
    let mut request = request_of(alloc, fetch_args, options.output.shows_progress)?;
    let map = map(alloc, &mut session, &request)?;
    ask_filter(rt, &session, &mut request, options.filter)?;
    if let Some(questions) = options.files.questions {
        ask_objects(rt, questions, &map, &mut repository.objects)?;
    }
    if let Some(name) = missing_name(alloc, &map)? {
        return Err(Failure::Missing { name });
    }
    let changes = changes_in(alloc, &map, &repository, options, fetch_args)?;
    let asked = MappedFetch {
        map: &map,
        request: &request,
        haves: fetch_args.haves,
        commits: options.files.commits,
    };
    let shallow = options.files.shallow;
    let pack = fetch_pack(
        rt,
        &mut session,
        &mut repository,
        asked,
        fetch_args.pack,
        shallow,
    )?;
    drop(session);
    write_output(rt, &options.output, &report(alloc, &map, &changes, pack)?)
}

// The changes of the local refs, where the refs and the commits of the repository are known.
fn changes_in(
    alloc: Global,
    map: &RefMap,
    repository: &KnownRepository,
    options: &ProgramOptions<'_>,
    fetch_args: &FetchArgs<'_>,
) -> Result<Vec<Option<Change>>, Failure>
    ensures changes { IfOk result (λ changes. ReportsChanges (is_some options.now.files.refs && knows_commits fetch_args.now.haves)
        (local_side (⟦<StoredRefs as RefStore>⟧.refs repository.now.refs) (⟦<StoredObjects as Find>⟧.contents repository.now.objects))
        fetch_args.now.tags map.now changes.items) }
    ensures refused { IfErr result (λ f. (e : UpdateError) × FailureIsUpdate e f) }
{
    if !reports_changes(options, fetch_args) {
        return Ok(Vec::new(alloc));
    }
    let objects = Shared::new(&repository.objects);
    let mut graph = Graph::new(alloc, Shared::new(&repository.objects));
    match changes(
        alloc,
        map,
        &repository.refs,
        &objects,
        &mut graph,
        fetch_args.tags,
    ) {
        Ok(changes) => Ok(changes),
        Err(e) => Err(Failure::of_update(alloc, e)),
    }
}

// Whether the report has the changes of the local refs.
fn reports_changes(options: &ProgramOptions<'_>, fetch_args: &FetchArgs<'_>) -> bool
    ensures { result ≡ (is_some options.now.files.refs && knows_commits fetch_args.now.haves) }
{
    match (options.files.refs, fetch_args.haves) {
        (Some(_), Haves::By(_)) => true,
        _ => false,
    }
}

fn run_task(rt: &HostRuntime, options: &ProgramOptions<'_>) -> Result<(), Failure> {
    match &options.task {
        Task::Help => write_output(rt, &options.output, USAGE.as_bytes()),
        Task::Version => write_output(rt, &options.output, VERSION.as_bytes()),
        Task::List { keeps_open } => list(rt, options, *keeps_open),
        Task::Fetch(fetch_args) => fetch(rt, options, fetch_args),
    }
}

// Prints the failure, if there is one.
fn status(rt: &HostRuntime, done: Result<(), Failure>) -> ExitCode {
    match done {
        Ok(()) => ExitCode::SUCCESS,
        Err(e) => {
            let _ = eprintln!(rt; "{}: {e}", e.speaker());
            ExitCode::FAILURE
        }
    }
}

/// Runs the program with the words of its command line.
///
/// The status is 0; 1 after a failure, which is printed on standard error; or 2 where the words don't fit the usage.
pub fn run(rt: &HostRuntime) -> ExitCode {
    let words = match read_words(rt) {
        Ok(words) => words,
        Err(e) => return status(rt, Err(e)),
    };
    match ProgramOptions::read(rt.alloc(), &words) {
        Ok(options) => status(rt, run_task(rt, &options)),
        Err(OptionError::Memory) => status(rt, Err(Failure::Memory)),
        Err(e) => {
            print_refusal(rt, e);
            ExitCode::from(2)
        }
    }
}
