//! Starts the server, and opens a session with it.
ghost use Rattle.std.specs.Prelude.{◌≡◌, ◌≢◌, ◌↔◌, IfOk, IsOk, Ok};
ghost use Rattle.std.specs.Option.{option_map};
ghost use Rattle.bstr.specs.Owned.{bstring_bytes};
ghost use Rattle.gixp_remote_rules.specs.declared.ssh.Variant.TheVariants.{Auto};
ghost use Rattle.gixp_remote_session.specs.UserConfig.{IsProbedVariant};

use crate::error::Error;
use crate::pipes::{FROM_SERVER, TO_SERVER};
use crate::readiness::Readiness;
use crate::relay::Relay;
use crate::server_config::{
    check_allowed, check_family, choose_opening, choose_ssh, choose_variant, variant_by_probe,
};
use crate::setup::{bytes_of, variable, version_number, version_word};
use crate::shallow_observer::{ShallowObserver, ShallowUpdates, clear_updates};
use crate::shell::{NOTHING, Shell, owned_argv};
use crate::transport::{
    HelperSession, HelperTransport, RequestWriter, ResponseReader, ServerOutput, Stream,
    StreamOutput, WithoutUris,
};
use crate::uris::{UriRecorder, Uris, protocols_of};
use crate::web::connect_stateless;
use bstr::BString;
use gix_protocol::client::{Tap, UriProtocols};
use gix_protocol::transport::{Connection, Discard, Opening, Protocol};
use gixp_fetch_common::messages::MessagePrinter;
use gixp_fetch_common::session::open;
use gixp_packfile_uris::PackfileUris;
use gixp_plain_requests::{HeldRequests, Missing, NamedCapabilities};
use gixp_remote_rules::{
    Family, HelperOptions, Program, Settings, ShellRequest, ShellTask, SshCall, Start, UriSetting,
    Variant, probe_argv, proxy_for, server_argv, server_variables, upload_pack_argv, web_argv,
};
use gixp_response_end::Answers;
use gixp_url::{Address, Scheme};
use std::alloc::AllocError;
use std::cell::{Cell, RefCell};
use std::fs::{File, OpenOptions};
use std::io::{BufReader, BufWriter};

/// The server, and what the helper knows of it. It is the same for the whole conversation.
#[derive(Clone, Copy)]
pub(crate) struct ServerContext<'a> {
    pub(crate) rt: &'a HostRuntime,
    /// git's name of the remote.
    pub(crate) name: &'a [u8],
    pub(crate) address: &'a Address,
    pub(crate) settings: &'a Settings,
    pub(crate) version: Protocol,
    /// The id of this session, if the user has it sent.
    pub(crate) session_id: Option<&'a str>,
    /// Whether standard error is a terminal that can erase the rest of a line.
    pub(crate) erases: bool,
    /// Whether the server reported an error on band 3.
    pub(crate) has_failed: &'a Cell<bool>,
    /// The server's updates of the shallow boundary.
    pub(crate) shallow_updates: &'a RefCell<ShallowUpdates>,
    /// Whether the server is ready to send the pack.
    pub(crate) readiness: &'a Cell<Readiness>,
    /// The capabilities that the server lacks.
    pub(crate) missing: &'a Cell<Missing>,
    /// The packs that the server named by URIs.
    pub(crate) uris: &'a RefCell<Uris>,
    /// The protocols of URIs that the user allows.
    pub(crate) uri_setting: UriSetting,
}

// Fails if the user doesn't allow the protocol.
fn check_policy(context: ServerContext<'_>) -> Result<(), Error> {
    let transport = context.address.scheme.name().as_bytes();
    let list = variable(context.rt, "GIT_ALLOW_PROTOCOL")?;
    let from_user = variable(context.rt, "GIT_PROTOCOL_FROM_USER")?;
    check_allowed(
        context.rt.alloc(),
        transport,
        context.settings,
        bytes_of(&list),
        bytes_of(&from_user),
    )
}

// The user's command for ssh, and whether it is a shell command.
fn ssh_program(context: ServerContext<'_>) -> Result<(Vec<u8>, Program), Error> {
    let command = variable(context.rt, "GIT_SSH_COMMAND")?;
    let program = variable(context.rt, "GIT_SSH")?;
    Ok(choose_ssh(
        context.rt.alloc(),
        bytes_of(&command),
        context.settings.value(b"core.sshcommand"),
        bytes_of(&program),
    )?)
}

fn ssh_variant(
    context: ServerContext<'_>,
    shell: &mut Shell,
    command: &[u8],
    program: Program,
    call: SshCall<'_>,
) -> Result<Variant, Error> {
    let named = variable(context.rt, "GIT_SSH_VARIANT")?;
    let setting = context.settings.value(b"ssh.variant");
    let variant = choose_variant(bytes_of(&named), setting, program, command);
    unless_auto(context.rt, shell, command, program, call, variant)
}

// The variant, or if it is unknown the one that the program shows.
fn unless_auto(
    rt: &HostRuntime,
    shell: &mut Shell,
    command: &[u8],
    program: Program,
    call: SshCall<'_>,
    variant: Variant,
) -> Result<Variant, Error>
    ensures known { variant ≢ Auto → result ≡ Ok variant }
    ensures variant_by_probe { variant ≡ Auto → IfOk result IsProbedVariant }
{
    match variant {
        Variant::Auto => probe(rt, shell, command, program, call),
        Variant::Simple => Ok(Variant::Simple),
        Variant::Ssh => Ok(Variant::Ssh),
        Variant::Plink => Ok(Variant::Plink),
        Variant::TortoisePlink => Ok(Variant::TortoisePlink),
    }
}

fn probe(
    rt: &HostRuntime,
    shell: &mut Shell,
    command: &[u8],
    program: Program,
    call: SshCall<'_>,
) -> Result<Variant, Error>
    ensures { IfOk result IsProbedVariant }
{
    let argv = probe_argv(rt.alloc(), command, call)?;
    let output = shell.run(rt, ShellTask::Probe, program, NOTHING, &[], &argv)?;
    Ok(variant_by_probe(output.status))
}

// The port of the URL.
fn port_of(context: ServerContext<'_>) -> Option<&[u8]>
    ensures { option_map (λ p. p.now) result ≡ option_map bstring_bytes context.entry.address.now.port }
{
    match &context.address.port {
        Some(port) => Some(port.as_bytes()),
        None => None,
    }
}

// The connection that ssh opens.
fn ssh_call(context: ServerContext<'_>, family: Family) -> SshCall<'_>
    ensures family { result.family ≡ family }
    ensures host { result.host.now ≡ bstring_bytes context.entry.address.now.host }
    ensures port { option_map (λ p. p.now) result.port ≡ option_map bstring_bytes context.entry.address.now.port }
{
    SshCall {
        sends_version: version_word(context.version).is_some(),
        family,
        port: port_of(context),
        host: context.address.host.as_bytes(),
    }
}

fn start_ssh(context: ServerContext<'_>, shell: &mut Shell, family: Family) -> Result<(), Error> {
    let (command, program) = ssh_program(context)?;
    let call = ssh_call(context, family);
    let variant = ssh_variant(context, shell, &command, program, call)?;
    let path = context.address.path.as_bytes();
    let argv = server_argv(context.rt.alloc(), &command, variant, call, path)?;
    start(context, shell, program, &argv)
}

// Starts a server on this machine.
fn start_local(context: ServerContext<'_>, shell: &mut Shell) -> Result<(), Error> {
    let argv = upload_pack_argv(context.rt.alloc(), context.address.path.as_bytes())?;
    start(context, shell, Program::Git, &argv)
}

// Connects to a `git://` server. A proxy command may use any address, as in git.
fn connect_daemon(
    context: ServerContext<'_>,
    shell: &mut Shell,
    family: Family,
) -> Result<(), Error> {
    let alloc = context.rt.alloc();
    let port = port_of(context).unwrap_or(b"9418");
    let host = context.address.host.as_bytes();
    let chosen = variable(context.rt, "GIT_PROXY_COMMAND")?;
    let authority = context.address.authority.as_bytes();
    match proxy_for(context.settings, bytes_of(&chosen), authority) {
        Some(command) => {
            let argv = owned_argv(alloc, &[command, host, port])?;
            start(context, shell, Program::Command, &argv)
        }
        None => {
            check_family(family)?;
            let argv = owned_argv(alloc, &[host, port])?;
            start(context, shell, Program::Socket, &argv)
        }
    }
}

// Starts git's own program for HTTP. It keeps the variables of the repository.
fn start_web(context: ServerContext<'_>, shell: &mut Shell) -> Result<(), Error> {
    let version = version_number(context.version);
    let scheme = context.address.scheme.name().as_bytes();
    let url = context.address.path.as_bytes();
    let argv = web_argv(context.rt.alloc(), version, scheme, context.name, url)?;
    start_with(context, shell, Program::Git, &[], &argv)
}

fn start(
    context: ServerContext<'_>,
    shell: &mut Shell,
    program: Program,
    argv: &[BString],
) -> Result<(), Error> {
    let variables = server_variables(context.rt.alloc(), version_word(context.version))?;
    start_with(context, shell, program, &variables, argv)
}

// Starts a server with these environment variables.
fn start_with(
    context: ServerContext<'_>,
    shell: &mut Shell,
    program: Program,
    variables: &[BString],
    argv: &[BString],
) -> Result<(), Error> {
    shell.has_socket = program == Program::Socket;
    let status = shell.ask(&ShellRequest::Start(Start {
        task: ShellTask::Server,
        program,
        input: TO_SERVER,
        output: FROM_SERVER,
        variables,
        argv,
    }))?;
    if status == 0 {
        Ok(())
    } else {
        Err(Error::with_text(
            context.rt.alloc(),
            "unable to connect to",
            context.address.authority.as_bytes(),
        ))
    }
}

// The opening request to a `git://` server.
fn opening_of(context: ServerContext<'_>) -> Result<Option<Opening>, Error> {
    let host = variable(context.rt, "GIT_OVERRIDE_VIRTUAL_HOST")?;
    Ok(choose_opening(context.rt.alloc(), context.address, bytes_of(&host))?)
}

// Whether git's program for HTTP carries requests of version 2.
fn carries_requests(
    context: ServerContext<'_>,
    from: &mut BufReader<File>,
    to: &mut BufWriter<File>,
    options: &HelperOptions,
) -> Result<bool, Error> {
    if context.version != Protocol::V2 {
        return Ok(false);
    }
    let alloc = context.rt.alloc();
    connect_stateless(alloc, from, to, options.is_quiet, options.family)
}

// The output of the server. If the server may name packs by URIs, the section `packfile-uris` is
// taken out.
fn response_reader<'a>(
    context: ServerContext<'a>,
    output: ServerOutput<'a>,
) -> Result<ResponseReader<'a>, AllocError> {
    if protocols_of(context.uri_setting) == UriProtocols::Neither {
        return Ok(ResponseReader::Whole(output));
    }
    let alloc = context.rt.alloc();
    let recorder = UriRecorder {
        alloc,
        uris: context.uris,
    };
    let reader = PackfileUris::new(alloc, output, recorder)?;
    let uris = context.uris;
    Ok(ResponseReader::WithoutUris(WithoutUris { reader, uris }))
}

// The pipes to the server and from it.
fn open_pipes(context: ServerContext<'_>) -> Result<(File, BufWriter<File>), Error> {
    let to = OpenOptions::new().write(true).open(context.rt, TO_SERVER)?;
    let from = File::open(context.rt, FROM_SERVER)?;
    Ok((from, BufWriter::new(context.rt.alloc(), to)?))
}

// The server's output as a stream of packet lines.
fn stream_of(context: ServerContext<'_>, from: File) -> Result<ServerOutput<'_>, AllocError> {
    let alloc = context.rt.alloc();
    Ok(ServerOutput::Stream(Stream {
        alloc,
        output: StreamOutput::Named(NamedCapabilities::new(alloc, from)?),
        missing: context.missing,
    }))
}

fn open_transport<'a>(
    context: ServerContext<'a>,
    output: ServerOutput<'a>,
    to: BufWriter<File>,
) -> Result<HelperTransport<'a>, Error> {
    let alloc = context.rt.alloc();
    let url = context.address.path.clone()?;
    let connection = Connection::new(
        alloc,
        response_reader(context, output)?,
        RequestWriter {
            requests: HeldRequests::new(alloc, to),
            missing: context.missing,
        },
        url,
        context.version,
        Vec::new(alloc),
        opening_of(context)?,
    )?;
    let observer = ShallowObserver {
        shallow_updates: context.shallow_updates,
        readiness: context.readiness,
    };
    Ok(Tap::new(connection, observer))
}

/// Starts the server, if the user allows its protocol. The shell kills the server that was started
/// before.
pub(crate) fn start_server(
    context: ServerContext<'_>,
    shell: &mut Shell,
    family: Family,
) -> Result<(), Error> {
    check_policy(context)?;
    match context.address.scheme {
        Scheme::File => start_local(context, shell),
        Scheme::Ssh => start_ssh(context, shell, family),
        Scheme::Git => connect_daemon(context, shell, family),
        Scheme::Http | Scheme::Https => start_web(context, shell),
    }
}

// Opens a session over the pipes of the server.
fn open_session<'a>(
    context: ServerContext<'a>,
    output: ServerOutput<'a>,
    to: BufWriter<File>,
) -> Result<HelperSession<'a>, Error> {
    context.has_failed.set(false);
    context.missing.set(Missing::nothing());
    clear_updates(context.shallow_updates);
    let transport = open_transport(context, output, to)?;
    let printer = MessagePrinter::new(context.rt, context.erases, context.has_failed)?;
    let mut session = open(context.rt.alloc(), transport, "gixp", printer, Discard)?;
    if let Some(id) = context.session_id {
        // an id that an environment variable spoiled isn't sent
        let _ = session.set_session_id(id)?;
    }
    Ok(session)
}

/// What the helper has of a server that was started.
#[derive(Drop)]
pub(crate) enum Connected<'a> {
    /// A session.
    Session(HelperSession<'a>),
    /// A web server of another version than 2.
    Relay(Relay),
}

/// Opens a session with the server that was started, unless it is a web server that doesn't speak
/// version 2.
pub(crate) fn connect<'a>(
    context: ServerContext<'a>,
    options: &HelperOptions,
) -> Result<Connected<'a>, Error> {
    let (from, mut to) = open_pipes(context)?;
    if !context.address.scheme.is_web() {
        let output = stream_of(context, from)?;
        return Ok(Connected::Session(open_session(context, output, to)?));
    }
    let mut from = BufReader::new(context.rt.alloc(), from)?;
    if carries_requests(context, &mut from, &mut to, options)? {
        let output = ServerOutput::Answers(Answers::new(from));
        Ok(Connected::Session(open_session(context, output, to)?))
    } else {
        Ok(Connected::Relay(Relay { from, to }))
    }
}

/// Opens a session with the server that was started.
pub(crate) fn shake_hands<'a>(
    context: ServerContext<'a>,
    options: &HelperOptions,
) -> Result<HelperSession<'a>, Error> {
    match connect(context, options)? {
        Connected::Session(session) => Ok(session),
        Connected::Relay(_) => Err(Error::Fatal("the server doesn't speak version 2 any more")),
    }
}

// Fails if the server's program exited with another status than 0.
fn expect_success(status: u32) -> Result<(), Error>
    ensures { IsOk result ↔ (status ≡ 0) }
{
    if status == 0 {
        Ok(())
    } else {
        Err(Error::Status("the server's program exited with status", status))
    }
}

/// Ends the session after a fetch, and waits until the server exits. As in git, the fetch fails if
/// the server's program did, but what was fetched stays. A connection to a host has no status.
pub(crate) fn end_server(
    context: ServerContext<'_>,
    shell: &mut Shell,
    session: Option<HelperSession<'_>>,
) -> Result<(), Error> {
    if let Some(session) = session {
        drop_session(context, session);
    }
    if shell.has_socket {
        return Ok(());
    }
    expect_success(shell.status(ShellTask::Server)?)
}

/// Waits until git's program for HTTP exits.
pub(crate) fn wait_for_exit(shell: &mut Shell) {
    let _ = shell.status(ShellTask::Server);
}

/// Ends a session that succeeded. Waits for git's program for HTTP, which saves cookies when it
/// exits (git-config, "http.saveCookies").
pub(crate) fn end_session(
    context: ServerContext<'_>,
    shell: &mut Shell,
    session: HelperSession<'_>,
) {
    drop_session(context, session);
    if context.address.scheme.is_web() {
        wait_for_exit(shell);
    }
}

/// Ends a session. A web server gets no flush packet, since that would be another request.
pub(crate) fn drop_session(context: ServerContext<'_>, session: HelperSession<'_>) {
    if context.address.scheme.is_web() {
        let _ = session.into_transport();
    } else {
        drop(session);
    }
}
