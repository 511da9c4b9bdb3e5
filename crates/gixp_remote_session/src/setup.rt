//! The input of the helper at startup: the URL, environment variables and configuration.
ghost use Rattle.std.specs.Prelude.{◌≡◌, Some, None, MatchResult};
ghost use Rattle.gixp_remote_session.specs.StartupInput.{field_of};
ghost use Rattle.bstr.specs.Owned.{bstring_bytes};
ghost use Rattle.std.specs.Option.{option_map};
ghost use Rattle.gixp_remote_session.specs.UserConfig.{can_erase};
ghost use Rattle.gixp_remote_session.specs.UserConfig.{choose_version, IsNamedHaves, haves_by_setting};
ghost use Rattle.gixp_remote_session.specs.Version.{protocol_of, version_word, version_number};

use crate::error::Error;
use crate::pipes::STARTUP;
use crate::shell::Shell;
use bstr::{BString, ByteSlice};
use gix_protocol::fetch::negotiate::Algorithm;
use gix_protocol::transport::Protocol;
use gixp_fetch_common::Haves;
use gixp_remote_rules::{Settings, ShellTask, Within, variable_in, within_of};
use std::alloc::Global;
use std::env::VarError;
use std::fs::File;
use std::io::{BufRead, BufReader, Read};
use std::{env, fs};

// The environment of this process (proc(5)).
const ENVIRONMENT: &str = "/proc/self/environ";

// A variable that isn't UTF-8.
fn byte_variable(rt: &HostRuntime, name: &str) -> Result<Option<BString>, Error> {
    let alloc = rt.alloc();
    let Ok(environment) = fs::read(rt, ENVIRONMENT) else {
        return Err(Error::with_text(
            alloc,
            "this environment variable can't be read:",
            name.as_bytes(),
        ));
    };
    match variable_in(alloc, &environment, name.as_bytes())? {
        Some(value) => Ok(Some(BString::from_slice(alloc, value)?)),
        None => Ok(None),
    }
}

/// An environment variable. `None` if it isn't set. A variable that can't be read is an error, since
/// one that counted as not set could allow what the user forbids.
pub(crate) fn variable(rt: &HostRuntime, name: &str) -> Result<Option<BString>, Error> {
    match env::var(rt, name) {
        Ok(value) => Ok(Some(BString::from_slice(rt.alloc(), value.as_bytes())?)),
        Err(VarError::NotPresent) => Ok(None),
        Err(VarError::NotUnicode) => byte_variable(rt, name),
        Err(VarError::OutOfMemory) => Err(Error::Memory),
    }
}

pub(crate) fn bytes_of(value: &Option<BString>) -> Option<&[u8]>
    ensures { option_map (λ b. b.now) result ≡ option_map bstring_bytes value.now }
{
    match value {
        Some(value) => Some(value.as_bytes()),
        None => None,
    }
}

/// The work of an outer helper that made git start this one.
pub(crate) fn within(rt: &HostRuntime) -> Result<Within, Error> {
    Ok(within_of(bytes_of(&variable(rt, "GIXP_WITHIN")?)))
}

/// The input of the helper at startup: git's arguments, and the helper's own.
#[derive(Drop)]
pub(crate) struct StartupInput {
    /// git's name of the remote.
    pub(crate) name: Vec<u8>,
    /// The URL. It is sent over a pipe, since other users can see the arguments of a program.
    pub(crate) url: Vec<u8>,
    // The pipe with these values and git's configuration.
    pipe: BufReader<File>,
    /// A text that is unique to this helper. The names of its folders and its locks have it.
    pub(crate) mark: String,
    /// The pipe to the shell.
    pub(crate) requests: String,
    /// The pipe from the shell.
    pub(crate) answers: String,
    /// Whether standard error is a terminal that can erase the rest of a line.
    pub(crate) erases: bool,
}

// Whether git would erase the rest of a line in this terminal. The name is empty if standard error
// isn't a terminal.
fn can_erase(terminal: &[u8]) -> bool
    ensures { result ≡ can_erase terminal.now }
{
    !terminal.is_empty() && terminal != b"dumb".as_slice()
}

// A field without the NUL byte that must end it. If it has none, the pipe ended within the field.
fn without_nul(field: Vec<u8>) -> Result<Vec<u8>, Error>
    ensures { MatchResult result (λ front. field_of field.items ≡ Some front.items)
        (λ e. (field_of field.items ≡ None)) }
{
    let mut field = field;
    match field.pop() {
        Some(0) => Ok(field),
        _ => Err(Error::Other("the input of the helper at startup is not complete")),
    }
}

fn field(alloc: Global, pipe: &mut BufReader<File>) -> Result<Vec<u8>, Error> {
    let mut field = Vec::new(alloc);
    pipe.read_until(0, &mut field)?;
    without_nul(field)
}

/// Reads the input at startup.
pub(crate) fn read_startup(rt: &HostRuntime) -> Result<StartupInput, Error> {
    let alloc = rt.alloc();
    let mut argv = env::args(rt)?.skip(1);
    let (Some(mark), Some(terminal), Some(requests), Some(answers)) = (
        argv.next(),
        argv.next(),
        argv.next(),
        argv.next(),
    ) else {
        return Err(Error::Other("only git-remote-gixp can start this program"));
    };
    let mut pipe = BufReader::new(alloc, File::open(rt, STARTUP)?)?;
    Ok(StartupInput {
        name: field(alloc, &mut pipe)?,
        url: field(alloc, &mut pipe)?,
        pipe,
        mark,
        requests,
        answers,
        erases: can_erase(terminal.as_bytes()),
    })
}

/// Reads the user's configuration, which follows the fields.
pub(crate) fn read_settings(
    alloc: Global,
    startup: &mut StartupInput,
    shell: &mut Shell,
) -> Result<Settings, Error> {
    let mut text = Vec::new(alloc);
    startup.pipe.read_to_end(&mut text)?;
    if shell.status(ShellTask::Settings)? == 0 {
        Ok(Settings::read(alloc, &text)?)
    } else {
        Err(Error::Other("git can't read its configuration"))
    }
}

/// The version of the protocol to request.
pub(crate) fn version_of(rt: &HostRuntime, settings: &Settings) -> Result<Protocol, Error> {
    let word = variable(rt, "GIXP_VERSION")?;
    Ok(choose_version(bytes_of(&word), settings.value(b"protocol.version")))
}

// The version that the variable names, else the setting.
fn choose_version(variable: Option<&[u8]>, setting: Option<&[u8]>) -> Protocol
    ensures { result ≡ choose_version (option_map (λ w. w.now) variable.entry) (option_map (λ w. w.now) setting.entry) }
{
    match (variable, setting) {
        (Some(word), _) | (None, Some(word)) => protocol_of(word),
        (None, None) => Protocol::V2,
    }
}

// The version of this name.
fn protocol_of(word: &[u8]) -> Protocol
    ensures { result ≡ protocol_of word.now }
{
    if word == b"0".as_slice() {
        Protocol::V0
    } else if word == b"1".as_slice() {
        Protocol::V1
    } else {
        Protocol::V2
    }
}

/// The text of a version. `None` for version 0.
pub(crate) fn version_word(version: Protocol) -> Option<&'static [u8]>
    ensures { option_map (λ w. w.now) result ≡ version_word version }
{
    match version {
        Protocol::V0 => None,
        Protocol::V1 => Some(b"version=1"),
        Protocol::V2 => Some(b"version=2"),
    }
}

/// The number of a version.
pub(crate) fn version_number(version: Protocol) -> &'static [u8]
    ensures { result.now ≡ version_number version }
{
    match version {
        Protocol::V0 => b"0",
        Protocol::V1 => b"1",
        Protocol::V2 => b"2",
    }
}

/// How the haves are chosen.
pub(crate) fn choose_haves(rt: &HostRuntime, settings: &Settings) -> Result<Haves, Error> {
    match variable(rt, "GIXP_NEGOTIATOR")? {
        Some(word) => match word.as_bytes().to_str() {
            Ok(name) => Ok(named_haves(name)),
            Err(_) => Ok(Haves::InOrder),
        },
        None => Ok(haves_by_setting(settings.value(b"fetch.negotiationalgorithm"))),
    }
}

// The algorithm of this name, else git's own order.
fn named_haves(name: &str) -> Haves
    ensures { IsNamedHaves name.now result }
{
    match Algorithm::from_name(name) {
        Some(algorithm) => Haves::By(algorithm),
        None => Haves::InOrder,
    }
}

// The algorithm that the setting names, else git's own order.
fn haves_by_setting(setting: Option<&[u8]>) -> Haves
    ensures { result ≡ haves_by_setting (option_map (λ w. w.now) setting.entry) }
{
    let Some(text) = setting else {
        return Haves::InOrder;
    };
    if text == b"noop".as_slice() {
        Haves::By(Algorithm::Noop)
    } else if text == b"skipping".as_slice() {
        Haves::By(Algorithm::Skipping)
    } else {
        Haves::InOrder
    }
}
