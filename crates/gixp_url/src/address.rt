//! Parses URLs as git does.
ghost use Rattle.std.specs.Prelude.{◌≡◌, ◌<◌, ◌≤◌, length, IfOk, IfSome};
ghost use Rattle.std.specs.List.{list_all};
ghost use Rattle.gixp_url.specs.Decoded.{decoded};
ghost use Rattle.gixp_url.specs.Host.{host_value};
ghost use Rattle.gixp_url.specs.Url.{is_scheme_byte, scheme_of, scheme_name, is_web, has_separator, is_local, map_form, form_without_scheme, form_by_scheme, form_after_scheme, form_of, separator_from, path_at, home_path, server_path, fault_of, host_by, ReturnsAddress, checked_address, remote_address, local_address, web_address, form_value, address_of_form, address_of_url};
ghost use Rattle.gixp_url.specs.declared.address.UrlError.TheVariants.{Memory};

use crate::decode::decoded;
use crate::host::{Host, host_and_port, host_without_port, search_from};
use crate::text::{cut, find_byte, has_byte, is_option, starts_with_byte};
use bstr::BString;
use std::alloc::{AllocError, Global};
use thiserror::Error;

/// The scheme of a URL: how git reaches the server.
#[derive(Clone, Copy, Debug, PartialEq, Eq)]
pub enum Scheme {
    /// A path of this machine, or `file://`.
    File,
    /// `ssh://`, or `HOST:PATH`.
    Ssh,
    /// `git://`: a server that listens, as `git daemon` does.
    Git,
    /// `http://`.
    Http,
    /// `https://`.
    Https,
}

impl Scheme {
    /// Git's name of the protocol (git-config, "protocol.<name>.allow").
    pub fn name(self) -> &'static str
        ensures { result.now ≡ scheme_name self }
    {
        match self {
            Scheme::File => "file",
            Scheme::Ssh => "ssh",
            Scheme::Git => "git",
            Scheme::Http => "http",
            Scheme::Https => "https",
        }
    }

    /// Whether it is `http://` or `https://`.
    pub fn is_web(self) -> bool
        ensures { result ≡ is_web self }
    {
        match self {
            Scheme::Http | Scheme::Https => true,
            Scheme::File | Scheme::Ssh | Scheme::Git => false,
        }
    }
}

/// The server of a URL, and the path there.
#[derive(Debug, Drop, PartialEq, Eq)]
pub struct Address {
    /// The scheme.
    pub scheme: Scheme,
    /// The text before the path: the user, the host with its brackets, and the port. It is empty
    /// for a path of this machine and for a web server.
    pub authority: BString,
    /// The user and the host, without brackets.
    pub host: BString,
    /// The port in digits, if the URL has one.
    pub port: Option<BString>,
    /// The path on the server. For a web server it is the whole URL, since git's own program parses
    /// that.
    pub path: BString,
}

/// Why git can't use a URL.
#[derive(Clone, Copy, Debug, PartialEq, Eq, Error)]
pub enum UrlError {
    /// The scheme is not `file`, `ssh`, `git`, `git+ssh`, `ssh+git`, `http` or `https`, or the URL
    /// names a remote helper.
    #[error("its protocol is not supported")]
    UnsupportedScheme,
    /// The URL has no path.
    #[error("no path specified")]
    NoPath,
    /// A program could take the path for an option.
    #[error("strange pathname blocked")]
    StrangePath,
    /// A program could take the host for an option.
    #[error("strange hostname blocked")]
    StrangeHost,
    /// The host has a line feed, or the path of a `git://` URL has one.
    #[error("newline is forbidden in hosts and repo paths")]
    Newline,
    /// An allocation failed.
    #[error("out of memory")]
    Memory,
}

impl From<AllocError> for UrlError {
    ghost from_gives = { λ _ e. e ≡ Memory };

    fn from(_e: AllocError) -> Self {
        UrlError::Memory
    }
}

// The form of a URL, before the server and the path are split.
#[derive(Clone, Copy)]
enum Form<'a> {
    // A path of this machine.
    Path(&'a [u8]),
    // `HOST:PATH`.
    HostPath(&'a [u8]),
    // The text after `SCHEME://`.
    Url(Scheme, &'a [u8]),
    // The whole URL of a web server.
    Web(Scheme, &'a [u8]),
}

fn is_scheme_byte(byte: u8) -> bool
    ensures { result ≡ is_scheme_byte byte }
{
    byte.is_ascii_alphanumeric() || byte == b'+' || byte == b'-' || byte == b'.'
}

pub(crate) fn is_scheme(text: &[u8]) -> bool
    ensures { result ≡ list_all is_scheme_byte text.now }
{
    text.iter().all(|byte| is_scheme_byte(*byte))
}

fn scheme_of(scheme: &[u8]) -> Option<Scheme>
    ensures { result ≡ scheme_of scheme.now }
{
    if scheme == b"file".as_slice() {
        Some(Scheme::File)
    } else if scheme == b"git".as_slice() {
        Some(Scheme::Git)
    } else if scheme == b"ssh".as_slice()
        || scheme == b"git+ssh".as_slice()
        || scheme == b"ssh+git".as_slice()
    {
        Some(Scheme::Ssh)
    } else if scheme == b"http".as_slice() {
        Some(Scheme::Http)
    } else if scheme == b"https".as_slice() {
        Some(Scheme::Https)
    } else {
        None
    }
}

fn form_by_scheme<'a>(scheme: Scheme, text: &'a [u8], rest: &'a [u8]) -> Form<'a>
    ensures { form_value result ≡ form_by_scheme scheme text.now rest.now }
{
    match scheme {
        Scheme::File | Scheme::Ssh | Scheme::Git => Form::Url(scheme, rest),
        Scheme::Http | Scheme::Https => Form::Web(scheme, text),
    }
}

// Whether the text has `://`.
fn has_separator(text: &[u8]) -> bool
    ensures { result ≡ has_separator text.now }
{
    let mut rest = text;
    'bytes: while let Some((_, after)) = rest.split_first() {
        if rest.starts_with(b"://") {
            return true;
        }
        rest = after;
    }
    false
}

// Whether a text without a scheme is a path of this machine: it has no colon before its first
// slash.
fn is_local(text: &[u8]) -> bool
    ensures { result ≡ is_local text.now }
{
    match cut(text, b':') {
        Some((front, _)) => has_byte(front, b'/'),
        None => true,
    }
}

// The form of a text without a scheme.
fn form_without_scheme(text: &[u8]) -> Result<Form<'_>, UrlError>
    ensures { map_form result ≡ form_without_scheme text.now }
{
    if has_separator(text) {
        Err(UrlError::UnsupportedScheme)
    } else if is_local(text) {
        Ok(Form::Path(text))
    } else {
        Ok(Form::HostPath(text))
    }
}

// The form of a URL, by the text after its first colon.
fn form_after_scheme<'a>(
    text: &'a [u8],
    scheme: &'a [u8],
    after: &'a [u8],
) -> Result<Form<'a>, UrlError>
    ensures { map_form result ≡ form_after_scheme text.now scheme.now after.now }
{
    if let Some(rest) = after.strip_prefix(b"//") {
        match scheme_of(scheme) {
            Some(scheme) => Ok(form_by_scheme(scheme, text, rest)),
            None => Err(UrlError::UnsupportedScheme),
        }
    } else if starts_with_byte(after, b':') {
        Err(UrlError::UnsupportedScheme)
    } else {
        form_without_scheme(text)
    }
}

fn form_of(text: &[u8]) -> Result<Form<'_>, UrlError>
    ensures { map_form result ≡ form_of text.now }
{
    match cut(text, b':') {
        Some((scheme, after)) => {
            if is_scheme(scheme) {
                form_after_scheme(text, scheme, after)
            } else {
                form_without_scheme(text)
            }
        }
        None => form_without_scheme(text),
    }
}

// The offset of the first separator at or after `from`.
fn separator_from(text: &[u8], from: usize, separator: u8) -> Option<usize>
    requires { from ≤ length text.now }
    ensures offset { result ≡ separator_from from text.now separator }
    ensures within { IfSome result (λ at. at < length text.now) }
{
    match find_byte(&text[from..], separator) {
        Some(at) => Some(from + at),
        None => None,
    }
}

// The offset of the path: the first separator after the host.
fn path_at(text: &[u8], separator: u8) -> Option<usize>
    ensures offset { result ≡ path_at separator text.now }
    ensures within { IfSome result (λ at. at < length text.now) }
{
    separator_from(text, search_from(text), separator)
}

// A path without its slash, if `~` follows that.
fn home_path(path: &[u8]) -> &[u8]
    ensures { result.now ≡ home_path path.now }
{
    match path {
        [_, second, ..] => { if *second == b'~' { &path[1..] } else { path } }
        _ => path,
    }
}

// The path on the server. It begins with a slash, but not with a colon.
fn server_path(scheme: Scheme, text: &[u8], at: usize, separator: u8) -> &[u8]
    requires { at < length text.now }
    ensures { result.now ≡ server_path scheme text.now at separator }
{
    let path = if separator == b':' {
        &text[at + 1..]
    } else {
        &text[at..]
    };
    match scheme {
        Scheme::File | Scheme::Http | Scheme::Https => path,
        Scheme::Ssh | Scheme::Git => home_path(path),
    }
}

fn fault_of(scheme: Scheme, authority: &[u8], host: &[u8], path: &[u8]) -> Option<UrlError>
    ensures { result ≡ fault_of scheme authority.now host.now path.now }
{
    let listens = scheme == Scheme::Git;
    if has_byte(authority, b'\n') || (listens && has_byte(path, b'\n')) {
        Some(UrlError::Newline)
    } else if !listens && is_option(path) {
        Some(UrlError::StrangePath)
    } else if scheme != Scheme::File && is_option(host) {
        Some(UrlError::StrangeHost)
    } else {
        None
    }
}

// The host and the port, by the scheme.
fn host_of(alloc: Global, scheme: Scheme, authority: &[u8]) -> Result<Host, AllocError>
    ensures { IfOk result (λ host. host_value host ≡ host_by scheme authority.now) }
{
    match scheme {
        Scheme::File | Scheme::Http | Scheme::Https => host_without_port(alloc, authority),
        Scheme::Ssh | Scheme::Git => host_and_port(alloc, authority),
    }
}

// An address, unless git refuses it.
fn checked_address(
    alloc: Global,
    scheme: Scheme,
    authority: &[u8],
    path: &[u8],
) -> Result<Address, UrlError>
    ensures { ReturnsAddress (checked_address scheme authority.now path.now) result }
{
    let host = host_of(alloc, scheme, authority)?;
    if let Some(fault) = fault_of(scheme, authority, host.name.as_bytes(), path) {
        return Err(fault);
    }
    Ok(Address {
        scheme,
        authority: BString::from_slice(alloc, authority)?,
        host: host.name,
        port: host.port,
        path: BString::from_slice(alloc, path)?,
    })
}

// The address of a server and a path, which a separator divides.
fn remote_address(
    alloc: Global,
    scheme: Scheme,
    text: &[u8],
    separator: u8,
) -> Result<Address, UrlError>
    ensures { ReturnsAddress (remote_address scheme text.now separator) result }
{
    match path_at(text, separator) {
        Some(at) => checked_address(
            alloc,
            scheme,
            &text[..at],
            server_path(scheme, text, at, separator),
        ),
        None => Err(UrlError::NoPath),
    }
}

// The address of a path of this machine.
fn local_address(alloc: Global, path: &[u8]) -> Result<Address, UrlError>
    ensures { ReturnsAddress (local_address path.now) result }
{
    if path.is_empty() {
        return Err(UrlError::NoPath);
    }
    checked_address(alloc, Scheme::File, b"", path)
}

// The address of a URL without `SCHEME://`. It may be percent-encoded.
fn remote_url(alloc: Global, scheme: Scheme, rest: &[u8]) -> Result<Address, UrlError>
    ensures { ReturnsAddress (remote_address scheme (decoded 0 rest.now) 47) result }
{
    let text = decoded(alloc, rest)?;
    remote_address(alloc, scheme, &text, b'/')
}

// The address of a web server: the whole URL.
fn web_address(alloc: Global, scheme: Scheme, url: &[u8]) -> Result<Address, UrlError>
    ensures { ReturnsAddress (web_address scheme url.now) result }
{
    Ok(Address {
        scheme,
        authority: BString::from(Vec::new(alloc)),
        host: BString::from(Vec::new(alloc)),
        port: None,
        path: BString::from_slice(alloc, url)?,
    })
}

fn read_form(alloc: Global, form: Form<'_>) -> Result<Address, UrlError>
    ensures { ReturnsAddress (address_of_form (form_value form.entry)) result }
{
    match form {
        Form::Path(path) => local_address(alloc, path),
        Form::HostPath(text) => remote_address(alloc, Scheme::Ssh, text, b':'),
        Form::Url(scheme, rest) => remote_url(alloc, scheme, rest),
        Form::Web(scheme, url) => web_address(alloc, scheme, url),
    }
}

impl Address {
    /// Parses a URL as git does (git-clone, "GIT URLS"; git-fetch-pack, `--diag-url`). Only the
    /// text after `SCHEME://` is percent-decoded.
    ///
    /// # Errors
    ///
    /// Why git refuses the URL, or `Memory`.
    pub fn read(alloc: Global, url: &[u8]) -> Result<Address, UrlError>
        ensures { ReturnsAddress (address_of_url url.now) result }
    {
        match form_of(url) {
            Ok(form) => read_form(alloc, form),
            Err(e) => Err(e),
        }
    }
}
