//! The host and the port of a URL. Brackets may enclose the host.
ghost use Rattle.std.specs.Prelude.{◌≡◌, ◌≤◌, ◌++◌, length, IfOk, Some, None};
ghost use Rattle.std.specs.Option.{option_map};
ghost use Rattle.gixp_url.specs.Text.{cut};
ghost use Rattle.gixp_url.specs.Host.{bracket_at, brackets, brackets_value, search_from, fits_port_after, is_port, split_host_port, host_value, host_port_by, without_colon, bracketed_host, host_and_port};

use crate::text::{cut, starts_with_byte};
use bstr::BString;
use std::alloc::{AllocError, Global};

/// A host in brackets, with the text before and after them.
#[derive(Clone, Copy)]
pub(crate) struct Brackets<'a> {
    before: &'a [u8],
    inner: &'a [u8],
    after: &'a [u8],
}

// The offset of the bracket that may enclose the host: after the first `@[`, else 0.
fn bracket_at(text: &[u8]) -> usize
    ensures value { result ≡ bracket_at text.now }
    ensures within { result ≤ length text.now }
{
    let mut at = 0;
    let mut rest = text;
    'bytes: while let Some((first, after)) = rest.split_first() {
        if *first == b'@' && starts_with_byte(after, b'[') {
            return at + 1;
        }
        at += 1;
        rest = after;
    }
    0
}

// The text in the brackets, before them and after them.
fn brackets_in(text: &[u8]) -> Option<Brackets<'_>>
    ensures value { option_map brackets_value result ≡ brackets text.now }
{
    let (before, host) = text.split_at(bracket_at(text));
    let (first, rest) = host.split_first()?;
    if *first != b'[' {
        return None;
    }
    let (inner, after) = cut(rest, b']')?;
    Some(Brackets {
        before,
        inner,
        after,
    })
}

// The offset from which the path is searched: after the brackets, else 0.
pub(crate) fn search_from(text: &[u8]) -> usize
    ensures value { result ≡ search_from text.now }
    ensures within { result ≤ length text.now }
{
    match brackets_in(text) {
        Some(found) => text.len().saturating_sub(found.after.len()),
        None => 0,
    }
}

// Whether all bytes are digits, and the number is at most 65,535.
fn fits_port(text: &[u8]) -> bool
    ensures { result ≡ fits_port_after 0 text.now }
{
    let mut number = 0u32;
    let mut rest = text;
    'digits: while let Some((digit, after)) = rest.split_first() {
        if *digit < b'0' || b'9' < *digit {
            return false;
        }
        number = number * 10 + u32::from(*digit - b'0');
        if number > 65535 {
            return false;
        }
        rest = after;
    }
    true
}

fn is_port(text: &[u8]) -> bool
    ensures { result ≡ is_port text.now }
{
    !text.is_empty() && fits_port(text)
}

// The host, and the port after the first colon.
fn split_host_port(text: &[u8]) -> Option<(&[u8], &[u8])>
    ensures { option_map (λ p. (p.0.now, p.1.now)) result ≡ split_host_port text.now }
{
    let (host, port) = cut(text, b':')?;
    if is_port(port) {
        Some((host, port))
    } else {
        None
    }
}

#[derive(Debug, Drop, PartialEq, Eq)]
pub(crate) struct Host {
    pub(crate) name: BString,
    pub(crate) port: Option<BString>,
}

fn host_with_port(alloc: Global, name: &[u8], port: &[u8]) -> Result<Host, AllocError>
    ensures { IfOk result (λ host. host_value host ≡ record { host = name.now; port = Some port.now }) }
{
    Ok(Host {
        name: BString::from_slice(alloc, name)?,
        port: Some(BString::from_slice(alloc, port)?),
    })
}

pub(crate) fn host_without_port(alloc: Global, name: &[u8]) -> Result<Host, AllocError>
    ensures { IfOk result (λ host. host_value host ≡ record { host = name.now; port = None }) }
{
    Ok(Host {
        name: BString::from_slice(alloc, name)?,
        port: None,
    })
}

// A text without a colon at its end.
fn without_colon(text: &[u8]) -> &[u8]
    ensures { result.now ≡ without_colon text.now (cut 58 text.now) }
{
    match cut(text, b':') {
        Some((host, port)) => { if port.is_empty() { host } else { text } }
        None => text,
    }
}

// The host and the port of a text without brackets.
fn plain_host(alloc: Global, text: &[u8]) -> Result<Host, AllocError>
    ensures { IfOk result (λ host. host_value host ≡ host_port_by (without_colon text.now (cut 58 text.now)) (split_host_port text.now)) }
{
    match split_host_port(text) {
        Some((name, port)) => host_with_port(alloc, name, port),
        None => host_without_port(alloc, without_colon(text)),
    }
}

// The text before the brackets, and the text in them.
fn bare_name(alloc: Global, found: Brackets<'_>) -> Result<Vec<u8>, AllocError>
    ensures { IfOk result (λ name. name.items ≡ found.entry.before.now ++ found.entry.inner.now) }
{
    let mut name = Vec::from_slice(alloc, found.before)?;
    name.extend_from_slice(found.inner)?;
    Ok(name)
}

// The host in brackets. The port follows the brackets, or is in them.
fn bracketed_host(alloc: Global, found: Brackets<'_>) -> Result<Host, AllocError>
    ensures { IfOk result (λ host. host_value host
        ≡ bracketed_host (found.entry.before.now ++ found.entry.inner.now) (split_host_port found.entry.after.now)) }
{
    let name = bare_name(alloc, found)?;
    if let Some((_, port)) = split_host_port(found.after) {
        return host_with_port(alloc, &name, port);
    }
    match split_host_port(&name) {
        Some((host, port)) => host_with_port(alloc, host, port),
        None => host_without_port(alloc, &name),
    }
}

// The host and the port of the text before a path.
pub(crate) fn host_and_port(alloc: Global, text: &[u8]) -> Result<Host, AllocError>
    ensures { IfOk result (λ host. host_value host ≡ host_and_port text.now) }
{
    match brackets_in(text) {
        Some(found) => bracketed_host(alloc, found),
        None => plain_host(alloc, text),
    }
}
