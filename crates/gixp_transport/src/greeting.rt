//! The first message of a client on a connection, git-proto-request (gitprotocol-pack, "Git Transport").
ghost use Rattle.std.specs.Prelude.{◌≡◌, [], ◌++◌, IfOk, OnOk, Some, length, min, flat_map, string_bytes};
ghost use Rattle.std.specs.Option.{option_map};
ghost use Rattle.bstr.specs.Owned.{bstring_bytes};
ghost use Rattle.gixp_transport.specs.Greeting.{greeting_text, greeting_fits, host_text, parameter_text, parameters_text, parameters_of, version_parameters};
ghost use Rattle.gixp_transport.specs.Connection.{greeting_of};

use crate::service::{Opening, Service};
use bstr::BString;
use gixp_packetline::Protocol;
use std::alloc::{AllocError, Global};

// The number of bytes of the longest payload of a packet line (gitprotocol-common, "pkt-line Format").
const MAX_PAYLOAD: usize = 65516;

// The number of bytes of the host, at most `usize::MAX`.
fn host_len(host: &Option<BString>) -> usize
    ensures { result ≡ min (length (host_text (option_map bstring_bytes host.now))) usize.MAX }
{
    match host {
        Some(host) => host.as_bytes().len().saturating_add(6),
        None => 0,
    }
}

// The number of bytes of a parameter, at most `usize::MAX`.
fn parameter_len(key: &String, value: &Option<String>) -> usize
    ensures { result ≡ min (length (parameter_text (string_bytes key.now, option_map string_bytes value.now))) usize.MAX }
{
    match value {
        Some(value) => key.len().saturating_add(value.len()).saturating_add(2),
        None => key.len().saturating_add(1),
    }
}

// The number of bytes of the caller's extra parameters, at most `usize::MAX`.
fn parameters_len(parameters: &[(String, Option<String>)]) -> usize
    ensures { result ≡ min (length (flat_map parameter_text (parameters_of parameters.now))) usize.MAX }
{
    let mut len: usize = 0;
    for (key, value) in parameters {
        len = len.saturating_add(parameter_len(key, value));
    }
    len
}

// The number of bytes of the requested version and the caller's extra parameters, at most `usize::MAX`.
fn extra_len(version: Protocol, parameters: &[(String, Option<String>)]) -> usize
    ensures { result ≡ min (length (parameters_text (version_parameters version ++ parameters_of parameters.now))) usize.MAX }
{
    let len = parameters_len(parameters);
    match version {
        Protocol::V0 => {
            if parameters.is_empty() {
                return 0;
            }
            len.saturating_add(1)
        }
        Protocol::V1 | Protocol::V2 => len.saturating_add(11),
    }
}

/// Whether the first message fits into a packet line.
pub(crate) fn greeting_fits(
    opening: &Opening,
    service: Service,
    version: Protocol,
    parameters: &[(String, Option<String>)],
) -> bool
    ensures { result ≡ greeting_fits (Some (greeting_of version opening.now)) service (parameters_of parameters.now) }
{
    let len = service
        .as_str()
        .len()
        .saturating_add(opening.path.as_bytes().len())
        .saturating_add(2)
        .saturating_add(host_len(&opening.host))
        .saturating_add(extra_len(version, parameters));
    len <= MAX_PAYLOAD
}

fn push_host(out: &mut Vec<u8>, host: &Option<BString>) -> Result<(), AllocError>
    ensures { OnOk result (out.new.items ≡ out.old.items ++ host_text (option_map bstring_bytes host.now)) }
{
    if let Some(host) = host {
        out.extend_from_slice(b"host=")?;
        out.extend_from_slice(host.as_bytes())?;
        out.extend_from_slice(b"\0")?;
    }
    Ok(())
}

fn push_parameter(out: &mut Vec<u8>, key: &String, value: &Option<String>) -> Result<(), AllocError>
    ensures { OnOk result (out.new.items ≡ out.old.items ++ parameter_text (string_bytes key.now, option_map string_bytes value.now)) }
{
    out.extend_from_slice(key.as_bytes())?;
    if let Some(value) = value {
        out.extend_from_slice(b"=")?;
        out.extend_from_slice(value.as_bytes())?;
    }
    out.extend_from_slice(b"\0")
}

fn push_parameters(
    out: &mut Vec<u8>,
    parameters: &[(String, Option<String>)],
) -> Result<(), AllocError>
    ensures { OnOk result (out.new.items ≡ out.old.items ++ flat_map parameter_text (parameters_of parameters.now)) }
{
    for (key, value) in parameters {
        push_parameter(out, key, value)?;
    }
    Ok(())
}

// Appends the requested version and the caller's extra parameters, after one more NUL if there are any.
fn push_extra(
    out: &mut Vec<u8>,
    version: Protocol,
    parameters: &[(String, Option<String>)],
) -> Result<(), AllocError>
    ensures { OnOk result (out.new.items ≡ out.old.items ++ parameters_text (version_parameters version ++ parameters_of parameters.now)) }
{
    match version {
        Protocol::V0 => {
            if parameters.is_empty() {
                return Ok(());
            }
            out.extend_from_slice(b"\0")?;
        }
        Protocol::V1 => out.extend_from_slice(b"\0version=1\0")?,
        Protocol::V2 => out.extend_from_slice(b"\0version=2\0")?,
    }
    push_parameters(out, parameters)
}

/// The first message for this repository: the service, the path, the host, and the extra parameters with the version first.
pub(crate) fn greeting(
    alloc: Global,
    opening: &Opening,
    service: Service,
    version: Protocol,
    parameters: &[(String, Option<String>)],
) -> Result<Vec<u8>, AllocError>
    ensures { IfOk result (λ text. text.items ≡ greeting_text (greeting_of version opening.now) service (parameters_of parameters.now)) }
{
    let mut text = service.as_str().as_bytes().to_vec(alloc)?;
    text.extend_from_slice(b" ")?;
    text.extend_from_slice(opening.path.as_bytes())?;
    text.extend_from_slice(b"\0")?;
    push_host(&mut text, &opening.host)?;
    push_extra(&mut text, version, parameters)?;
    Ok(text)
}
