//! The first packet line of a client over a connection.
//!
//! Settings: `version`, which the client asks for; `service`, the program; `host`, whether the line names one; `letters`, the
//! number of letters after the path. The payload is the path, a NUL, the host, a NUL, and parameters, each followed by a NUL. The
//! server's response is a flush packet.
use crate::handshakes::{connection, report_response};
use crate::report::Report;
use crate::rows::{NO_YES, Row, Setting, cut_at_byte};
use crate::values::client_error;
use bstr::BString;
use gixp_transport::{Opening, Service, Transport};
use std::alloc::{AllocError, Global};

pub(crate) const SETTINGS: &[Setting] = &[
    ("version", &[], 2),
    ("service", &["git-upload-pack", "git-receive-pack"], 0),
    ("host", NO_YES, 0),
    ("letters", &[], 0),
];

// The text of these bytes, or a question mark if they aren't UTF-8.
fn text_of(alloc: Global, bytes: &[u8]) -> Result<String, AllocError> {
    String::from_str(alloc, str::from_utf8(bytes).unwrap_or("?"))
}

fn parameter_of(alloc: Global, word: &[u8]) -> Result<(String, Option<String>), AllocError> {
    let (key, value) = cut_at_byte(word, b'=');
    let key = text_of(alloc, key)?;
    if word.contains(&b'=') {
        Ok((key, Some(text_of(alloc, value)?)))
    } else {
        Ok((key, None))
    }
}

/// The parameters between separators, each with its value if it has an equals sign.
pub(crate) fn parameters_of(
    alloc: Global,
    text: &[u8],
    between: u8,
) -> Result<Vec<(String, Option<String>)>, AllocError> {
    let mut parameters = Vec::new(alloc);
    for word in text.split(|b| *b == between) {
        if word.is_empty() {
            continue;
        }
        parameters.push(parameter_of(alloc, word)?)?;
    }
    Ok(parameters)
}

// An opening for a path with letters after it, and for a host.
fn opening_of(
    alloc: Global,
    path: &[u8],
    length: u64,
    host: Option<&[u8]>,
) -> Result<Opening, AllocError> {
    let mut path = path.to_vec(alloc)?;
    for _ in 0..length {
        path.push(b'x')?;
    }
    let host = match host {
        None => None,
        Some(host) => Some(BString::from_slice(alloc, host)?),
    };
    Ok(Opening {
        path: BString::new(path),
        host,
    })
}

fn open<T: Transport>(
    alloc: Global,
    transport: &mut T,
    service: Service,
    parameters: &[(String, Option<String>)],
    report: &mut Report,
) -> Result<(), AllocError> {
    match transport.handshake(alloc, service, parameters) {
        Ok(found) => report_response(alloc, &found, report),
        Err(e) => {
            client_error(report, &e);
            Ok(())
        }
    }
}

/// The result of the handshake, and the bytes written.
pub(crate) fn report_opening(
    alloc: Global,
    row: &Row<'_>,
    report: &mut Report,
) -> Result<(), AllocError> {
    let [version, service, has_host, length, ..] = row.settings;
    let (path, rest) = cut_at_byte(row.payload, 0);
    let (host, rest) = cut_at_byte(rest, 0);
    let parameters = parameters_of(alloc, rest, 0)?;
    let host = if has_host == 0 { None } else { Some(host) };
    let opening = opening_of(alloc, path, length, host)?;
    let service = if service == 0 {
        Service::UploadPack
    } else {
        Service::ReceivePack
    };
    let device = row.whole_device(b"0000");
    let mut transport = connection(alloc, device, version, Some(opening))?;
    open(alloc, &mut transport, service, &parameters, report)?;
    report.word(" ");
    report.quote(&transport.writer().bytes);
    Ok(())
}
