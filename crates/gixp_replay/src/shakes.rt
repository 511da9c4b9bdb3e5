//! A handshake, with an account if the server wants one.
//!
//! Settings: `over`, the kind of transport; `version`, which a client of a connection asks for; `accepts`, the versions that it
//! accepts. The payload is three lines and the server's bytes. The lines are the results of the credential helper's calls
//! (`account`, `none` or `fails`), the bodies as `bodies_of` reads them, and parameters. Blanks separate the words.
use crate::handshakes::paper_of;
use crate::lines::report_rest;
use crate::openings::parameters_of;
use crate::refs::report_list;
use crate::report::Report;
use crate::reporting::Reporting;
use crate::rows::{BODIES_CONNECTION, Row, Setting, cut_at, cut_at_byte, number};
use crate::values::{capability_list, client_error, parse_error, update, version_of};
use bstr::BString;
use gixp_doubles::{Device, Paper};
use gixp_handshake::Handshake;
use gixp_handshake::credentials::{self, Account, Action, NextAction, Outcome};
use gixp_handshake::handshake::{Error, handshake};
use gixp_packetline::Protocol;
use gixp_transport::{Bodies, Body, Connection, Opening, Service, Transport};
use std::alloc::{AllocError, Global};
use std::io::ErrorKind;

pub(crate) const SETTINGS: &[Setting] = &[
    ("over", BODIES_CONNECTION, 0),
    ("version", &[], 2),
    (
        "accepts",
        &["any", "0", "1", "0,1", "2", "0,2", "1,2", "0,1,2"],
        0,
    ),
];

/// A credential helper that follows a script, and records its calls.
#[derive(Drop)]
pub(crate) struct Helper<'a> {
    alloc: Global,
    script: &'a [u8],
    asked: Report,
}

impl<'a> Helper<'a> {
    /// A helper without calls.
    pub(crate) fn new(alloc: Global, script: &'a [u8]) -> Helper<'a> {
        Helper {
            alloc,
            script,
            asked: Report::new(alloc),
        }
    }

    fn write_down(&mut self, action: &Action) {
        let (word, text) = match action {
            Action::Get { url } => ("Get", url),
            Action::Store(output) => ("Store", output),
            Action::Erase(output) => ("Erase", output),
        };
        self.asked.word(word);
        self.asked.quote(text.as_bytes());
        self.asked.word(" ");
    }

    fn account(&self) -> Result<Outcome, AllocError> {
        Ok(Outcome {
            identity: Account {
                username: String::from_str(self.alloc, "me")?,
                password: String::from_str(self.alloc, "secret")?,
            },
            next: NextAction {
                previous_output: BString::from_slice(self.alloc, "output")?,
            },
        })
    }

    fn failure(&self) -> credentials::Error {
        let message = match String::from_str(self.alloc, "no helper") {
            Ok(message) => message,
            Err(_) => String::new(self.alloc),
        };
        credentials::Error { message }
    }

    /// The result of an action.
    pub(crate) fn answer(&mut self, action: Action) -> Result<Option<Outcome>, credentials::Error> {
        self.write_down(&action);
        let (word, rest) = cut_at_byte(self.script, b' ');
        self.script = rest;
        match word {
            [b'n', ..] => Ok(None),
            [b'f', ..] => Err(self.failure()),
            _ => match self.account() {
                Ok(outcome) => Ok(Some(outcome)),
                Err(_) => Err(self.failure()),
            },
        }
    }

    /// Writes the calls.
    pub(crate) fn report(&self, report: &mut Report) {
        report.word("asked ");
        report.quote_report(&self.asked);
        report.word(" ");
    }
}

// The body of a word, and the rest of the bytes.
fn body_of<'a>(
    alloc: Global,
    word: &[u8],
    bytes: &'a [u8],
) -> Result<(Body, &'a [u8]), AllocError> {
    match word {
        [b'd', ..] => Ok((Body::Fail(ErrorKind::PermissionDenied), bytes)),
        [b't', ..] => Ok((Body::Fail(ErrorKind::TimedOut), bytes)),
        [b'b', ..] => Ok((Body::Fail(ErrorKind::BrokenPipe), bytes)),
        _ => {
            let (body, rest) = cut_at(bytes, number(word).unwrap_or(0));
            Ok((Body::Bytes(body.to_vec(alloc)?), rest))
        }
    }
}

/// The bodies of words: the length of each, or `denied`, `timed-out` or `broken-pipe` for a body whose request fails with this
/// error.
pub(crate) fn bodies_of(
    alloc: Global,
    words: &[u8],
    bytes: &[u8],
) -> Result<Vec<Body>, AllocError> {
    let mut bodies = Vec::new(alloc);
    let mut rest = bytes;
    for word in words.split(|b| *b == b' ') {
        let (body, others) = body_of(alloc, word, rest)?;
        bodies.push(body)?;
        rest = others;
    }
    Ok(bodies)
}

fn url(alloc: Global) -> Result<BString, AllocError> {
    BString::from_slice(alloc, "git://h/p.git")
}

// The versions of a bit mask.
fn accepted_of(alloc: Global, mask: u64) -> Result<Vec<Protocol>, AllocError> {
    let mut accepted = Vec::new(alloc);
    let mut mask = mask;
    for version in [Protocol::V0, Protocol::V1, Protocol::V2] {
        if mask % 2 == 1 {
            accepted.push(version)?;
        }
        mask /= 2;
    }
    Ok(accepted)
}

/// A transport over these bodies that accepts the versions of a bit mask.
pub(crate) fn memory(alloc: Global, bodies: Vec<Body>, mask: u64) -> Result<Bodies, AllocError> {
    Bodies::new(alloc, bodies, url(alloc)?, accepted_of(alloc, mask)?)
}

/// A connection over a device, for a client that asks for a version and accepts those of a bit mask.
pub(crate) fn connection<'a>(
    alloc: Global,
    device: Device<'a>,
    version: u64,
    mask: u64,
) -> Result<Connection<Device<'a>, Paper>, AllocError> {
    let opening = Opening {
        path: BString::from_slice(alloc, "/p.git")?,
        host: Some(BString::from_slice(alloc, "h")?),
    };
    let paper = paper_of(alloc, device.pieces);
    Connection::new(
        alloc,
        device,
        paper,
        url(alloc)?,
        version_of(version),
        accepted_of(alloc, mask)?,
        Some(opening),
    )
}

/// The error of a handshake.
pub(crate) fn shake_error(report: &mut Report, e: &Error) {
    match e {
        Error::Credentials(e) => {
            report.word("Credentials(");
            report.quote(e.message.as_bytes());
            report.word(")");
        }
        Error::EmptyCredentials => report.word("EmptyCredentials"),
        Error::InvalidCredentials { url } => {
            report.word("InvalidCredentials(");
            report.quote(url.as_bytes());
            report.word(")");
        }
        Error::Transport(e) => {
            report.word("Transport(");
            client_error(report, e);
            report.word(")");
        }
        Error::TransportProtocolPolicyViolation { actual_version } => {
            report.word("TransportProtocolPolicyViolation(");
            report.debug(actual_version);
            report.word(")");
        }
        Error::ParseRefs(e) => {
            report.word("ParseRefs(");
            parse_error(report, e);
            report.word(")");
        }
        Error::Memory => report.word("Memory"),
    }
    report.word(" ");
}

// The version, the capabilities, and the refs and shallow updates if the server sent them.
fn report_shaken(alloc: Global, found: &Handshake, report: &mut Report) -> Result<(), AllocError> {
    report.debug(&found.server_protocol_version);
    report.word(" ");
    capability_list(alloc, report, &found.capabilities)?;
    report.word("; ");
    match &found.refs {
        Some(refs) => report_list(report, refs),
        None => report.word("norefs "),
    }
    match &found.v1_shallow_updates {
        Some(updates) => {
            report.word("updates ");
            for found in updates {
                update(report, *found);
            }
        }
        None => report.word("noupdates "),
    }
    Ok(())
}

// The version that a handshake found, if it did.
fn version_found(outcome: &Result<Handshake, Error>) -> Option<Protocol> {
    match outcome {
        Ok(found) => Some(found.server_protocol_version),
        Err(Error::TransportProtocolPolicyViolation { actual_version }) => Some(*actual_version),
        Err(_) => None,
    }
}

// The result of a handshake, the calls of the helper and of the progress reporter, and the rest of the transport.
fn report_over<T: Transport>(
    alloc: Global,
    transport: &mut T,
    script: &[u8],
    words: &[u8],
    report: &mut Report,
) -> Result<(), AllocError> {
    let mut helper = Helper::new(alloc, script);
    let mut progress = Reporting::new(alloc);
    let parameters = parameters_of(alloc, words, b' ')?;
    let outcome = handshake(
        alloc,
        transport,
        Service::UploadPack,
        |action: Action| helper.answer(action),
        parameters,
        &mut progress,
    );
    helper.report(report);
    progress.report(report);
    match &outcome {
        Ok(found) => report_shaken(alloc, &found.clone()?, report)?,
        Err(e) => shake_error(report, e),
    }
    if let Some(version) = version_found(&outcome) {
        report_rest(transport, version, report);
    }
    Ok(())
}

/// Performs a handshake over a connection or memory, and reports the bytes or the account that the transport received.
pub(crate) fn report_shake(
    alloc: Global,
    row: &Row<'_>,
    report: &mut Report,
) -> Result<(), AllocError> {
    let [over, version, mask, ..] = row.settings;
    let (script, rest) = cut_at_byte(row.payload, b'\n');
    let (words, rest) = cut_at_byte(rest, b'\n');
    let (parameters, bytes) = cut_at_byte(rest, b'\n');
    if over == 1 {
        let device = row.device(bytes);
        let mut transport = connection(alloc, device, version, mask)?;
        report_over(alloc, &mut transport, script, parameters, report)?;
        report.quote(&transport.writer().bytes);
        return Ok(());
    }
    let mut transport = memory(alloc, bodies_of(alloc, words, bytes)?, mask)?;
    report_over(alloc, &mut transport, script, parameters, report)?;
    match transport.identity() {
        Some(account) => {
            report.quote(account.username.as_bytes());
            report.quote(account.password.as_bytes());
        }
        None => report.word("nobody"),
    }
    Ok(())
}
