//! Values and errors as text.
use crate::report::Report;
use gixp_capabilities::{Capabilities, client};
use gixp_packetline::{MessageKind, Protocol, read};
use gixp_refs::handshake::Ref;
use gixp_refs::handshake::refs::parse;
use gixp_requests::command::validate_argument_prefixes;
use gixp_response::fetch::response::Acknowledgement;
use gixp_response::fetch::{Response, response};
use gixp_shallow::ShallowUpdate;
use std::alloc::{AllocError, Global};

/// The version with this number, 2 for all greater ones.
pub(crate) fn version_of(number: u64) -> Protocol {
    match number {
        0 => Protocol::V0,
        1 => Protocol::V1,
        _ => Protocol::V2,
    }
}

fn with_bytes(report: &mut Report, name: &str, bytes: &[u8]) {
    report.word(name);
    report.word("(");
    report.quote(bytes);
    report.word(")");
}

/// The error of a reader.
pub(crate) fn read_error(report: &mut Report, e: &read::Error) {
    match e {
        read::Error::Server { message } => with_bytes(report, "Server", message.as_bytes()),
        _ => report.debug(e),
    }
}

// The error of a reader within an error of another layer.
fn wrapped(report: &mut Report, name: &str, e: &read::Error) {
    report.word(name);
    report.word("(");
    read_error(report, e);
    report.word(")");
}

/// The error of a transport.
pub(crate) fn client_error(report: &mut Report, e: &client::Error) {
    match e {
        client::Error::Read(e) => wrapped(report, "Read", e),
        client::Error::UnsupportedProtocolVersion(line) => {
            with_bytes(report, "UnsupportedProtocolVersion", line.as_bytes())
        }
        _ => report.debug(e),
    }
}

/// The error of a list of refs.
pub(crate) fn parse_error(report: &mut Report, e: &parse::Error) {
    match e {
        parse::Error::MalformedSymref { symref } => {
            with_bytes(report, "MalformedSymref", symref.as_bytes())
        }
        parse::Error::MalformedV1RefLine(line) => {
            with_bytes(report, "MalformedV1RefLine", line.as_bytes())
        }
        parse::Error::MalformedV2RefLine(line) => {
            with_bytes(report, "MalformedV2RefLine", line.as_bytes())
        }
        parse::Error::UnknownAttribute { attribute, line } => {
            with_bytes(report, "UnknownAttribute", attribute.as_bytes());
            report.quote(line.as_bytes())
        }
        parse::Error::InvariantViolation { message } => {
            with_bytes(report, "InvariantViolation", message.as_str().as_bytes())
        }
        parse::Error::UploadPack { message } => {
            with_bytes(report, "UploadPack", message.as_bytes())
        }
        parse::Error::Reader(e) => wrapped(report, "Reader", e),
        _ => report.debug(e),
    }
}

/// The error of a fetch response.
pub(crate) fn response_error(report: &mut Report, e: &response::Error) {
    match e {
        response::Error::UploadPack { message } => {
            with_bytes(report, "UploadPack", message.as_bytes())
        }
        response::Error::Transport(e) => {
            report.word("Transport(");
            client_error(report, e);
            report.word(")")
        }
        response::Error::MissingServerCapability { feature } => {
            with_bytes(
                report,
                "MissingServerCapability",
                feature.as_str().as_bytes(),
            )
        }
        response::Error::UnknownLineType { line } => {
            with_bytes(report, "UnknownLineType", line.as_bytes())
        }
        response::Error::UnknownSectionHeader { header } => {
            with_bytes(report, "UnknownSectionHeader", header.as_bytes())
        }
        response::Error::Reader(e) => wrapped(report, "Reader", e),
        _ => report.debug(e),
    }
}

/// The error of an argument's validation.
pub(crate) fn validation_error(report: &mut Report, e: &validate_argument_prefixes::Error) {
    match e {
        validate_argument_prefixes::Error::UnsupportedArgument { command, argument } => {
            report.word("UnsupportedArgument(");
            report.word(command);
            report.quote(argument.as_bytes());
            report.word(")")
        }
        validate_argument_prefixes::Error::UnsupportedCapability { command, feature } => {
            report.word("UnsupportedCapability(");
            report.word(command);
            report.word(" ");
            report.word(feature);
            report.word(")")
        }
        validate_argument_prefixes::Error::Memory => report.word("Memory"),
    }
}

// The kind of a ref, its ids and its names.
fn reference_parts(report: &mut Report, found: &Ref) {
    match found {
        Ref::Direct { object, .. } => {
            report.word("D:");
            report.id(object);
        }
        Ref::Peeled { tag, object, .. } => {
            report.word("P:");
            report.id(tag);
            report.word(":");
            report.id(object);
        }
        Ref::Symbolic { tag, object, .. } => {
            report.word("S:");
            match tag {
                Some(tag) => report.id(tag),
                None => report.word("-"),
            }
            report.word(":");
            report.id(object);
        }
        Ref::Unborn { .. } => report.word("U:"),
    }
    report.quote(found.unpack().0.as_bytes());
    match found {
        Ref::Symbolic { target, .. } | Ref::Unborn { target, .. } => {
            report.quote(target.as_bytes())
        }
        _ => {}
    }
}

/// A ref, and the number of ids that `unpack` returns for it.
pub(crate) fn reference(report: &mut Report, found: &Ref) {
    reference_parts(report, found);
    let (_name, target, peeled) = found.unpack();
    report.word(match (target, peeled) {
        (None, None) => "0",
        (Some(_), None) => "1",
        (Some(_), Some(_)) => "2",
        (None, Some(_)) => "?",
    });
    report.word(" ");
}

pub(crate) fn acknowledgement(report: &mut Report, found: Acknowledgement) {
    match found {
        Acknowledgement::Common(id) => {
            report.word("C");
            report.id(&id);
        }
        Acknowledgement::Ready => report.word("R"),
        Acknowledgement::Nak => report.word("N"),
    }
    report.word(" ");
}

pub(crate) fn update(report: &mut Report, found: ShallowUpdate) {
    match found {
        ShallowUpdate::Shallow(id) => {
            report.word("+");
            report.id(&id);
        }
        ShallowUpdate::Unshallow(id) => {
            report.word("-");
            report.id(&id);
        }
    }
    report.word(" ");
}

/// A response to a fetch.
pub(crate) fn answer(report: &mut Report, found: &Response) {
    report.word("acks ");
    for one in found.acknowledgements() {
        acknowledgement(report, *one);
    }
    report.word("shallow ");
    for one in found.shallow_updates() {
        update(report, *one);
    }
    report.word("wanted ");
    for one in found.wanted_refs() {
        report.id(&one.id);
        report.quote(one.path.as_bytes());
        report.word(" ");
    }
    report.word(if found.has_pack() { "pack " } else { "nopack " });
}

/// The stop of a reader.
pub(crate) fn stop(report: &mut Report, kind: Option<MessageKind>) {
    report.word("@");
    match kind {
        None => report.word("open"),
        Some(kind) => report.debug(&kind),
    }
    report.word(" ");
}

/// Capabilities, each with its value and the number of its words.
pub(crate) fn capability_list(
    alloc: Global,
    report: &mut Report,
    found: &Capabilities,
) -> Result<(), AllocError> {
    for capability in found.iter() {
        report.quote(capability.name().as_bytes());
        match capability.value() {
            Some(value) => {
                report.word("=");
                report.quote(value.as_bytes());
            }
            None => {}
        }
        match capability.values(alloc)? {
            Some(values) => report.number(values.len() as u64),
            None => {}
        }
        report.word(" ");
    }
    Ok(())
}
