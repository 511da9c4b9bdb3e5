//! Texts of errors.
use crate::shown::{are_shown, is_shown};
use bstr::BString;
use gixp_capabilities::client;
use gixp_hash::decode;
use gixp_packetline::{PacketError, Protocol, read};
use gixp_refs::handshake::refs::parse;
use gixp_requests::command::validate_argument_prefixes;
use gixp_response::fetch::Response;
use gixp_response::fetch::response::{Acknowledgement, Error};
use std::alloc::{AllocError, Global};
use std::io::ErrorKind;
use std::test::Fail;

fn text(alloc: Global, bytes: &[u8]) -> Result<BString, AllocError> {
    BString::from_slice(alloc, bytes)
}

#[test]
fn texts_of_refused_refs(rt: HostRuntime) -> Result<(), Fail> {
    let a = rt.alloc();
    let message = text(a, b"x y")?;
    let errors = [
        parse::Error::Io(ErrorKind::Other),
        parse::Error::from(PacketError::HexDecode),
        parse::Error::from(decode::Error::InvalidLength(3)),
        parse::Error::InvariantViolation {
            message: parse::Invariant::UnbornTag,
        },
        parse::Error::from(read::Error::Server { message }),
        parse::Error::from(read::Error::UnexpectedFrame),
        parse::Error::from(AllocError),
    ];
    let text =
        "Io\nHexDecode\nInvalidLength\ngot 'unborn' as tag target\nUploadPack\nReader\nMemory\n";
    assert!(rt; are_shown(a, &errors, text)?);
    Ok(())
}

fn unknown_attribute(alloc: Global) -> Result<parse::Error, AllocError> {
    let attribute = text(alloc, b"foo")?;
    let line = text(alloc, b"x y")?;
    Ok(parse::Error::UnknownAttribute { attribute, line })
}

#[test]
fn writes_each_error_of_a_line(rt: HostRuntime) -> Result<(), Fail> {
    let a = rt.alloc();
    let symref = text(a, b"x y")?;
    assert!(rt;
        is_shown(
            a,
            parse::Error::MalformedSymref { symref },
            "\"x y\" could not be parsed. A symref is expected to look like <NAME>:<target>."
        )?
    );
    let line = text(a, b"x y")?;
    assert!(rt;
        is_shown(
            a,
            parse::Error::MalformedV1RefLine(line),
            "\"x y\" could not be parsed. A V1 ref line should be '<hex-hash> <path>'."
        )?
    );
    let line = text(a, b"x y")?;
    assert!(rt;
        is_shown(
            a,
            parse::Error::MalformedV2RefLine(line),
            "\"x y\" could not be parsed. A V2 ref line should be '<hex-hash> <path>[ (peeled|symref-target):<value>'."
        )?
    );
    assert!(rt;
        is_shown(
            a,
            unknown_attribute(a)?,
            "The ref attribute \"foo\" is unknown. Found in line \"x y\""
        )?
    );
    Ok(())
}

#[test]
fn texts_of_errors(rt: HostRuntime) -> Result<(), Fail> {
    let a = rt.alloc();
    let message = text(a, b"no access")?;
    let header = String::from_str(a, "packfile-uris\n")?;
    let errors = [
        Error::Io(ErrorKind::TimedOut),
        Error::UploadPack { message },
        Error::Transport(client::Error::LineTooLong),
        Error::UnknownSectionHeader { header },
        Error::Reader(read::Error::NotUtf8),
        Error::Memory,
    ];
    let text = "Failed to read from line reader\nno access\nLineTooLong\n\
        Unknown or unsupported header: \"packfile-uris\\n\"\nReader\nMemory\n";
    assert!(rt; are_shown(a, &errors, text)?);
    Ok(())
}

#[test]
fn writes_a_refused_acknowledgement(rt: HostRuntime) -> Result<(), Fail> {
    let a = rt.alloc();
    let text = "Encountered an unknown line prefix in \"ack \\n\"";
    match Acknowledgement::from_line(a, "ack \n") {
        Ok(_) => return Err("accepted".into()),
        Err(Error::Memory) => return Err(Fail::from(AllocError)),
        Err(e) => assert!(rt; is_shown(a, e, text)?),
    }
    Ok(())
}

#[test]
fn writes_a_missing_feature(rt: HostRuntime) -> Result<(), Fail> {
    let Err(e) = Response::check_required_features(Protocol::V1, &[]) else {
        return Err("accepted".into());
    };
    let text =
        "Currently we require feature \"multi_ack_detailed\", which is not supported by the server";
    assert!(rt; is_shown(rt.alloc(), e, text)?);
    Ok(())
}

#[test]
fn texts_of_validations(rt: HostRuntime) -> Result<(), Fail> {
    let a = rt.alloc();
    let argument = text(a, b"symrefs")?;
    let errors = [
        validate_argument_prefixes::Error::UnsupportedArgument {
            command: "fetch",
            argument,
        },
        validate_argument_prefixes::Error::UnsupportedCapability {
            command: "fetch",
            feature: "unborn",
        },
        validate_argument_prefixes::Error::from(AllocError),
    ];
    let text = "UnsupportedArgument\nUnsupportedCapability\nMemory\n";
    assert!(rt; are_shown(a, &errors, text)?);
    Ok(())
}
