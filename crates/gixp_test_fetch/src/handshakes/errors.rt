//! Texts of errors, and the errors that lower layers' errors become.
use crate::shown::texts;
use crate::transports::text;
use gixp_capabilities::client;
use gixp_handshake::credentials;
use gixp_handshake::handshake::Error;
use gixp_matching::match_group::validate;
use gixp_packetline::{PacketError, Protocol};
use gixp_refmap::ls_refs;
use gixp_refmap::refmap::init;
use gixp_refs::handshake::refs::parse;
use gixp_requests::command::validate_argument_prefixes;
use gixp_transport::IsSpuriousError;
use std::alloc::AllocError;
use std::io::ErrorKind;
use std::test::Fail;

#[test]
fn texts_of_a_handshake(rt: HostRuntime) -> Result<(), Fail> {
    let a = rt.alloc();
    let message = String::from_str(a, "no helper")?;
    let url = text(a, b"git://h/p.git")?;
    let errors = [
        Error::from(credentials::Error { message }),
        Error::EmptyCredentials,
        Error::InvalidCredentials { url },
        Error::from(client::Error::LineTooLong),
        Error::TransportProtocolPolicyViolation {
            actual_version: Protocol::V1,
        },
        Error::from(parse::Error::from(PacketError::HexDecode)),
        Error::from(client::Error::Memory),
        Error::from(parse::Error::Memory),
        Error::from(AllocError),
    ];
    assert!(rt; !errors.iter().any(|error| error.is_spurious()));
    assert_eq!(rt;
        texts(a, &errors)?.as_str(),
        "Failed to obtain credentials\n\
        No credentials were returned at all as if the credential helper isn't functioning unknowingly\n\
        Credentials provided for \"git://h/p.git\" were not accepted by the remote\n\
        LineTooLong\n\
        The transport didn't accept the advertised server version V1 and closed the connection client side\n\
        HexDecode\nMemory\nMemory\nMemory\n"
    );
    Ok(())
}

#[test]
fn texts_of_a_list(rt: HostRuntime) -> Result<(), Fail> {
    let a = rt.alloc();
    let refused = validate_argument_prefixes::Error::UnsupportedArgument {
        command: "ls-refs",
        argument: text(a, b"unborn")?,
    };
    let errors = [
        ls_refs::Error::Io(ErrorKind::Other),
        ls_refs::Error::from(client::Error::LineTooLong),
        ls_refs::Error::from(parse::Error::from(PacketError::HexDecode)),
        ls_refs::Error::from(refused),
        ls_refs::Error::from(client::Error::Memory),
        ls_refs::Error::from(parse::Error::Memory),
        ls_refs::Error::from(validate_argument_prefixes::Error::Memory),
        ls_refs::Error::from(AllocError),
    ];
    assert_eq!(rt;
        texts(a, &errors)?.as_str(),
        "Io\nLineTooLong\nHexDecode\nUnsupportedArgument\nMemory\nMemory\nMemory\nMemory\n"
    );
    Ok(())
}

#[test]
fn texts_of_a_map(rt: HostRuntime) -> Result<(), Fail> {
    let a = rt.alloc();
    let format = text(a, b"sha256")?;
    let issues = Vec::new(a);
    let errors = [
        init::Error::UnknownObjectFormat { format },
        init::Error::from(validate::Error { issues }),
        init::Error::from(ls_refs::Error::Io(ErrorKind::Other)),
        init::Error::from(ls_refs::Error::Memory),
        init::Error::from(AllocError),
    ];
    assert_eq!(rt;
        texts(a, &errors)?.as_str(),
        "The object format \"sha256\" as used by the remote is unsupported\nError\nIo\nMemory\nMemory\n"
    );
    Ok(())
}
