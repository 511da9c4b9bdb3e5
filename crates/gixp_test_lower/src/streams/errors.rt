//! Texts of errors and ids, and copies.
use crate::shown::are_shown;
use bstr::BString;
use gixp_capabilities::client;
use gixp_hash::{ObjectId, decode};
use gixp_packetline::PacketError;
use gixp_packetline::read::Error as ReadError;
use gixp_transport::{Account, Opening};
use std::io::ErrorKind;
use std::test::Fail;

#[test]
fn names_each_error(rt: HostRuntime) -> Result<(), Fail> {
    let a = rt.alloc();
    let message = BString::from_slice(a, b"no".as_slice())?;
    let errors = [
        ReadError::Io(ErrorKind::Other),
        ReadError::Decode(PacketError::HexDecode),
        ReadError::UnexpectedFrame,
        ReadError::NotUtf8,
        ReadError::BadBand(4),
        ReadError::Interrupted,
        ReadError::Memory,
        ReadError::Server { message },
    ];
    let text = "Io\nDecode\nUnexpectedFrame\nNotUtf8\nBadBand\nInterrupted\nMemory\nServer\n";
    assert!(rt; are_shown(a, &errors, text)?);
    Ok(())
}

#[test]
fn names_each_packet_error(rt: HostRuntime) -> Result<(), Fail> {
    let a = rt.alloc();
    let errors = [
        PacketError::HexDecode,
        PacketError::DataLengthLimitExceeded,
        PacketError::DataIsEmpty,
        PacketError::InvalidLineLength,
    ];
    let text = "HexDecode\nDataLengthLimitExceeded\nDataIsEmpty\nInvalidLineLength\n";
    assert!(rt; are_shown(a, &errors, text)?);
    let errors = [decode::Error::InvalidLength(3), decode::Error::InvalidDigit];
    let text = "InvalidLength\nInvalidDigit\n";
    assert!(rt; are_shown(a, &errors, text)?);
    Ok(())
}

#[test]
fn shows_an_id(rt: HostRuntime) -> Result<(), Fail> {
    let text = "0123456789abcdef0123456789abcdef01234567";
    let shown = match ObjectId::from_hex(text.as_bytes()) {
        Ok(id) => format!(in rt.alloc(); "{id} {id:?}")?,
        Err(e) => format!(in rt.alloc(); "{e}")?,
    };
    let twice = format!(in rt.alloc(); "{text} {text}")?;
    assert_eq!(rt; shown.as_str(), twice.as_str());
    Ok(())
}

#[test]
fn copies_an_account(rt: HostRuntime) -> Result<(), Fail> {
    let a = rt.alloc();
    let account = Account {
        username: String::from_str(a, "user")?,
        password: String::from_str(a, "pass")?,
    };
    assert!(rt; account.clone()? == account);
    Ok(())
}

#[test]
fn copies_an_opening(rt: HostRuntime) -> Result<(), Fail> {
    let opening = Opening {
        path: BString::from_slice(rt.alloc(), "/repository.git")?,
        host: None,
    };
    assert!(rt; opening.clone()? == opening);
    Ok(())
}

#[test]
fn writes_each_client_error(rt: HostRuntime) -> Result<(), Fail> {
    let a = rt.alloc();
    let version = BString::from_slice(a, "version 3")?;
    let errors = [
        client::Error::Io(ErrorKind::TimedOut),
        client::Error::Read(ReadError::NotUtf8),
        client::Error::LineTooLong,
        client::Error::AuthenticationUnsupported,
        client::Error::UnsupportedProtocolVersion(version),
        client::Error::MissingDelimitingNullByte,
        client::Error::Memory,
    ];
    let text = "Io\nRead\nLineTooLong\nAuthenticationUnsupported\nUnsupportedProtocolVersion\n\
        MissingDelimitingNullByte\nMemory\n";
    assert!(rt; are_shown(a, &errors, text)?);
    Ok(())
}
