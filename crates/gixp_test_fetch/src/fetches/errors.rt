//! Texts of errors, and which of them are spurious.
use bstr::BString;
use gixp_capabilities::client;
use gixp_fetch::consume::CopyError;
use gixp_fetch::error::Error;
use gixp_negotiate::negotiate;
use gixp_packetline::read;
use gixp_response::fetch::response;
use gixp_shallow::ShallowError;
use gixp_transport::IsSpuriousError;
use std::alloc::{AllocError, Global};
use std::fmt::Display;
use std::io::ErrorKind;
use std::test::Fail;

type FetchError = Error<AllocError, CopyError>;

// Appends the text of an error as a line.
fn push_text<E: Display + Drop>(
    alloc: Global,
    text: &mut String,
    error: E,
) -> Result<(), AllocError> {
    let line = format!(in alloc; "{error}\n")?;
    text.push_str(line.as_str())
}

fn texts_of_layers(alloc: Global) -> Result<String, AllocError> {
    let mut text = String::new(alloc);
    let error = response::Error::Memory;
    push_text(alloc, &mut text, FetchError::FetchResponse(error))?;
    let error = negotiate::Error::NegotiationFailed { rounds: 3 };
    push_text(alloc, &mut text, FetchError::Negotiate(error))?;
    let error = client::Error::LineTooLong;
    push_text(alloc, &mut text, FetchError::Client(error))?;
    let error = FetchError::MissingServerFeature {
        feature: "shallow",
        description: "no depth",
    };
    push_text(alloc, &mut text, error)?;
    let error = CopyError::Read(read::Error::Io(ErrorKind::Other));
    push_text(alloc, &mut text, FetchError::ConsumePack(error))?;
    let error = read::Error::NotUtf8;
    push_text(alloc, &mut text, FetchError::ReadRemainingBytes(error))?;
    push_text(alloc, &mut text, FetchError::Memory)?;
    Ok(text)
}

const LAYERS: &str = "Could not decode server reply
We were unable to figure out what objects the server should send after 3 round(s)
LineTooLong
Server lack feature \"shallow\": no depth
Failed to consume the pack sent by the remote
Failed to read remaining bytes in stream
Memory
";

fn texts_of_boundaries(alloc: Global) -> Result<String, AllocError> {
    let mut text = String::new(alloc);
    let error = ShallowError::Locked;
    push_text(alloc, &mut text, FetchError::WriteShallowFile(error))?;
    let error = ShallowError::Locked;
    push_text(alloc, &mut text, FetchError::ReadShallowFile(error))?;
    let error = ShallowError::Locked;
    push_text(alloc, &mut text, FetchError::LockShallowFile(error))?;
    push_text(alloc, &mut text, FetchError::RejectShallowRemote)?;
    Ok(text)
}

const BOUNDARIES: &str =
    "Could not write 'shallow' file to incorporate remote updates after fetching
Could not read 'shallow' file to send current shallow boundary
'shallow' file could not be locked in preparation for writing changes
Receiving objects from shallow remotes is prohibited due to the value of `clone.rejectShallow`
";

#[test]
fn texts_of_errors(rt: HostRuntime) -> Result<(), Fail> {
    assert_eq!(rt; texts_of_layers(rt.alloc())?.as_str(), LAYERS);
    assert_eq!(rt; texts_of_boundaries(rt.alloc())?.as_str(), BOUNDARIES);
    Ok(())
}

fn texts_below(alloc: Global) -> Result<String, AllocError> {
    let mut text = String::new(alloc);
    push_text(alloc, &mut text, ShallowError::Io(ErrorKind::Other))?;
    push_text(alloc, &mut text, ShallowError::Locked)?;
    let line = BString::from(Vec::new(alloc));
    push_text(alloc, &mut text, ShallowError::Decode { line })?;
    push_text(alloc, &mut text, ShallowError::Memory)?;
    push_text(
        alloc,
        &mut text,
        CopyError::Read(read::Error::Io(ErrorKind::Other)),
    )?;
    push_text(alloc, &mut text, CopyError::Write(ErrorKind::Other))?;
    Ok(text)
}

#[test]
fn texts_of_stores_and_consumers(rt: HostRuntime) -> Result<(), Fail> {
    let want = "Io\nLocked\nDecode\nMemory\nRead\nWrite\n";
    assert_eq!(rt; texts_below(rt.alloc())?.as_str(), want);
    Ok(())
}

fn may_pass(error: FetchError) -> bool {
    error.is_spurious()
}

// Which of the errors with this kind are spurious.
fn which_may_pass(kind: ErrorKind) -> [bool; 5] {
    let transport = response::Error::Transport(client::Error::Io(kind));
    let reader = response::Error::Reader(read::Error::Io(kind));
    [
        may_pass(FetchError::FetchResponse(response::Error::Io(kind))),
        may_pass(FetchError::FetchResponse(transport)),
        may_pass(FetchError::FetchResponse(reader)),
        may_pass(FetchError::Client(client::Error::Io(kind))),
        may_pass(FetchError::ReadRemainingBytes(read::Error::Io(kind))),
    ]
}

#[test]
fn reports_which_may_pass(rt: HostRuntime) {
    assert_eq!(rt;
        which_may_pass(ErrorKind::TimedOut),
        [true, true, false, true, false]
    );
    assert_eq!(rt; which_may_pass(ErrorKind::Other), [false; 5]);
    let error = CopyError::Read(read::Error::Io(ErrorKind::TimedOut));
    assert!(rt; !may_pass(FetchError::ConsumePack(error)));
}

// Appends the error of a fetch as a line.
fn push_name(alloc: Global, text: &mut String, error: FetchError) -> Result<(), AllocError> {
    let line = format!(in alloc; "{error:?}\n")?;
    text.push_str(line.as_str())
}

fn names_of_others(alloc: Global) -> Result<String, AllocError> {
    let mut text = String::new(alloc);
    let error = response::Error::Io(ErrorKind::Other);
    push_name(alloc, &mut text, FetchError::from(error))?;
    push_name(alloc, &mut text, FetchError::from(response::Error::Memory))?;
    let error = client::Error::LineTooLong;
    push_name(alloc, &mut text, FetchError::from(error))?;
    push_name(alloc, &mut text, FetchError::from(client::Error::Memory))?;
    let error = negotiate::Error::PeelToId;
    push_name(alloc, &mut text, FetchError::from(error))?;
    push_name(alloc, &mut text, FetchError::from(negotiate::Error::Memory))?;
    push_name(alloc, &mut text, FetchError::from(AllocError))?;
    Ok(text)
}

#[test]
fn takes_in_other_errors(rt: HostRuntime) -> Result<(), Fail> {
    let want = "FetchResponse(Io(Other))\nMemory\nClient(LineTooLong)\nMemory\n\
        Negotiate(PeelToId)\nMemory\nMemory\n";
    assert_eq!(rt; names_of_others(rt.alloc())?.as_str(), want);
    Ok(())
}
