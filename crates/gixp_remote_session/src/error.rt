//! Errors of the helper, and their texts.
ghost use Rattle.std.specs.Prelude.{◌≡◌};
ghost use Rattle.std.specs.IoError.{error_kind};
ghost use Rattle.gixp_remote_session.specs.Errors.{ErrorIsWord, ErrorIsVariable, ErrorIsStatus, prefix_of, is_hang_up, error_kind_of};
ghost use Rattle.gixp_remote_session.specs.declared.error.Error.TheVariants as variants;

use bstr::{BStr, BString};
use gixp_fetch_common::failure::Failure;
use gixp_remote_rules::{SshError, has_reported, printable_text};
use gixp_url::UrlError;
use std::alloc::{AllocError, AllocFailed, Global};
use std::fmt::Display;
use std::io::ErrorKind;
use std::{fmt, io};

/// Why the helper ends.
#[derive(Debug, Drop)]
pub(crate) enum Error {
    /// A step of the session, or a file.
    Fetch(Failure),
    /// The URL.
    Url(UrlError),
    /// A pipe to the shell or to another program, or standard input or output.
    Io(ErrorKind),
    /// git sent a line that isn't a command.
    UnknownCommand(BString),
    /// Another error, with its text.
    Other(&'static str),
    /// Another error, whose text is git's own.
    Fatal(&'static str),
    /// A program that the helper started has reported the error.
    AlreadyReported,
    /// An error about a value: its text, and the value.
    Word(&'static str, BString),
    /// A program exited with another status than 0: which program, and the status.
    Status(&'static str, u32),
    /// An environment variable that must be a boolean: its name and its value.
    Variable(&'static str, BString),
    /// The pack from a URI isn't the one that the server named: the URI, and the hash.
    Mismatch(BString, BString),
    /// A URL with a password. It is shown without the password.
    Password(BString),
    /// A variant of ssh.
    Ssh(SshError),
    /// An allocation failed.
    Memory,
}

impl From<AllocError> for Error {
    ghost from_gives = { λ _ e. e ≡ variants.Memory };

    fn from(_e: AllocError) -> Error {
        Error::Memory
    }
}

impl<T: Drop> From<AllocFailed<T>> for Error {
    ghost from_gives = { λ _ e. e ≡ variants.Memory };

    fn from(_e: AllocFailed<T>) -> Error {
        Error::Memory
    }
}

impl From<Failure> for Error {
    ghost from_gives = { λ failure e. e ≡ variants.Fetch failure };

    fn from(e: Failure) -> Error {
        Error::Fetch(e)
    }
}

impl From<UrlError> for Error {
    ghost from_gives = { λ error e. e ≡ variants.Url error };

    fn from(e: UrlError) -> Error {
        Error::Url(e)
    }
}

impl From<SshError> for Error {
    ghost from_gives = { λ error e. e ≡ variants.Ssh error };

    fn from(e: SshError) -> Error {
        Error::Ssh(e)
    }
}

impl From<io::Error> for Error {
    ghost from_gives = { λ error e. e ≡ variants.Io (error_kind error) };

    fn from(e: io::Error) -> Error {
        Error::Io(e.kind())
    }
}

impl Error {
    /// An error about a value.
    pub(crate) fn with_text(alloc: Global, why: &'static str, word: &[u8]) -> Error
        ensures { ErrorIsWord why.now word.now result }
    {
        match BString::from_slice(alloc, word) {
            Ok(word) => Error::Word(why, word),
            Err(_) => Error::Memory,
        }
    }

    /// An error about an environment variable that isn't a boolean.
    pub(crate) fn bad_boolean(alloc: Global, name: &'static str, value: &[u8]) -> Error
        ensures { ErrorIsVariable name.now value.now result }
    {
        match BString::from_slice(alloc, value) {
            Ok(value) => Error::Variable(name, value),
            Err(_) => Error::Memory,
        }
    }

    /// Whether the server closed the connection during a step.
    pub(crate) fn is_hang_up(&self) -> bool
        ensures { result ≡ is_hang_up self.now }
    {
        match self {
            Error::Fetch(Failure::HungUp) => true,
            _ => false,
        }
    }

    /// The word before the text: git's own, or the name of the helper.
    pub(crate) fn prefix(&self) -> &'static str
        ensures { result.now ≡ prefix_of self.now }
    {
        match self {
            Error::Fetch(e) if e.is_said_by_git() => "fatal",
            Error::Word(_, _) | Error::Url(_) | Error::Fatal(_) => "fatal",
            Error::Variable(_, _) | Error::Password(_) | Error::Ssh(_) => "fatal",
            Error::Mismatch(_, _) => "fatal",
            _ => "git-remote-gixp",
        }
    }
}

impl Display for Error {
    fn fmt<W: fmt::Write>(&self, f: &mut fmt::Formatter<W>) -> fmt::Result {
        match self {
            Error::Fetch(e) => write!(f, "{e}"),
            Error::Url(e) => write!(f, "the URL: {e}"),
            Error::Io(kind) => write!(f, "a pipe of the helper broke: {kind}"),
            Error::UnknownCommand(line) => write!(f, "unknown command: {line}"),
            Error::Other(why) | Error::Fatal(why) => f.write_str(why),
            Error::AlreadyReported => Ok(()),
            Error::Word(why, word) => write!(f, "{why} '{word}'"),
            Error::Status(why, status) => write!(f, "{why} {status}"),
            Error::Variable(name, value) => {
                write!(f, "bad boolean environment value '{value}' for '{name}'")
            }
            Error::Mismatch(uri, name) => write!(
                f,
                "fetch-pack: pack downloaded from {uri} does not match expected hash {name}",
            ),
            Error::Password(url) => write!(f, "URL '{url}' uses plaintext credentials"),
            Error::Ssh(e) => write!(f, "{e}"),
            Error::Memory => write!(f, "out of memory"),
        }
    }
}

/// The error of a question to git, by its exit status. git has printed why, or the status is shown.
pub(crate) fn unless_reported(status: u32, why: &'static str) -> Error
    ensures { ErrorIsStatus why.now status result }
{
    if has_reported(status) {
        Error::AlreadyReported
    } else {
        Error::Status(why, status)
    }
}

/// The kind of an error, for callers that report only a kind.
pub(crate) fn error_kind_of(e: &Error) -> ErrorKind
    ensures { result ≡ error_kind_of e.now }
{
    match e {
        Error::Io(kind) => *kind,
        Error::Memory => ErrorKind::OutOfMemory,
        _ => ErrorKind::Other,
    }
}

// The text of an error, without control characters.
fn printable<D: Display>(alloc: Global, sentence: &D) -> Result<Vec<u8>, AllocError> {
    let text = format!(in alloc; "{sentence}")?;
    printable_text(alloc, text.as_bytes())
}

/// Prints an error on standard error, after a prefix. Control characters of the server or the user
/// are replaced.
pub(crate) fn print_error<D: Display>(rt: &HostRuntime, mark: &str, sentence: &D) {
    match printable(rt.alloc(), sentence) {
        Ok(text) => {
            let text = BStr::new(&text);
            let _ = eprintln!(rt; "{mark}: {text}");
        }
        Err(_) => {
            let _ = eprintln!(rt; "{mark}: out of memory");
        }
    }
}
