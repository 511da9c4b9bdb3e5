//! Why a program ends with an error, and the sentence that says so.
ghost use Rattle.std.specs.Prelude.{◌≡◌, None, option_map, IfOk};
ghost use Rattle.std.specs.declared.io.ErrorKind.TheVariants.{OutOfMemory};
ghost use Rattle.bstr.specs.Owned.{bstring_bytes};
ghost use Rattle.gixp_fetch_common.specs.Failures.{sanitized_message, FailureIsPhase, FailureIsPhaseText, FailureIsUnsaid, FailureIsUpdate, FailureIsFile, FailureIsLine, is_said_by_git, speaker_of, unless_failed};
ghost use Rattle.gixp_fetch_common.specs.declared.failure.Failure.TheVariants.{Memory};

use crate::error_kind::kind_text;
use crate::sanitize::sanitized;
use bstr::BString;
use gix_protocol::client::Fetched;
use gix_protocol::fetch::refs::update;
use gix_protocol::transport::{ObjectId, ServerMessage};
use gixp_utils::without_line_end;
use std::alloc::{AllocError, AllocFailed, Global};
use std::fmt;
use std::fmt::Display;
use std::io::ErrorKind;

/// The phase of a fetch that failed.
#[derive(Clone, Copy, Debug, PartialEq, Eq)]
pub enum Phase {
    Refspec,
    Handshake,
    Listing,
    Update,
    Fetch,
}

impl Display for Phase {
    fn fmt<W: fmt::Write>(&self, f: &mut fmt::Formatter<W>) -> fmt::Result {
        match self {
            Phase::Refspec => f.write_str("reading a refspec"),
            Phase::Handshake => f.write_str("the handshake"),
            Phase::Listing => f.write_str("listing the refs"),
            Phase::Update => f.write_str("comparing the local refs"),
            Phase::Fetch => f.write_str("the fetch"),
        }
    }
}

// git's own text for a server that it couldn't reach.
const NO_CONTACT: &str = "Could not read from remote repository.

Please make sure you have the correct access rights
and the repository exists.";

/// Why a program ends with an error.
#[derive(Debug, Drop)]
pub enum Failure {
    /// A phase failed. `message` is the server's, where it sent one, as a terminal shows it.
    Phase {
        phase: Phase,
        why: String,
        message: Option<BString>,
    },
    /// The server ended the connection within the handshake.
    NoContact,
    /// The server ended the connection within another phase.
    HungUp,
    /// The server reported an error on band 3, which was shown.
    ServerFailed,
    /// The server removes this id from the shallow boundary, which doesn't have it.
    UnknownUnshallow {
        id: ObjectId,
    },
    /// The file at this path can't be read or written.
    File {
        path: String,
        kind: ErrorKind,
    },
    /// The line of this number of a text, from 1 on, can't be read.
    Line {
        path: String,
        line: usize,
    },
    /// git rejected the pack, and printed why.
    PackRefused,
    /// The server has no ref of this name.
    Missing {
        name: BString,
    },
    /// Standard input or output, or the words of the command line, can't be read or written.
    Io(ErrorKind),
    /// An allocation failed.
    Memory,
}

impl From<AllocError> for Failure {
    ghost from_gives = { λ _ f. f ≡ Memory };

    fn from(_e: AllocError) -> Failure {
        Failure::Memory
    }
}

impl<T: Drop> From<AllocFailed<T>> for Failure {
    ghost from_gives = { λ _ f. f ≡ Memory };

    fn from(_e: AllocFailed<T>) -> Failure {
        Failure::Memory
    }
}

impl Failure {
    /// The failure of a phase with this error.
    pub fn of_phase<E: Display + ServerMessage>(alloc: Global, phase: Phase, error: &E) -> Failure
        ensures { FailureIsPhase phase (E.message error.now) result }
    {
        match error_texts(alloc, error) {
            Ok((why, message)) => Failure::Phase {
                phase,
                why,
                message,
            },
            Err(_) => Failure::Memory,
        }
    }

    /// The failure of a phase for the reason in a text.
    pub fn of_text(alloc: Global, phase: Phase, text: &str) -> Failure
        ensures text { FailureIsPhaseText phase text.now result }
        ensures unsaid { FailureIsUnsaid phase result }
    {
        match String::from_str(alloc, text) {
            Ok(why) => Failure::Phase {
                phase,
                why,
                message: None,
            },
            Err(_) => Failure::Memory,
        }
    }

    /// The failure of a read or a write of a file: `Memory` where the kind is `OutOfMemory`.
    pub fn of_file(alloc: Global, path: &str, kind: ErrorKind) -> Failure
        ensures file { FailureIsFile path.now kind result }
        ensures memory { kind ≡ OutOfMemory → result ≡ Memory }
    {
        if kind == ErrorKind::OutOfMemory {
            return Failure::Memory;
        }
        match String::from_str(alloc, path) {
            Ok(path) => Failure::File { path, kind },
            Err(_) => Failure::Memory,
        }
    }

    /// The failure of a line of a text that can't be read.
    pub fn of_line(alloc: Global, path: &str, line: usize) -> Failure
        ensures { FailureIsLine path.now line result }
    {
        match String::from_str(alloc, path) {
            Ok(path) => Failure::Line { path, line },
            Err(_) => Failure::Memory,
        }
    }

    /// The failure of the comparison of the local refs.
    pub fn of_update(alloc: Global, error: update::Error) -> Failure
        ensures { FailureIsUpdate error result }
    {
        if error == update::Error::Memory {
            return Failure::Memory;
        }
        match format!(in alloc; "{error}") {
            Ok(why) => Failure::of_text(alloc, Phase::Update, why.as_str()),
            Err(_) => Failure::Memory,
        }
    }
}

// The text of an error, and the server's message as a terminal shows it.
fn error_texts<E: Display + ServerMessage>(
    alloc: Global,
    error: &E,
) -> Result<(String, Option<BString>), AllocError>
    ensures { IfOk result (λ texts. option_map bstring_bytes texts.1 ≡ sanitized_message (E.message error.now)) }
{
    let why = format!(in alloc; "{error}")?;
    let message = match error.server_message() {
        Some(words) => Some(sanitized(alloc, without_line_end(words.as_bytes()))?),
        None => None,
    };
    Ok((why, message))
}

impl Failure {
    /// Whether git reports the same failure in the same words.
    pub fn is_said_by_git(&self) -> bool
        ensures { result ≡ is_said_by_git self.now }
    {
        match self {
            Failure::Phase {
                message: Some(_),
                ..
            }
            | Failure::NoContact
            | Failure::HungUp
            | Failure::PackRefused
            | Failure::UnknownUnshallow { .. } => true,
            _ => false,
        }
    }

    /// The prefix of the error line: `fatal` where git reports the failure in the same words.
    pub fn speaker(&self) -> &'static str
        ensures { result.now ≡ speaker_of self.now }
    {
        if self.is_said_by_git() {
            "fatal"
        } else {
            "gixp_fetch_pack"
        }
    }
}

impl Display for Failure {
    fn fmt<W: fmt::Write>(&self, f: &mut fmt::Formatter<W>) -> fmt::Result {
        match self {
            Failure::Phase {
                phase,
                why,
                message: None,
            } => write!(f, "{phase} failed: {why}"),
            Failure::Phase {
                phase: _,
                why: _,
                message: Some(message),
            } => write!(f, "remote error: {message}"),
            Failure::NoContact => f.write_str(NO_CONTACT),
            Failure::HungUp => write!(f, "the remote end hung up unexpectedly"),
            Failure::ServerFailed => write!(f, "the server reported an error"),
            Failure::UnknownUnshallow { id } => write!(f, "no shallow found: unshallow {id}"),
            Failure::File { path, kind } => write!(f, "{path}: {}", kind_text(*kind)),
            Failure::Line { path, line } => write!(f, "{path}: line {line} is malformed"),
            Failure::PackRefused => write!(f, "git refused the pack"),
            Failure::Missing { name } => write!(f, "couldn't find remote ref {name}"),
            Failure::Io(kind) => { write!(f, "standard input or output: {}", kind_text(*kind)) },
            Failure::Memory => write!(f, "out of memory"),
        }
    }
}

/// The result of a fetch, or `ServerFailed` where it succeeded though the server reported an error on band 3.
pub fn unless_failed(
    fetched: Result<Fetched, Failure>,
    has_failed: bool,
) -> Result<Fetched, Failure>
    ensures { result ≡ unless_failed fetched has_failed }
{
    match fetched {
        Ok(fetched) => {
            if has_failed {
                return Err(Failure::ServerFailed);
            }
            Ok(fetched)
        }
        Err(e) => Err(e),
    }
}
