//! Why a plan isn't made.
ghost use Rattle.std.specs.Prelude.{◌≡◌, IfErr};
ghost use Rattle.gixp_planner.specs.Refusal.{refusal, refusal_of, IsPlanMemory, FileIsUnread, IsUnwritten, device_refusal, amount_value, written_amount, AnswersWrite};

use std::io;
use std::io::ErrorKind;
use thiserror::Error as DeriveError;

/// Why a plan isn't made: which step failed, and with which variant of its own error.
#[derive(Clone, Copy, Debug, PartialEq, Eq, Drop, DeriveError)]
#[error("{step} {variant}")]
pub struct PlanError {
    /// `file`, `have`, `spec`, `handshake`, `refs` or `fetch`.
    pub step: &'static str,
    /// The name of the variant of that step's error.
    pub variant: &'static str,
}

impl PlanError {
    pub(crate) fn new(step: &'static str, variant: &'static str) -> PlanError
        ensures { refusal_of result ≡ refusal step.now variant.now }
    {
        PlanError { step, variant }
    }

    pub(crate) fn memory(step: &'static str) -> PlanError
        ensures { IsPlanMemory step.now result }
    {
        PlanError::new(step, "Memory")
    }

    // The error of a failed read or write of a file.
    pub(crate) fn device(kind: ErrorKind) -> PlanError
        ensures by_kind { refusal_of result ≡ device_refusal kind }
        ensures unread { FileIsUnread result }
    {
        match kind {
            ErrorKind::OutOfMemory => PlanError::memory("file"),
            _ => PlanError::new("file", "Io"),
        }
    }
}

// How many bytes a write took, and 0 after an interrupt. A write that took nothing is an error.
pub(crate) fn amount_of(written: io::Result<usize>) -> Result<usize, PlanError>
    ensures amount { amount_value result ≡ written_amount written }
    ensures unwritten { IfErr result IsUnwritten }
{
    match written {
        Ok(0) => Err(PlanError::new("file", "Io")),
        Ok(amount) => Ok(amount),
        Err(e) => match e.kind() {
            ErrorKind::Interrupted => Ok(0),
            kind => Err(PlanError::device(kind)),
        },
    }
}

pub(crate) fn flush_result(answer: io::Result<()>) -> Result<(), PlanError>
    ensures answer { AnswersWrite answer result }
    ensures unwritten { IfErr result IsUnwritten }
{
    match answer {
        Ok(()) => Ok(()),
        Err(e) => Err(PlanError::device(e.kind())),
    }
}
