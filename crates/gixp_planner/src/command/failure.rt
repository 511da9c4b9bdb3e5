//! The failures of the program, and their status.
ghost use Rattle.std.specs.Prelude.{◌≡◌};
ghost use Rattle.std.specs.Process.{exit_status};
ghost use Rattle.gixp_planner.specs.ListErrorName.{list_error_name};
ghost use Rattle.gixp_planner.specs.Failure.{name_of, list_refusal, status_of, words_refusal};

use crate::error::PlanError;
use crate::listing::ListError;
use std::io::ErrorKind;
use std::process::ExitCode;
use thiserror::Error as DeriveError;

#[derive(Debug, Drop, DeriveError)]
pub(crate) enum Failure {
    // The words don't fit the usage, or aren't UTF-8.
    #[error("usage: gixp_plan refs FILE | plan DIR SPEC..")]
    Usage,
    // The name of an error.
    #[error("{0}")]
    Refused(&'static str),
    #[error("{0}")]
    Unplanned(PlanError),
}

impl Failure {
    // The failure of words that can't be read: an allocation failed, or a word isn't UTF-8.
    pub(crate) fn of_words(kind: ErrorKind) -> Failure
        ensures { name_of result ≡ words_refusal kind }
    {
        match kind {
            ErrorKind::OutOfMemory => Failure::Refused("Memory"),
            _ => Failure::Usage,
        }
    }

    pub(crate) fn of_list(error: ListError) -> Failure
        ensures { name_of result ≡ list_refusal error }
    {
        Failure::Refused(error.variant())
    }
}

pub(crate) fn status_of(ended: &Result<(), Failure>) -> ExitCode
    ensures { exit_status result ≡ status_of ended.now }
{
    match ended {
        Ok(()) => ExitCode::SUCCESS,
        Err(Failure::Usage) => ExitCode::from(2),
        Err(_) => ExitCode::FAILURE,
    }
}
