//! Why a run fails.
ghost use Rattle.std.specs.Prelude.{◌≡◌, ◌≤◌, length};
ghost use Rattle.squawk_events.specs.declared.error.FrontError.TheVariants.{OutOfMemory};
ghost use Rattle.squawk_show.specs.Outcome.{status_of_error, error_message};
ghost use Rattle.squawk_show.specs.declared.error.RunError.TheVariants.{Front};

use squawk_events::FrontError;
use std::alloc::{AllocError, AllocFailed};
use thiserror::Error;

/// Why a run fails. It is displayed as its line on standard error without the LF.
#[derive(Clone, Copy, Debug, PartialEq, Eq, Error)]
pub enum RunError {
    /// The words of the command line name no command.
    #[error("bad words")]
    BadWords,
    /// The source failed.
    #[error("cannot read the input")]
    ReadFault,
    /// The input is not UTF-8; `at` is the length in bytes of its longest valid prefix.
    #[error("not UTF-8 at {at}")]
    NotUtf8 { at: usize },
    /// The front end refused: the input is too long, there is not enough memory, or an edit has a
    /// bad range.
    #[error("{0}")]
    Front(FrontError),
    /// The script of edits is malformed; `at` is the offset in bytes of its first bad record.
    #[error("bad script at {at}")]
    BadScript { at: usize },
    /// The sink of the output failed.
    #[error("cannot write the output")]
    WriteFault,
}

impl RunError {
    // The message, up to the number of `NotUtf8` and `BadScript`.
    pub(crate) fn message(self) -> &'static str
        ensures message { result.now ≡ error_message self }
        ensures short { length result.now ≤ 30 }
    {
        match self {
            RunError::BadWords => "bad words",
            RunError::ReadFault => "cannot read the input",
            RunError::NotUtf8 { .. } => "not UTF-8 at ",
            RunError::Front(FrontError::TooLong) => "too long",
            RunError::Front(FrontError::OutOfMemory) => "out of memory",
            RunError::Front(FrontError::BadRange) => "bad range",
            RunError::BadScript { .. } => "bad script at ",
            RunError::WriteFault => "cannot write the output",
        }
    }

    /// The status that the program ends with after this error.
    pub fn status(self) -> u8
        ensures { result ≡ status_of_error self }
    {
        match self {
            RunError::BadWords => 2,
            RunError::ReadFault => 3,
            RunError::NotUtf8 { .. } => 4,
            RunError::Front(FrontError::TooLong) => 5,
            RunError::Front(FrontError::OutOfMemory) => 6,
            RunError::WriteFault => 7,
            RunError::BadScript { .. } => 8,
            RunError::Front(FrontError::BadRange) => 9,
        }
    }
}

impl From<FrontError> for RunError {
    ghost from_gives = { λ e r. r ≡ Front e };

    fn from(error: FrontError) -> Self {
        RunError::Front(error)
    }
}

impl From<AllocError> for RunError {
    ghost from_gives = { λ _ r. r ≡ Front OutOfMemory };

    fn from(_: AllocError) -> Self {
        RunError::Front(FrontError::OutOfMemory)
    }
}

impl<T: Drop> From<AllocFailed<T>> for RunError {
    ghost from_gives = { λ _ r. r ≡ Front OutOfMemory };

    fn from(_: AllocFailed<T>) -> Self {
        RunError::Front(FrontError::OutOfMemory)
    }
}
