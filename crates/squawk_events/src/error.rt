//! The errors of the front end.
ghost use Rattle.std.specs.Prelude.{◌≡◌};
ghost use Rattle.squawk_events.specs.declared.error.FrontError.TheVariants.{OutOfMemory};

use std::alloc::{AllocError, AllocFailed};
use thiserror::Error;

/// Why a call of the front end failed.
#[derive(Clone, Copy, Debug, PartialEq, Eq, Error)]
pub enum FrontError {
    /// The text, or the one that the call would return, has more than 4294967295 bytes, so its
    /// offsets do not fit in a `u32`.
    #[error("too long")]
    TooLong,
    /// An allocation failed.
    #[error("out of memory")]
    OutOfMemory,
    /// The range of bytes that an edit replaces is not one of the text: its start is above its end,
    /// its end is above the text's length, or one of them is no character boundary.
    #[error("bad range")]
    BadRange,
}

impl From<AllocError> for FrontError {
    ghost from_gives = { λ _ e. e ≡ OutOfMemory };

    fn from(_: AllocError) -> Self {
        FrontError::OutOfMemory
    }
}

impl<T: Drop> From<AllocFailed<T>> for FrontError {
    ghost from_gives = { λ _ e. e ≡ OutOfMemory };

    fn from(_: AllocFailed<T>) -> Self {
        FrontError::from(AllocError)
    }
}
