ghost use Rattle.std.specs.Prelude.{◌≡◌};
ghost use Rattle.change_history.specs.Kept.{error_at};

use refusal_titles::{
    DOCUMENT_FULL, HISTORY_FULL, MARKS_FULL, OUT_OF_MEMORY, STALE_COUNTER, UNKNOWN_REF,
};
use std::alloc::AllocError;
use thiserror::Error;

/// Why an operation is not accepted after others: the first that applies.
#[derive(Clone, Copy, Debug, PartialEq, Eq, Error)]
pub enum Refusal {
    /// The counter isn't above its peer's last one, or not above one that the operation names.
    #[error("{STALE_COUNTER}")]
    StaleCounter,
    /// A character or a removal that the operation names isn't there.
    #[error("{UNKNOWN_REF}")]
    UnknownRef,
    /// As many characters were inserted as the size allows, or the visible text has no room for the one that is shown.
    #[error("{DOCUMENT_FULL}")]
    DocumentFull,
    /// As many mark operations were accepted as the size allows.
    #[error("{MARKS_FULL}")]
    MarksFull,
}

/// Why an operation was not applied.
#[derive(Clone, Copy)]
pub enum ApplyError {
    Refused(Refusal),
    OutOfMemory,
}

/// The error of a line as one of its change.
pub(crate) fn at_index(index: usize, error: ApplyError) -> SubmitError
    ensures { result ≡ error_at index error }
{
    match error {
        ApplyError::Refused(refusal) => SubmitError::Refused { index, refusal },
        ApplyError::OutOfMemory => SubmitError::OutOfMemory,
    }
}

/// Why a change was not accepted.
#[derive(Clone, Copy, Debug, PartialEq, Eq, Error)]
pub enum SubmitError {
    /// As many changes were accepted as the size allows.
    #[error("{HISTORY_FULL}")]
    HistoryFull,
    /// The first operation that is refused is of the line at this index, from 0.
    #[error("{refusal}")]
    Refused { index: usize, refusal: Refusal },
    /// No memory was found.
    #[error("{OUT_OF_MEMORY}")]
    OutOfMemory,
}

impl From<AllocError> for SubmitError {
    ghost use Rattle.std.specs.Prelude.{◌≡◌};
    ghost use Rattle.change_history.specs.declared.refusal.SubmitError.TheVariants.{OutOfMemory};

    ghost from_gives = { λ _ e. e ≡ OutOfMemory };

    fn from(_error: AllocError) -> SubmitError {
        SubmitError::OutOfMemory
    }
}
