ghost use Rattle.std.specs.Prelude.{◌≡◌};
ghost use Rattle.change_ops.specs.declared.refusal.ChangeError.TheVariants.{OutOfMemory};
ghost use Rattle.change_ops.specs.declared.refusal.LineFault.TheVariants as fault;

use refusal_titles::{BAD_LINE, CHAR_REFUSED, LIMIT, OUT_OF_MEMORY, TRUNCATED, WRONG_PEER};
use std::alloc::{AllocError, AllocFailed};
use thiserror::Error;

/// Why a line is refused.
#[derive(Clone, Copy)]
pub(crate) enum LineFault {
    BadLine,
    Limit,
    CharRefused,
    WrongPeer,
    OutOfMemory,
}

impl From<AllocError> for LineFault {
    ghost from_gives = { λ _ e. e ≡ fault.OutOfMemory };

    fn from(_e: AllocError) -> LineFault {
        LineFault::OutOfMemory
    }
}

impl<T: Drop> From<AllocFailed<T>> for LineFault {
    ghost from_gives = { λ _ e. e ≡ fault.OutOfMemory };

    fn from(_e: AllocFailed<T>) -> LineFault {
        LineFault::OutOfMemory
    }
}

/// Why a text isn't a change's.
#[derive(Clone, Copy, Debug, PartialEq, Eq, Error)]
pub enum ChangeError {
    #[error("{BAD_LINE} line {0}")]
    BadLine(usize),
    #[error("{TRUNCATED}")]
    Truncated,
    #[error("{LIMIT} line {0}")]
    Limit(usize),
    #[error("{CHAR_REFUSED} line {0}")]
    CharRefused(usize),
    #[error("{WRONG_PEER} line {0}")]
    WrongPeer(usize),
    #[error("{OUT_OF_MEMORY}")]
    OutOfMemory,
}

impl From<AllocError> for ChangeError {
    ghost from_gives = { λ _ e. e ≡ OutOfMemory };

    fn from(_e: AllocError) -> ChangeError {
        ChangeError::OutOfMemory
    }
}

impl<T: Drop> From<AllocFailed<T>> for ChangeError {
    ghost from_gives = { λ _ e. e ≡ OutOfMemory };

    fn from(_e: AllocFailed<T>) -> ChangeError {
        ChangeError::OutOfMemory
    }
}
