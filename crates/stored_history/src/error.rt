ghost use Rattle.std.specs.Prelude.{◌≡◌};
ghost use Rattle.stored_history.specs.Texts.{text_error};

use change_history::refusal::SubmitError;

/// Why a log was not opened.
#[derive(Clone, Copy)]
pub enum OpenError {
    /// The log failed: what it keeps is no longer known.
    LogFailed,
    /// The text of this number, counted from 1, is the first that isn't the one spelling of a change that is accepted
    /// after those before it.
    Damaged(usize),
    /// No memory was found.
    OutOfMemory,
}

/// The error of a text whose change is refused. Want of memory is no fault of the text.
pub(crate) fn refused_text(number: usize, error: SubmitError) -> OpenError
    ensures { result ≡ text_error number error }
{
    match error {
        SubmitError::OutOfMemory => OpenError::OutOfMemory,
        SubmitError::HistoryFull | SubmitError::Refused { .. } => OpenError::Damaged(number),
    }
}

/// Why changes were not accepted.
#[derive(Clone, Copy)]
pub enum AcceptError {
    /// The log failed, in this call or an earlier one, or there was no memory to read it again: nothing is accepted any
    /// more.
    LogFailed,
    /// No memory was found, and nothing was accepted.
    OutOfMemory,
}
