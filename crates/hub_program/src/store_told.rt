//! What is told of a store on standard error.
use crate::CommandError;
use crate::system::StoreDamage;
use std::io::Write;

/// Tells more of a store that is refused or failed than its refusal says; where that fails too, the exit status tells
/// it.
pub(crate) fn tell_of_store<E: Write>(errors: &mut E, path: &str, error: &CommandError) {
    let _ = match error {
        CommandError::StoreFailed(Some(failure)) => {
            writeln!(errors, "hub: the store failed: {path} {failure}")
        }
        CommandError::StoreFailed(None) => {
            writeln!(
                errors,
                "hub: the store failed: {path} keeps no change any more"
            )
        }
        CommandError::Damaged(StoreDamage::NoSums) => {
            writeln!(
                errors,
                "hint: {path} has no sums on its pages; `hub adopt {path} NEW` makes a store of it"
            )
        }
        CommandError::Damaged(StoreDamage::Log(lost)) => writeln!(
            errors,
            "hint: {path}-wal is damaged, and at least {lost} commits behind the damage are lost; --accept-loss goes on without them"
        ),
        CommandError::Damaged(StoreDamage::ForeignLog) => {
            writeln!(errors, "hint: {path}-wal is the log of another file")
        }
        _ => Ok(()),
    };
}

/// Tells how many commits a log has lost, if any.
pub(crate) fn tell_of_loss<E: Write>(errors: &mut E, path: &str, lost: usize) {
    if lost > 0 {
        let _ = writeln!(
            errors,
            "hub: {path}-wal was damaged: at least {lost} commits are lost"
        );
    }
}
