use refusal_titles::{JUMP_RANGE, LABEL_TWICE, NUMBER_RANGE, SYNTAX, UNKNOWN_LABEL, UNKNOWN_NAME};
use thiserror::Error;

/// Why a line isn't assembler text. No clause says which number and name `Display` shows: those of docs/REFUSALS.md,
/// which a test of
/// `program_tests` compares.
#[derive(Clone, Copy, Debug, PartialEq, Eq, Error)]
pub enum LineFault {
    /// A character or number that is no token, or tokens that have not the shape of a line.
    #[error("{SYNTAX}")]
    Syntax,
    /// A first word that is no mnemonic, or a name that is no register's where a register is asked for.
    #[error("{UNKNOWN_NAME}")]
    UnknownName,
    /// An immediate, an offset or a wide load's number out of its range.
    #[error("{NUMBER_RANGE}")]
    NumberRange,
    /// A jump to a label that no line defines.
    #[error("{UNKNOWN_LABEL}")]
    UnknownLabel,
    /// A label that an earlier line defines.
    #[error("{LABEL_TWICE}")]
    LabelTwice,
    /// A distance that is more than the jump reaches.
    #[error("{JUMP_RANGE}")]
    JumpRange,
}
