ghost use Rattle.std.specs.Prelude.{◌≡◌};
ghost use Rattle.assembler.specs.declared.fault.AsmError.TheVariants.{OutOfMemory};

use assembler_lines::fault::LineFault;
use refusal_titles::ASSEMBLER_OUT_OF_MEMORY;
use std::alloc::AllocError;
use thiserror::Error;

/// Why a text isn't assembled: its first line at fault, counted from 1, or want of memory. What `Display` shows is
/// compared as that of
/// `LineFault` is.
#[derive(Clone, Copy, Debug, PartialEq, Eq, Error)]
pub enum AsmError {
    /// The first line at fault, counted from 1, and its first fault.
    #[error("{fault} line {line}")]
    Line { line: usize, fault: LineFault },
    /// An allocation was refused.
    #[error("{ASSEMBLER_OUT_OF_MEMORY}")]
    OutOfMemory,
}

impl From<AllocError> for AsmError {
    ghost from_gives = { λ _ e. e ≡ OutOfMemory };

    fn from(_e: AllocError) -> AsmError {
        AsmError::OutOfMemory
    }
}
