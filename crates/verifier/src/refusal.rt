ghost use Rattle.std.specs.Prelude.{◌≡◌};
ghost use Rattle.verifier.specs.declared.refusal.VerifyError.TheVariants.{OutOfMemory};

use abstract_state::refusal::Refusal;
use std::alloc::{AllocError, AllocFailed};

/// What is wrong with an instruction's position or target, whatever is known of the machine.
#[derive(Clone, Copy)]
pub enum StructureFault {
    /// A jump back.
    BackwardJump,
    /// A jump to a slot that the program doesn't have.
    JumpOut,
    /// A jump to the second slot of a wide load.
    JumpIntoWide,
    /// The last instruction isn't an exit.
    FallOff,
    /// An instruction writes r10.
    WriteR10,
}

/// Why a program isn't accepted: the first slot at fault, counted from 0, or want of memory.
#[derive(Clone, Copy)]
pub enum VerifyError {
    Structure { slot: usize, fault: StructureFault },
    State { slot: usize, fault: Refusal },
    OutOfMemory,
}

impl From<AllocError> for VerifyError {
    ghost from_gives = { λ _ e. e ≡ OutOfMemory };

    fn from(_e: AllocError) -> VerifyError {
        VerifyError::OutOfMemory
    }
}

impl<T: Drop> From<AllocFailed<T>> for VerifyError {
    ghost from_gives = { λ _ e. e ≡ OutOfMemory };

    fn from(_e: AllocFailed<T>) -> VerifyError {
        VerifyError::OutOfMemory
    }
}
