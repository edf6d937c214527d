ghost use Rattle.std.specs.Prelude.{◌≡◌};
ghost use Rattle.block_layout.specs.declared.refusal.StraightenError.TheVariants.{OutOfMemory};

use std::alloc::{AllocError, AllocFailed};

/// What is wrong with where an instruction leads, whatever the order of the blocks is.
#[derive(Clone, Copy)]
pub enum WayFault {
    /// A jump to a slot that the program doesn't have.
    JumpOut,
    /// A jump to the second slot of a wide load.
    JumpIntoWide,
    /// The last instruction leads on behind itself.
    FallOff,
}

/// Why a program isn't laid out. Slots are counted from 0.
#[derive(Clone, Copy)]
pub enum StraightenError {
    /// The first slot at fault.
    Misplaced { slot: usize, fault: WayFault },
    /// A run may go round: the slot of a jump back on the way.
    Loop { slot: usize },
    /// No run may go round, but the instructions, each with a jump behind it, take more than 4,095 slots, and no layout
    /// of at most 4,096 slots is found.
    NoLayout,
    OutOfMemory,
}

impl From<AllocError> for StraightenError {
    ghost from_gives = { λ _ e. e ≡ OutOfMemory };

    fn from(_e: AllocError) -> StraightenError {
        StraightenError::OutOfMemory
    }
}

impl<T: Drop> From<AllocFailed<T>> for StraightenError {
    ghost from_gives = { λ _ e. e ≡ OutOfMemory };

    fn from(_e: AllocFailed<T>) -> StraightenError {
        StraightenError::OutOfMemory
    }
}
