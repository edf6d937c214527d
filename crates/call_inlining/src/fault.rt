ghost use Rattle.std.specs.Prelude.{◌≡◌};
ghost use Rattle.call_inlining.specs.declared.fault.InlineError.TheVariants.{OutOfMemory};

use std::alloc::{AllocError, AllocFailed};

/// What is wrong at a slot of a function.
#[derive(Clone, Copy, Debug)]
pub enum InlineFault {
    /// A call of a function that there isn't.
    NoFunction,
    /// A call of a function that runs already.
    Recursion,
    /// A call within 8 functions that run.
    TooDeep,
    /// A call of a function whose frame ends more than 512 bytes below the end of the stack.
    FramesTooLarge,
    /// r10 is used otherwise than as a base and in a move of 64 bits, in a function that is called, or a base's offset
    /// has no 16 bits in its frame.
    FrameRegister,
    /// A jump out of the function, or to the second slot of a wide load.
    JumpOut,
    /// A run goes on behind the last instruction, or into the second slot of a wide load.
    RunsOut,
    /// A second slot that doesn't follow a wide load, or a wide load that none follows.
    LoneSlot,
}

/// Why functions aren't inlined. Slots are counted from 0.
#[derive(Clone, Copy, Debug)]
pub enum InlineError {
    /// What is wrong at a slot of a function.
    Fault {
        function: usize,
        slot: usize,
        fault: InlineFault,
    },
    /// The program has more than 4,096 slots, or its slots stand for more than 8,192 places.
    TooLong,
    /// No fault is known, but it isn't sure that the program means the same.
    Unsure,
    OutOfMemory,
}

impl From<AllocError> for InlineError {
    ghost from_gives = { λ _ e. e ≡ OutOfMemory };

    fn from(_e: AllocError) -> InlineError {
        InlineError::OutOfMemory
    }
}

impl<T: Drop> From<AllocFailed<T>> for InlineError {
    ghost from_gives = { λ _ e. e ≡ OutOfMemory };

    fn from(_e: AllocFailed<T>) -> InlineError {
        InlineError::OutOfMemory
    }
}
