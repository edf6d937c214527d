//! Why a walk doesn't go past an instruction.
ghost use Rattle.std.specs.Prelude.{◌≡◌};

use abstract_state::refusal::Refusal;
use std::alloc::{AllocError, AllocFailed};

/// Why a walk doesn't go past an instruction.
#[derive(Clone, Copy)]
pub enum Stop {
    Refused(Refusal),
    OutOfMemory,
}

impl From<Refusal> for Stop {
    ghost use Rattle.tracked_state.specs.declared.stop.Stop.TheVariants.{Refused};

    ghost from_gives = { λ fault stop. stop ≡ Refused fault };

    fn from(fault: Refusal) -> Stop {
        Stop::Refused(fault)
    }
}

impl From<AllocError> for Stop {
    ghost use Rattle.tracked_state.specs.declared.stop.Stop.TheVariants.{OutOfMemory};

    ghost from_gives = { λ _ stop. stop ≡ OutOfMemory };

    fn from(_e: AllocError) -> Stop {
        Stop::OutOfMemory
    }
}

impl<T: Drop> From<AllocFailed<T>> for Stop {
    ghost use Rattle.tracked_state.specs.declared.stop.Stop.TheVariants.{OutOfMemory};

    ghost from_gives = { λ _ stop. stop ≡ OutOfMemory };

    fn from(_e: AllocFailed<T>) -> Stop {
        Stop::OutOfMemory
    }
}
