//! Why labels don't hold.
ghost use Rattle.std.specs.Prelude.{◌≡◌};
ghost use Rattle.loop_check.specs.Failures.{error_at};

use abstract_state::refusal::Refusal;
use std::alloc::AllocError;
use tracked_state::stop::Stop;

/// What is wrong with a label.
#[derive(Clone, Copy)]
pub enum LabelFault {
    /// No instruction starts at its slot.
    NoInstruction,
    /// The instruction writes r10.
    WritesR10,
    /// By what the label knows the instruction is refused.
    Refused(Refusal),
    /// An edge leads to no label, or to one that says more than is known there. At the first slot the start does.
    NotContained,
    /// The potential may be less than 1.
    NotPositive,
    /// On an edge the potential may not fall.
    NotFalling,
    /// The first label's potential isn't the bound.
    NotTheBound,
}

/// Why labels aren't accepted: the first slot whose label is at fault, or want of memory.
#[derive(Clone, Copy)]
pub enum CheckError {
    Label { slot: usize, fault: LabelFault },
    OutOfMemory,
}

/// Why one label isn't accepted.
#[derive(Clone, Copy)]
pub(crate) enum Failure {
    Fault(LabelFault),
    OutOfMemory,
}

impl From<LabelFault> for Failure {
    ghost use Rattle.loop_check.specs.declared.refusal.Failure.TheVariants.{Fault};

    ghost from_gives = { λ fault failure. failure ≡ Fault fault };

    fn from(fault: LabelFault) -> Failure {
        Failure::Fault(fault)
    }
}

impl From<Refusal> for Failure {
    ghost use Rattle.loop_check.specs.declared.refusal.Failure.TheVariants.{Fault};
    ghost use Rattle.loop_check.specs.declared.refusal.LabelFault.TheVariants.{Refused};

    ghost from_gives = { λ refusal failure. failure ≡ Fault (Refused refusal) };

    fn from(refusal: Refusal) -> Failure {
        Failure::Fault(LabelFault::Refused(refusal))
    }
}

impl From<Stop> for Failure {
    ghost use Rattle.loop_check.specs.Failures.{failure_of};

    ghost from_gives = { λ stop failure. failure ≡ failure_of stop };

    fn from(stop: Stop) -> Failure {
        match stop {
            Stop::Refused(refusal) => Failure::Fault(LabelFault::Refused(refusal)),
            Stop::OutOfMemory => Failure::OutOfMemory,
        }
    }
}

impl From<AllocError> for Failure {
    ghost use Rattle.loop_check.specs.declared.refusal.Failure.TheVariants.{OutOfMemory};

    ghost from_gives = { λ _ failure. failure ≡ OutOfMemory };

    fn from(_e: AllocError) -> Failure {
        Failure::OutOfMemory
    }
}

impl Failure {
    /// The error that it is, of the label at a slot.
    pub(crate) fn at(self, slot: usize) -> CheckError
        ensures { result ≡ error_at slot self }
    {
        match self {
            Failure::Fault(fault) => CheckError::Label { slot, fault },
            Failure::OutOfMemory => CheckError::OutOfMemory,
        }
    }
}
