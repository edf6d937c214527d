//! Why a program that loops isn't accepted.

use abstract_state::refusal::Refusal;
use loop_check::refusal::{CheckError, LabelFault};
use loop_search::states::SearchError;
use std::alloc::AllocError;

/// Why a program that loops isn't accepted.
#[derive(Clone, Copy)]
pub enum LoopError {
    /// What is known before the slot refuses its instruction.
    Refused { slot: usize, fault: Refusal },
    /// The instruction leads out of the program, or writes r10.
    Leaves { slot: usize },
    /// No measure of a loop was found.
    NoMeasure,
    /// The check refuses what the search found for the slot.
    Unchecked { slot: usize, fault: LabelFault },
    /// By the bound a run may take too many steps.
    TooManySteps,
    /// The search visited too many slots.
    SearchLimit,
    OutOfMemory,
}

impl LoopError {
    /// Why two searches came to nothing: where the first one found what is known, but no bound, that is why, though the
    /// second one's knowledge refuses an instruction.
    pub(crate) fn before(self, second: LoopError) -> LoopError {
        match (self, second) {
            (LoopError::NoMeasure | LoopError::TooManySteps, LoopError::Refused { .. }) => self,
            _ => second,
        }
    }
}

impl From<AllocError> for LoopError {
    fn from(_e: AllocError) -> LoopError {
        LoopError::OutOfMemory
    }
}

impl From<SearchError> for LoopError {
    fn from(error: SearchError) -> LoopError {
        match error {
            SearchError::Refused { slot, fault } => LoopError::Refused { slot, fault },
            SearchError::Leaves { slot } => LoopError::Leaves { slot },
            SearchError::Limit => LoopError::SearchLimit,
            SearchError::OutOfMemory => LoopError::OutOfMemory,
        }
    }
}

impl From<CheckError> for LoopError {
    fn from(error: CheckError) -> LoopError {
        match error {
            CheckError::Label { slot, fault } => LoopError::Unchecked { slot, fault },
            CheckError::OutOfMemory => LoopError::OutOfMemory,
        }
    }
}
