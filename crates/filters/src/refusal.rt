//! Why a program isn't accepted as a filter.
ghost use Rattle.semantics.specs.Step.{Program};
ghost use Rattle.block_layout.specs.Meaning.{IsForward};
ghost use Rattle.block_layout.specs.Structure.{FirstBack, FirstFault};
ghost use Rattle.filters.specs.Accepted.{IsRefused};
ghost use Rattle.filters.specs.declared.rules.RuleSet.TheVariants.{Looping};

use block_layout::refusal::WayFault;
use block_layout::structure::Misplaced;
use loop_verifier::error::LoopError;
use verifier::refusal::{StructureFault, VerifyError};

/// Why a program isn't accepted. Slots are counted from 0.
#[derive(Clone, Copy)]
pub enum FilterError {
    /// A slot is at fault, or memory ran out.
    Program(VerifyError),
    /// No bound of the steps of a program that loops is found, or none within the limit. It is the slot of the first
    /// jump back.
    UnboundedLoop { slot: usize },
    /// The search for what is known before each slot of a program that loops visited too many slots.
    SearchLimit,
}

/// The refusal of a program with a jump back of which an instruction leads nowhere.
pub(crate) fn of_way(wrong: Misplaced) -> FilterError
    ensures { (program : Program) → ¬ IsForward program → FirstFault program wrong.slot wrong.fault
        → IsRefused Looping program result }
{
    let fault = match wrong.fault {
        WayFault::JumpOut => StructureFault::JumpOut,
        WayFault::JumpIntoWide => StructureFault::JumpIntoWide,
        WayFault::FallOff => StructureFault::FallOff,
    };
    FilterError::Program(VerifyError::Structure {
        slot: wrong.slot,
        fault,
    })
}

/// The refusal of a program whose first jump back is at a slot.
pub(crate) fn of_loop(error: LoopError, back: usize) -> FilterError
    ensures { (program : Program) → FirstBack program back → ¬ IsForward program → IsRefused Looping program result }
{
    match error {
        LoopError::Refused { slot, fault } => {
            FilterError::Program(VerifyError::State { slot, fault })
        }
        LoopError::Leaves { slot } => FilterError::Program(VerifyError::Structure {
            slot,
            fault: StructureFault::WriteR10,
        }),
        LoopError::NoMeasure | LoopError::Unchecked { .. } | LoopError::TooManySteps => {
            FilterError::UnboundedLoop { slot: back }
        }
        LoopError::SearchLimit => FilterError::SearchLimit,
        LoopError::OutOfMemory => FilterError::Program(VerifyError::OutOfMemory),
    }
}
