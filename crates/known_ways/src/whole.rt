//! How much a state has: it is all of what the rules take it as.
ghost use Rattle.std.specs.Prelude.{◌≡◌, length};
ghost use Rattle.abstract_state.specs.Situation.{Situation, IsSituation, situation_of};
ghost use Rattle.tracked_state.specs.Tracked.{TrackedSituation, IsTracked, tracked_of};
ghost use Rattle.verifier.specs.Decides.{trimmed, trimmed_situation};

use abstract_state::state::AbsState;
use tracked_state::state::TrackedState;
use value_marks::marks::Marks;

/// A state has no more than the machine's eleven registers and the 64 slots of its stack.
fn has_all(state: &AbsState)
    ensures registers { length state.now.registers ≡ 11 }
    ensures stack { length state.now.stack ≡ 64 }
{
    let _register = state.registers[0];
    let _slot = state.stack[0];
}

/// Nor do the marks.
fn have_all(marks: &Marks)
    ensures registers { length marks.now.registers ≡ 11 }
    ensures slots { length marks.now.slots ≡ 64 }
{
    let _of_register = marks.registers[0];
    let _of_slot = marks.slots[0];
}

/// What has to be known of the length of a state, with nothing to run.
pub(crate) fn is_state_whole(state: &AbsState)
    ensures { (s : Situation) → IsSituation state.now s → trimmed_situation s ≡ situation_of state.now }
{
    has_all(state);
}

/// And of the length of its marks.
pub(crate) fn is_whole(state: &TrackedState)
    ensures { (t : TrackedSituation) → IsTracked state.now t → trimmed t ≡ tracked_of state.now }
{
    has_all(&state.state);
    if let Some(marks) = &state.copies.marks {
        have_all(marks);
    }
}
