//! Whether one state is within another.
ghost use Rattle.std.specs.Prelude.{◌↔◌, IsTrue};
ghost use Rattle.semantics.specs.State.{State};
ghost use Rattle.abstract_state.specs.Lent.{Lengths};
ghost use Rattle.tracked_state.specs.Tracked.{ContainsTracked, TrackedSituation, tracked_of};
ghost use Rattle.state_inclusion.specs.Inclusion.{IsWithin};

use crate::contents::is_situation_within;
use crate::partners::are_marks_within;
use tracked_state::state::TrackedState;

/// Whether each part of the second state follows from the first.
fn follows(first: &TrackedState, second: &TrackedState) -> bool
    ensures { IsTrue result ↔ IsWithin (tracked_of first.now) (tracked_of second.now) }
{
    is_situation_within(&first.state, &second.state) && are_marks_within(first, second)
}

/// Whether every machine state that the first contains is contained in the second too, as far as the rules tell.
pub fn is_within(first: &TrackedState, second: &TrackedState) -> bool
    ensures rule { IsTrue result ↔ IsWithin (tracked_of first.now) (tracked_of second.now) }
    ensures sound { IsTrue result → (lengths : Lengths) (s : State) → ContainsTracked first.now lengths s
        → ContainsTracked second.now lengths s }
{
    follows(first, second)
}

/// A state is within itself: nothing to run.
pub fn states_are_within_themselves()
    ensures { (a : TrackedSituation) → IsWithin a a }
{}
