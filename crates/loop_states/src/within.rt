//! Whether one state is within another.
ghost use Rattle.std.specs.Prelude.{◌≡◌, ◌↔◌, ◌<◌, ℕ, IsTrue, length};
ghost use Rattle.semantics.specs.State.{State};
ghost use Rattle.abstract_state.specs.Lent.{Lengths};
ghost use Rattle.value_marks.specs.Mark.{mark_at};
ghost use Rattle.value_marks.specs.Marking.{IsMarking};
ghost use Rattle.tracked_state.specs.Tracked.{TrackedSituation, tracked_of};
ghost use Rattle.state_inclusion.specs.Partners.{marks_in};
ghost use Rattle.loop_states.specs.Contained.{ContainsInLoop};
ghost use Rattle.loop_states.specs.Within.{IsLengthKept, AreLengthsKept, IsWithinInLoop};

use abstract_state::region::Region;
use bpf_words::instruction::Width;
use length_marks::names::name_of;
use state_inclusion::inclusion;
use tracked_state::state::TrackedState;
use value_marks::mark::Mark;
use value_marks::marks::Marks;

fn is_same_width(one: Width, other: Width) -> bool
    ensures { IsTrue result ↔ (one ≡ other) }
{
    match (one, other) {
        (Width::Narrow, Width::Narrow) => true,
        (Width::Full, Width::Full) => true,
        _ => false,
    }
}

fn is_same_mark(one: Mark, other: Mark) -> bool
    ensures { IsTrue result ↔ (one ≡ other) }
{
    one.origin == other.origin
        && one.addend == other.addend
        && is_same_width(one.width, other.width)
}

/// Whether a mark of a length is the first state's too.
fn is_length_kept(first: Option<Mark>, second: Option<Mark>) -> bool
    ensures { IsTrue result ↔ IsLengthKept first second }
{
    let Some(mark) = second else {
        return true;
    };
    if mark.origin < name_of(Region::Text) {
        return true;
    }
    match first {
        Some(other) => is_same_mark(other, mark),
        None => false,
    }
}

/// Whether each of them is.
fn are_kept(first: &[Option<Mark>], second: &[Option<Mark>]) -> bool
    requires { length first.now ≡ length second.now }
    ensures { IsTrue result
        ↔ ((i : ℕ) → i < length second.now → IsLengthKept (mark_at first.now i) (mark_at second.now i)) }
{
    for i in 0..second.len() {
        if !is_length_kept(first[i], second[i]) {
            return false;
        }
    }
    true
}

/// The marks of a state; where copies aren't followed there are none.
fn marks_of(state: &TrackedState) -> Marks
    ensures { IsMarking result (marks_in (tracked_of state.now)) }
{
    match &state.copies.marks {
        Some(marks) => **marks,
        None => Marks::none(),
    }
}

fn are_lengths_kept(first: &TrackedState, second: &TrackedState) -> bool
    ensures { IsTrue result ↔ AreLengthsKept (marks_in (tracked_of first.now)) (marks_in (tracked_of second.now)) }
{
    let kept = marks_of(first);
    let asked = marks_of(second);
    are_kept(&kept.registers, &asked.registers) && are_kept(&kept.slots, &asked.slots)
}

/// Whether every machine state that the first contains is contained in the second too, as far as the rules tell.
pub fn is_within(first: &TrackedState, second: &TrackedState) -> bool
    ensures rule { IsTrue result ↔ IsWithinInLoop (tracked_of first.now) (tracked_of second.now) }
    ensures sound { IsTrue result → (lengths : Lengths) (s : State) → ContainsInLoop first.now lengths s
        → ContainsInLoop second.now lengths s }
{
    inclusion::is_within(first, second) && are_lengths_kept(first, second)
}

/// A state is within itself: nothing to run.
pub fn states_are_within_themselves()
    ensures { (a : TrackedSituation) → IsWithinInLoop a a }
{}
