//! What is known of a number is known of the addresses that have it as their offset, and the other way round: the name
//! of an address is that of the number that was added to its region's first address.
ghost use Rattle.std.specs.Prelude.{◌≡◌, ℕ, Option, Some, None, option_map, slice_index_or, ◌≤◌, ◌^◌};
ghost use Rattle.semantics.specs.State.{State};
ghost use Rattle.abstract_state.specs.Lent.{Lengths};
ghost use Rattle.abstract_state.specs.Known.{ContainsKnown};
ghost use Rattle.abstract_state.specs.State.{Contains, WithinState};
ghost use Rattle.abstract_state.specs.Steps.{after};
ghost use Rattle.abstract_state.specs.Estimate.{estimate_of};
ghost use Rattle.abstract_state.specs.Addresses.{content_of};
ghost use Rattle.abstract_state.specs.Situation.{Situation, IsSituation, Flows};
ghost use Rattle.value_marks.specs.Mark.{Agrees};
ghost use Rattle.value_marks.specs.Marking.{marking_of};
ghost use Rattle.value_marks.specs.Bearing.{Bears, BearsBy};
ghost use Rattle.value_marks.specs.Copies.{kept};
ghost use Rattle.value_marks.specs.Telling.{Tells, teller_of};
ghost use Rattle.tracked_state.specs.Tracked.{TrackedSituation, IsTrackedIn};
ghost use Rattle.loop_states.specs.Contained.{BearIn, WithinInLoop};
ghost use Rattle.loop_states.specs.Across as rules;

use abstract_state::address::LentAddress;
use abstract_state::known::{Known, NEAR};
use abstract_state::quantity::Quantity;
use abstract_state::region::Region;
use abstract_state::state::{AbsReg, AbsState};
use abstract_state::step::Flow;
use bpf_words::instruction::Operand;
use bpf_words::register::Register;
use tracked_state::state::TrackedState;
use value_marks::copies::Copies;
use value_marks::mark::Mark;
use value_marks::marks::Marks;
use value_marks::telling::{Teller, sides_tell};

/// A register tells as if it held something else, by another name. What it holds stays.
fn tell_as(state: &mut AbsState, marks: &Marks, held: Known, teller: Teller) -> Flow
    ensures sound { (lengths : Lengths) (origins : ℕ → ℕ) (s : State) (n : ℕ) → BearsBy origins (marking_of marks.now) s
        → Contains state.old lengths s → slice_index_or s.registers teller.register None ≡ Some n
        → ContainsKnown held lengths n → Tells teller lengths origins → WithinState (after result state.new) lengths s }
    ensures rule { (was : Situation) → IsSituation state.old was
        → Flows (rules.told_as (teller_of teller) (content_of held) (marking_of marks.now) was) result state.new }
{
    let mut marks = *marks;
    marks.set_register(teller.register, Some(teller.mark));
    state.put(teller.register, teller.known);
    let flow = sides_tell(state, &marks, teller.register, &Operand::Immediate(0));
    state.put(teller.register, held);
    flow
}

/// A number tells as the address in a region whose offset it is.
fn tell_as_address(
    state: &mut AbsState,
    marks: &Marks,
    register: Register,
    mark: Mark,
    number: Quantity,
    region: Region,
) -> Flow
    requires near { number.range.high ≤ 2 ^ 20 }
    ensures sound { (lengths : Lengths) (origins : ℕ → ℕ) (s : State) (n : ℕ) → BearsBy origins (marking_of marks.now) s
        → Contains state.old lengths s → slice_index_or s.registers register None ≡ Some n
        → ContainsKnown (Known.Number number) lengths n → Agrees origins mark n
        → WithinState (after result state.new) lengths s }
    ensures rule { (was : Situation) → IsSituation state.old was
        → Flows (rules.tells_as_address register mark (estimate_of number) region (marking_of marks.now) was) result
        state.new }
{
    let teller = Teller {
        register,
        mark: mark.raised(region.base()),
        known: Known::Lent(LentAddress {
            region,
            offset: number,
        }),
    };
    tell_as(state, marks, Known::Number(number), teller)
}

/// An address tells as its offset.
fn tell_as_number(
    state: &mut AbsState,
    marks: &Marks,
    register: Register,
    mark: Mark,
    address: LentAddress,
) -> Flow
    ensures sound { (lengths : Lengths) (origins : ℕ → ℕ) (s : State) (n : ℕ) → BearsBy origins (marking_of marks.now) s
        → Contains state.old lengths s → slice_index_or s.registers register None ≡ Some n
        → ContainsKnown (Known.Lent address) lengths n → Agrees origins mark n
        → WithinState (after result state.new) lengths s }
    ensures rule { (was : Situation) → IsSituation state.old was
        → Flows (rules.tells_as_number register mark address.region (estimate_of address.offset) (marking_of marks.now)
        was) result state.new }
{
    let teller = Teller {
        register,
        mark: mark.lowered(address.region.base()),
        known: Known::Number(address.offset),
    };
    tell_as(state, marks, Known::Lent(address), teller)
}

/// A number tells as an address in either region.
fn tell_addresses(
    state: &mut AbsState,
    marks: &Marks,
    register: Register,
    mark: Mark,
    number: Quantity,
) -> Flow
    requires near { number.range.high ≤ 2 ^ 20 }
    ensures sound { (lengths : Lengths) (origins : ℕ → ℕ) (s : State) (n : ℕ) → BearsBy origins (marking_of marks.now) s
        → Contains state.old lengths s → slice_index_or s.registers register None ≡ Some n
        → ContainsKnown (Known.Number number) lengths n → Agrees origins mark n
        → WithinState (after result state.new) lengths s }
    ensures rule { (was : Situation) → IsSituation state.old was
        → Flows (rules.tells_addresses register mark (estimate_of number) (marking_of marks.now) was) result state.new }
{
    match tell_as_address(state, marks, register, mark, number, Region::Text) {
        Flow::Live => tell_as_address(state, marks, register, mark, number, Region::Link),
        Flow::Dead => Flow::Dead,
    }
}

/// A number tells addresses, which are no further from their region's begin than [`NEAR`].
#[tactic(auto, unfolding(crate::specs::Across::number_tells))]
fn number_tells(
    state: &mut AbsState,
    marks: &Marks,
    register: Register,
    mark: Mark,
    number: Quantity,
) -> Flow
    ensures sound { (lengths : Lengths) (origins : ℕ → ℕ) (s : State) (n : ℕ) → BearsBy origins (marking_of marks.now) s
        → Contains state.old lengths s → slice_index_or s.registers register None ≡ Some n
        → ContainsKnown (Known.Number number) lengths n → Agrees origins mark n
        → WithinState (after result state.new) lengths s }
    ensures rule { (was : Situation) → IsSituation state.old was
        → Flows (rules.number_tells register mark (estimate_of number) (marking_of marks.now) was) result state.new }
{
    if number.range.high > NEAR {
        return Flow::Live;
    }
    tell_addresses(state, marks, register, mark, number)
}

/// A number tells addresses, and an address numbers.
#[tactic(auto, unfolding(crate::specs::Across::content_tells))]
fn content_tells(
    state: &mut AbsState,
    marks: &Marks,
    register: Register,
    mark: Mark,
    known: Known,
) -> Flow
    ensures sound { (lengths : Lengths) (origins : ℕ → ℕ) (s : State) (n : ℕ) → BearsBy origins (marking_of marks.now) s
        → Contains state.old lengths s → slice_index_or s.registers register None ≡ Some n
        → ContainsKnown known lengths n → Agrees origins mark n
        → WithinState (after result state.new) lengths s }
    ensures rule { (was : Situation) → IsSituation state.old was
        → Flows (rules.content_tells register mark (content_of known) (marking_of marks.now) was) result state.new }
{
    match known {
        Known::Number(number) => number_tells(state, marks, register, mark, number),
        Known::Lent(address) => tell_as_number(state, marks, register, mark, address),
        Known::Context(_) => Flow::Live,
        Known::Stack(_) => Flow::Live,
    }
}

/// A side of a comparison tells those of the other kind what is known of it, if it bears a mark.
#[tactic(auto, unfolding(crate::specs::Across::marked_tells))]
fn side_tells(state: &mut AbsState, marks: &Marks, register: Register) -> Flow
    ensures sound { (lengths : Lengths) (s : State) → Bears (marking_of marks.now) s → Contains state.old lengths s
        → WithinState (after result state.new) lengths s }
    ensures rule { (was : Situation) → IsSituation state.old was
        → Flows (rules.side_tells register (marking_of marks.now) was) result state.new }
{
    let Some(mark) = marks.registers[register.index()] else {
        return Flow::Live;
    };
    let AbsReg::Set(known) = state.registers[register.index()] else {
        return Flow::Live;
    };
    content_tells(state, marks, register, mark, known)
}

/// The right side tells, if it is a register.
#[tactic(auto, unfolding(crate::specs::Across::other_side_tells))]
fn other_side_tells(state: &mut AbsState, marks: &Marks, right: &Operand) -> Flow
    ensures sound { (lengths : Lengths) (s : State) → Bears (marking_of marks.now) s → Contains state.old lengths s
        → WithinState (after result state.new) lengths s }
    ensures rule { (was : Situation) → IsSituation state.old was
        → Flows (rules.other_side_tells right.now (marking_of marks.now) was) result state.new }
{
    match *right {
        Operand::Source(register) => side_tells(state, marks, register),
        Operand::Immediate(_) => Flow::Live,
    }
}

/// Both sides tell, the left one first.
fn both_sides_tell(state: &mut AbsState, marks: &Marks, left: Register, right: &Operand) -> Flow
    ensures sound { (lengths : Lengths) (s : State) → Bears (marking_of marks.now) s → Contains state.old lengths s
        → WithinState (after result state.new) lengths s }
    ensures rule { (was : Situation) → IsSituation state.old was
        → Flows (rules.both_sides_tell left right.now (marking_of marks.now) was) result state.new }
{
    match side_tells(state, marks, left) {
        Flow::Live => other_side_tells(state, marks, right),
        Flow::Dead => Flow::Dead,
    }
}

/// Both sides tell, where copies are followed.
fn tell_if_marked(copies: &Copies, state: &mut AbsState, left: Register, right: &Operand) -> Flow
    ensures sound { (lengths : Lengths) (s : State) → BearIn lengths (kept copies.now) s
        → Contains state.old lengths s → WithinState (after result state.new) lengths s }
    ensures rule { (was : Situation) → IsSituation state.old was → Flows
        (rules.tell_if_marked left right.now (option_map marking_of (kept copies.now)) was) result state.new }
{
    let Some(marks) = &copies.marks else {
        return Flow::Live;
    };
    both_sides_tell(state, marks, left, right)
}

/// The edge of a comparison, with what its sides tell those of the other kind.
pub(crate) fn tell_across(
    copies: &Copies,
    edge: Option<TrackedState>,
    left: Register,
    right: &Operand,
) -> Option<TrackedState>
    ensures sound { (lengths : Lengths) (s : State) → BearIn lengths (kept copies.now) s → WithinInLoop edge lengths s
        → WithinInLoop result lengths s }
    ensures rule { (was : Option TrackedSituation) → IsTrackedIn edge was → IsTrackedIn result
        (rules.edge_across left right.now (option_map marking_of (kept copies.now)) was) }
{
    let Some(mut state) = edge else {
        return None;
    };
    match tell_if_marked(copies, &mut state.state, left, right) {
        Flow::Live => Some(state),
        Flow::Dead => None,
    }
}
