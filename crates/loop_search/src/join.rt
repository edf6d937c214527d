//! What either of two states contains, with the marks that both allow.

use crate::classes::joined_marks;
use crate::tails::add_tails;
use abstract_state::slot::Slot;
use abstract_state::state::{AbsReg, AbsState};
use span_context::profile::Profile;
use std::alloc::{AllocError, Global};
use tracked_state::state::TrackedState;
use value_marks::copies::Copies;
use value_marks::mark::Mark;
use value_marks::marks::{Marks, varies};

fn content(slot: Slot) -> AbsReg {
    match slot {
        Slot::Spilled(known) => AbsReg::Set(known),
        Slot::Marks(_) => AbsReg::Unset,
    }
}

/// A mark where what bears it is a number or an address that differs from run to run.
fn where_it_varies(content: AbsReg, mark: Option<Mark>) -> Option<Mark> {
    if varies(content) { mark } else { None }
}

fn drop_needless(marks: &mut Marks, state: &AbsState) {
    for register in 0..11 {
        marks.registers[register] = where_it_varies(
            state.registers[register],
            marks.registers[register],
        );
    }
    for slot in 0..64 {
        marks.slots[slot] = where_it_varies(content(state.stack[slot]), marks.slots[slot]);
    }
}

/// Takes in what another state contains.
pub(crate) fn join(
    alloc: Global,
    state: &mut TrackedState,
    other: &TrackedState,
) -> Result<(), AllocError> {
    let mut marks = joined_marks(state, other);
    let mut others = other.state;
    add_tails(&mut others);
    add_tails(&mut state.state);
    state.state.join(Profile::Three, &others);
    drop_needless(&mut marks, &state.state);
    state.copies = Copies {
        marks: Some(Box::new(alloc, marks)?),
    };
    Ok(())
}

/// Gives names of a join to the marks.
pub(crate) fn rename(alloc: Global, state: &mut TrackedState) -> Result<(), AllocError> {
    let mut marks = joined_marks(state, state);
    drop_needless(&mut marks, &state.state);
    state.copies = Copies {
        marks: Some(Box::new(alloc, marks)?),
    };
    Ok(())
}
