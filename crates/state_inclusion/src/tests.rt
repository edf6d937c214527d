//! Rows of two states, and whether the first is within the second.

use crate::inclusion::is_within;
use abstract_state::known::Known;
use abstract_state::quantity::Quantity;
use abstract_state::region::Tails;
use abstract_state::slot::Slot;
use abstract_state::state::{AbsReg, AbsState};
use bpf_words::instruction::Width;
use std::alloc::{AllocError, Global};
use std::test::Fail;
use tracked_state::state::TrackedState;
use value_marks::copies::Copies;
use value_marks::mark::Mark;
use value_marks::marks::Marks;

/// The state at the start, but that r1 holds a number up to `high`, with the tail.
fn with_number(high: u64, tail: Option<u32>) -> TrackedState {
    let mut state = AbsState::entry();
    let tails = Tails {
        text: tail,
        link: None,
    };
    state.registers[1] = AbsReg::Set(Known::Number(Quantity {
        tails,
        ..Quantity::up_to(high)
    }));
    TrackedState {
        state,
        copies: Copies::untracked(),
    }
}

#[test]
fn numbers_are_within_wider_ones(rt: HostRuntime) {
    let rows = [
        (5, Some(2), 9, Some(2), true),
        (5, Some(2), 9, Some(1), true),
        (5, Some(2), 9, None, true),
        (5, Some(2), 9, Some(3), false),
        (5, None, 9, Some(0), false),
        (9, None, 5, None, false),
    ];
    for (high, tail, wider, other, want) in rows {
        let within = is_within(&with_number(high, tail), &with_number(wider, other));
        assert_eq!(rt; within, want, "at {high}");
    }
}

/// The state at the start, with marks of r2 and of the lowest slot of the stack.
fn with_marks(
    alloc: Global,
    first: (usize, u64, Width),
    second: (usize, u64, Width),
) -> Result<TrackedState, AllocError> {
    let mut marks = Marks::none();
    marks.registers[2] = Some(Mark {
        origin: first.0,
        addend: first.1,
        width: first.2,
    });
    marks.slots[0] = Some(Mark {
        origin: second.0,
        addend: second.1,
        width: second.2,
    });
    Ok(TrackedState {
        state: AbsState::entry(),
        copies: Copies {
            marks: Some(Box::new(alloc, marks)?),
        },
    })
}

/// The state at the start, but that r2 and the lowest slot of the stack hold one number each.
fn with_constants(first: u64, second: u64) -> TrackedState {
    let mut state = AbsState::entry();
    state.registers[2] = AbsReg::Set(Known::Number(Quantity::constant(first)));
    state.stack[0] = Slot::Spilled(Known::Number(Quantity::constant(second)));
    TrackedState {
        state,
        copies: Copies::untracked(),
    }
}

#[test]
fn marks_follow_whatever_their_names(rt: HostRuntime) -> Result<(), Fail> {
    let alloc = rt.alloc();
    let full = Width::Full;
    let narrow = Width::Narrow;
    let two = with_marks(alloc, (7, 3, full), (7, 5, full))?;
    let renamed = with_marks(alloc, (1, 0, full), (1, 2, full))?;
    let further = with_marks(alloc, (7, 3, full), (7, 6, full))?;
    let cut = with_marks(alloc, (7, 3, narrow), (7, 5, full))?;
    let apart = with_marks(alloc, (7, 3, full), (8, 5, full))?;
    assert!(rt; is_within(&two, &renamed));
    assert!(rt; is_within(&renamed, &two));
    assert!(rt; !is_within(&two, &further));
    assert!(rt; is_within(&two, &cut));
    assert!(rt; !is_within(&cut, &two));
    assert!(rt; is_within(&two, &apart));
    assert!(rt; !is_within(&apart, &two));
    assert!(rt; is_within(&with_constants(3, 5), &two));
    assert!(rt; !is_within(&with_constants(3, 6), &two));
    Ok(())
}
