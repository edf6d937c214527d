//! Rows of states, and what is known behind an instruction.

use crate::state::{entry, step};
use crate::within::is_within;
use abstract_state::known::Known;
use abstract_state::quantity::Quantity;
use abstract_state::region::Region;
use abstract_state::state::AbsReg;
use bpf_words::instruction::{Arithmetic, Insn, Operand, Width};
use bpf_words::register::Register;
use length_marks::names::name_of;
use std::alloc::{AllocError, Global};
use std::test::Fail;
use tracked_state::state::TrackedState;
use value_marks::mark::Mark;
use value_marks::marks::Marks;

fn mark(origin: usize, addend: u64, width: Width) -> Mark {
    Mark {
        origin,
        addend,
        width,
    }
}

/// The state at the start, but that r2 and r3 hold numbers up to 9 with these marks.
fn with_marks(
    alloc: Global,
    second: Option<Mark>,
    third: Option<Mark>,
) -> Result<TrackedState, AllocError> {
    let mut state = entry(alloc)?;
    let some = AbsReg::Set(Known::Number(Quantity::up_to(9)));
    state.state.registers[2] = some;
    state.state.registers[3] = some;
    let mut marks = Marks::none();
    marks.registers[2] = second;
    marks.registers[3] = third;
    state.copies.marks = Some(Box::new(alloc, marks)?);
    Ok(state)
}

#[test]
fn names_of_slots_mean_nothing_and_those_of_lengths_do(rt: HostRuntime) -> Result<(), Fail> {
    let alloc = rt.alloc();
    let text = name_of(Region::Text);
    let link = name_of(Region::Link);
    let full = |origin, addend| Some(mark(origin, addend, Width::Full));
    let narrow = |origin, addend| Some(mark(origin, addend, Width::Narrow));
    let rows = [
        ((full(7, 1), full(7, 4)), (full(9, 0), full(9, 3)), true),
        ((full(7, 1), full(7, 4)), (full(9, 0), full(9, 4)), false),
        (
            (full(text, 1), full(text, 4)),
            (full(9, 0), full(9, 3)),
            true,
        ),
        ((full(text, 1), full(text, 4)), (full(text, 1), None), true),
        ((full(text, 1), full(text, 4)), (full(text, 0), None), false),
        ((full(7, 1), None), (full(text, 1), None), false),
        ((full(text, 1), None), (full(link, 1), None), false),
        ((full(text, 1), None), (narrow(text, 1), None), false),
        ((None, None), (None, None), true),
    ];
    for (first, second, want) in rows {
        let one = with_marks(alloc, first.0, first.1)?;
        let other = with_marks(alloc, second.0, second.1)?;
        assert_eq!(rt; is_within(&one, &other), want);
    }
    Ok(())
}

/// The addend of r2's mark.
fn addend_of_second(state: &TrackedState) -> Option<u64> {
    let marks = state.copies.marks.as_ref()?;
    let mark = marks.registers[2]?;
    Some(mark.addend)
}

/// What r2 bears behind `r2 += 1` at slot 7.
#[test]
fn a_name_of_the_slot_is_dropped(rt: HostRuntime) -> Result<(), Fail> {
    let alloc = rt.alloc();
    let text = name_of(Region::Text);
    let two = Register::new(2).unwrap();
    let rows = [(7, None), (8, Some(1)), (text, Some(1))];
    let insn = Insn::Compute {
        width: Width::Full,
        operation: Arithmetic::Add,
        destination: two,
        operand: Operand::Immediate(1),
    };
    for (origin, want) in rows {
        let mut state = with_marks(alloc, Some(mark(origin, 0, Width::Full)), None)?;
        let _flow = step(&mut state, 7, &insn);
        assert_eq!(rt; addend_of_second(&state), want, "of {origin}");
    }
    Ok(())
}
