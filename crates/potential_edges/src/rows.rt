//! Edges by rows: what an instruction adds to r1, between which numbers it lies before and behind, two potentials, and
//! whether the second falls.

use crate::edges::falls;
use abstract_state::known::Known;
use abstract_state::quantity::Quantity;
use abstract_state::region::Tails;
use abstract_state::state::AbsState;
use bpf_words::instruction::{Arithmetic, Insn, Operand, Width};
use bpf_words::register::Register;
use intervals::Range;
use known_bits::Bits;
use label_potentials::potential::{Base, Holder, Potential, Term};
use std::test::Fail;
use tracked_state::state::TrackedState;
use value_marks::copies::Copies;

/// A row; a potential is a constant less r1 by a weight.
#[derive(Clone, Copy)]
struct Row {
    added: i32,
    before: (u64, u64),
    behind: (u64, u64),
    first: (i64, i32),
    second: (i64, i32),
    falls: bool,
}

const fn edge(
    added: i32,
    before: (u64, u64),
    behind: (u64, u64),
    first: (i64, i32),
    second: (i64, i32),
    falls: bool,
) -> Row {
    Row {
        added,
        before,
        behind,
        first,
        second,
        falls,
    }
}

/// What is known of r1, and of nothing else but what is known at each start.
fn holding(low: u64, high: u64) -> Option<AbsState> {
    with(AbsState::entry(), 1, low, high)
}

/// What is known, and between which numbers a register's lies.
fn with(mut state: AbsState, number: u8, low: u64, high: u64) -> Option<AbsState> {
    let register = Register::new(number)?;
    let range = Range::new(low, high)?;
    let quantity = Quantity::normal(Bits::unknown(), range, Tails::none())?;
    state.put(register, Known::Number(quantity));
    Some(state)
}

fn potential(constant: i64, weight: i32) -> Potential {
    potential_of(constant, weight, 1)
}

/// A constant less a register by a weight.
fn potential_of(constant: i64, weight: i32, number: u8) -> Potential {
    let nothing = Term {
        weight: 0,
        holder: Holder::Register(0),
        base: Base::Zero,
    };
    let mut less = [nothing; 8];
    less[0] = Term {
        weight,
        holder: Holder::Register(number),
        base: Base::Zero,
    };
    Potential {
        constant,
        per_byte: 0,
        per_link_byte: 0,
        less,
    }
}

/// Whether the row's edge falls, where its states are possible.
fn row_falls(row: &Row) -> Option<bool> {
    let insn = Insn::Compute {
        width: Width::Full,
        operation: Arithmetic::Add,
        destination: Register::new(1)?,
        operand: Operand::Immediate(row.added),
    };
    let before = TrackedState {
        state: holding(row.before.0, row.before.1)?,
        copies: Copies::untracked(),
    };
    let behind = holding(row.behind.0, row.behind.1)?;
    let first = potential(row.first.0, row.first.1);
    let second = potential(row.second.0, row.second.1);
    Some(falls(&before, &insn, &behind, &first, &second))
}

#[test]
fn edges_fall_as_far_as_is_known(rt: HostRuntime) -> Result<(), Fail> {
    let rows = [
        // Counting down to 0, and up to 10.
        edge(-1, (1, 10), (0, 9), (1, -1), (1, -1), true),
        edge(1, (0, 9), (1, 10), (11, 1), (11, 1), true),
        // A sum of nothing stands still.
        edge(0, (0, 9), (0, 9), (11, 1), (11, 1), false),
        // A sum that may wrap is only what is known behind it.
        edge(-1, (0, 10), (0, u64::MAX), (1, -1), (1, -1), false),
        edge(-1, (0, 10), (0, 3), (6, 0), (1, -1), true),
        edge(-1, (0, 10), (0, 3), (5, 0), (1, -1), true),
        edge(-1, (0, 10), (0, 3), (4, 0), (1, -1), false),
        // A weight that grows, and one that is left.
        edge(1, (0, 9), (1, 10), (20, 2), (11, 1), true),
        edge(1, (0, 9), (1, 10), (19, 2), (11, 1), false),
    ];
    for row in &rows {
        assert_eq!(rt; row_falls(row), Some(row.falls));
    }
    Ok(())
}

/// `r2 = r1`, say.
fn by_register(operation: Arithmetic, destination: u8, source: u8) -> Option<Insn> {
    Some(Insn::Compute {
        width: Width::Full,
        operation,
        destination: Register::new(destination)?,
        operand: Operand::Source(Register::new(source)?),
    })
}

/// Whether a potential that weighs r1 falls to one that weighs r2, which is counted up.
fn copies_fall(mut copies: Copies) -> Option<bool> {
    let state = with(holding(0, 9)?, 2, 0, 9)?;
    copies.follow(3, &by_register(Arithmetic::Mov, 2, 1)?, &state);
    let before = TrackedState { state, copies };
    let insn = Insn::Compute {
        width: Width::Full,
        operation: Arithmetic::Add,
        destination: Register::new(2)?,
        operand: Operand::Immediate(1),
    };
    let behind = with(state, 2, 1, 10)?;
    let first = potential(11, 1);
    Some(falls(&before, &insn, &behind, &first, &potential_of(11, 1, 2)))
}

#[test]
fn copies_are_weighed_as_one_value(rt: HostRuntime) -> Result<(), Fail> {
    let tracked = Copies::tracked(rt.alloc())?;
    assert_eq!(rt; copies_fall(tracked), Some(true));
    assert_eq!(rt; copies_fall(Copies::untracked()), Some(false));
    Ok(())
}
