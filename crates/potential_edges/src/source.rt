//! What a holder holds behind an instruction, by what a holder held before it.
ghost use Rattle.std.specs.Prelude.{◌≡◌, ◌<◌, ◌≤◌, ◌^◌, ℕ, Some, option_map, unsigned_abs};
ghost use Rattle.bpf_words.specs.Flow.{written_by};
ghost use Rattle.intervals.specs.Interval.{interval_of};
ghost use Rattle.label_potentials.specs.declared.potential.Holder.TheVariants.{Register as RegisterHolder};
ghost use Rattle.label_potentials.specs.Counts.{held_in};
ghost use Rattle.potential_edges.specs.Sources as rules;

use abstract_state::known::Known;
use abstract_state::state::AbsState;
use abstract_state::transfer::greatest;
use bpf_words::instruction::{Arithmetic, Insn, Operand, Width};
use bpf_words::register::Register;
use intervals::Range;
use label_potentials::counted::held;
use label_potentials::potential::Holder;

/// A holder before an instruction, and between which numbers lies how much more there is behind it.
#[derive(Clone, Copy)]
pub struct Source {
    pub holder: Holder,
    pub low: i64,
    pub high: i64,
}

/// A holder, and how much more exactly.
fn exactly(holder: Holder, more: i64) -> Source
    ensures { result ≡ rules.exactly holder more }
{
    Source {
        holder,
        low: more,
        high: more,
    }
}

/// Whether an instruction writes a register.
fn writes(insn: &Insn, number: u8) -> bool
    ensures { result ≡ rules.is_written number (written_by insn.now) }
{
    match insn.written() {
        Some(register) => register.number() == number,
        None => false,
    }
}

/// A register that is written is one of the eleven: nothing to run.
pub(crate) fn writes_one(insn: &Insn)
    ensures { (register : ℕ) → written_by insn.now ≡ Some register → register < 11 }
{
    let Some(register) = insn.written() else {
        return;
    };
    let _number = register.number();
}

/// Whether an instruction writes to the stack.
fn is_store(insn: &Insn) -> bool
    ensures { result ≡ rules.is_store insn.now }
{
    match insn {
        Insn::Store { .. } => true,
        _ => false,
    }
}

/// The numbers between which a number or an address near a lent region lies.
fn numbers_of(known: Known) -> Option<Range>
    ensures { option_map interval_of result ≡ rules.numbers_of known }
{
    match known {
        Known::Number(quantity) => Some(quantity.range),
        Known::Lent(address) => {
            let base = address.region.base();
            let offset = address.offset.range;
            Some(Range {
                low: base + offset.low,
                high: base + offset.high,
            })
        }
        Known::Context(_) | Known::Stack(_) => None,
    }
}

/// The numbers between which a register's number lies.
pub(crate) fn numbers_in(state: &AbsState, number: u8) -> Option<Range>
    ensures { option_map interval_of result ≡ rules.numbers_in state.now number }
{
    let known = held(state, Holder::Register(number))?;
    numbers_of(known)
}

/// How much more an operation with an immediate gives, where the result doesn't wrap.
fn shift(operation: Arithmetic, value: i32) -> Option<i64>
    ensures { result ≡ rules.shift_of operation value }
{
    match operation {
        Arithmetic::Add => Some(i64::from(value)),
        Arithmetic::Sub => Some(-i64::from(value)),
        _ => None,
    }
}

/// Whether no number of the interval has more bits than the width.
pub(crate) fn fits(width: Width, range: Range) -> bool
    ensures { result ≡ rules.fits width (interval_of range) }
{
    range.high <= greatest(width)
}

/// Whether no number of the interval wraps where so much more is added to it.
pub(crate) fn stays(width: Width, range: Range, more: i128) -> bool
    requires { unsigned_abs more ≤ 2 ^ 64 }
    ensures { result ≡ rules.stays width (interval_of range) more }
{
    let most = i128::from(greatest(width));
    let low = i128::from(range.low) + more;
    let high = i128::from(range.high) + more;
    fits(width, range) && 0 <= low && high <= most
}

/// A sum or a difference with an immediate that can't wrap.
fn shifted(
    state: &AbsState,
    width: Width,
    operation: Arithmetic,
    destination: Register,
    value: i32,
) -> Option<Source>
    ensures { result ≡ rules.shifted_in state.now width operation destination value }
{
    let more = shift(operation, value)?;
    let range = numbers_in(state, destination.number())?;
    if !stays(width, range, i128::from(more)) {
        return None;
    }
    Some(exactly(Holder::Register(destination.number()), more))
}

/// A move of a number that the width doesn't cut.
fn moved(state: &AbsState, width: Width, source: Register) -> Option<Source>
    ensures { result ≡ rules.moved_in state.now width source }
{
    let range = numbers_in(state, source.number())?;
    if !fits(width, range) {
        return None;
    }
    Some(exactly(Holder::Register(source.number()), 0))
}

/// The numbers between which a sum or a difference with a number of an interval is more.
fn shifts(operation: Arithmetic, by: Range) -> Option<(i64, i64)>
    ensures { result ≡ rules.shifts_of operation (interval_of by) }
{
    let (Ok(low), Ok(high)) = (i64::try_from(by.low), i64::try_from(by.high)) else {
        return None;
    };
    match operation {
        Arithmetic::Add => Some((low, high)),
        Arithmetic::Sub => Some((-high, -low)),
        _ => None,
    }
}

/// A sum or a difference of two registers that can't wrap, as the first one's number and more.
fn ranged(
    state: &AbsState,
    width: Width,
    operation: Arithmetic,
    first: Register,
    second: Register,
) -> Option<Source>
    ensures { result ≡ rules.ranged_in state.now width operation first second }
{
    let by = numbers_in(state, second.number())?;
    let (low, high) = shifts(operation, by)?;
    let range = numbers_in(state, first.number())?;
    if !stays(width, range, i128::from(low)) || !stays(width, range, i128::from(high)) {
        return None;
    }
    Some(Source {
        holder: Holder::Register(first.number()),
        low,
        high,
    })
}

/// Whether a register holds an address near a lent region.
fn is_lent(state: &AbsState, register: Register) -> bool
    ensures { result ≡ rules.is_lent (held_in state.now (RegisterHolder register)) }
{
    match held(state, Holder::Register(register.number())) {
        Some(Known::Lent(_)) => true,
        _ => false,
    }
}

/// A sum is more than the address among its sides, if there is one, and else more than what was there.
fn summed(state: &AbsState, width: Width, destination: Register, source: Register) -> Option<Source>
    ensures { result ≡ rules.summed_in state.now width destination source }
{
    if is_lent(state, source) {
        ranged(state, width, Arithmetic::Add, source, destination)
    } else {
        ranged(state, width, Arithmetic::Add, destination, source)
    }
}

/// A result of an operation with two sides.
fn computed(
    state: &AbsState,
    width: Width,
    operation: Arithmetic,
    destination: Register,
    operand: Operand,
) -> Option<Source>
    ensures { result ≡ rules.computed_in state.now width operation destination operand }
{
    match operand {
        Operand::Immediate(value) => shifted(state, width, operation, destination, value),
        Operand::Source(source) => match operation {
            Arithmetic::Mov => moved(state, width, source),
            Arithmetic::Add => summed(state, width, destination, source),
            Arithmetic::Sub => ranged(state, width, operation, destination, source),
            _ => None,
        },
    }
}

/// What is written.
fn written(state: &AbsState, insn: &Insn) -> Option<Source>
    ensures { result ≡ rules.written_in state.now insn.now }
{
    match *insn {
        Insn::Compute {
            width,
            operation,
            destination,
            operand,
        } => computed(state, width, operation, destination, operand),
        _ => None,
    }
}

/// What a holder holds behind an instruction, where it is what a holder held before it, or more by a number of known
/// bounds.
pub fn source_of(state: &AbsState, insn: &Insn, holder: Holder) -> Option<Source>
    ensures { result ≡ rules.source_in state.now insn.now holder }
{
    match holder {
        Holder::Register(number) => {
            if writes(insn, number) {
                written(state, insn)
            } else {
                Some(exactly(holder, 0))
            }
        }
        Holder::StackSlot(_) => {
            if is_store(insn) {
                None
            } else {
                Some(exactly(holder, 0))
            }
        }
    }
}
