//! The marks of sums and differences.
ghost use Rattle.std.specs.Prelude.{◌≡◌, ℕ, ◌^◌, ◌<◌, None};
ghost use Rattle.abstract_state.specs.Addresses.{content_of, answer_of};
ghost use Rattle.abstract_state.specs.Estimate.{estimate_of};
ghost use Rattle.abstract_state.specs.Situation.{register_of, registers_of, operand_of, read};
ghost use Rattle.value_marks.specs.Marking as plain;
ghost use Rattle.value_marks.specs.Marking.{Marking, IsMarking};
ghost use Rattle.length_marks.specs.Sums as rules;

use abstract_state::known::Known;
use abstract_state::quantity::Quantity;
use abstract_state::refusal::Refusal;
use abstract_state::state::{AbsReg, AbsState, extended};
use bpf_words::instruction::{Arithmetic, Operand, Width};
use bpf_words::register::Register;
use value_marks::mark::Mark;
use value_marks::marks::{Marks, named};

/// 2^32.
const PAST_NARROW: u64 = 1 << 32;

/// The one number of what a side holds.
fn number_in(known: Result<Known, Refusal>) -> Option<u64>
    ensures { result ≡ rules.number_in (answer_of content_of known) }
{
    match known {
        Ok(known) => known.only(),
        Err(_) => None,
    }
}

fn raised_by(by: Option<u64>, mark: Option<Mark>) -> Option<Mark>
    ensures { result ≡ rules.raised_by by mark }
{
    let by = by?;
    let mark = mark?;
    Some(mark.raised(by))
}

fn lowered_by(by: Option<u64>, mark: Option<Mark>) -> Option<Mark>
    ensures { result ≡ rules.lowered_by by mark }
{
    let by = by?;
    let mark = mark?;
    Some(mark.lowered(by))
}

/// A number is known that is added to a register.
#[tactic(auto, unfolding(crate::specs::Sums::onto))]
fn add_onto(
    marks: &mut Marks,
    at: usize,
    destination: Register,
    number: u64,
    source: Register,
    known: &AbsState,
)
    ensures { (w : Marking) → IsMarking marks.old w
        → IsMarking marks.new (rules.onto at destination number source (registers_of known.now.registers) w) }
{
    let mark = named(
        at,
        known.registers[source.index()],
        marks.registers[source.index()],
    );
    marks.set_register(source, mark);
    marks.set_register(destination, raised_by(Some(number), mark));
}

/// Notes a sum of all 64 bits, where the second side's number isn't known.
#[tactic(auto, unfolding(crate::specs::Sums::sum_by))]
fn add_unknown(
    marks: &mut Marks,
    at: usize,
    destination: Register,
    operand: &Operand,
    known: &AbsState,
)
    ensures { (w : Marking) → IsMarking marks.old w
        → IsMarking marks.new (rules.sum_by at destination operand.now None
        (rules.number_in (read (registers_of known.now.registers destination))) (registers_of known.now.registers) w) }
{
    match *operand {
        Operand::Immediate(_) => marks.set_register(destination, None),
        Operand::Source(source) => match number_in(known.read(destination)) {
            Some(number) => add_onto(marks, at, destination, number, source, known),
            None => marks.set_register(destination, None),
        },
    }
}

/// The one number of an operand.
fn number_of_operand(known: &AbsState, operand: &Operand) -> Option<u64>
    ensures { result ≡ rules.number_in (operand_of (registers_of known.now.registers) operand.now) }
{
    match *operand {
        Operand::Immediate(value) => Known::Number(Quantity::constant(extended(value))).only(),
        Operand::Source(register) => number_in(known.read(register)),
    }
}

/// Notes a sum of all 64 bits.
#[tactic(auto, unfolding(crate::specs::Sums::sum_by))]
pub(crate) fn add(
    marks: &mut Marks,
    at: usize,
    destination: Register,
    operand: &Operand,
    known: &AbsState,
)
    ensures { (w : Marking) → IsMarking marks.old w
        → IsMarking marks.new (rules.summed at destination operand.now (registers_of known.now.registers) w) }
{
    match number_of_operand(known, operand) {
        Some(number) => {
            let mark = raised_by(Some(number), marks.registers[destination.index()]);
            marks.set_register(destination, mark);
        }
        None => add_unknown(marks, at, destination, operand, known),
    }
}

/// Notes a difference of all 64 bits.
pub(crate) fn take(marks: &mut Marks, destination: Register, operand: &Operand, known: &AbsState)
    ensures { (w : Marking) → IsMarking marks.old w
        → IsMarking marks.new (rules.taken destination operand.now (registers_of known.now.registers) w) }
{
    let by = number_of_operand(known, operand);
    let mark = lowered_by(by, marks.registers[destination.index()]);
    marks.set_register(destination, mark);
}

/// The mark after a number is added that stays below 2^32 for sure, or passes it once for sure.
#[tactic(auto, unfolding(crate::specs::Sums::unwrapped))]
fn unwrapped(quantity: Quantity, by: u64, mark: Mark) -> Option<Mark>
    requires { by < 2 ^ 32 }
    ensures { result ≡ rules.unwrapped (estimate_of quantity) by mark }
{
    let range = quantity.range;
    if range.high >= PAST_NARROW {
        None
    } else if range.high + by < PAST_NARROW {
        Some(mark.raised(by))
    } else if range.low + by >= PAST_NARROW {
        Some(mark.lowered(PAST_NARROW - by))
    } else {
        None
    }
}

/// The low 32 bits of what is added; what is taken away is added as its complement.
#[tactic(auto, unfolding(crate::specs::Sums::addend))]
fn addend(operation: Arithmetic, by: u64) -> u64
    ensures rule { result ≡ rules.addend operation by }
    ensures narrow { result < 2 ^ 32 }
{
    match operation {
        Arithmetic::Sub => (PAST_NARROW - by % PAST_NARROW) % PAST_NARROW,
        _ => by % PAST_NARROW,
    }
}

/// The mark of the low 32 bits of a sum or a difference.
#[tactic(auto, unfolding(value_marks::specs::Marking::shifted))]
fn shifted(operation: Arithmetic, by: u64, mark: Mark) -> Option<Mark>
    ensures { result ≡ plain.shifted Width.Narrow operation by mark }
{
    match operation {
        Arithmetic::Add => Some(mark.raised(by).cut_to(Width::Narrow)),
        Arithmetic::Sub => Some(mark.lowered(by).cut_to(Width::Narrow)),
        _ => None,
    }
}

/// The mark of a sum or a difference of 32 bits.
#[tactic(auto, unfolding(crate::specs::Sums::narrow_mark))]
fn narrow_mark(operation: Arithmetic, content: AbsReg, by: u64, mark: Mark) -> Option<Mark>
    ensures { result ≡ rules.narrow_mark operation (register_of content) by mark }
{
    if let AbsReg::Set(Known::Number(quantity)) = content {
        let kept = unwrapped(quantity, addend(operation, by), mark);
        if kept.is_some() {
            return kept;
        }
    }
    shifted(operation, by, mark)
}

#[tactic(auto, unfolding(crate::specs::Sums::narrowed_by))]
fn narrowed_by(
    operation: Arithmetic,
    content: AbsReg,
    by: Option<u64>,
    mark: Option<Mark>,
) -> Option<Mark>
    ensures { result ≡ rules.narrowed_by operation (register_of content) by mark }
{
    let by = by?;
    let mark = mark?;
    narrow_mark(operation, content, by, mark)
}

/// Notes a sum or a difference of 32 bits.
pub(crate) fn note_narrow(
    marks: &mut Marks,
    operation: Arithmetic,
    destination: Register,
    operand: &Operand,
    known: &AbsState,
)
    ensures { (w : Marking) → IsMarking marks.old w
        → IsMarking marks.new (rules.narrowly operation destination operand.now (registers_of known.now.registers) w) }
{
    let by = number_of_operand(known, operand);
    let content = known.registers[destination.index()];
    let mark = narrowed_by(operation, content, by, marks.registers[destination.index()]);
    marks.set_register(destination, mark);
}
