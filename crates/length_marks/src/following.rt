//! What an instruction makes of the marks.
ghost use Rattle.std.specs.Prelude.{◌≡◌, ℕ, ℤ, ◌<◌, Ok};
ghost use Rattle.span_context.specs.declared.profile.Profile.TheVariants.{Three};
ghost use Rattle.semantics.specs.State.{State};
ghost use Rattle.semantics.specs.Step.{On};
ghost use Rattle.abstract_state.specs.Situation.{registers_of, situation_of};
ghost use Rattle.abstract_state.specs.State.{Span, lengths_of, Contains, does};
ghost use Rattle.value_marks.specs.Marking.{Marking, IsMarking, marking_of};
ghost use Rattle.length_marks.specs.Names.{BearsIn};
ghost use Rattle.length_marks.specs.Following as rules;

use crate::lengths::mark_by;
use crate::names::drop_name;
use crate::sums::{add, note_narrow, take};
use abstract_state::state::AbsState;
use bpf_words::instruction::{Arithmetic, Insn, Operand, Width};
use bpf_words::register::Register;
use span_context::size::Size;
use value_marks::marks::Marks;

/// Notes an operation with two sides, which is the instruction.
#[tactic(auto, unfolding(crate::specs::Following::arithmetic))]
fn compute(
    marks: &mut Marks,
    at: usize,
    insn: &Insn,
    width: Width,
    operation: Arithmetic,
    destination: Register,
    operand: &Operand,
    known: &AbsState,
)
    requires { insn.now ≡ Insn.Compute width operation destination operand.now }
    ensures { (w : Marking) → IsMarking marks.old w
        → IsMarking marks.new
        (rules.arithmetic at width operation destination operand.now (registers_of known.now.registers) w) }
{
    match operation {
        Arithmetic::Add => match width {
            Width::Full => add(marks, at, destination, operand, known),
            Width::Narrow => note_narrow(marks, Arithmetic::Add, destination, operand, known),
        },
        Arithmetic::Sub => match width {
            Width::Full => take(marks, destination, operand, known),
            Width::Narrow => note_narrow(marks, Arithmetic::Sub, destination, operand, known),
        },
        _ => marks.follow(at, insn, known),
    }
}

/// Notes a load, which is the instruction.
fn load(
    marks: &mut Marks,
    at: usize,
    insn: &Insn,
    size: Size,
    destination: Register,
    base: Register,
    offset: i16,
    known: &AbsState,
)
    requires { insn.now ≡ Insn.Load size destination base offset }
    ensures { (w : Marking) → IsMarking marks.old w
        → IsMarking marks.new (rules.loaded at size destination base offset (situation_of known.now) w) }
{
    match mark_by(size, known, base, offset) {
        Some(mark) => marks.set_register(destination, Some(mark)),
        None => marks.follow(at, insn, known),
    }
}

/// Notes what the instruction at a slot does, where no mark's name is the slot.
#[tactic(auto, unfolding(crate::specs::Following::noted))]
fn note(marks: &mut Marks, at: usize, insn: &Insn, known: &AbsState)
    ensures { (w : Marking) → IsMarking marks.old w
        → IsMarking marks.new (rules.noted at insn.now (situation_of known.now) w) }
{
    match *insn {
        Insn::Compute {
            width,
            operation,
            destination,
            operand,
        } => compute(
            marks,
            at,
            insn,
            width,
            operation,
            destination,
            &operand,
            known,
        ),
        Insn::Load {
            size,
            destination,
            base,
            offset,
        } => load(marks, at, insn, size, destination, base, offset, known),
        _ => marks.follow(at, insn, known),
    }
}

/// Notes what the instruction at a slot does, by what is known before it. The marks are true of each state to which it
/// leads, where they are true before, and the lengths' names stay theirs.
pub fn follow(marks: &mut Marks, at: usize, insn: &Insn, known: &AbsState)
    ensures rule { (w : Marking) → IsMarking marks.old w
        → IsMarking marks.new (rules.followed at insn.now (situation_of known.now) w) }
    ensures sound { (span : Span) (s next : State) (far : ℤ) → at < 4096 → span.profile ≡ Three
        → Contains known.now (lengths_of span) s → BearsIn (lengths_of span) (marking_of marks.old) s
        → does span s insn.now ≡ Ok (On next far) → BearsIn (lengths_of span) (marking_of marks.new) next }
{
    drop_name(marks, at);
    note(marks, at, insn, known);
}
