//! What an instruction makes of the value that is wanted behind it.
ghost use Rattle.std.specs.Prelude.{◌≡◌};
ghost use Rattle.bpf_words.specs.Flow.{written_by};
ghost use Rattle.abstract_state.specs.Addresses.{content_of};
ghost use Rattle.abstract_state.specs.Situation.{situation_of};
ghost use Rattle.need_trails.specs.Origins.{moved_origin, either_shifted, sum_origin, added_origin, computed_origin};
ghost use Rattle.need_trails.specs.Origins.{eight_origin, loaded_origin, register_origin, is_at, origin_in_register};
ghost use Rattle.need_trails.specs.Origins.{whole_origin, stored_origin, origin_in_eight, origin_at, origin_of};

use crate::shifting::{in_register, shifted};
use crate::stacked::{eight_at, may_write};
use abstract_state::known::Known;
use abstract_state::state::AbsState;
use bpf_words::instruction::{Arithmetic, Insn, Operand, Width};
use bpf_words::register::Register;
use refusal_needs::refused_for::moved_by;
use refusal_needs::wanted::{Need, Place, Wanted, held, one_of};
use span_context::size::Size;

/// What an instruction makes of the value that is wanted behind it.
#[derive(Clone, Copy)]
pub enum Origin {
    /// It leaves the value there.
    Left,
    /// It makes the value of one before it, of which this is wanted then.
    Of(Wanted),
    /// It writes another value there.
    Written,
}

/// A move: of all bits, or of a number of no more than 32.
#[tactic(auto, unfolding(crate::specs::Origins::moved_origin))]
fn moved_origin(state: &AbsState, width: Width, operand: Operand, need: Need) -> Option<Origin>
    ensures { result ≡ moved_origin (situation_of state.now) width operand need }
{
    let Operand::Source(register) = operand else {
        return None;
    };
    match width {
        Width::Full => Some(in_register(register, need)),
        Width::Narrow => {
            let known = held(state, Place::Register(register.number()))?;
            shifted(known, register, Width::Narrow, 0, need)
        }
    }
}

/// Of the values of two registers that are added, one is one number for sure.
fn either_shifted(left: Register, right: Register, need: Need, a: Known, b: Known) -> Option<Origin>
    ensures { result ≡ either_shifted left right need (content_of a) (content_of b) }
{
    match one_of(a) {
        Some(by) => shifted(b, right, Width::Full, by, need),
        None => shifted(a, left, Width::Full, one_of(b)?, need),
    }
}

/// A sum of two registers' values, of all bits.
fn sum_origin(
    state: &AbsState,
    width: Width,
    operation: Arithmetic,
    left: Register,
    operand: Operand,
    need: Need,
    a: Known,
) -> Option<Origin>
    ensures { result ≡ sum_origin (situation_of state.now) width operation left operand need (content_of a) }
{
    match (width, operation, operand) {
        (Width::Full, Arithmetic::Add, Operand::Source(right)) => {
            let b = held(state, Place::Register(right.number()))?;
            either_shifted(left, right, need, a, b)
        }
        _ => None,
    }
}

/// A sum or a difference: of one value and a constant, it is that value's.
#[tactic(auto, unfolding(crate::specs::Origins::added_origin))]
fn added_origin(
    state: &AbsState,
    width: Width,
    operation: Arithmetic,
    left: Register,
    operand: &Operand,
    need: Need,
    a: Known,
) -> Option<Origin>
    ensures { result ≡ added_origin (situation_of state.now) width operation left operand.now need (content_of a) }
{
    match moved_by(state, operation, *operand) {
        Some(by) => shifted(a, left, width, by, need),
        None => sum_origin(state, width, operation, left, *operand, need, a),
    }
}

fn computed_origin(
    state: &AbsState,
    width: Width,
    operation: Arithmetic,
    destination: Register,
    operand: Operand,
    need: Need,
) -> Option<Origin>
    ensures { result ≡ computed_origin (situation_of state.now) width operation destination operand need }
{
    match operation {
        Arithmetic::Mov => moved_origin(state, width, operand, need),
        _ => {
            let known = held(state, Place::Register(destination.number()))?;
            added_origin(state, width, operation, destination, &operand, need, known)
        }
    }
}

/// A load of eight bytes that stand in the stack as one value.
fn eight_origin(state: &AbsState, need: Need, index: usize) -> Option<Origin>
    ensures { result ≡ eight_origin (situation_of state.now) need index }
{
    let place = Place::Eight(index);
    match held(state, place) {
        Some(_) => Some(Origin::Of(Wanted { place, need })),
        None => None,
    }
}

fn loaded_origin(
    state: &AbsState,
    size: Size,
    base: Register,
    offset: i16,
    need: Need,
) -> Option<Origin>
    ensures { result ≡ loaded_origin (situation_of state.now) size base offset need }
{
    match size {
        Size::Byte | Size::Half | Size::Word => None,
        Size::Double => eight_origin(state, need, eight_at(state, base, offset)?),
    }
}

/// What is wanted before an instruction that writes a register of which something is wanted behind it.
#[tactic(auto, unfolding(crate::specs::Origins::register_origin))]
fn register_origin(state: &AbsState, insn: &Insn, need: Need) -> Option<Origin>
    ensures { result ≡ register_origin (situation_of state.now) insn.now need }
{
    match *insn {
        Insn::Compute {
            width,
            operation,
            destination,
            operand,
        } => computed_origin(state, width, operation, destination, operand, need),
        Insn::Load {
            size,
            base,
            offset,
            ..
        } => loaded_origin(state, size, base, offset, need),
        _ => None,
    }
}

fn is_written(insn: &Insn, number: u8) -> bool
    ensures { result ≡ is_at number (written_by insn.now) }
{
    match insn.written() {
        Some(register) => register.number() == number,
        None => false,
    }
}

fn origin_in_register(state: &AbsState, insn: &Insn, number: u8, need: Need) -> Origin
    ensures { result ≡ origin_in_register (situation_of state.now) insn.now number need }
{
    if !is_written(insn, number) {
        return Origin::Left;
    }
    match register_origin(state, insn, need) {
        Some(origin) => origin,
        None => Origin::Written,
    }
}

/// Whether eight bytes of the stack are those of an index.
fn is_at(index: usize, at: Option<usize>) -> bool
    ensures { result ≡ is_at index at }
{
    match at {
        Some(at) => at == index,
        None => false,
    }
}

/// A store of all eight bytes leaves a register's value there.
fn whole_origin(size: Size, value: Operand, there: bool, need: Need) -> Origin
    ensures { result ≡ whole_origin size value there need }
{
    let Operand::Source(register) = value else {
        return Origin::Written;
    };
    match size {
        Size::Double => {
            if there {
                in_register(register, need)
            } else {
                Origin::Written
            }
        }
        Size::Byte | Size::Half | Size::Word => Origin::Written,
    }
}

fn stored_origin(
    state: &AbsState,
    size: Size,
    base: Register,
    offset: i16,
    value: Operand,
    index: usize,
    need: Need,
) -> Origin
    ensures { result ≡ stored_origin (situation_of state.now) size base offset value index need }
{
    if may_write(state, size, base, offset, index) {
        whole_origin(
            size,
            value,
            is_at(index, eight_at(state, base, offset)),
            need,
        )
    } else {
        Origin::Left
    }
}

#[tactic(auto, unfolding(crate::specs::Origins::origin_in_eight))]
fn origin_in_eight(state: &AbsState, insn: &Insn, index: usize, need: Need) -> Origin
    ensures { result ≡ origin_in_eight (situation_of state.now) insn.now index need }
{
    match *insn {
        Insn::Store {
            size,
            base,
            offset,
            value,
        } => stored_origin(state, size, base, offset, value, index, need),
        _ => Origin::Left,
    }
}

/// What an instruction makes of the value that is wanted behind it.
#[tactic(auto, unfolding(crate::specs::Origins::origin_of))]
pub(crate) fn origin_of(state: &AbsState, insn: &Insn, wanted: Wanted) -> Origin
    ensures { result ≡ origin_of (situation_of state.now) insn.now wanted }
{
    match wanted.place {
        Place::Register(number) => origin_in_register(state, insn, number, wanted.need),
        Place::Eight(index) => origin_in_eight(state, insn, index, wanted.need),
        Place::Bytes(_, _) => Origin::Left,
    }
}
