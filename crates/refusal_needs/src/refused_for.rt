//! What an instruction wants that is refused for what is known before it (docs/REFUSALS.md, 15 to 26).
ghost use Rattle.std.specs.Prelude.{◌≡◌, is_some, option_map};
ghost use Rattle.semantics.specs.Memory.{bytes_in};
ghost use Rattle.abstract_state.specs.Estimate.{estimate_of};
ghost use Rattle.abstract_state.specs.Addresses.{content_of};
ghost use Rattle.abstract_state.specs.Situation.{situation_of, registers_of};
ghost use Rattle.refusal_needs.specs.Refused.{of_register, first_unset, unset_operand, unset_in, may_move, first_for};
ghost use Rattle.refusal_needs.specs.Refused.{second_number, second_for, moved_for, computed_for, arithmetic_for};
ghost use Rattle.refusal_needs.specs.Refused.{address_among, compared_with, compared_in, of_load, stack_bytes};
ghost use Rattle.refusal_needs.specs.Refused.{stack_for, bounds_need, loaded_for, number_in, operand_number, moved_by};
ghost use Rattle.refusal_needs.specs.Refused.{start_for, shifted_for, near_for, sum_for, difference_for, offset_for};
ghost use Rattle.refusal_needs.specs.Refused.{offset_in, base_in, stored_in, refused_for};

use crate::access::{self, Access, load_of};
use crate::signed::{moved, opposite, sum};
use crate::wanted::{Need, Place, Wanted, held_register, is_number, one_of, quantity_of};
use abstract_state::known::{Known, NEAR};
use abstract_state::quantity::Quantity;
use abstract_state::refusal::Refusal;
use abstract_state::region::Region;
use abstract_state::state::AbsState;
use bpf_words::instruction::{Arithmetic, Insn, Operand, Width};
use bpf_words::register::Register;
use span_context::size::Size;

pub fn bytes_of(size: Size) -> usize
    ensures { result ≡ bytes_in size }
{
    usize::from(access::bytes_of(size))
}

fn of_register(need: Need, register: Register) -> Wanted
    ensures { result ≡ of_register need register }
{
    Wanted {
        place: Place::Register(register.number()),
        need,
    }
}

/// The same, if there is a register.
fn of_some(need: Need, register: Option<Register>) -> Option<Wanted>
    ensures { result ≡ option_map (of_register need) register }
{
    match register {
        Some(register) => Some(of_register(need, register)),
        None => None,
    }
}

fn known_of(state: &AbsState, register: Register) -> Option<Known>
    ensures { option_map content_of result ≡ (situation_of state.now).registers register }
{
    held_register(state, register.index())
}

fn is_set(state: &AbsState, register: Register) -> bool
    ensures { result ≡ is_some ((situation_of state.now).registers register) }
{
    known_of(state, register).is_some()
}

/// The first of two registers that may be unset.
fn first_unset(state: &AbsState, first: Register, second: Operand) -> Option<Register>
    ensures { result ≡ first_unset (situation_of state.now).registers first second }
{
    match (is_set(state, first), second) {
        (true, Operand::Immediate(_)) => None,
        (true, Operand::Source(register)) => Some(register),
        (false, _) => Some(first),
    }
}

/// Of an operation: a move reads its operand alone.
fn unset_operand(
    state: &AbsState,
    operation: Arithmetic,
    destination: Register,
    operand: Operand,
) -> Option<Register>
    ensures { result ≡ unset_operand (situation_of state.now).registers operation destination operand }
{
    match (operation, operand) {
        (Arithmetic::Mov, Operand::Source(register)) => Some(register),
        _ => first_unset(state, destination, operand),
    }
}

/// Of an instruction that reads a register that may be unset.
#[tactic(auto, unfolding(crate::specs::Refused::unset_in))]
fn unset_in(state: &AbsState, insn: Insn) -> Option<Register>
    ensures { result ≡ unset_in (situation_of state.now).registers insn }
{
    match insn {
        Insn::Compute {
            operation,
            destination,
            operand,
            ..
        } => unset_operand(state, operation, destination, operand),
        Insn::Negate { destination, .. } => Some(destination),
        Insn::Extend { source, .. } => Some(source),
        Insn::Convert { destination, .. } => Some(destination),
        Insn::Branch { left, right, .. } => first_unset(state, left, right),
        Insn::Load { base, .. } => Some(base),
        Insn::LoadSigned { base, .. } => Some(base),
        Insn::Store { base, value, .. } => first_unset(state, base, value),
        Insn::Exit => Some(Register::r0()),
        _ => None,
    }
}

/// Whether a number may be added to an address, or taken from it.
fn may_move(operation: Arithmetic, width: Width) -> bool
    ensures { result ≡ may_move operation width }
{
    match (operation, width) {
        (Arithmetic::Add, Width::Full) => true,
        (Arithmetic::Sub, Width::Full) => true,
        _ => false,
    }
}

/// Of the second side, where the first may stand.
fn second_number(register: Register, known: Known) -> Option<Wanted>
    ensures { result ≡ second_number register (content_of known) }
{
    if !is_number(known) {
        return Some(of_register(Need::Number, register));
    }
    if one_of(known).is_some() {
        return None;
    }
    Some(of_register(Need::OneNumber, register))
}

fn second_for(state: &AbsState, operand: Operand) -> Option<Wanted>
    ensures { result ≡ second_for (situation_of state.now).registers operand }
{
    match operand {
        Operand::Immediate(_) => None,
        Operand::Source(register) => second_number(register, known_of(state, register)?),
    }
}

/// Of the first side, else of the second.
fn first_for(
    state: &AbsState,
    movable: bool,
    destination: Register,
    operand: Operand,
    known: Known,
) -> Option<Wanted>
    ensures { result ≡ first_for (situation_of state.now).registers movable destination operand (content_of known) }
{
    if is_number(known) || movable {
        second_for(state, operand)
    } else {
        Some(of_register(Need::Number, destination))
    }
}

/// Of a move.
fn moved_for(state: &AbsState, operand: Operand) -> Option<Wanted>
    ensures { result ≡ moved_for (situation_of state.now).registers operand }
{
    match operand {
        Operand::Immediate(_) => None,
        Operand::Source(register) => {
            if is_set(state, register) {
                Some(of_register(Need::Number, register))
            } else {
                None
            }
        }
    }
}

/// Of an operation with an address: where it may be added, what is added; else the first side that is an address.
fn computed_for(
    state: &AbsState,
    width: Width,
    operation: Arithmetic,
    destination: Register,
    operand: Operand,
) -> Option<Wanted>
    ensures { result ≡ computed_for (situation_of state.now).registers width operation destination operand }
{
    match operation {
        Arithmetic::Mov => moved_for(state, operand),
        _ => {
            let known = known_of(state, destination)?;
            first_for(
                state,
                may_move(operation, width),
                destination,
                operand,
                known,
            )
        }
    }
}

/// Of an instruction that does with an address what can be done with a number alone.
#[tactic(auto, unfolding(crate::specs::Refused::arithmetic_for))]
fn arithmetic_for(state: &AbsState, insn: Insn) -> Option<Wanted>
    ensures { result ≡ arithmetic_for (situation_of state.now).registers insn }
{
    match insn {
        Insn::Compute {
            width,
            operation,
            destination,
            operand,
        } => computed_for(state, width, operation, destination, operand),
        Insn::Negate { destination, .. } => Some(of_register(Need::Number, destination)),
        Insn::Convert { destination, .. } => Some(of_register(Need::Number, destination)),
        Insn::Extend { source, .. } => Some(of_register(Need::Number, source)),
        _ => None,
    }
}

/// The one of two registers that is an address, if one of them is a number.
fn address_among(left: Register, a: Known, right: Register, b: Known) -> Option<Register>
    ensures { result ≡ address_among left (content_of a) right (content_of b) }
{
    if is_number(a) {
        return Some(right);
    }
    if is_number(b) {
        return Some(left);
    }
    None
}

fn compared_with(state: &AbsState, left: Register, right: Operand, a: Known) -> Option<Register>
    ensures { result ≡ compared_with (situation_of state.now).registers left right (content_of a) }
{
    match right {
        Operand::Immediate(_) => Some(left),
        Operand::Source(right) => match known_of(state, right) {
            Some(b) => address_among(left, a, right, b),
            None => Some(left),
        },
    }
}

/// Of a comparison of a number with an address.
#[tactic(auto, unfolding(crate::specs::Refused::compared_in))]
fn compared_in(state: &AbsState, insn: Insn) -> Option<Register>
    ensures { result ≡ compared_in (situation_of state.now).registers insn }
{
    match insn {
        Insn::Branch { left, right, .. } => {
            let known = known_of(state, left)?;
            compared_with(state, left, right, known)
        }
        _ => None,
    }
}

fn stack_bytes(count: u8, first: i64) -> Option<Wanted>
    ensures { result ≡ stack_bytes count first }
{
    let first = usize::try_from(first).ok()?;
    Some(Wanted {
        place: Place::Bytes(first, usize::from(count)),
        need: Need::Set,
    })
}

fn stack_for(access: Access, known: Known) -> Option<Wanted>
    ensures { result ≡ stack_for access (content_of known) }
{
    match known {
        Known::Stack(address) => stack_bytes(
            access.bytes,
            moved(address.offset, i64::from(access.offset))?,
        ),
        _ => None,
    }
}

/// Of a load of bytes of the stack that may be unset.
fn of_stack_load(state: &AbsState, insn: Insn) -> Option<Wanted>
    ensures { result ≡ of_load stack_for (situation_of state.now).registers insn }
{
    let access = load_of(insn)?;
    stack_for(access, known_of(state, access.base)?)
}

/// Where the first byte may lie before the region's start: behind that; else within the region.
fn bounds_need(region: Region, access: Access, first: i64) -> Option<Need>
    ensures { result ≡ bounds_need region access first }
{
    if first < 0 {
        Some(Need::Behind(region, opposite(i64::from(access.offset))?))
    } else {
        Some(Need::Within(
            region,
            sum(i64::from(access.offset), i64::from(access.bytes))?,
        ))
    }
}

fn loaded_for(access: Access, known: Known) -> Option<Wanted>
    ensures { result ≡ loaded_for access (content_of known) }
{
    match known {
        Known::Lent(address) => {
            let base = access.base;
            let first = moved(address.offset.range.low, i64::from(access.offset))?;
            let need = bounds_need(address.region, access, first)?;
            Some(of_register(need, base))
        }
        _ => None,
    }
}

/// Of a load that may leave its region.
fn of_lent_load(state: &AbsState, insn: Insn) -> Option<Wanted>
    ensures { result ≡ of_load loaded_for (situation_of state.now).registers insn }
{
    let access = load_of(insn)?;
    loaded_for(access, known_of(state, access.base)?)
}

/// The one number that it is, read as one with sign.
fn number_in(known: Known) -> Option<i64>
    ensures { result ≡ number_in (content_of known) }
{
    match known {
        Known::Number(quantity) => Some(quantity.only()?.cast_signed()),
        _ => None,
    }
}

fn operand_number(state: &AbsState, operand: Operand) -> Option<i64>
    ensures { result ≡ operand_number (situation_of state.now).registers operand }
{
    match operand {
        Operand::Immediate(value) => Some(i64::from(value)),
        Operand::Source(register) => number_in(known_of(state, register)?),
    }
}

/// By how much an operation with one number moves what it works on.
#[tactic(auto, unfolding(crate::specs::Refused::moved_by))]
pub fn moved_by(state: &AbsState, operation: Arithmetic, operand: Operand) -> Option<i64>
    ensures { result ≡ moved_by (situation_of state.now) operation operand }
{
    match operation {
        Arithmetic::Add => operand_number(state, operand),
        Arithmetic::Sub => opposite(operand_number(state, operand)?),
        _ => None,
    }
}

/// Of an address that is moved by one number.
fn start_for(register: Register, region: Region, by: i64) -> Option<Wanted>
    ensures { result ≡ start_for register region by }
{
    let bytes = opposite(by)?;
    Some(of_register(Need::Behind(region, bytes), register))
}

fn shifted_for(by: Option<i64>, destination: Register, known: Known) -> Option<Wanted>
    ensures { result ≡ shifted_for by destination (content_of known) }
{
    match known {
        Known::Lent(address) => start_for(destination, address.region, by?),
        _ => None,
    }
}

/// Of what is added to an address at this offset.
fn near_for(register: Register, offset: &Quantity) -> Wanted
    ensures { result ≡ near_for register (estimate_of offset.now) }
{
    let most = NEAR.saturating_sub(offset.range.high);
    of_register(Need::AtMost(most), register)
}

/// Of a sum of a number and an address.
fn sum_for(left: Register, a: Known, right: Register, b: Known) -> Option<Wanted>
    ensures { result ≡ sum_for left (content_of a) right (content_of b) }
{
    match (a, b) {
        (Known::Number(_), Known::Lent(address)) => Some(near_for(left, &address.offset)),
        (Known::Lent(address), Known::Number(_)) => Some(near_for(right, &address.offset)),
        _ => None,
    }
}

/// Of a difference; of what is taken away unless that is one number.
fn difference_for(
    by: Option<i64>,
    left: Register,
    a: Known,
    right: Register,
    b: Known,
) -> Option<Wanted>
    ensures { result ≡ difference_for by left (content_of a) right (content_of b) }
{
    if one_of(b).is_some() {
        return shifted_for(by, left, a);
    }
    let most = quantity_of(a)?.range.low;
    Some(of_register(Need::AtMost(most), right))
}

fn offset_for(
    state: &AbsState,
    operation: Arithmetic,
    left: Register,
    operand: Operand,
    a: Known,
) -> Option<Wanted>
    ensures { result ≡ offset_for (situation_of state.now) operation left operand (content_of a) }
{
    let by = moved_by(state, operation, operand);
    match (operation, operand) {
        (Arithmetic::Add, Operand::Source(right)) => {
            sum_for(left, a, right, known_of(state, right)?)
        }
        (Arithmetic::Sub, Operand::Source(right)) => {
            difference_for(by, left, a, right, known_of(state, right)?)
        }
        _ => shifted_for(by, left, a),
    }
}

/// Of a sum that may be too far behind its region's start, or a difference that may be before it.
#[tactic(auto, unfolding(crate::specs::Refused::offset_in))]
fn offset_in(state: &AbsState, insn: Insn) -> Option<Wanted>
    ensures { result ≡ offset_in (situation_of state.now) insn }
{
    match insn {
        Insn::Compute {
            operation,
            destination,
            operand,
            ..
        } => {
            let known = known_of(state, destination)?;
            offset_for(state, operation, destination, operand, known)
        }
        _ => None,
    }
}

/// The base of a load or a store.
#[tactic(auto, unfolding(crate::specs::Refused::base_in))]
fn base_in(insn: Insn) -> Option<Register>
    ensures { result ≡ base_in insn }
{
    match insn {
        Insn::Load { base, .. } => Some(base),
        Insn::LoadSigned { base, .. } => Some(base),
        Insn::Store { base, .. } => Some(base),
        _ => None,
    }
}

/// The register that is stored.
#[tactic(auto, unfolding(crate::specs::Refused::stored_in))]
fn stored_in(insn: Insn) -> Option<Register>
    ensures { result ≡ stored_in insn }
{
    match insn {
        Insn::Store { value, .. } => match value {
            Operand::Source(register) => Some(register),
            Operand::Immediate(_) => None,
        },
        _ => None,
    }
}

/// What a refused instruction wants of one value before it, where it is that.
#[tactic(auto, unfolding(crate::specs::Refused::refused_for))]
pub fn refused_for(state: &AbsState, insn: &Insn, fault: Refusal) -> Option<Wanted>
    ensures { result ≡ refused_for (situation_of state.now) insn.now fault }
{
    let insn = *insn;
    match fault {
        Refusal::UnsetRegister => of_some(Need::Set, unset_in(state, insn)),
        Refusal::PointerArithmetic => arithmetic_for(state, insn),
        Refusal::PointerCompare => of_some(Need::Number, compared_in(state, insn)),
        Refusal::StackUnset => of_stack_load(state, insn),
        Refusal::TextBounds => of_lent_load(state, insn),
        Refusal::TextOffset => offset_in(state, insn),
        Refusal::ReadOnlyStore => of_some(Need::StackAddress, base_in(insn)),
        Refusal::NotAnAddress => of_some(Need::Address, base_in(insn)),
        Refusal::PointerStore => of_some(Need::Number, stored_in(insn)),
        Refusal::ReturnPointer => Some(of_register(Need::Number, Register::r0())),
        Refusal::ContextField => None,
        Refusal::StackBounds => None,
    }
}
