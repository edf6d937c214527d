//! What an abstract state knows of what a holder holds, counted from a base.
ghost use Rattle.std.specs.Prelude.{◌≡◌, IfSome, length};
ghost use Rattle.abstract_state.specs.State.{register_at, slot_at};
ghost use Rattle.label_potentials.specs.Counts as rules;

use crate::potential::{Base, Holder};
use abstract_state::address::LentAddress;
use abstract_state::known::Known;
use abstract_state::quantity::Quantity;
use abstract_state::region::Region;
use abstract_state::slot::Slot;
use abstract_state::state::{AbsReg, AbsState};

/// What is known of a register, where it is set.
fn known_of(register: AbsReg) -> Option<Known>
    ensures { result ≡ rules.known_of register }
{
    match register {
        AbsReg::Unset => None,
        AbsReg::Set(known) => Some(known),
    }
}

/// What is known of a number that was spilled.
fn spilled_in(slot: Slot) -> Option<Known>
    ensures { result ≡ rules.spilled_in slot }
{
    match slot {
        Slot::Marks(_) => None,
        Slot::Spilled(known) => Some(known),
    }
}

/// What is known is of eleven registers and 64 slots: nothing to run.
pub fn is_whole(state: &AbsState)
    ensures registers { length state.now.registers ≡ 11 }
    ensures stack { length state.now.stack ≡ 64 }
{
    let _register = state.registers[0];
    let _slot = state.stack[0];
}

/// What is known of the register of a number; nothing of one that there isn't.
#[tactic(auto, using(std::proofs::lemmas::List::get_or_past, std::proofs::lemmas::List::get_or_default))]
fn register_at(state: &AbsState, number: u8) -> AbsReg
    ensures { result ≡ register_at state.now.registers number }
{
    is_whole(state);
    if number < 11 {
        state.registers[usize::from(number)]
    } else {
        AbsReg::Unset
    }
}

/// What is known of a number in a slot of the stack.
#[tactic(auto, using(std::proofs::lemmas::List::get_or_past, std::proofs::lemmas::List::get_or_default))]
fn slot_at(state: &AbsState, number: u8) -> Option<Known>
    ensures { result ≡ rules.spilled_in (slot_at state.now.stack number) }
{
    is_whole(state);
    if number < 64 {
        spilled_in(state.stack[usize::from(number)])
    } else {
        None
    }
}

/// What is known of what a holder holds.
pub fn held(state: &AbsState, holder: Holder) -> Option<Known>
    ensures { result ≡ rules.held_in state.now holder }
{
    match holder {
        Holder::Register(number) => known_of(register_at(state, number)),
        Holder::StackSlot(number) => slot_at(state, number),
    }
}

/// A number, where it is counted from 0.
fn number_from(base: Base, quantity: Quantity) -> Option<Quantity>
    ensures { result ≡ rules.number_from base quantity }
{
    match base {
        Base::Zero => Some(quantity),
        Base::Text | Base::Link => None,
    }
}

/// The offset of an address in the region of the base.
fn offset_in(base: Base, address: LentAddress) -> Option<Quantity>
    ensures { result ≡ rules.offset_in base address address.region }
{
    match (base, address.region) {
        (Base::Text, Region::Text) => Some(address.offset),
        (Base::Link, Region::Link) => Some(address.offset),
        _ => None,
    }
}

/// What is known of a number or an address, counted from a base.
fn counted_from(base: Base, known: Known) -> Option<Quantity>
    ensures { result ≡ rules.counted_from base known }
{
    match known {
        Known::Number(quantity) => number_from(base, quantity),
        Known::Lent(address) => offset_in(base, address),
        Known::Context(_) | Known::Stack(_) => None,
    }
}

/// What is known of the number in a holder, counted from a base.
pub fn counted(state: &AbsState, holder: Holder, base: Base) -> Option<Quantity>
    ensures rule { result ≡ rules.counted_in state.now holder base }
    ensures sound { IfSome result (λ q. rules.Counts state.now holder base q) }
{
    is_whole(state);
    let known = held(state, holder)?;
    counted_from(base, known)
}
