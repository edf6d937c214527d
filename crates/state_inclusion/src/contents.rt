//! Registers and slots of the stack that hold no more than another state's may.
ghost use Rattle.std.specs.Prelude.{◌≡◌, ◌↔◌, ℕ, ◌<◌, IsTrue, true, false};
ghost use Rattle.abstract_state.specs.Addresses.{content_of};
ghost use Rattle.abstract_state.specs.Stacks.{eight_of, slots_of, mark};
ghost use Rattle.abstract_state.specs.Situation.{least_of, register_of, registers_of, situation_of};
ghost use Rattle.state_inclusion.specs.Contents.{IsContentWithin, IsRegisterWithin, IsSlotWithin, IsLeastWithin};
ghost use Rattle.state_inclusion.specs.Contents.{IsSituationWithin};

use crate::numbers::is_number_within;
use abstract_state::address::LentAddress;
use abstract_state::bounds::Bounds;
use abstract_state::known::Known;
use abstract_state::region::Region;
use abstract_state::slot::Slot;
use abstract_state::state::{AbsReg, AbsState};

fn is_address_within(bounds: Bounds, a: LentAddress, b: LentAddress) -> bool
    ensures { IsTrue result
        ↔ IsContentWithin (least_of bounds) (content_of (Known.Lent a)) (content_of (Known.Lent b)) }
{
    match (a.region, b.region) {
        (Region::Text, Region::Text) => is_number_within(bounds, a.offset, b.offset),
        (Region::Link, Region::Link) => is_number_within(bounds, a.offset, b.offset),
        _ => false,
    }
}

fn is_known_within(bounds: Bounds, a: Known, b: Known) -> bool
    ensures { IsTrue result ↔ IsContentWithin (least_of bounds) (content_of a) (content_of b) }
{
    match (a, b) {
        (Known::Number(x), Known::Number(y)) => is_number_within(bounds, x, y),
        (Known::Context(p), Known::Context(q)) => p.offset == q.offset,
        (Known::Stack(p), Known::Stack(q)) => p.offset == q.offset,
        (Known::Lent(p), Known::Lent(q)) => is_address_within(bounds, p, q),
        _ => false,
    }
}

fn is_register_within(bounds: Bounds, a: AbsReg, b: AbsReg) -> bool
    ensures { IsTrue result ↔ IsRegisterWithin (least_of bounds) (register_of a) (register_of b) }
{
    match (a, b) {
        (_, AbsReg::Unset) => true,
        (AbsReg::Unset, AbsReg::Set(_)) => false,
        (AbsReg::Set(x), AbsReg::Set(y)) => is_known_within(bounds, x, y),
    }
}

fn register_in(registers: &[AbsReg; 11], i: usize) -> AbsReg
    requires { i < 11 }
    ensures { register_of result ≡ registers_of registers.now i }
{
    registers[i]
}

fn are_registers_within(bounds: Bounds, a: &[AbsReg; 11], b: &[AbsReg; 11]) -> bool
    ensures { IsTrue result ↔ ((i : ℕ) → i < 11
        → IsRegisterWithin (least_of bounds) (registers_of a.now i) (registers_of b.now i)) }
{
    for i in 0..11 {
        if !is_register_within(bounds, register_in(a, i), register_in(b, i)) {
            return false;
        }
    }
    true
}

/// Whether each byte that is set in the second is set in the first.
fn are_bytes_within(a: &[bool; 8], b: &[bool; 8]) -> bool
    ensures { IsTrue result ↔ ((j : ℕ) → j < 8 → mark b.now j ≡ true → mark a.now j ≡ true) }
{
    for j in 0..8 {
        if b[j] && !a[j] {
            return false;
        }
    }
    true
}

fn is_slot_within(bounds: Bounds, a: Slot, b: Slot) -> bool
    ensures { IsTrue result ↔ IsSlotWithin (least_of bounds) (eight_of a) (eight_of b) }
{
    match (a, b) {
        (Slot::Marks(x), Slot::Marks(y)) => are_bytes_within(&x, &y),
        (Slot::Spilled(_), Slot::Marks(_)) => true,
        (Slot::Marks(_), Slot::Spilled(_)) => false,
        (Slot::Spilled(x), Slot::Spilled(y)) => is_known_within(bounds, x, y),
    }
}

fn slot_in(slots: &[Slot; 64], i: usize) -> Slot
    requires { i < 64 }
    ensures { eight_of result ≡ slots_of slots.now i }
{
    slots[i]
}

fn are_slots_within(bounds: Bounds, a: &[Slot; 64], b: &[Slot; 64]) -> bool
    ensures { IsTrue result ↔ ((i : ℕ) → i < 64
        → IsSlotWithin (least_of bounds) (slots_of a.now i) (slots_of b.now i)) }
{
    for i in 0..64 {
        if !is_slot_within(bounds, slot_in(a, i), slot_in(b, i)) {
            return false;
        }
    }
    true
}

fn are_bounds_within(a: Bounds, b: Bounds) -> bool
    ensures { IsTrue result ↔ IsLeastWithin (least_of a) (least_of b) }
{
    b.text <= a.text && b.link <= a.link
}

/// Whether what a state says of registers, stack and regions follows from what the first says.
pub fn is_situation_within(first: &AbsState, second: &AbsState) -> bool
    ensures { IsTrue result ↔ IsSituationWithin (situation_of first.now) (situation_of second.now) }
{
    are_registers_within(first.bounds, &first.registers, &second.registers)
        && are_slots_within(first.bounds, &first.stack, &second.stack)
        && are_bounds_within(first.bounds, second.bounds)
}
