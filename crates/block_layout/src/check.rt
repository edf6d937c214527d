//! Whether a program does at other slots what another one does.
ghost use Rattle.std.specs.Prelude.{◌≡◌, ◌<◌, ◌^◌, ◌+◌, ℕ, ℤ, true, length, slice_index, Some, IsTrue};
ghost use Rattle.bpf_words.specs.Words.{program_of};
ghost use Rattle.bpf_words.specs.Flow.{falls_through, jump_of, slots_of};
ghost use Rattle.block_layout.specs.Meaning.{MeansSame, IsForward};
ghost use Rattle.block_layout.specs.Kept.{aimed, IsAimed, LeadsTo, Arrives, BothJump, IsMoved, IsDropped, IsKept};
ghost use Rattle.block_layout.specs.Kept.{KeepsAll};

use crate::structure::first_back;
use crate::ways::{falls, target};
use bpf_words::encoding::encode;
use bpf_words::instruction::Insn;
use bpf_words::words::Words;

/// Where the old slots went in a new program, and how high they stand: lower than all that lead to them, and 0 where
/// no run comes.
#[derive(Clone, Copy)]
pub(crate) struct Places<'a> {
    pub(crate) slots: &'a [usize],
    pub(crate) heights: &'a [usize],
}

/// An instruction with another distance, if it is a comparison.
pub(crate) fn aimed(insn: Insn, onward: i16) -> Insn
    ensures { result ≡ aimed insn onward }
{
    match insn {
        Insn::Branch {
            width,
            comparison,
            left,
            right,
            ..
        } => Insn::Branch {
            width,
            comparison,
            left,
            right,
            distance: onward,
        },
        _ => insn,
    }
}

/// Whether two instructions are the same, as their bytes are.
fn is_same(a: Insn, b: Insn) -> bool
    ensures { IsTrue result → a ≡ b }
{
    let a = encode(a);
    let b = encode(b);
    a.bytes() == b.bytes()
}

/// How far a comparison jumps.
fn branch_distance(insn: &Insn) -> i16 {
    match insn {
        Insn::Branch { distance, .. } => *distance,
        _ => 0,
    }
}

/// Whether an instruction is another but for the distance of a comparison.
fn is_aimed(insn: Insn, moved: Insn) -> bool
    ensures { IsTrue result → IsAimed insn moved }
{
    let onward = branch_distance(&moved);
    is_same(moved, aimed(insn, onward))
}

/// Whether a run that comes to the one slot comes to the other, at once or by a jump.
fn leads_to(new: &Words<'_>, from: usize, to: usize) -> bool
    ensures { IsTrue result → LeadsTo (program_of new.now) from to }
{
    let count = new.len();
    if to >= count {
        return false;
    }
    if from == to {
        return true;
    }
    if from >= count {
        return false;
    }
    match new.insn(from) {
        Some(Insn::Jump { distance }) => target(from, i32::from(distance)) == Some(to),
        _ => false,
    }
}

fn arrives(new: &Words<'_>, places: &Places<'_>, from: usize, to: usize, next: usize) -> bool
    requires within { from < length places.now.heights.now }
    requires same { length places.now.slots.now ≡ length places.now.heights.now }
    ensures { IsTrue result
        → Arrives (program_of new.now) places.now.slots.now places.now.heights.now from to next }
{
    to < places.heights.len()
        && places.heights[to] > 0
        && places.heights[to] < places.heights[from]
        && leads_to(new, next, places.slots[to])
}

/// Whether the jump of an old slot may be left out at its place.
fn is_dropped(new: &Words<'_>, places: &Places<'_>, slot: usize, insn: &Insn) -> bool
    requires small { slot < 2 ^ 32 }
    requires within { slot < length places.now.heights.now }
    requires same { length places.now.slots.now ≡ length places.now.heights.now }
    ensures { IsTrue result
        → IsDropped (program_of new.now) places.now.slots.now places.now.heights.now slot insn.now }
{
    let here = places.slots[slot];
    if falls(insn) {
        return false;
    }
    let Some(distance) = insn.distance() else {
        return false;
    };
    match target(slot, distance) {
        Some(to) => arrives(new, places, slot, to, here),
        None => false,
    }
}

/// Whether the instruction behind an old one follows it in the new program, if runs go on there.
fn falls_on(new: &Words<'_>, places: &Places<'_>, slot: usize, insn: &Insn) -> bool
    requires small { slot < 2 ^ 32 }
    requires within { slot < length places.now.heights.now }
    requires same { length places.now.slots.now ≡ length places.now.heights.now }
    requires place { slice_index places.now.slots.now slot < 2 ^ 32 }
    ensures { IsTrue result → falls_through insn.now ≡ true
        → Arrives (program_of new.now) places.now.slots.now places.now.heights.now slot (slot + slots_of insn.now)
        (slice_index places.now.slots.now slot + slots_of insn.now) }
{
    let here = places.slots[slot];
    let slots = insn.slots();
    !falls(insn) || arrives(new, places, slot, slot + slots, here + slots)
}

/// Whether the jump of an old slot, if it is one, leads in the new program to where it led.
fn jumps_on(new: &Words<'_>, places: &Places<'_>, slot: usize, insn: &Insn, moved: &Insn) -> bool
    requires small { slot < 2 ^ 32 }
    requires within { slot < length places.now.heights.now }
    requires same { length places.now.slots.now ≡ length places.now.heights.now }
    requires place { slice_index places.now.slots.now slot < 2 ^ 32 }
    ensures { IsTrue result → (distance onward : ℤ) → jump_of insn.now ≡ Some distance
        → jump_of moved.now ≡ Some onward
        → BothJump (program_of new.now) places.now.slots.now places.now.heights.now slot distance onward }
{
    let here = places.slots[slot];
    let (Some(distance), Some(onward)) = (insn.distance(), moved.distance()) else {
        return true;
    };
    match (target(slot, distance), target(here, onward)) {
        (Some(to), Some(next)) => arrives(new, places, slot, to, next),
        _ => false,
    }
}

/// Whether an old instruction stands at its place, and goes on there as it did.
fn is_moved(new: &Words<'_>, places: &Places<'_>, slot: usize, insn: Insn) -> bool
    requires small { slot < 2 ^ 32 }
    requires within { slot < length places.now.heights.now }
    requires same { length places.now.slots.now ≡ length places.now.heights.now }
    ensures { IsTrue result
        → IsMoved (program_of new.now) places.now.slots.now places.now.heights.now slot insn }
{
    let here = places.slots[slot];
    if here >= new.len() {
        return false;
    }
    match new.insn(here) {
        Some(moved) => {
            is_aimed(insn, moved)
                && falls_on(new, places, slot, &insn)
                && jumps_on(new, places, slot, &insn, &moved)
        }
        None => false,
    }
}

/// Whether what an old slot does is done at its place, if it has a height.
fn is_kept(old: &Words<'_>, new: &Words<'_>, places: &Places<'_>, slot: usize) -> bool
    requires slot { slot < length (program_of old.now) }
    requires within { slot < length places.now.heights.now }
    requires same { length places.now.slots.now ≡ length places.now.heights.now }
    ensures { IsTrue result → 0 < slice_index places.now.heights.now slot
        → IsKept (program_of old.now) (program_of new.now) places.now.slots.now places.now.heights.now slot }
{
    let count = old.len();
    prove!(slot < count && count <= 4096);
    if places.heights[slot] == 0 {
        return true;
    }
    match old.insn(slot) {
        Some(insn) => is_dropped(new, places, slot, &insn) || is_moved(new, places, slot, insn),
        None => false,
    }
}

fn are_kept(old: &Words<'_>, new: &Words<'_>, places: &Places<'_>) -> bool
    requires long { length places.now.heights.now ≡ length (program_of old.now) }
    requires same { length places.now.slots.now ≡ length places.now.heights.now }
    ensures { IsTrue result → (slot : ℕ) → 0 < slice_index places.now.heights.now slot
        → IsKept (program_of old.now) (program_of new.now) places.now.slots.now places.now.heights.now slot }
{
    for slot in 0..old.len() {
        if !is_kept(old, new, places, slot) {
            return false;
        }
    }
    true
}

/// Whether each old slot that has a height is kept, runs begin where the first one went, and no jump leads back.
fn keeps_all(old: &Words<'_>, new: &Words<'_>, places: &Places<'_>) -> bool
    ensures { IsTrue result
        → KeepsAll (program_of old.now) (program_of new.now) places.now.slots.now places.now.heights.now }
{
    let count = old.len();
    if places.slots.len() != count || places.heights.len() != count {
        return false;
    }
    let height = places.heights[0];
    if height == 0 || height > count {
        return false;
    }
    leads_to(new, 0, places.slots[0]) && are_kept(old, new, places) && first_back(new).is_none()
}

/// Whether it is sure that a program means the same as an old one, whose slots went to those places.
pub(crate) fn means_same(old: &Words<'_>, new: &Words<'_>, places: &Places<'_>) -> bool
    ensures same { IsTrue result → MeansSame (program_of old.now) (program_of new.now) }
    ensures forward { IsTrue result → IsForward (program_of new.now) }
{
    keeps_all(old, new, places)
}
