//! What is known of the stack's slots.
ghost use Rattle.std.specs.Prelude.{◌≡◌, ◌≢◌, ℕ, ◌+◌, ◌-◌, ◌*◌, ◌/◌, ◌%◌, ◌^◌, ◌<◌, ◌≤◌, Option, Some, None, true};
ghost use Rattle.std.specs.Prelude.{false, IfSome, IfOk, IsTrue, length, slice_index_or, nat_le, nat_lt, ◌&&◌, ◌||◌};
ghost use Rattle.abstract_state.specs.Lent.{Lengths};
ghost use Rattle.abstract_state.specs.Known.{ContainsKnown};
ghost use Rattle.abstract_state.specs.State.{Bytes, HasByte, HasNumber, ContainsSlot, ContainsStack, slot_at, Spares};
ghost use Rattle.abstract_state.specs.State.{Fills};
ghost use Rattle.abstract_state.specs.Kinds.{IsMarked, JoinsSlot};
ghost use Rattle.abstract_state.specs.Frame.{IsMarkedAt, StoresSlot, StoresSlots, SpillsSlot};
ghost use Rattle.std.specs.Prelude.{option_map, nat_eq};
ghost use Rattle.abstract_state.specs.Addresses.{content_of};
ghost use Rattle.abstract_state.specs.Stacks as rules;
ghost use Rattle.abstract_state.specs.Stacks.{eight_of, slots_of};

use crate::known::Known;
use crate::slot::Slot;

/// Which of a slot's bytes are set for sure; those of a spilled address count as unset.
#[tactic(auto, unfolding(crate::specs::Stacks::marks_of))]
fn marks(slot: Slot) -> [bool; 8]
    ensures contains { (lengths : Lengths) (bytes : Bytes) (i : ℕ) → ContainsSlot slot lengths bytes i
        → ContainsSlot (Slot.Marks result) lengths bytes i }
    ensures marked { (j : ℕ) → j < 8 → IsMarked slot j → slice_index_or result j false ≡ true }
    ensures rule { result ≡ rules.marks_of (eight_of slot) }
{
    match slot {
        Slot::Marks(marks) => marks,
        Slot::Spilled(known) if known.is_number() => all_set(),
        Slot::Spilled(_) => none_set(),
    }
}

fn none_set() -> [bool; 8]
    ensures none { (j : ℕ) → slice_index_or result j false ≡ false }
    ensures rule { result ≡ rules.none_set }
{
    [false; 8]
}

fn all_set() -> [bool; 8]
    ensures all { (j : ℕ) → j < 8 → slice_index_or result j false ≡ true }
    ensures rule { result ≡ rules.all_set }
{
    [true; 8]
}

/// The bytes that are set in both.
#[tactic(auto, unfolding(crate::specs::Stacks::both_set))]
fn both(a: &[bool; 8], b: &[bool; 8]) -> [bool; 8]
    ensures left { (j : ℕ) → j < 8 → slice_index_or result j false ≡ true → slice_index_or a.now j false ≡ true }
    ensures right { (j : ℕ) → j < 8 → slice_index_or result j false ≡ true → slice_index_or b.now j false ≡ true }
    ensures all { (j : ℕ) → j < 8 → slice_index_or a.now j false ≡ true → slice_index_or b.now j false ≡ true
        → slice_index_or result j false ≡ true }
    ensures rule { result ≡ rules.both_set a.now b.now }
{
    let mut marks = *a;
    for j in 0..8 {
        marks[j] = a[j] & b[j];
    }
    marks
}

/// What either slot holds.
#[tactic(auto, unfolding(crate::specs::Stacks::either_eight))]
pub fn join(a: Slot, b: Slot) -> Slot
    ensures left { (lengths : Lengths) (bytes : Bytes) (i : ℕ) → ContainsSlot a lengths bytes i
        → ContainsSlot result lengths bytes i }
    ensures right { (lengths : Lengths) (bytes : Bytes) (i : ℕ) → ContainsSlot b lengths bytes i
        → ContainsSlot result lengths bytes i }
    ensures joins { JoinsSlot a b result }
    ensures rule { eight_of result ≡ rules.either_eight (eight_of a) (eight_of b) }
{
    if let (Slot::Spilled(x), Slot::Spilled(y)) = (a, b) {
        return match x.join(y) {
            Some(known) => Slot::Spilled(known),
            None => Slot::Marks(none_set()),
        };
    }
    let x = marks(a);
    let y = marks(b);
    Slot::Marks(both(&x, &y))
}

/// Takes in what another stack holds.
pub fn join_slots(a: &mut [Slot; 64], b: &[Slot; 64])
    ensures left { (lengths : Lengths) (bytes : Bytes) → ContainsStack a.old lengths bytes
        → ContainsStack a.new lengths bytes }
    ensures right { (lengths : Lengths) (bytes : Bytes) → ContainsStack b.now lengths bytes
        → ContainsStack a.new lengths bytes }
    ensures joins { (i : ℕ) → i < 64 → JoinsSlot (slot_at a.old i) (slot_at b.now i) (slot_at a.new i) }
    ensures rule { (i : ℕ) → i < 64
        → slots_of a.new i ≡ rules.either_eight (slots_of a.old i) (slots_of b.now i) }
{
    for i in 0..64 {
        a[i] = join(a[i], b[i]);
    }
}

/// A slot's marks, with those that a store of `count` bytes at an offset sets.
#[tactic(auto, unfolding(crate::specs::Stacks::marks_stored))]
fn with_store(marks: &[bool; 8], first: usize, offset: usize, count: usize) -> [bool; 8]
    requires first { first ≤ 504 }
    requires offset { offset + count ≤ 512 }
    ensures each { (j : ℕ) → j < 8 → slice_index_or result j false
        ≡ (slice_index_or marks.now j false || (nat_le offset (first + j) && nat_lt (first + j) (offset + count))) }
    ensures rule { result ≡ rules.marks_stored first offset count marks.now }
{
    let mut result = *marks;
    for j in 0..8 {
        result[j] = is_marked(marks, j, first, offset, count);
    }
    result
}

/// Whether a byte is set after the store.
fn is_marked(marks: &[bool; 8], j: usize, first: usize, offset: usize, count: usize) -> bool
    requires j { j < 8 }
    requires first { first ≤ 504 }
    requires offset { offset + count ≤ 512 }
    ensures { result ≡ (slice_index_or marks.now j false
        || (nat_le offset (first + j) && nat_lt (first + j) (offset + count))) }
{
    marks[j] || (offset <= first + j && first + j < offset + count)
}

/// The slot of eight bytes from `first` on after a store of `count` bytes at an offset.
#[tactic(auto, unfolding(crate::specs::Stacks::stored_eight))]
fn rewritten(slot: Slot, first: usize, offset: usize, count: usize) -> Slot
    requires first { first ≤ 504 }
    requires offset { offset + count ≤ 512 }
    ensures stores { (i : ℕ) → first ≡ 8 * i → StoresSlot offset count i slot result }
    ensures contains { (lengths : Lengths) (old new : Bytes) (i : ℕ) → first ≡ 8 * i → ContainsSlot slot lengths old i
        → Spares offset count old new → Fills offset count new → ContainsSlot result lengths new i }
    ensures rule { eight_of result ≡ rules.stored_eight first offset count (eight_of slot) }
{
    if first + 8 <= offset {
        return slot;
    }
    if offset + count <= first {
        return slot;
    }
    let marks = marks(slot);
    Slot::Marks(with_store(&marks, first, offset, count))
}

/// Notes a store of `count` bytes of a number.
pub fn overwrite(slots: &mut [Slot; 64], offset: usize, count: usize)
    requires { offset + count ≤ 512 }
    ensures stores { StoresSlots offset count slots.old slots.new }
    ensures contains { (lengths : Lengths) (old new : Bytes) → ContainsStack slots.old lengths old
        → Spares offset count old new → Fills offset count new → ContainsStack slots.new lengths new }
    ensures rule { (i : ℕ) → i < 64 → slots_of slots.new i ≡ rules.stored offset count (slots_of slots.old) i }
{
    for i in 0..64 {
        slots[i] = rewritten(slots[i], 8 * i, offset, count);
    }
}

/// Notes that all eight bytes of a slot hold a number.
pub fn spill(slots: &mut [Slot; 64], slot: usize, known: Known)
    requires { slot < 64 }
    ensures spills { SpillsSlot slot known slots.old slots.new }
    ensures contains { (lengths : Lengths) (old new : Bytes) (n : ℕ) → ContainsStack slots.old lengths old
        → ContainsKnown known lengths n → HasNumber new (8 * slot) n → Spares (8 * slot) 8 old new
        → ContainsStack slots.new lengths new }
    ensures rule { (i : ℕ) → slots_of slots.new i ≡ rules.spilled slot (content_of known) (slots_of slots.old) i }
{
    slots[slot] = Slot::Spilled(known);
}

/// What was spilled into a slot.
pub fn filled(slots: &[Slot; 64], slot: usize) -> Option<Known>
    requires { slot < 64 }
    ensures there { (known : Known) → slot_at slots.now slot ≡ Slot.Spilled known → result ≡ Some known }
    ensures spilled { IfSome result (λ k. slot_at slots.now slot ≡ Slot.Spilled k) }
    ensures contains { IfSome result (λ k. (lengths : Lengths) (bytes : Bytes) → ContainsStack slots.now lengths bytes
        → (n : ℕ) × ContainsKnown k lengths n × HasNumber bytes (8 * slot) n) }
    ensures rule { option_map content_of result ≡ rules.whole_in (slots_of slots.now slot) }
{
    match slots[slot] {
        Slot::Spilled(known) => Some(known),
        Slot::Marks(_) => None,
    }
}

/// Whether a byte is set for sure.
#[tactic(auto, unfolding(crate::specs::Stacks::is_set))]
fn is_set(slots: &[Slot; 64], offset: usize) -> bool
    requires { offset < 512 }
    ensures marked { IsMarkedAt slots.now offset → IsTrue result }
    ensures contains { IsTrue result → (lengths : Lengths) (bytes : Bytes) → ContainsStack slots.now lengths bytes
        → HasByte bytes offset }
    ensures rule { result ≡ rules.is_set (slots_of slots.now) offset }
{
    let marks = marks(slots[offset / 8]);
    marks[offset % 8]
}

/// Whether the `count` bytes from an offset on are set for sure.
pub fn are_set(slots: &[Slot; 64], offset: usize, count: usize) -> bool
    requires { offset + count ≤ 512 }
    ensures marked { ((j : ℕ) → j < count → IsMarkedAt slots.now (offset + j)) → IsTrue result }
    ensures contains { IsTrue result → (lengths : Lengths) (bytes : Bytes) → ContainsStack slots.now lengths bytes
        → (j : ℕ) → j < count → HasByte bytes (offset + j) }
    ensures rule { result ≡ rules.are_set (slots_of slots.now) offset count }
{
    for j in 0..count {
        if !is_set(slots, offset + j) {
            return false;
        }
    }
    true
}
