//! Loads and stores.
ghost use Rattle.std.specs.Prelude.{◌≡◌, ◌≢◌, IfErr, ℕ, ◌+◌, ◌-◌, ◌*◌, ◌/◌, ◌%◌, ◌^◌, ◌<◌, ◌≤◌, Option, Some, Ok};
ghost use Rattle.std.specs.Prelude.{IfSome, IfOk, IsOk, IsTrue, ◌↔◌, true, List, length, drop};
ghost use Rattle.byteorder.specs.Endian.{little_number};
ghost use Rattle.semantics.specs.State.{State};
ghost use Rattle.semantics.specs.Memory.{address_of, bytes_in, bytes_in_signed, load as load_of, store as store_of};
ghost use Rattle.abstract_state.specs.Lent.{Lengths, base_of, length_of, limit_of, bound_of, begin_field, end_field};
ghost use Rattle.abstract_state.specs.Lent.{Lends};
ghost use Rattle.abstract_state.specs.declared.region.Region.{Region as TheRegion};
ghost use Rattle.abstract_state.specs.declared.region.Region.TheVariants.{Text, Link};
ghost use Rattle.abstract_state.specs.Quantity.{Contains as ContainsNumber, Within as WithinNumber};
ghost use Rattle.abstract_state.specs.Known.{ContainsKnown, WithinKnown, IsNumber, AreNumbers};
ghost use Rattle.abstract_state.specs.Kinds.{IsNumberField, IsContextAt};
ghost use Rattle.abstract_state.specs.Exact.{IsLentIn};
ghost use Rattle.abstract_state.specs.Frame.{IsStackByte, AreMarked, StoresSlots, SpillsSlot};
ghost use Rattle.abstract_state.specs.declared.slot.Slot.{Slot};
ghost use Rattle.abstract_state.specs.declared.state.AbsReg.TheVariants as TheRegs;
ghost use Rattle.span_context.specs.ContextField.{offset_of, size_of};
ghost use Rattle.span_context.specs.Context.{context_base};
ghost use Rattle.span_context.specs.Profile.{context_length, lends_link};
ghost use Rattle.abstract_state.specs.State.{Span, lengths_of, IsLong, Contains, LoadsAs, LoadsIn, StoresAs, slot_at};
ghost use Rattle.std.specs.Prelude.{option_map};
ghost use Rattle.abstract_state.specs.Estimate.{estimate_of};
ghost use Rattle.abstract_state.specs.Addresses.{content_of, answer_of};
ghost use Rattle.abstract_state.specs.Stacks.{Slots, slots_of};
ghost use Rattle.abstract_state.specs.Situation.{Least, least_of, least_at};
ghost use Rattle.abstract_state.specs.Loading as rules;

use crate::address::{ContextAddress, LentAddress, StackAddress};
use crate::bounds::Bounds;
use crate::known::{Known, lent, number};
use crate::quantity::Quantity;
use crate::refusal::Refusal;
use crate::region::Region;
use crate::stack::{are_set, filled, overwrite, spill};
use crate::state::AbsState;
use bpf_words::instruction::SignedSize;
use semantics::sizes::{count, count_signed};
use span_context::context::STACK_BYTES;
use span_context::context_field::ContextField;
use span_context::profile::Profile;
use span_context::size::Size;

/// The sum of `start` and an offset modulo 2^64, where it isn't below 0.
#[tactic(auto, unfolding(crate::specs::Loading::place))]
fn moved(start: u64, offset: u64) -> Option<u64>
    requires { start ≤ 2 ^ 20 }
    ensures small { IfSome result (λ a. a ≤ start + 2 ^ 16) }
    ensures at { IfSome result (λ a. (base x : ℕ) → start ≤ x → base + x < 2 ^ 63
        → (base + x + offset) % 2 ^ 64 ≡ base + (a + (x - start))) }
    ensures there { offset ≤ 2 ^ 16 → result ≡ Some (start + offset) }
    ensures near { (a : ℕ) → (start + offset) % 2 ^ 64 ≡ a → a ≤ 2 ^ 16 → result ≡ Some a }
    ensures rule { result ≡ rules.place start offset }
{
    let sum = start.wrapping_add(offset);
    if sum > start + 65_536 {
        return None;
    }
    Some(sum)
}

/// The numbers that the bytes of a size make.
fn loaded(size: Size) -> Quantity
    ensures contains { (lengths : Lengths) (v : ℕ) → v < 256 ^ bytes_in size → ContainsNumber result lengths v }
    ensures rule { estimate_of result ≡ rules.any_of size }
{
    match size {
        Size::Byte => Quantity::up_to(0xff),
        Size::Half => Quantity::up_to(0xffff),
        Size::Word => Quantity::up_to(0xffff_ffff),
        Size::Double => Quantity::up_to(u64::MAX),
    }
}

/// What a field of the first 56 bytes of the context holds, where nothing is known of the link.
#[tactic(auto, unfolding(crate::specs::Loading::text_field))]
fn text_field(field: ContextField) -> Result<Option<Known>, Refusal>
    ensures within { IfOk result (λ _. offset_of field + bytes_in (size_of field) ≤ 56) }
    ensures sound { IfOk result (λ o. (span : Span)
        → WithinKnown o (lengths_of span)
        (little_number (bytes_in (size_of field)) (drop (offset_of field) span.bytes.context))) }
    ensures begin { offset_of field ≡ 0 → IsOk result
        × IfOk result (λ o. IfSome o (λ k. IsLentIn Text 0 0 (Some 0) k)) }
    ensures end { offset_of field ≡ 8 → IsOk result
        × IfOk result (λ o. IfSome o (λ k. IsLentIn Text 0 131072 (Some 0) k)) }
    ensures floor { IsNumberField (size_of field) (offset_of field) → IsOk result }
    ensures numbers { IsNumberField (size_of field) (offset_of field) → IfOk result (λ o. AreNumbers o) }
    ensures not_unset { IfErr result (λ e. e ≢ Refusal.UnsetRegister) }
    ensures rule { answer_of (option_map content_of) result ≡ rules.text_field field }
{
    match field {
        ContextField::Text => Ok(Some(Known::Lent(LentAddress {
            region: Region::Text,
            offset: Quantity::begin(Region::Text),
        }))),
        ContextField::End => lent(Region::Text, Quantity::up_to_end(Region::Text, u64::MAX)),
        ContextField::Length => Ok(number(Quantity::up_to_end(Region::Text, 0xffff_ffff))),
        ContextField::Link | ContextField::LinkEnd => Err(Refusal::ContextField),
        ContextField::Characters
        | ContextField::Flags
        | ContextField::Color
        | ContextField::LinkLength
        | ContextField::Comments
        | ContextField::Index
        | ContextField::Count
        | ContextField::Version => Ok(Some(Known::Number(loaded(field.size())))),
    }
}

/// What a field of the whole context holds.
#[tactic(auto, unfolding(crate::specs::Loading::link_field))]
fn link_field(field: ContextField) -> Result<Option<Known>, Refusal>
    ensures within { IfOk result (λ _. offset_of field + bytes_in (size_of field) ≤ 72) }
    ensures sound { IfOk result (λ o. (span : Span) → lends_link span.profile ≡ true
        → WithinKnown o (lengths_of span)
        (little_number (bytes_in (size_of field)) (drop (offset_of field) span.bytes.context))) }
    ensures begin { offset_of field ≡ 0 → IsOk result
        × IfOk result (λ o. IfSome o (λ k. IsLentIn Text 0 0 (Some 0) k)) }
    ensures end { offset_of field ≡ 8 → IsOk result
        × IfOk result (λ o. IfSome o (λ k. IsLentIn Text 0 131072 (Some 0) k)) }
    ensures link_begin { offset_of field ≡ 56
        → IsOk result × IfOk result (λ o. IfSome o (λ k. IsLentIn Link 0 0 (Some 0) k)) }
    ensures link_end { offset_of field ≡ 64
        → IsOk result × IfOk result (λ o. IfSome o (λ k. IsLentIn Link 0 1024 (Some 0) k)) }
    ensures floor { IsNumberField (size_of field) (offset_of field) → IsOk result }
    ensures numbers { IsNumberField (size_of field) (offset_of field) → IfOk result (λ o. AreNumbers o) }
    ensures not_unset { IfErr result (λ e. e ≢ Refusal.UnsetRegister) }
    ensures rule { answer_of (option_map content_of) result ≡ rules.link_field field }
{
    match field {
        ContextField::Link => Ok(Some(Known::Lent(LentAddress {
            region: Region::Link,
            offset: Quantity::begin(Region::Link),
        }))),
        ContextField::LinkEnd => lent(Region::Link, Quantity::up_to_end(Region::Link, u64::MAX)),
        ContextField::LinkLength => Ok(number(Quantity::up_to_end(Region::Link, 0xffff_ffff))),
        _ => text_field(field),
    }
}

/// What a field holds that a program of the profile may read.
#[tactic(auto, unfolding(crate::specs::Loading::lent_field))]
fn lent_field(profile: Profile, field: ContextField) -> Result<Option<Known>, Refusal>
    ensures within { IfOk result (λ _. offset_of field + bytes_in (size_of field) ≤ context_length profile) }
    ensures sound { IfOk result (λ o. (span : Span) → span.profile ≡ profile
        → WithinKnown o (lengths_of span)
        (little_number (bytes_in (size_of field)) (drop (offset_of field) span.bytes.context))) }
    ensures begin { (at : TheRegion) → Lends at profile → offset_of field ≡ begin_field at
        → IsOk result × IfOk result (λ o. IfSome o (λ k. IsLentIn at 0 0 (Some 0) k)) }
    ensures end { (at : TheRegion) → Lends at profile → offset_of field ≡ end_field at
        → IsOk result × IfOk result (λ o. IfSome o (λ k. IsLentIn at 0 (limit_of at) (Some 0) k)) }
    ensures floor { IsNumberField (size_of field) (offset_of field) → IsOk result }
    ensures numbers { IsNumberField (size_of field) (offset_of field) → IfOk result (λ o. AreNumbers o) }
    ensures not_unset { IfErr result (λ e. e ≢ Refusal.UnsetRegister) }
    ensures rule { answer_of (option_map content_of) result ≡ rules.lent_field profile field }
{
    if profile.lends_link() {
        link_field(field)
    } else {
        text_field(field)
    }
}

/// Whether `count` bytes of the context lie in one of its numbers: of four bytes each, and behind them the version.
#[tactic(auto, unfolding(crate::specs::Loading::in_number))]
fn in_number(offset: u64, count: usize) -> bool
    requires count { count ≤ 8 }
    requires offset { offset ≤ 2 ^ 17 }
    ensures within { IsTrue result → offset + count ≤ 56 }
    ensures behind { IsTrue result → 16 ≤ offset }
    ensures rule { result ≡ rules.in_number offset count }
{
    if offset < 48 {
        return 16 <= offset && offset % 4 + count as u64 <= 4;
    }
    offset + count as u64 <= 56
}

/// Checks that `count` bytes of the context are part of a number, which the first two profiles refuse.
#[tactic(auto, unfolding(crate::specs::Loading::part_of_number))]
fn part_of_number(profile: Profile, offset: u64, count: usize) -> Result<(), Refusal>
    requires count { count ≤ 8 }
    requires offset { offset ≤ 2 ^ 17 }
    ensures within { IfOk result (λ _. offset + count ≤ context_length profile) }
    ensures not_unset { IfErr result (λ e. e ≢ Refusal.UnsetRegister) }
    ensures rule { result ≡ rules.part_of_number profile offset count }
{
    if profile.has_more_rules() && in_number(offset, count) {
        return Ok(());
    }
    Err(Refusal::ContextField)
}

/// What the context holds at an offset where no field of that size begins.
#[tactic(auto, unfolding(crate::specs::Loading::part_at))]
fn part(profile: Profile, offset: u64, size: Size) -> Result<Option<Known>, Refusal>
    requires { offset ≤ 2 ^ 17 }
    ensures within { IfOk result (λ _. offset + bytes_in size ≤ context_length profile) }
    ensures sound { IfOk result (λ o. (span : Span)
        → WithinKnown o (lengths_of span) (little_number (bytes_in size) (drop offset span.bytes.context))) }
    ensures numbers { IfOk result (λ o. AreNumbers o) }
    ensures not_unset { IfErr result (λ e. e ≢ Refusal.UnsetRegister) }
    ensures rule { answer_of (option_map content_of) result ≡ rules.part_at profile offset size }
{
    part_of_number(profile, offset, count(size))?;
    Ok(Some(Known::Number(loaded(size))))
}

/// What the context holds at an offset: a field of that size that a program of the profile may read, or part of one.
#[tactic(auto, unfolding(crate::specs::Loading::context_at))]
fn field(profile: Profile, offset: u64, size: Size) -> Result<Option<Known>, Refusal>
    requires { offset ≤ 2 ^ 17 }
    ensures within { IfOk result (λ _. offset + bytes_in size ≤ context_length profile) }
    ensures sound { IfOk result (λ o. (span : Span) → span.profile ≡ profile
        → WithinKnown o (lengths_of span) (little_number (bytes_in size) (drop offset span.bytes.context))) }
    ensures begin { (at : TheRegion) → Lends at profile → size ≡ Size.Double → offset ≡ begin_field at
        → IsOk result × IfOk result (λ o. IfSome o (λ k. IsLentIn at 0 0 (Some 0) k)) }
    ensures end { (at : TheRegion) → Lends at profile → size ≡ Size.Double → offset ≡ end_field at
        → IsOk result × IfOk result (λ o. IfSome o (λ k. IsLentIn at 0 (limit_of at) (Some 0) k)) }
    ensures floor { IsNumberField size offset → IsOk result }
    ensures numbers { IsNumberField size offset → IfOk result (λ o. AreNumbers o) }
    ensures not_unset { IfErr result (λ e. e ≢ Refusal.UnsetRegister) }
    ensures rule { answer_of (option_map content_of) result ≡ rules.context_at profile offset size }
{
    match ContextField::at(offset, size) {
        Some(field) => lent_field(profile, field),
        None => part(profile, offset, size),
    }
}

/// Checks that `count` bytes at an offset from an address in the context are part of a number.
#[tactic(auto, unfolding(crate::specs::Loading::readable))]
fn part_of_context(
    profile: Profile,
    address: ContextAddress,
    offset: u64,
    count: usize,
) -> Result<(), Refusal>
    requires { count ≤ 8 }
    ensures sound { IfOk result (λ _. (span : Span) (n : ℕ) → span.profile ≡ profile
        → ContainsKnown (Known.Context address) (lengths_of span) n
        → (p : ℕ) × ((n + offset) % 2 ^ 64 ≡ context_base + p) × (p + count ≤ context_length profile)) }
    ensures not_unset { IfErr result (λ e. e ≢ Refusal.UnsetRegister) }
    ensures rule { (slots : Slots) (least : Least) → result
        ≡ rules.readable profile slots least (content_of (Known.Context address)) offset count }
{
    let Some(p) = moved(address.offset, offset) else {
        return Err(Refusal::ContextField);
    };
    part_of_number(profile, p, count)
}

/// Whether `count` bytes at an offset from an address in a lent region lie in it.
#[tactic(auto, unfolding(crate::specs::Loading::reaches))]
fn reaches(bounds: Bounds, address: LentAddress, offset: u64, count: usize) -> bool
    requires { count ≤ 8 }
    ensures sound { IsTrue result → (lengths : Lengths) (x : ℕ) → IsLong bounds lengths
        → ContainsNumber address.offset lengths x
        → (a : ℕ) × ((base_of address.region + x + offset) % 2 ^ 64 ≡ base_of address.region + a)
        × (a + count ≤ length_of lengths address.region) }
    ensures floor { offset ≤ 2 ^ 15 → (at : TheRegion) (bound : ℕ) → address.region ≡ at → bound_of bounds at ≡ bound
        → address.offset.range.high + offset + count ≤ bound → IsTrue result }
    ensures rule { result
        ≡ rules.reaches (least_at (least_of bounds) address.region) address.region (estimate_of address.offset) offset
        count }
{
    let range = address.offset.range;
    let Some(least) = moved(range.low, offset) else {
        return false;
    };
    let end = least + count as u64;
    if end + (range.high - range.low) <= bounds.of(address.region) {
        return true;
    }
    let Some(tail) = address.offset.tails.of(address.region) else {
        return false;
    };
    if end <= range.low.saturating_add(u64::from(tail)) {
        return true;
    }
    false
}

/// The offset in the stack of `count` bytes at an offset from an address.
#[tactic(auto, unfolding(crate::specs::Loading::stack_place))]
fn offset_in_stack(address: StackAddress, offset: u64, count: usize) -> Result<usize, Refusal>
    requires { count ≤ 8 }
    ensures within { IfOk result (λ p. p + count ≤ 512) }
    ensures at { IfOk result (λ p. (base : ℕ) → base < 2 ^ 62 → (base + address.offset + offset) % 2 ^ 64 ≡ base + p) }
    ensures floor { (p : ℕ) → (address.offset + offset) % 2 ^ 64 ≡ p → p + count ≤ 512 → result ≡ Ok p }
    ensures not_unset { IfErr result (λ e. e ≢ Refusal.UnsetRegister) }
    ensures rule { result ≡ rules.stack_place address.offset offset count }
{
    let Some(p) = moved(address.offset, offset) else {
        return Err(Refusal::StackBounds);
    };
    if p + count as u64 > STACK_BYTES as u64 {
        return Err(Refusal::StackBounds);
    }
    Ok(p as usize)
}

impl AbsState {
    /// Checks that `count` bytes can be loaded as a number.
    #[tactic(auto, unfolding(crate::specs::Loading::readable))]
    fn bytes(&self, profile: Profile, base: Known, offset: u64, count: usize) -> Result<(), Refusal>
        requires { count ≤ 8 }
        ensures sound { IfOk result (λ _. LoadsIn profile self.now base offset count
            (λ lengths v. v < 256 ^ count)) }
        ensures lent { (at : TheRegion) (p : LentAddress) → base ≡ Known.Lent p → p.region ≡ at → offset ≤ 2 ^ 15
            → p.offset.range.high + offset + count ≤ bound_of self.now.bounds at → IsOk result }
        ensures stack { (p : ℕ) → IsStackByte p offset (TheRegs.Set base) → AreMarked self.now.stack p count
            → IsOk result }
        ensures not_unset { IfErr result (λ e. e ≢ Refusal.UnsetRegister) }
        ensures rule { result
            ≡ rules.readable profile (slots_of self.now.stack) (least_of self.now.bounds) (content_of base) offset
            count }
    {
        match base {
            Known::Number(_) => Err(Refusal::NotAnAddress),
            Known::Context(address) => part_of_context(profile, address, offset, count),
            Known::Lent(address) => {
                if reaches(self.bounds, address, offset, count) {
                    Ok(())
                } else {
                    Err(Refusal::TextBounds)
                }
            }
            Known::Stack(address) => {
                let p = offset_in_stack(address, offset, count)?;
                if are_set(&self.stack, p, count) {
                    Ok(())
                } else {
                    Err(Refusal::StackUnset)
                }
            }
        }
    }

    /// What a load of a field gives.
    #[tactic(auto, unfolding(crate::specs::Loading::context_field))]
    fn field(
        &self,
        profile: Profile,
        address: ContextAddress,
        offset: u64,
        size: Size,
    ) -> Result<Option<Known>, Refusal>
        ensures sound { IfOk result (λ o. LoadsIn profile self.now (Known.Context address) offset (bytes_in size)
            (λ lengths v. WithinKnown o lengths v)) }
        ensures begin { (at : TheRegion) → Lends at profile → address.offset ≡ 0 → size ≡ Size.Double → offset ≤ 64
            → offset ≡ begin_field at → IsOk result × IfOk result (λ o. IfSome o (λ k. IsLentIn at 0 0 (Some 0) k)) }
        ensures end { (at : TheRegion) → Lends at profile → address.offset ≡ 0 → size ≡ Size.Double → offset ≤ 64
            → offset ≡ end_field at
            → IsOk result × IfOk result (λ o. IfSome o (λ k. IsLentIn at 0 (limit_of at) (Some 0) k)) }
        ensures floor { address.offset ≡ 0 → IsNumberField size offset → IsOk result }
        ensures numbers { address.offset ≡ 0 → IsNumberField size offset → IfOk result (λ o. AreNumbers o) }
        ensures not_unset { IfErr result (λ e. e ≢ Refusal.UnsetRegister) }
        ensures rule { answer_of (option_map content_of) result
            ≡ rules.context_field profile address.offset offset size }
    {
        let Some(p) = moved(address.offset, offset) else {
            return Err(Refusal::ContextField);
        };
        let known = field(profile, p, size)?;
        Ok(known)
    }

    /// What was spilled at an address, where a load takes all of it.
    #[tactic(auto, unfolding(crate::specs::Loading::filled))]
    fn fill(&self, base: Known, offset: u64, size: Size) -> Option<Known>
        ensures sound { IfSome result (λ k. LoadsAs self.now base offset (bytes_in size)
            (λ lengths v. ContainsKnown k lengths v)) }
        ensures stack_alone { IfSome result (λ _. (p : LentAddress) → base ≡ Known.Lent p → ⊥) }
        ensures spilled { (i : ℕ) (known : Known) → IsStackByte (8 * i) offset (TheRegs.Set base) → i < 64
            → size ≡ Size.Double → slot_at self.now.stack i ≡ Slot.Spilled known → result ≡ Some known }
        ensures marked { (p : ℕ) → IsStackByte p offset (TheRegs.Set base)
            → AreMarked self.now.stack p (bytes_in size) → AreNumbers result }
        ensures rule { option_map content_of result
            ≡ rules.filled (slots_of self.now.stack) (content_of base) offset size }
    {
        let (Known::Stack(address), Size::Double) = (base, size) else {
            return None;
        };
        let Ok(p) = offset_in_stack(address, offset, 8) else {
            return None;
        };
        if p % 8 != 0 {
            return None;
        }
        filled(&self.stack, p / 8)
    }

    /// What a load gives.
    #[tactic(auto, unfolding(crate::specs::Loading::loaded))]
    pub fn load(
        &self,
        profile: Profile,
        base: Known,
        offset: u64,
        size: Size,
    ) -> Result<Option<Known>, Refusal>
        ensures sound { IfOk result (λ o. LoadsIn profile self.now base offset (bytes_in size)
            (λ lengths v. WithinKnown o lengths v)) }
        ensures begin { (at : TheRegion) → Lends at profile → IsContextAt 0 (TheRegs.Set base) → size ≡ Size.Double
            → offset ≤ 64 → offset ≡ begin_field at
            → IsOk result × IfOk result (λ o. IfSome o (λ k. IsLentIn at 0 0 (Some 0) k)) }
        ensures end { (at : TheRegion) → Lends at profile → IsContextAt 0 (TheRegs.Set base) → size ≡ Size.Double
            → offset ≤ 64 → offset ≡ end_field at
            → IsOk result × IfOk result (λ o. IfSome o (λ k. IsLentIn at 0 (limit_of at) (Some 0) k)) }
        ensures floor { IsContextAt 0 (TheRegs.Set base) → IsNumberField size offset → IsOk result }
        ensures numbers { IsContextAt 0 (TheRegs.Set base) → IsNumberField size offset
            → IfOk result (λ o. AreNumbers o) }
        ensures lent { (at : TheRegion) (p : LentAddress) → base ≡ Known.Lent p → p.region ≡ at → offset ≤ 2 ^ 15
            → p.offset.range.high + offset + bytes_in size ≤ bound_of self.now.bounds at → IsOk result }
        ensures lent_numbers { (p : LentAddress) → base ≡ Known.Lent p → IfOk result (λ o. AreNumbers o) }
        ensures spilled { (i : ℕ) (known : Known) → IsStackByte (8 * i) offset (TheRegs.Set base) → i < 64
            → size ≡ Size.Double → slot_at self.now.stack i ≡ Slot.Spilled known → result ≡ Ok (Some known) }
        ensures marked { (p : ℕ) → IsStackByte p offset (TheRegs.Set base)
            → AreMarked self.now.stack p (bytes_in size) → IsOk result × IfOk result (λ o. AreNumbers o) }
        ensures not_unset { IfErr result (λ e. e ≢ Refusal.UnsetRegister) }
        ensures rule { answer_of (option_map content_of) result
            ≡ rules.loaded profile (slots_of self.now.stack) (least_of self.now.bounds) (content_of base) offset size }
    {
        if let Known::Context(address) = base {
            return self.field(profile, address, offset, size);
        }
        if let Some(known) = self.fill(base, offset, size) {
            return Ok(Some(known));
        }
        self.bytes(profile, base, offset, count(size))?;
        Ok(Some(Known::Number(loaded(size))))
    }

    /// Checks that a sign-extending load finds its bytes.
    pub fn load_signed(
        &self,
        profile: Profile,
        base: Known,
        offset: u64,
        size: SignedSize,
    ) -> Result<(), Refusal>
        ensures sound { IfOk result (λ _. LoadsIn profile self.now base offset (bytes_in_signed size)
            (λ lengths v. v < 256 ^ bytes_in_signed size)) }
        ensures lent { (at : TheRegion) (p : LentAddress) → base ≡ Known.Lent p → p.region ≡ at → offset ≤ 2 ^ 15
            → p.offset.range.high + offset + bytes_in_signed size ≤ bound_of self.now.bounds at → IsOk result }
        ensures marked { (p : ℕ) → IsStackByte p offset (TheRegs.Set base)
            → AreMarked self.now.stack p (bytes_in_signed size) → IsOk result }
        ensures not_unset { IfErr result (λ e. e ≢ Refusal.UnsetRegister) }
        ensures rule { result
            ≡ rules.readable profile (slots_of self.now.stack) (least_of self.now.bounds) (content_of base) offset
            (bytes_in_signed size) }
    {
        self.bytes(profile, base, offset, count_signed(size))
    }

    /// Stores a number.
    #[tactic(auto, unfolding(crate::specs::Loading::written))]
    pub fn store(
        &mut self,
        base: Known,
        offset: u64,
        size: Size,
        value: Known,
    ) -> Result<(), Refusal>
        ensures sound { IfOk result (λ _. StoresAs self.old base offset (bytes_in size) value self.new) }
        ensures registers { self.new.registers ≡ self.old.registers }
        ensures bounds { self.new.bounds ≡ self.old.bounds }
        ensures stores { (p : ℕ) → IsStackByte p offset (TheRegs.Set base) → p + bytes_in size ≤ 512 → IsNumber value
            → IsOk result × IfOk result (λ _. StoresSlots p (bytes_in size) self.old.stack self.new.stack) }
        ensures spills { (i : ℕ) → IsStackByte (8 * i) offset (TheRegs.Set base) → i < 64 → size ≡ Size.Double
            → IsOk result × IfOk result (λ _. SpillsSlot i value self.old.stack self.new.stack) }
        ensures not_unset { IfErr result (λ e. e ≢ Refusal.UnsetRegister) }
        ensures rule { rules.Leaves
            (rules.written (slots_of self.old.stack) (content_of base) offset (bytes_in size) (content_of value)) result
            (slots_of self.new.stack) }
    {
        if base.is_number() {
            return Err(Refusal::NotAnAddress);
        }
        let Known::Stack(address) = base else {
            return Err(Refusal::ReadOnlyStore);
        };
        let count = count(size);
        let p = offset_in_stack(address, offset, count)?;
        if count == 8 && p % 8 == 0 {
            spill(&mut self.stack, p / 8, value);
            return Ok(());
        }
        if !value.is_number() {
            return Err(Refusal::PointerStore);
        }
        overwrite(&mut self.stack, p, count);
        Ok(())
    }
}
