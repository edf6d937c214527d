ghost use Rattle.std.specs.Prelude.{◌≡◌, ◌≢◌, IfErr, ℕ, ◌+◌, ◌-◌, ◌%◌, ◌^◌, ◌<◌, ◌≤◌, Option, Some, None, Ok, IsSome};
ghost use Rattle.std.specs.Prelude.{IfSome, IfOk, IsOk, IsTrue, ◌↔◌};
ghost use Rattle.abstract_state.specs.Lent.{Lengths, HasTails, base_of};
ghost use Rattle.abstract_state.specs.Quantity.{Contains, Within, JoinsNumber};
ghost use Rattle.abstract_state.specs.Known.{ContainsKnown, WithinKnown, IsNumber, AreNumbers};
ghost use Rattle.abstract_state.specs.declared.state.AbsReg.TheVariants as TheRegs;
ghost use Rattle.abstract_state.specs.Kinds.{IsContextAt, IsStackAt};
ghost use Rattle.abstract_state.specs.Exact.{tail_after, Folds, IsIn, IsNumberIn, IsLentIn, IsNoLess};
ghost use Rattle.abstract_state.specs.declared.region.Region.{Region as TheRegion};
ghost use Rattle.semantics.specs.Value.{cut, value_of, negated, extended, converted};
ghost use Rattle.std.specs.Prelude.{option_map};
ghost use Rattle.abstract_state.specs.Estimate.{estimate_of};
ghost use Rattle.abstract_state.specs.Addresses as rules;
ghost use Rattle.abstract_state.specs.Addresses.{content_of, answer_of};

use crate::address::{ContextAddress, LentAddress, StackAddress};
use crate::quantity::Quantity;
use crate::refusal::Refusal;
use crate::region::Region;
use crate::transfer::transfer;
use bpf_words::instruction::{Arithmetic, Conversion, ConvertedBits, Extension, Width};
use span_context::context::{CONTEXT, FRAME, STACK_BYTES};
use span_context::profile::Profile;

/// What is known of a number that a register or a stack slot holds.
#[derive(Clone, Copy)]
pub enum Known {
    Number(Quantity),
    Context(ContextAddress),
    Stack(StackAddress),
    Lent(LentAddress),
}

/// How far a result may lie from the start of a lent region.
pub const NEAR: u64 = 1 << 20;

pub fn number(quantity: Option<Quantity>) -> Option<Known>
    ensures contains { (lengths : Lengths) (x : ℕ) → Within quantity lengths x → WithinKnown result lengths x }
    ensures numbers { AreNumbers result }
    ensures none { quantity ≡ None → result ≡ None }
    ensures some { (q : Quantity) → quantity ≡ Some q → result ≡ Some (Known.Number q) }
    ensures same { (at : TheRegion) (low high : ℕ) (t : Option ℕ) → IfSome quantity (λ q. IsIn at q low high t)
        → IfSome result (λ k. IsNumberIn at low high t k) }
    ensures rule { option_map content_of result ≡ option_map rules.ANumber (option_map estimate_of quantity) }
{
    let Some(quantity) = quantity else {
        return None;
    };
    Some(Known::Number(quantity))
}

/// An address in a lent region, if it is near enough.
#[tactic(auto, unfolding(crate::specs::Addresses::near))]
pub fn lent(region: Region, offset: Option<Quantity>) -> Result<Option<Known>, Refusal>
    ensures sound { IfOk result (λ o. (lengths : Lengths) (x : ℕ) → Within offset lengths x
        → WithinKnown o lengths ((base_of region + x) % 2 ^ 64)) }
    ensures none { offset ≡ None → result ≡ Ok None }
    ensures some { (q : Quantity) → offset ≡ Some q → q.range.high ≤ 2 ^ 20
        → (p : LentAddress) × (result ≡ Ok (Some (Known.Lent p))) × (p.region ≡ region) × (p.offset ≡ q) }
    ensures there { (at : TheRegion) (low high : ℕ) (t : Option ℕ) → region ≡ at
        → IfSome offset (λ q. IsIn at q low high t) → high ≤ 2 ^ 20
        → IsOk result × IfOk result (λ o. IfSome o (λ k. IsLentIn at low high t k)) }
    ensures not_unset { IfErr result (λ e. e ≢ Refusal.UnsetRegister) }
    ensures rule { answer_of (option_map content_of) result ≡ rules.near region (option_map estimate_of offset) }
{
    let Some(offset) = offset else {
        return Ok(None);
    };
    if offset.range.high > NEAR {
        return Err(Refusal::TextOffset);
    }
    Ok(Some(Known::Lent(LentAddress { region, offset })))
}

/// An offset moved by a constant, modulo 2^64.
#[tactic(auto, unfolding(crate::specs::Addresses::displaced))]
fn displaced(operation: Arithmetic, width: Width, offset: u64, by: Quantity) -> Option<u64>
    ensures adds { IfSome result (λ r. (lengths : Lengths) (base y : ℕ) → Contains by lengths y
        → value_of operation width (cut width (base + offset)) (cut width y) ≡ (base + r) % 2 ^ 64) }
    ensures rule { result ≡ rules.displaced operation width offset (estimate_of by) }
{
    let c = by.only()?;
    match (width, operation) {
        (Width::Full, Arithmetic::Add) => Some(offset.wrapping_add(c)),
        (Width::Full, Arithmetic::Sub) => Some(offset.wrapping_sub(c)),
        _ => None,
    }
}

#[tactic(auto, unfolding(crate::specs::Addresses::from_context))]
fn from_context(
    profile: Profile,
    operation: Arithmetic,
    width: Width,
    address: ContextAddress,
    by: Quantity,
) -> Result<Known, Refusal>
    ensures sound { IfOk result (λ k. (lengths : Lengths) (x y : ℕ) → ContainsKnown (Known.Context address) lengths x
        → Contains by lengths y → ContainsKnown k lengths (value_of operation width (cut width x) (cut width y))) }
    ensures not_unset { IfErr result (λ e. e ≢ Refusal.UnsetRegister) }
    ensures rule { answer_of content_of result
        ≡ rules.from_context profile operation width address.offset (estimate_of by) }
{
    match displaced(operation, width, address.offset, by) {
        Some(offset) if offset <= profile.context_length() => Ok(Known::Context(ContextAddress {
            offset,
        })),
        _ => Err(Refusal::PointerArithmetic),
    }
}

#[tactic(auto, unfolding(crate::specs::Addresses::from_stack))]
fn from_stack(
    operation: Arithmetic,
    width: Width,
    address: StackAddress,
    by: Quantity,
) -> Result<Known, Refusal>
    ensures sound { IfOk result (λ k. (lengths : Lengths) (x y : ℕ) → ContainsKnown (Known.Stack address) lengths x
        → Contains by lengths y → ContainsKnown k lengths (value_of operation width (cut width x) (cut width y))) }
    ensures not_unset { IfErr result (λ e. e ≢ Refusal.UnsetRegister) }
    ensures rule { answer_of content_of result ≡ rules.from_stack operation width address.offset (estimate_of by) }
{
    match displaced(operation, width, address.offset, by) {
        Some(offset) if offset <= STACK_BYTES as u64 => Ok(Known::Stack(StackAddress { offset })),
        _ => Err(Refusal::PointerArithmetic),
    }
}

#[tactic(auto, unfolding(crate::specs::Addresses::from_region))]
fn from_lent(
    profile: Profile,
    operation: Arithmetic,
    width: Width,
    address: LentAddress,
    by: Quantity,
) -> Result<Option<Known>, Refusal>
    ensures sound { IfOk result (λ o. (lengths : Lengths) (x y : ℕ) → ContainsKnown (Known.Lent address) lengths x
        → Contains by lengths y → WithinKnown o lengths (value_of operation width (cut width x) (cut width y))) }
    ensures adds { (at : TheRegion) → operation ≡ Arithmetic.Add → width ≡ Width.Full → address.region ≡ at
        → (m n : ℕ) (t : Option ℕ) → IsIn at address.offset m m t → IsIn at by n n None → m + n ≤ 2 ^ 20
        → IsOk result × IfOk result (λ o. IfSome o (λ k. IsLentIn at (m + n) (m + n) (tail_after t n) k)) }
    ensures not_unset { IfErr result (λ e. e ≢ Refusal.UnsetRegister) }
    ensures rule { answer_of (option_map content_of) result
        ≡ rules.from_region profile operation width address.region (estimate_of address.offset) (estimate_of by) }
{
    match (width, operation) {
        (Width::Full, Arithmetic::Add) => lent(
            address.region,
            address.offset.add(profile, by, Width::Full),
        ),
        (Width::Full, Arithmetic::Sub) => lent(
            address.region,
            address.offset.sub(profile, by, Width::Full),
        ),
        _ => Err(Refusal::PointerArithmetic),
    }
}

#[tactic(auto, unfolding(crate::specs::Addresses::onto_region))]
fn onto_lent(
    profile: Profile,
    operation: Arithmetic,
    width: Width,
    by: Quantity,
    address: LentAddress,
) -> Result<Option<Known>, Refusal>
    ensures sound { IfOk result (λ o. (lengths : Lengths) (x y : ℕ) → Contains by lengths x
        → ContainsKnown (Known.Lent address) lengths y
        → WithinKnown o lengths (value_of operation width (cut width x) (cut width y))) }
    ensures not_unset { IfErr result (λ e. e ≢ Refusal.UnsetRegister) }
    ensures rule { answer_of (option_map content_of) result
        ≡ rules.onto_region profile operation width address.region (estimate_of by) (estimate_of address.offset) }
{
    match (width, operation) {
        (Width::Full, Arithmetic::Add) => lent(
            address.region,
            by.add(profile, address.offset, Width::Full),
        ),
        _ => Err(Refusal::PointerArithmetic),
    }
}

/// The distance from one address in a lent region to another in the same one, where the profile has more rules.
#[tactic(auto, unfolding(crate::specs::Addresses::between, crate::specs::Addresses::distance))]
fn distance(
    profile: Profile,
    operation: Arithmetic,
    width: Width,
    a: LentAddress,
    b: LentAddress,
) -> Result<Option<Known>, Refusal>
    ensures sound { IfOk result (λ o. (lengths : Lengths) (x y : ℕ) → ContainsKnown (Known.Lent a) lengths x
        → ContainsKnown (Known.Lent b) lengths y
        → WithinKnown o lengths (value_of operation width (cut width x) (cut width y))) }
    ensures not_unset { IfErr result (λ e. e ≢ Refusal.UnsetRegister) }
    ensures rule { answer_of (option_map content_of) result
        ≡ rules.between profile operation width a.region (estimate_of a.offset) b.region (estimate_of b.offset) }
{
    if !profile.has_more_rules() || a.region != b.region {
        return Err(Refusal::PointerArithmetic);
    }
    match (width, operation) {
        (Width::Full, Arithmetic::Sub) => Ok(number(a.offset.sub(profile, b.offset, Width::Full))),
        _ => Err(Refusal::PointerArithmetic),
    }
}

impl Known {
    /// Whether it is no address.
    pub fn is_number(self) -> bool
        ensures { IsTrue result ↔ IsNumber self }
    {
        match self {
            Known::Number(_) => true,
            _ => false,
        }
    }

    /// The number that is known, if only one is possible: of an address, the address itself.
    pub fn only(self) -> Option<u64>
        ensures { result ≡ rules.number_of (content_of self) }
    {
        match self {
            Known::Number(quantity) => quantity.only(),
            Known::Context(address) => Some(CONTEXT + address.offset),
            Known::Stack(address) => Some(FRAME - STACK_BYTES as u64 + address.offset),
            Known::Lent(address) => {
                let offset = address.offset.only()?;
                Some(address.region.base() + offset)
            }
        }
    }

    /// What an operation other than a move gives.
    #[tactic(auto, unfolding(crate::specs::Addresses::computed))]
    pub fn compute(
        self,
        profile: Profile,
        operation: Arithmetic,
        width: Width,
        other: Known,
    ) -> Result<Option<Known>, Refusal>
        ensures sound { IfOk result (λ o. (lengths : Lengths) (x y : ℕ) → ContainsKnown self lengths x
            → ContainsKnown other lengths y
            → WithinKnown o lengths (value_of operation width (cut width x) (cut width y))) }
        ensures adds { (at : TheRegion) → operation ≡ Arithmetic.Add → width ≡ Width.Full → (m n : ℕ) (t : Option ℕ)
            → IsLentIn at m m t self → IsNumberIn at n n None other → m + n ≤ 2 ^ 20
            → IsOk result × IfOk result (λ o. IfSome o (λ k. IsLentIn at (m + n) (m + n) (tail_after t n) k)) }
        ensures folds { (at : TheRegion) → width ≡ Width.Full → (m n : ℕ) → Folds operation m n
            → IsNumberIn at m m None self → IsNumberIn at n n None other
            → IsOk result
            × IfOk result
            (λ o. IfSome o
            (λ k. IsNumberIn at (value_of operation Width.Full m n) (value_of operation Width.Full m n) None k)) }
        ensures floor { IsNumber self → IsNumber other → IsOk result }
        ensures numbers { IsNumber self → IsNumber other → IfOk result (λ o. AreNumbers o) }
        ensures not_unset { IfErr result (λ e. e ≢ Refusal.UnsetRegister) }
        ensures rule { answer_of (option_map content_of) result
            ≡ rules.computed profile operation width (content_of self) (content_of other) }
    {
        match (self, other) {
            (Known::Number(a), Known::Number(b)) => {
                Ok(number(transfer(profile, operation, width, a, b)))
            }
            (Known::Context(a), Known::Number(b)) => Ok(Some(from_context(
                profile, operation, width, a, b,
            )?)),
            (Known::Stack(a), Known::Number(b)) => Ok(Some(from_stack(operation, width, a, b)?)),
            (Known::Lent(a), Known::Number(b)) => from_lent(profile, operation, width, a, b),
            (Known::Number(a), Known::Lent(b)) => onto_lent(profile, operation, width, a, b),
            (Known::Lent(a), Known::Lent(b)) => distance(profile, operation, width, a, b),
            _ => Err(Refusal::PointerArithmetic),
        }
    }

    /// What a move gives: of 32 bits, of a number alone.
    #[tactic(auto, unfolding(crate::specs::Addresses::moved))]
    pub fn moved(self, width: Width) -> Result<Option<Known>, Refusal>
        ensures sound { IfOk result (λ o. (lengths : Lengths) (x : ℕ) → ContainsKnown self lengths x
            → WithinKnown o lengths (cut width x)) }
        ensures lent { (at : TheRegion) → width ≡ Width.Full → (n : ℕ) (t : Option ℕ) → IsLentIn at n n t self
            → IsOk result × IfOk result (λ o. IfSome o (λ k. IsLentIn at n n t k)) }
        ensures whole { width ≡ Width.Full → IsOk result × IfOk result (λ o. IfSome o (λ k. IsNoLess self k)) }
        ensures constant { (at : TheRegion) → width ≡ Width.Full → (n : ℕ) (t : Option ℕ) → IsNumberIn at n n t self
            → IfOk result (λ o. IfSome o (λ k. IsNumberIn at n n t k)) }
        ensures floor { IsNumber self → IsOk result }
        ensures numbers { IsNumber self → IfOk result (λ o. AreNumbers o) }
        ensures not_unset { IfErr result (λ e. e ≢ Refusal.UnsetRegister) }
        ensures rule { answer_of (option_map content_of) result ≡ rules.moved width (content_of self) }
    {
        match (self, width) {
            (Known::Number(a), _) => Ok(number(a.moved(width))),
            (Known::Lent(a), Width::Full) => lent(a.region, a.offset.moved(Width::Full)),
            (Known::Context(_), Width::Full) => Ok(Some(self)),
            (Known::Stack(_), Width::Full) => Ok(Some(self)),
            _ => Err(Refusal::PointerArithmetic),
        }
    }

    /// What either is; `None` where they are of different kinds, or different addresses.
    #[tactic(auto, unfolding(crate::specs::Addresses::either))]
    pub fn join(self, other: Known) -> Option<Known>
        ensures left { IfSome result (λ k. (lengths : Lengths) (x : ℕ) → ContainsKnown self lengths x
            → ContainsKnown k lengths x) }
        ensures right { IfSome result (λ k. (lengths : Lengths) (x : ℕ) → ContainsKnown other lengths x
            → ContainsKnown k lengths x) }
        ensures numbers { IsNumber self → IsNumber other → IsSome result × AreNumbers result }
        ensures values { (p q : Quantity) → self ≡ Known.Number p → other ≡ Known.Number q
            → (r : Quantity) × (result ≡ Some (Known.Number r)) × JoinsNumber p q r }
        ensures lent { (p q : LentAddress) → self ≡ Known.Lent p → other ≡ Known.Lent q → p.region ≡ q.region
            → (r : LentAddress) × (result ≡ Some (Known.Lent r)) × (r.region ≡ p.region)
            × JoinsNumber p.offset q.offset r.offset }
        ensures context { (n : ℕ) → IsContextAt n (TheRegs.Set self) → IsContextAt n (TheRegs.Set other)
            → IsSome result × IfSome result (λ k. IsContextAt n (TheRegs.Set k)) }
        ensures stack { (n : ℕ) → IsStackAt n (TheRegs.Set self) → IsStackAt n (TheRegs.Set other)
            → IsSome result × IfSome result (λ k. IsStackAt n (TheRegs.Set k)) }
        ensures rule { option_map content_of result ≡ rules.either (content_of self) (content_of other) }
    {
        match (self, other) {
            (Known::Number(a), Known::Number(b)) => Some(Known::Number(a.join(b))),
            (Known::Context(a), Known::Context(b)) => join_context(a, b),
            (Known::Stack(a), Known::Stack(b)) => join_stack(a, b),
            (Known::Lent(a), Known::Lent(b)) => join_lent(a, b),
            _ => None,
        }
    }
}

/// What either address may be.
#[tactic(auto, unfolding(crate::specs::Addresses::either))]
fn join_lent(a: LentAddress, b: LentAddress) -> Option<Known>
    ensures left { IfSome result (λ k. (lengths : Lengths) (x : ℕ) → ContainsKnown (Known.Lent a) lengths x
        → ContainsKnown k lengths x) }
    ensures right { IfSome result (λ k. (lengths : Lengths) (x : ℕ) → ContainsKnown (Known.Lent b) lengths x
        → ContainsKnown k lengths x) }
    ensures joins { a.region ≡ b.region → (r : LentAddress) × (result ≡ Some (Known.Lent r)) × (r.region ≡ a.region)
        × JoinsNumber a.offset b.offset r.offset }
    ensures rule { option_map content_of result ≡ rules.either (content_of (Known.Lent a)) (content_of (Known.Lent b)) }
{
    if a.region != b.region {
        return None;
    }
    let offset = a.offset.join(b.offset);
    Some(Known::Lent(LentAddress {
        region: a.region,
        offset,
    }))
}

/// The address, where both are the same.
#[tactic(auto, unfolding(crate::specs::Addresses::either))]
fn join_context(a: ContextAddress, b: ContextAddress) -> Option<Known>
    ensures left { IfSome result (λ k. (lengths : Lengths) (x : ℕ) → ContainsKnown (Known.Context a) lengths x
        → ContainsKnown k lengths x) }
    ensures right { IfSome result (λ k. (lengths : Lengths) (x : ℕ) → ContainsKnown (Known.Context b) lengths x
        → ContainsKnown k lengths x) }
    ensures same { a.offset ≡ b.offset → result ≡ Some (Known.Context a) }
    ensures rule { option_map content_of result
        ≡ rules.either (content_of (Known.Context a)) (content_of (Known.Context b)) }
{
    if a.offset != b.offset {
        return None;
    }
    Some(Known::Context(a))
}

/// The address, where both are the same.
#[tactic(auto, unfolding(crate::specs::Addresses::either))]
fn join_stack(a: StackAddress, b: StackAddress) -> Option<Known>
    ensures left { IfSome result (λ k. (lengths : Lengths) (x : ℕ) → ContainsKnown (Known.Stack a) lengths x
        → ContainsKnown k lengths x) }
    ensures right { IfSome result (λ k. (lengths : Lengths) (x : ℕ) → ContainsKnown (Known.Stack b) lengths x
        → ContainsKnown k lengths x) }
    ensures same { a.offset ≡ b.offset → result ≡ Some (Known.Stack a) }
    ensures rule { option_map content_of result
        ≡ rules.either (content_of (Known.Stack a)) (content_of (Known.Stack b)) }
{
    if a.offset != b.offset {
        return None;
    }
    Some(Known::Stack(a))
}
