ghost use Rattle.std.specs.Prelude.{◌≡◌, ◌≢◌, IfErr, [], ◌∷◌, ℕ, ◌+◌, ◌-◌, ◌*◌, ◌/◌, ◌%◌, ◌^◌, ◌<◌, ◌≤◌, Option, Some};
ghost use Rattle.std.specs.Prelude.{Ok, IfSome, IfOk, IsOk, IsTrue, None, length, slice_set, slice_index_or, pos};
ghost use Rattle.abstract_state.specs.Lent.{Lengths, length_of, bound_of, HasTail};
ghost use Rattle.abstract_state.specs.declared.region.Region.{Region as TheRegion};
ghost use Rattle.abstract_state.specs.Quantity.{Contains as ContainsNumber, Within as WithinNumber};
ghost use Rattle.abstract_state.specs.Known.{ContainsKnown, WithinKnown, IsNumber, AreNumbers};
ghost use Rattle.abstract_state.specs.State.{Span, lengths_of, IsLong, WithinLong, Contains, WithinState};
ghost use Rattle.abstract_state.specs.State.{with_register, register_at, ContainsRegister, Bytes, ContainsStack};
ghost use Rattle.abstract_state.specs.State.{ContainsSlot};
ghost use Rattle.std.specs.Int.{cast_unsigned, w64};
ghost use Rattle.abstract_state.specs.Kinds.{HasNumberAt, HasNumberIn, WritesNumber, IsContextAt, IsStackAt};
ghost use Rattle.abstract_state.specs.Exact.{Fact, Says, Holds, IsNumberIn};
ghost use Rattle.abstract_state.specs.Guard.{IsOperand, SameBut, SameMemory, Writes};
ghost use Rattle.abstract_state.specs.Frame.{IsStackByte};
ghost use Rattle.abstract_state.specs.Steps.{after};
ghost use Rattle.abstract_state.specs.Unset.{HasUnset};
ghost use Rattle.bpf_words.specs.Flow.{read_operand};
ghost use Rattle.semantics.specs.State.{State, start, register_of, operand_in};
ghost use Rattle.std.specs.Prelude.{option_map};
ghost use Rattle.abstract_state.specs.Estimate.{estimate_of};
ghost use Rattle.abstract_state.specs.Addresses.{content_of, answer_of};
ghost use Rattle.abstract_state.specs.Stacks.{slots_of, eight_of, none_set, Marked};
ghost use Rattle.abstract_state.specs.Situation as rules;
ghost use Rattle.abstract_state.specs.Situation.{registers_of, situation_of, least_of};

use crate::address::{ContextAddress, StackAddress};
use crate::bounds::Bounds;
use crate::known::Known;
use crate::quantity::Quantity;
use crate::refusal::Refusal;
use crate::region::Region;
use crate::slot::Slot;
use crate::step::Flow;
use bpf_words::instruction::Operand;
use bpf_words::register::Register;
use span_context::context::STACK_BYTES;

/// What is known of a register.
#[derive(Clone, Copy)]
pub enum AbsReg {
    /// It may be unset, or hold anything.
    Unset,
    Set(Known),
}

/// What is known of the machine before an instruction.
#[derive(Clone, Copy)]
pub struct AbsState {
    pub registers: [AbsReg; 11],
    pub stack: [Slot; 64],
    pub bounds: Bounds,
}

impl Bounds {
    /// The bound of one region.
    pub fn of(self, region: Region) -> u64
        ensures short { result ≤ 131072 }
        ensures long { (lengths : Lengths) → IsLong self lengths → result ≤ length_of lengths region }
        ensures value { (at : TheRegion) → region ≡ at → result ≡ bound_of self at }
        ensures rule { result ≡ rules.least_at (least_of self) region }
    {
        match region {
            Region::Text => self.text,
            Region::Link => self.link,
        }
    }

    /// The bounds where a number of the quantity stands; `None` where no region is so long.
    #[tactic(auto, unfolding(crate::specs::Situation::longer))]
    pub fn raise(self, q: Quantity) -> Option<Bounds>
        ensures sound { (lengths : Lengths) (x : ℕ) → IsLong self lengths → ContainsNumber q lengths x
            → WithinLong result lengths }
        ensures text { (t : ℕ) → q.tails.text ≡ Some t → IfSome result (λ b. q.range.low + t ≤ b.text) }
        ensures link { (t : ℕ) → q.tails.link ≡ Some t → IfSome result (λ b. q.range.low + t ≤ b.link) }
        ensures grows { IfSome result (λ b. (self.text ≤ b.text) × (self.link ≤ b.link)) }
        ensures rule { option_map least_of result ≡ rules.longer (estimate_of q) (least_of self) }
    {
        let text = bound_raised(self.text, q.range.low, q.tails.text, Region::Text.limit())?;
        let link = bound_raised(self.link, q.range.low, q.tails.link, Region::Link.limit())?;
        Some(Bounds { text, link })
    }
}

/// One bound where a number from `low` on with a tail stands; `None` where no region is so long.
#[tactic(auto, unfolding(crate::specs::Situation::raised_bound))]
fn bound_raised(bound: u64, low: u64, tail: Option<u32>, limit: u64) -> Option<u64>
    requires { bound ≤ limit }
    ensures short { IfSome result (λ b. b ≤ limit) }
    ensures sound { (long x : ℕ) → long ≤ limit → bound ≤ long → low ≤ x → HasTail tail long x
        → (b : ℕ) × (result ≡ Some b) × (b ≤ long) }
    ensures raised { (t : ℕ) → tail ≡ Some t → IfSome result (λ b. low + t ≤ b) }
    ensures grows { IfSome result (λ b. bound ≤ b) }
    ensures rule { result ≡ rules.raised_bound limit bound low tail }
{
    let Some(t) = tail else {
        return Some(bound);
    };
    let least = low.checked_add(u64::from(t))?;
    if least > limit {
        return None;
    }
    Some(bound.max(least))
}

impl AbsState {
    /// What is known at the start of each run.
    pub fn entry() -> AbsState
        ensures contains { (span : Span) → Contains result (lengths_of span) start }
        ensures context { IsContextAt 0 (register_at result.registers 1) }
        ensures frame { IsStackAt 512 (register_at result.registers 10) }
        ensures unset { (i : ℕ) → i ≢ 1 → i ≢ 10 → register_at result.registers i ≡ AbsReg.Unset }
        ensures bounds { (result.bounds.text ≡ 0) × (result.bounds.link ≡ 0) }
        ensures rule { rules.IsSituation result rules.entry }
    {
        AbsState {
            registers: first_registers(),
            stack: unset_stack(),
            bounds: Bounds { text: 0, link: 0 },
        }
    }

    /// What is known of a register that is read.
    pub fn read(&self, register: Register) -> Result<Known, Refusal>
        ensures sound { IfOk result (λ k. (lengths : Lengths) (s : State) → Contains self.now lengths s
            → (n : ℕ) × (register_of s register ≡ Ok n) × ContainsKnown k lengths n) }
        ensures holds { (fact : Fact) → Holds fact (register_at self.now.registers register)
            → IsOk result × IfOk result (λ k. Says fact k) }
        ensures floor { HasNumberAt self.now register → IsOk result }
        ensures context { (n : ℕ) → IsContextAt n (register_at self.now.registers register)
            → IsOk result × IfOk result (λ k. IsContextAt n (AbsReg.Set k)) }
        ensures frame { (p offset : ℕ) → IsStackByte p offset (register_at self.now.registers register)
            → IsOk result × IfOk result (λ k. IsStackByte p offset (AbsReg.Set k)) }
        ensures numbers { HasNumberAt self.now register → IfOk result (λ k. IsNumber k) }
        ensures unset { IfErr result (λ e. (e ≡ Refusal.UnsetRegister) × HasUnset self.now (register ∷ [])) }
        ensures set { IfOk result (λ _. HasUnset self.now (register ∷ []) → ⊥) }
        ensures rule { answer_of content_of result ≡ rules.read (registers_of self.now.registers register) }
    {
        match self.registers[register.index()] {
            AbsReg::Unset => Err(Refusal::UnsetRegister),
            AbsReg::Set(known) => Ok(known),
        }
    }

    /// What is known of an operand.
    pub fn operand(&self, operand: Operand) -> Result<Known, Refusal>
        ensures sound { IfOk result (λ k. (lengths : Lengths) (s : State) → Contains self.now lengths s
            → (n : ℕ) × (operand_in s operand ≡ Ok n) × ContainsKnown k lengths n) }
        ensures holds { (r : ℕ) (fact : Fact) → operand ≡ Operand.Source r
            → Holds fact (register_at self.now.registers r) → IsOk result × IfOk result (λ k. Says fact k) }
        ensures constant { (region : TheRegion) (k : ℕ) → operand ≡ Operand.Immediate (pos k) → k < 2 ^ 31
            → IsOk result × IfOk result (λ v. IsNumberIn region k k None v) }
        ensures one { (region : TheRegion) (n : ℕ) → IsOperand region self.now operand n
            → IsOk result × IfOk result (λ k. IsNumberIn region n n None k) }
        ensures floor { HasNumberIn self.now operand → IsOk result }
        ensures numbers { HasNumberIn self.now operand → IfOk result (λ k. IsNumber k) }
        ensures unset { IfErr result (λ e. (e ≡ Refusal.UnsetRegister) × HasUnset self.now (read_operand operand)) }
        ensures set { IfOk result (λ _. HasUnset self.now (read_operand operand) → ⊥) }
        ensures rule { answer_of content_of result ≡ rules.operand_of (registers_of self.now.registers) operand }
    {
        match operand {
            Operand::Immediate(value) => Ok(Known::Number(Quantity::constant(extended(value)))),
            Operand::Source(register) => self.read(register),
        }
    }

    /// Writes a register.
    pub fn put(&mut self, register: Register, known: Known)
        ensures contains { (lengths : Lengths) (s : State) (n : ℕ) → Contains self.old lengths s
            → ContainsKnown known lengths n → Contains self.new lengths (with_register s register n) }
        ensures others { SameBut register self.old self.new }
        ensures there { register_at self.new.registers register ≡ AbsReg.Set known }
        ensures memory { SameMemory self.old self.new }
        ensures rule { rules.IsSituation self.new (rules.put register (content_of known) (situation_of self.old)) }
    {
        self.registers[register.index()] = AbsReg::Set(known);
    }

    /// Writes a register, if there is something to write.
    pub fn write(&mut self, register: Register, known: Option<Known>) -> Flow
        ensures sound { (lengths : Lengths) (s : State) (n : ℕ) → Contains self.old lengths s
            → WithinKnown known lengths n → WithinState (after result self.new) lengths (with_register s register n) }
        ensures others { IfSome (after result self.new) (λ b. Writes register self.old b) }
        ensures memory { IfSome (after result self.new) (λ b. SameMemory self.old b) }
        ensures holds { (fact : Fact) → IfSome known (λ k. Says fact k)
            → IfSome (after result self.new) (λ b. Holds fact (register_at b.registers register)) }
        ensures numbers { AreNumbers known → IfSome (after result self.new) (λ b. WritesNumber self.old register b) }
        ensures rule { rules.Flows
            (option_map (λ k. rules.put register (content_of k) (situation_of self.old)) known) result self.new }
    {
        let Some(known) = known else {
            return Flow::Dead;
        };
        self.put(register, known);
        Flow::Live
    }
}

/// What is known of the registers at first.
fn first_registers() -> [AbsReg; 11]
    ensures contains { (lengths : Lengths) (i : ℕ) → i < 11
        → ContainsRegister (register_at result i) lengths (slice_index_or start.registers i None) }
    ensures context { IsContextAt 0 (register_at result 1) }
    ensures frame { IsStackAt 512 (register_at result 10) }
    ensures unset { (i : ℕ) → i ≢ 1 → i ≢ 10 → register_at result i ≡ AbsReg.Unset }
    ensures rule { (i : ℕ) → i < 11 → registers_of result i ≡ rules.entry.registers i }
{
    let mut registers = [AbsReg::Unset; 11];
    registers[1] = AbsReg::Set(Known::Context(ContextAddress { offset: 0 }));
    registers[10] = AbsReg::Set(Known::Stack(StackAddress {
        offset: STACK_BYTES as u64,
    }));
    registers
}

/// A stack of which nothing is known.
fn unset_stack() -> [Slot; 64]
    ensures contains { (lengths : Lengths) (bytes : Bytes) → ContainsStack result lengths bytes }
    ensures rule { (i : ℕ) → i < 64 → slots_of result i ≡ rules.entry.slots i }
{
    let slot = unset_slot();
    [slot; 64]
}

/// A slot of which nothing is known.
fn unset_slot() -> Slot
    ensures contains { (lengths : Lengths) (bytes : Bytes) (i : ℕ) → ContainsSlot result lengths bytes i }
    ensures rule { eight_of result ≡ Marked none_set }
{
    Slot::Marks([false; 8])
}

/// An immediate with its sign, in 64 bits.
pub fn extended(value: i32) -> u64
    ensures { result ≡ cast_unsigned w64 value }
{
    i64::from(value).cast_unsigned()
}
