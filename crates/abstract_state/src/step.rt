//! Instructions after which a run goes on at one slot of the program.
ghost use Rattle.std.specs.Prelude.{◌≡◌, ◌≢◌, ◌↔◌, IfErr, [], ◌∷◌, ℕ, pos, ◌+◌, ◌*◌, ◌^◌, ◌<◌, ◌≤◌, Option};
ghost use Rattle.std.specs.Prelude.{Some, None, Ok, IfSome, IfOk, IsOk};
ghost use Rattle.std.specs.Int.{cast_unsigned, w64};
ghost use Rattle.semantics.specs.State.{State};
ghost use Rattle.semantics.specs.Step.{Returns};
ghost use Rattle.abstract_state.specs.State.{Span, lengths_of, Contains, StepsIn, StepsBy, does, register_at, slot_at};
ghost use Rattle.abstract_state.specs.Kinds.{HasNumberAt, HasNumberIn, ReadsNumbers, Carries, IsContextAt};
ghost use Rattle.abstract_state.specs.Steps.{MayStep, StepsTo, after};
ghost use Rattle.abstract_state.specs.Performs.{Performs};
ghost use Rattle.abstract_state.specs.Exact.{Fact, Folds, Holds, tail_after};
ghost use Rattle.abstract_state.specs.declared.region.Region.{Region};
ghost use Rattle.abstract_state.specs.Lent.{begin_field, end_field, limit_of, bound_of, Lends};
ghost use Rattle.abstract_state.specs.Guard.{Yields, Stores, Spills, Keeps, IsOperand, LeavesOthers, LeavesMemory};
ghost use Rattle.semantics.specs.Value.{value_of};
ghost use Rattle.abstract_state.specs.Unset.{HasUnset};
ghost use Rattle.bpf_words.specs.Flow.{read_by};
ghost use Rattle.semantics.specs.Memory.{bytes_in, bytes_in_signed};
ghost use Rattle.abstract_state.specs.Frame.{IsStackByte, AreMarked, StoresSlots, SpillsSlot};
ghost use Rattle.abstract_state.specs.declared.slot.Slot.{Slot};
ghost use Rattle.abstract_state.specs.declared.state.AbsReg.TheVariants.{Set};
ghost use Rattle.abstract_state.specs.declared.address.LentAddress.{LentAddress};
ghost use Rattle.abstract_state.specs.Situation.{situation_of, IsSituation, AnswersStep};
ghost use Rattle.abstract_state.specs.Stepping as rules;

use crate::known::Known;
use crate::quantity::Quantity;
use crate::refusal::Refusal;
use crate::state::AbsState;
use bpf_words::instruction::{
    Arithmetic, Conversion, ConvertedBits, Extension, Insn, Operand, SignedSize, Width,
};
use bpf_words::register::Register;
use span_context::profile::Profile;
use span_context::size::Size;

/// Whether a run can come past an instruction.
#[derive(Clone, Copy)]
pub enum Flow {
    Live,
    Dead,
}

/// An offset as what is added to an address modulo 2^64.
fn displacement(offset: i16) -> u64
    ensures { result ≡ cast_unsigned w64 offset }
{
    i64::from(offset).cast_unsigned()
}

impl AbsState {
    fn move_to(
        &mut self,
        width: Width,
        destination: Register,
        operand: Operand,
    ) -> Result<Flow, Refusal>
        requires { destination ≢ 10 }
        ensures performs { Performs StepsBy self.old (Insn.Compute width Arithmetic.Mov destination operand) result
            self.new }
        ensures lent { (region : Region) (r n : ℕ) (t : Option ℕ) → width ≡ Width.Full → operand ≡ Operand.Source r
            → Holds (Fact.LentIn region n n t) (register_at self.old.registers r)
            → Keeps result self.new destination (Fact.LentIn region n n t) }
        ensures moves { (r : ℕ) (known : Known) → width ≡ Width.Full → operand ≡ Operand.Source r
            → Holds (Fact.Exactly known) (register_at self.old.registers r)
            → Keeps result self.new destination (Fact.NoLess known) }
        ensures copies { (region : Region) (n : ℕ) → width ≡ Width.Full → IsOperand region self.old operand n
            → Keeps result self.new destination (Fact.NumberIn region n n None) }
        ensures rule { AnswersStep (rules.move width destination operand (situation_of self.old)) result self.new }
    {
        let b = self.operand(operand)?;
        let known = b.moved(width)?;
        Ok(self.write(destination, known))
    }

    fn compute(
        &mut self,
        profile: Profile,
        width: Width,
        operation: Arithmetic,
        destination: Register,
        operand: Operand,
    ) -> Result<Flow, Refusal>
        requires frame { destination ≢ 10 }
        requires reads { operation ≢ Arithmetic.Mov }
        ensures performs { Performs StepsBy self.old (Insn.Compute width operation destination operand) result
            self.new }
        ensures adds { (region : Region) (k n : ℕ) (t : Option ℕ) → width ≡ Width.Full → operation ≡ Arithmetic.Add
            → operand ≡ Operand.Immediate (pos k)
            → Holds (Fact.LentIn region n n t) (register_at self.old.registers destination) → n + k ≤ 2 ^ 20
            → Keeps result self.new destination (Fact.LentIn region (n + k) (n + k) (tail_after t k)) }
        ensures folds { (region : Region) (m n : ℕ) → width ≡ Width.Full → Folds operation m n
            → Holds (Fact.NumberIn region m m None) (register_at self.old.registers destination)
            → IsOperand region self.old operand n
            → Keeps result self.new destination
            (Fact.NumberIn region (value_of operation Width.Full m n) (value_of operation Width.Full m n) None) }
        ensures rule { AnswersStep (rules.compute profile width operation destination operand (situation_of self.old))
            result self.new }
    {
        let a = self.read(destination)?;
        let b = self.operand(operand)?;
        let known = a.compute(profile, operation, width, b)?;
        Ok(self.write(destination, known))
    }

    fn negate(&mut self, width: Width, destination: Register) -> Result<Flow, Refusal>
        requires { destination ≢ 10 }
        ensures performs { Performs StepsBy self.old (Insn.Negate width destination) result self.new }
        ensures rule { AnswersStep (rules.negate width destination (situation_of self.old)) result self.new }
    {
        let a = self.read(destination)?;
        let known = a.negate(width)?;
        Ok(self.write(destination, known))
    }

    fn extend(
        &mut self,
        extension: Extension,
        destination: Register,
        source: Register,
    ) -> Result<Flow, Refusal>
        requires { destination ≢ 10 }
        ensures performs { Performs StepsBy self.old (Insn.Extend extension destination source) result self.new }
        ensures rule { AnswersStep (rules.extend extension destination source (situation_of self.old)) result self.new }
    {
        let a = self.read(source)?;
        let known = a.extend(extension)?;
        Ok(self.write(destination, known))
    }

    fn convert(
        &mut self,
        conversion: Conversion,
        bits: ConvertedBits,
        destination: Register,
    ) -> Result<Flow, Refusal>
        requires { destination ≢ 10 }
        ensures performs { Performs StepsBy self.old (Insn.Convert conversion bits destination) result self.new }
        ensures rule { AnswersStep (rules.convert bits destination (situation_of self.old)) result self.new }
    {
        let a = self.read(destination)?;
        let known = a.convert(conversion, bits)?;
        Ok(self.write(destination, Some(known)))
    }

    fn load_into(
        &mut self,
        profile: Profile,
        size: Size,
        destination: Register,
        base: Register,
        offset: i16,
    ) -> Result<Flow, Refusal>
        requires { destination ≢ 10 }
        ensures performs { Performs (StepsIn profile) self.old (Insn.Load size destination base offset) result
            self.new }
        ensures begin { (region : Region) → Lends region profile → offset ≡ pos (begin_field region)
            → size ≡ Size.Double → IsContextAt 0 (register_at self.old.registers base)
            → Keeps result self.new destination (Fact.LentIn region 0 0 (Some 0)) }
        ensures end { (region : Region) → Lends region profile → offset ≡ pos (end_field region) → size ≡ Size.Double
            → IsContextAt 0 (register_at self.old.registers base)
            → Keeps result self.new destination (Fact.LentIn region 0 (limit_of region) (Some 0)) }
        ensures stack { (p : ℕ) → IsStackByte p (cast_unsigned w64 offset) (register_at self.old.registers base)
            → AreMarked self.old.stack p (bytes_in size) → Keeps result self.new destination Fact.AnyNumber }
        ensures spilled { (i : ℕ) (known : Known)
            → IsStackByte (8 * i) (cast_unsigned w64 offset) (register_at self.old.registers base) → i < 64
            → size ≡ Size.Double → slot_at self.old.stack i ≡ Slot.Spilled known
            → Keeps result self.new destination (Fact.Exactly known) }
        ensures lent { (o : ℕ) (p : LentAddress) → offset ≡ pos o → o < 2 ^ 15
            → register_at self.old.registers base ≡ Set (Known.Lent p)
            → p.offset.range.high + o + bytes_in size ≤ bound_of self.old.bounds p.region
            → Keeps result self.new destination Fact.AnyNumber }
        ensures rule { AnswersStep (rules.load profile size destination base offset (situation_of self.old)) result
            self.new }
    {
        let a = self.read(base)?;
        let known = self.load(profile, a, displacement(offset), size)?;
        Ok(self.write(destination, known))
    }

    fn load_signed_into(
        &mut self,
        profile: Profile,
        size: SignedSize,
        destination: Register,
        base: Register,
        offset: i16,
    ) -> Result<Flow, Refusal>
        requires { destination ≢ 10 }
        ensures performs { Performs (StepsIn profile) self.old (Insn.LoadSigned size destination base offset) result
            self.new }
        ensures lent { (o : ℕ) (p : LentAddress) → offset ≡ pos o → o < 2 ^ 15
            → register_at self.old.registers base ≡ Set (Known.Lent p)
            → p.offset.range.high + o + bytes_in_signed size ≤ bound_of self.old.bounds p.region
            → Keeps result self.new destination Fact.AnyNumber }
        ensures stack { (p : ℕ) → IsStackByte p (cast_unsigned w64 offset) (register_at self.old.registers base)
            → AreMarked self.old.stack p (bytes_in_signed size) → Keeps result self.new destination Fact.AnyNumber }
        ensures rule { AnswersStep (rules.load_signed profile size destination base offset (situation_of self.old))
            result self.new }
    {
        let a = self.read(base)?;
        self.load_signed(profile, a, displacement(offset), size)?;
        let known = Known::Number(Quantity::unknown(Width::Full));
        Ok(self.write(destination, Some(known)))
    }

    fn store_at(
        &mut self,
        size: Size,
        base: Register,
        offset: i16,
        value: Operand,
    ) -> Result<Flow, Refusal>
        ensures performs { Performs StepsBy self.old (Insn.Store size base offset value) result self.new }
        ensures live { IfOk result (λ flow. flow ≡ Flow.Live) }
        ensures stores { (p : ℕ) → IsStackByte p (cast_unsigned w64 offset) (register_at self.old.registers base)
            → p + bytes_in size ≤ 512 → HasNumberIn self.old value
            → IsOk result
            × IfOk result
            (λ flow. IfSome (after flow self.new) (λ b. StoresSlots p (bytes_in size) self.old.stack b.stack)) }
        ensures spills { (i r : ℕ) (known : Known)
            → IsStackByte (8 * i) (cast_unsigned w64 offset) (register_at self.old.registers base) → i < 64
            → size ≡ Size.Double → value ≡ Operand.Source r
            → Holds (Fact.Exactly known) (register_at self.old.registers r)
            → IsOk result
            × IfOk result (λ flow. IfSome (after flow self.new) (λ b. SpillsSlot i known self.old.stack b.stack)) }
        ensures rule { AnswersStep (rules.store size base offset value (situation_of self.old)) result self.new }
    {
        let a = self.read(base)?;
        let b = self.operand(value)?;
        self.store(a, displacement(offset), size, b)?;
        Ok(Flow::Live)
    }

    fn load_wide(&mut self, destination: Register, value: u64) -> Flow
        requires { destination ≢ 10 }
        ensures performs { Performs StepsBy self.old (Insn.LoadWide destination value) (Ok result) self.new }
        ensures yields { (region : Region) → IfSome (after result self.new)
            (λ b. Holds (Fact.NumberIn region value value None) (register_at b.registers destination)) }
        ensures rule { (result ≡ Flow.Live)
            × IsSituation self.new (rules.load_wide destination value (situation_of self.old)) }
    {
        let known = Known::Number(Quantity::constant(value));
        self.write(destination, Some(known))
    }

    fn arithmetic(
        &mut self,
        profile: Profile,
        width: Width,
        operation: Arithmetic,
        destination: Register,
        operand: Operand,
    ) -> Result<Flow, Refusal>
        requires { destination ≢ 10 }
        ensures performs { Performs StepsBy self.old (Insn.Compute width operation destination operand) result
            self.new }
        ensures yields { (d : ℕ) (fact : Fact)
            → Yields profile self.old (Insn.Compute width operation destination operand) d fact
            → Keeps result self.new d fact }
        ensures rule { AnswersStep
            (rules.arithmetic profile width operation destination operand (situation_of self.old)) result self.new }
    {
        match operation {
            Arithmetic::Mov => self.move_to(width, destination, operand),
            _ => self.compute(profile, width, operation, destination, operand),
        }
    }

    /// Checks that a run may end here.
    pub fn exit(&self) -> Result<(), Refusal>
        ensures sound { IfOk result (λ _. (span : Span) (s : State) → Contains self.now (lengths_of span) s
            → (v : ℕ) × (does span s Insn.Exit ≡ Ok (Returns v))) }
        ensures floor { HasNumberAt self.now 0 → IsOk result }
        ensures unset { IfErr result (λ e. (e ≡ Refusal.UnsetRegister) ↔ HasUnset self.now (0 ∷ [])) }
        ensures set { IfOk result (λ _. HasUnset self.now (0 ∷ []) → ⊥) }
        ensures rule { result ≡ rules.exit (situation_of self.now) }
    {
        let known = self.read(Register::r0())?;
        if known.is_number() {
            Ok(())
        } else {
            Err(Refusal::ReturnPointer)
        }
    }

    /// Makes of what is known before an instruction that is no comparison what is known after it. A state that answers
    /// `Dead`, or a refusal, says nothing more.
    pub fn step(&mut self, profile: Profile, insn: &Insn) -> Result<Flow, Refusal>
        requires { MayStep insn.now }
        ensures sound { IfOk result (λ flow. StepsTo profile self.old insn.now (after flow self.new)) }
        ensures others { IfOk result (λ flow. IfSome (after flow self.new) (λ b. LeavesOthers self.old insn.now b)) }
        ensures memory { IfOk result (λ flow. IfSome (after flow self.new) (λ b. LeavesMemory self.old insn.now b)) }
        ensures yields { (d : ℕ) (fact : Fact) → Yields profile self.old insn.now d fact
            → Keeps result self.new d fact }
        ensures stores { (p count : ℕ) → Stores self.old insn.now p count
            → IsOk result
            × IfOk result (λ flow. IfSome (after flow self.new) (λ b. StoresSlots p count self.old.stack b.stack)) }
        ensures spills { (i : ℕ) (known : Known) → Spills self.old insn.now i known
            → IsOk result
            × IfOk result (λ flow. IfSome (after flow self.new) (λ b. SpillsSlot i known self.old.stack b.stack)) }
        ensures floor { ReadsNumbers self.old insn.now → IsOk result }
        ensures carries { ReadsNumbers self.old insn.now
            → IfOk result (λ flow. IfSome (after flow self.new) (λ b. Carries self.old insn.now b)) }
        ensures unset { IfErr result (λ e. (e ≡ Refusal.UnsetRegister) ↔ HasUnset self.old (read_by insn.now)) }
        ensures set { IfOk result (λ _. HasUnset self.old (read_by insn.now) → ⊥) }
        ensures rule { AnswersStep (rules.stepped profile insn.now (situation_of self.old)) result self.new }
    {
        match *insn {
            Insn::Compute {
                width,
                operation,
                destination,
                operand,
            } => self.arithmetic(profile, width, operation, destination, operand),
            Insn::Negate { width, destination } => self.negate(width, destination),
            Insn::Extend {
                extension,
                destination,
                source,
            } => self.extend(extension, destination, source),
            Insn::Convert {
                conversion,
                bits,
                destination,
            } => self.convert(conversion, bits, destination),
            Insn::Jump { .. } => Ok(Flow::Live),
            Insn::JumpLong { .. } => Ok(Flow::Live),
            Insn::Branch { .. } => unreachable!(),
            Insn::Load {
                size,
                destination,
                base,
                offset,
            } => self.load_into(profile, size, destination, base, offset),
            Insn::LoadSigned {
                size,
                destination,
                base,
                offset,
            } => self.load_signed_into(profile, size, destination, base, offset),
            Insn::Store {
                size,
                base,
                offset,
                value,
            } => self.store_at(size, base, offset, value),
            Insn::LoadWide { destination, value } => Ok(self.load_wide(destination, value)),
            Insn::Exit => {
                self.exit()?;
                Ok(Flow::Live)
            }
        }
    }
}
