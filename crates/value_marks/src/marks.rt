//! Which registers and slots of the stack bear marks.
ghost use Rattle.std.specs.Prelude.{◌≡◌, ℕ, ℤ, ◌+◌, ◌*◌, ◌<◌, ◌≤◌, Option, Some, None, Ok, length, IfSome};
ghost use Rattle.std.specs.Prelude.{option_map, option_and_then, nat_lt, ◌&&◌, if◌then◌else◌};
ghost use Rattle.abstract_state.specs.Addresses.{content_of};
ghost use Rattle.abstract_state.specs.Situation.{register_of, registers_of, situation_of, operand_of};
ghost use Rattle.abstract_state.specs.Stacks.{eight_of, whole_in};
ghost use Rattle.value_marks.specs.Mark.{mark_at};
ghost use Rattle.value_marks.specs.Marking as rules;
ghost use Rattle.value_marks.specs.Marking.{Marking, IsMarking, marking_of};
ghost use Rattle.value_marks.specs.Bearing.{AreBelow, Bears};
ghost use Rattle.semantics.specs.State.{State};
ghost use Rattle.semantics.specs.Step.{On};
ghost use Rattle.abstract_state.specs.State.{Span, lengths_of, Contains, does};

use crate::mark::Mark;
use abstract_state::known::Known;
use abstract_state::slot::Slot;
use abstract_state::state::{AbsReg, AbsState};
use bpf_words::instruction::{Arithmetic, Insn, Operand, Width};
use bpf_words::register::Register;
use semantics::sizes::count;
use span_context::size::Size;

/// What bears a mark.
#[derive(Clone, Copy)]
pub struct Marks {
    pub registers: [Option<Mark>; 11],
    pub slots: [Option<Mark>; 64],
}

/// Whether a register may hold one of several numbers, or of several addresses in a lent region.
pub fn varies(register: AbsReg) -> bool
    ensures { result ≡ rules.varies (register_of register) }
{
    match register {
        AbsReg::Unset => false,
        AbsReg::Set(Known::Number(quantity)) => quantity.only().is_none(),
        AbsReg::Set(Known::Lent(address)) => address.offset.only().is_none(),
        AbsReg::Set(Known::Context(_)) => false,
        AbsReg::Set(Known::Stack(_)) => false,
    }
}

/// Whether a register holds a number of 32 bits.
fn fits_narrow(register: AbsReg) -> bool
    ensures { result ≡ rules.fits_narrow (register_of register) }
{
    match register {
        AbsReg::Set(Known::Number(quantity)) => quantity.range.high < 1 << 32,
        _ => false,
    }
}

/// The mark of a place that the instruction at a slot copies: its own, or a new one where the value may vary.
#[tactic(auto, unfolding(crate::specs::Marking::named))]
pub fn named(at: usize, content: AbsReg, mark: Option<Mark>) -> Option<Mark>
    ensures { result ≡ rules.named at (register_of content) mark }
{
    if let Some(mark) = mark {
        return Some(mark);
    }
    if varies(content) {
        return Some(Mark::new(at));
    }
    None
}

/// The mark of a copy by a move of the width.
fn moved(width: Width, content: AbsReg, mark: Option<Mark>) -> Option<Mark>
    ensures { result ≡ option_map (rules.moved_mark width (register_of content)) mark }
{
    let Some(mark) = mark else {
        return None;
    };
    if fits_narrow(content) {
        Some(mark)
    } else {
        Some(mark.cut_to(width))
    }
}

/// The mark after an operation with an exact number.
#[tactic(auto, unfolding(crate::specs::Marking::computed, crate::specs::Marking::shifted))]
fn computed(
    width: Width,
    operation: Arithmetic,
    by: Option<u64>,
    mark: Option<Mark>,
) -> Option<Mark>
    ensures { result ≡ rules.computed width operation by mark }
{
    let by = by?;
    let mark = mark?;
    match operation {
        Arithmetic::Add => Some(mark.raised(by).cut_to(width)),
        Arithmetic::Sub => Some(mark.lowered(by).cut_to(width)),
        _ => None,
    }
}

/// An operand's one number, where it has one.
fn exactly(known: &AbsState, operand: Operand) -> Option<u64>
    ensures { result ≡ rules.exactly (operand_of (registers_of known.now.registers) operand) }
{
    match known.operand(operand) {
        Ok(Known::Number(quantity)) => quantity.only(),
        _ => None,
    }
}

/// The byte of the stack at which a load or a store begins.
#[tactic(auto, unfolding(crate::specs::Marking::place))]
fn place(base: AbsReg, offset: i16) -> Option<usize>
    ensures rule { result ≡ rules.place (register_of base) offset }
    ensures low { IfSome result (λ p. p < 512) }
{
    let AbsReg::Set(Known::Stack(address)) = base else {
        return None;
    };
    let place = address
        .offset
        .wrapping_add(i64::from(offset).cast_unsigned());
    if place < 512 {
        Some(place as usize)
    } else {
        None
    }
}

/// The slot of which a load or a store takes all eight bytes.
#[tactic(auto, unfolding(crate::specs::Marking::slot_of))]
fn slot_of(size: Size, place: Option<usize>) -> Option<usize>
    requires { IfSome place (λ p. p < 512) }
    ensures rule { result ≡ rules.slot_of size place }
    ensures low { IfSome result (λ slot. slot < 64) }
{
    let (Size::Double, Some(place)) = (size, place) else {
        return None;
    };
    if place % 8 == 0 {
        Some(place / 8)
    } else {
        None
    }
}

/// The mark of a slot after a store of bytes.
fn spared(mark: Option<Mark>, slot: usize, place: usize, count: usize) -> Option<Mark>
    requires slot { slot < 64 }
    requires place { place < 512 }
    requires few { count ≤ 8 }
    ensures { result ≡ (if nat_lt place (8 * slot + 8) && nat_lt (8 * slot) (place + count) then None else mark) }
{
    if place < 8 * slot + 8 && 8 * slot < place + count {
        None
    } else {
        mark
    }
}

/// Takes away the marks of the slots that a store of bytes touches.
fn clear(slots: &mut [Option<Mark>; 64], place: usize, count: usize)
    requires place { place < 512 }
    requires few { count ≤ 8 }
    ensures { (i : ℕ) → i < 64
        → mark_at slots.new i
        ≡ (if nat_lt place (8 * i + 8) && nat_lt (8 * i) (place + count) then None else mark_at slots.old i) }
{
    for i in 0..64 {
        slots[i] = spared(slots[i], i, place, count);
    }
}

impl Marks {
    /// No marks.
    pub fn none() -> Marks
        ensures rule { IsMarking result rules.no_marks }
        ensures below { AreBelow 0 (marking_of result) }
    {
        Marks {
            registers: [None; 11],
            slots: [None; 64],
        }
    }

    /// Writes the mark of a register.
    pub fn set_register(&mut self, register: Register, mark: Option<Mark>)
        ensures { (w : Marking) → IsMarking self.old w → IsMarking self.new (rules.mark_register register mark w) }
    {
        self.registers[register.index()] = mark;
    }

    fn set_slot(&mut self, slot: usize, mark: Option<Mark>)
        requires { slot < 64 }
        ensures { (w : Marking) → IsMarking self.old w → IsMarking self.new (rules.mark_slot slot mark w) }
    {
        self.slots[slot] = mark;
    }

    /// The mark of what a register holds, which the instruction at a slot copies.
    fn name_register(&mut self, at: usize, register: Register, known: &AbsState) -> Option<Mark>
        ensures mark { (w : Marking) → IsMarking self.old w
            → result ≡ rules.named at (registers_of known.now.registers register) (w.registers register) }
        ensures rule { (w : Marking) → IsMarking self.old w
            → IsMarking self.new (rules.mark_register register result w) }
    {
        let mark = named(
            at,
            known.registers[register.index()],
            self.registers[register.index()],
        );
        self.set_register(register, mark);
        mark
    }

    /// Notes a move of a register to another.
    #[tactic(auto, unfolding(crate::specs::Marking::copied))]
    fn copy(
        &mut self,
        at: usize,
        width: Width,
        destination: Register,
        source: Register,
        known: &AbsState,
    )
        ensures rule { (w : Marking) → IsMarking self.old w
            → IsMarking self.new (rules.copied at width destination source (registers_of known.now.registers) w) }
    {
        let mark = self.name_register(at, source, known);
        let content = known.registers[source.index()];
        self.set_register(destination, moved(width, content, mark));
    }

    /// Notes an operation with two sides.
    #[tactic(auto, unfolding(crate::specs::Marking::arithmetic))]
    fn arithmetic(
        &mut self,
        at: usize,
        width: Width,
        operation: Arithmetic,
        destination: Register,
        operand: Operand,
        known: &AbsState,
    )
        ensures rule { (w : Marking) → IsMarking self.old w
            → IsMarking self.new
            (rules.arithmetic at width operation destination operand (registers_of known.now.registers) w) }
    {
        match (operation, operand) {
            (Arithmetic::Mov, Operand::Source(source)) => {
                self.copy(at, width, destination, source, known)
            }
            (Arithmetic::Mov, Operand::Immediate(_)) => self.set_register(destination, None),
            _ => {
                let by = exactly(known, operand);
                let mark = computed(width, operation, by, self.registers[destination.index()]);
                self.set_register(destination, mark);
            }
        }
    }

    /// Notes a store of bytes: the slots that it touches bear no marks.
    #[tactic(auto, unfolding(crate::specs::Marking::overwritten))]
    fn overwrite(&mut self, place: Option<usize>, count: usize)
        requires low { IfSome place (λ p. p < 512) }
        requires few { count ≤ 8 }
        ensures { (w : Marking) → IsMarking self.old w → IsMarking self.new (rules.overwritten place count w) }
    {
        match place {
            Some(place) => clear(&mut self.slots, place, count),
            None => self.slots = [None; 64],
        }
    }
    /// Notes a store of all eight bytes of a slot.
    #[tactic(auto, unfolding(crate::specs::Marking::spilled))]
    fn spill(&mut self, at: usize, slot: usize, source: Register, known: &AbsState)
        requires { slot < 64 }
        ensures { (w : Marking) → IsMarking self.old w
            → IsMarking self.new (rules.spilled at slot source (registers_of known.now.registers) w) }
    {
        let mark = self.name_register(at, source, known);
        self.set_slot(slot, mark);
    }

    /// Notes a store.
    #[tactic(auto, unfolding(crate::specs::Marking::stored))]
    fn store(
        &mut self,
        at: usize,
        size: Size,
        base: Register,
        offset: i16,
        value: Operand,
        known: &AbsState,
    )
        ensures { (w : Marking) → IsMarking self.old w
            → IsMarking self.new (rules.stored at size base offset value (registers_of known.now.registers) w) }
    {
        let place = place(known.registers[base.index()], offset);
        if let Operand::Source(source) = value {
            if let Some(slot) = slot_of(size, place) {
                self.spill(at, slot, source, known);
                return;
            }
        }
        self.overwrite(place, count(size));
    }

    /// Notes a load of all that was spilled into a slot.
    #[tactic(auto, unfolding(crate::specs::Marking::filled))]
    fn fill(&mut self, at: usize, destination: Register, slot: usize, content: Slot)
        requires { slot < 64 }
        ensures { (w : Marking) → IsMarking self.old w
            → IsMarking self.new (rules.filled at destination slot (whole_in (eight_of content)) w) }
    {
        let Slot::Spilled(known) = content else {
            self.set_register(destination, None);
            return;
        };
        let mark = named(at, AbsReg::Set(known), self.slots[slot]);
        self.set_slot(slot, mark);
        self.set_register(destination, mark);
    }

    /// Notes a load.
    #[tactic(auto, unfolding(crate::specs::Marking::loaded))]
    fn load(
        &mut self,
        at: usize,
        size: Size,
        destination: Register,
        base: Register,
        offset: i16,
        known: &AbsState,
    )
        ensures { (w : Marking) → IsMarking self.old w
            → IsMarking self.new (rules.loaded at size destination base offset (situation_of known.now) w) }
    {
        let place = place(known.registers[base.index()], offset);
        match slot_of(size, place) {
            Some(slot) => self.fill(at, destination, slot, known.stack[slot]),
            None => self.set_register(destination, None),
        }
    }

    /// Notes what the instruction at a slot does.
    #[tactic(auto, unfolding(crate::specs::Marking::followed))]
    fn note(&mut self, at: usize, insn: &Insn, known: &AbsState)
        ensures { (w : Marking) → IsMarking self.old w
            → IsMarking self.new (rules.followed at insn.now (situation_of known.now) w) }
    {
        match *insn {
            Insn::Compute {
                width,
                operation,
                destination,
                operand,
            } => self.arithmetic(at, width, operation, destination, operand, known),
            Insn::Load {
                size,
                destination,
                base,
                offset,
            } => self.load(at, size, destination, base, offset, known),
            Insn::Store {
                size,
                base,
                offset,
                value,
            } => self.store(at, size, base, offset, value, known),
            Insn::Negate { destination, .. } => self.set_register(destination, None),
            Insn::Extend { destination, .. } => self.set_register(destination, None),
            Insn::Convert { destination, .. } => self.set_register(destination, None),
            Insn::LoadSigned { destination, .. } => self.set_register(destination, None),
            Insn::LoadWide { destination, .. } => self.set_register(destination, None),
            Insn::Jump { .. } | Insn::JumpLong { .. } | Insn::Branch { .. } | Insn::Exit => {}
        }
    }

    /// Notes what the instruction at a slot copies, by what is known before it. The marks are true of each state to
    /// which it leads, where they are true before and no origin is its slot yet.
    pub fn follow(&mut self, at: usize, insn: &Insn, known: &AbsState)
        ensures rule { (w : Marking) → IsMarking self.old w
            → IsMarking self.new (rules.followed at insn.now (situation_of known.now) w) }
        ensures below { AreBelow at (marking_of self.old) → AreBelow (at + 1) (marking_of self.new) }
        ensures sound { (span : Span) (s next : State) (far : ℤ) → Contains known.now (lengths_of span) s
            → AreBelow at (marking_of self.old) → Bears (marking_of self.old) s
            → does span s insn.now ≡ Ok (On next far) → Bears (marking_of self.new) next }
    {
        self.note(at, insn, known);
        is_whole(self);
    }
}

/// Marks are of the eleven registers and the 64 slots: nothing to run.
fn is_whole(marks: &Marks)
    ensures registers { length marks.now.registers ≡ 11 }
    ensures slots { length marks.now.slots ≡ 64 }
{
    let _register = marks.registers[0];
    let _slot = marks.slots[0];
}
