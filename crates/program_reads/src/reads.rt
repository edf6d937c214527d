//! The list of what loads can read, by what is known of the machine before each.
ghost use Rattle.std.specs.Prelude.{◌≡◌, ◌↔◌, ℕ, ◌+◌, ◌≤◌, Some, length, IsTrue};
ghost use Rattle.span_context.specs.Context.{context_base};
ghost use Rattle.bpf_words.specs.Words.{program_of};
ghost use Rattle.bpf_words.specs.declared.instruction.Insn.{Insn as TheInsn};
ghost use Rattle.span_context.specs.declared.profile.Profile.{Profile as TheProfile};
ghost use Rattle.semantics.specs.Memory.{address_of};
ghost use Rattle.semantics.specs.Safe.{SafeIn};
ghost use Rattle.semantics.specs.State.{State};
ghost use Rattle.abstract_state.specs.declared.known.Known.{Known as TheKnown};
ghost use Rattle.abstract_state.specs.Known.{ContainsKnown};
ghost use Rattle.abstract_state.specs.Lent.{Lengths, base_of, limit_of};
ghost use Rattle.abstract_state.specs.State.{ContainsRegister, Contains, WithinState};
ghost use Rattle.program_reads.specs.Runs.{ContainAllRuns};
ghost use Rattle.program_reads.specs.Positions.{IsPositionless};
ghost use Rattle.program_reads.specs.Reads.{CoversAt, Determines};
ghost use Rattle.program_reads.specs.Loads.{CoversLoad, CoversStates};
ghost use Rattle.program_reads.specs.Marks.{Grows};

use crate::fields::mark;
use abstract_state::address::{ContextAddress, LentAddress};
use abstract_state::known::Known;
use abstract_state::region::Region;
use abstract_state::state::{AbsReg, AbsState};
use bpf_words::instruction::Insn;
use bpf_words::words::Words;
use semantics::sizes::{count, count_signed};
use span_context::context::{LINK_LIMIT, TEXT_LIMIT};

/// What loads can read of a span.
#[derive(Clone, Copy)]
pub struct Reads {
    /// Which of `ContextField::ALL`.
    pub fields: [bool; 13],
    /// How many bytes of the text there are up to the last one that can be read.
    pub text: u64,
    /// The same of the link's text.
    pub link: u64,
}

/// How many bytes of a lent region there are up to the last one that a load can take, however long the region is.
fn end_of(base: LentAddress, offset: i16, bytes: u64) -> u64
    requires { bytes ≤ 8 }
    ensures { (lengths : Lengths) (n start : ℕ) → ContainsKnown (TheKnown.Lent base) lengths n
        → address_of n offset ≡ base_of base.region + start → start + bytes ≤ limit_of base.region
        → start + bytes ≤ result }
{
    let last = base
        .offset
        .range
        .high
        .saturating_add_signed(i64::from(offset));
    last.saturating_add(bytes).min(base.region.limit())
}

/// The first byte of the context that a load takes.
fn first_of(base: ContextAddress, offset: i16) -> u64
    ensures { (start : ℕ) → address_of (context_base + base.offset) offset ≡ context_base + start → start ≤ 72
        → result ≡ start }
{
    base.offset.wrapping_add_signed(i64::from(offset))
}

impl Reads {
    /// Whether it lists none of the fields that give a span's position: its index, the count of spans and the
    /// version's number.
    pub fn is_positionless(&self) -> bool
        ensures { IsTrue result ↔ IsPositionless self.now }
    {
        !(self.fields[8] | self.fields[9] | self.fields[10])
    }

    /// Of no load.
    pub fn nothing() -> Reads {
        Reads {
            fields: [false; 13],
            text: 0,
            link: 0,
        }
    }

    /// What the loads of a program can read by what is known before each slot; a load to which no run comes reads
    /// nothing.
    pub fn of(words: &Words<'_>, states: &[Option<AbsState>]) -> Reads
        requires { length states.now ≡ length (program_of words.now) }
        ensures covers { CoversStates result (program_of words.now) states.now }
        ensures determines { (profile : TheProfile) → SafeIn profile (program_of words.now)
            → ContainAllRuns profile (program_of words.now) states.now
            → Determines result profile (program_of words.now) }
    {
        let mut reads = Reads::nothing();
        for slot in 0..words.len() {
            reads.add_at(words.insn(slot), &states[slot]);
        }
        reads
    }

    /// Adds what a slot's instruction can read; nothing where it has none, or no run comes there.
    fn add_at(&mut self, insn: Option<Insn>, state: &Option<AbsState>)
        ensures grows { Grows self.old self.new }
        ensures covers { (i : TheInsn) (lengths : Lengths) (s : State) → insn ≡ Some i
            → WithinState state.now lengths s → CoversLoad self.new s i }
    {
        if let (Some(insn), Some(state)) = (insn, state) {
            self.add_insn(&insn, state);
        }
    }

    /// Adds what an instruction can read by what is known before it.
    pub fn add_insn(&mut self, insn: &Insn, state: &AbsState)
        ensures grows { Grows self.old self.new }
        ensures covers { (lengths : Lengths) (s : State) → Contains state.now lengths s
            → CoversLoad self.new s insn.now }
    {
        match *insn {
            Insn::Load {
                size,
                base,
                offset,
                ..
            } => { self.add(state.registers[base.index()], offset, count(size) as u64) }
            Insn::LoadSigned {
                size,
                base,
                offset,
                ..
            } => {
                self.add(
                    state.registers[base.index()],
                    offset,
                    count_signed(size) as u64,
                )
            }
            _ => {}
        }
    }

    /// Adds what a load can read by what its register holds: all that a span has where that may be any address.
    fn add(&mut self, register: AbsReg, offset: i16, bytes: u64)
        requires { bytes ≤ 8 }
        ensures grows { Grows self.old self.new }
        ensures covers { (lengths : Lengths) (n : ℕ) → ContainsRegister register lengths (Some n)
            → CoversAt self.new (address_of n offset) bytes }
    {
        match register {
            AbsReg::Set(known) => self.add_known(known, offset, bytes),
            AbsReg::Unset => self.add_all(bytes),
        }
    }

    /// The same of what is known of a register that is set.
    fn add_known(&mut self, known: Known, offset: i16, bytes: u64)
        requires { bytes ≤ 8 }
        ensures grows { Grows self.old self.new }
        ensures covers { (lengths : Lengths) (n : ℕ) → ContainsKnown known lengths n
            → CoversAt self.new (address_of n offset) bytes }
    {
        match known {
            Known::Context(base) => self.add_fields(base, offset, bytes),
            Known::Lent(base) => self.add_bytes(base, offset, bytes),
            Known::Stack(_base) => {}
            Known::Number(_number) => self.add_all(bytes),
        }
    }

    /// Adds all that a span has.
    fn add_all(&mut self, bytes: u64)
        ensures grows { Grows self.old self.new }
        ensures covers { (address : ℕ) → CoversAt self.new address bytes }
    {
        mark(&mut self.fields, 0, 72);
        self.text = self.text.max(TEXT_LIMIT as u64);
        self.link = self.link.max(LINK_LIMIT as u64);
    }

    /// Adds the fields of which a load takes bytes from the context.
    fn add_fields(&mut self, base: ContextAddress, offset: i16, bytes: u64)
        requires { bytes ≤ 8 }
        ensures grows { Grows self.old self.new }
        ensures covers { CoversAt self.new (address_of (context_base + base.offset) offset) bytes }
    {
        let first = first_of(base, offset);
        mark(&mut self.fields, first, first.saturating_add(bytes));
    }

    /// Adds the bytes up to the last one that a load can take from a region, however long.
    fn add_bytes(&mut self, base: LentAddress, offset: i16, bytes: u64)
        requires { bytes ≤ 8 }
        ensures grows { Grows self.old self.new }
        ensures covers { (lengths : Lengths) (n : ℕ) → ContainsKnown (TheKnown.Lent base) lengths n
            → CoversAt self.new (address_of n offset) bytes }
    {
        let end = end_of(base, offset, bytes);
        match base.region {
            Region::Text => self.text = self.text.max(end),
            Region::Link => self.link = self.link.max(end),
        }
    }
}
