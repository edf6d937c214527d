ghost use Rattle.std.specs.Prelude.{◌≡◌, ℕ, ◌+◌, ◌<◌, ◌≤◌, ◌^◌, List, length, OnOk, OnErr, IfErr, Ok, Err};
ghost use Rattle.span_context.specs.Context.{span_bytes};
ghost use Rattle.bpf_words.specs.Words.{program_of};
ghost use Rattle.semantics.specs.State.{start, register_of, operand_in, written};
ghost use Rattle.semantics.specs.Memory.{address_of, bytes_in, load as load_of};
ghost use Rattle.semantics.specs.Step.{Next, go_by, write_and_go, first_of, perform, step};
ghost use Rattle.interpreter.specs.Progress.{move_of, result_of};
ghost use Rattle.interpreter.specs.Running.{Machine as MachineValue};
ghost use Rattle.interpreter.specs.Running.{Reads, Stays, state_of};

use crate::memory::Memory;
use alu::arithmetic::{convert, extend, holds, negate, sign, value};
use bpf_words::instruction::{
    Arithmetic, Comparison, Conversion, ConvertedBits, Extension, Insn, Operand, SignedSize, Width,
};
use bpf_words::register::Register;
use bpf_words::words::Words;
use semantics::FaultKind;
use semantics::sizes::size_read;
use span_context::context::{CONTEXT, FRAME};
use span_context::size::Size;
use std::marker::Model;

/// The machine between two steps.
#[derive(Drop)]
pub struct Machine<'a> {
    slot: usize,
    registers: [Option<u64>; 11],
    memory: Memory<'a>,
}

impl<'a> Model for Machine<'a> {
    ghost Value = { MachineValue };

    ghost view = { λ m. record {
      bytes = m.memory.bytes;
      slot = m.slot;
      registers = m.registers;
      stack = m.memory.stack;
    } };
}

impl<'a> Machine<'a> {
    pub fn new(context: &'a [u8], text: &'a [u8], link: &'a [u8]) -> Self
        requires context_short { length context.now < 2 ^ 32 }
        requires text_short { length text.now < 2 ^ 32 }
        requires link_short { length link.now < 2 ^ 32 }
        ensures state { state_of result ≡ start }
        ensures bytes { result.bytes ≡ span_bytes context.now text.now link.now }
    {
        let mut registers = [None; 11];
        registers[1] = Some(CONTEXT);
        registers[10] = Some(FRAME);
        Machine {
            slot: 0,
            registers,
            memory: Memory::new(context, text, link),
        }
    }

    pub fn slot(&self) -> usize
        ensures { result ≡ self.now.slot }
    {
        self.slot
    }

    /// The number in a register, if one is set.
    #[tactic(auto, using(crate::proofs::Registers::reads))]
    pub fn register(&self, register: Register) -> Result<u64, FaultKind>
        ensures { result ≡ register_of (state_of self.now) register }
    {
        self.registers[register.index()].ok_or(FaultKind::UnsetRegister)
    }

    fn operand(&self, operand: Operand) -> Result<u64, FaultKind>
        ensures { result ≡ operand_in (state_of self.now) operand }
    {
        match operand {
            Operand::Immediate(value) => Ok(i64::from(value).cast_unsigned()),
            Operand::Source(register) => self.register(register),
        }
    }

    /// The number in the bytes at an address, if a program may read them.
    pub fn number_at(&self, address: u64, size: Size) -> Result<u64, FaultKind>
        ensures { result ≡ load_of self.now.bytes self.now.stack address (bytes_in size) }
    {
        self.memory.load(address, size)
    }

    fn write(&mut self, register: Register, value: u64) -> Result<(), FaultKind>
        ensures ok { OnOk result (written (state_of self.old) register value ≡ Ok (state_of self.new)) }
        ensures err { IfErr result (λ kind. written (state_of self.old) register value ≡ Err kind) }
        ensures stays { Stays self.old self.new }
    {
        if register.index() == 10 {
            return Err(FaultKind::WriteR10);
        }
        self.registers[register.index()] = Some(value);
        Ok(())
    }

    /// A register is written, and on by a distance.
    fn write_and_go(
        &mut self,
        register: Register,
        value: u64,
        distance: i32,
    ) -> Result<Motion, FaultKind>
        ensures value { move_of result (state_of self.new) ≡ write_and_go (state_of self.old) register value distance }
        ensures stays { Stays self.old self.new }
    {
        self.write(register, value)?;
        Ok(Motion::By(distance))
    }

    fn first_operand(&self, operation: Arithmetic, register: Register) -> Result<u64, FaultKind>
        ensures { result ≡ first_of (state_of self.now) operation register }
    {
        if operation == Arithmetic::Mov {
            Ok(0)
        } else {
            self.register(register)
        }
    }

    fn compute(
        &mut self,
        width: Width,
        operation: Arithmetic,
        destination: Register,
        operand: Operand,
    ) -> Result<Motion, FaultKind>
        ensures value { move_of result (state_of self.new)
            ≡ perform self.old.bytes (state_of self.old) (Insn.Compute width operation destination operand) }
        ensures stays { Stays self.old self.new }
    {
        let a = self.first_operand(operation, destination)?;
        let b = self.operand(operand)?;
        self.write_and_go(destination, value(operation, width, a, b), 0)
    }

    fn negate(&mut self, width: Width, destination: Register) -> Result<Motion, FaultKind>
        ensures value { move_of result (state_of self.new)
            ≡ perform self.old.bytes (state_of self.old) (Insn.Negate width destination) }
        ensures stays { Stays self.old self.new }
    {
        let a = self.register(destination)?;
        self.write_and_go(destination, negate(width, a), 0)
    }

    fn extend(
        &mut self,
        extension: Extension,
        destination: Register,
        source: Register,
    ) -> Result<Motion, FaultKind>
        ensures value { move_of result (state_of self.new)
            ≡ perform self.old.bytes (state_of self.old) (Insn.Extend extension destination source) }
        ensures stays { Stays self.old self.new }
    {
        let a = self.register(source)?;
        self.write_and_go(destination, extend(extension, a), 0)
    }

    fn convert(
        &mut self,
        conversion: Conversion,
        bits: ConvertedBits,
        destination: Register,
    ) -> Result<Motion, FaultKind>
        ensures value { move_of result (state_of self.new)
            ≡ perform self.old.bytes (state_of self.old) (Insn.Convert conversion bits destination) }
        ensures stays { Stays self.old self.new }
    {
        let a = self.register(destination)?;
        self.write_and_go(destination, convert(conversion, bits, a), 0)
    }

    fn branch(
        &self,
        width: Width,
        comparison: Comparison,
        left: Register,
        right: Operand,
        distance: i16,
    ) -> Result<Motion, FaultKind>
        ensures { move_of result (state_of self.now)
            ≡ perform self.now.bytes (state_of self.now) (Insn.Branch width comparison left right distance) }
    {
        let a = self.register(left)?;
        let b = self.operand(right)?;
        if holds(comparison, width, a, b) {
            Ok(Motion::By(i32::from(distance)))
        } else {
            Ok(Motion::By(0))
        }
    }

    fn load(
        &mut self,
        size: Size,
        destination: Register,
        base: Register,
        offset: i16,
    ) -> Result<Motion, FaultKind>
        ensures value { move_of result (state_of self.new)
            ≡ perform self.old.bytes (state_of self.old) (Insn.Load size destination base offset) }
        ensures stays { Stays self.old self.new }
    {
        let address = address(self.register(base)?, offset);
        let value = self.memory.load(address, size)?;
        self.write_and_go(destination, value, 0)
    }

    fn load_signed(
        &mut self,
        size: SignedSize,
        destination: Register,
        base: Register,
        offset: i16,
    ) -> Result<Motion, FaultKind>
        ensures value { move_of result (state_of self.new)
            ≡ perform self.old.bytes (state_of self.old) (Insn.LoadSigned size destination base offset) }
        ensures stays { Stays self.old self.new }
    {
        let address = address(self.register(base)?, offset);
        let value = self.memory.load(address, size_read(size))?;
        self.write_and_go(destination, sign(size, value), 0)
    }

    fn store(
        &mut self,
        size: Size,
        base: Register,
        offset: i16,
        value: Operand,
    ) -> Result<Motion, FaultKind>
        ensures value { move_of result (state_of self.new)
            ≡ perform self.old.bytes (state_of self.old) (Insn.Store size base offset value) }
        ensures stays { Stays self.old self.new }
    {
        let address = address(self.register(base)?, offset);
        let value = self.operand(value)?;
        self.memory.store(address, size, value)?;
        Ok(Motion::By(0))
    }

    fn exit(&self) -> Result<Motion, FaultKind>
        ensures { move_of result (state_of self.now) ≡ perform self.now.bytes (state_of self.now) Insn.Exit }
    {
        let value = self.register(Register::r0())?;
        Ok(Motion::Stops(value))
    }

    /// What an instruction does, whatever the program is.
    fn perform(&mut self, insn: Insn) -> Result<Motion, FaultKind>
        ensures value { move_of result (state_of self.new) ≡ perform self.old.bytes (state_of self.old) insn }
        ensures stays { Stays self.old self.new }
    {
        match insn {
            Insn::Compute {
                width,
                operation,
                destination,
                operand,
            } => self.compute(width, operation, destination, operand),
            Insn::Negate { width, destination } => self.negate(width, destination),
            Insn::Extend {
                extension,
                destination,
                source,
            } => self.extend(extension, destination, source),
            Insn::Convert {
                conversion,
                bits,
                destination,
            } => self.convert(conversion, bits, destination),
            Insn::Jump { distance } => Ok(Motion::By(i32::from(distance))),
            Insn::JumpLong { distance } => Ok(Motion::By(distance)),
            Insn::Branch {
                width,
                comparison,
                left,
                right,
                distance,
            } => self.branch(width, comparison, left, right, distance),
            Insn::Load {
                size,
                destination,
                base,
                offset,
            } => self.load(size, destination, base, offset),
            Insn::LoadSigned {
                size,
                destination,
                base,
                offset,
            } => self.load_signed(size, destination, base, offset),
            Insn::Store {
                size,
                base,
                offset,
                value,
            } => self.store(size, base, offset, value),
            Insn::LoadWide { destination, value } => self.write_and_go(destination, value, 1),
            Insn::Exit => self.exit(),
        }
    }

    /// On by a distance, counted from the slot after this one.
    fn go_by(&mut self, words: &Words<'_>, distance: i32) -> Result<(), FaultKind>
        requires { self.old.slot < length (program_of words.now) }
        ensures ok { OnOk result (go_by (program_of words.now) (state_of self.old) distance
            ≡ Ok (Next (state_of self.new))) }
        ensures err { IfErr result (λ kind. go_by (program_of words.now) (state_of self.old) distance ≡ Err kind) }
        ensures within { self.new.slot < length (program_of words.now) }
        ensures reads { Reads self.old self.new }
    {
        let count = words.len();
        let Some(slot) = (self.slot + 1).checked_add_signed(distance as isize) else {
            return Err(FaultKind::OutOfCode);
        };
        if slot >= count {
            return Err(FaultKind::OutOfCode);
        }
        self.slot = slot;
        Ok(())
    }

    /// One step of the machine.
    pub fn step(&mut self, words: &Words<'_>) -> Result<Progress, FaultKind>
        requires within { self.old.slot < length (program_of words.now) }
        ensures value { result_of result (state_of self.new)
            ≡ step (program_of words.now) self.old.bytes (state_of self.old) }
        ensures within { self.new.slot < length (program_of words.now) }
        ensures reads { Reads self.old self.new }
    {
        let Some(insn) = words.insn(self.slot) else {
            return Err(FaultKind::BadInstruction);
        };
        match self.perform(insn)? {
            Motion::By(distance) => {
                self.go_by(words, distance)?;
                Ok(Progress::Goes)
            }
            Motion::Stops(value) => Ok(Progress::Ends(value)),
        }
    }
}

/// The address that a base register's number and an offset give.
pub fn address(base: u64, offset: i16) -> u64
    ensures { result ≡ address_of base offset }
{
    base.wrapping_add_signed(i64::from(offset))
}

/// What an instruction without a fault does to the run: it goes on by a distance, counted from the slot after it, or
/// ends it.
#[derive(Clone, Copy)]
pub enum Motion {
    By(i32),
    Stops(u64),
}

/// How a step without a fault ends.
#[derive(Clone, Copy)]
pub enum Progress {
    Goes,
    Ends(u64),
}
