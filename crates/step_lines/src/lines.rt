//! The lines of one step.
ghost use Rattle.std.specs.Prelude.{◌≡◌, ◌++◌, ◌+◌, ◌<◌, ◌^◌, OnOk, Some, string_bytes};
ghost use Rattle.interpreter.specs.Running.{state_of};
ghost use Rattle.step_lines.specs.Steps.{reaches, location, number_text, register_now, stack_line, stored_now};
ghost use Rattle.step_lines.specs.Steps.{written_line, instruction_line, slot_line, passed_line};

use bpf_words::instruction::Insn;
use bpf_words::register::Register;
use disassembler::line::Line;
use interpreter::machine::{Machine, address};
use span_context::context::{CONTEXT, FRAME, LINK, LINK_LIMIT, STACK_BYTES, TEXT, TEXT_LIMIT};
use span_context::size::Size;
use std::alloc::AllocError;

/// How many bytes a whole context has.
const CONTEXT_BYTES: u64 = 72;

/// Whether a number is the address of a byte of a region, or the one behind its last byte.
fn reaches(first: u64, length: u64, number: u64) -> bool
    requires { first + length < 2 ^ 64 }
    ensures { result ≡ reaches first length number }
{
    number >= first && number <= first + length
}

/// Appends which region's address a number is, if it is one.
fn push_location(text: &mut String, number: u64) -> Result<(), AllocError>
    ensures { OnOk result (string_bytes text.new ≡ string_bytes text.old ++ location number) }
{
    if reaches(CONTEXT, CONTEXT_BYTES, number) {
        write!(text, ", context+{}", number - CONTEXT)
    } else if reaches(TEXT, TEXT_LIMIT as u64, number) {
        write!(text, ", text+{}", number - TEXT)
    } else if reaches(LINK, LINK_LIMIT as u64, number) {
        write!(text, ", link+{}", number - LINK)
    } else if reaches(FRAME - STACK_BYTES as u64, STACK_BYTES as u64, number) {
        write!(text, ", stack-{}", FRAME - number)
    } else {
        Ok(())
    }
}

/// Appends a number that was written, and the rest of its line.
fn push_number(text: &mut String, number: u64) -> Result<(), AllocError>
    ensures { OnOk result (string_bytes text.new ≡ string_bytes text.old ++ number_text number) }
{
    write!(text, " = {number}")?;
    push_location(text, number)?;
    text.push('\n')
}

/// Appends the line of a register that was written.
fn push_register(
    text: &mut String,
    register: Register,
    machine: &Machine<'_>,
) -> Result<(), AllocError>
    ensures { OnOk result (string_bytes text.new
        ≡ string_bytes text.old ++ register_now (state_of machine.now) register) }
{
    let Ok(number) = machine.register(register) else {
        return Ok(());
    };
    write!(text, "  r{}", register.number())?;
    push_number(text, number)
}

/// Appends the line of bytes of the stack, which hold this number.
fn push_stack(text: &mut String, address: u64, number: u64) -> Result<(), AllocError>
    ensures { OnOk result (string_bytes text.new ≡ string_bytes text.old ++ stack_line address number) }
{
    write!(text, "  [stack-{}]", FRAME.saturating_sub(address))?;
    push_number(text, number)
}

/// Appends the line of the bytes of the stack that were written.
fn push_stored(
    text: &mut String,
    size: Size,
    base: Register,
    offset: i16,
    machine: &Machine<'_>,
) -> Result<(), AllocError>
    ensures { OnOk result (string_bytes text.new
        ≡ string_bytes text.old ++ stored_now machine.now.bytes (state_of machine.now) size base offset) }
{
    let Ok(first) = machine.register(base) else {
        return Ok(());
    };
    let address = address(first, offset);
    let Ok(number) = machine.number_at(address, size) else {
        return Ok(());
    };
    push_stack(text, address, number)
}

/// Appends what an instruction wrote, which left this machine.
fn push_written(text: &mut String, insn: Insn, machine: &Machine<'_>) -> Result<(), AllocError>
    ensures { OnOk result (string_bytes text.new
        ≡ string_bytes text.old ++ written_line machine.now.bytes (state_of machine.now) insn) }
{
    match insn {
        Insn::Compute { destination, .. }
        | Insn::Negate { destination, .. }
        | Insn::Extend { destination, .. }
        | Insn::Convert { destination, .. }
        | Insn::Load { destination, .. }
        | Insn::LoadSigned { destination, .. }
        | Insn::LoadWide { destination, .. } => push_register(text, destination, machine),
        Insn::Store {
            size,
            base,
            offset,
            ..
        } => push_stored(text, size, base, offset, machine),
        Insn::Jump { .. } | Insn::JumpLong { .. } | Insn::Branch { .. } | Insn::Exit => Ok(()),
    }
}

/// Appends what the instruction that a run went past wrote, where one stood in the slot.
pub fn push_passed(
    text: &mut String,
    insn: &Option<Insn>,
    machine: &Machine<'_>,
) -> Result<(), AllocError>
    ensures { OnOk result (string_bytes text.new
        ≡ string_bytes text.old ++ passed_line machine.now.bytes (state_of machine.now) (Some insn.now)) }
{
    match insn {
        Some(insn) => push_written(text, *insn, machine),
        None => Ok(()),
    }
}

/// Appends the line of a slot and its instruction.
#[tactic(auto, unfolding(disassembler::specs::Canonical::canonical_line))]
pub fn push_instruction(text: &mut String, slot: usize, insn: Insn) -> Result<(), AllocError>
    ensures { OnOk result (string_bytes text.new ≡ string_bytes text.old ++ instruction_line slot insn) }
{
    writeln!(text, "slot {slot}: {}", Line(insn))
}

/// Appends the line of a slot, where no instruction stands if it is the second slot of a wide load.
pub fn push_slot(text: &mut String, slot: usize, insn: &Option<Insn>) -> Result<(), AllocError>
    ensures { OnOk result (string_bytes text.new ≡ string_bytes text.old ++ slot_line slot (Some insn.now)) }
{
    match insn {
        Some(insn) => push_instruction(text, slot, *insn),
        None => writeln!(text, "slot {slot}: the second slot of a wide load"),
    }
}
