ghost use Rattle.std.specs.Prelude.{◌≡◌};
ghost use Rattle.disassembler.specs.Canonical.{form_of, store_form};

use assembler_lines::form::Form;
use bpf_words::instruction::{Insn, Operand};
use span_context::size::Size;

fn store_form(size: Size, value: Operand) -> Form
    ensures { result ≡ store_form size value }
{
    match value {
        Operand::Immediate(_) => Form::StoreImmediate(size),
        Operand::Source(_) => Form::StoreRegister(size),
    }
}

/// The form of an instruction, which its mnemonic names.
pub(crate) fn form(insn: Insn) -> Form
    ensures { result ≡ form_of insn }
{
    match insn {
        Insn::Compute {
            width,
            operation,
            ..
        } => Form::Compute(width, operation),
        Insn::Negate { width, .. } => Form::Negate(width),
        Insn::Extend { extension, .. } => Form::Extend(extension),
        Insn::Convert {
            conversion,
            bits,
            ..
        } => Form::Convert(conversion, bits),
        Insn::Jump { .. } => Form::Jump,
        Insn::JumpLong { .. } => Form::JumpLong,
        Insn::Branch {
            width,
            comparison,
            ..
        } => Form::Branch(width, comparison),
        Insn::Load { size, .. } => Form::Load(size),
        Insn::LoadSigned { size, .. } => Form::LoadSigned(size),
        Insn::Store { size, value, .. } => store_form(size, value),
        Insn::LoadWide { .. } => Form::LoadWide,
        Insn::Exit => Form::Exit,
    }
}
