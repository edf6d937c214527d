ghost use Rattle.std.specs.declared.option.Option.TheVariants.{Some};
ghost use Rattle.assembler_lines.specs.Pieces.{spell};
ghost use Rattle.disassembler.specs.Canonical.{register, operand, signed, address};

use bpf_words::instruction::Operand;
use bpf_words::register::Register;
use std::fmt;

/// A register by its name.
#[derive(Clone, Copy)]
pub(crate) struct Name(pub(crate) Register);

impl fmt::Display for Name {
    ghost output = { λ name. Some (spell (register name.0)) };

    fn fmt<W: fmt::Write>(&self, f: &mut fmt::Formatter<W>) -> fmt::Result {
        write!(f, "r{}", self.0.number())
    }
}

/// A register, or an immediate with a sign where it is negative.
#[derive(Clone, Copy)]
pub(crate) struct Value(pub(crate) Operand);

impl fmt::Display for Value {
    ghost output = { λ value. Some (spell (operand value.0)) };

    fn fmt<W: fmt::Write>(&self, f: &mut fmt::Formatter<W>) -> fmt::Result {
        match self.0 {
            Operand::Immediate(value) => write!(f, "{value}"),
            Operand::Source(number) => write!(f, "{}", Name(number)),
        }
    }
}

/// A number that always has its sign.
#[derive(Clone, Copy)]
pub(crate) struct Signed(pub(crate) i32);

impl fmt::Display for Signed {
    ghost output = { λ number. Some (spell (signed number.0)) };

    fn fmt<W: fmt::Write>(&self, f: &mut fmt::Formatter<W>) -> fmt::Result {
        write!(f, "{:+}", self.0)
    }
}

/// A base register and an offset, in brackets.
#[derive(Clone, Copy)]
pub(crate) struct Address {
    pub(crate) base: Register,
    pub(crate) offset: i16,
}

impl fmt::Display for Address {
    ghost output = { λ memory. Some (spell (address memory.base memory.offset)) };

    fn fmt<W: fmt::Write>(&self, f: &mut fmt::Formatter<W>) -> fmt::Result {
        let offset = Signed(i32::from(self.offset));
        write!(f, "[{}{offset}]", Name(self.base))
    }
}
