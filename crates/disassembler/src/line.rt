ghost use Rattle.std.specs.declared.option.Option.TheVariants.{Some};
ghost use Rattle.assembler_lines.specs.Pieces.{spell};
ghost use Rattle.disassembler.specs.Canonical.{arguments, behind_name, pieces};

use crate::form::form;
use crate::parts::{Address, Name, Signed, Value};
use assembler_lines::mnemonics::mnemonic;
use bpf_words::instruction::Insn;
use std::fmt;

/// What stands behind the mnemonic of an instruction.
#[derive(Clone, Copy)]
struct Arguments(Insn);

impl fmt::Display for Arguments {
    ghost output = { λ a. Some (spell (behind_name (arguments a.0))) };

    fn fmt<W: fmt::Write>(&self, f: &mut fmt::Formatter<W>) -> fmt::Result {
        match self.0 {
            Insn::Compute {
                destination,
                operand,
                ..
            } => { write!(f, " {}, {}", Name(destination), Value(operand)) }
            Insn::Negate { destination, .. } | Insn::Convert { destination, .. } => {
                write!(f, " {}", Name(destination))
            }
            Insn::Extend {
                destination,
                source,
                ..
            } => { write!(f, " {}, {}", Name(destination), Name(source)) }
            Insn::Jump { distance } => write!(f, " {}", Signed(i32::from(distance))),
            Insn::JumpLong { distance } => write!(f, " {}", Signed(distance)),
            Insn::Branch {
                left,
                right,
                distance,
                ..
            } => {
                let distance = Signed(i32::from(distance));
                write!(f, " {}, {}, {distance}", Name(left), Value(right))
            }
            Insn::Load {
                destination,
                base,
                offset,
                ..
            }
            | Insn::LoadSigned {
                destination,
                base,
                offset,
                ..
            } => { write!(f, " {}, {}", Name(destination), Address { base, offset }) }
            Insn::Store {
                base,
                offset,
                value,
                ..
            } => { write!(f, " {}, {}", Address { base, offset }, Value(value)) }
            Insn::LoadWide { destination, value } => write!(f, " {}, {value}", Name(destination)),
            Insn::Exit => Ok(()),
        }
    }
}

/// An instruction as its canonical line, without the LF.
#[derive(Clone, Copy)]
pub struct Line(pub Insn);

impl fmt::Display for Line {
    ghost output = { λ line. Some (spell (pieces line.0)) };

    fn fmt<W: fmt::Write>(&self, f: &mut fmt::Formatter<W>) -> fmt::Result {
        write!(f, "{}{}", mnemonic(form(self.0)), Arguments(self.0))
    }
}
