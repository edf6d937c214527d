use crate::token::SignedNumeral;
use bpf_words::instruction::{Comparison, Insn, Operand, Width};
use bpf_words::register::Register;

/// A jump whose distance is still open: by 16 bits, by 32 bits, or on a comparison.
#[derive(Clone, Copy)]
pub enum Jump {
    Short,
    Long,
    OnComparison {
        width: Width,
        comparison: Comparison,
        left: Register,
        right: Operand,
    },
}

/// What a line says: nothing, a label, an instruction, or a jump to a label.
#[derive(Clone, Copy)]
pub enum Statement<'a> {
    Blank,
    Label(&'a [u8]),
    Plain(Insn),
    Onto(Jump, &'a [u8]),
}

/// A second operand as it is written: a register by its name, or a number.
#[derive(Clone, Copy)]
pub enum Value<'a> {
    Named(&'a [u8]),
    Constant(SignedNumeral),
}

/// Where a jump goes, as it is written: to a label, or by a number of slots.
#[derive(Clone, Copy)]
pub enum Target<'a> {
    AtLabel(&'a [u8]),
    Distance(SignedNumeral),
}

/// An address as it is written: a base register by its name, and an offset.
#[derive(Clone, Copy)]
pub struct Address<'a> {
    pub base: &'a [u8],
    pub offset: SignedNumeral,
}
