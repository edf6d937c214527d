use crate::register::Register;
use span_context::size::Size;

/// Whether an instruction works on all 64 bits, or on the low 32 (RFC 9669, section 4.1).
#[derive(Clone, Copy)]
pub enum Width {
    Narrow,
    Full,
}

/// An operation on the destination and one operand (RFC 9669, section 4.1).
#[derive(Clone, Copy)]
pub enum Arithmetic {
    Add,
    Sub,
    Mul,
    Div,
    Or,
    And,
    Lsh,
    Rsh,
    Mod,
    Xor,
    Mov,
    Arsh,
    SignedDiv,
    SignedMod,
}

/// A sign-extending move: which low bits of the source it takes, to 64 bits, or to 32 with zeros above
/// (RFC 9669, section 4.1).
#[derive(Clone, Copy)]
pub enum Extension {
    FromByte,
    FromHalf,
    FromWord,
    NarrowFromByte,
    NarrowFromHalf,
}

/// What is done with the order of bytes (RFC 9669, section 4.2).
#[derive(Clone, Copy)]
pub enum Conversion {
    ToLittleEndian,
    ToBigEndian,
    Swap,
}

/// How many low bits a conversion of the order of bytes keeps (RFC 9669, section 4.2).
#[derive(Clone, Copy)]
pub enum ConvertedBits {
    Bits16,
    Bits32,
    Bits64,
}

/// A test of two numbers (RFC 9669, section 4.3).
#[derive(Clone, Copy)]
pub enum Comparison {
    Equal,
    Greater,
    GreaterOrEqual,
    AnyBit,
    NotEqual,
    SignedGreater,
    SignedGreaterOrEqual,
    Less,
    LessOrEqual,
    SignedLess,
    SignedLessOrEqual,
}

/// How many bytes a sign-extending load moves: 1, 2 or 4 (RFC 9669, section 5.2).
#[derive(Clone, Copy)]
pub enum SignedSize {
    SignedByte,
    SignedHalf,
    SignedWord,
}

/// The second operand: the immediate, or a register (RFC 9669, section 4).
#[derive(Clone, Copy)]
pub enum Operand {
    Immediate(i32),
    Source(Register),
}

/// An instruction of the groups base32, base64, divmul32 and divmul64 (RFC 9669, sections 3 to 5), without
/// calls and wide loads of maps and variables, and no other. A distance counts slots from the slot after the
/// instruction.
#[derive(Clone, Copy)]
pub enum Insn {
    Compute {
        width: Width,
        operation: Arithmetic,
        destination: Register,
        operand: Operand,
    },
    Negate {
        width: Width,
        destination: Register,
    },
    Extend {
        extension: Extension,
        destination: Register,
        source: Register,
    },
    Convert {
        conversion: Conversion,
        bits: ConvertedBits,
        destination: Register,
    },
    Jump {
        distance: i16,
    },
    JumpLong {
        distance: i32,
    },
    Branch {
        width: Width,
        comparison: Comparison,
        left: Register,
        right: Operand,
        distance: i16,
    },
    Load {
        size: Size,
        destination: Register,
        base: Register,
        offset: i16,
    },
    LoadSigned {
        size: SignedSize,
        destination: Register,
        base: Register,
        offset: i16,
    },
    Store {
        size: Size,
        base: Register,
        offset: i16,
        value: Operand,
    },
    LoadWide {
        destination: Register,
        value: u64,
    },
    Exit,
}
