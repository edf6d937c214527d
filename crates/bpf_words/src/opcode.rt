ghost use Rattle.std.specs.Prelude.{◌≡◌, ℕ, ◌<◌, ◌/◌, ◌%◌};
ghost use Rattle.bpf_words.specs.Opcodes.{arithmetic_of, comparison_of, size_of, computing, branching};
ghost use Rattle.bpf_words.specs.Opcodes.{arithmetic_class, jump_class, wide_class, load_class, store_class};
ghost use Rattle.bpf_words.specs.Opcodes.{register_store_class};

use crate::instruction::{Arithmetic, Comparison, Conversion, SignedSize, Width};
use span_context::size::Size;

/// What an opcode byte names (RFC 9669, sections 3 to 5). `by_register`: the second operand is a register.
/// `LeftOut` is defined there and not taken here (calls, atomic and packet instructions), `Undefined` names nothing.
#[derive(Clone, Copy)]
pub enum Opcode {
    Computing {
        width: Width,
        operation: Arithmetic,
        by_register: bool,
    },
    Negating(Width),
    Converting(Conversion),
    Jumping,
    JumpingLong,
    Branching {
        width: Width,
        comparison: Comparison,
        by_register: bool,
    },
    Loading(Size),
    LoadingSigned(SignedSize),
    Storing {
        size: Size,
        by_register: bool,
    },
    LoadingWide,
    Exiting,
    LeftOut,
    Undefined,
}

fn arithmetic(code: u8) -> Option<Arithmetic>
    ensures { result ≡ arithmetic_of code }
{
    match code {
        0x0 => Some(Arithmetic::Add),
        0x1 => Some(Arithmetic::Sub),
        0x2 => Some(Arithmetic::Mul),
        0x3 => Some(Arithmetic::Div),
        0x4 => Some(Arithmetic::Or),
        0x5 => Some(Arithmetic::And),
        0x6 => Some(Arithmetic::Lsh),
        0x7 => Some(Arithmetic::Rsh),
        0x9 => Some(Arithmetic::Mod),
        0xa => Some(Arithmetic::Xor),
        0xb => Some(Arithmetic::Mov),
        0xc => Some(Arithmetic::Arsh),
        _ => None,
    }
}

fn comparison(code: u8) -> Option<Comparison>
    ensures { result ≡ comparison_of code }
{
    match code {
        0x1 => Some(Comparison::Equal),
        0x2 => Some(Comparison::Greater),
        0x3 => Some(Comparison::GreaterOrEqual),
        0x4 => Some(Comparison::AnyBit),
        0x5 => Some(Comparison::NotEqual),
        0x6 => Some(Comparison::SignedGreater),
        0x7 => Some(Comparison::SignedGreaterOrEqual),
        0xa => Some(Comparison::Less),
        0xb => Some(Comparison::LessOrEqual),
        0xc => Some(Comparison::SignedLess),
        0xd => Some(Comparison::SignedLessOrEqual),
        _ => None,
    }
}

fn size(modifier: u8) -> Size
    ensures { result ≡ size_of modifier }
{
    match modifier {
        0 => Size::Word,
        1 => Size::Half,
        2 => Size::Byte,
        _ => Size::Double,
    }
}

fn computing_by(width: Width, by_register: bool, code: u8) -> Opcode
    ensures { result ≡ computing width by_register (arithmetic_of code) }
{
    match arithmetic(code) {
        Some(operation) => Opcode::Computing {
            width,
            operation,
            by_register,
        },
        None => Opcode::Undefined,
    }
}

fn branching_by(width: Width, by_register: bool, code: u8) -> Opcode
    ensures { result ≡ branching width by_register (comparison_of code) }
{
    match comparison(code) {
        Some(comparison) => Opcode::Branching {
            width,
            comparison,
            by_register,
        },
        None => Opcode::Undefined,
    }
}

fn in_arithmetic_class(width: Width, by_register: bool, code: u8) -> Opcode
    ensures { result ≡ arithmetic_class width by_register code }
{
    match (code, width, by_register) {
        (0x8, _, false) => Opcode::Negating(width),
        (0xd, Width::Narrow, false) => Opcode::Converting(Conversion::ToLittleEndian),
        (0xd, Width::Narrow, true) => Opcode::Converting(Conversion::ToBigEndian),
        (0xd, Width::Full, false) => Opcode::Converting(Conversion::Swap),
        _ => computing_by(width, by_register, code),
    }
}

fn in_jump_class(width: Width, by_register: bool, code: u8) -> Opcode
    ensures { result ≡ jump_class width by_register code }
{
    match (code, width, by_register) {
        (0x0, Width::Full, false) => Opcode::Jumping,
        (0x0, Width::Narrow, false) => Opcode::JumpingLong,
        (0x8, Width::Full, false) => Opcode::LeftOut,
        (0x9, Width::Full, false) => Opcode::Exiting,
        _ => branching_by(width, by_register, code),
    }
}

fn in_wide_class(mode: u8, modifier: u8) -> Opcode
    ensures { result ≡ wide_class mode modifier }
{
    match (mode, modifier) {
        (0, 3) => Opcode::LoadingWide,
        (1 | 2, 0 | 1 | 2) => Opcode::LeftOut,
        _ => Opcode::Undefined,
    }
}

fn in_load_class(mode: u8, modifier: u8) -> Opcode
    ensures { result ≡ load_class mode modifier }
{
    match (mode, modifier) {
        (3, _) => Opcode::Loading(size(modifier)),
        (4, 0) => Opcode::LoadingSigned(SignedSize::SignedWord),
        (4, 1) => Opcode::LoadingSigned(SignedSize::SignedHalf),
        (4, 2) => Opcode::LoadingSigned(SignedSize::SignedByte),
        _ => Opcode::Undefined,
    }
}

fn in_store_class(mode: u8, modifier: u8) -> Opcode
    ensures { result ≡ store_class mode modifier }
{
    if mode == 3 {
        Opcode::Storing {
            size: size(modifier),
            by_register: false,
        }
    } else {
        Opcode::Undefined
    }
}

fn in_register_store_class(mode: u8, modifier: u8) -> Opcode
    ensures { result ≡ register_store_class mode modifier }
{
    match (mode, modifier) {
        (3, _) => Opcode::Storing {
            size: size(modifier),
            by_register: true,
        },
        (6, 0 | 3) => Opcode::LeftOut,
        _ => Opcode::Undefined,
    }
}

impl Opcode {
    ghost use Rattle.bpf_words.specs.Opcodes.{opcode_of};
    ghost use Rattle.bpf_words.specs.RoundTrip.{IsByteOf};
    ghost use Rattle.bpf_words.specs.Table.{IsMapped};

    fn in_its_class(byte: u8) -> Opcode
        ensures { result ≡ opcode_of byte }
    {
        let code = byte / 16;
        let by_register = byte / 8 % 2 == 1;
        let mode = byte / 32;
        let modifier = byte / 8 % 4;
        match byte % 8 {
            0 => in_wide_class(mode, modifier),
            1 => in_load_class(mode, modifier),
            2 => in_store_class(mode, modifier),
            3 => in_register_store_class(mode, modifier),
            4 => in_arithmetic_class(Width::Narrow, by_register, code),
            5 => in_jump_class(Width::Full, by_register, code),
            6 => in_jump_class(Width::Narrow, by_register, code),
            _ => in_arithmetic_class(Width::Full, by_register, code),
        }
    }

    /// The opcode of a byte.
    pub fn new(byte: u8) -> Opcode
        ensures value { result ≡ opcode_of byte }
        ensures mapped { IsMapped byte result }
        ensures byte { IsByteOf byte result }
    {
        Opcode::in_its_class(byte)
    }
}
