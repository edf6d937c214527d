ghost use Rattle.std.specs.Prelude.{◌≡◌, ℕ, ◌+◌, ◌<◌, ◌≤◌, ◌%◌, ◌^◌, length, Option};
ghost use Rattle.bpf_words.specs.Encoding.{code_of, offset_for, comparison_code, arithmetic_byte, jump_byte};
ghost use Rattle.bpf_words.specs.Encoding.{store_byte, width_of, bits_taken, conversion_byte, bits_kept, modifier_of};
ghost use Rattle.bpf_words.specs.Encoding.{signed_modifier, is_source, source_in, immediate_in, fields_for, slot_of};
ghost use Rattle.bpf_words.specs.Encoding.{second_slot, encoded, bytes_of, IsInsn};
ghost use Rattle.bpf_words.specs.RoundTrip.{ReadsBack};

use crate::fields::Fields;
use crate::instruction::{
    Arithmetic, Comparison, Conversion, ConvertedBits, Extension, Insn, Operand, SignedSize, Width,
};
use byteorder::{ByteOrder, LittleEndian};
use span_context::size::Size;

/// The bytes of an instruction: 8, or 16 of a wide load (RFC 9669, section 3).
#[derive(Clone, Copy)]
pub enum Encoded {
    OneSlot([u8; 8]),
    TwoSlots([u8; 16]),
}

impl Encoded {
    /// The bytes, one slot after the other.
    pub fn bytes(&self) -> &[u8]
        ensures { result.now ≡ bytes_of self.now }
    {
        match self {
            Encoded::OneSlot(bytes) => bytes,
            Encoded::TwoSlots(bytes) => bytes,
        }
    }
}

fn code(operation: Arithmetic) -> u8
    ensures value { result ≡ code_of operation }
    ensures small { result < 16 }
{
    match operation {
        Arithmetic::Add => 0x0,
        Arithmetic::Sub => 0x1,
        Arithmetic::Mul => 0x2,
        Arithmetic::Div | Arithmetic::SignedDiv => 0x3,
        Arithmetic::Or => 0x4,
        Arithmetic::And => 0x5,
        Arithmetic::Lsh => 0x6,
        Arithmetic::Rsh => 0x7,
        Arithmetic::Mod | Arithmetic::SignedMod => 0x9,
        Arithmetic::Xor => 0xa,
        Arithmetic::Mov => 0xb,
        Arithmetic::Arsh => 0xc,
    }
}

fn operation_offset(operation: Arithmetic) -> u16
    ensures { result ≡ offset_for operation }
{
    match operation {
        Arithmetic::SignedDiv | Arithmetic::SignedMod => 1,
        _ => 0,
    }
}

fn test_code(comparison: Comparison) -> u8
    ensures value { result ≡ comparison_code comparison }
    ensures small { result < 16 }
{
    match comparison {
        Comparison::Equal => 0x1,
        Comparison::Greater => 0x2,
        Comparison::GreaterOrEqual => 0x3,
        Comparison::AnyBit => 0x4,
        Comparison::NotEqual => 0x5,
        Comparison::SignedGreater => 0x6,
        Comparison::SignedGreaterOrEqual => 0x7,
        Comparison::Less => 0xa,
        Comparison::LessOrEqual => 0xb,
        Comparison::SignedLess => 0xc,
        Comparison::SignedLessOrEqual => 0xd,
    }
}

fn arithmetic_opcode(width: Width, by_register: bool, code: u8) -> u8
    requires { code < 16 }
    ensures { result ≡ arithmetic_byte width by_register code }
{
    let source_bit = if by_register { 8 } else { 0 };
    match width {
        Width::Narrow => 16 * code + source_bit + 4,
        Width::Full => 16 * code + source_bit + 7,
    }
}

fn jump_opcode(width: Width, by_register: bool, code: u8) -> u8
    requires { code < 16 }
    ensures { result ≡ jump_byte width by_register code }
{
    let source_bit = if by_register { 8 } else { 0 };
    match width {
        Width::Full => 16 * code + source_bit + 5,
        Width::Narrow => 16 * code + source_bit + 6,
    }
}

fn conversion_opcode(conversion: Conversion) -> u8
    ensures { result ≡ conversion_byte conversion }
{
    match conversion {
        Conversion::ToLittleEndian => 0xd4,
        Conversion::ToBigEndian => 0xdc,
        Conversion::Swap => 0xd7,
    }
}

fn converted_bits(bits: ConvertedBits) -> u32
    ensures { result ≡ bits_kept bits }
{
    match bits {
        ConvertedBits::Bits16 => 16,
        ConvertedBits::Bits32 => 32,
        ConvertedBits::Bits64 => 64,
    }
}

fn extension_width(extension: Extension) -> Width
    ensures { result ≡ width_of extension }
{
    match extension {
        Extension::FromByte | Extension::FromHalf | Extension::FromWord => Width::Full,
        Extension::NarrowFromByte | Extension::NarrowFromHalf => Width::Narrow,
    }
}

fn extension_offset(extension: Extension) -> u16
    ensures { result ≡ bits_taken extension }
{
    match extension {
        Extension::FromByte | Extension::NarrowFromByte => 8,
        Extension::FromHalf | Extension::NarrowFromHalf => 16,
        Extension::FromWord => 32,
    }
}

fn modifier(size: Size) -> u8
    ensures value { result ≡ modifier_of size }
    ensures small { result < 4 }
{
    match size {
        Size::Word => 0,
        Size::Half => 1,
        Size::Byte => 2,
        Size::Double => 3,
    }
}

fn modifier_signed(size: SignedSize) -> u8
    ensures value { result ≡ signed_modifier size }
    ensures small { result < 4 }
{
    match size {
        SignedSize::SignedWord => 0,
        SignedSize::SignedHalf => 1,
        SignedSize::SignedByte => 2,
    }
}

fn store_opcode(by_register: bool, modifier: u8) -> u8
    requires { modifier < 4 }
    ensures { result ≡ store_byte by_register modifier }
{
    if by_register {
        0x63 + 8 * modifier
    } else {
        0x62 + 8 * modifier
    }
}

fn is_register(operand: &Operand) -> bool
    ensures { result ≡ is_source operand.now }
{
    match operand {
        Operand::Immediate(_) => false,
        Operand::Source(_) => true,
    }
}

fn source_number(operand: &Operand) -> u8
    ensures value { result ≡ source_in operand.now }
    ensures small { result ≤ 10 }
{
    match operand {
        Operand::Immediate(_) => 0,
        Operand::Source(register) => register.number(),
    }
}

fn immediate_number(operand: &Operand) -> u32
    ensures { result ≡ immediate_in operand.now }
{
    match operand {
        Operand::Immediate(value) => value.cast_unsigned(),
        Operand::Source(_) => 0,
    }
}

fn opcode(insn: Insn) -> u8
    ensures value { result ≡ (fields_for insn).opcode }
    ensures valid { IsInsn insn }
{
    match insn {
        Insn::Compute {
            width,
            operation,
            operand,
            ..
        } => arithmetic_opcode(width, is_register(&operand), code(operation)),
        Insn::Negate { width, .. } => arithmetic_opcode(width, false, 0x8),
        Insn::Extend { extension, .. } => {
            arithmetic_opcode(extension_width(extension), true, code(Arithmetic::Mov))
        }
        Insn::Convert { conversion, .. } => conversion_opcode(conversion),
        Insn::Jump { .. } => jump_opcode(Width::Full, false, 0x0),
        Insn::JumpLong { .. } => jump_opcode(Width::Narrow, false, 0x0),
        Insn::Branch {
            width,
            comparison,
            right,
            ..
        } => jump_opcode(width, is_register(&right), test_code(comparison)),
        Insn::Load { size, .. } => 0x61 + 8 * modifier(size),
        Insn::LoadSigned { size, .. } => 0x81 + 8 * modifier_signed(size),
        Insn::Store { size, value, .. } => store_opcode(is_register(&value), modifier(size)),
        Insn::LoadWide { .. } => 0x18,
        Insn::Exit => jump_opcode(Width::Full, false, 0x9),
    }
}

fn destination(insn: &Insn) -> u8
    ensures value { result ≡ (fields_for insn.now).destination }
    ensures small { result ≤ 10 }
{
    match *insn {
        Insn::Compute { destination, .. }
        | Insn::Negate { destination, .. }
        | Insn::Extend { destination, .. }
        | Insn::Convert { destination, .. }
        | Insn::Load { destination, .. }
        | Insn::LoadSigned { destination, .. }
        | Insn::LoadWide { destination, .. } => destination.number(),
        Insn::Branch { left, .. } => left.number(),
        Insn::Store { base, .. } => base.number(),
        Insn::Jump { .. } | Insn::JumpLong { .. } | Insn::Exit => 0,
    }
}

fn source(insn: &Insn) -> u8
    ensures value { result ≡ (fields_for insn.now).source }
    ensures small { result ≤ 10 }
{
    match *insn {
        Insn::Compute { operand, .. } => source_number(&operand),
        Insn::Branch { right, .. } => source_number(&right),
        Insn::Store { value, .. } => source_number(&value),
        Insn::Extend { source, .. } => source.number(),
        Insn::Load { base, .. } | Insn::LoadSigned { base, .. } => base.number(),
        _ => 0,
    }
}

fn offset(insn: &Insn) -> u16
    ensures { result ≡ (fields_for insn.now).offset }
{
    match *insn {
        Insn::Compute { operation, .. } => operation_offset(operation),
        Insn::Extend { extension, .. } => extension_offset(extension),
        Insn::Jump { distance } => distance.cast_unsigned(),
        Insn::Branch { distance, .. } => distance.cast_unsigned(),
        Insn::Load { offset, .. } => offset.cast_unsigned(),
        Insn::LoadSigned { offset, .. } => offset.cast_unsigned(),
        Insn::Store { offset, .. } => offset.cast_unsigned(),
        _ => 0,
    }
}

fn immediate(insn: &Insn) -> u32
    ensures { result ≡ (fields_for insn.now).immediate }
{
    match *insn {
        Insn::Compute { operand, .. } => immediate_number(&operand),
        Insn::Branch { right, .. } => immediate_number(&right),
        Insn::Store { value, .. } => immediate_number(&value),
        Insn::Convert { bits, .. } => converted_bits(bits),
        Insn::JumpLong { distance } => distance.cast_unsigned(),
        Insn::LoadWide { value, .. } => (value % (1 << 32)) as u32,
        _ => 0,
    }
}

fn fields(insn: Insn) -> Fields
    ensures value { result ≡ fields_for insn }
    ensures small { (result.destination ≤ 10) × (result.source ≤ 10) }
    ensures valid { IsInsn insn }
{
    Fields {
        destination: destination(&insn),
        source: source(&insn),
        offset: offset(&insn),
        immediate: immediate(&insn),
        opcode: opcode(insn),
    }
}

/// A slot as one number.
fn slot(fields: &Fields) -> u64
    requires destination { fields.now.destination ≤ 10 }
    requires source { fields.now.source ≤ 10 }
    ensures { result ≡ slot_of fields.now }
{
    u64::from(fields.opcode)
        + u64::from(fields.destination) * (1 << 8)
        + u64::from(fields.source) * (1 << 12)
        + u64::from(fields.offset) * (1 << 16)
        + u64::from(fields.immediate) * (1 << 32)
}

/// The second slot of a wide load.
fn second_slot_of(insn: &Insn) -> Option<u64>
    ensures { result ≡ second_slot insn.now }
{
    match insn {
        Insn::LoadWide { value, .. } => Some(*value / (1 << 32) * (1 << 32)),
        _ => None,
    }
}

/// The bytes of an instruction, which read as it again.
#[tactic(auto, unfolding(crate::specs::Encoding::encoded))]
pub fn encode(insn: Insn) -> Encoded
    ensures value { bytes_of result ≡ encoded insn }
    ensures reads_back { ReadsBack insn (encoded insn) }
{
    let second = second_slot_of(&insn);
    let first = slot(&fields(insn));
    match second {
        Some(second) => {
            let mut bytes = [0; 16];
            LittleEndian::write_u64(&mut bytes[0..8], first);
            LittleEndian::write_u64(&mut bytes[8..16], second);
            Encoded::TwoSlots(bytes)
        }
        None => Encoded::OneSlot(first.to_le_bytes()),
    }
}
