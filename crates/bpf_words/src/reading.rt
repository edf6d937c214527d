ghost use Rattle.std.specs.Prelude.{◌≡◌, ◌<◌, ◌≤◌, nat_le, if◌then◌else◌, true, false, IfOk};
ghost use Rattle.bpf_words.specs.Encoding.{offset_for, fields_for};
ghost use Rattle.bpf_words.specs.RoundTrip.{IsByteOf, IsOperandIn, Follows};
ghost use Rattle.bpf_words.specs.Reading.{reading, operand_of, no_operand, no_register, other_is_set, is_set};
ghost use Rattle.bpf_words.specs.Reading.{converted_bits, arithmetic_in, negation_in, conversion_in, jump_in};
ghost use Rattle.bpf_words.specs.Reading.{long_jump_in, branch_in, load_in, signed_load_in, store_in, wide_load_in};
ghost use Rattle.bpf_words.specs.Reading.{exit_in};

use crate::fields::Fields;
use crate::instruction::{
    Arithmetic, Comparison, Conversion, ConvertedBits, Extension, Insn, Operand, SignedSize, Width,
};
use crate::opcode::Opcode;
use crate::refusal::SlotFault;
use crate::register::Register;
use span_context::size::Size;

/// What the offset of an arithmetic instruction chooses.
#[derive(Clone, Copy)]
pub enum Chosen {
    Plain(Arithmetic),
    Extending(Extension),
}

impl Chosen {
    ghost use Rattle.bpf_words.specs.Reading.{chosen, extending};
    ghost use Rattle.bpf_words.specs.RoundTrip.{IsChosenBy};

    fn extension(width: Width, offset: u16) -> Result<Chosen, SlotFault>
        ensures value { result ≡ extending width offset }
        ensures chosen { IfOk result (IsChosenBy width true Arithmetic.Mov offset) }
    {
        match (width, offset) {
            (Width::Full, 8) => Ok(Chosen::Extending(Extension::FromByte)),
            (Width::Full, 16) => Ok(Chosen::Extending(Extension::FromHalf)),
            (Width::Full, 32) => Ok(Chosen::Extending(Extension::FromWord)),
            (Width::Narrow, 8) => Ok(Chosen::Extending(Extension::NarrowFromByte)),
            (Width::Narrow, 16) => Ok(Chosen::Extending(Extension::NarrowFromHalf)),
            _ => Err(SlotFault::BadWidth),
        }
    }

    fn new(
        width: Width,
        by_register: bool,
        operation: Arithmetic,
        offset: u16,
    ) -> Result<Chosen, SlotFault>
        requires { offset_for operation ≡ 0 }
        ensures value { result ≡ chosen width by_register operation offset }
        ensures chosen { IfOk result (IsChosenBy width by_register operation offset) }
    {
        match (operation, offset) {
            (_, 0) => Ok(Chosen::Plain(operation)),
            (Arithmetic::Div, 1) => Ok(Chosen::Plain(Arithmetic::SignedDiv)),
            (Arithmetic::Mod, 1) => Ok(Chosen::Plain(Arithmetic::SignedMod)),
            (Arithmetic::Div | Arithmetic::Mod, _) => Err(SlotFault::BadWidth),
            (Arithmetic::Mov, _) if by_register => Chosen::extension(width, offset),
            _ => Err(SlotFault::UnusedField),
        }
    }
}

fn register(number: u8) -> Result<Register, SlotFault>
    ensures { result ≡ (if no_register number then Err SlotFault.BadRegister else Ok number) }
{
    Register::new(number).ok_or(SlotFault::BadRegister)
}

#[tactic(auto, using(crate::proofs::Numbers::casts))]
fn operand(by_register: bool, fields: &Fields) -> Result<Operand, SlotFault>
    ensures back { other_is_set by_register fields.now ≡ false → IfOk result (IsOperandIn by_register fields.now) }
    ensures value { result ≡ (if no_operand by_register fields.now then Err SlotFault.BadRegister
        else Ok (operand_of by_register fields.now)) }
{
    if by_register {
        let source = register(fields.source)?;
        Ok(Operand::Source(source))
    } else {
        Ok(Operand::Immediate(fields.immediate.cast_signed()))
    }
}

fn other_is_set_in(by_register: bool, fields: &Fields) -> bool
    ensures { result ≡ other_is_set by_register fields.now }
{
    if by_register {
        fields.immediate != 0
    } else {
        fields.source != 0
    }
}

fn read_arithmetic(
    width: Width,
    operation: Arithmetic,
    by_register: bool,
    fields: &Fields,
) -> Result<Insn, SlotFault>
    requires { IsByteOf fields.now.opcode (Opcode.Computing width operation by_register) }
    ensures value { result ≡ arithmetic_in width operation by_register fields.now }
    ensures back { IfOk result (λ insn. fields_for insn ≡ fields.now) }
{
    let destination = register(fields.destination)?;
    let operand = operand(by_register, fields)?;
    let chosen = Chosen::new(width, by_register, operation, fields.offset)?;
    if other_is_set_in(by_register, fields) {
        return Err(SlotFault::UnusedField);
    }
    match chosen {
        Chosen::Plain(operation) => Ok(Insn::Compute {
            width,
            operation,
            destination,
            operand,
        }),
        Chosen::Extending(extension) => Ok(Insn::Extend {
            extension,
            destination,
            source: register(fields.source)?,
        }),
    }
}

fn read_negation(width: Width, fields: &Fields) -> Result<Insn, SlotFault>
    requires { IsByteOf fields.now.opcode (Opcode.Negating width) }
    ensures value { result ≡ negation_in width fields.now }
    ensures back { IfOk result (λ insn. fields_for insn ≡ fields.now) }
{
    let destination = register(fields.destination)?;
    if fields.source != 0 || fields.offset != 0 || fields.immediate != 0 {
        return Err(SlotFault::UnusedField);
    }
    Ok(Insn::Negate { width, destination })
}

fn kept_bits(immediate: u32) -> Result<ConvertedBits, SlotFault>
    ensures { result ≡ converted_bits immediate }
{
    match immediate {
        16 => Ok(ConvertedBits::Bits16),
        32 => Ok(ConvertedBits::Bits32),
        64 => Ok(ConvertedBits::Bits64),
        _ => Err(SlotFault::BadWidth),
    }
}

fn read_conversion(conversion: Conversion, fields: &Fields) -> Result<Insn, SlotFault>
    requires { IsByteOf fields.now.opcode (Opcode.Converting conversion) }
    ensures value { result ≡ conversion_in conversion fields.now }
    ensures back { IfOk result (λ insn. fields_for insn ≡ fields.now) }
{
    let destination = register(fields.destination)?;
    let bits = kept_bits(fields.immediate)?;
    if fields.source != 0 || fields.offset != 0 {
        return Err(SlotFault::UnusedField);
    }
    Ok(Insn::Convert {
        conversion,
        bits,
        destination,
    })
}

fn read_jump(fields: &Fields) -> Result<Insn, SlotFault>
    requires { IsByteOf fields.now.opcode (Opcode.Jumping) }
    ensures value { result ≡ jump_in fields.now }
    ensures back { IfOk result (λ insn. fields_for insn ≡ fields.now) }
{
    if fields.destination != 0 || fields.source != 0 || fields.immediate != 0 {
        return Err(SlotFault::UnusedField);
    }
    Ok(Insn::Jump {
        distance: fields.offset.cast_signed(),
    })
}

fn read_long_jump(fields: &Fields) -> Result<Insn, SlotFault>
    requires { IsByteOf fields.now.opcode (Opcode.JumpingLong) }
    ensures value { result ≡ long_jump_in fields.now }
    ensures back { IfOk result (λ insn. fields_for insn ≡ fields.now) }
{
    if fields.destination != 0 || fields.source != 0 || fields.offset != 0 {
        return Err(SlotFault::UnusedField);
    }
    Ok(Insn::JumpLong {
        distance: fields.immediate.cast_signed(),
    })
}

fn read_branch(
    width: Width,
    comparison: Comparison,
    by_register: bool,
    fields: &Fields,
) -> Result<Insn, SlotFault>
    requires { IsByteOf fields.now.opcode (Opcode.Branching width comparison by_register) }
    ensures value { result ≡ branch_in width comparison by_register fields.now }
    ensures back { IfOk result (λ insn. fields_for insn ≡ fields.now) }
{
    let left = register(fields.destination)?;
    let right = operand(by_register, fields)?;
    if other_is_set_in(by_register, fields) {
        return Err(SlotFault::UnusedField);
    }
    Ok(Insn::Branch {
        width,
        comparison,
        left,
        right,
        distance: fields.offset.cast_signed(),
    })
}

fn read_load(size: Size, fields: &Fields) -> Result<Insn, SlotFault>
    requires { IsByteOf fields.now.opcode (Opcode.Loading size) }
    ensures value { result ≡ load_in size fields.now }
    ensures back { IfOk result (λ insn. fields_for insn ≡ fields.now) }
{
    let destination = register(fields.destination)?;
    let base = register(fields.source)?;
    if fields.immediate != 0 {
        return Err(SlotFault::UnusedField);
    }
    Ok(Insn::Load {
        size,
        destination,
        base,
        offset: fields.offset.cast_signed(),
    })
}

fn read_signed_load(size: SignedSize, fields: &Fields) -> Result<Insn, SlotFault>
    requires { IsByteOf fields.now.opcode (Opcode.LoadingSigned size) }
    ensures value { result ≡ signed_load_in size fields.now }
    ensures back { IfOk result (λ insn. fields_for insn ≡ fields.now) }
{
    let destination = register(fields.destination)?;
    let base = register(fields.source)?;
    if fields.immediate != 0 {
        return Err(SlotFault::UnusedField);
    }
    Ok(Insn::LoadSigned {
        size,
        destination,
        base,
        offset: fields.offset.cast_signed(),
    })
}

fn read_store(size: Size, by_register: bool, fields: &Fields) -> Result<Insn, SlotFault>
    requires { IsByteOf fields.now.opcode (Opcode.Storing size by_register) }
    ensures value { result ≡ store_in size by_register fields.now }
    ensures back { IfOk result (λ insn. fields_for insn ≡ fields.now) }
{
    let base = register(fields.destination)?;
    let value = operand(by_register, fields)?;
    if other_is_set_in(by_register, fields) {
        return Err(SlotFault::UnusedField);
    }
    Ok(Insn::Store {
        size,
        base,
        offset: fields.offset.cast_signed(),
        value,
    })
}

fn read_wide_load(fields: &Fields, next: Option<u64>) -> Result<Insn, SlotFault>
    requires { IsByteOf fields.now.opcode Opcode.LoadingWide }
    ensures value { result ≡ (if is_set fields.now.source then Err SlotFault.OutOfProfile
        else wide_load_in fields.now next) }
    ensures back { IfOk result (λ insn. fields_for insn ≡ fields.now) }
    ensures follows { IfOk result (λ insn. Follows insn next) }
{
    if fields.source != 0 {
        return Err(SlotFault::OutOfProfile);
    }
    let second = next.ok_or(SlotFault::TruncatedWide)?;
    let destination = register(fields.destination)?;
    if fields.offset != 0 || second % (1 << 32) != 0 {
        return Err(SlotFault::UnusedField);
    }
    Ok(Insn::LoadWide {
        destination,
        value: second / (1 << 32) * (1 << 32) + u64::from(fields.immediate),
    })
}

fn read_exit(fields: &Fields) -> Result<Insn, SlotFault>
    requires { IsByteOf fields.now.opcode (Opcode.Exiting) }
    ensures value { result ≡ exit_in fields.now }
    ensures back { IfOk result (λ insn. fields_for insn ≡ fields.now) }
{
    if fields.destination != 0
        || fields.source != 0
        || fields.offset != 0
        || fields.immediate != 0
    {
        return Err(SlotFault::UnusedField);
    }
    Ok(Insn::Exit)
}

/// The instruction of a slot with that opcode, or why there is none. `next`: the slot after it.
pub fn read(opcode: Opcode, fields: &Fields, next: Option<u64>) -> Result<Insn, SlotFault>
    requires { IsByteOf fields.now.opcode opcode }
    ensures value { result ≡ reading opcode fields.now next }
    ensures back { IfOk result (λ insn. fields_for insn ≡ fields.now) }
    ensures follows { IfOk result (λ insn. Follows insn next) }
{
    match opcode {
        Opcode::Computing {
            width,
            operation,
            by_register,
        } => read_arithmetic(width, operation, by_register, fields),
        Opcode::Negating(width) => read_negation(width, fields),
        Opcode::Converting(conversion) => read_conversion(conversion, fields),
        Opcode::Jumping => read_jump(fields),
        Opcode::JumpingLong => read_long_jump(fields),
        Opcode::Branching {
            width,
            comparison,
            by_register,
        } => read_branch(width, comparison, by_register, fields),
        Opcode::Loading(size) => read_load(size, fields),
        Opcode::LoadingSigned(size) => read_signed_load(size, fields),
        Opcode::Storing { size, by_register } => read_store(size, by_register, fields),
        Opcode::LoadingWide => read_wide_load(fields, next),
        Opcode::Exiting => read_exit(fields),
        Opcode::LeftOut => Err(SlotFault::OutOfProfile),
        Opcode::Undefined => Err(SlotFault::UnknownOpcode),
    }
}
