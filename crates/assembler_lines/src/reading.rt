ghost use Rattle.std.specs.Prelude.{◌≡◌, ℕ, ◌≤◌, ◌^◌, IsTrue, pos, negsuc, ℤ};
ghost use Rattle.assembler_lines.specs.Scanning.{terms_seen};
ghost use Rattle.assembler_lines.specs.Lending.{value_seen, target_seen, judged_seen, behind_seen};
ghost use Rattle.assembler_lines.specs.Statements.{register_named, register, within, offset, immediate, operand};
ghost use Rattle.assembler_lines.specs.Statements.{hexadecimal_value, reach, jump_by, jump_over, jump_to};
ghost use Rattle.assembler_lines.specs.Statements.{instruction_of, name_first, statement_of, colon_at, reading_of};
ghost use Rattle.assembler_lines.specs.Slots.{is_reached};
ghost use Rattle.assembler_lines.specs.declared.form.Form.TheVariants as form;

use crate::fault::LineFault;
use crate::form::Form;
use crate::mnemonics::form_of;
use crate::shapes;
use crate::statement::{Jump, Statement, Target, Value};
use crate::token::{Sign, SignedNumeral, Term};
use crate::words::read_terms;
use arrayvec::ArrayVec;
use bpf_words::instruction::{
    Arithmetic, Comparison, Conversion, ConvertedBits, Extension, Insn, Operand, SignedSize, Width,
};
use bpf_words::register::Register;
use span_context::size::Size;

/// The register of a name.
#[tactic(auto, unfolding(crate::specs::Statements::register_named))]
fn register_of(word: &[u8]) -> Option<Register>
    ensures { result ≡ register_named word.now }
{
    match word {
        [b'r', digit @ b'0'..=b'9'] => Register::new(*digit - b'0'),
        b"r10" => Register::new(10),
        _ => None,
    }
}

#[tactic(auto, unfolding(crate::specs::Statements::register))]
fn register(word: &[u8]) -> Result<Register, LineFault>
    ensures { result ≡ register word.now }
{
    register_of(word).ok_or(LineFault::UnknownName)
}

/// A signed number from minus the limit on, below the limit.
#[tactic(auto, unfolding(crate::specs::Statements::within))]
fn within(limit: u64, number: SignedNumeral) -> Option<i64>
    requires { limit ≤ 2 ^ 31 }
    ensures { result ≡ within limit number }
{
    let magnitude = number.numeral.value?;
    if number.negative {
        if magnitude > limit {
            return None;
        }
        Some(-(magnitude as i64))
    } else {
        if magnitude >= limit {
            return None;
        }
        Some(magnitude as i64)
    }
}

/// An offset of 16 bits.
#[tactic(auto, unfolding(crate::specs::Statements::offset, crate::specs::Statements::within))]
fn offset(number: SignedNumeral) -> Result<i16, LineFault>
    ensures { result ≡ offset number }
{
    let value = within(1 << 15, number).ok_or(LineFault::NumberRange)?;
    Ok(value as i16)
}

/// 32 bits in hexadecimal, read as a signed number.
fn hexadecimal(value: Option<u64>) -> Option<i32>
    ensures { result ≡ hexadecimal_value value }
{
    let bits = value?;
    if bits < 1 << 31 {
        Some(bits as i32)
    } else if bits < 1 << 32 {
        Some((bits as i64 - (1 << 32)) as i32)
    } else {
        None
    }
}

/// An immediate of 32 bits.
#[tactic(auto, unfolding(crate::specs::Statements::immediate, crate::specs::Statements::within))]
fn immediate(number: SignedNumeral) -> Result<i32, LineFault>
    ensures { result ≡ immediate number }
{
    if number.numeral.hexadecimal {
        return hexadecimal(number.numeral.value).ok_or(LineFault::NumberRange);
    }
    let value = within(1 << 31, number).ok_or(LineFault::NumberRange)?;
    Ok(value as i32)
}

#[tactic(auto, unfolding(crate::specs::Statements::operand))]
fn operand(value: Value<'_>) -> Result<Operand, LineFault>
    ensures { result ≡ operand (value_seen value.entry) }
{
    match value {
        Value::Named(word) => Ok(Operand::Source(register(word)?)),
        Value::Constant(number) => Ok(Operand::Immediate(immediate(number)?)),
    }
}

/// How far a jump reaches: from minus this on, below this.
pub fn reach(jump: &Jump) -> u64
    ensures value { result ≡ reach jump.now }
    ensures small { result ≤ 2 ^ 31 }
{
    match jump {
        Jump::Long => 1 << 31,
        Jump::Short | Jump::OnComparison { .. } => 1 << 15,
    }
}

/// The jump over a distance.
#[tactic(auto, unfolding(crate::specs::Statements::jump_by))]
pub fn jump_by(jump: Jump, distance: i64) -> Insn
    requires { IsTrue (is_reached (reach jump) distance) }
    ensures { result ≡ jump_by jump distance }
{
    match jump {
        Jump::Short => Insn::Jump {
            distance: distance as i16,
        },
        Jump::Long => Insn::JumpLong {
            distance: distance as i32,
        },
        Jump::OnComparison {
            width,
            comparison,
            left,
            right,
        } => Insn::Branch {
            width,
            comparison,
            left,
            right,
            distance: distance as i16,
        },
    }
}

/// The jump over a distance as it is written.
#[tactic(auto, unfolding(crate::specs::Statements::jump_over, crate::specs::Statements::within))]
fn jump_over(jump: Jump, number: SignedNumeral) -> Result<Insn, LineFault>
    ensures { result ≡ jump_over jump number }
{
    let limit = reach(&jump);
    let distance = within(limit, number).ok_or(LineFault::JumpRange)?;
    Ok(jump_by(jump, distance))
}

#[tactic(auto, unfolding(crate::specs::Statements::jump_to))]
fn jump_to(jump: Jump, target: Target<'_>) -> Result<Statement<'_>, LineFault>
    ensures { judged_seen result ≡ jump_to jump (target_seen target.entry) }
{
    match target {
        Target::AtLabel(name) => Ok(Statement::Onto(jump, name)),
        Target::Distance(number) => Ok(Statement::Plain(jump_over(jump, number)?)),
    }
}

/// An operation on a register and an operand.
#[tactic(auto, unfolding(crate::specs::Statements::instruction_of))]
fn compute<'a>(
    width: Width,
    operation: Arithmetic,
    terms: &[Term<'a>],
) -> Result<Statement<'a>, LineFault>
    ensures { judged_seen result ≡ instruction_of (form.Compute width operation) (terms_seen terms.now) }
{
    let (name, value) = shapes::name_then_value(terms).ok_or(LineFault::Syntax)?;
    let destination = register(name)?;
    let operand = operand(value)?;
    Ok(Statement::Plain(Insn::Compute {
        width,
        operation,
        destination,
        operand,
    }))
}

/// A negation.
#[tactic(auto, unfolding(crate::specs::Statements::instruction_of))]
fn negate<'a>(width: Width, terms: &[Term<'a>]) -> Result<Statement<'a>, LineFault>
    ensures { judged_seen result ≡ instruction_of (form.Negate width) (terms_seen terms.now) }
{
    let name = shapes::only_name(terms).ok_or(LineFault::Syntax)?;
    let destination = register(name)?;
    Ok(Statement::Plain(Insn::Negate { width, destination }))
}

/// A sign-extending move.
#[tactic(auto, unfolding(crate::specs::Statements::instruction_of))]
fn extend<'a>(extension: Extension, terms: &[Term<'a>]) -> Result<Statement<'a>, LineFault>
    ensures { judged_seen result ≡ instruction_of (form.Extend extension) (terms_seen terms.now) }
{
    let (first, second) = shapes::names(terms).ok_or(LineFault::Syntax)?;
    let destination = register(first)?;
    let source = register(second)?;
    Ok(Statement::Plain(Insn::Extend {
        extension,
        destination,
        source,
    }))
}

/// A conversion of the order of bytes.
#[tactic(auto, unfolding(crate::specs::Statements::instruction_of))]
fn convert<'a>(
    conversion: Conversion,
    bits: ConvertedBits,
    terms: &[Term<'a>],
) -> Result<Statement<'a>, LineFault>
    ensures { judged_seen result ≡ instruction_of (form.Convert conversion bits) (terms_seen terms.now) }
{
    let name = shapes::only_name(terms).ok_or(LineFault::Syntax)?;
    let destination = register(name)?;
    Ok(Statement::Plain(Insn::Convert {
        conversion,
        bits,
        destination,
    }))
}

/// A jump of 16 bits.
#[tactic(auto, unfolding(crate::specs::Statements::instruction_of))]
fn jump<'a>(terms: &[Term<'a>]) -> Result<Statement<'a>, LineFault>
    ensures { judged_seen result ≡ instruction_of form.Jump (terms_seen terms.now) }
{
    let target = shapes::only_target(terms).ok_or(LineFault::Syntax)?;
    jump_to(Jump::Short, target)
}

/// A jump of 32 bits.
#[tactic(auto, unfolding(crate::specs::Statements::instruction_of))]
fn jump_long<'a>(terms: &[Term<'a>]) -> Result<Statement<'a>, LineFault>
    ensures { judged_seen result ≡ instruction_of form.JumpLong (terms_seen terms.now) }
{
    let target = shapes::only_target(terms).ok_or(LineFault::Syntax)?;
    jump_to(Jump::Long, target)
}

/// A jump on a comparison.
#[tactic(auto, unfolding(crate::specs::Statements::instruction_of))]
fn branch<'a>(
    width: Width,
    comparison: Comparison,
    terms: &[Term<'a>],
) -> Result<Statement<'a>, LineFault>
    ensures { judged_seen result ≡ instruction_of (form.Branch width comparison) (terms_seen terms.now) }
{
    let (name, value, target) = shapes::name_value_then_target(terms).ok_or(LineFault::Syntax)?;
    let left = register(name)?;
    let right = operand(value)?;
    let jump = Jump::OnComparison {
        width,
        comparison,
        left,
        right,
    };
    jump_to(jump, target)
}

/// A load.
#[tactic(auto, unfolding(crate::specs::Statements::instruction_of))]
fn load<'a>(size: Size, terms: &[Term<'a>]) -> Result<Statement<'a>, LineFault>
    ensures { judged_seen result ≡ instruction_of (form.Load size) (terms_seen terms.now) }
{
    let (name, address) = shapes::name_then_address(terms).ok_or(LineFault::Syntax)?;
    let destination = register(name)?;
    let base = register(address.base)?;
    let offset = offset(address.offset)?;
    Ok(Statement::Plain(Insn::Load {
        size,
        destination,
        base,
        offset,
    }))
}

/// A sign-extending load.
#[tactic(auto, unfolding(crate::specs::Statements::instruction_of))]
fn load_signed<'a>(size: SignedSize, terms: &[Term<'a>]) -> Result<Statement<'a>, LineFault>
    ensures { judged_seen result ≡ instruction_of (form.LoadSigned size) (terms_seen terms.now) }
{
    let (name, address) = shapes::name_then_address(terms).ok_or(LineFault::Syntax)?;
    let destination = register(name)?;
    let base = register(address.base)?;
    let offset = offset(address.offset)?;
    Ok(Statement::Plain(Insn::LoadSigned {
        size,
        destination,
        base,
        offset,
    }))
}

/// A store of an immediate.
#[tactic(auto, unfolding(crate::specs::Statements::instruction_of))]
fn store_immediate<'a>(size: Size, terms: &[Term<'a>]) -> Result<Statement<'a>, LineFault>
    ensures { judged_seen result ≡ instruction_of (form.StoreImmediate size) (terms_seen terms.now) }
{
    let (address, number) = shapes::address_then_constant(terms).ok_or(LineFault::Syntax)?;
    let base = register(address.base)?;
    let offset = offset(address.offset)?;
    let value = Operand::Immediate(immediate(number)?);
    Ok(Statement::Plain(Insn::Store {
        size,
        base,
        offset,
        value,
    }))
}

/// A store of a register.
#[tactic(auto, unfolding(crate::specs::Statements::instruction_of))]
fn store_register<'a>(size: Size, terms: &[Term<'a>]) -> Result<Statement<'a>, LineFault>
    ensures { judged_seen result ≡ instruction_of (form.StoreRegister size) (terms_seen terms.now) }
{
    let (address, name) = shapes::address_then_name(terms).ok_or(LineFault::Syntax)?;
    let base = register(address.base)?;
    let source = register(name)?;
    let offset = offset(address.offset)?;
    let value = Operand::Source(source);
    Ok(Statement::Plain(Insn::Store {
        size,
        base,
        offset,
        value,
    }))
}

/// A wide load.
#[tactic(auto, unfolding(crate::specs::Statements::instruction_of))]
fn load_wide<'a>(terms: &[Term<'a>]) -> Result<Statement<'a>, LineFault>
    ensures { judged_seen result ≡ instruction_of form.LoadWide (terms_seen terms.now) }
{
    let (name, number) = shapes::name_then_wide(terms).ok_or(LineFault::Syntax)?;
    let destination = register(name)?;
    let value = number.ok_or(LineFault::NumberRange)?;
    Ok(Statement::Plain(Insn::LoadWide { destination, value }))
}

/// The end of a program.
#[tactic(auto, unfolding(crate::specs::Statements::instruction_of))]
fn exit<'a>(terms: &[Term<'a>]) -> Result<Statement<'a>, LineFault>
    ensures { judged_seen result ≡ instruction_of form.Exit (terms_seen terms.now) }
{
    if terms.is_empty() {
        Ok(Statement::Plain(Insn::Exit))
    } else {
        Err(LineFault::Syntax)
    }
}

/// The instruction of a form, from what stands behind its mnemonic.
fn instruction<'a>(form: Form, terms: &[Term<'a>]) -> Result<Statement<'a>, LineFault>
    ensures { judged_seen result ≡ instruction_of form (terms_seen terms.now) }
{
    match form {
        Form::Compute(width, operation) => compute(width, operation, terms),
        Form::Negate(width) => negate(width, terms),
        Form::Extend(extension) => extend(extension, terms),
        Form::Convert(conversion, bits) => convert(conversion, bits, terms),
        Form::Jump => jump(terms),
        Form::JumpLong => jump_long(terms),
        Form::Branch(width, comparison) => branch(width, comparison, terms),
        Form::Load(size) => load(size, terms),
        Form::LoadSigned(size) => load_signed(size, terms),
        Form::StoreImmediate(size) => store_immediate(size, terms),
        Form::StoreRegister(size) => store_register(size, terms),
        Form::LoadWide => load_wide(terms),
        Form::Exit => exit(terms),
    }
}

fn colon<'t, 'a>(terms: &'t [Term<'a>]) -> Option<&'t [Term<'a>]>
    ensures { behind_seen result ≡ colon_at (terms_seen terms.now) }
{
    match terms.split_first()? {
        (Term::Symbol(Sign::Colon), behind) => Some(behind),
        _ => None,
    }
}

/// A line that begins with a name: a label, or an instruction.
fn name_first<'a>(word: &'a [u8], terms: &[Term<'a>]) -> Result<Statement<'a>, LineFault>
    ensures { judged_seen result ≡ name_first word.now (terms_seen terms.now) (colon_at (terms_seen terms.now)) }
{
    match colon(terms) {
        Some([]) => Ok(Statement::Label(word)),
        Some(_) => Err(LineFault::Syntax),
        None => {
            let form = form_of(word).ok_or(LineFault::UnknownName)?;
            instruction(form, terms)
        }
    }
}

/// What the right tokens of a line say.
#[tactic(auto, unfolding(crate::specs::Statements::statement_of))]
fn statement<'a>(terms: &[Term<'a>]) -> Result<Statement<'a>, LineFault>
    ensures { judged_seen result ≡ statement_of (terms_seen terms.now) }
{
    let Some((first, behind)) = terms.split_first() else {
        return Ok(Statement::Blank);
    };
    match first {
        Term::Name(word) => name_first(word, behind),
        Term::Number(_) if colon(behind).is_none() => Err(LineFault::UnknownName),
        Term::Number(_) | Term::Symbol(_) => Err(LineFault::Syntax),
    }
}

/// What a line says, or its own fault.
#[tactic(auto, unfolding(crate::specs::Statements::reading_of), using(crate::proofs::Lengths::few))]
pub fn reading(line: &[u8]) -> Result<Statement<'_>, LineFault>
    ensures { judged_seen result ≡ reading_of line.now }
{
    let mut found = ArrayVec::new();
    if !read_terms(line, &mut found) {
        return Err(LineFault::Syntax);
    }
    statement(found.as_slice())
}
