ghost use Rattle.std.specs.Prelude.{◌≡◌, Some};
ghost use Rattle.std.specs.List.{find};
ghost use Rattle.std.specs.Str.{bytes_eq};
ghost use Rattle.assembler_lines.specs.declared.form.Form.TheVariants as Form;
ghost use Rattle.assembler_lines.specs.Mnemonics.{name_of, form_named, forms_on};

use crate::form::Form;
use bpf_words::instruction::{
    Arithmetic, Comparison, Conversion, ConvertedBits, Extension, SignedSize, Width,
};
use span_context::size::Size;

// The forms by the second byte of their mnemonics, in the order of `all_forms`.
static ON_A: [Form; 2] = [Form::Jump, Form::JumpLong];

static ON_D: [Form; 12] = [
    Form::Compute(Width::Full, Arithmetic::Add),
    Form::Compute(Width::Full, Arithmetic::SignedDiv),
    Form::Compute(Width::Narrow, Arithmetic::Add),
    Form::Compute(Width::Narrow, Arithmetic::SignedDiv),
    Form::Load(Size::Byte),
    Form::Load(Size::Half),
    Form::Load(Size::Word),
    Form::Load(Size::Double),
    Form::LoadSigned(SignedSize::SignedByte),
    Form::LoadSigned(SignedSize::SignedHalf),
    Form::LoadSigned(SignedSize::SignedWord),
    Form::LoadWide,
];

static ON_E: [Form; 10] = [
    Form::Negate(Width::Full),
    Form::Negate(Width::Narrow),
    Form::Convert(Conversion::ToLittleEndian, ConvertedBits::Bits16),
    Form::Convert(Conversion::ToLittleEndian, ConvertedBits::Bits32),
    Form::Convert(Conversion::ToLittleEndian, ConvertedBits::Bits64),
    Form::Convert(Conversion::ToBigEndian, ConvertedBits::Bits16),
    Form::Convert(Conversion::ToBigEndian, ConvertedBits::Bits32),
    Form::Convert(Conversion::ToBigEndian, ConvertedBits::Bits64),
    Form::Branch(Width::Full, Comparison::Equal),
    Form::Branch(Width::Narrow, Comparison::Equal),
];

static ON_G: [Form; 4] = [
    Form::Branch(Width::Full, Comparison::Greater),
    Form::Branch(Width::Full, Comparison::GreaterOrEqual),
    Form::Branch(Width::Narrow, Comparison::Greater),
    Form::Branch(Width::Narrow, Comparison::GreaterOrEqual),
];

static ON_I: [Form; 2] = [
    Form::Compute(Width::Full, Arithmetic::Div),
    Form::Compute(Width::Narrow, Arithmetic::Div),
];

static ON_L: [Form; 4] = [
    Form::Branch(Width::Full, Comparison::Less),
    Form::Branch(Width::Full, Comparison::LessOrEqual),
    Form::Branch(Width::Narrow, Comparison::Less),
    Form::Branch(Width::Narrow, Comparison::LessOrEqual),
];

static ON_M: [Form; 2] = [
    Form::Compute(Width::Full, Arithmetic::SignedMod),
    Form::Compute(Width::Narrow, Arithmetic::SignedMod),
];

static ON_N: [Form; 4] = [
    Form::Compute(Width::Full, Arithmetic::And),
    Form::Compute(Width::Narrow, Arithmetic::And),
    Form::Branch(Width::Full, Comparison::NotEqual),
    Form::Branch(Width::Narrow, Comparison::NotEqual),
];

static ON_O: [Form; 11] = [
    Form::Compute(Width::Full, Arithmetic::Mod),
    Form::Compute(Width::Full, Arithmetic::Xor),
    Form::Compute(Width::Full, Arithmetic::Mov),
    Form::Compute(Width::Narrow, Arithmetic::Mod),
    Form::Compute(Width::Narrow, Arithmetic::Xor),
    Form::Compute(Width::Narrow, Arithmetic::Mov),
    Form::Extend(Extension::FromByte),
    Form::Extend(Extension::FromHalf),
    Form::Extend(Extension::FromWord),
    Form::Extend(Extension::NarrowFromByte),
    Form::Extend(Extension::NarrowFromHalf),
];

static ON_R: [Form; 4] = [
    Form::Compute(Width::Full, Arithmetic::Or),
    Form::Compute(Width::Full, Arithmetic::Arsh),
    Form::Compute(Width::Narrow, Arithmetic::Or),
    Form::Compute(Width::Narrow, Arithmetic::Arsh),
];

static ON_S: [Form; 14] = [
    Form::Compute(Width::Full, Arithmetic::Lsh),
    Form::Compute(Width::Full, Arithmetic::Rsh),
    Form::Compute(Width::Narrow, Arithmetic::Lsh),
    Form::Compute(Width::Narrow, Arithmetic::Rsh),
    Form::Branch(Width::Full, Comparison::AnyBit),
    Form::Branch(Width::Full, Comparison::SignedGreater),
    Form::Branch(Width::Full, Comparison::SignedGreaterOrEqual),
    Form::Branch(Width::Full, Comparison::SignedLess),
    Form::Branch(Width::Full, Comparison::SignedLessOrEqual),
    Form::Branch(Width::Narrow, Comparison::AnyBit),
    Form::Branch(Width::Narrow, Comparison::SignedGreater),
    Form::Branch(Width::Narrow, Comparison::SignedGreaterOrEqual),
    Form::Branch(Width::Narrow, Comparison::SignedLess),
    Form::Branch(Width::Narrow, Comparison::SignedLessOrEqual),
];

static ON_T: [Form; 8] = [
    Form::StoreImmediate(Size::Byte),
    Form::StoreImmediate(Size::Half),
    Form::StoreImmediate(Size::Word),
    Form::StoreImmediate(Size::Double),
    Form::StoreRegister(Size::Byte),
    Form::StoreRegister(Size::Half),
    Form::StoreRegister(Size::Word),
    Form::StoreRegister(Size::Double),
];

static ON_U: [Form; 4] = [
    Form::Compute(Width::Full, Arithmetic::Sub),
    Form::Compute(Width::Full, Arithmetic::Mul),
    Form::Compute(Width::Narrow, Arithmetic::Sub),
    Form::Compute(Width::Narrow, Arithmetic::Mul),
];

static ON_W: [Form; 3] = [
    Form::Convert(Conversion::Swap, ConvertedBits::Bits16),
    Form::Convert(Conversion::Swap, ConvertedBits::Bits32),
    Form::Convert(Conversion::Swap, ConvertedBits::Bits64),
];

static ON_X: [Form; 1] = [Form::Exit];

/// The mnemonic of an operation.
#[tactic(auto, unfolding(crate::specs::Mnemonics::name_of))]
fn arithmetic_name(width: Width, operation: Arithmetic) -> &'static str
    ensures { result.now ≡ name_of (Form.Compute width operation) }
{
    match (width, operation) {
        (Width::Full, Arithmetic::Add) => "add",
        (Width::Full, Arithmetic::Sub) => "sub",
        (Width::Full, Arithmetic::Mul) => "mul",
        (Width::Full, Arithmetic::Div) => "div",
        (Width::Full, Arithmetic::Or) => "or",
        (Width::Full, Arithmetic::And) => "and",
        (Width::Full, Arithmetic::Lsh) => "lsh",
        (Width::Full, Arithmetic::Rsh) => "rsh",
        (Width::Full, Arithmetic::Mod) => "mod",
        (Width::Full, Arithmetic::Xor) => "xor",
        (Width::Full, Arithmetic::Mov) => "mov",
        (Width::Full, Arithmetic::Arsh) => "arsh",
        (Width::Full, Arithmetic::SignedDiv) => "sdiv",
        (Width::Full, Arithmetic::SignedMod) => "smod",
        (Width::Narrow, Arithmetic::Add) => "add32",
        (Width::Narrow, Arithmetic::Sub) => "sub32",
        (Width::Narrow, Arithmetic::Mul) => "mul32",
        (Width::Narrow, Arithmetic::Div) => "div32",
        (Width::Narrow, Arithmetic::Or) => "or32",
        (Width::Narrow, Arithmetic::And) => "and32",
        (Width::Narrow, Arithmetic::Lsh) => "lsh32",
        (Width::Narrow, Arithmetic::Rsh) => "rsh32",
        (Width::Narrow, Arithmetic::Mod) => "mod32",
        (Width::Narrow, Arithmetic::Xor) => "xor32",
        (Width::Narrow, Arithmetic::Mov) => "mov32",
        (Width::Narrow, Arithmetic::Arsh) => "arsh32",
        (Width::Narrow, Arithmetic::SignedDiv) => "sdiv32",
        (Width::Narrow, Arithmetic::SignedMod) => "smod32",
    }
}

/// The mnemonic of a jump on a comparison.
#[tactic(auto, unfolding(crate::specs::Mnemonics::name_of))]
fn branch_name(width: Width, comparison: Comparison) -> &'static str
    ensures { result.now ≡ name_of (Form.Branch width comparison) }
{
    match (width, comparison) {
        (Width::Full, Comparison::Equal) => "jeq",
        (Width::Full, Comparison::Greater) => "jgt",
        (Width::Full, Comparison::GreaterOrEqual) => "jge",
        (Width::Full, Comparison::AnyBit) => "jset",
        (Width::Full, Comparison::NotEqual) => "jne",
        (Width::Full, Comparison::SignedGreater) => "jsgt",
        (Width::Full, Comparison::SignedGreaterOrEqual) => "jsge",
        (Width::Full, Comparison::Less) => "jlt",
        (Width::Full, Comparison::LessOrEqual) => "jle",
        (Width::Full, Comparison::SignedLess) => "jslt",
        (Width::Full, Comparison::SignedLessOrEqual) => "jsle",
        (Width::Narrow, Comparison::Equal) => "jeq32",
        (Width::Narrow, Comparison::Greater) => "jgt32",
        (Width::Narrow, Comparison::GreaterOrEqual) => "jge32",
        (Width::Narrow, Comparison::AnyBit) => "jset32",
        (Width::Narrow, Comparison::NotEqual) => "jne32",
        (Width::Narrow, Comparison::SignedGreater) => "jsgt32",
        (Width::Narrow, Comparison::SignedGreaterOrEqual) => "jsge32",
        (Width::Narrow, Comparison::Less) => "jlt32",
        (Width::Narrow, Comparison::LessOrEqual) => "jle32",
        (Width::Narrow, Comparison::SignedLess) => "jslt32",
        (Width::Narrow, Comparison::SignedLessOrEqual) => "jsle32",
    }
}

/// The mnemonic of a conversion of the order of bytes.
#[tactic(auto, unfolding(crate::specs::Mnemonics::name_of))]
fn conversion_name(conversion: Conversion, bits: ConvertedBits) -> &'static str
    ensures { result.now ≡ name_of (Form.Convert conversion bits) }
{
    match (conversion, bits) {
        (Conversion::ToLittleEndian, ConvertedBits::Bits16) => "le16",
        (Conversion::ToLittleEndian, ConvertedBits::Bits32) => "le32",
        (Conversion::ToLittleEndian, ConvertedBits::Bits64) => "le64",
        (Conversion::ToBigEndian, ConvertedBits::Bits16) => "be16",
        (Conversion::ToBigEndian, ConvertedBits::Bits32) => "be32",
        (Conversion::ToBigEndian, ConvertedBits::Bits64) => "be64",
        (Conversion::Swap, ConvertedBits::Bits16) => "swap16",
        (Conversion::Swap, ConvertedBits::Bits32) => "swap32",
        (Conversion::Swap, ConvertedBits::Bits64) => "swap64",
    }
}

/// The mnemonic of a sign-extending move.
#[tactic(auto, unfolding(crate::specs::Mnemonics::name_of))]
fn extension_name(extension: Extension) -> &'static str
    ensures { result.now ≡ name_of (Form.Extend extension) }
{
    match extension {
        Extension::FromByte => "movsx8",
        Extension::FromHalf => "movsx16",
        Extension::FromWord => "movsx32",
        Extension::NarrowFromByte => "mov32sx8",
        Extension::NarrowFromHalf => "mov32sx16",
    }
}

/// The mnemonic of a load.
#[tactic(auto, unfolding(crate::specs::Mnemonics::name_of))]
fn load_name(size: Size) -> &'static str
    ensures { result.now ≡ name_of (Form.Load size) }
{
    match size {
        Size::Byte => "ldxb",
        Size::Half => "ldxh",
        Size::Word => "ldxw",
        Size::Double => "ldxdw",
    }
}

/// The mnemonic of a sign-extending load.
#[tactic(auto, unfolding(crate::specs::Mnemonics::name_of))]
fn signed_load_name(size: SignedSize) -> &'static str
    ensures { result.now ≡ name_of (Form.LoadSigned size) }
{
    match size {
        SignedSize::SignedByte => "ldxsb",
        SignedSize::SignedHalf => "ldxsh",
        SignedSize::SignedWord => "ldxsw",
    }
}

/// The mnemonic of a store of an immediate.
#[tactic(auto, unfolding(crate::specs::Mnemonics::name_of))]
fn immediate_store_name(size: Size) -> &'static str
    ensures { result.now ≡ name_of (Form.StoreImmediate size) }
{
    match size {
        Size::Byte => "stb",
        Size::Half => "sth",
        Size::Word => "stw",
        Size::Double => "stdw",
    }
}

/// The mnemonic of a store of a register.
#[tactic(auto, unfolding(crate::specs::Mnemonics::name_of))]
fn register_store_name(size: Size) -> &'static str
    ensures { result.now ≡ name_of (Form.StoreRegister size) }
{
    match size {
        Size::Byte => "stxb",
        Size::Half => "stxh",
        Size::Word => "stxw",
        Size::Double => "stxdw",
    }
}

/// The name of a form.
#[tactic(auto, unfolding(crate::specs::Mnemonics::name_of))]
fn name(form: Form) -> &'static str
    ensures { result.now ≡ name_of form }
{
    match form {
        Form::Compute(width, operation) => arithmetic_name(width, operation),
        Form::Negate(Width::Full) => "neg",
        Form::Negate(Width::Narrow) => "neg32",
        Form::Extend(extension) => extension_name(extension),
        Form::Convert(conversion, bits) => conversion_name(conversion, bits),
        Form::Jump => "ja",
        Form::JumpLong => "ja32",
        Form::Branch(width, comparison) => branch_name(width, comparison),
        Form::Load(size) => load_name(size),
        Form::LoadSigned(size) => signed_load_name(size),
        Form::StoreImmediate(size) => immediate_store_name(size),
        Form::StoreRegister(size) => register_store_name(size),
        Form::LoadWide => "lddw",
        Form::Exit => "exit",
    }
}

/// The mnemonic of a form, which names that form and no other.
pub fn mnemonic(form: Form) -> &'static str
    ensures value { result.now ≡ name_of form }
    ensures reads_back { form_named result.now ≡ Some form }
{
    name(form)
}

/// The forms whose mnemonics have this byte behind their first: at most 14, so that a word is compared with few.
#[tactic(auto, unfolding(crate::specs::Mnemonics::forms_on, crate::specs::Mnemonics::all_forms, crate::specs::Mnemonics::name_of))]
fn forms_on(second: u8) -> &'static [Form]
    ensures { result.now ≡ forms_on second }
{
    match second {
        b'a' => &ON_A,
        b'd' => &ON_D,
        b'e' => &ON_E,
        b'g' => &ON_G,
        b'i' => &ON_I,
        b'l' => &ON_L,
        b'm' => &ON_M,
        b'n' => &ON_N,
        b'o' => &ON_O,
        b'r' => &ON_R,
        b's' => &ON_S,
        b't' => &ON_T,
        b'u' => &ON_U,
        b'w' => &ON_W,
        b'x' => &ON_X,
        _ => &[],
    }
}

/// Whether a word is a mnemonic. They are compared byte by byte, since both are short.
fn is_word(mnemonic: &[u8], word: &[u8]) -> bool
    ensures { result ≡ bytes_eq mnemonic.now word.now }
{
    if mnemonic.len() != word.len() {
        return false;
    }
    for index in 0..word.len() {
        if mnemonic[index] != word[index] {
            return false;
        }
    }
    true
}

/// The first of some forms whose mnemonic a word is.
fn form_among(forms: &[Form], word: &[u8]) -> Option<Form>
    ensures { result ≡ find (λ form. bytes_eq (name_of form) word.now) forms.now }
{
    forms
        .iter()
        .copied()
        .find(|form| is_word(name(*form).as_bytes(), word))
}

/// The form that a mnemonic names.
pub(crate) fn form_of(word: &[u8]) -> Option<Form>
    ensures { result ≡ form_named word.now }
{
    let second = word.get(1).copied().unwrap_or(0);
    form_among(forms_on(second), word)
}
