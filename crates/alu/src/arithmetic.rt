ghost use Rattle.std.specs.Prelude.{◌≡◌, ◌<◌, ◌%◌, ◌^◌};
ghost use Rattle.std.specs.Int.{cast_signed, w8};
ghost use Rattle.bpf_words.specs.declared.instruction.Conversion.TheVariants.{ToLittleEndian, Swap};
ghost use Rattle.semantics.specs.Memory.{bytes_in_signed};
ghost use Rattle.bpf_words.specs.declared.instruction.Width.TheVariants.{Narrow, Full};
ghost use Rattle.semantics.specs.Value.{value_of, holds_of, cut, negated, extended, converted, with_sign};

use bpf_words::instruction::{
    Arithmetic, Comparison, Conversion, ConvertedBits, Extension, SignedSize, Width,
};

fn value_full(operation: Arithmetic, a: u64, b: u64) -> u64
    ensures { result ≡ value_of operation Full a b }
{
    match operation {
        Arithmetic::Add => a.wrapping_add(b),
        Arithmetic::Sub => a.wrapping_sub(b),
        Arithmetic::Mul => a.wrapping_mul(b),
        Arithmetic::Div => a.checked_div(b).unwrap_or(0),
        Arithmetic::Or => a | b,
        Arithmetic::And => a & b,
        Arithmetic::Lsh => a.wrapping_shl((b % 64) as u32),
        Arithmetic::Rsh => a >> (b % 64),
        Arithmetic::Mod => a.checked_rem(b).unwrap_or(a),
        Arithmetic::Xor => a ^ b,
        Arithmetic::Mov => b,
        Arithmetic::Arsh => (a.cast_signed() >> (b % 64)).cast_unsigned(),
        Arithmetic::SignedDiv => {
            if b == 0 {
                0
            } else {
                a.cast_signed()
                    .wrapping_div(b.cast_signed())
                    .cast_unsigned()
            }
        }
        Arithmetic::SignedMod => {
            if b == 0 {
                a
            } else {
                a.cast_signed()
                    .wrapping_rem(b.cast_signed())
                    .cast_unsigned()
            }
        }
    }
}

fn value_narrow(operation: Arithmetic, x: u32, y: u32) -> u32
    ensures { result ≡ value_of operation Narrow x y }
{
    match operation {
        Arithmetic::Add => x.wrapping_add(y),
        Arithmetic::Sub => x.wrapping_sub(y),
        Arithmetic::Mul => x.wrapping_mul(y),
        Arithmetic::Div => x.checked_div(y).unwrap_or(0),
        Arithmetic::Or => x | y,
        Arithmetic::And => x & y,
        Arithmetic::Lsh => x.wrapping_shl(y % 32),
        Arithmetic::Rsh => x >> (y % 32),
        Arithmetic::Mod => x.checked_rem(y).unwrap_or(x),
        Arithmetic::Xor => x ^ y,
        Arithmetic::Mov => y,
        Arithmetic::Arsh => (x.cast_signed() >> (y % 32)).cast_unsigned(),
        Arithmetic::SignedDiv => {
            if y == 0 {
                0
            } else {
                x.cast_signed()
                    .wrapping_div(y.cast_signed())
                    .cast_unsigned()
            }
        }
        Arithmetic::SignedMod => {
            if y == 0 {
                x
            } else {
                x.cast_signed()
                    .wrapping_rem(y.cast_signed())
                    .cast_unsigned()
            }
        }
    }
}

fn low_word(n: u64) -> u32
    ensures { result ≡ cut Narrow n }
{
    (n % (1 << 32)) as u32
}

/// What an operation gives of two registers' numbers.
pub fn value(operation: Arithmetic, width: Width, a: u64, b: u64) -> u64
    ensures { result ≡ value_of operation width (cut width a) (cut width b) }
{
    match width {
        Width::Full => value_full(operation, a, b),
        Width::Narrow => u64::from(value_narrow(operation, low_word(a), low_word(b))),
    }
}

/// A register's number negated.
pub fn negate(width: Width, a: u64) -> u64
    ensures { result ≡ negated width (cut width a) }
{
    match width {
        Width::Full => a.wrapping_neg(),
        Width::Narrow => u64::from(low_word(a).wrapping_neg()),
    }
}

fn low_byte(n: u64) -> i8
    ensures { result ≡ cast_signed w8 (n % 2 ^ 8) }
{
    ((n % (1 << 8)) as u8).cast_signed()
}

fn low_half(n: u64) -> u16
    ensures { result ≡ n % 2 ^ 16 }
{
    (n % (1 << 16)) as u16
}

/// The low bits of a register's number with their sign.
pub fn extend(extension: Extension, a: u64) -> u64
    ensures { result ≡ extended extension a }
{
    match extension {
        Extension::FromByte => i64::from(low_byte(a)).cast_unsigned(),
        Extension::FromHalf => i64::from(low_half(a).cast_signed()).cast_unsigned(),
        Extension::FromWord => i64::from(low_word(a).cast_signed()).cast_unsigned(),
        Extension::NarrowFromByte => u64::from(i32::from(low_byte(a)).cast_unsigned()),
        Extension::NarrowFromHalf => {
            u64::from(i32::from(low_half(a).cast_signed()).cast_unsigned())
        }
    }
}

fn keep(bits: ConvertedBits, a: u64) -> u64
    ensures { result ≡ converted ToLittleEndian bits a }
{
    match bits {
        ConvertedBits::Bits16 => u64::from(low_half(a)),
        ConvertedBits::Bits32 => u64::from(low_word(a)),
        ConvertedBits::Bits64 => a,
    }
}

fn reverse(bits: ConvertedBits, a: u64) -> u64
    ensures { result ≡ converted Swap bits a }
{
    match bits {
        ConvertedBits::Bits16 => u64::from(low_half(a).swap_bytes()),
        ConvertedBits::Bits32 => u64::from(low_word(a).swap_bytes()),
        ConvertedBits::Bits64 => a.swap_bytes(),
    }
}

/// The low bytes of a register's number in the order that is asked for; the machine is little-endian.
pub fn convert(conversion: Conversion, bits: ConvertedBits, a: u64) -> u64
    ensures { result ≡ converted conversion bits a }
{
    match conversion {
        Conversion::ToLittleEndian => keep(bits, a),
        Conversion::ToBigEndian | Conversion::Swap => reverse(bits, a),
    }
}

/// A number that a sign-extending load read, with its sign.
pub fn sign(size: SignedSize, number: u64) -> u64
    requires { number < 256 ^ bytes_in_signed size }
    ensures { result ≡ with_sign size number }
{
    match size {
        SignedSize::SignedByte => i64::from((number as u8).cast_signed()).cast_unsigned(),
        SignedSize::SignedHalf => i64::from((number as u16).cast_signed()).cast_unsigned(),
        SignedSize::SignedWord => i64::from((number as u32).cast_signed()).cast_unsigned(),
    }
}

fn holds_full(comparison: Comparison, a: u64, b: u64) -> bool
    ensures { result ≡ holds_of comparison Full a b }
{
    match comparison {
        Comparison::Equal => a == b,
        Comparison::Greater => a > b,
        Comparison::GreaterOrEqual => a >= b,
        Comparison::AnyBit => a & b != 0,
        Comparison::NotEqual => a != b,
        Comparison::SignedGreater => a.cast_signed() > b.cast_signed(),
        Comparison::SignedGreaterOrEqual => a.cast_signed() >= b.cast_signed(),
        Comparison::Less => a < b,
        Comparison::LessOrEqual => a <= b,
        Comparison::SignedLess => a.cast_signed() < b.cast_signed(),
        Comparison::SignedLessOrEqual => a.cast_signed() <= b.cast_signed(),
    }
}

fn holds_narrow(comparison: Comparison, x: u32, y: u32) -> bool
    ensures { result ≡ holds_of comparison Narrow x y }
{
    match comparison {
        Comparison::Equal => x == y,
        Comparison::Greater => x > y,
        Comparison::GreaterOrEqual => x >= y,
        Comparison::AnyBit => x & y != 0,
        Comparison::NotEqual => x != y,
        Comparison::SignedGreater => x.cast_signed() > y.cast_signed(),
        Comparison::SignedGreaterOrEqual => x.cast_signed() >= y.cast_signed(),
        Comparison::Less => x < y,
        Comparison::LessOrEqual => x <= y,
        Comparison::SignedLess => x.cast_signed() < y.cast_signed(),
        Comparison::SignedLessOrEqual => x.cast_signed() <= y.cast_signed(),
    }
}

/// Whether a comparison of two registers' numbers holds.
pub fn holds(comparison: Comparison, width: Width, a: u64, b: u64) -> bool
    ensures { result ≡ holds_of comparison width (cut width a) (cut width b) }
{
    match width {
        Width::Full => holds_full(comparison, a, b),
        Width::Narrow => holds_narrow(comparison, low_word(a), low_word(b)),
    }
}
