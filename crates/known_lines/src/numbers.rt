//! What is known of a number, in words.
ghost use Rattle.std.specs.Prelude.{◌≡◌, ◌++◌, codes, if◌then◌else◌, OnOk, string_bytes};
ghost use Rattle.intervals.specs.Interval.{interval_of};
ghost use Rattle.abstract_state.specs.Estimate.{estimate_of};
ghost use Rattle.known_lines.specs.KnownLines.{interval_text, hexadecimal, tells_bits, bits_text, tail_text};
ghost use Rattle.known_lines.specs.KnownLines.{details_text, is_any, number_text};

use abstract_state::quantity::Quantity;
use intervals::Range;
use known_bits::Bits;
use std::alloc::AllocError;

/// Appends an interval; the number itself where it is one.
pub fn push_interval(text: &mut String, range: Range) -> Result<(), AllocError>
    ensures { OnOk result (string_bytes text.new ≡ string_bytes text.old ++ interval_text (interval_of range)) }
{
    if range.low == range.high {
        write!(text, "{}", range.low)
    } else {
        write!(text, "{}..={}", range.low, range.high)
    }
}

/// Whether the ends of its interval tell which bits of a number are known.
fn tells_bits(quantity: &Quantity) -> bool
    ensures { result ≡ tells_bits (estimate_of quantity.now) }
{
    let range = quantity.range;
    quantity.bits.unknown == Bits::between(range.low, range.high).unknown
}

/// Appends a number in hexadecimal.
fn push_hexadecimal(text: &mut String, number: u64) -> Result<(), AllocError>
    ensures { OnOk result (string_bytes text.new ≡ string_bytes text.old ++ hexadecimal number) }
{
    write!(text, "0x{number:x}")
}

/// Appends the bits of a number, where its interval doesn't tell them.
fn push_bits(text: &mut String, quantity: &Quantity) -> Result<(), AllocError>
    ensures { OnOk result (string_bytes text.new ≡ string_bytes text.old ++ bits_text (estimate_of quantity.now)) }
{
    if tells_bits(quantity) {
        return Ok(());
    }
    text.push_str(", bits (")?;
    push_hexadecimal(text, quantity.bits.value)?;
    text.push_str("; ")?;
    push_hexadecimal(text, quantity.bits.unknown)?;
    text.push_str(")")
}

/// Appends a tail behind its name, if there is one.
fn push_tail(text: &mut String, name: &str, tail: Option<u32>) -> Result<(), AllocError>
    ensures { OnOk result (string_bytes text.new ≡ string_bytes text.old ++ tail_text name.now tail) }
{
    match tail {
        Some(tail) => write!(text, ", {name} {tail}"),
        None => Ok(()),
    }
}

/// Appends what is known of a number beside its interval.
pub fn push_details(text: &mut String, quantity: &Quantity) -> Result<(), AllocError>
    ensures { OnOk result (string_bytes text.new ≡ string_bytes text.old ++ details_text (estimate_of quantity.now)) }
{
    push_bits(text, quantity)?;
    push_tail(text, "tail", quantity.tails.text)?;
    push_tail(text, "link tail", quantity.tails.link)
}

/// Appends the interval of a number, in words where it is every number.
fn push_range(text: &mut String, range: Range) -> Result<(), AllocError>
    ensures { OnOk result (string_bytes text.new ≡ string_bytes text.old
        ++ (if is_any (interval_of range) then codes "any number" else interval_text (interval_of range))) }
{
    if range.low == 0 && range.high == u64::MAX {
        text.push_str("any number")
    } else {
        push_interval(text, range)
    }
}

/// Appends what is known of a number.
pub fn push_number(text: &mut String, quantity: &Quantity) -> Result<(), AllocError>
    ensures { OnOk result (string_bytes text.new ≡ string_bytes text.old ++ number_text (estimate_of quantity.now)) }
{
    push_range(text, quantity.range)?;
    push_details(text, quantity)
}
