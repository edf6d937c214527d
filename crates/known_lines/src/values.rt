//! What a register or eight bytes of the stack hold, in words.
ghost use Rattle.std.specs.Prelude.{◌≡◌, ◌++◌, ◌-◌, ◌*◌, OnOk, IfOk, string_bytes};
ghost use Rattle.std.specs.List.{flat_map, list_any};
ghost use Rattle.abstract_state.specs.Addresses.{content_of};
ghost use Rattle.abstract_state.specs.Stacks.{eight_of};
ghost use Rattle.abstract_state.specs.Situation.{register_of};
ghost use Rattle.known_lines.specs.KnownLines.{region_text, below_end, content_text, register_line, mark_text};
ghost use Rattle.known_lines.specs.KnownLines.{slot_name, marks_line, slot_line};

use crate::numbers::{push_details, push_interval, push_number};
use abstract_state::address::LentAddress;
use abstract_state::known::Known;
use abstract_state::region::Region;
use abstract_state::slot::Slot;
use abstract_state::state::AbsReg;
use std::alloc::{AllocError, Global};

/// The name of a lent region.
pub fn region_name(region: Region) -> &'static str
    ensures { result.now ≡ region_text region }
{
    match region {
        Region::Text => "text",
        Region::Link => "link",
    }
}

/// Appends how far a byte of the stack is below the stack's end.
fn push_below_end(text: &mut String, offset: u64) -> Result<(), AllocError>
    ensures { OnOk result (string_bytes text.new ≡ string_bytes text.old ++ below_end offset) }
{
    write!(text, "stack-{}", 512_u64.saturating_sub(offset))
}

/// Appends what is known of an address in a lent region.
fn push_lent(text: &mut String, address: &LentAddress) -> Result<(), AllocError>
    ensures { OnOk result (string_bytes text.new ≡ string_bytes text.old
        ++ content_text (content_of (Known.Lent address.now))) }
{
    text.push_str(region_name(address.region))?;
    text.push_str("+")?;
    push_interval(text, address.offset.range)?;
    push_details(text, &address.offset)
}

/// Appends what is known of a number or an address.
fn push_known(text: &mut String, known: Known) -> Result<(), AllocError>
    ensures { OnOk result (string_bytes text.new ≡ string_bytes text.old ++ content_text (content_of known)) }
{
    match known {
        Known::Number(quantity) => push_number(text, &quantity),
        Known::Context(address) => write!(text, "context+{}", address.offset),
        Known::Stack(address) => push_below_end(text, address.offset),
        Known::Lent(address) => push_lent(text, &address),
    }
}

/// The line of a register; empty where it isn't set for sure.
pub fn register_line(alloc: Global, number: usize, register: AbsReg) -> Result<String, AllocError>
    ensures { IfOk result (λ line. string_bytes line ≡ register_line number (register_of register)) }
{
    let mut text = String::new(alloc);
    if let AbsReg::Set(known) = register {
        write!(text, "r{number} = ")?;
        push_known(&mut text, known)?;
    }
    Ok(text)
}

fn mark_text(set: bool) -> &'static str
    ensures { result.now ≡ mark_text set }
{
    if set { "x" } else { "-" }
}

/// Appends which of eight bytes are set for sure.
fn push_marks(text: &mut String, marks: &[bool; 8]) -> Result<(), AllocError>
    ensures { OnOk result (string_bytes text.new ≡ string_bytes text.old ++ flat_map mark_text marks.now) }
{
    for i in 0..8 {
        text.push_str(mark_text(marks[i]))?;
    }
    Ok(())
}

/// How far eight bytes of the stack are below the stack's end.
fn eight_below_end(index: usize) -> usize
    ensures { result ≡ 512 - 8 * index }
{
    512_usize.saturating_sub(index.saturating_mul(8))
}

/// Appends the name of eight bytes of the stack.
pub fn push_slot_name(text: &mut String, index: usize) -> Result<(), AllocError>
    ensures { OnOk result (string_bytes text.new ≡ string_bytes text.old ++ slot_name index) }
{
    let below = eight_below_end(index);
    write!(text, "[stack-{below}]")
}

/// Whether one of eight bytes is set for sure.
fn has_mark(marks: &[bool; 8]) -> bool
    ensures { result ≡ list_any (λ set. set) marks.now }
{
    for i in 0..8 {
        if marks[i] {
            return true;
        }
    }
    false
}

/// The line of eight bytes of the stack; empty where none of them is set for sure.
pub fn slot_line(alloc: Global, index: usize, slot: Slot) -> Result<String, AllocError>
    ensures { IfOk result (λ line. string_bytes line ≡ slot_line index (eight_of slot)) }
{
    let mut text = String::new(alloc);
    match slot {
        Slot::Spilled(known) => push_spilled(&mut text, index, known)?,
        Slot::Marks(marks) => push_marked(&mut text, index, &marks)?,
    }
    Ok(text)
}

/// Appends the line of eight bytes in which a number or an address stands.
fn push_spilled(text: &mut String, index: usize, known: Known) -> Result<(), AllocError>
    ensures { OnOk result (string_bytes text.new ≡ string_bytes text.old
        ++ slot_line index (eight_of (Slot.Spilled known))) }
{
    push_slot_name(text, index)?;
    text.push_str(" = ")?;
    push_known(text, known)
}

/// Appends the line of eight bytes by which of them are set for sure, if one is.
fn push_marked(text: &mut String, index: usize, marks: &[bool; 8]) -> Result<(), AllocError>
    ensures { OnOk result (string_bytes text.new ≡ string_bytes text.old ++ marks_line index marks.now) }
{
    if has_mark(marks) {
        push_slot_name(text, index)?;
        text.push_str(" = ")?;
        push_marks(text, marks)?;
    }
    Ok(())
}
