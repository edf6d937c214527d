//! The lines of what is known of the machine before an instruction.
ghost use Rattle.std.specs.Prelude.{◌≡◌, ◌<◌, [], ◌++◌, List, ℕ, length, map, min, slice_index_or, OnOk, IfOk};
ghost use Rattle.std.specs.Prelude.{string_bytes};
ghost use Rattle.abstract_state.specs.Stacks.{slots_of};
ghost use Rattle.abstract_state.specs.Situation.{registers_of, situation_of, least_of};
ghost use Rattle.known_lines.specs.KnownLines.{register_lines, slot_lines, length_lines, known_lines, listed_line};
ghost use Rattle.known_lines.specs.KnownLines.{listed, is_told, told_line, lines_beside, in_line, behind};

use crate::values::{register_line, slot_line};
use abstract_state::bounds::Bounds;
use abstract_state::slot::Slot;
use abstract_state::state::{AbsReg, AbsState};
use span_context::profile::Profile;
use std::alloc::{AllocError, Global};
use std::marker::Model;

/// The lines of what is known of the machine: one of each register and of each eight bytes of the stack, which may be
/// empty, and one of the least length of each region that the profile lends.
#[derive(Drop)]
pub struct KnownLines {
    lines: Vec<String>,
}

impl Model for KnownLines {
    ghost Value = { List (List ℕ) };

    ghost view = { λ k. map string_bytes k.lines.items };
}

impl KnownLines {
    #[tactic(auto, unfolding(crate::specs::KnownLines::known_lines))]
    pub fn of(alloc: Global, profile: Profile, state: &AbsState) -> Result<Self, AllocError>
        ensures { IfOk result (λ lines. lines ≡ known_lines profile (situation_of state.now)) }
    {
        let mut lines = Vec::new(alloc);
        add_registers(alloc, &mut lines, &state.registers)?;
        add_slots(alloc, &mut lines, &state.stack)?;
        add_lengths(alloc, &mut lines, profile, state.bounds)?;
        Ok(KnownLines { lines })
    }

    /// Appends all lines.
    pub fn push(&self, text: &mut String) -> Result<(), AllocError>
        ensures { OnOk result (string_bytes text.new ≡ string_bytes text.old ++ listed self.now) }
    {
        push_lines(text, &self.lines)
    }

    /// Appends the lines that others don't have.
    pub fn push_beside(&self, text: &mut String, others: &KnownLines) -> Result<(), AllocError>
        ensures { OnOk result (string_bytes text.new ≡ string_bytes text.old
            ++ listed (lines_beside self.now others.now)) }
    {
        push_lines_beside(text, &self.lines, &others.lines)
    }

    /// Appends the same in one line.
    pub fn push_in_line(&self, text: &mut String, others: &KnownLines) -> Result<(), AllocError>
        ensures { OnOk result (string_bytes text.new ≡ string_bytes text.old
            ++ in_line (lines_beside self.now others.now)) }
    {
        push_all_in_line(text, &self.lines, &others.lines)
    }
}

/// Adds the lines of the registers.
fn add_registers(
    alloc: Global,
    lines: &mut Vec<String>,
    registers: &[AbsReg; 11],
) -> Result<(), AllocError>
    ensures { OnOk result (map string_bytes lines.new.items ≡ map string_bytes lines.old.items
        ++ register_lines (registers_of registers.now)) }
{
    for number in 0..11 {
        lines.push(register_line(alloc, number, registers[number])?)?;
    }
    Ok(())
}

/// Adds the lines of the stack.
fn add_slots(alloc: Global, lines: &mut Vec<String>, slots: &[Slot; 64]) -> Result<(), AllocError>
    ensures { OnOk result (map string_bytes lines.new.items ≡ map string_bytes lines.old.items
        ++ slot_lines (slots_of slots.now)) }
{
    for index in 0..64 {
        lines.push(slot_line(alloc, index, slots[index])?)?;
    }
    Ok(())
}

/// Adds how long each region is at least that the profile lends.
fn add_lengths(
    alloc: Global,
    lines: &mut Vec<String>,
    profile: Profile,
    bounds: Bounds,
) -> Result<(), AllocError>
    ensures { OnOk result (map string_bytes lines.new.items ≡ map string_bytes lines.old.items
        ++ length_lines profile (least_of bounds)) }
{
    lines.push(format!(in alloc; "length >= {}", bounds.text)?)?;
    if profile.lends_link() {
        lines.push(format!(in alloc; "link length >= {}", bounds.link)?)?;
    }
    Ok(())
}

/// Appends a line, if there is something in it.
fn push_line(text: &mut String, line: &str) -> Result<(), AllocError>
    ensures { OnOk result (string_bytes text.new ≡ string_bytes text.old ++ listed_line line.now) }
{
    if line.is_empty() {
        return Ok(());
    }
    text.push_str("  ")?;
    text.push_str(line)?;
    text.push('\n')
}

/// One of several lines.
fn line_at(lines: &[String], index: usize) -> &str
    requires { index < length lines.now }
    ensures { result.now ≡ slice_index_or (map string_bytes lines.now) index [] }
{
    lines[index].as_str()
}

/// Appends lines.
fn push_lines(text: &mut String, lines: &[String]) -> Result<(), AllocError>
    ensures { OnOk result (string_bytes text.new ≡ string_bytes text.old ++ listed (map string_bytes lines.now)) }
{
    for index in 0..lines.len() {
        push_line(text, line_at(lines, index))?;
    }
    Ok(())
}

/// Whether a line has something in it and differs from another one.
fn is_told(line: &str, other: &str) -> bool
    ensures { result ≡ is_told line.now other.now }
{
    !line.is_empty() && line != other
}

/// Appends a line that is told beside another one.
fn push_told(text: &mut String, line: &str, other: &str) -> Result<(), AllocError>
    ensures { OnOk result (string_bytes text.new ≡ string_bytes text.old ++ listed (told_line line.now other.now)) }
{
    if is_told(line, other) {
        push_line(text, line)?;
    }
    Ok(())
}

/// How many lines the shorter one of two lists has.
fn shorter(lines: &[String], others: &[String]) -> usize
    ensures { result ≡ min (length lines.now) (length others.now) }
{
    lines.len().min(others.len())
}

/// Appends the lines that others don't have in the same place.
fn push_lines_beside(
    text: &mut String,
    lines: &[String],
    others: &[String],
) -> Result<(), AllocError>
    ensures { OnOk result (string_bytes text.new ≡ string_bytes text.old
        ++ listed (lines_beside (map string_bytes lines.now) (map string_bytes others.now))) }
{
    for index in 0..shorter(lines, others) {
        push_told(text, line_at(lines, index), line_at(others, index))?;
    }
    Ok(())
}

/// Appends a line behind those before it.
fn push_behind(text: &mut String, some: bool, line: &str) -> Result<(), AllocError>
    ensures { OnOk result (string_bytes text.new ≡ (string_bytes text.old ++ behind some) ++ line.now) }
{
    if some {
        text.push_str("; ")?;
    }
    text.push_str(line)
}

/// Appends the lines that others don't have in the same place, all in one.
fn push_all_in_line(
    text: &mut String,
    lines: &[String],
    others: &[String],
) -> Result<(), AllocError>
    ensures { OnOk result (string_bytes text.new ≡ string_bytes text.old
        ++ in_line (lines_beside (map string_bytes lines.now) (map string_bytes others.now))) }
{
    let mut some = false;
    for index in 0..shorter(lines, others) {
        let line = line_at(lines, index);
        if is_told(line, line_at(others, index)) {
            push_behind(text, some, line)?;
            some = true;
        }
    }
    if !some {
        text.push_str("the same")?;
    }
    Ok(())
}
