ghost use Rattle.std.specs.Prelude.{◌≡◌, ◌+◌, ◌++◌, ◌<◌, ◌^◌, IfOk, IfErr, IsOk, Ok, OnOk};
ghost use Rattle.assembler_lines.specs.Slots.{insn_at, jump_between, line_at, lines_of, first_slot, resolved};
ghost use Rattle.assembler_lines.specs.Statements.{Label, Onto};
ghost use Rattle.assembler.specs.declared.fault.AsmError.TheVariants.{Line};
ghost use Rattle.assembler.specs.Labels.{onto_held};
ghost use Rattle.assembler.specs.Text.{bytes_of, AsmFault, AsmText, IsFault};

use crate::fault::AsmError;
use crate::labels::{Definition, Labels};
use crate::lines::first_line;
use assembler_lines::fault::LineFault;
use assembler_lines::reading::{jump_by, reach, reading};
use assembler_lines::statement::{Jump, Statement};
use bpf_words::encoding::encode;
use bpf_words::instruction::Insn;
use std::alloc::{AllocError, Global};

/// The jump at a slot to another.
#[tactic(auto, unfolding(assembler_lines::specs::Slots::jump_between))]
fn jump_between(jump: Jump, here: usize, target: usize) -> Result<Insn, LineFault>
    ensures { result ≡ jump_between jump here target }
{
    let limit = reach(&jump);
    if target > here {
        let ahead = (target - here - 1) as u64;
        if ahead < limit {
            return Ok(jump_by(jump, ahead as i64));
        }
    } else {
        let back = (here - target) as u64;
        if back < limit {
            return Ok(jump_by(jump, -(back as i64) - 1));
        }
    }
    Err(LineFault::JumpRange)
}

/// The jump at a slot to a label, by its definition.
fn onto(jump: Jump, slot: usize, definition: Option<Definition>) -> Result<Option<Insn>, LineFault>
    ensures { result ≡ onto_held jump slot definition }
{
    let definition = definition.ok_or(LineFault::UnknownLabel)?;
    let insn = jump_between(jump, slot, definition.slot)?;
    Ok(Some(insn))
}

/// A line's fault. Lines count from 1, their indexes from 0.
fn fault_at(index: usize, fault: LineFault) -> AsmError
    requires { index + 1 < 2 ^ 64 }
    ensures { result ≡ Line (index + 1) fault }
{
    let line = index + 1;
    AsmError::Line { line, fault }
}

/// A label's line has no instruction, and no earlier line may have the label.
fn at_label<'a>(
    labels: &mut Labels<'a>,
    index: usize,
    name: &'a [u8],
) -> Result<Option<Insn>, AsmError>
    requires { index + 1 < 2 ^ 64 }
    ensures same { OnOk result (labels.new.source ≡ labels.old.source) }
    ensures insn { IfOk result (λ insn. Ok insn
        ≡ resolved (lines_of labels.old.source.now) index (Ok (Label name.now))) }
    ensures fault { IfErr result (IsFault index
        (resolved (lines_of labels.old.source.now) index (Ok (Label name.now)))) }
{
    if labels.is_taken(name, index)? {
        Err(fault_at(index, LineFault::LabelTwice))
    } else {
        Ok(None)
    }
}

/// The jump at a slot to a label.
fn at_jump<'a>(
    labels: &mut Labels<'a>,
    index: usize,
    slot: usize,
    jump: Jump,
    name: &'a [u8],
) -> Result<Option<Insn>, AsmError>
    requires slot { slot ≡ first_slot (lines_of labels.old.source.now) index }
    requires room { index + 1 < 2 ^ 64 }
    ensures same { OnOk result (labels.new.source ≡ labels.old.source) }
    ensures insn { IfOk result (λ insn. Ok insn
        ≡ resolved (lines_of labels.old.source.now) index (Ok (Onto jump name.now))) }
    ensures fault { IfErr result (IsFault index
        (resolved (lines_of labels.old.source.now) index (Ok (Onto jump name.now)))) }
{
    let definition = labels.find(name)?;
    match onto(jump, slot, definition) {
        Ok(insn) => Ok(insn),
        Err(fault) => Err(fault_at(index, fault)),
    }
}

/// The instruction of the line of an index, where it has one. The line begins at that slot.
fn instruction_at<'a>(
    labels: &mut Labels<'a>,
    line: &'a [u8],
    index: usize,
    slot: usize,
) -> Result<Option<Insn>, AsmError>
    requires line { line.now ≡ line_at (lines_of labels.old.source.now) index }
    requires slot { slot ≡ first_slot (lines_of labels.old.source.now) index }
    requires room { index + 1 < 2 ^ 64 }
    ensures same { OnOk result (labels.new.source ≡ labels.old.source) }
    ensures insn { IfOk result (λ insn. Ok insn ≡ insn_at (lines_of labels.old.source.now) index) }
    ensures fault { IfErr result (IsFault index (insn_at (lines_of labels.old.source.now) index)) }
{
    match reading(line) {
        Ok(Statement::Blank) => Ok(None),
        Ok(Statement::Label(name)) => at_label(labels, index, name),
        Ok(Statement::Plain(insn)) => Ok(Some(insn)),
        Ok(Statement::Onto(jump, name)) => at_jump(labels, index, slot, jump, name),
        Err(fault) => Err(fault_at(index, fault)),
    }
}

/// Appends the bytes of a line's instruction, where it has one.
fn append(bytes: &mut Vec<u8>, insn: Option<Insn>) -> Result<(), AllocError>
    ensures { OnOk result (bytes.new.items ≡ bytes.old.items ++ bytes_of (Ok insn)) }
{
    match insn {
        Some(insn) => bytes.extend_from_slice(encode(insn).bytes()),
        None => Ok(()),
    }
}

/// Appends the bytes of the line of an index, which begins at that slot.
fn append_line<'a>(
    bytes: &mut Vec<u8>,
    labels: &mut Labels<'a>,
    line: &'a [u8],
    index: usize,
    slot: usize,
) -> Result<(), AsmError>
    requires line { line.now ≡ line_at (lines_of labels.old.source.now) index }
    requires slot { slot ≡ first_slot (lines_of labels.old.source.now) index }
    requires room { index + 1 < 2 ^ 64 }
    ensures same { OnOk result (labels.new.source ≡ labels.old.source) }
    ensures right { OnOk result (IsOk (insn_at (lines_of labels.old.source.now) index)) }
    ensures appended { OnOk result (bytes.new.items ≡ bytes.old.items
        ++ bytes_of (insn_at (lines_of labels.old.source.now) index)) }
    ensures fault { IfErr result (IsFault index (insn_at (lines_of labels.old.source.now) index)) }
{
    match instruction_at(labels, line, index, slot) {
        Ok(insn) => append(bytes, insn).map_err(AsmError::from),
        Err(error) => Err(error),
    }
}

/// The bytes of a program's text: 8 for each instruction, 16 for a wide load (RFC 9669, section 3).
/// Refused, it names the first line at fault. Behind that line are read only lines up to a label that a jump before it
/// names.
pub fn assemble(alloc: Global, source: &str) -> Result<Vec<u8>, AsmError>
    ensures text { IfOk result (λ bytes. AsmText source.now bytes.items) }
    ensures fault { IfErr result (AsmFault source.now) }
{
    let mut labels = Labels::new(alloc, source);
    let mut bytes = Vec::new(alloc);
    let mut rest = Some(source.as_bytes());
    let mut index = 0;
    while let Some(text) = rest {
        let (line, behind) = first_line(text);
        let slot = bytes.len() / 8;
        append_line(&mut bytes, &mut labels, line, index, slot)?;
        index += 1;
        rest = behind;
    }
    Ok(bytes)
}
