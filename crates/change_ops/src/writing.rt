//! Writing the text of a change.
ghost use Rattle.std.specs.Prelude.{◌≡◌, ◌++◌, [], ◌∷◌, OnOk, OnErr};
ghost use Rattle.std.specs.String.{string_bytes};
ghost use Rattle.change_ops.specs.Spelling.{◌␣◌, id_text, parent_text, anchor_text, key_text, value_text};
ghost use Rattle.change_ops.specs.Spelling.{attribute_text, op_text};
ghost use Rattle.change_ops.specs.Spelling.{codes_text, run_text, id_run_text, line_text, lines_text};
ghost use Rattle.change_ops.specs.Spelling.{form_text, header_text, change_text};

use crate::attribute::{Attribute, Key};
use crate::change::Change;
use crate::character::Character;
use crate::id::OpId;
use crate::id_run::IdRun;
use crate::line::{Form, Line};
use crate::operation::{Anchor, Op};
use crate::run::Run;
use crate::value::Value;
use std::alloc::AllocError;
use std::fmt::Write;

fn write_id(id: OpId, out: &mut String) -> Result<(), AllocError>
    ensures { OnOk result (string_bytes out.new ≡ string_bytes out.old ++ id_text id) }
{
    write!(out, "{}@{}", id.counter(), id.node())
}

fn write_parent(parent: Option<OpId>, out: &mut String) -> Result<(), AllocError>
    ensures { OnOk result (string_bytes out.new ≡ string_bytes out.old ++ parent_text parent) }
{
    match parent {
        None => out.push('-'),
        Some(id) => write_id(id, out),
    }
}

fn write_anchor(anchor: Anchor, out: &mut String) -> Result<(), AllocError>
    ensures { OnOk result (string_bytes out.new ≡ string_bytes out.old ++ anchor_text anchor) }
{
    match anchor {
        Anchor::TextStart => out.push('^'),
        Anchor::BeforeCharacter(id) => {
            out.push('<')?;
            write_id(id, out)
        }
        Anchor::AfterCharacter(id) => {
            out.push('>')?;
            write_id(id, out)
        }
        Anchor::TextEnd => out.push('$'),
    }
}

fn write_key(key: Key, out: &mut String) -> Result<(), AllocError>
    ensures { OnOk result (string_bytes out.new ≡ string_bytes out.old ++ key_text key) }
{
    match key {
        Key::Row(row) => out.push_str(row.word()),
        Key::Comment(number) => write!(out, "comment:{}", number.number()),
    }
}

#[tactic(auto, using(crate::proofs::Numerals::six_written))]
fn write_value(value: &Value, out: &mut String) -> Result<(), AllocError>
    ensures { OnOk result (string_bytes out.new ≡ string_bytes out.old ++ value_text value.now) }
{
    match value {
        Value::Nothing => out.push('-'),
        Value::Link(link) => out.push_str(link.target()),
        Value::Color(color) => write!(out, "{:06x}", color.rgb()),
        Value::LineKind(kind) => out.push_str(kind.word()),
    }
}

fn write_attribute(attribute: &Attribute, out: &mut String) -> Result<(), AllocError>
    ensures { OnOk result (string_bytes out.new ≡ string_bytes out.old ++ attribute_text attribute.now) }
{
    match attribute {
        Attribute::Row(valued) => {
            out.push_str(valued.row().word())?;
            out.push(' ')?;
            write_value(valued.value(), out)
        }
        Attribute::Comment(number) => write!(out, "comment:{} -", number.number()),
    }
}

fn write_anchors(start: Anchor, end: Anchor, out: &mut String) -> Result<(), AllocError>
    ensures { OnOk result (string_bytes out.new ≡ string_bytes out.old ++ (anchor_text start ␣ anchor_text end)) }
{
    write_anchor(start, out)?;
    out.push(' ')?;
    write_anchor(end, out)
}

/// The letter of an operation's kind and its id, each with a space behind it.
fn write_front(kind: &str, id: OpId, out: &mut String) -> Result<(), AllocError>
    ensures { OnOk result (string_bytes out.new ≡ string_bytes out.old ++ (kind.now ␣ id_text id ␣ [])) }
{
    write!(out, "{kind} {}@{} ", id.counter(), id.node())
}

fn write_insert(
    id: OpId,
    parent: Option<OpId>,
    character: Character,
    out: &mut String,
) -> Result<(), AllocError>
    ensures { OnOk result (string_bytes out.new ≡ string_bytes out.old ++ op_text (Op.Insert id parent character)) }
{
    write_front("i", id, out)?;
    write_parent(parent, out)?;
    write!(out, " {:x}", character.value() as u32)
}

fn write_remove(id: OpId, target: OpId, out: &mut String) -> Result<(), AllocError>
    ensures { OnOk result (string_bytes out.new ≡ string_bytes out.old ++ op_text (Op.Remove id target)) }
{
    write_front("d", id, out)?;
    write_id(target, out)
}

fn write_mark(
    id: OpId,
    attribute: &Attribute,
    start: Anchor,
    end: Anchor,
    out: &mut String,
) -> Result<(), AllocError>
    ensures { OnOk result (string_bytes out.new ≡ string_bytes out.old
        ++ op_text (Op.AddMark id attribute.now start end)) }
{
    write_front("m", id, out)?;
    write_attribute(attribute, out)?;
    out.push(' ')?;
    write_anchors(start, end, out)
}

fn write_unmark(
    id: OpId,
    key: Key,
    start: Anchor,
    end: Anchor,
    out: &mut String,
) -> Result<(), AllocError>
    ensures { OnOk result (string_bytes out.new ≡ string_bytes out.old ++ op_text (Op.RemoveMark id key start end)) }
{
    write_front("u", id, out)?;
    write_key(key, out)?;
    out.push(' ')?;
    write_anchors(start, end, out)
}

fn write_revive(id: OpId, removal: OpId, out: &mut String) -> Result<(), AllocError>
    ensures { OnOk result (string_bytes out.new ≡ string_bytes out.old ++ op_text (Op.Revive id removal)) }
{
    write_front("v", id, out)?;
    write_id(removal, out)
}

fn write_op(op: &Op, out: &mut String) -> Result<(), AllocError>
    ensures { OnOk result (string_bytes out.new ≡ string_bytes out.old ++ op_text op.now) }
{
    match op {
        Op::Insert {
            id,
            parent,
            character,
        } => write_insert(*id, *parent, *character, out),
        Op::Remove { id, target } => write_remove(*id, *target, out),
        Op::AddMark {
            id,
            attribute,
            start,
            end,
        } => write_mark(*id, attribute, *start, *end, out),
        Op::RemoveMark {
            id,
            key,
            start,
            end,
        } => write_unmark(*id, *key, *start, *end, out),
        Op::Revive { id, removal } => write_revive(*id, *removal, out),
    }
}

#[tactic(auto, using(crate::proofs::Appending::code_more, crate::proofs::Appending::codes_done))]
fn write_codes(characters: &[Character], out: &mut String) -> Result<(), AllocError>
    ensures { OnOk result (string_bytes out.new ≡ string_bytes out.old ++ codes_text characters.now) }
{
    for character in characters {
        write!(out, " {:x}", character.value() as u32)?;
    }
    Ok(())
}

fn write_run(run: &Run, out: &mut String) -> Result<(), AllocError>
    ensures { OnOk result (string_bytes out.new ≡ string_bytes out.old ++ run_text run.now) }
{
    write_front("r", run.id(), out)?;
    write_parent(run.parent(), out)?;
    write!(out, " {}", run.characters().len())?;
    write_codes(run.characters(), out)
}

/// A run of removals or of revivals, by the letter of its kind.
fn write_id_run(kind: &str, run: IdRun, out: &mut String) -> Result<(), AllocError>
    ensures { OnOk result (string_bytes out.new ≡ string_bytes out.old ++ id_run_text kind.now run) }
{
    write_front(kind, run.id(), out)?;
    write_id(run.first(), out)?;
    write!(out, " {}", run.count())
}

fn write_line(line: &Line, out: &mut String) -> Result<(), AllocError>
    ensures { OnOk result (string_bytes out.new ≡ string_bytes out.old ++ line_text line.now) }
{
    match line {
        Line::Operation(op) => write_op(op, out),
        Line::Run(run) => write_run(run, out),
        Line::Removals(run) => write_id_run("d", *run, out),
        Line::Revivals(run) => write_id_run("v", *run, out),
    }
}

#[tactic(auto, using(crate::proofs::Appending::line_more, crate::proofs::Appending::lines_done))]
fn write_lines(lines: &[Line], out: &mut String) -> Result<(), AllocError>
    ensures { OnOk result (string_bytes out.new ≡ string_bytes out.old ++ lines_text lines.now) }
{
    for line in lines {
        write_line(line, out)?;
        out.push('\n')?;
    }
    Ok(())
}

/// The word that a change of the form begins with.
fn word_of(form: Form) -> &'static str
    ensures { result.now ≡ form_text form }
{
    match form {
        Form::First => "change",
        Form::Second => "change2",
        Form::Third => "change3",
    }
}

#[tactic(auto, unfolding(crate::specs::Spelling::change_text))]
fn write_text(change: &Change, out: &mut String) -> Result<(), AllocError>
    ensures { OnOk result (string_bytes out.new ≡ string_bytes out.old ++ change_text change.now) }
{
    write!(
        out,
        "{} {} {}\n",
        word_of(change.form()),
        change.node(),
        change.lines().len()
    )?;
    write_lines(change.lines(), out)
}

/// Appends the text of a change, the one that reads as it; the string stays as it was where there is
/// no memory.
pub fn write_change(change: &Change, out: &mut String) -> Result<(), AllocError>
    ensures ok { OnOk result (string_bytes out.new ≡ string_bytes out.old ++ change_text change.now) }
    ensures err { OnErr result (string_bytes out.new ≡ string_bytes out.old) }
{
    let mut text = String::new(*out.allocator());
    write_text(change, &mut text)?;
    out.push_str(&text)
}
