//! The lines of a change.
ghost use Rattle.std.specs.Prelude.{◌≡◌, ◌≤◌};
ghost use Rattle.change_ops.specs.Reading.{insert_at, remove_at, mark_at, unmark_at, revive_at, op_at};
ghost use Rattle.change_ops.specs.Reading.{owned as owned_verdict};
ghost use Rattle.change_ops.specs.Lines.{has_op};
ghost use Rattle.change_ops.specs.Reading.{kept_if, op_verdict, op_verdict_in, unless_formless};
ghost use Rattle.change_ops.specs.Reading.{run_at, run_verdict_in, line_in, line_verdict};
ghost use Rattle.change_ops.specs.Reading.{id_run_at, id_run_verdict_in};
ghost use Rattle.change_ops.specs.Reading.{Reads};

use crate::fields::{anchors_of, attribute_of, both, character_of, id_of, key_of, parent_of};
use crate::id_run::IdRun;
use crate::id_run_reading::{id_run_of, is_run};
use crate::line::{Form, Line};
use crate::numbers::word_of;
use crate::operation::Op;
use crate::refusal::LineFault;
use crate::room::Room;
use crate::run::Run;
use crate::run_reading::run_of;
use std::alloc::Global;

/// An operation that is the peer's own.
fn owned(peer: u16, op: Op) -> Result<Op, LineFault>
    ensures { result ≡ owned_verdict peer op }
{
    if op.id().node() == peer {
        Ok(op)
    } else {
        Err(LineFault::WrongPeer)
    }
}

#[tactic(auto, unfolding(crate::specs::Reading::insert_at))]
fn insert_of(peer: u16, fields: &str) -> Result<Op, LineFault>
    ensures { result ≡ op_verdict peer (insert_at fields.now) }
{
    let (id, fields) = word_of(fields)?;
    let (parent, code) = word_of(fields)?;
    let named = both(id_of(id), parent_of(parent));
    let ((id, parent), character) = both(named, character_of(code))?;
    owned(
        peer,
        Op::Insert {
            id,
            parent,
            character,
        },
    )
}

#[tactic(auto, unfolding(crate::specs::Reading::remove_at))]
fn remove_of(peer: u16, fields: &str) -> Result<Op, LineFault>
    ensures { result ≡ op_verdict peer (remove_at fields.now) }
{
    let (id, target) = word_of(fields)?;
    let (id, target) = both(id_of(id), id_of(target))?;
    owned(peer, Op::Remove { id, target })
}

#[tactic(auto, unfolding(crate::specs::Reading::mark_at, crate::specs::Reading::marked_at))]
fn mark_of(alloc: Global, form: Form, peer: u16, fields: &str) -> Result<Op, LineFault>
    ensures { Reads result (op_verdict peer (kept_if (has_op form) (mark_at fields.now))) }
{
    let (id, fields) = word_of(fields)?;
    let (name, fields) = word_of(fields)?;
    let (value, fields) = word_of(fields)?;
    let marked = both(attribute_of(alloc, form, name, value), anchors_of(fields));
    let ((attribute, (start, end)), id) = both(marked, id_of(id))?;
    owned(
        peer,
        Op::AddMark {
            id,
            attribute,
            start,
            end,
        },
    )
}

#[tactic(auto, unfolding(crate::specs::Reading::unmark_at, crate::specs::Reading::unmarked_at))]
fn unmark_of(form: Form, peer: u16, fields: &str) -> Result<Op, LineFault>
    ensures { result ≡ op_verdict peer (kept_if (has_op form) (unmark_at fields.now)) }
{
    let (id, fields) = word_of(fields)?;
    let (name, fields) = word_of(fields)?;
    let unmarked = both(key_of(form, name), anchors_of(fields));
    let ((key, (start, end)), id) = both(unmarked, id_of(id))?;
    owned(
        peer,
        Op::RemoveMark {
            id,
            key,
            start,
            end,
        },
    )
}

#[tactic(auto, unfolding(crate::specs::Reading::revive_at))]
fn revive_of(form: Form, peer: u16, fields: &str) -> Result<Op, LineFault>
    ensures { result ≡ op_verdict peer (kept_if (has_op form) (revive_at fields.now)) }
{
    if !form.has(Form::Third) {
        return Err(LineFault::BadLine);
    }
    let (id, removal) = word_of(fields)?;
    let (id, removal) = both(id_of(id), id_of(removal))?;
    owned(peer, Op::Revive { id, removal })
}

/// The operation of a line of a peer's change of this form, or the line's first fault.
#[tactic(auto, unfolding(crate::specs::Reading::op_at))]
fn op_of(alloc: Global, form: Form, peer: u16, line: &str) -> Result<Op, LineFault>
    ensures { Reads result (op_verdict peer (kept_if (has_op form) (op_at line.now))) }
{
    let (kind, fields) = word_of(line)?;
    if kind == "i" {
        insert_of(peer, fields)
    } else if kind == "d" {
        remove_of(peer, fields)
    } else if kind == "m" {
        mark_of(alloc, form, peer, fields)
    } else if kind == "u" {
        unmark_of(form, peer, fields)
    } else if kind == "v" {
        revive_of(form, peer, fields)
    } else {
        Err(LineFault::BadLine)
    }
}

/// What was read of an operation, where there is no room for it: a fault of its form comes before this one, others
/// behind it.
fn without_room(read: Result<Op, LineFault>) -> LineFault
    ensures { result ≡ unless_formless read }
{
    match read {
        Err(LineFault::BadLine) => LineFault::BadLine,
        Err(LineFault::OutOfMemory) => LineFault::OutOfMemory,
        _ => LineFault::Limit,
    }
}

/// The operation of a line of a peer's change of this form, with room for `room` operations, or the line's first fault.
#[tactic(auto, using(crate::proofs::LineVerdicts::no_room, crate::proofs::LineVerdicts::some_room))]
fn op_in(alloc: Global, form: Form, peer: u16, room: usize, line: &str) -> Result<Op, LineFault>
    ensures { Reads result (op_verdict_in form peer room (op_at line.now)) }
{
    let read = op_of(alloc, form, peer, line);
    if room == 0 {
        return Err(without_room(read));
    }
    read
}

/// The run of a line of a peer's change of this form, with room for `room` characters, or the line's first fault.
fn run_in(alloc: Global, form: Form, peer: u16, room: usize, fields: &str) -> Result<Run, LineFault>
    requires { room ≤ 256 }
    ensures { Reads result (run_verdict_in form peer room (run_at fields.now)) }
{
    match form {
        Form::First => Err(LineFault::BadLine),
        Form::Second | Form::Third => run_of(alloc, peer, room, fields),
    }
}

/// The run of removals or of revivals of a line of a peer's change of this form with this room, or the line's first
/// fault.
fn id_run_in(form: Form, peer: u16, room: Room, fields: &str) -> Result<IdRun, LineFault>
    ensures { result ≡ id_run_verdict_in form peer room (id_run_at fields.now) }
{
    match form {
        Form::First | Form::Second => Err(LineFault::BadLine),
        Form::Third => id_run_of(peer, room, fields),
    }
}

/// The line of a peer's change of this form with this room, or the line's first fault.
#[tactic(auto, unfolding(crate::specs::Reading::line_at))]
pub fn line_of_change(
    alloc: Global,
    form: Form,
    peer: u16,
    room: Room,
    line: &str,
) -> Result<Line, LineFault>
    requires { room.operations ≤ 256 }
    ensures { Reads result (line_verdict peer room (line_in form line.now)) }
{
    let (kind, fields) = word_of(line)?;
    if kind == "r" {
        let run = run_in(alloc, form, peer, room.single(), fields)?;
        return Ok(Line::Run(run));
    }
    if is_run("d", kind, fields) {
        let removals = id_run_in(form, peer, room, fields)?;
        return Ok(Line::Removals(removals));
    }
    if is_run("v", kind, fields) {
        let revivals = id_run_in(form, peer, room, fields)?;
        return Ok(Line::Revivals(revivals));
    }
    let op = op_in(alloc, form, peer, room.single(), line)?;
    Ok(Line::Operation(op))
}
