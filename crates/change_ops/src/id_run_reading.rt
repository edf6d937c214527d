//! The line of a run of removals or of revivals.
ghost use Rattle.std.specs.Prelude.{◌≡◌, ◌&&◌, Some};
ghost use Rattle.std.specs.Str.{bytes_eq};
ghost use Rattle.change_ops.specs.Reading.{is_counted as is_counted_line, id_run_at, id_run_made, id_run_verdict};

use crate::fields::{both, id_of};
use crate::id::OpId;
use crate::id_run::IdRun;
use crate::numbers::{number, word_of};
use crate::refusal::LineFault;
use crate::room::Room;

/// Whether the fields are at least three words.
#[tactic(auto, unfolding(crate::specs::Reading::is_counted))]
fn is_counted(fields: &str) -> bool
    ensures { result ≡ is_counted_line fields.now }
{
    let Ok((_, others)) = word_of(fields) else {
        return false;
    };
    word_of(others).is_ok()
}

/// Whether a line of this kind is that of a run of this letter: of two ids and a number.
pub(crate) fn is_run(letter: &str, kind: &str, fields: &str) -> bool
    ensures { result ≡ (bytes_eq kind.now letter.now && is_counted_line fields.now) }
{
    kind == letter && is_counted(fields)
}

/// A run that is the peer's own and for which there is room.
fn fitting(peer: u16, room: Room, run: IdRun) -> Result<IdRun, LineFault>
    ensures { result ≡ id_run_verdict peer room (Some run) }
{
    if room.operations < 1 || run.count() as usize > room.meant {
        return Err(LineFault::Limit);
    }
    if run.id().node() == peer {
        Ok(run)
    } else {
        Err(LineFault::WrongPeer)
    }
}

/// The run of a number and two ids that were read, if it is within the limits.
fn made_of(
    peer: u16,
    room: Room,
    count: Result<u64, LineFault>,
    ids: Result<(OpId, OpId), LineFault>,
) -> Result<IdRun, LineFault>
    ensures { result ≡ id_run_made peer room count ids }
{
    let count = count?;
    let (id, first) = ids?;
    let run = IdRun::new(id, first, count).ok_or(LineFault::Limit)?;
    fitting(peer, room, run)
}

/// The run that a line spells behind its first word, in a peer's change with this room, or the first fault.
#[tactic(auto, unfolding(crate::specs::Reading::id_run_at), using(crate::proofs::IdRunReading::id_run_line))]
pub(crate) fn id_run_of(peer: u16, room: Room, fields: &str) -> Result<IdRun, LineFault>
    ensures { result ≡ id_run_verdict peer room (id_run_at fields.now) }
{
    let (id, others) = word_of(fields)?;
    let (first, count) = word_of(others)?;
    let ids = both(id_of(id), id_of(first));
    made_of(peer, room, number(10, count), ids)
}
