//! A layout by ranks, with a jump behind each instruction: one of no loop has it where that fits into 4,096 slots.
ghost use Rattle.std.specs.Prelude.{◌≡◌, ◌≢◌, ◌+◌, ◌<◌, ◌≤◌, ℕ, ℤ, true, length, slice_index, slice_get};
ghost use Rattle.std.specs.Prelude.{Option, Some, IfOk, MatchBool, MatchOption};
ghost use Rattle.bpf_words.specs.declared.instruction.Insn.{Insn};
ghost use Rattle.bpf_words.specs.declared.instruction.Insn.TheVariants.{Jump};
ghost use Rattle.bpf_words.specs.Words.{IsProgram, program_of};
ghost use Rattle.bpf_words.specs.Flow.{StartsAt, falls_through, jump_of, slots_of};
ghost use Rattle.block_layout.specs.Loops.{IsAway, JumpsTo};
ghost use Rattle.block_layout.specs.Meaning.{MeansSame, IsForward, IsOn};
ghost use Rattle.block_layout.specs.Ranks.{AreRanks};
ghost use Rattle.block_layout.specs.Rooms.{room_of, rooms_of, pick, above};
ghost use Rattle.block_layout.specs.Structure.{IsConnected};
ghost use Rattle.block_layout.specs.Spread.{spot, led, LeadsForward, AreRooms, IsLater, IsBlock};
ghost use Rattle.block_layout.specs.Spread.{Filled, Added, Blocked, RankAdded};

use crate::check::aimed;
use crate::ways::{falls, target};
use bpf_words::encoding::encode;
use bpf_words::instruction::Insn;
use bpf_words::words::Words;
use std::alloc::{AllocError, Global};

/// What stands for an instruction, and what stands behind it.
#[derive(Clone, Copy)]
struct Block {
    first: Insn,
    behind: Insn,
}

/// How far a jump leads from a slot to a later one.
fn ahead(from: usize, to: usize) -> i16
    requires later { from < to }
    requires few { to ≤ 4096 }
    ensures away { IsAway from result to }
    ensures on { IsOn result }
{
    (to - from - 1) as i16
}

/// A jump from a slot to a later one.
fn jump(from: usize, to: usize) -> Insn
    requires later { from < to }
    requires few { to ≤ 4096 }
    ensures leads { (distance : ℤ) × (result ≡ Jump distance) × IsAway from distance to }
    ensures forward { LeadsForward result }
    ensures one { slots_of result ≡ 1 }
{
    let distance = ahead(from, to);
    Insn::Jump { distance }
}

/// How many slots an instruction takes with a jump behind it.
fn room_at(words: &Words<'_>, slot: usize) -> usize
    requires { slot < length (program_of words.now) }
    ensures { (entry : Option Insn) → slice_get (program_of words.now) slot ≡ Some entry → result ≡ room_of entry }
{
    match words.insn(slot) {
        Some(insn) => insn.slots() + 1,
        None => 0,
    }
}

/// The same of each slot.
pub(crate) fn rooms(alloc: Global, words: &Words<'_>) -> Result<Vec<usize>, AllocError>
    ensures { IfOk result (λ rooms. rooms.items ≡ rooms_of (program_of words.now)) }
{
    let mut rooms = Vec::new(alloc);
    for slot in 0..words.len() {
        rooms.push(room_at(words, slot))?;
    }
    Ok(rooms)
}

/// What a slot takes, if its rank is above another.
fn pick(rank: usize, other: usize, room: usize) -> usize
    ensures { result ≡ pick rank other room }
{
    if rank < other { room } else { 0 }
}

/// How many slots those take whose ranks are above one.
fn above(ranks: &[usize], rooms: &[usize], rank: usize) -> usize
    requires rooms { AreRooms ranks.now rooms.now }
    ensures value { result ≡ above ranks.now rooms.now rank }
    ensures few { result ≤ 12288 }
{
    let mut total = 0;
    for slot in 0..ranks.len() {
        total += pick(rank, ranks[slot], rooms[slot]);
    }
    total
}

/// Whether all that has a rank fits, with one slot more for the jump to the first instruction.
pub(crate) fn fits(ranks: &[usize], rooms: &[usize]) -> bool
    requires { AreRooms ranks.now rooms.now }
    ensures { MatchBool result (above ranks.now rooms.now 0 ≤ 4095) (4095 < above ranks.now rooms.now 0) }
{
    above(ranks, rooms, 0) <= 4095
}

/// Where the room of a slot begins.
fn spot(ranks: &[usize], rooms: &[usize], slot: usize) -> usize
    requires rooms { AreRooms ranks.now rooms.now }
    requires within { slot < length ranks.now }
    ensures { result ≡ spot ranks.now rooms.now slot }
{
    1 + above(ranks, rooms, ranks[slot])
}

/// An instruction with another distance, if it jumps.
fn led(insn: Insn, onward: i16) -> Insn
    ensures { result ≡ led insn onward }
{
    match insn {
        Insn::Jump { .. } | Insn::JumpLong { .. } => Insn::Jump { distance: onward },
        _ => aimed(insn, onward),
    }
}

/// How far an instruction jumps from its spot, if it does.
fn onward(ranks: &[usize], rooms: &[usize], slot: usize, insn: &Insn) -> i16
    requires rooms { AreRooms ranks.now rooms.now }
    requires within { slot < length ranks.now }
    requires later { (to : ℕ) → JumpsTo slot insn.now to → IsLater ranks.now rooms.now slot 0 to }
    ensures aims { (to : ℕ) → JumpsTo slot insn.now to
        → IsAway (spot ranks.now rooms.now slot) result (spot ranks.now rooms.now to) }
    ensures on { IsOn result }
{
    let Some(distance) = insn.distance() else {
        return 0;
    };
    let Some(to) = target(slot, distance) else {
        return 0;
    };
    if to >= ranks.len() {
        return 0;
    }
    ahead(spot(ranks, rooms, slot), spot(ranks, rooms, to))
}

/// A jump to the spot of the instruction behind one, if runs go on there.
fn behind(ranks: &[usize], rooms: &[usize], slot: usize, insn: &Insn) -> Insn
    requires rooms { AreRooms ranks.now rooms.now }
    requires within { slot < length ranks.now }
    requires later { falls_through insn.now ≡ true
        → IsLater ranks.now rooms.now slot (slots_of insn.now) (slot + slots_of insn.now) }
    ensures goes { falls_through insn.now ≡ true → (distance : ℤ) × (result ≡ Jump distance)
        × IsAway (spot ranks.now rooms.now slot + slots_of insn.now) distance
        (spot ranks.now rooms.now (slot + slots_of insn.now)) }
    ensures forward { LeadsForward result }
    ensures one { slots_of result ≡ 1 }
{
    if !falls(insn) {
        return Insn::Exit;
    }
    let slots = insn.slots();
    let from = spot(ranks, rooms, slot) + slots;
    jump(from, spot(ranks, rooms, slot + slots))
}

/// What stands for an instruction, and behind it.
fn block_at(words: &Words<'_>, ranks: &[usize], rooms: &[usize], slot: usize, insn: Insn) -> Block
    requires connected { IsConnected (program_of words.now) }
    requires ranks { (count : ℕ) × AreRanks (program_of words.now) ranks.now count }
    requires rooms { rooms.now ≡ rooms_of (program_of words.now) }
    requires fits { above ranks.now rooms.now 0 ≤ 4095 }
    requires starts { StartsAt (program_of words.now) slot insn }
    requires some { 0 < slice_index ranks.now slot }
    ensures is { IsBlock ranks.now rooms.now slot insn result.first result.behind }
    ensures first { LeadsForward result.first }
    ensures behind { LeadsForward result.behind }
    ensures one { slots_of result.behind ≡ 1 }
{
    let count = words.len();
    prove!(count <= 4096);
    let distance = onward(ranks, rooms, slot, &insn);
    Block {
        first: led(insn, distance),
        behind: behind(ranks, rooms, slot, &insn),
    }
}

/// The slot that has a rank.
fn slot_of(ranks: &[usize], rank: usize) -> Option<usize>
    ensures { MatchOption result ((slot : ℕ) → slot < length ranks.now → slice_index ranks.now slot ≢ rank)
        (λ slot. (slot < length ranks.now) × (slice_index ranks.now slot ≡ rank)) }
{
    for slot in 0..ranks.len() {
        if ranks[slot] == rank {
            return Some(slot);
        }
    }
    None
}

fn push(bytes: &mut Vec<u8>, insn: Insn) -> Result<(), AllocError>
    ensures { IfOk result (λ _. (count : ℕ) → LeadsForward insn → Filled bytes.old.items count
        → Added bytes.old.items bytes.new.items count insn) }
{
    let encoded = encode(insn);
    bytes.extend_from_slice(encoded.bytes())?;
    Ok(())
}

fn push_block(bytes: &mut Vec<u8>, first: Insn, behind: Insn) -> Result<(), AllocError>
    ensures { IfOk result (λ _. (count : ℕ) → LeadsForward first → LeadsForward behind → slots_of behind ≡ 1
        → Filled bytes.old.items count → Blocked bytes.old.items bytes.new.items count first behind) }
{
    push(bytes, first)?;
    push(bytes, behind)?;
    Ok(())
}

/// Writes what stands for the slot of a rank, if that is an instruction's.
fn push_rank(
    words: &Words<'_>,
    ranks: &[usize],
    rooms: &[usize],
    rank: usize,
    bytes: &mut Vec<u8>,
) -> Result<(), AllocError>
    requires connected { IsConnected (program_of words.now) }
    requires ranks { (count : ℕ) × AreRanks (program_of words.now) ranks.now count }
    requires rooms { rooms.now ≡ rooms_of (program_of words.now) }
    requires fits { above ranks.now rooms.now 0 ≤ 4095 }
    requires some { 0 < rank }
    ensures { IfOk result (λ _. (next : ℕ) → next + 1 ≡ rank
        → Filled bytes.old.items (1 + above ranks.now rooms.now rank)
        → RankAdded (program_of words.now) ranks.now rooms.now bytes.old.items bytes.new.items rank next) }
{
    let slot = match slot_of(ranks, rank) {
        Some(slot) => slot,
        None => return Ok(()),
    };
    let insn = match words.insn(slot) {
        Some(insn) => insn,
        None => return Ok(()),
    };
    let block = block_at(words, ranks, rooms, slot, insn);
    push_block(bytes, block.first, block.behind)?;
    Ok(())
}

/// The bytes of a program of the same meaning, rank by rank.
pub(crate) fn spread(
    alloc: Global,
    words: &Words<'_>,
    ranks: &[usize],
    rooms: &[usize],
) -> Result<Vec<u8>, AllocError>
    requires connected { IsConnected (program_of words.now) }
    requires ranks { (count : ℕ) × AreRanks (program_of words.now) ranks.now count }
    requires rooms { rooms.now ≡ rooms_of (program_of words.now) }
    requires fits { above ranks.now rooms.now 0 ≤ 4095 }
    requires first { 0 < slice_index ranks.now 0 }
    ensures program { IfOk result (λ new. IsProgram new.items) }
    ensures same { IfOk result (λ new. MeansSame (program_of words.now) (program_of new.items)) }
    ensures forward { IfOk result (λ new. IsForward (program_of new.items)) }
{
    let count = words.len();
    prove!(count > 0);
    let mut bytes = Vec::new(alloc);
    push(&mut bytes, jump(0, spot(ranks, rooms, 0)))?;
    let mut rank = ranks.len();
    'ranks: while rank > 0 {
        push_rank(words, ranks, rooms, rank, &mut bytes)?;
        rank -= 1;
    }
    Ok(bytes)
}
