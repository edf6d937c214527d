//! Whether a run may go round, and where.
ghost use Rattle.std.specs.Prelude.{◌≡◌, ◌+◌, ◌<◌, ◌≤◌, ◌↔◌, ◌^◌, ℕ, length, slice_index, IsTrue, IfOk, MatchOption};
ghost use Rattle.bpf_words.specs.Words.{program_of};
ghost use Rattle.bpf_words.specs.Flow.{slots_of};
ghost use Rattle.block_layout.specs.Loops.{FallsTo, JumpsTo, Goes, IsLoop};
ghost use Rattle.block_layout.specs.Ranks.{AreRanks, AreRanked, HasNone, LeadsOn, AreOpenFrom, IsRound};
ghost use Rattle.block_layout.specs.Structure.{IsConnected};

use crate::ways::{falls, target};
use bpf_words::instruction::Insn;
use bpf_words::words::Words;
use std::alloc::{AllocError, Global};

/// A walk over slots from the first one, and the index at which it was before where it ends.
#[derive(Drop)]
struct Round {
    path: Vec<usize>,
    begin: usize,
}

fn is_open(ranks: &[usize], slot: usize) -> bool
    ensures { IsTrue result ↔ HasNone ranks.now slot }
{
    slot < ranks.len() && ranks[slot] == 0
}

/// The slot after an instruction, if a run may go on there and it has no rank.
fn open_behind(ranks: &[usize], slot: usize, insn: &Insn) -> Option<usize>
    requires small { slot < 2 ^ 32 }
    requires sound { FallsTo slot insn.now (slot + slots_of insn.now)
        → slot + slots_of insn.now < length ranks.now }
    ensures { MatchOption result (AreRanked ranks.now (FallsTo slot insn.now))
        (λ to. FallsTo slot insn.now to × HasNone ranks.now to) }
{
    let to = slot + insn.slots();
    if falls(insn) && is_open(ranks, to) {
        Some(to)
    } else {
        None
    }
}

/// The slot to which an instruction jumps, if it does and that has no rank.
fn open_target(ranks: &[usize], slot: usize, insn: &Insn) -> Option<usize>
    requires small { slot < 2 ^ 32 }
    requires sound { (to : ℕ) → JumpsTo slot insn.now to → to < length ranks.now }
    ensures { MatchOption result (AreRanked ranks.now (JumpsTo slot insn.now))
        (λ to. JumpsTo slot insn.now to × HasNone ranks.now to) }
{
    let distance = insn.distance()?;
    let to = target(slot, distance)?;
    if is_open(ranks, to) { Some(to) } else { None }
}

/// Where a run may go from a slot to one without a rank, if there is such a slot.
fn open_way(words: &Words<'_>, ranks: &[usize], slot: usize) -> Option<usize>
    requires slot { slot < length (program_of words.now) }
    requires long { length ranks.now ≡ length (program_of words.now) }
    requires connected { IsConnected (program_of words.now) }
    ensures { MatchOption result (AreRanked ranks.now (Goes (program_of words.now) slot))
        (λ to. Goes (program_of words.now) slot to × HasNone ranks.now to) }
{
    let count = words.len();
    prove!(slot < count && count <= 4096);
    let Some(insn) = words.insn(slot) else {
        return None;
    };
    match open_behind(ranks, slot, &insn) {
        Some(to) => Some(to),
        None => open_target(ranks, slot, &insn),
    }
}

/// Gives a slot a rank, the next one, if it has none and leads to none without. It answers how many have one then.
fn rank_one(words: &Words<'_>, ranks: &mut [usize], ranked: usize, slot: usize) -> usize
    requires connected { IsConnected (program_of words.now) }
    requires ranks { AreRanks (program_of words.now) ranks.old ranked }
    requires slot { slot < length (program_of words.now) }
    ensures ranks { AreRanks (program_of words.now) ranks.new result }
    ensures more { ranked ≤ result }
    ensures same { result ≡ ranked → ranks.new ≡ ranks.old }
    ensures open { result ≡ ranked → LeadsOn (program_of words.now) ranks.new slot }
{
    let count = words.len();
    prove!(slot < count && count <= 4096);
    if ranks[slot] > 0 {
        return ranked;
    }
    match open_way(words, ranks, slot) {
        Some(_) => ranked,
        None => {
            ranks[slot] = ranked + 1;
            ranked + 1
        }
    }
}

/// The same for all slots, from the last to the first.
fn rank_more(words: &Words<'_>, ranks: &mut [usize], count: usize) -> usize
    requires connected { IsConnected (program_of words.now) }
    requires ranks { AreRanks (program_of words.now) ranks.old count }
    ensures ranks { AreRanks (program_of words.now) ranks.new result }
    ensures more { count ≤ result }
    ensures all { result ≡ count → AreOpenFrom (program_of words.now) ranks.new 0 }
{
    let mut ranked = count;
    let mut slot = words.len();
    'slots: while slot > 0 {
        slot -= 1;
        ranked = rank_one(words, ranks, ranked, slot);
    }
    ranked
}

/// Gives ranks until each slot without one leads to one without.
pub(crate) fn rank_all(alloc: Global, words: &Words<'_>) -> Result<Vec<usize>, AllocError>
    requires connected { IsConnected (program_of words.now) }
    ensures ranks { IfOk result (λ ranks. (count : ℕ) × AreRanks (program_of words.now) ranks.items count) }
    ensures all { IfOk result (λ ranks. AreOpenFrom (program_of words.now) ranks.items 0) }
{
    let mut ranks = vec![in alloc; 0; words.len()]?;
    let mut count = 0;
    'ranks: loop {
        let ranked = rank_more(words, &mut ranks, count);
        if ranked == count {
            return Ok(ranks);
        }
        count = ranked;
    }
}

/// Goes from the first slot over slots without a rank until it comes round.
fn walk_round(alloc: Global, words: &Words<'_>, ranks: &[usize]) -> Result<Round, AllocError>
    requires connected { IsConnected (program_of words.now) }
    requires long { length ranks.now ≡ length (program_of words.now) }
    requires open { AreOpenFrom (program_of words.now) ranks.now 0 }
    requires first { slice_index ranks.now 0 ≡ 0 }
    ensures { IfOk result (λ round. IsRound (program_of words.now) round.path.items round.begin) }
{
    let mut path = vec![in alloc; 0; 1]?;
    // How long the path was when it came to a slot.
    let mut lengths = vec![in alloc; 0; words.len()]?;
    let mut slot = 0;
    'slots: while lengths[slot] == 0 {
        lengths[slot] = path.len();
        let Some(to) = open_way(words, ranks, slot) else {
            unreachable!();
        };
        path.push(to)?;
        slot = to;
    }
    Ok(Round {
        begin: lengths[slot] - 1,
        path,
    })
}

/// The slot of a jump back on the way round.
fn jump_back(words: &Words<'_>, path: &[usize], begin: usize) -> usize
    requires { IsRound (program_of words.now) path.now begin }
    ensures { IsLoop (program_of words.now) result }
{
    let _ = words;
    for index in begin + 1..path.len() {
        if path[index] <= path[index - 1] {
            return path[index - 1];
        }
    }
    unreachable!()
}

/// The slot of a jump back that a run may come to again, where the first slot is without a rank.
pub(crate) fn find_loop(
    alloc: Global,
    words: &Words<'_>,
    ranks: &[usize],
) -> Result<usize, AllocError>
    requires connected { IsConnected (program_of words.now) }
    requires long { length ranks.now ≡ length (program_of words.now) }
    requires open { AreOpenFrom (program_of words.now) ranks.now 0 }
    requires first { slice_index ranks.now 0 ≡ 0 }
    ensures { IfOk result (λ slot. IsLoop (program_of words.now) slot) }
{
    let round = walk_round(alloc, words, ranks)?;
    Ok(jump_back(words, &round.path, round.begin))
}
