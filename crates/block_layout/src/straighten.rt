ghost use Rattle.std.specs.Prelude.{◌≡◌, ◌<◌, ℕ, slice_index, IsTrue, IfOk, IfErr};
ghost use Rattle.bpf_words.specs.Words.{IsProgram, program_of};
ghost use Rattle.block_layout.specs.Meaning.{MeansSame, IsForward};
ghost use Rattle.block_layout.specs.Ranks.{AreRanks};
ghost use Rattle.block_layout.specs.Structure.{IsConnected};
ghost use Rattle.block_layout.specs.Refused.{IsRefused};

use crate::check::{Places, means_same};
use crate::layout::{Layout, lay_out};
use crate::loops::{find_loop, rank_all};
use crate::refusal::StraightenError;
use crate::spread::{fits, rooms, spread};
use crate::structure::{check, first_back};
use crate::walk::visit_all;
use bpf_words::words::Words;
use std::alloc::Global;

/// Whether the bytes of a layout are a program that means the same, and has no jump back.
fn is_right(words: &Words<'_>, layout: &Layout) -> bool
    ensures program { IsTrue result → IsProgram layout.now.bytes.items }
    ensures same { IsTrue result → MeansSame (program_of words.now) (program_of layout.now.bytes.items) }
    ensures forward { IsTrue result → IsForward (program_of layout.now.bytes.items) }
{
    let places = Places {
        slots: &layout.places,
        heights: &layout.heights,
    };
    match Words::new(&layout.bytes) {
        Ok(new) => means_same(words, &new, &places),
        Err(_) => false,
    }
}

/// A layout of a program in which no run goes round, close to the old one if that is right, else spread by its ranks.
fn without_loop(
    alloc: Global,
    words: &Words<'_>,
    ranks: &[usize],
) -> Result<Vec<u8>, StraightenError>
    requires connected { IsConnected (program_of words.now) }
    requires back { ¬ (IsForward (program_of words.now)) }
    requires ranks { (count : ℕ) × AreRanks (program_of words.now) ranks.now count }
    requires first { 0 < slice_index ranks.now 0 }
    ensures program { IfOk result (λ new. IsProgram new.items) }
    ensures same { IfOk result (λ new. MeansSame (program_of words.now) (program_of new.items)) }
    ensures forward { IfOk result (λ new. IsForward (program_of new.items)) }
    ensures refused { IfErr result (IsRefused (program_of words.now)) }
{
    let order = visit_all(alloc, words)?;
    let layout = lay_out(alloc, words, &order)?;
    if is_right(words, &layout) {
        return Ok(layout.bytes);
    }
    let count = words.len();
    prove!(count <= 4096);
    let rooms = rooms(alloc, words)?;
    if fits(ranks, &rooms) {
        let bytes = spread(alloc, words, ranks, &rooms)?;
        return Ok(bytes);
    }
    Err(StraightenError::NoLayout)
}

/// A layout of a program with a jump back, or why there is none.
fn laid_out(alloc: Global, words: &Words<'_>) -> Result<Vec<u8>, StraightenError>
    requires connected { IsConnected (program_of words.now) }
    requires back { ¬ (IsForward (program_of words.now)) }
    ensures program { IfOk result (λ new. IsProgram new.items) }
    ensures same { IfOk result (λ new. MeansSame (program_of words.now) (program_of new.items)) }
    ensures forward { IfOk result (λ new. IsForward (program_of new.items)) }
    ensures refused { IfErr result (IsRefused (program_of words.now)) }
{
    let ranks = rank_all(alloc, words)?;
    let count = words.len();
    prove!(count > 0);
    if ranks[0] == 0 {
        let slot = find_loop(alloc, words, &ranks)?;
        return Err(StraightenError::Loop { slot });
    }
    without_loop(alloc, words, &ranks)
}

/// The bytes of a program of the same meaning in which no jump leads back; of one without a jump back, its own. What no
/// run comes to may be left out.
#[tactic(auto, using(crate::proofs::Unchanged::unchanged))]
pub fn straighten(alloc: Global, words: &Words<'_>) -> Result<Vec<u8>, StraightenError>
    ensures program { IfOk result (λ new. IsProgram new.items) }
    ensures same { IfOk result (λ new. MeansSame (program_of words.now) (program_of new.items)) }
    ensures forward { IfOk result (λ new. IsForward (program_of new.items)) }
    ensures unchanged { IsForward (program_of words.now) → IfOk result (λ new. new.items ≡ words.now) }
    ensures connected { IfOk result (λ _. IsConnected (program_of words.now)) }
    ensures refused { IfErr result (IsRefused (program_of words.now)) }
{
    if let Err(wrong) = check(words) {
        return Err(StraightenError::Misplaced {
            slot: wrong.slot,
            fault: wrong.fault,
        });
    }
    match first_back(words) {
        Some(_) => laid_out(alloc, words),
        None => Ok(words.copy(alloc)?),
    }
}
