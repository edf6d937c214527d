//! Runs cut into pieces.
ghost use Rattle.std.specs.Prelude.{◌≡◌, ◌<◌, ◌≤◌, ◌+◌, ◌-◌, ◌*◌, ◌^◌, ◌⊎◌};
ghost use Rattle.std.specs.Prelude.{◌++◌, ◌∷◌, [], IfOk, All, drop, length, take};
ghost use Rattle.std.specs.Vec.Iter.{into_iter_items};
ghost use Rattle.piece_tree.specs.Nodes.{pieces_of};
ghost use Rattle.format_runs.specs.Budgets.{cut_bytes, piece_bytes};
ghost use Rattle.format_runs.specs.Runs.{character_count};

use crate::piece::{FULL, RunPiece, WIDE};
use crate::run::Run;
use memory_budget::Budget;
use std::alloc::{AllocError, Global};
use std::vec::IntoIter;

/// How many of so many runs the next piece takes. Where a window makes many runs at once, its pieces are wide, so that
/// a version that changes every run keeps fewer heads of pieces. A window that makes few runs, as a key's does, makes
/// pieces of at most `FULL`, so that the next one there copies less.
fn next_size(rest: usize) -> usize
    requires { 0 < rest }
    ensures some { 0 < result }
    ensures within { result ≤ rest }
    ensures at_most { result ≤ 48 }
    ensures half { (16 ≤ result) ⊎ (result ≡ rest) }
{
    if rest <= FULL {
        rest
    } else if rest >= 2 * WIDE {
        WIDE
    } else if rest >= 2 * FULL {
        FULL
    } else {
        rest / 2
    }
}

/// The piece of the next runs, so many of them.
fn piece_of(
    alloc: Global,
    left: &mut IntoIter<Run, Global>,
    size: usize,
    budget: &mut Budget,
) -> Result<RunPiece, AllocError>
    requires few { size ≤ 48 }
    requires there { size ≤ length (into_iter_items left.old) }
    requires short { character_count (into_iter_items left.old) < 2 ^ 62 }
    ensures piece { IfOk result (λ piece. piece ≡ take size (into_iter_items left.old)) }
    ensures left { IfOk result (λ _. into_iter_items left.new ≡ drop size (into_iter_items left.old)) }
    ensures spent { budget.old ≤ budget.new + piece_bytes size }
    ensures less { budget.new ≤ budget.old }
{
    let mut part = Vec::with_capacity(alloc, size)?;
    while part.len() < size {
        let Some(run) = left.next() else {
            unreachable!()
        };
        part.push(run)?;
    }
    RunPiece::new(alloc, part, budget)
}

/// Adds a piece.
fn add(pieces: &mut Vec<RunPiece>, piece: RunPiece) -> Result<(), AllocError>
    ensures { IfOk result (λ _. pieces.new.items ≡ pieces.old.items ++ piece ∷ []) }
{
    pieces.push(piece)?;
    Ok(())
}

/// Pieces that have the runs.
pub fn cut(alloc: Global, runs: Vec<Run>, budget: &mut Budget) -> Result<Vec<RunPiece>, AllocError>
    requires { character_count runs.items < 2 ^ 62 }
    ensures flat { IfOk result (λ pieces. pieces_of pieces.items ≡ runs.items) }
    ensures filled { IfOk result (λ pieces. All (λ piece. 0 < length piece) pieces.items) }
    ensures small { IfOk result (λ pieces. All (λ piece. length piece ≤ 48) pieces.items) }
    ensures few { IfOk result (λ pieces. 16 * length pieces.items < length runs.items + 16) }
    ensures spent { budget.old ≤ budget.new + cut_bytes (length runs.items) }
    ensures less { budget.new ≤ budget.old }
{
    // Behind the wide pieces are at most three more, one of them in place of a wide one.
    let mut pieces = Vec::with_capacity(alloc, runs.len() / WIDE + 2)?;
    let count = runs.len();
    let mut left = runs.into_iter();
    let mut at: usize = 0;
    while at < count {
        let size = next_size(count - at);
        let piece = piece_of(alloc, &mut left, size, budget)?;
        add(&mut pieces, piece)?;
        at += size;
    }
    Ok(pieces)
}
