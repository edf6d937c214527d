//! A text cut into pieces.
ghost use Rattle.std.specs.Prelude.{◌≡◌, ◌<◌, ◌≤◌, ◌+◌, ◌-◌, ◌*◌, ◌++◌, ◌∷◌, [], IfOk, OnOk, All, chars};
ghost use Rattle.std.specs.Prelude.{encode_utf8_all, length};
ghost use Rattle.std.specs.Str.{IsUtf8};
ghost use Rattle.piece_tree.specs.Nodes.{pieces_of};
ghost use Rattle.text_pieces.specs.Budgets.{piece_bytes, pieces_bytes};
ghost use Rattle.text_pieces.specs.Texts.{AreAllLarge, AreLarge, IsPiece};

use crate::piece::{FULL, TextPiece};
use crate::split::count_characters;
use memory_budget::Budget;
use std::alloc::{AllocError, Global};

/// How many bytes a piece gets where the text goes on: so many that both this piece and the rest of one that is just
/// full have room for more.
const CUT: usize = 192;

/// The text cut in two at the last character's edge up to a place, which is a number of bytes; uncut, where that is its
/// start.
fn split_near<'a>(text: &'a str, place: usize) -> (&'a str, &'a str)
    ensures whole { chars result.0.now ++ chars result.1.now ≡ chars text.now }
    ensures size { length result.0.now + length result.1.now ≡ length text.now }
    ensures some { 0 < length text.now → 0 < length result.0.now }
    ensures near { 3 < place → place ≤ length text.now → place ≤ length result.0.now + 3 }
    ensures most { 3 < place → place ≤ length text.now → length result.0.now ≤ place }
    ensures utf8 { IsUtf8 result.1.now }
{
    let at = text.floor_char_boundary(place);
    if at == 0 {
        return (text, "");
    }
    text.split_at(at)
}

/// Adds a piece.
fn push(pieces: &mut Vec<TextPiece>, piece: TextPiece) -> Result<(), AllocError>
    ensures { IfOk result (λ _. pieces.new.items ≡ pieces.old.items ++ piece ∷ []) }
{
    pieces.push(piece)?;
    Ok(())
}

/// Adds a piece of the text, which has a character.
fn add(
    alloc: Global,
    pieces: &mut Vec<TextPiece>,
    text: &str,
    budget: &mut Budget,
) -> Result<(), AllocError>
    requires some { 0 < length text.now }
    requires few { length text.now ≤ 256 }
    ensures added { IfOk result (λ _. pieces.new.items ≡ pieces.old.items ++ chars text.now ∷ []) }
    ensures piece { OnOk result (IsPiece (chars text.now)) }
    ensures size { OnOk result (length (encode_utf8_all (chars text.now)) ≡ length text.now) }
    ensures paid { budget.new ≡ budget.old - piece_bytes (length text.now) }
{
    let piece = TextPiece::new(alloc, text, count_characters(text), budget)?;
    push(pieces, piece)?;
    Ok(())
}

/// Pieces that have the text.
pub fn cut(alloc: Global, text: &str, budget: &mut Budget) -> Result<Vec<TextPiece>, AllocError>
    ensures flat { IfOk result (λ pieces. pieces_of pieces.items ≡ chars text.now) }
    ensures filled { IfOk result (λ pieces. All IsPiece pieces.items) }
    ensures large { IfOk result (λ pieces. AreLarge pieces.items) }
    ensures all_large { 64 ≤ length text.now → IfOk result (λ pieces. AreAllLarge pieces.items) }
    ensures few { IfOk result (λ pieces. 110 * length pieces.items ≤ length text.now + 110) }
    ensures cost { IfOk result (λ pieces. budget.old ≤ budget.new + (96 * length pieces.items + length text.now)) }
    ensures spent { budget.old ≤ budget.new + pieces_bytes (length text.now) }
    ensures less { budget.new ≤ budget.old }
{
    let mut pieces = Vec::with_capacity(alloc, text.len() / CUT + 1)?;
    let mut rest = text;
    while rest.len() > FULL {
        let (first, second) = split_near(rest, CUT);
        add(alloc, &mut pieces, first, budget)?;
        rest = second;
    }
    if rest.len() == 0 {
        return Ok(pieces);
    }
    add(alloc, &mut pieces, rest, budget)?;
    Ok(pieces)
}
