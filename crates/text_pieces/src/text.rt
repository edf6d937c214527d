//! The text.
ghost use Rattle.std.specs.Prelude.{◌≡◌, ◌<◌, ◌≤◌, ◌+◌, ◌-◌, ◌++◌, [], IfOk, All, Some, chars, drop};
ghost use Rattle.std.specs.Prelude.{encode_utf8_all, length, slice_get, slice_range, string_bytes, string_len, take};
ghost use Rattle.piece_tree.specs.Nodes.{pieces_of};
ghost use Rattle.text_pieces.specs.Budgets.{text_bytes, text_root_bytes, touched_bytes};
ghost use Rattle.text_pieces.specs.Texts.{AreCharacters, AreLarge, IsPiece};

use crate::cut::cut;
use crate::extract::Extract;
use crate::piece::{FULL, LEAST, TextPiece};
use crate::split::characters_between;
use memory_budget::Budget;
use piece_tree::piece::Measure;
use piece_tree::tree::PieceTree;
use std::alloc::{AllocError, Global};
use std::marker::Model;

/// A text in pieces that versions share. Contracts see its characters.
pub struct SharedText {
    pieces: PieceTree<TextPiece>,
}

impl Drop for SharedText {
    fn drop(self) {
        let SharedText { pieces: _ } = self;
    }
}

impl Model for SharedText {
    ghost use Rattle.std.specs.Prelude.{ℕ, List, All};
    ghost use Rattle.piece_tree.specs.Nodes.{pieces_of};
    ghost use Rattle.text_pieces.specs.Texts.{AreLarge, IsPiece};

    ghost Value = { List ℕ };

    ghost view = { λ t. pieces_of t.pieces };

    ghost invariant = { λ t. All IsPiece t.pieces × AreLarge t.pieces };
}

/// Adds the characters of a piece from the one place up to the other.
fn push_between(
    text: &mut String,
    piece: &TextPiece,
    from: usize,
    to: usize,
) -> Result<(), AllocError>
    requires order { from ≤ to }
    requires within { to ≤ length piece.now }
    ensures added { IfOk result (λ _. chars (string_bytes text.new)
        ≡ chars (string_bytes text.old) ++ slice_range piece.now from to) }
    ensures size { IfOk result (λ _. string_len text.new
        ≤ string_len text.old + length (encode_utf8_all piece.now)) }
{
    let part = characters_between(piece.text(), piece.characters(), from, to);
    text.push_str(part)?;
    Ok(())
}

/// The characters of a piece up to a place, others, and those of a piece from a place on. There is room for one piece
/// more, which may have to be joined.
fn text_around(
    alloc: Global,
    first: &TextPiece,
    from: usize,
    new: &str,
    last: &TextPiece,
    to: usize,
) -> Result<String, AllocError>
    requires first { from ≤ length first.now }
    requires last { to ≤ length last.now }
    ensures text { IfOk result (λ text. chars (string_bytes text)
        ≡ take from first.now ++ (chars new.now ++ drop to last.now)) }
    ensures size { IfOk result (λ text. string_len text
        ≤ length (encode_utf8_all first.now) + length new.now + length (encode_utf8_all last.now)) }
{
    let mut text = String::with_capacity(alloc, new.len() + 3 * FULL)?;
    push_between(&mut text, first, 0, from)?;
    text.push_str(new)?;
    push_between(&mut text, last, to, last.characters())?;
    Ok(text)
}

/// The piece with this index. It is looked up unless it is the one that is known.
fn other_piece<'a>(
    pieces: &'a PieceTree<TextPiece>,
    index: usize,
    known: &'a TextPiece,
    known_index: usize,
) -> &'a TextPiece
    requires within { index < length pieces.now }
    requires known { slice_get pieces.now known_index ≡ Some known.now }
    ensures { slice_get pieces.now index ≡ Some result.now }
{
    if index == known_index {
        return known;
    }
    pieces.piece(index)
}

/// What is made of a text, and the index of the piece behind it.
#[derive(Drop)]
struct Touched {
    text: String,
    end: usize,
}

/// The text, with that of the piece behind it where it is too small for a piece of its own.
fn with_next(
    pieces: &PieceTree<TextPiece>,
    mut text: String,
    end: usize,
) -> Result<Touched, AllocError>
    requires within { end ≤ length pieces.now }
    requires filled { All IsPiece pieces.now }
    requires large { AreLarge pieces.now }
    ensures same { IfOk result (λ made. chars (string_bytes made.text) ++ pieces_of (drop made.end pieces.now)
        ≡ chars (string_bytes text) ++ pieces_of (drop end pieces.now)) }
    ensures order { IfOk result (λ made. end ≤ made.end) }
    ensures within { IfOk result (λ made. made.end ≤ length pieces.now) }
    ensures size { IfOk result (λ made. string_len made.text ≤ string_len text + 256) }
    ensures enough { IfOk result (λ made. made.end < length pieces.now → 64 ≤ string_len made.text) }
{
    // How many pieces there are, which the proof needs.
    pieces.keeps();
    if text.len() >= LEAST || end >= pieces.len() {
        return Ok(Touched { text, end });
    }
    let next = pieces.piece(end);
    text.push_str(next.text())?;
    Ok(Touched { text, end: end + 1 })
}

/// The pieces with those of a text in place of the ones from `first` up to `end`.
fn with_text(
    pieces: &PieceTree<TextPiece>,
    alloc: Global,
    first: usize,
    end: usize,
    text: &str,
    budget: &mut Budget,
) -> Result<PieceTree<TextPiece>, AllocError>
    requires begins { 0 < first → first < length pieces.now }
    requires order { first ≤ end }
    requires within { end ≤ length pieces.now }
    requires filled { All IsPiece pieces.now }
    requires large { AreLarge pieces.now }
    requires enough { end < length pieces.now → 64 ≤ length text.now }
    requires short { length (encode_utf8_all (pieces_of (take first pieces.now)
        ++ (chars text.now ++ pieces_of (drop end pieces.now)))) ≤ 2097152 }
    ensures flat { IfOk result (λ next. pieces_of next
        ≡ pieces_of (take first pieces.now) ++ (chars text.now ++ pieces_of (drop end pieces.now))) }
    ensures filled { IfOk result (λ next. All IsPiece next) }
    ensures large { IfOk result (λ next. AreLarge next) }
    ensures spent { budget.old ≤ budget.new + (touched_bytes (length text.now)
        + text_root_bytes (length (encode_utf8_all (pieces_of (take first pieces.now)
        ++ (chars text.now ++ pieces_of (drop end pieces.now)))))) }
    ensures less { budget.new ≤ budget.old }
{
    let made = cut(alloc, text, budget)?;
    let next = pieces.with_window(alloc, first, end, made.as_slice(), budget)?;
    Ok(next)
}

impl SharedText {
    /// No character.
    pub fn new(alloc: Global, budget: &mut Budget) -> Result<SharedText, AllocError>
        ensures text { IfOk result (λ text. text ≡ []) }
        ensures paid { budget.new ≡ budget.old - 96 }
    {
        let pieces = PieceTree::new(alloc, budget)?;
        Ok(SharedText { pieces })
    }

    /// The same text once more: nothing of it is copied.
    pub fn shared(&self) -> Result<SharedText, AllocError>
        ensures { IfOk result (λ again. again ≡ self.now) }
    {
        let pieces = self.pieces.shared()?;
        Ok(SharedText { pieces })
    }

    /// The law that the characters are those of a text, which is short.
    pub fn keeps(&self)
        ensures spelt { AreCharacters self.now }
        ensures short { length (encode_utf8_all self.now) ≤ 2097152 }
    {
        self.pieces.keeps();
    }

    /// How many bytes it has.
    pub fn byte_count(&self) -> usize
        ensures { result ≡ length (encode_utf8_all self.now) }
    {
        self.pieces.size(Measure::Parts)
    }

    /// How many characters it has.
    pub fn character_count(&self) -> usize
        ensures { result ≡ length self.now }
    {
        self.pieces.size(Measure::Characters)
    }

    /// Its characters from the one place up to the other.
    pub fn between(&self, from: usize, to: usize) -> Extract<'_>
        requires order { from ≤ to }
        requires within { to ≤ length self.now }
        ensures { result ≡ slice_range self.now from to }
    {
        // How short the text is, which the proof needs.
        self.pieces.keeps();
        let spot = self.pieces.spot(Measure::Characters, from + 1);
        Extract {
            pieces: &self.pieces,
            index: spot.index,
            piece: None,
            before: from - spot.characters,
            left: to - from,
        }
    }

    /// The text with `new` in place of the characters from `from` up to `to`. Pieces that the window doesn't touch are
    /// shared: what is paid for is the window's pieces, their nodes and the root. Where what is made is too small for a
    /// piece, it joins the piece behind it.
    pub fn with_window(
        &self,
        alloc: Global,
        from: usize,
        to: usize,
        new: &str,
        budget: &mut Budget,
    ) -> Result<SharedText, AllocError>
        requires order { from ≤ to }
        requires within { to ≤ length self.now }
        requires short { length (encode_utf8_all (take from self.now ++ (chars new.now ++ drop to self.now)))
            ≤ 2097152 }
        ensures text { IfOk result (λ next. next ≡ take from self.now ++ (chars new.now ++ drop to self.now)) }
        ensures spent { budget.old ≤ budget.new + (text_bytes (length new.now)
            + text_root_bytes (length (encode_utf8_all self.now) + length new.now)) }
        ensures less { budget.new ≤ budget.old }
    {
        // How short the text is, which the proof needs.
        self.pieces.keeps();
        if self.pieces.len() == 0 {
            let pieces = with_text(&self.pieces, alloc, 0, 0, new, budget)?;
            return Ok(SharedText { pieces });
        }
        let first = self.pieces.spot(Measure::Characters, from);
        let last = if to == from {
            first
        } else {
            self.pieces.spot(Measure::Characters, to)
        };
        let front = self.pieces.piece(first.index);
        let back = other_piece(&self.pieces, last.index, front, first.index);
        let text = text_around(
            alloc,
            front,
            from - first.characters,
            new,
            back,
            to - last.characters,
        )?;
        let touched = with_next(&self.pieces, text, last.index + 1)?;
        let pieces = with_text(
            &self.pieces,
            alloc,
            first.index,
            touched.end,
            touched.text.as_str(),
            budget,
        )?;
        Ok(SharedText { pieces })
    }
}
