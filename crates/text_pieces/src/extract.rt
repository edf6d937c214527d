//! A part of a text, lent.
ghost use Rattle.std.specs.Prelude.{◌≡◌, ◌⊎◌, ◌<◌, ◌≤◌, ◌++◌, [], IfOk, IfSome, IsTrue, MatchOption, chars, length};
ghost use Rattle.std.specs.Str.{IsUtf8};

use crate::piece::TextPiece;
use crate::place::{piece_at, place_behind};
use crate::split::{characters_between, count_characters};
use piece_tree::tree::PieceTree;
use std::alloc::AllocError;
use std::marker::Model;

/// What is left of a part of a text, seen as its characters.
#[derive(Drop)]
pub struct Extract<'a> {
    pub(crate) pieces: &'a PieceTree<TextPiece>,
    /// The piece in which it begins.
    pub(crate) index: usize,
    /// That piece itself, once it was looked up.
    pub(crate) piece: Option<&'a TextPiece>,
    /// How many characters of that piece stand before it.
    pub(crate) before: usize,
    /// How many characters it has.
    pub(crate) left: usize,
}

impl<'a> Model for Extract<'a> {
    ghost use Rattle.std.specs.Prelude.{◌≡◌, ℕ, List, Some, IfSome, slice_get};
    ghost use Rattle.text_pieces.specs.Texts.{IsExtract, extracted};

    ghost Value = { List ℕ };

    ghost view = { λ e. extracted e.pieces.now e.index e.before e.left };

    ghost invariant = { λ e. IsExtract e.pieces.now e.index e.before e.left
        × IfSome e.piece (λ piece. slice_get e.pieces.now e.index ≡ Some piece.now) };
}

/// The text behind a part that stands at its front.
fn behind<'a>(text: &'a str, part: &str) -> Option<&'a str>
    ensures whole { IfSome result (λ rest. chars text.now ≡ chars part.now ++ chars rest.now) }
    ensures utf8 { IfSome result (λ rest. IsUtf8 rest.now) }
{
    match text.strip_prefix(part) {
        Some(rest) => Some(rest),
        None => None,
    }
}

impl<'a> Extract<'a> {
    /// How many characters are left.
    fn left(&self) -> usize
        ensures { result ≡ length self.now }
    {
        self.left
    }

    /// Takes the next part of it that lies in one piece, with at most so many characters.
    fn next_within(&mut self, most: usize) -> Option<&'a str>
        ensures part { MatchOption result ((self.new ≡ self.old) × ((self.old ≡ []) ⊎ (most ≡ 0)))
            (λ part. self.old ≡ chars part.now ++ self.new) }
        ensures size { IfSome result (λ part. (0 < length (chars part.now)) × (length (chars part.now) ≤ most)) }
    {
        let count = self.left.min(most);
        if count == 0 {
            return None;
        }
        // How short the pieces are, which the proof needs.
        self.pieces.keeps();
        let piece = piece_at(self.pieces, self.index, self.piece);
        let size = piece.characters();
        let end = size.min(self.before + count);
        let part = characters_between(piece.text(), size, self.before, end);
        self.left -= end - self.before;
        if end < size {
            self.piece = Some(piece);
            self.before = end;
            return Some(part);
        }
        self.index += 1;
        self.piece = None;
        self.before = 0;
        Some(part)
    }

    /// Takes the next part of it that lies in one piece, if anything is left.
    pub fn next(&mut self) -> Option<&'a str>
        ensures part { MatchOption result ((self.new ≡ []) × (self.old ≡ []))
            (λ part. self.old ≡ chars part.now ++ self.new) }
        ensures some { IfSome result (λ part. 0 < length (chars part.now)) }
    {
        self.next_within(self.left)
    }

    /// Takes so many characters from its front, as an extract of its own.
    pub fn take_front(&mut self, count: usize) -> Extract<'a>
        requires { count ≤ length self.old }
        ensures parts { self.old ≡ result ++ self.new }
        ensures size { length result ≡ count }
    {
        // How short the pieces are, which the proof needs.
        self.pieces.keeps();
        let front = Extract {
            pieces: self.pieces,
            index: self.index,
            piece: self.piece,
            before: self.before,
            left: count,
        };
        let place = place_behind(self.pieces, self.index, self.piece, self.before + count);
        self.index = place.index;
        self.piece = place.piece;
        self.before = place.before;
        self.left -= count;
        front
    }

    /// Its text: lent where it lies in one piece, and put together in the buffer where it doesn't.
    pub fn joined(mut self, buffer: &'a mut String) -> Result<&'a str, AllocError>
        ensures { IfOk result (λ text. chars text.now ≡ self.entry) }
    {
        let Some(first) = self.next() else {
            return Ok("");
        };
        if self.left() == 0 {
            return Ok(first);
        }
        buffer.clear();
        buffer.push_str(first)?;
        while let Some(part) = self.next() {
            buffer.push_str(part)?;
        }
        Ok(buffer.as_str())
    }

    /// Whether it begins with the text, which it then is without.
    fn passes(&mut self, text: &str) -> bool
        ensures { IsTrue result → self.old ≡ chars text.now ++ self.new }
    {
        let mut rest = text;
        while rest.len() > 0 {
            let count = count_characters(rest);
            let Some(part) = self.next_within(count) else {
                return false;
            };
            let Some(left) = behind(rest, part) else {
                return false;
            };
            rest = left;
        }
        true
    }

    /// Whether it is the text.
    pub fn is(mut self, text: &str) -> bool
        ensures { IsTrue result → self.entry ≡ chars text.now }
    {
        let mut rest = text;
        while let Some(part) = self.next() {
            let Some(left) = behind(rest, part) else {
                return false;
            };
            rest = left;
        }
        rest.len() == 0
    }

    /// Whether it is the same as another one. Nothing is copied.
    pub fn is_same(mut self, mut other: Extract<'_>) -> bool
        ensures { IsTrue result → self.entry ≡ other.entry }
    {
        while let Some(part) = self.next() {
            if !other.passes(part) {
                return false;
            }
        }
        other.left() == 0
    }
}
