//! Runs, one after another.
ghost use Rattle.std.specs.Prelude.{◌≡◌, ◌<◌, ◌++◌, [], MatchOption, length};
ghost use Rattle.std.specs.Iterator.{YieldsFirstRef, item_count};

use crate::piece::RunPiece;
use crate::run::Run;
use piece_tree::iter::PiecesFrom;
use std::iter::FusedIterator;
use std::marker::Model;

/// The runs that are left, seen as their list. A step reads the next run of a piece, or goes on to the next piece.
#[derive(Drop)]
pub struct RunsFrom<'a> {
    /// What is left of a piece.
    pub(crate) rest: &'a [Run],
    /// The pieces behind it.
    pub(crate) pieces: PiecesFrom<'a, RunPiece>,
}

impl<'a> Model for RunsFrom<'a> {
    ghost use Rattle.std.specs.Prelude.{◌<◌, ◌++◌, List, All, length};
    ghost use Rattle.piece_tree.specs.Nodes.{pieces_of};
    ghost use Rattle.format_runs.specs.Runs.{Run as RunValue};

    ghost Value = { List RunValue };

    ghost view = { λ r. r.rest.now ++ pieces_of r.pieces };

    ghost invariant = { λ r. All (λ piece. 0 < length piece) r.pieces };
}

impl<'a> Iterator for RunsFrom<'a> {
    type Item = &'a Run;

    ghost next_gives = { YieldsFirstRef (λ rest. rest) };

    ghost remaining = { item_count (λ rest. rest) };

    fn next(&mut self) -> Option<&'a Run> {
        if let Some((first, rest)) = self.rest.split_first() {
            self.rest = rest;
            return Some(first);
        }
        let (first, behind) = self.pieces.next()?.runs().split_first()?;
        self.rest = behind;
        Some(first)
    }
}

impl<'a> FusedIterator for RunsFrom<'a> {}

impl<'a> RunsFrom<'a> {
    /// Takes the next runs that lie together, at least one, if any run is left.
    pub fn next_part(&mut self) -> Option<&'a [Run]>
        ensures { MatchOption result (self.old ≡ [])
            (λ part. (0 < length part.now) × (self.old ≡ part.now ++ self.new)) }
    {
        if !self.rest.is_empty() {
            let part = self.rest;
            self.rest = &[];
            return Some(part);
        }
        let piece = self.pieces.next()?;
        Some(piece.runs())
    }
}
