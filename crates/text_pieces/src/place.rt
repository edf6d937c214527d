//! Places in the pieces of a text.
ghost use Rattle.std.specs.Prelude.{◌≡◌, ◌<◌, ◌≤◌, ℕ, List, All, IfSome, Some, drop, length, slice_get};
ghost use Rattle.piece_tree.specs.Nodes.{pieces_of};
ghost use Rattle.text_pieces.specs.Texts.{IsPiece};

use crate::piece::TextPiece;
use piece_tree::tree::PieceTree;

/// A place: the piece that it lies in, and how many of that piece's characters stand before it.
#[derive(Drop)]
pub struct Place<'a> {
    pub index: usize,
    /// The piece itself, if it was looked up.
    pub piece: Option<&'a TextPiece>,
    pub before: usize,
}

/// The piece with this index. It is looked up unless it is known.
pub fn piece_at<'a>(
    pieces: &'a PieceTree<TextPiece>,
    index: usize,
    known: Option<&'a TextPiece>,
) -> &'a TextPiece
    requires within { index < length pieces.now }
    requires known { IfSome known (λ piece. slice_get pieces.now index ≡ Some piece.now) }
    ensures { slice_get pieces.now index ≡ Some result.now }
{
    match known {
        Some(piece) => piece,
        None => pieces.piece(index),
    }
}

/// The place with so many characters between the start of the piece with this index and it. Each piece on the way is
/// looked up once, and the first one not if it is known.
pub fn place_behind<'a>(
    pieces: &'a PieceTree<TextPiece>,
    index: usize,
    known: Option<&'a TextPiece>,
    characters: usize,
) -> Place<'a>
    requires filled { All IsPiece pieces.now }
    requires known { IfSome known (λ piece. slice_get pieces.now index ≡ Some piece.now) }
    requires within { characters ≤ length (pieces_of (drop index pieces.now)) }
    ensures same { drop result.before (pieces_of (drop result.index pieces.now))
        ≡ drop characters (pieces_of (drop index pieces.now)) }
    ensures within { result.before ≤ length (pieces_of (drop result.index pieces.now)) }
    ensures begins { (piece : List ℕ) → slice_get pieces.now result.index ≡ Some piece
        → result.before < length piece }
    ensures known { IfSome result.piece (λ piece. slice_get pieces.now result.index ≡ Some piece.now) }
{
    // How many pieces there are, which the proof needs.
    pieces.keeps();
    let mut index = index;
    let mut known = known;
    let mut before = characters;
    while before > 0 {
        let piece = piece_at(pieces, index, known);
        let size = piece.characters();
        if before < size {
            return Place {
                index,
                piece: Some(piece),
                before,
            };
        }
        before -= size;
        index += 1;
        known = None;
    }
    Place {
        index,
        piece: known,
        before,
    }
}
