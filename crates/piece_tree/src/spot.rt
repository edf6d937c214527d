//! Pieces by their places.
ghost use Rattle.std.specs.Prelude.{◌≡◌, ◌≤◌, length};
ghost use Rattle.piece_tree.specs.Nodes.{AreShort, pieces_of};
ghost use Rattle.piece_tree.specs.Spots.{IsReached, measured};

use crate::node::Node;
use crate::piece::{Measure, Piece};

/// A place: the piece that it lies in, and how much stands before that piece.
#[derive(Clone, Copy)]
pub struct Spot {
    pub index: usize,
    pub parts: usize,
    pub characters: usize,
}

/// That of two sizes that is meant.
fn measured(measure: Measure, parts: usize, characters: usize) -> usize
    ensures { result ≡ measured measure parts characters }
{
    match measure {
        Measure::Parts => parts,
        Measure::Characters => characters,
    }
}

/// The first of the pieces that ends at the place or behind it.
fn spot_among<T: Piece>(pieces: &[T], measure: Measure, place: usize) -> Spot
    requires { AreShort T.size pieces.now }
    ensures { IsReached T.size measure pieces.now place result }
{
    let mut parts: usize = 0;
    let mut characters: usize = 0;
    for (index, piece) in pieces.iter().enumerate() {
        let more_parts = parts + piece.size(Measure::Parts);
        let more_characters = characters + piece.size(Measure::Characters);
        if measured(measure, more_parts, more_characters) >= place {
            return Spot {
                index,
                parts,
                characters,
            };
        }
        parts = more_parts;
        characters = more_characters;
    }
    Spot {
        index: pieces.len(),
        parts,
        characters,
    }
}

/// The first of the nodes' pieces that ends at the place or behind it.
pub fn spot_in<T: Piece>(nodes: &[Node<T>], measure: Measure, place: usize) -> Spot
    requires few { length (pieces_of nodes.now) ≤ 2097152 }
    requires short { AreShort T.size (pieces_of nodes.now) }
    ensures { IsReached T.size measure (pieces_of nodes.now) place result }
{
    let mut index: usize = 0;
    let mut parts: usize = 0;
    let mut characters: usize = 0;
    for node in nodes {
        let pieces = node.pieces();
        let more_parts = parts + node.size(Measure::Parts);
        let more_characters = characters + node.size(Measure::Characters);
        if measured(measure, more_parts, more_characters) >= place {
            let within = place.saturating_sub(measured(measure, parts, characters));
            let spot = spot_among(pieces, measure, within);
            return Spot {
                index: index + spot.index,
                parts: parts + spot.parts,
                characters: characters + spot.characters,
            };
        }
        index += pieces.len();
        parts = more_parts;
        characters = more_characters;
    }
    Spot {
        index,
        parts,
        characters,
    }
}
