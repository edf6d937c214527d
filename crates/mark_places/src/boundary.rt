//! How many characters stand before an anchor.
ghost use Rattle.std.specs.Prelude.{◌≤◌, ◌<◌, List, length};
ghost use Rattle.change_ops.specs.Operations.{AnchorNames};
ghost use Rattle.char_sequence.specs.Order.{Shows, IsAt};
ghost use Rattle.char_sequence.specs.Tree.{Present};
ghost use Rattle.mark_anchors.specs.Places.{IsBoundary};

use change_ops::id::OpId;
use change_ops::operation::{Anchor, Op};
use char_sequence::sequence::Sequence;

/// The place of a character that is there.
pub fn place_of(sequence: &Sequence, id: OpId) -> usize
    requires { (ops : List Op) × Shows sequence.now.elements ops × Present ops id }
    ensures place { IsAt sequence.now.elements id result }
    ensures within { result < length sequence.now.elements }
{
    sequence.place_of(id).unwrap()
}

/// How many characters, hidden ones too, stand before the anchor.
pub fn characters_before(sequence: &Sequence, anchor: Anchor) -> usize
    requires { (ops : List Op) × Shows sequence.now.elements ops × ((x : OpId) → AnchorNames anchor x → Present ops x) }
    ensures boundary { IsBoundary sequence.now.elements anchor result }
    ensures within { result ≤ length sequence.now.elements }
{
    // Its contract bounds the places, which the proof needs.
    let count = sequence.len();
    match anchor {
        Anchor::TextStart => 0,
        Anchor::BeforeCharacter(id) => place_of(sequence, id),
        Anchor::AfterCharacter(id) => place_of(sequence, id) + 1,
        Anchor::TextEnd => count,
    }
}
