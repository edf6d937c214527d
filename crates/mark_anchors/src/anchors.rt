//! The order of anchors.
ghost use Rattle.std.specs.Prelude.{◌≡◌, ◌≤◌, ◌↔◌, ℕ, List, Some, slice_get};
ghost use Rattle.change_ops.specs.declared.operation.Anchor.{Anchor};
ghost use Rattle.change_ops.specs.declared.operation.Op.{Op};
ghost use Rattle.char_sequence.specs.Order.{Shows};
ghost use Rattle.mark_anchors.specs.AnchorList.{anchors_of};
ghost use Rattle.mark_anchors.specs.Anchors.{AtOrBefore};

use char_sequence::sequence::Sequence;

/// The order of anchors is that of their list along the text.
pub fn anchors_in_order(sequence: &Sequence)
    ensures { (ops : List Op) (m n : ℕ) (a b : Anchor) → Shows sequence.now.elements ops
        → slice_get (anchors_of sequence.now.elements) m ≡ Some a
        → slice_get (anchors_of sequence.now.elements) n ≡ Some b → AtOrBefore ops a b ↔ (m ≤ n) }
{}
