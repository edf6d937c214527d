//! What stays the same as operations are accepted: laws on the definitions, each a lemma in proofs/. Those that
//! callers ask for most are functions too. They do nothing: a call brings the law.
#![tactic(auto)]

ghost use Rattle.std.specs.Prelude.{◌≡◌, ◌↔◌, ◌++◌, ◌∷◌, [], ℕ, List, Some, ◌⊎◌, ◌<◌, ◌≤◌, true, Contains, length};
ghost use Rattle.change_ops.specs.Operations.{is_edit};
ghost use Rattle.change_ops.specs.declared.id.OpId.{OpId};
ghost use Rattle.change_ops.specs.declared.operation.Op.{Op};
ghost use Rattle.change_ops.specs.declared.size.Size.TheVariants.{Large};
ghost use Rattle.char_sequence.specs.Acceptance.{Accepts};
ghost use Rattle.char_sequence.specs.Order.{Before, IsAt, Shows};
ghost use Rattle.char_sequence.specs.Tree.{Present};
ghost use Rattle.char_sequence.specs.declared.sequence.Element.{Element};
ghost use Rattle.mark_anchors.specs.Format.{IsFormat};
ghost use Rattle.mark_anchors.specs.Formatting.{Format};
ghost use Rattle.mark_anchors.specs.Places.{Lies};
ghost use Rattle.mark_places.specs.PlaceRanges.{AreApart};
ghost use Rattle.mark_places.specs.declared.range.PlaceRange.{PlaceRange};
ghost use Rattle.span_flatten.specs.Spans.{Shown, Span, Cuts};
ghost use Rattle.version_laws.specs.Joints.{Apart};
ghost use Rattle.version_laws.specs.Ranges.{AreChangedWithin, TouchesOneOf};

/// Of two characters that were there, one stands before the other exactly if it did.
pub fn order_stays()
    ensures { (ops : List Op) (es : List Element) (op : Op) → Shows es ops → Accepts Large ops op
        → (x y : OpId) → Present ops x → Present ops y
        → Before ops (Some x) y ↔ Before (ops ++ op ∷ []) (Some x) y }
{}

/// An insert, a removal or a revival leaves the format of each character that was there.
pub fn edit_keeps_formats()
    ensures { (ops : List Op) (es : List Element) (op : Op) → Shows es ops → Accepts Large ops op → is_edit op ≡ true
        → (e : OpId) → Present ops e → (f : Format) → IsFormat ops e f ↔ IsFormat (ops ++ op ∷ []) e f }
{}

/// A mark leaves the format of each character outside the places between its anchors.
pub fn mark_keeps_formats()
    ensures { (ops : List Op) (es : List Element) (op : Op) (first last : ℕ) → Shows es ops → Accepts Large ops op
        → Lies es op first last → (e : OpId) (place : ℕ) → IsAt es e place → (place < first) ⊎ (last ≤ place)
        → (f : Format) → IsFormat ops e f ↔ IsFormat (ops ++ op ∷ []) e f }
{}

/// Other spans in a window leave those before it and behind it, where formats differ at its sides.
pub fn window_keeps_spans()
    ensures { (front middle back : List Shown) (before within after : List Span)
        → Cuts front before → Cuts middle within → Cuts back after
        → Apart before (within ++ after) → Apart within after
        → Cuts (front ++ (middle ++ back)) (before ++ (within ++ after)) }
{}

/// Operations that touch places of several ranges alone leave the elements before each range, and behind the last one.
pub fn changes_keep_between_ranges()
    ensures { (ops added : List Op) (old new : List Element) (ranges : List PlaceRange) → Shows old ops
        → Shows new (ops ++ added) → AreApart ranges 0 (length new)
        → ((o : Op) → Contains added o → TouchesOneOf (ops ++ added) new ranges o)
        → (olds : List PlaceRange) × AreChangedWithin old new olds ranges 0 0 }
{}
