//! That a version which is made from the one before it is one of all operations.
ghost use Rattle.std.specs.Prelude.{◌≡◌, ◌++◌, ℕ, List, Contains, length};
ghost use Rattle.change_ops.specs.declared.operation.Op.{Op};
ghost use Rattle.change_ops.specs.declared.size.Size.TheVariants.{Large};
ghost use Rattle.char_sequence.specs.Acceptance.{AcceptsAll};
ghost use Rattle.char_sequence.specs.Order.{Shows};
ghost use Rattle.char_sequence.specs.declared.sequence.Element.{Element};
ghost use Rattle.mark_anchors.specs.Marks.{AreMarks};
ghost use Rattle.mark_places.specs.PlaceRanges.{AreApart};
ghost use Rattle.mark_places.specs.declared.range.PlaceRange.{PlaceRange};
ghost use Rattle.span_flatten.specs.Version.{IsVersion, spans_of};
ghost use Rattle.version_laws.specs.Ranges.{AreChangedWithin, TouchesOneOf};
ghost use Rattle.version_glyphs.specs.Glyphs.{glyphs};
ghost use Rattle.version_glyphs.specs.Replacements.{AreReplacements, put_all};
ghost use Rattle.version_glyphs.specs.declared.replacement.Replacement.{Replacement};

use crate::version::PieceVersion;

/// The law that the next version is one of all operations, where each of them touches places of one of several ranges
/// alone, and windows that show those ranges were put in place of what was visible in those of the elements before.
pub fn windows_are_version(now: &PieceVersion, next: &PieceVersion)
    ensures { (ops added : List Op) (old new : List Element) (olds ranges : List PlaceRange) (number : ℕ)
        (windows : List Replacement) (marks : List Op) → Shows old ops → AcceptsAll Large ops added
        → Shows new (ops ++ added) → AreMarks (ops ++ added) marks → AreApart ranges 0 (length new)
        → ((o : Op) → Contains added o → TouchesOneOf (ops ++ added) new ranges o)
        → AreChangedWithin old new olds ranges 0 0
        → IsVersion ops number now.now → AreReplacements old new marks olds ranges windows
        → glyphs (spans_of next.now) ≡ put_all windows (glyphs (spans_of now.now))
        → IsVersion (ops ++ added) next.now.number next.now }
{
    // What the type of a version keeps.
    now.keeps();
    next.keeps();
}
