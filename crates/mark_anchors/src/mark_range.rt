ghost use Rattle.std.specs.Prelude.{◌≡◌, MatchOption, false};
ghost use Rattle.change_ops.specs.Operations.{is_mark};
ghost use Rattle.mark_anchors.specs.MarkRange.{IsRangeOf};

use change_ops::attribute::Key;
use change_ops::operation::{Anchor, Op};

/// What additions and removals of marks have in common: a key between two anchors.
#[derive(Clone, Copy)]
pub struct MarkRange {
    pub key: Key,
    pub start: Anchor,
    pub end: Anchor,
}

/// The key and the anchors of a mark operation.
pub fn mark_range(operation: &Op) -> Option<MarkRange>
    ensures { MatchOption result (is_mark operation.now ≡ false) (IsRangeOf operation.now) }
{
    match operation {
        Op::AddMark {
            attribute,
            start,
            end,
            ..
        } => Some(MarkRange {
            key: attribute.key(),
            start: *start,
            end: *end,
        }),
        Op::RemoveMark {
            key,
            start,
            end,
            ..
        } => Some(MarkRange {
            key: *key,
            start: *start,
            end: *end,
        }),
        _ => None,
    }
}
