//! The visible elements that stand next to an index.
ghost use Rattle.std.specs.Prelude.{◌≡◌, ◌≤◌, MatchOption, drop, length, take};
ghost use Rattle.char_sequence.specs.Visible.{visible_count, IsFirstVisible, IsLastVisible};

use crate::sequence::Element;

/// The index of the last visible element before an index.
pub(crate) fn last_visible(elements: &[Element], end: usize) -> Option<usize>
    requires { end ≤ length elements.now }
    ensures { MatchOption result (visible_count (take end elements.now) ≡ 0)
        (λ at. IsLastVisible elements.now end at) }
{
    for index in (0..end).rev() {
        if elements[index].visible {
            return Some(index);
        }
    }
    None
}

/// The index of the first visible element from an index on.
pub(crate) fn first_visible(elements: &[Element], start: usize) -> Option<usize>
    requires { start ≤ length elements.now }
    ensures { MatchOption result (visible_count (drop start elements.now) ≡ 0)
        (λ at. IsFirstVisible elements.now start at) }
{
    for index in start..elements.len() {
        if elements[index].visible {
            return Some(index);
        }
    }
    None
}
