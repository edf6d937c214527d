//! Marks whose ends are numbers, so that one comparison says whether an end moves.
use change_ops::attribute::Key;
use change_ops::id::OpId;

/// A mark, by its index, with the ranks of its two ends: twice the place of an end, and one more where it gives way.
/// Characters that are put at a place move the ends whose ranks are above twice the place.
#[derive(Clone, Copy)]
pub(crate) struct RankedMark {
    pub index: usize,
    pub id: OpId,
    pub key: Key,
    pub start: u32,
    pub end: u32,
}
