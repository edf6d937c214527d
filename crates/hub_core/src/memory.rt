//! How much memory changes take.
use change_ops::change::Change;
use change_ops::line::Line;
use change_ops::operation::Op;
use change_ops::size::Size;

/// What a change takes beside its operations and its version's pieces: its text, its version's place and its token,
/// here and where a store's thread has them.
const CHANGE_BYTES: usize = 768;

/// What an operation takes: a character or a mark, in the parts that the next change is applied to too, and in those of
/// a store's thread. A run of removals or of revivals takes no more: it is kept as a run.
const OPERATION_BYTES: usize = 320;

/// What a removal of a run takes besides, where its character is hidden already: a count of that character's removals,
/// in the same parts.
const COUNT_BYTES: usize = 256;

/// What is left for a change at the small size, whatever it touches: all of a text under as many marks as there may be.
const SMALL_BYTES: u64 = 3 << 20;

/// The same at the large size.
const LARGE_BYTES: u64 = 10 << 20;

/// The same for a change that may be tried on a copy of all characters.
const LARGE_COPY_BYTES: u64 = 24 << 20;

/// What a change takes beside its version's pieces.
#[derive(Clone, Copy)]
pub(crate) struct Cost {
    bytes: usize,
    // How many removals its runs mean.
    removals: usize,
}

impl Cost {
    /// That of a change.
    pub(crate) fn of(change: &Change) -> Cost {
        let mut bytes = CHANGE_BYTES;
        let mut removals: usize = 0;
        for line in change.lines() {
            bytes = bytes.saturating_add(OPERATION_BYTES * line.count());
            removals = removals.saturating_add(removals_in(line));
        }
        Cost { bytes, removals }
    }

    /// What the change takes wherever it hides each character that its runs remove.
    pub(crate) fn bytes(self) -> usize {
        self.bytes
    }

    /// What it takes besides, where it hides so many.
    pub(crate) fn count_bytes(self, hidden: usize) -> usize {
        COUNT_BYTES.saturating_mul(self.removals.saturating_sub(hidden))
    }
}

/// How many removals a line means, if it is a run of them.
fn removals_in(line: &Line) -> usize {
    match line {
        Line::Removals(run) => run.count() as usize,
        Line::Operation(_) | Line::Run(_) | Line::Revivals(_) => 0,
    }
}

/// Whether the change may be tried on a copy of all characters where the text is nearly full: it takes removals back,
/// or makes room for what it inserts.
fn may_be_tried(change: &Change) -> bool {
    let mut inserts = false;
    let mut removes = false;
    for line in change.lines() {
        match line {
            Line::Revivals(_) | Line::Operation(Op::Revive { .. }) => return true,
            Line::Run(_) | Line::Operation(Op::Insert { .. }) => inserts = true,
            Line::Removals(_) | Line::Operation(Op::Remove { .. }) => removes = true,
            Line::Operation(Op::AddMark { .. }) | Line::Operation(Op::RemoveMark { .. }) => {}
        }
    }
    inserts && removes
}

/// What is left at a size for a change, whatever it touches.
fn room(size: Size, change: &Change) -> u64 {
    match size {
        Size::Small => SMALL_BYTES,
        Size::Large => {
            if may_be_tried(change) {
                LARGE_COPY_BYTES
            } else {
                LARGE_BYTES
            }
        }
    }
}

/// The most that a change takes, its version with it, whatever it touches.
pub fn most_bytes(size: Size, change: &Change) -> u64 {
    room(size, change).saturating_add(Cost::of(change).count_bytes(0) as u64)
}
