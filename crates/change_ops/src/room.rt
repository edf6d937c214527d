//! How much more a change may hold.
ghost use Rattle.std.specs.Prelude.{◌≡◌, ◌≤◌, IsTrue};
ghost use Rattle.change_ops.specs.Rooms.{whole_room, line_fits, room_behind, single_room};

use crate::line::Line;

/// How many operations more a change may have, and how many more they may mean.
#[derive(Clone, Copy)]
pub(crate) struct Room {
    pub(crate) operations: usize,
    pub(crate) meant: usize,
}

impl Room {
    /// The room of a whole change.
    pub(crate) fn whole() -> Self
        ensures { result ≡ whole_room }
    {
        Room {
            operations: 256,
            meant: 262144,
        }
    }

    /// How many operations more there may be, if each means itself alone.
    pub(crate) fn single(self) -> usize
        ensures value { result ≡ single_room self }
        ensures few { result ≤ self.operations }
    {
        self.operations.min(self.meant)
    }

    /// What is left behind a line.
    pub(crate) fn behind(self, line: &Line) -> Self
        requires { IsTrue (line_fits self line.now) }
        ensures { result ≡ room_behind self line.now }
    {
        Room {
            operations: self.operations - line.count(),
            meant: self.meant - line.meant(),
        }
    }
}
