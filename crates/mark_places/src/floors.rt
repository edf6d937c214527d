//! The greatest of the marks that cover a whole window, by key: lesser ones decide nothing there.
ghost use Rattle.std.specs.Prelude.{◌≡◌, ◌↔◌, None, IsTrue};
ghost use Rattle.change_ops.specs.declared.attribute.Key.{Key};
ghost use Rattle.mark_places.specs.Floors.{AreFloors, CoversAll, IsGreaterOf, IsKept, IsRaised, floor_of};

use change_ops::attribute::Key;
use change_ops::id::OpId;
use change_ops::keys::KEYS;
use mark_anchors::placed::PlacedMark;

/// For each key of one value the greatest id found among the marks that cover the whole window.
#[derive(Clone, Copy)]
pub(crate) struct Floors {
    rows: [Option<OpId>; KEYS],
}

/// Whether the mark covers all places from `low` up to `high`.
fn covers_all(mark: &PlacedMark, low: usize, high: usize) -> bool
    ensures { IsTrue result ↔ CoversAll low high mark.now }
{
    mark.start <= low && high <= mark.end
}

/// The greater one of the ids, or the one that there is.
fn greater(floor: Option<OpId>, id: OpId) -> Option<OpId>
    ensures { IsGreaterOf floor id result }
{
    match floor {
        Some(found) if id.is_below(found) => floor,
        _ => Some(id),
    }
}

impl Floors {
    /// Of no mark.
    fn new() -> Floors
        ensures { (key : Key) → floor_of result key ≡ None }
    {
        Floors { rows: [None; KEYS] }
    }

    /// Of the marks that cover all places from `low` up to `high`.
    pub(crate) fn of(marks: &[PlacedMark], low: usize, high: usize) -> Floors
        ensures { AreFloors marks.now low high result }
    {
        let mut floors = Floors::new();
        for mark in marks {
            if covers_all(mark, low, high) {
                floors.raise(&mark.key, mark.id);
            }
        }
        floors
    }

    /// The floor of the key. Comments have none, as each number is a key of its own.
    fn of_key(&self, key: &Key) -> Option<OpId>
        ensures { result ≡ floor_of self.now key.now }
    {
        match key {
            Key::Row(row) => self.rows[row.row()],
            Key::Comment(_) => None,
        }
    }

    /// Raises the floor of the key to the id, if that is greater.
    fn raise(&mut self, key: &Key, id: OpId)
        ensures { IsRaised key.now id self.old self.new }
    {
        match key {
            Key::Row(row) => {
                let row = row.row();
                self.rows[row] = greater(self.rows[row], id);
            }
            Key::Comment(_) => {}
        }
    }

    /// Whether the mark decides at some place that it covers, as far as is known: its id isn't below the floor.
    pub(crate) fn keeps(&self, mark: &PlacedMark) -> bool
        ensures { IsTrue result ↔ IsKept self.now mark.now }
    {
        match self.of_key(&mark.key) {
            Some(floor) => !mark.id.is_below(floor),
            None => true,
        }
    }
}
