//! Shifts of ranks: those of characters that are typed one behind the other are one shift.
ghost use Rattle.std.specs.Prelude.{◌≡◌, ◌↔◌, ◌/◌, ◌<◌, ℕ, IfSome};
ghost use Rattle.mark_places.specs.Ranks.{raised};

/// Moves the ranks from `from` on.
#[derive(Clone, Copy)]
pub(crate) struct RankShift {
    pub from: u32,
    pub by: u32,
}

impl RankShift {
    /// Moves none.
    pub(crate) fn none() -> RankShift
        ensures { (rank : ℕ) → raised result.from result.by rank ≡ rank }
    {
        RankShift { from: 0, by: 0 }
    }

    /// This shift and then the next one as one, where that begins in what this one put in or right behind it.
    pub(crate) fn joined(self, next: RankShift) -> Option<RankShift>
        ensures { IfSome result (λ joined. (rank : ℕ) → raised joined.from joined.by rank
            ≡ raised next.from next.by (raised self.from self.by rank)) }
    {
        if next.from < self.from || next.from - self.from > self.by {
            return None;
        }
        let by = self.by.checked_add(next.by)?;
        Some(RankShift { by, ..self })
    }

    /// The rank that those ranks are below which the shift leaves or moves below `rank`.
    pub(crate) fn lowered(self, rank: u32) -> u32
        ensures { (other : ℕ) → (raised self.from self.by other < rank) ↔ (other < result) }
    {
        rank.min(self.from).max(rank.saturating_sub(self.by))
    }

    /// The place of an end with the rank, behind the shift.
    pub(crate) fn place_of(self, rank: u32) -> usize
        ensures { result ≡ raised self.from self.by rank / 2 }
    {
        let moved = if rank >= self.from { self.by } else { 0 };
        (rank as usize + moved as usize) / 2
    }
}
