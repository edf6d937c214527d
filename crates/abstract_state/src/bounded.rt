//! Addresses in lent regions with the tails that they have because their regions are so long at least.
ghost use Rattle.std.specs.Prelude.{◌≡◌, ℕ, ◌≤◌, Option};
ghost use Rattle.abstract_state.specs.Lent.{Lengths, HasTail, HasTails, length_of};
ghost use Rattle.abstract_state.specs.Quantity.{Contains as ContainsNumber};
ghost use Rattle.abstract_state.specs.Known.{ContainsKnown};
ghost use Rattle.abstract_state.specs.State.{Bytes, ContainsRegister, ContainsSlot, IsLong};
ghost use Rattle.abstract_state.specs.Bounded.{KeepsTails, KeepsAddress, KeepsKnown, KeepsReg, KeepsSlot};
ghost use Rattle.abstract_state.specs.Addresses.{content_of};
ghost use Rattle.abstract_state.specs.Stacks.{eight_of};
ghost use Rattle.abstract_state.specs.Situation as rules;
ghost use Rattle.abstract_state.specs.Situation.{least_of, register_of};
ghost use Rattle.std.specs.Prelude.{option_map};

use crate::address::LentAddress;
use crate::bounds::Bounds;
use crate::known::Known;
use crate::quantity::Quantity;
use crate::region::{Region, Tails};
use crate::slot::Slot;
use crate::state::AbsReg;
use crate::tail;

/// The tail of a number up to `high`, where the region has at least `bound` bytes; `None` where the number may be
/// past them.
#[tactic(auto, unfolding(crate::specs::Situation::tail_within))]
fn tail_within(bound: u64, high: u64) -> Option<u32>
    requires { bound ≤ 131072 }
    ensures contains { (long x : ℕ) → bound ≤ long → x ≤ high → HasTail result long x }
    ensures rule { result ≡ rules.tail_within bound high }
{
    if high > bound {
        return None;
    }
    Some((bound - high) as u32)
}

impl Tails {
    /// The tails of a number that has one more for a region.
    fn and(self, region: Region, tail: Option<u32>) -> Tails
        ensures contains { (lengths : Lengths) (x : ℕ) → HasTails self lengths x
            → HasTail tail (length_of lengths region) x → HasTails result lengths x }
        ensures keeps { KeepsTails self result }
        ensures rule { result ≡ rules.with_tail region tail self }
    {
        match region {
            Region::Text => Tails {
                text: tail::greater(self.text, tail),
                link: self.link,
            },
            Region::Link => Tails {
                text: self.text,
                link: tail::greater(self.link, tail),
            },
        }
    }
}

impl LentAddress {
    /// The address with the tail that the bounds give it.
    fn bounded(self, bounds: Bounds) -> LentAddress
        ensures contains { (lengths : Lengths) (x : ℕ) → IsLong bounds lengths
            → ContainsNumber self.offset lengths x → ContainsNumber result.offset lengths x }
        ensures keeps { KeepsAddress self result }
        ensures rule { content_of (Known.Lent result)
            ≡ rules.bounded (least_of bounds) (content_of (Known.Lent self)) }
    {
        let Quantity { bits, range, tails } = self.offset;
        let tail = tail_within(bounds.of(self.region), range.high);
        LentAddress {
            region: self.region,
            offset: Quantity {
                bits,
                range,
                tails: tails.and(self.region, tail),
            },
        }
    }
}

impl Known {
    /// The same with the tail that the bounds give an address.
    fn bounded(self, bounds: Bounds) -> Known
        ensures contains { (lengths : Lengths) (x : ℕ) → IsLong bounds lengths → ContainsKnown self lengths x
            → ContainsKnown result lengths x }
        ensures keeps { KeepsKnown self result }
        ensures rule { content_of result ≡ rules.bounded (least_of bounds) (content_of self) }
    {
        match self {
            Known::Lent(address) => Known::Lent(address.bounded(bounds)),
            _ => self,
        }
    }
}

impl AbsReg {
    /// The same with the tail that the bounds give an address.
    pub(crate) fn bounded(self, bounds: Bounds) -> AbsReg
        ensures contains { (lengths : Lengths) (o : Option ℕ) → IsLong bounds lengths
            → ContainsRegister self lengths o → ContainsRegister result lengths o }
        ensures keeps { KeepsReg self result }
        ensures rule { register_of result ≡ option_map (rules.bounded (least_of bounds)) (register_of self) }
    {
        match self {
            AbsReg::Unset => AbsReg::Unset,
            AbsReg::Set(known) => AbsReg::Set(known.bounded(bounds)),
        }
    }
}

impl Slot {
    /// The same with the tail that the bounds give an address.
    pub(crate) fn bounded(self, bounds: Bounds) -> Slot
        ensures contains { (lengths : Lengths) (bytes : Bytes) (i : ℕ) → IsLong bounds lengths
            → ContainsSlot self lengths bytes i → ContainsSlot result lengths bytes i }
        ensures keeps { KeepsSlot self result }
        ensures rule { eight_of result ≡ rules.bounded_eight (least_of bounds) (eight_of self) }
    {
        match self {
            Slot::Marks(marks) => Slot::Marks(marks),
            Slot::Spilled(known) => Slot::Spilled(known.bounded(bounds)),
        }
    }
}
