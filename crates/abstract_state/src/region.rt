ghost use Rattle.std.specs.Prelude.{◌≡◌, ℕ, ◌+◌, ◌≤◌, min, Option, Some, None, IfSome, option_map};
ghost use Rattle.intervals.specs.Interval.{interval_of};
ghost use Rattle.abstract_state.specs.Estimate.{no_tails, tails_ending, each_tail, both_tails, raised_tail};
ghost use Rattle.abstract_state.specs.Estimate.{under_tails, greater_tail, lesser_tail};
ghost use Rattle.abstract_state.specs.Transfer.{sum_tail};
ghost use Rattle.abstract_state.specs.Lent.{Lengths, HasTail, HasTails, base_of, limit_of, length_of, tail_of, InRange};
ghost use Rattle.abstract_state.specs.Lent.{InRanges};
ghost use Rattle.abstract_state.specs.declared.region.Region.{Region as TheRegion};
ghost use Rattle.abstract_state.specs.Exact.{tail_after};

use crate::tail;
use intervals::Range;
use span_context::context::{LINK, LINK_LIMIT, TEXT, TEXT_LIMIT};
use span_context::profile::Profile;

/// Memory that a run is lent to read, of a length that differs from run to run.
#[derive(Clone, Copy)]
pub enum Region {
    Text,
    /// The text of the span's link.
    Link,
}

impl Region {
    /// The address at which it begins.
    pub fn base(self) -> u64
        ensures { result ≡ base_of self }
    {
        match self {
            Region::Text => TEXT,
            Region::Link => LINK,
        }
    }

    /// How many bytes it may have.
    pub fn limit(self) -> u64
        ensures { result ≡ limit_of self }
    {
        match self {
            Region::Text => TEXT_LIMIT as u64,
            Region::Link => LINK_LIMIT as u64,
        }
    }
}

/// Of a number, for each lent region, where it is known: a number that can be added to it within the region's length.
/// No region's length has more than 32 bits.
#[derive(Clone, Copy)]
pub struct Tails {
    pub text: Option<u32>,
    pub link: Option<u32>,
}

impl Tails {
    /// Nothing is known.
    pub fn none() -> Tails
        ensures contains { (lengths : Lengths) (x : ℕ) → HasTails result lengths x }
        ensures none { (region : TheRegion) → tail_of result region ≡ None }
        ensures rule { result ≡ no_tails }
    {
        Tails {
            text: None,
            link: None,
        }
    }

    /// Of the numbers up to the region's length.
    pub fn ending(region: Region) -> Tails
        ensures contains { (lengths : Lengths) (x : ℕ) → x ≤ length_of lengths region → HasTails result lengths x }
        ensures there { tail_of result region ≡ Some 0 }
        ensures rule { result ≡ tails_ending region }
    {
        match region {
            Region::Text => Tails {
                text: Some(0),
                link: None,
            },
            Region::Link => Tails {
                text: None,
                link: Some(0),
            },
        }
    }

    /// The tail for one region.
    pub fn of(self, region: Region) -> Option<u32>
        ensures contains { (lengths : Lengths) (x : ℕ) → HasTails self lengths x
            → HasTail result (length_of lengths region) x }
        ensures rule { result ≡ tail_of self region }
    {
        match region {
            Region::Text => self.text,
            Region::Link => self.link,
        }
    }

    /// The interval cut to what the tails allow.
    #[tactic(auto, unfolding(crate::specs::Estimate::under_tails))]
    pub fn narrow(self, range: Range) -> Option<Range>
        ensures contains { (lengths : Lengths) (x : ℕ) → InRange range x → HasTails self lengths x → InRanges result x }
        ensures within { IfSome result (λ r. (range.low ≤ r.low) × (r.high ≤ range.high)) }
        ensures limits { (region : TheRegion) (t : ℕ) → tail_of self region ≡ Some t
            → IfSome result (λ r. r.high + t ≤ limit_of region) }
        ensures rule { option_map interval_of result ≡ under_tails self (interval_of range) }
    {
        let by_text = tail::narrow(self.text, Region::Text.limit(), range)?;
        tail::narrow(self.link, Region::Link.limit(), by_text)
    }

    /// The tails of the sum of a number with these tails and one with the others, where the others' number is
    /// up to `added`, and this number is up to `high`.
    pub fn sum(self, profile: Profile, high: u64, other: Tails, added: u64) -> Tails
        ensures contains { (lengths : Lengths) (x y : ℕ) → HasTails self lengths x → x ≤ high
            → HasTails other lengths y → y ≤ added → HasTails result lengths (x + y) }
        ensures alone { (region : TheRegion) → tail_of other region ≡ None
            → tail_of result region ≡ tail_after (tail_of self region) added }
        ensures rule { result ≡ both_tails (sum_tail profile high added) self other }
    {
        Tails {
            text: tail::sum(profile, self.text, high, other.text, added),
            link: tail::sum(profile, self.link, high, other.link, added),
        }
    }

    /// The tails of the difference, where at least `taken` is taken away.
    pub fn difference(self, taken: u64) -> Tails
        ensures contains { (lengths : Lengths) (x y : ℕ) → HasTails self lengths (x + y) → taken ≤ y
            → HasTails result lengths x }
        ensures rule { result ≡ each_tail (raised_tail taken) self }
    {
        Tails {
            text: tail::difference(self.text, taken),
            link: tail::difference(self.link, taken),
        }
    }

    /// The tails of a number that is less by at least so much.
    pub fn raised(self, by: u64) -> Tails
        ensures contains { (lengths : Lengths) (x y : ℕ) → HasTails self lengths y → x + by ≤ y
            → HasTails result lengths x }
        ensures there { (region : TheRegion) (t : ℕ) → tail_of self region ≡ Some t
            → (u : ℕ) × (tail_of result region ≡ Some u) }
        ensures rule { result ≡ each_tail (raised_tail by) self }
    {
        Tails {
            text: tail::raised(self.text, by),
            link: tail::raised(self.link, by),
        }
    }

    /// The tails of a number that is no greater than either.
    pub fn greater(self, other: Tails) -> Tails
        ensures contains { (lengths : Lengths) (x y z : ℕ) → HasTails self lengths x → HasTails other lengths y
            → z ≤ x → z ≤ y → HasTails result lengths z }
        ensures there { (region : TheRegion) (u : ℕ) → tail_of other region ≡ Some u
            → (t : ℕ) × (tail_of result region ≡ Some t) }
        ensures none { (region : TheRegion) → tail_of self region ≡ None → tail_of other region ≡ None
            → tail_of result region ≡ None }
        ensures rule { result ≡ both_tails greater_tail self other }
    {
        Tails {
            text: tail::greater(self.text, other.text),
            link: tail::greater(self.link, other.link),
        }
    }

    /// The tails of a number that may be either.
    pub fn lesser(self, other: Tails) -> Tails
        ensures left { (lengths : Lengths) (x : ℕ) → HasTails self lengths x → HasTails result lengths x }
        ensures right { (lengths : Lengths) (x : ℕ) → HasTails other lengths x → HasTails result lengths x }
        ensures lesser { (region : TheRegion) (t u : ℕ) → tail_of self region ≡ Some t → tail_of other region ≡ Some u
            → tail_of result region ≡ Some (min t u) }
        ensures rule { result ≡ both_tails lesser_tail self other }
    {
        Tails {
            text: tail::lesser(self.text, other.text),
            link: tail::lesser(self.link, other.link),
        }
    }
}
