ghost use Rattle.std.specs.Prelude.{◌≡◌, ℕ, ◌+◌, ◌-◌, ◌*◌, ◌/◌, ◌%◌, ◌^◌, ◌<◌, ◌≤◌, Option, Some, None, IfSome};
ghost use Rattle.std.specs.Prelude.{bit_and, bit_or, bit_xor, option_map, unwrap_or};
ghost use Rattle.known_bits.specs.KnownBits.{known_of};
ghost use Rattle.intervals.specs.Interval.{interval_of};
ghost use Rattle.abstract_state.specs.Estimate.{estimate_of, narrowed, normal, normal_cut, constant, up_to, up_to_end};
ghost use Rattle.abstract_state.specs.Estimate.{tails_ending, joined};
ghost use Rattle.abstract_state.specs.Lent.{Lengths, length_of, limit_of, tail_of, HasTails, InRange, InRanges};
ghost use Rattle.abstract_state.specs.declared.region.Region.{Region as TheRegion};
ghost use Rattle.abstract_state.specs.Quantity.{InBits, Contains, Within, Fits, Maps, MapsBoth, Narrows, KeepsBits};
ghost use Rattle.abstract_state.specs.Quantity.{KnowsHigh, JoinsNumber, LiesInBits};
ghost use Rattle.known_bits.specs.Bits.{most};
ghost use Rattle.abstract_state.specs.Exact.{IsIn};
ghost use Rattle.semantics.specs.Value.{cut, value_of};

use crate::region::{Region, Tails};
use bpf_words::instruction::Width;
use intervals::Range;
use known_bits::Bits;

/// What is known of a number: its bits, its interval, and its tails.
#[derive(Clone, Copy)]
pub struct Quantity {
    pub bits: Bits,
    pub range: Range,
    pub tails: Tails,
}

impl Quantity {
    /// The one number.
    pub fn constant(value: u64) -> Quantity
        ensures contains { (lengths : Lengths) → Contains result lengths value }
        ensures is { (region : TheRegion) → IsIn region result value value None }
        ensures rule { estimate_of result ≡ constant value }
    {
        Quantity {
            bits: Bits::constant(value),
            range: Range {
                low: value,
                high: value,
            },
            tails: Tails::none(),
        }
    }

    /// The numbers up to `high`.
    pub fn up_to(high: u64) -> Quantity
        ensures contains { (lengths : Lengths) (x : ℕ) → x ≤ high → Contains result lengths x }
        ensures rule { estimate_of result ≡ up_to high }
    {
        Quantity {
            bits: Bits::between(0, high),
            range: Range { low: 0, high },
            tails: Tails::none(),
        }
    }

    /// The normal form, in which bits and interval have narrowed one another; `None` where nothing is left.
    #[tactic(auto, unfolding(crate::specs::Estimate::normal))]
    pub fn normal(bits: Bits, range: Range, tails: Tails) -> Option<Quantity>
        ensures contains { (lengths : Lengths) (x : ℕ) → InBits bits x → InRange range x → HasTails tails lengths x
            → Within result lengths x }
        ensures narrows { Narrows result range tails }
        ensures bits { KeepsBits result bits }
        ensures lies { IfSome result (λ q. LiesInBits q) }
        ensures high_bits { (region : TheRegion) (t : ℕ) → tail_of tails region ≡ Some t
            → IfSome result (λ q. KnowsHigh q.bits range.low (limit_of region - t)) }
        ensures limits { (region : TheRegion) (t : ℕ) → tail_of tails region ≡ Some t
            → IfSome result (λ q. q.range.high + t ≤ limit_of region) }
        ensures rule { option_map estimate_of result ≡ normal (known_of bits) (interval_of range) tails }
    {
        let first = narrow(bits, range, tails)?;
        let high_bits = Bits::between(first.low, first.high);
        let known = bits.meet(high_bits)?;
        let second = narrow(known, first, tails)?;
        Some(Quantity {
            bits: known,
            range: second,
            tails,
        })
    }

    /// The normal form of a result cut to the width.
    #[tactic(auto, unfolding(crate::specs::Estimate::normal_cut))]
    pub(crate) fn finish(width: Width, bits: Bits, range: Range, tails: Tails) -> Option<Quantity>
        ensures contains { (lengths : Lengths) (x : ℕ) → InBits bits x → InRange range x → HasTails tails lengths x
            → Within result lengths (cut width x) }
        ensures narrows { width ≡ Width.Full → Narrows result range tails }
        ensures bits { width ≡ Width.Full → KeepsBits result bits }
        ensures lies { IfSome result (λ q. LiesInBits q) }
        ensures below { IfSome result (λ q. q.range.high ≤ range.high) }
        ensures rule { option_map estimate_of result ≡ normal_cut width (known_of bits) (interval_of range) tails }
    {
        match width {
            Width::Full => Quantity::normal(bits, range, tails),
            Width::Narrow => Quantity::normal(bits.low32(), range.low32(), tails),
        }
    }
}

/// The interval cut to what the bits and the tails allow.
#[tactic(auto, unfolding(crate::specs::Estimate::narrowed))]
fn narrow(bits: Bits, range: Range, tails: Tails) -> Option<Range>
    ensures contains { (lengths : Lengths) (x : ℕ) → InBits bits x → InRange range x → HasTails tails lengths x
        → InRanges result x }
    ensures within { IfSome result (λ r. (range.low ≤ r.low) × (r.high ≤ range.high)) }
    ensures bits { IfSome result (λ r. (bits.value ≤ r.low) × (r.high ≤ most bits)) }
    ensures limits { (region : TheRegion) (t : ℕ) → tail_of tails region ≡ Some t
        → IfSome result (λ r. r.high + t ≤ limit_of region) }
    ensures rule { option_map interval_of result ≡ narrowed (known_of bits) (interval_of range) tails }
{
    let above = range.at_least(bits.least())?;
    let between = above.at_most(bits.greatest())?;
    tails.narrow(between)
}

impl Quantity {
    /// What either contains; where that is nothing, one of them.
    #[tactic(auto, unfolding(crate::specs::Estimate::joined))]
    pub fn join(self, other: Quantity) -> Quantity
        ensures left { (lengths : Lengths) (x : ℕ) → Contains self lengths x → Contains result lengths x }
        ensures right { (lengths : Lengths) (x : ℕ) → Contains other lengths x → Contains result lengths x }
        ensures within { (n : ℕ) → self.range.high ≤ n → other.range.high ≤ n → result.range.high ≤ n }
        ensures joins { JoinsNumber self other result }
        ensures rule { estimate_of result
            ≡ unwrap_or (joined (estimate_of self) (estimate_of other)) (estimate_of self) }
    {
        let Some(joined) = Quantity::normal(
            self.bits.join(other.bits),
            self.range.hull(other.range),
            self.tails.lesser(other.tails),
        ) else {
            return self;
        };
        joined
    }
}

impl Quantity {
    /// The number 0, as an offset in a region.
    pub fn begin(region: Region) -> Quantity
        ensures contains { (lengths : Lengths) → Contains result lengths 0 }
        ensures is { IsIn region result 0 0 (Some 0) }
        ensures rule { estimate_of result ≡ record (constant 0) { tails = tails_ending region } }
    {
        Quantity {
            bits: Bits::constant(0),
            range: Range { low: 0, high: 0 },
            tails: Tails::ending(region),
        }
    }

    /// The numbers up to `high` and up to the region's length.
    pub fn up_to_end(region: Region, high: u64) -> Option<Quantity>
        ensures contains { (lengths : Lengths) (x : ℕ) → x ≤ high → x ≤ length_of lengths region
            → Within result lengths x }
        ensures is { limit_of region ≤ high → IfSome result (λ q. IsIn region q 0 (limit_of region) (Some 0)) }
        ensures rule { option_map estimate_of result ≡ up_to_end region high }
    {
        Quantity::normal(
            Bits::between(0, high),
            Range { low: 0, high },
            Tails::ending(region),
        )
    }
}
