//! Intervals of 64-bit numbers.
//!
//! Each operation answers an interval that contains every result of contained operands, as the
//! operations of RFC 9669, section 4, define it. Where a result can leave the 64 bits, that is every number.
#![tactic(auto)]

ghost use Rattle.std.specs.Prelude.{◌≡◌, ℕ, ◌+◌, ◌-◌, ◌*◌, ◌/◌, ◌%◌, ◌^◌, ◌<◌, ◌≤◌, ◌↔◌, IsSome, IfSome, bit_and, min};
ghost use Rattle.std.specs.Prelude.{max, option_map};

/// The numbers from `low` to `high`, both included; there is at least one.
#[derive(Clone, Copy)]
pub struct Range {
    pub low: u64,
    pub high: u64,
    ghost ordered: { low ≤ high },
}

impl Range {
    ghost use Rattle.intervals.specs.Range.{Contains, Within, Maps, MapsBoth, Spans, quotient, remainder};
    ghost use Rattle.intervals.specs.Interval.{interval_of, sum_between, difference_between, product_between};
    ghost use Rattle.intervals.specs.Interval.{quotient_between, remainder_between, and_between, shifted_left_between};
    ghost use Rattle.intervals.specs.Interval.{shifted_right_between, low_between, hull_of, some_between};

    /// The numbers from `low` to `high`, `None` where there are none.
    pub fn new(low: u64, high: u64) -> Option<Range>
        ensures some { IsSome result ↔ (low ≤ high) }
        ensures ends { IfSome result (λ r. Spans r low high) }
        ensures contains { (x : ℕ) → low ≤ x → x ≤ high → Within result x }
        ensures rule { option_map interval_of result ≡ some_between low high }
    {
        if low > high {
            return None;
        }
        Some(Range { low, high })
    }

    /// Every number.
    pub fn full() -> Range
        ensures ends { Spans result 0 (2 ^ 64 - 1) }
        ensures contains { (x : ℕ) → x < 2 ^ 64 → Contains result x }
        ensures wrapped { (x : ℕ) → Contains result (x % 2 ^ 64) }
    {
        Range {
            low: 0,
            high: u64::MAX,
        }
    }

    /// The sum modulo 2^64.
    #[tactic(auto, unfolding(crate::specs::Interval::sum_between))]
    pub fn add(self, other: Range) -> Range
        ensures contains { MapsBoth self other result (λ x y. (x + y) % 2 ^ 64) }
        ensures ends { self.high + other.high < 2 ^ 64 → Spans result (self.low + other.low) (self.high + other.high) }
        ensures wraps { 2 ^ 64 ≤ self.high + other.high → Spans result 0 (2 ^ 64 - 1) }
        ensures rule { interval_of result ≡ sum_between (interval_of self) (interval_of other) }
    {
        let Some(high) = self.high.checked_add(other.high) else {
            return Range::full();
        };
        Range {
            low: self.low + other.low,
            high,
        }
    }

    /// The difference modulo 2^64.
    #[tactic(auto, unfolding(crate::specs::Interval::difference_between))]
    pub fn sub(self, other: Range) -> Range
        ensures contains { MapsBoth self other result (λ x y. (x + (2 ^ 64 - y)) % 2 ^ 64) }
        ensures ends { other.high ≤ self.low → Spans result (self.low - other.high) (self.high - other.low) }
        ensures wraps { self.low < other.high → Spans result 0 (2 ^ 64 - 1) }
        ensures rule { interval_of result ≡ difference_between (interval_of self) (interval_of other) }
    {
        if self.low < other.high {
            return Range::full();
        }
        Range {
            low: self.low - other.high,
            high: self.high - other.low,
        }
    }

    /// The product modulo 2^64.
    #[tactic(auto, unfolding(crate::specs::Interval::product_between))]
    pub fn mul(self, other: Range) -> Range
        ensures contains { MapsBoth self other result (λ x y. x * y % 2 ^ 64) }
        ensures ends { self.high * other.high < 2 ^ 64 → Spans result (self.low * other.low) (self.high * other.high) }
        ensures wraps { 2 ^ 64 ≤ self.high * other.high → Spans result 0 (2 ^ 64 - 1) }
        ensures rule { interval_of result ≡ product_between (interval_of self) (interval_of other) }
    {
        let Some(high) = self.high.checked_mul(other.high) else {
            return Range::full();
        };
        Range {
            low: self.low * other.low,
            high,
        }
    }

    /// The quotient, which is 0 where the divisor is 0.
    #[tactic(auto, unfolding(crate::specs::Interval::quotient_between))]
    pub fn div(self, other: Range) -> Range
        ensures contains { MapsBoth self other result (λ x y. quotient x y) }
        ensures ends { 0 < other.low → Spans result (self.low / other.high) (self.high / other.low) }
        ensures by_zero { other.low ≡ 0 → Spans result 0 self.high }
        ensures rule { interval_of result ≡ quotient_between (interval_of self) (interval_of other) }
    {
        if other.low == 0 {
            return Range {
                low: 0,
                high: self.high,
            };
        }
        Range {
            low: self.low / other.high,
            high: self.high / other.low,
        }
    }

    /// The remainder, which is the dividend where the divisor is 0.
    #[tactic(auto, unfolding(crate::specs::Interval::remainder_between))]
    pub fn rem(self, other: Range) -> Range
        ensures contains { MapsBoth self other result (λ x y. remainder x y) }
        ensures ends { 0 < other.low → Spans result 0 (min self.high (other.high - 1)) }
        ensures by_zero { other.low ≡ 0 → Spans result 0 self.high }
        ensures rule { interval_of result ≡ remainder_between (interval_of self) (interval_of other) }
    {
        if other.low == 0 {
            return Range {
                low: 0,
                high: self.high,
            };
        }
        Range {
            low: 0,
            high: self.high.min(other.high - 1),
        }
    }

    /// The bits that both have, which are no more than either number.
    #[tactic(auto, using(std::proofs::lemmas::Nat::and_le_l, std::proofs::lemmas::Nat::and_le_r), unfolding(crate::specs::Interval::and_between))]
    pub fn and(self, other: Range) -> Range
        ensures contains { MapsBoth self other result (λ x y. bit_and x y) }
        ensures ends { Spans result 0 (min self.high other.high) }
        ensures rule { interval_of result ≡ and_between (interval_of self) (interval_of other) }
    {
        Range {
            low: 0,
            high: self.high.min(other.high),
        }
    }

    /// The shift to the left by `count` modulo 64, modulo 2^64.
    #[tactic(auto, unfolding(crate::specs::Interval::shifted_left_between))]
    pub fn shl(self, count: u64) -> Range
        ensures contains { Maps self result (λ x. x * 2 ^ (count % 64) % 2 ^ 64) }
        ensures ends { let scale = 2 ^ (count % 64) in self.high * scale < 2 ^ 64
            → Spans result (self.low * scale) (self.high * scale) }
        ensures wraps { 2 ^ 64 ≤ self.high * 2 ^ (count % 64) → Spans result 0 (2 ^ 64 - 1) }
        ensures rule { interval_of result ≡ shifted_left_between (count % 64) (interval_of self) }
    {
        let scale = 1_u64 << (count % 64);
        let Some(high) = self.high.checked_mul(scale) else {
            return Range::full();
        };
        Range {
            low: self.low * scale,
            high,
        }
    }

    /// The shift to the right by `count` modulo 64, without sign.
    #[tactic(auto, unfolding(crate::specs::Interval::shifted_right_between))]
    pub fn shr(self, count: u64) -> Range
        ensures contains { Maps self result (λ x. x / 2 ^ (count % 64)) }
        ensures ends { let scale = 2 ^ (count % 64) in Spans result (self.low / scale) (self.high / scale) }
        ensures rule { interval_of result ≡ shifted_right_between (count % 64) (interval_of self) }
    {
        let count = count % 64;
        Range {
            low: self.low >> count,
            high: self.high >> count,
        }
    }

    /// The low 32 bits.
    #[tactic(auto, unfolding(crate::specs::Interval::low_between))]
    pub fn low32(self) -> Range
        ensures contains { Maps self result (λ x. x % 2 ^ 32) }
        ensures kept { self.high < 2 ^ 32 → result ≡ self }
        ensures cut { 2 ^ 32 ≤ self.high → Spans result 0 (2 ^ 32 - 1) }
        ensures rule { interval_of result ≡ low_between (interval_of self) }
    {
        if self.high <= 0xffff_ffff {
            return self;
        }
        Range {
            low: 0,
            high: 0xffff_ffff,
        }
    }

    /// The least interval that contains both.
    #[tactic(auto, unfolding(crate::specs::Interval::hull_of))]
    pub fn hull(self, other: Range) -> Range
        ensures left { Maps self result (λ x. x) }
        ensures right { Maps other result (λ x. x) }
        ensures ends { Spans result (min self.low other.low) (max self.high other.high) }
        ensures rule { interval_of result ≡ hull_of (interval_of self) (interval_of other) }
    {
        Range {
            low: self.low.min(other.low),
            high: self.high.max(other.high),
        }
    }

    /// The numbers below `bound`, `None` where there are none.
    pub fn below(self, bound: u64) -> Option<Range>
        ensures some { IsSome result ↔ (self.low < bound) }
        ensures ends { IfSome result (λ r. Spans r self.low (min self.high (bound - 1))) }
        ensures contains { (x : ℕ) → Contains self x → x < bound → Within result x }
        ensures only { IfSome result (λ r. (x : ℕ) → Contains r x → Contains self x × (x < bound)) }
    {
        if bound == 0 {
            return None;
        }
        self.at_most(bound - 1)
    }

    /// The numbers up to `bound`, `None` where there are none.
    pub fn at_most(self, bound: u64) -> Option<Range>
        ensures some { IsSome result ↔ (self.low ≤ bound) }
        ensures ends { IfSome result (λ r. Spans r self.low (min self.high bound)) }
        ensures contains { (x : ℕ) → Contains self x → x ≤ bound → Within result x }
        ensures only { IfSome result (λ r. (x : ℕ) → Contains r x → Contains self x × (x ≤ bound)) }
        ensures rule { option_map interval_of result ≡ some_between self.low (min self.high bound) }
    {
        Range::new(self.low, self.high.min(bound))
    }

    /// The numbers above `bound`, `None` where there are none.
    pub fn above(self, bound: u64) -> Option<Range>
        ensures some { IsSome result ↔ (bound < self.high) }
        ensures ends { IfSome result (λ r. Spans r (max self.low (bound + 1)) self.high) }
        ensures contains { (x : ℕ) → Contains self x → bound < x → Within result x }
        ensures only { IfSome result (λ r. (x : ℕ) → Contains r x → Contains self x × (bound < x)) }
    {
        if bound == u64::MAX {
            return None;
        }
        self.at_least(bound + 1)
    }

    /// The numbers from `bound` on, `None` where there are none.
    pub fn at_least(self, bound: u64) -> Option<Range>
        ensures some { IsSome result ↔ (bound ≤ self.high) }
        ensures ends { IfSome result (λ r. Spans r (max self.low bound) self.high) }
        ensures contains { (x : ℕ) → Contains self x → bound ≤ x → Within result x }
        ensures only { IfSome result (λ r. (x : ℕ) → Contains r x → Contains self x × (bound ≤ x)) }
        ensures rule { option_map interval_of result ≡ some_between (max self.low bound) self.high }
    {
        Range::new(self.low.max(bound), self.high)
    }

    /// The numbers that both contain, `None` where there are none.
    pub fn meet(self, other: Range) -> Option<Range>
        ensures some { IsSome result ↔ (max self.low other.low ≤ min self.high other.high) }
        ensures ends { IfSome result (λ r. Spans r (max self.low other.low) (min self.high other.high)) }
        ensures contains { (x : ℕ) → Contains self x → Contains other x → Within result x }
        ensures only { IfSome result (λ r. (x : ℕ) → Contains r x → Contains self x × Contains other x) }
        ensures rule { option_map interval_of result
            ≡ some_between (max self.low other.low) (min self.high other.high) }
    {
        Range::new(self.low.max(other.low), self.high.min(other.high))
    }
}
