//! What an operation makes of quantities.
ghost use Rattle.std.specs.Prelude.{◌≡◌, ℕ, ◌+◌, ◌-◌, ◌*◌, ◌/◌, ◌%◌, ◌^◌, ◌<◌, ◌≤◌, Option, Some, None, IfSome};
ghost use Rattle.std.specs.Prelude.{bit_and, bit_or, bit_xor, option_map};
ghost use Rattle.known_bits.specs.KnownBits.{known_of};
ghost use Rattle.intervals.specs.Interval.{interval_of};
ghost use Rattle.intervals.specs.Range.{quotient};
ghost use Rattle.abstract_state.specs.Estimate.{estimate_of, operand_cut, normal_cut, constant, unknown, only};
ghost use Rattle.abstract_state.specs.Transfer as rules;
ghost use Rattle.abstract_state.specs.Lent.{Lengths, HasTails, InRange, InRanges};
ghost use Rattle.abstract_state.specs.declared.region.Region.{Region};
ghost use Rattle.abstract_state.specs.Quantity.{InBits, Contains, Within, Fits, Maps, MapsBoth, Narrows, KeepsBits};
ghost use Rattle.abstract_state.specs.Exact.{tail_after, HasBits, IsIn, IsConstant, Folds};
ghost use Rattle.semantics.specs.Value.{bits_of, cut, value_of};

use crate::quantity::Quantity;
use crate::region::Tails;
use bpf_words::instruction::{Arithmetic, Width};
use intervals::Range;
use known_bits::Bits;
use span_context::profile::Profile;

/// The greatest number of the width.
pub fn greatest(width: Width) -> u64
    ensures { result + 1 ≡ 2 ^ bits_of width }
{
    match width {
        Width::Full => u64::MAX,
        Width::Narrow => 0xffff_ffff,
    }
}

/// The least number of the width whose sign bit is set.
pub fn half(width: Width) -> u64
    ensures { 2 * result ≡ 2 ^ bits_of width }
{
    match width {
        Width::Full => 1 << 63,
        Width::Narrow => 1 << 31,
    }
}

impl Quantity {
    /// Every number of the width.
    pub fn unknown(width: Width) -> Quantity
        ensures contains { (lengths : Lengths) (x : ℕ) → Fits width x → Contains result lengths x }
        ensures rule { estimate_of result ≡ unknown width }
    {
        Quantity::up_to(greatest(width))
    }

    /// The one number, where there is one.
    #[tactic(auto, unfolding(crate::specs::Estimate::only))]
    pub fn only(self) -> Option<u64>
        ensures contains { IfSome result (λ n. (lengths : Lengths) (x : ℕ) → Contains self lengths x → x ≡ n) }
        ensures ends { IfSome result (λ n. (self.range.low ≡ n) × (self.range.high ≡ n)) }
        ensures there { self.range.low ≡ self.range.high → result ≡ Some self.range.low }
        ensures rule { result ≡ only (estimate_of self) }
    {
        if self.range.low == self.range.high {
            Some(self.range.low)
        } else {
            None
        }
    }

    /// The operand of an operation of the width.
    #[tactic(auto, unfolding(crate::specs::Estimate::operand_cut))]
    pub fn cut_to(self, width: Width) -> Option<Quantity>
        ensures contains { (lengths : Lengths) (x : ℕ) → Contains self lengths x → Within result lengths (cut width x) }
        ensures whole { width ≡ Width.Full → result ≡ Some self }
        ensures rule { option_map estimate_of result ≡ operand_cut width (estimate_of self) }
    {
        match width {
            Width::Full => Some(self),
            Width::Narrow => Quantity::finish(width, self.bits, self.range, self.tails),
        }
    }

    /// What a move of the width gives.
    pub fn moved(self, width: Width) -> Option<Quantity>
        ensures contains { (lengths : Lengths) (x : ℕ) → Contains self lengths x → Within result lengths (cut width x) }
        ensures narrows { width ≡ Width.Full → Narrows result self.range self.tails }
        ensures bits { width ≡ Width.Full → KeepsBits result self.bits }
        ensures rule { option_map estimate_of result ≡ normal_cut width (known_of self.bits)
            (interval_of self.range) self.tails }
    {
        Quantity::finish(width, self.bits, self.range, self.tails)
    }

    /// The bits of the sum.
    #[tactic(auto, unfolding(crate::specs::Transfer::sum_bits))]
    fn sum_bits(self, other: Quantity) -> Bits
        ensures contains { (lengths : Lengths) (x y : ℕ) → Contains self lengths x → Contains other lengths y
            → InBits result ((x + y) % 2 ^ 64) }
        ensures constants { (region : Region) (m n : ℕ) (t u : Option ℕ) → IsIn region self m m t
            → IsIn region other n n u → m + n < 2 ^ 64 → HasBits result (m + n) (m + n) }
        ensures rule { known_of result ≡ rules.sum_bits (estimate_of self) (estimate_of other) }
    {
        if self.bits.greatest() & other.bits.greatest() == 0 {
            return self.bits.add(other.bits);
        }
        match (self.only(), other.only()) {
            (Some(a), Some(b)) => Bits::constant(a.wrapping_add(b)),
            _ => Bits::unknown(),
        }
    }

    /// The sum: bits, interval, tails.
    #[tactic(auto, unfolding(crate::specs::Transfer::sum))]
    fn plus(self, profile: Profile, other: Quantity, width: Width) -> Option<Quantity>
        ensures contains { MapsBoth width self other result (λ x y. value_of Arithmetic.Add width x y) }
        ensures constants { (region : Region) → width ≡ Width.Full → (m n : ℕ) (t : Option ℕ) → IsIn region self m m t
            → IsIn region other n n None → m + n < 2 ^ 64
            → IfSome result (λ q. IsIn region q (m + n) (m + n) (tail_after t n)) }
        ensures rule { option_map estimate_of result ≡ rules.sum profile width (estimate_of self) (estimate_of other) }
    {
        Quantity::finish(
            width,
            self.sum_bits(other),
            self.range.add(other.range),
            self.tails
                .sum(profile, self.range.high, other.tails, other.range.high),
        )
    }

    /// The bits of the difference.
    #[tactic(auto, unfolding(crate::specs::Transfer::difference_bits))]
    fn difference_bits(self, other: Quantity) -> Bits
        ensures contains { (lengths : Lengths) (x y : ℕ) → Contains self lengths x → Contains other lengths y
            → InBits result ((x + (2 ^ 64 - y)) % 2 ^ 64) }
        ensures rule { known_of result ≡ rules.difference_bits (estimate_of self) (estimate_of other) }
    {
        let most = other.bits.greatest();
        if most & self.bits.least() == most {
            return self.bits.sub(other.bits);
        }
        match (self.only(), other.only()) {
            (Some(a), Some(b)) => Bits::constant(a.wrapping_sub(b)),
            _ => Bits::unknown(),
        }
    }

    /// The tails of the difference.
    #[tactic(auto, unfolding(crate::specs::Transfer::difference_tails))]
    fn difference_tails(self, other: Quantity) -> Tails
        ensures contains { (lengths : Lengths) (x y : ℕ) → Contains self lengths x → Contains other lengths y
            → HasTails result lengths ((x + (2 ^ 64 - y)) % 2 ^ 64) }
        ensures rule { result ≡ rules.difference_tails (estimate_of self) (estimate_of other) }
    {
        if self.range.low < other.range.high {
            return Tails::none();
        }
        self.tails.difference(other.range.low)
    }

    /// The difference: bits, interval, tails.
    #[tactic(auto, unfolding(crate::specs::Transfer::difference))]
    fn minus(self, other: Quantity, width: Width) -> Option<Quantity>
        ensures contains { MapsBoth width self other result (λ x y. value_of Arithmetic.Sub width x y) }
        ensures rule { option_map estimate_of result ≡ rules.difference width (estimate_of self) (estimate_of other) }
    {
        Quantity::finish(
            width,
            self.difference_bits(other),
            self.range.sub(other.range),
            self.difference_tails(other),
        )
    }

    /// The amount that is taken away where a great constant is added, and the other way round.
    #[tactic(auto, unfolding(crate::specs::Transfer::complement))]
    fn complement(self, width: Width) -> Option<Quantity>
        ensures contains { IfSome result (λ q. (lengths : Lengths) (x : ℕ) → Contains self lengths x → Fits width x
            → (0 < x) × Contains q lengths (2 ^ bits_of width - x)) }
        ensures great { IfSome result (λ _. 2 ^ bits_of width ≤ 2 * self.range.high) }
        ensures rule { option_map estimate_of result
            ≡ option_map constant (rules.complement width (estimate_of self)) }
    {
        match self.only() {
            Some(b) if b >= half(width) && b <= greatest(width) => {
                Some(Quantity::constant(greatest(width) - b + 1))
            }
            _ => None,
        }
    }

    /// The sum; a great constant is taken away as what it lacks to the width, so that the interval stays. Where the
    /// profile has more rules it is added too, so that a constant's sum is never known less than an interval's.
    #[tactic(auto, unfolding(crate::specs::Transfer::added))]
    pub fn add(self, profile: Profile, other: Quantity, width: Width) -> Option<Quantity>
        ensures contains { MapsBoth width self other result (λ x y. value_of Arithmetic.Add width x y) }
        ensures constants { (region : Region) → width ≡ Width.Full → (m n : ℕ) (t : Option ℕ) → IsIn region self m m t
            → IsIn region other n n None → m < 2 ^ 62 → n < 2 ^ 62
            → IfSome result (λ q. IsIn region q (m + n) (m + n) (tail_after t n)) }
        ensures rule { option_map estimate_of result
            ≡ rules.added profile width (estimate_of self) (estimate_of other) }
    {
        match other.complement(width) {
            Some(taken) if profile.has_more_rules() => {
                in_both(self.minus(taken, width), self.plus(profile, other, width))
            }
            Some(taken) => self.minus(taken, width),
            None => self.plus(profile, other, width),
        }
    }

    /// The difference; a great constant is added as what it lacks to the width, so that the interval stays. Where the
    /// profile has more rules it is taken away too.
    #[tactic(auto, unfolding(crate::specs::Transfer::taken_away))]
    pub fn sub(self, profile: Profile, other: Quantity, width: Width) -> Option<Quantity>
        ensures contains { MapsBoth width self other result (λ x y. value_of Arithmetic.Sub width x y) }
        ensures rule { option_map estimate_of result
            ≡ rules.taken_away profile width (estimate_of self) (estimate_of other) }
    {
        match other.complement(width) {
            Some(added) if profile.has_more_rules() => {
                in_both(self.plus(profile, added, width), self.minus(other, width))
            }
            Some(added) => self.plus(profile, added, width),
            None => self.minus(other, width),
        }
    }

    /// The bits that both have.
    #[tactic(auto, unfolding(crate::specs::Transfer::of_both))]
    pub fn and(self, other: Quantity, width: Width) -> Option<Quantity>
        ensures contains { MapsBoth width self other result (λ x y. value_of Arithmetic.And width x y) }
        ensures constants { (region : Region) → width ≡ Width.Full → (m n : ℕ) → IsConstant region self m
            → IsConstant region other n → IfSome result (λ q. IsConstant region q (bit_and m n)) }
        ensures below { IfSome result (λ q. q.range.high ≤ other.range.high) }
        ensures rule { option_map estimate_of result ≡ rules.of_both width (estimate_of self) (estimate_of other) }
    {
        Quantity::finish(
            width,
            self.bits.and(other.bits),
            self.range.and(other.range),
            self.tails.greater(other.tails),
        )
    }

    /// The bits that either has.
    #[tactic(auto, unfolding(crate::specs::Transfer::of_either))]
    pub fn or(self, other: Quantity, width: Width) -> Option<Quantity>
        ensures contains { MapsBoth width self other result (λ x y. value_of Arithmetic.Or width x y) }
        ensures constants { (region : Region) → width ≡ Width.Full → (m n : ℕ) → IsConstant region self m
            → IsConstant region other n → IfSome result (λ q. IsConstant region q (bit_or m n)) }
        ensures rule { option_map estimate_of result ≡ rules.of_either width (estimate_of self) (estimate_of other) }
    {
        Quantity::finish(
            width,
            self.bits.or(other.bits),
            Range::full(),
            Tails::none(),
        )
    }

    /// The bits that one has and the other has not.
    #[tactic(auto, unfolding(crate::specs::Transfer::of_one))]
    pub fn xor(self, other: Quantity, width: Width) -> Option<Quantity>
        ensures contains { MapsBoth width self other result (λ x y. value_of Arithmetic.Xor width x y) }
        ensures constants { (region : Region) → width ≡ Width.Full → (m n : ℕ) → IsConstant region self m
            → IsConstant region other n → IfSome result (λ q. IsConstant region q (bit_xor m n)) }
        ensures rule { option_map estimate_of result ≡ rules.of_one width (estimate_of self) (estimate_of other) }
    {
        Quantity::finish(
            width,
            self.bits.xor(other.bits),
            Range::full(),
            Tails::none(),
        )
    }

    /// The product.
    #[tactic(auto, unfolding(crate::specs::Transfer::product))]
    pub fn mul(self, other: Quantity, width: Width) -> Option<Quantity>
        ensures contains { MapsBoth width self other result (λ x y. value_of Arithmetic.Mul width x y) }
        ensures rule { option_map estimate_of result ≡ rules.product width (estimate_of self) (estimate_of other) }
    {
        Quantity::finish(
            width,
            Bits::unknown(),
            self.range.mul(other.range),
            Tails::none(),
        )
    }

    /// The tails of the quotient by so much: each number loses at least what the least one loses.
    #[tactic(auto, unfolding(crate::specs::Transfer::tails_over))]
    fn tails_over(self, profile: Profile, divisor: u64) -> Tails
        requires { 0 < divisor }
        ensures contains { (lengths : Lengths) (x : ℕ) → Contains self lengths x
            → HasTails result lengths (x / divisor) }
        ensures rule { result ≡ rules.tails_over profile divisor (estimate_of self) }
    {
        if !profile.has_more_rules() {
            return self.tails;
        }
        let low = self.range.low;
        self.tails.raised(low - low / divisor)
    }

    /// The tails of the quotient, which is 0 where the divisor is 0.
    #[tactic(auto, unfolding(crate::specs::Transfer::quotient_tails))]
    fn quotient_tails(self, profile: Profile, other: Quantity) -> Tails
        ensures contains { (lengths : Lengths) (x y : ℕ) → Contains self lengths x → Contains other lengths y
            → HasTails result lengths (quotient x y) }
        ensures rule { result ≡ rules.quotient_tails profile (estimate_of self) (estimate_of other) }
    {
        match other.only() {
            Some(divisor) if divisor > 0 => self.tails_over(profile, divisor),
            _ => self.tails,
        }
    }

    /// The quotient, which is 0 where the divisor is 0.
    #[tactic(auto, unfolding(crate::specs::Transfer::divided))]
    pub fn div(self, profile: Profile, other: Quantity, width: Width) -> Option<Quantity>
        ensures contains { MapsBoth width self other result (λ x y. value_of Arithmetic.Div width x y) }
        ensures rule { option_map estimate_of result
            ≡ rules.divided profile width (estimate_of self) (estimate_of other) }
    {
        Quantity::finish(
            width,
            Bits::unknown(),
            self.range.div(other.range),
            self.quotient_tails(profile, other),
        )
    }

    /// The remainder, which is the dividend where the divisor is 0.
    #[tactic(auto, unfolding(crate::specs::Transfer::remaining))]
    pub fn rem(self, other: Quantity, width: Width) -> Option<Quantity>
        ensures contains { MapsBoth width self other result (λ x y. value_of Arithmetic.Mod width x y) }
        ensures rule { option_map estimate_of result ≡ rules.remaining width (estimate_of self) (estimate_of other) }
    {
        Quantity::finish(
            width,
            Bits::unknown(),
            self.range.rem(other.range),
            self.tails,
        )
    }

    /// The count of a shift: its low five or six bits.
    #[tactic(auto, unfolding(crate::specs::Transfer::count))]
    fn count(self, width: Width) -> Option<Quantity>
        ensures contains { Maps width self result (λ y. y % bits_of width) }
        ensures small { IfSome result (λ q. q.range.high < bits_of width) }
        ensures rule { option_map estimate_of result ≡ rules.count width (estimate_of self) }
    {
        self.and(Quantity::constant(mask(width)), width)
    }

    /// A shift to the left by so much.
    #[tactic(auto, unfolding(crate::specs::Transfer::shifted_left_by))]
    fn shl_by(self, count: u64, width: Width) -> Option<Quantity>
        requires { count < bits_of width }
        ensures contains { Maps width self result (λ x. x * 2 ^ count % 2 ^ bits_of width) }
        ensures rule { option_map estimate_of result ≡ rules.shifted_left_by width (estimate_of self) count }
    {
        Quantity::finish(
            width,
            self.bits.shl(count),
            self.range.shl(count),
            Tails::none(),
        )
    }

    /// A shift to the right by so much.
    #[tactic(auto, unfolding(crate::specs::Transfer::shifted_right_by))]
    fn shr_by(self, profile: Profile, count: u64, width: Width) -> Option<Quantity>
        requires { count < bits_of width }
        ensures contains { Maps width self result (λ x. x / 2 ^ count) }
        ensures rule { option_map estimate_of result ≡ rules.shifted_right_by profile width (estimate_of self) count }
    {
        Quantity::finish(
            width,
            self.bits.shr(count),
            self.range.shr(count),
            self.tails_over(profile, power(count % 64)),
        )
    }

    /// A shift to the right by some count.
    #[tactic(auto, unfolding(crate::specs::Transfer::shrunk))]
    fn shrunk(self, width: Width) -> Option<Quantity>
        ensures contains { (lengths : Lengths) (x z : ℕ) → Contains self lengths x → Fits width x → z ≤ x
            → Within result lengths z }
        ensures rule { option_map estimate_of result ≡ rules.shrunk width (estimate_of self) }
    {
        let range = Range {
            low: 0,
            high: self.range.high,
        };
        Quantity::finish(width, Bits::unknown(), range, self.tails)
    }

    /// The shift to the left, known where the count is.
    #[tactic(auto, unfolding(crate::specs::Transfer::shifted_left))]
    pub fn shl(self, other: Quantity, width: Width) -> Option<Quantity>
        ensures contains { MapsBoth width self other result (λ x y. value_of Arithmetic.Lsh width x y) }
        ensures rule { option_map estimate_of result ≡ rules.shifted_left width (estimate_of self) (estimate_of other) }
    {
        let count = other.count(width)?;
        let Some(n) = count.only() else {
            return Some(Quantity::unknown(width));
        };
        self.shl_by(n, width)
    }

    /// The shift to the right without sign.
    #[tactic(auto, unfolding(crate::specs::Transfer::shifted_right))]
    pub fn shr(self, profile: Profile, other: Quantity, width: Width) -> Option<Quantity>
        ensures contains { MapsBoth width self other result (λ x y. value_of Arithmetic.Rsh width x y) }
        ensures rule { option_map estimate_of result
            ≡ rules.shifted_right profile width (estimate_of self) (estimate_of other) }
    {
        let count = other.count(width)?;
        let Some(n) = count.only() else {
            return self.shrunk(width);
        };
        self.shr_by(profile, n, width)
    }

    /// The shift to the right with the sign, known where the sign bit is 0 and the count is known.
    #[tactic(auto, unfolding(crate::specs::Transfer::shifted_signed))]
    pub fn arsh(self, profile: Profile, other: Quantity, width: Width) -> Option<Quantity>
        ensures contains { MapsBoth width self other result (λ x y. value_of Arithmetic.Arsh width x y) }
        ensures rule { option_map estimate_of result
            ≡ rules.shifted_signed profile width (estimate_of self) (estimate_of other) }
    {
        let count = other.count(width)?;
        let Some(n) = count.only() else {
            return Some(Quantity::unknown(width));
        };
        if self.range.high < half(width) {
            self.shr_by(profile, n, width)
        } else {
            Some(Quantity::unknown(width))
        }
    }
}

/// The bits that count in a shift.
fn mask(width: Width) -> u64
    ensures { result + 1 ≡ bits_of width }
{
    match width {
        Width::Full => 63,
        Width::Narrow => 31,
    }
}

/// What two forms of one number both say.
fn in_both(first: Option<Quantity>, second: Option<Quantity>) -> Option<Quantity>
    ensures contains { (lengths : Lengths) (x : ℕ) → Within first lengths x → Within second lengths x
        → Within result lengths x }
    ensures rule { option_map estimate_of result
        ≡ rules.in_both (option_map estimate_of first) (option_map estimate_of second) }
{
    first?.same(second?)
}

/// A power of 2.
fn power(exponent: u64) -> u64
    requires { exponent < 64 }
    ensures positive { 0 < result }
    ensures value { result ≡ 2 ^ exponent }
{
    1_u64 << exponent
}

/// What an operation gives on operands of the width.
#[tactic(auto, unfolding(crate::specs::Transfer::applied))]
fn apply(
    profile: Profile,
    operation: Arithmetic,
    width: Width,
    a: Quantity,
    b: Quantity,
) -> Option<Quantity>
    ensures contains { MapsBoth width a b result (λ x y. value_of operation width x y) }
    ensures constants { (region : Region) → width ≡ Width.Full → (m n : ℕ) → Folds operation m n
        → IsConstant region a m → IsConstant region b n
        → IfSome result (λ q. IsConstant region q (value_of operation Width.Full m n)) }
    ensures rule { option_map estimate_of result
        ≡ rules.applied profile operation width (estimate_of a) (estimate_of b) }
{
    match operation {
        Arithmetic::Add => a.add(profile, b, width),
        Arithmetic::Sub => a.sub(profile, b, width),
        Arithmetic::Mul => a.mul(b, width),
        Arithmetic::Div => a.div(profile, b, width),
        Arithmetic::Or => a.or(b, width),
        Arithmetic::And => a.and(b, width),
        Arithmetic::Lsh => a.shl(b, width),
        Arithmetic::Rsh => a.shr(profile, b, width),
        Arithmetic::Mod => a.rem(b, width),
        Arithmetic::Xor => a.xor(b, width),
        Arithmetic::Mov => b.moved(width),
        Arithmetic::Arsh => a.arsh(profile, b, width),
        Arithmetic::SignedDiv => Some(Quantity::unknown(width)),
        Arithmetic::SignedMod => Some(Quantity::unknown(width)),
    }
}

/// What an operation gives of two registers' numbers.
#[tactic(auto, unfolding(crate::specs::Transfer::transferred))]
pub fn transfer(
    profile: Profile,
    operation: Arithmetic,
    width: Width,
    a: Quantity,
    b: Quantity,
) -> Option<Quantity>
    ensures contains { (lengths : Lengths) (x y : ℕ) → Contains a lengths x → Contains b lengths y
        → Within result lengths (value_of operation width (cut width x) (cut width y)) }
    ensures constants { (region : Region) → width ≡ Width.Full → (m n : ℕ) → Folds operation m n
        → IsConstant region a m → IsConstant region b n
        → IfSome result (λ q. IsConstant region q (value_of operation Width.Full m n)) }
    ensures rule { option_map estimate_of result
        ≡ rules.transferred profile operation width (estimate_of a) (estimate_of b) }
{
    let a = a.cut_to(width)?;
    let b = b.cut_to(width)?;
    apply(profile, operation, width, a, b)
}
