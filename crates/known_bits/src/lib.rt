//! Known bits of a 64-bit number: a value, and a mask of the bits that are not known.
//!
//! Each operation answers bits that contain every result of contained operands, as the operations of
//! RFC 9669, section 4, define it.
#![tactic(auto)]

ghost use Rattle.std.specs.Prelude.{◌≡◌, ℕ, ◌+◌, ◌-◌, ◌*◌, ◌/◌, ◌%◌, ◌^◌, ◌<◌, ◌≤◌, ◌↔◌, IsTrue, IsNone, IfSome};
ghost use Rattle.std.specs.Prelude.{bit_and, bit_or, bit_xor, option_map};

/// What is known of a number: bit k is that of `value` where bit k of `unknown` is 0. An unknown bit of `value` is 0.
#[derive(Clone, Copy)]
pub struct Bits {
    pub value: u64,
    pub unknown: u64,
    ghost disjoint: { bit_and value unknown ≡ 0 },
}

impl Bits {
    ghost use Rattle.known_bits.specs.Bits.{bit, Contains, Within, Maps, MapsBoth, Knows, KnowsBoth, most, IsConstant};
    ghost use Rattle.known_bits.specs.Bits.{IsApart, Covers};
    ghost use Rattle.known_bits.specs.KnownBits.{known_of, none_known, common_bits, bits_of_both, bits_of_either};
    ghost use Rattle.known_bits.specs.KnownBits.{bits_of_one, bits_shifted_left, bits_shifted_right, low_bits};
    ghost use Rattle.known_bits.specs.KnownBits.{agreed_bits, merged_bits};

    /// The one number.
    pub fn constant(value: u64) -> Bits
        ensures is { IsConstant result value }
        ensures contains { (x : ℕ) → Contains result x ↔ (x ≡ value) }
    {
        Bits { value, unknown: 0 }
    }

    /// Every number.
    pub fn unknown() -> Bits
        ensures all { result.unknown ≡ 2 ^ 64 - 1 }
        ensures rule { known_of result ≡ none_known }
        ensures contains { (x : ℕ) → x < 2 ^ 64 → Contains result x }
    {
        Bits {
            value: 0,
            unknown: u64::MAX,
        }
    }

    /// The high bits that all numbers from `low` to `high` have in common.
    #[tactic(auto, unfolding(crate::specs::KnownBits::common_bits))]
    pub fn between(low: u64, high: u64) -> Bits
        requires { low ≤ high }
        ensures contains { (x : ℕ) → low ≤ x → x ≤ high → Contains result x }
        ensures knows { (k : ℕ) → low / 2 ^ k ≡ high / 2 ^ k → bit result.unknown k ≡ 0 }
        ensures rule { known_of result ≡ common_bits low high }
    {
        if low == high {
            return Bits::constant(low);
        }
        let unknown = u64::MAX >> (low ^ high).leading_zeros();
        Bits {
            value: low & !unknown,
            unknown,
        }
    }

    /// Whether `x` has each bit that is known.
    pub fn has(self, x: u64) -> bool
        ensures { IsTrue result ↔ Contains self x }
    {
        x & !self.unknown == self.value
    }

    /// The least number contained: no unknown bit is set.
    pub fn least(self) -> u64
        ensures value { result ≡ self.value }
        ensures contained { Contains self result }
        ensures least { (x : ℕ) → Contains self x → result ≤ x }
    {
        self.value
    }

    /// The greatest number contained: each unknown bit is set.
    pub fn greatest(self) -> u64
        ensures value { result ≡ most self }
        ensures contained { Contains self result }
        ensures greatest { (x : ℕ) → Contains self x → x ≤ result }
    {
        self.value | self.unknown
    }

    /// A bit is known where it is known in both, or a known 0 in one.
    #[tactic(auto, unfolding(crate::specs::KnownBits::bits_of_both))]
    pub fn and(self, other: Bits) -> Bits
        ensures contains { MapsBoth self other result (λ x y. bit_and x y) }
        ensures knows { KnowsBoth self other result (λ x y. bit_and x y) }
        ensures rule { known_of result ≡ bits_of_both (known_of self) (known_of other) }
    {
        let value = self.value & other.value;
        let most = self.greatest() & other.greatest();
        Bits {
            value,
            unknown: most & !value,
        }
    }

    /// A bit is known where it is known in both, or a known 1 in one.
    #[tactic(auto, unfolding(crate::specs::KnownBits::bits_of_either))]
    pub fn or(self, other: Bits) -> Bits
        ensures contains { MapsBoth self other result (λ x y. bit_or x y) }
        ensures knows { KnowsBoth self other result (λ x y. bit_or x y) }
        ensures rule { known_of result ≡ bits_of_either (known_of self) (known_of other) }
    {
        let value = self.value | other.value;
        let unknown = self.unknown | other.unknown;
        Bits {
            value,
            unknown: unknown & !value,
        }
    }

    /// A bit is known where it is known in both.
    #[tactic(auto, unfolding(crate::specs::KnownBits::bits_of_one))]
    pub fn xor(self, other: Bits) -> Bits
        ensures contains { MapsBoth self other result (λ x y. bit_xor x y) }
        ensures knows { KnowsBoth self other result (λ x y. bit_xor x y) }
        ensures rule { known_of result ≡ bits_of_one (known_of self) (known_of other) }
    {
        let unknown = self.unknown | other.unknown;
        Bits {
            value: (self.value ^ other.value) & !unknown,
            unknown,
        }
    }

    /// Whether no bit may be set in both.
    fn is_apart(self, other: Bits) -> bool
        ensures { IsTrue result ↔ IsApart self other }
    {
        self.greatest() & other.greatest() == 0
    }

    /// The sum modulo 2^64: nothing is carried where no bit may be set in both, and the sum is then the `or`.
    pub fn add(self, other: Bits) -> Bits
        ensures contains { MapsBoth self other result (λ x y. (x + y) % 2 ^ 64) }
        ensures apart { IsApart self other → KnowsBoth self other result (λ x y. bit_or x y) }
        ensures rule { IsApart self other → known_of result ≡ bits_of_either (known_of self) (known_of other) }
        ensures constants { self.unknown ≡ 0 → other.unknown ≡ 0
            → IsConstant result ((self.value + other.value) % 2 ^ 64) }
        ensures otherwise { ¬ IsApart self other → ¬ ((self.unknown ≡ 0) × (other.unknown ≡ 0))
            → result.unknown ≡ 2 ^ 64 - 1 }
    {
        if self.is_apart(other) {
            return self.or(other);
        }
        if self.unknown == 0 && other.unknown == 0 {
            return Bits::constant(self.value.wrapping_add(other.value));
        }
        Bits::unknown()
    }

    /// Whether each bit that `other` may have is a known 1.
    fn covers(self, other: Bits) -> bool
        ensures { IsTrue result ↔ Covers self other }
    {
        let most = other.greatest();
        most & self.value == most
    }

    /// The difference modulo 2^64: nothing is borrowed where each bit that `other` may have is a known 1
    /// of `self`, and the difference is then the `xor`.
    pub fn sub(self, other: Bits) -> Bits
        ensures contains { MapsBoth self other result (λ x y. (x + (2 ^ 64 - y)) % 2 ^ 64) }
        ensures covered { Covers self other → KnowsBoth self other result (λ x y. bit_xor x y) }
        ensures rule { Covers self other → known_of result ≡ bits_of_one (known_of self) (known_of other) }
        ensures constants { self.unknown ≡ 0 → other.unknown ≡ 0
            → IsConstant result ((self.value + (2 ^ 64 - other.value)) % 2 ^ 64) }
        ensures otherwise { ¬ Covers self other → ¬ ((self.unknown ≡ 0) × (other.unknown ≡ 0))
            → result.unknown ≡ 2 ^ 64 - 1 }
    {
        if self.covers(other) {
            return self.xor(other);
        }
        if self.unknown == 0 && other.unknown == 0 {
            return Bits::constant(self.value.wrapping_sub(other.value));
        }
        Bits::unknown()
    }

    /// The shift to the left by `count` modulo 64: both words shift, and the bits that come in are known 0s.
    #[tactic(auto, unfolding(crate::specs::KnownBits::bits_shifted_left))]
    pub fn shl(self, count: u64) -> Bits
        ensures contains { Maps self result (λ x. x * 2 ^ (count % 64) % 2 ^ 64) }
        ensures knows { Knows self result (λ x. x * 2 ^ (count % 64) % 2 ^ 64) }
        ensures rule { known_of result ≡ bits_shifted_left (count % 64) (known_of self) }
        ensures constants { self.unknown ≡ 0 → result.unknown ≡ 0 }
    {
        Bits {
            value: self.value << (count % 64),
            unknown: self.unknown << (count % 64),
        }
    }

    /// The shift to the right by `count` modulo 64, without sign: both words shift, and the bits that come in are known
    /// 0s.
    #[tactic(auto, unfolding(crate::specs::KnownBits::bits_shifted_right))]
    pub fn shr(self, count: u64) -> Bits
        ensures contains { Maps self result (λ x. x / 2 ^ (count % 64)) }
        ensures knows { Knows self result (λ x. x / 2 ^ (count % 64)) }
        ensures rule { known_of result ≡ bits_shifted_right (count % 64) (known_of self) }
        ensures constants { self.unknown ≡ 0 → result.unknown ≡ 0 }
    {
        Bits {
            value: self.value >> (count % 64),
            unknown: self.unknown >> (count % 64),
        }
    }

    /// The low 32 bits, the others being known 0s.
    #[tactic(auto, unfolding(crate::specs::KnownBits::low_bits))]
    pub fn low32(self) -> Bits
        ensures contains { Maps self result (λ x. x % 2 ^ 32) }
        ensures knows { Knows self result (λ x. x % 2 ^ 32) }
        ensures rule { known_of result ≡ low_bits (known_of self) }
    {
        Bits {
            value: self.value & 0xffff_ffff,
            unknown: self.unknown & 0xffff_ffff,
        }
    }

    /// What either contains: a bit is known where both know it and agree.
    #[tactic(auto, unfolding(crate::specs::KnownBits::agreed_bits))]
    pub fn join(self, other: Bits) -> Bits
        ensures left { Maps self result (λ x. x) }
        ensures right { Maps other result (λ x. x) }
        ensures agreed { (k : ℕ) → bit self.unknown k ≡ 0 → bit other.unknown k ≡ 0
            → bit self.value k ≡ bit other.value k → bit result.unknown k ≡ 0 }
        ensures rule { known_of result ≡ agreed_bits (known_of self) (known_of other) }
    {
        let unknown = self.unknown | other.unknown | (self.value ^ other.value);
        Bits {
            value: self.value & !unknown,
            unknown,
        }
    }

    /// What both contain, `None` where that is nothing: a bit that both know differs there.
    #[tactic(auto, unfolding(crate::specs::KnownBits::merged_bits))]
    pub fn meet(self, other: Bits) -> Option<Bits>
        ensures none { IsNone result ↔ ((x : ℕ) → Contains self x → Contains other x → ⊥) }
        ensures contains { (x : ℕ) → Contains self x → Contains other x → Within result x }
        ensures only { IfSome result (λ r. (x : ℕ) → Contains r x → Contains self x × Contains other x) }
        ensures rule { option_map known_of result ≡ merged_bits (known_of self) (known_of other) }
    {
        let known = !(self.unknown | other.unknown);
        let clash = (self.value ^ other.value) & known;
        if clash != 0 {
            return None;
        }
        Some(Bits {
            value: self.value | other.value,
            unknown: self.unknown & other.unknown,
        })
    }
}
