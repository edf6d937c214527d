//! What a comparison that holds, or doesn't, says of two quantities.
ghost use Rattle.std.specs.Prelude.{◌≡◌, ◌≢◌, ℕ, ◌+◌, ◌-◌, ◌*◌, ◌%◌, ◌^◌, ◌<◌, ◌≤◌, Option, Some, IfSome, IsTrue};
ghost use Rattle.std.specs.Prelude.{false, ◌↔◌, option_map};
ghost use Rattle.intervals.specs.Interval.{interval_of};
ghost use Rattle.abstract_state.specs.Estimate.{estimate_of};
ghost use Rattle.abstract_state.specs.Comparing as rules;
ghost use Rattle.bpf_words.specs.declared.instruction.Width.{Width as Wide};
ghost use Rattle.abstract_state.specs.Lent.{Lengths, tail_of, HasTails, InRange, InRanges};
ghost use Rattle.abstract_state.specs.declared.region.Region.{Region};
ghost use Rattle.abstract_state.specs.Quantity.{InBits, Contains, Within, Fits};
ghost use Rattle.abstract_state.specs.Relation.{Stands, WithinBoth, NarrowsBoth, EndsFrom, IsSigned, SignsAgree};
ghost use Rattle.semantics.specs.Value.{bits_of, cut, holds_of};

use crate::quantity::Quantity;
use crate::transfer::half;
use bpf_words::instruction::{Comparison, Width};
use intervals::Range;

/// How one number stands to another.
#[derive(Clone, Copy)]
pub enum Relation {
    Less,
    AtMost,
    Same,
    Apart,
    AtLeast,
    Greater,
}

/// The two sides of a comparison.
#[derive(Clone, Copy)]
pub struct Sides {
    pub left: Quantity,
    pub right: Quantity,
}

/// The relation of the two sides where the comparison is taken, or where it isn't, `None` where it says nothing of the
/// kind.
#[tactic(auto, unfolding(crate::specs::Comparing::relation_of))]
fn relation_on(comparison: Comparison, taken: bool) -> Option<Relation>
    ensures stands { IfSome result (λ r. (width : Wide) (m n : ℕ) → SignsAgree comparison width m n
        → holds_of comparison width m n ≡ taken → Stands r m n) }
    ensures not_greater { comparison ≡ Comparison.Greater → taken ≡ false → result ≡ Some Relation.AtMost }
    ensures rule { result ≡ rules.relation_of comparison taken }
{
    match comparison {
        Comparison::Equal if taken => Some(Relation::Same),
        Comparison::Equal => Some(Relation::Apart),
        Comparison::NotEqual if taken => Some(Relation::Apart),
        Comparison::NotEqual => Some(Relation::Same),
        Comparison::Greater | Comparison::SignedGreater if taken => Some(Relation::Greater),
        Comparison::Greater | Comparison::SignedGreater => Some(Relation::AtMost),
        Comparison::GreaterOrEqual | Comparison::SignedGreaterOrEqual if taken => Some(
            Relation::AtLeast,
        ),
        Comparison::GreaterOrEqual | Comparison::SignedGreaterOrEqual => Some(Relation::Less),
        Comparison::Less | Comparison::SignedLess if taken => Some(Relation::Less),
        Comparison::Less | Comparison::SignedLess => Some(Relation::AtLeast),
        Comparison::LessOrEqual | Comparison::SignedLessOrEqual if taken => Some(Relation::AtMost),
        Comparison::LessOrEqual | Comparison::SignedLessOrEqual => Some(Relation::Greater),
        Comparison::AnyBit => None,
    }
}

impl Quantity {
    /// The numbers x with x + by <= y for some y of the other.
    #[tactic(auto, unfolding(crate::specs::Comparing::below))]
    fn below(self, other: Quantity, by: u64) -> Option<Quantity>
        ensures contains { (lengths : Lengths) (m n : ℕ) → Contains self lengths m → Contains other lengths n
            → m + by ≤ n → Within result lengths m }
        ensures within { IfSome result (λ q. (self.range.low ≤ q.range.low) × (q.range.high ≤ self.range.high)) }
        ensures tail { (region : Region) (t : ℕ) → tail_of other.tails region ≡ Some t
            → IfSome result (λ q. (u : ℕ) × (tail_of q.tails region ≡ Some u)) }
        ensures rule { option_map estimate_of result ≡ rules.below by (estimate_of self) (estimate_of other) }
    {
        if other.range.high < by {
            return None;
        }
        let range = self.range.at_most(other.range.high - by)?;
        Quantity::normal(self.bits, range, self.tails.greater(other.tails.raised(by)))
    }

    /// The numbers y with x + by <= y for some x of the other.
    #[tactic(auto, unfolding(crate::specs::Comparing::above))]
    fn above(self, other: Quantity, by: u64) -> Option<Quantity>
        ensures contains { (lengths : Lengths) (m n : ℕ) → Contains self lengths n → Contains other lengths m
            → m + by ≤ n → Within result lengths n }
        ensures within { IfSome result (λ q. q.range.high ≤ self.range.high) }
        ensures rule { option_map estimate_of result ≡ rules.above by (estimate_of self) (estimate_of other) }
    {
        let low = other.range.low.checked_add(by)?;
        let range = self.range.at_least(low)?;
        Quantity::normal(self.bits, range, self.tails)
    }

    /// What both contain.
    #[tactic(auto, unfolding(crate::specs::Comparing::same))]
    pub(crate) fn same(self, other: Quantity) -> Option<Quantity>
        ensures contains { (lengths : Lengths) (m : ℕ) → Contains self lengths m → Contains other lengths m
            → Within result lengths m }
        ensures within { IfSome result (λ q. (q.range.high ≤ self.range.high) × (q.range.high ≤ other.range.high)) }
        ensures rule { option_map estimate_of result ≡ rules.same (estimate_of self) (estimate_of other) }
    {
        let bits = self.bits.meet(other.bits)?;
        let range = self.range.meet(other.range)?;
        Quantity::normal(bits, range, self.tails.greater(other.tails))
    }

    /// The numbers that differ from the other's.
    #[tactic(auto, unfolding(crate::specs::Comparing::apart))]
    fn apart(self, other: Quantity) -> Option<Quantity>
        ensures contains { (lengths : Lengths) (m n : ℕ) → Contains self lengths m → Contains other lengths n → m ≢ n
            → Within result lengths m }
        ensures within { IfSome result (λ q. q.range.high ≤ self.range.high) }
        ensures rule { option_map estimate_of result ≡ rules.apart (estimate_of self) (estimate_of other) }
    {
        let Some(n) = other.only() else {
            return Quantity::normal(self.bits, self.range, self.tails);
        };
        let range = without(self.range, n)?;
        Quantity::normal(self.bits, range, self.tails)
    }
}

/// The interval after an end that equals a number moved inward by one.
fn without(range: Range, n: u64) -> Option<Range>
    ensures contains { (m : ℕ) → InRange range m → m ≢ n → InRanges result m }
    ensures within { IfSome result (λ r. r.high ≤ range.high) }
    ensures rule { option_map interval_of result ≡ rules.without_end (interval_of range) n }
{
    if range.low == n {
        range.above(n)
    } else if range.high == n {
        range.below(n)
    } else {
        Some(range)
    }
}

/// Both sides where the left one, and as much more, is at most the right one.
#[tactic(auto, unfolding(crate::specs::Comparing::ordered))]
fn ordered(x: Quantity, y: Quantity, by: u64) -> Option<Sides>
    ensures contains { (lengths : Lengths) (m n : ℕ) → Contains x lengths m → Contains y lengths n → m + by ≤ n
        → WithinBoth result lengths m n }
    ensures within { NarrowsBoth result x y }
    ensures low { IfSome result (λ s. x.range.low ≤ s.left.range.low) }
    ensures tail { (region : Region) (t : ℕ) → tail_of y.tails region ≡ Some t
        → IfSome result (λ s. (u : ℕ) × (tail_of s.left.tails region ≡ Some u)) }
    ensures rule { option_map rules.told_of result ≡ rules.ordered by (estimate_of x) (estimate_of y) }
{
    let left = x.below(y, by)?;
    let right = y.above(x, by)?;
    Some(Sides { left, right })
}

/// The two sides the other way round.
fn turned(sides: Option<Sides>) -> Option<Sides>
    ensures contains { (lengths : Lengths) (m n : ℕ) → WithinBoth sides lengths m n → WithinBoth result lengths n m }
    ensures within { (x y : Quantity) → NarrowsBoth sides x y → NarrowsBoth result y x }
    ensures rule { option_map rules.told_of result ≡ rules.turned (option_map rules.told_of sides) }
{
    let Some(Sides { left, right }) = sides else {
        return None;
    };
    Some(Sides {
        left: right,
        right: left,
    })
}

/// Both sides where they are equal.
fn equal(x: Quantity, y: Quantity) -> Option<Sides>
    ensures contains { (lengths : Lengths) (m : ℕ) → Contains x lengths m → Contains y lengths m
        → WithinBoth result lengths m m }
    ensures within { NarrowsBoth result x y }
    ensures rule { option_map rules.told_of result
        ≡ option_map (λ both. rules.told both both) (rules.same (estimate_of x) (estimate_of y)) }
{
    let both = x.same(y)?;
    Some(Sides {
        left: both,
        right: both,
    })
}

/// Both sides where they differ.
fn different(x: Quantity, y: Quantity) -> Option<Sides>
    ensures contains { (lengths : Lengths) (m n : ℕ) → Contains x lengths m → Contains y lengths n → m ≢ n
        → WithinBoth result lengths m n }
    ensures within { NarrowsBoth result x y }
    ensures rule { option_map rules.told_of result
        ≡ rules.both_told (rules.apart (estimate_of x) (estimate_of y)) (rules.apart (estimate_of y) (estimate_of x)) }
{
    let left = x.apart(y)?;
    let right = y.apart(x)?;
    Some(Sides { left, right })
}

/// Both sides where the relation stands.
#[tactic(auto, unfolding(crate::specs::Comparing::refined))]
fn refine(relation: Relation, x: Quantity, y: Quantity) -> Option<Sides>
    ensures contains { (lengths : Lengths) (m n : ℕ) → Contains x lengths m → Contains y lengths n
        → Stands relation m n → WithinBoth result lengths m n }
    ensures within { NarrowsBoth result x y }
    ensures ends { (region : Region) → relation ≡ Relation.AtMost → (t : ℕ) → tail_of y.tails region ≡ Some t
        → IfSome result (λ s. EndsFrom region x.range.low s.left) }
    ensures rule { option_map rules.told_of result ≡ rules.refined relation (estimate_of x) (estimate_of y) }
{
    match relation {
        Relation::Less => ordered(x, y, 1),
        Relation::AtMost => ordered(x, y, 0),
        Relation::Same => equal(x, y),
        Relation::Apart => different(x, y),
        Relation::AtLeast => turned(ordered(y, x, 0)),
        Relation::Greater => turned(ordered(y, x, 1)),
    }
}

/// Whether a test reads its sides as numbers with a sign.
fn is_signed(comparison: Comparison) -> bool
    ensures { IsTrue result ↔ IsSigned comparison }
{
    match comparison {
        Comparison::SignedGreater
        | Comparison::SignedGreaterOrEqual
        | Comparison::SignedLess
        | Comparison::SignedLessOrEqual => true,
        _ => false,
    }
}

/// The greatest number that both sides may have for the comparison to say something of them.
#[tactic(auto, unfolding(crate::specs::Comparing::reach))]
fn reach(width: Width, comparison: Comparison) -> u64
    ensures fits { (m : ℕ) → m ≤ result → Fits width m }
    ensures signs { (m : ℕ) → IsSigned comparison → m ≤ result → 2 * m < 2 ^ bits_of width }
    ensures whole { comparison ≡ Comparison.Greater → result + 1 ≡ 2 ^ bits_of width }
    ensures rule { result + 1 ≡ rules.reach width comparison }
{
    if is_signed(comparison) {
        return half(width) - 1;
    }
    crate::transfer::greatest(width)
}

/// The sides on the edge that is taken where the comparison holds, or on the other.
#[tactic(auto, unfolding(crate::specs::Comparing::told_on))]
pub fn edge(
    width: Width,
    comparison: Comparison,
    taken: bool,
    x: Quantity,
    y: Quantity,
) -> Option<Sides>
    ensures contains { (lengths : Lengths) (m n : ℕ) → Contains x lengths m → Contains y lengths n
        → holds_of comparison width (cut width m) (cut width n) ≡ taken → WithinBoth result lengths m n }
    ensures within { NarrowsBoth result x y }
    ensures ends { (region : Region) → width ≡ Width.Full → comparison ≡ Comparison.Greater → taken ≡ false → (t : ℕ)
        → tail_of y.tails region ≡ Some t → IfSome result (λ s. EndsFrom region x.range.low s.left) }
    ensures rule { option_map rules.told_of result
        ≡ rules.told_on width comparison taken (estimate_of x) (estimate_of y) }
{
    let reach = reach(width, comparison);
    if x.range.high > reach || y.range.high > reach {
        return Some(Sides { left: x, right: y });
    }
    let Some(relation) = relation_on(comparison, taken) else {
        return Some(Sides { left: x, right: y });
    };
    refine(relation, x, y)
}
