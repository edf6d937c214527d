//! What the verifier's rules keep of simple facts, whatever is known of bits and marks: that a place holds a number or
//! an address, how great it is, and how many bytes stand behind it; how long a lent region is; and which bytes of the
//! stack were stored. Guarded programs stand on this.
#![tactic(auto)]

ghost use Rattle.std.specs.Prelude.{◌≡◌, ℕ, ◌+◌, ◌-◌, ◌^◌, ◌<◌, ◌≤◌, min, max, Bool, true, Option, Some, None};
ghost use Rattle.span_context.specs.declared.profile.Profile.{Profile};
ghost use Rattle.span_context.specs.declared.context_field.ContextField.{ContextField};
ghost use Rattle.bpf_words.specs.declared.instruction.Comparison.{Comparison};
ghost use Rattle.bpf_words.specs.declared.instruction.Insn.{Insn};
ghost use Rattle.bpf_words.specs.declared.instruction.Operand.{Operand};
ghost use Rattle.bpf_words.specs.declared.instruction.Width.{Width};
ghost use Rattle.semantics.specs.Value.{bits_of};
ghost use Rattle.known_bits.specs.KnownBits.{KnownBits};
ghost use Rattle.intervals.specs.Interval.{Interval, from_to, hull_of};
ghost use Rattle.abstract_state.specs.declared.region.Region.{Region};
ghost use Rattle.abstract_state.specs.declared.region.Tails.{Tails};
ghost use Rattle.abstract_state.specs.declared.relation.Relation.{Relation};
ghost use Rattle.abstract_state.specs.Estimate.{Estimate, normal, normal_cut, joined, both_tails, each_tail};
ghost use Rattle.abstract_state.specs.Estimate.{raised_tail, greater_tail, lesser_tail};
ghost use Rattle.abstract_state.specs.Comparing.{below, above, same, apart, relation_of, told_on};
ghost use Rattle.abstract_state.specs.Transfer.{sum, sum_tail, difference, added};
ghost use Rattle.abstract_state.specs.Edges.{is_order, edge};
ghost use Rattle.abstract_state.specs.Loading.{lent_field, reaches};
ghost use Rattle.abstract_state.specs.Situation.{Situation};
ghost use Rattle.abstract_state.specs.Situation as situation;
ghost use Rattle.abstract_state.specs.Stepping.{stepped};
ghost use Rattle.value_marks.specs.Marking.{Marking};
ghost use Rattle.value_marks.specs.Copies.{copies_tell};
ghost use Rattle.guarded_rules.specs.Facts.{Kind, Number, Property, Any, Of, Fact};
ghost use Rattle.guarded_rules.specs.Keeps.{Keeps};
ghost use Rattle.guarded_rules.specs.Says.{HasProperty, Says, SaysIn, Entails, EntailsIn, OnAnswer, OnSituation};
ghost use Rattle.guarded_rules.specs.Sums.{Sums};
ghost use Rattle.guarded_rules.specs.Tests.{Side, at_side, Tells, Excludes, ToldSays};
ghost use Rattle.guarded_rules.specs.Values.{Fields};
ghost use Rattle.guarded_rules.specs.Steps.{Spares, Reaches};

/// The rules on numbers stay in their intervals and have their tails: nothing to run.
pub fn numbers_stay_in_bounds()
    ensures normal { (bits : KnownBits) (a r : Interval) (tails : Tails) → a.low ≤ r.low → r.high ≤ a.high
        → Keeps a tails (normal bits r tails) }
    ensures cut { (width : Width) (bits : KnownBits) (r : Interval) (tails : Tails) → r.high < 2 ^ bits_of width
        → Keeps r tails (normal_cut width bits r tails) }
    ensures sum { (profile : Profile) (width : Width) (x y : Estimate)
        → x.range.high + y.range.high < 2 ^ bits_of width
        → Keeps (from_to (x.range.low + y.range.low) (x.range.high + y.range.high))
        (both_tails (sum_tail profile x.range.high y.range.high) x.tails y.tails) (sum profile width x y) }
    ensures difference { (width : Width) (x y : Estimate) → y.range.high ≤ x.range.low
        → x.range.high < 2 ^ bits_of width
        → Keeps (from_to (x.range.low - y.range.high) (x.range.high - y.range.low))
        (each_tail (raised_tail y.range.low) x.tails) (difference width x y) }
    ensures join { (x y : Estimate)
        → Keeps (hull_of x.range y.range) (both_tails lesser_tail x.tails y.tails) (joined x y) }
{}

/// What a test teaches stays in its interval, and has the greater tails: nothing to run.
pub fn tests_teach_bounds()
    ensures below { (n : ℕ) (x y : Estimate) → Keeps (from_to x.range.low (min x.range.high (y.range.high - n)))
        (both_tails greater_tail x.tails (each_tail (raised_tail n) y.tails)) (below n x y) }
    ensures above { (n : ℕ) (y x : Estimate)
        → Keeps (from_to (max y.range.low (x.range.low + n)) y.range.high) y.tails (above n y x) }
    ensures same { (x y : Estimate)
        → Keeps (from_to (max x.range.low y.range.low) (min x.range.high y.range.high))
        (both_tails greater_tail x.tails y.tails) (same x y) }
    ensures apart { (x y : Estimate) → Keeps x.range x.tails (apart x y) }
{}

/// A sum says what sums are to say, and a field what it holds: nothing to run.
pub fn sums_and_fields_say()
    ensures sums { (profile : Profile) (width : Width) (p : Property) (x y : Estimate) → y.range.low ≤ y.range.high
        → x.range.high < 2 ^ bits_of width → Sums profile width (λ q. HasProperty q x) (λ q. HasProperty q y) p
        → SaysIn Number p (added profile width x y) }
    ensures fields { (profile : Profile) (f : ContextField) (k : Kind) (p : Property) → Fields profile f k p
        → OnAnswer (Of k p) (lent_field profile f) }
{}

/// A test of two sides within its width tells of them what tests are to tell, and where it can't come out so no number
/// is left: nothing to run.
pub fn tests_tell()
    ensures tells { (width : Width) (c : Comparison) (taken : Bool) (x y : Estimate) (r : Relation) (k : Kind)
        (side : Side) (p : Property) → is_order c ≡ true → relation_of c taken ≡ Some r
        → x.range.high < 2 ^ bits_of width → y.range.high < 2 ^ bits_of width → Says k Any x → Says k Any y
        → Tells r (λ s q. HasProperty q (at_side s x y)) side p → ToldSays k side p (told_on width c taken x y) }
    ensures excludes { (width : Width) (c : Comparison) (taken : Bool) (x y : Estimate) (r : Relation)
        → is_order c ≡ true → relation_of c taken ≡ Some r → x.range.high < 2 ^ bits_of width
        → y.range.high < 2 ^ bits_of width → Excludes r (λ s q. HasProperty q (at_side s x y))
        → told_on width c taken x y ≡ None }
{}

/// A load that facts grant is let through: nothing to run.
pub fn loads_reach()
    ensures { (least : ℕ) (region : Region) (a : Estimate) (offset count : ℕ) → a.range.low ≤ a.range.high
        → a.range.high ≤ 2 ^ 20 → Reaches region (λ q. HasProperty q a) (λ n. n ≤ least) offset count
        → reaches least region a offset count ≡ true }
{}

/// Each fact stays known where an instruction spares it, on both edges of a comparison, where its sides tell their
/// copies, and where ways join, if it is known on both: nothing to run.
pub fn facts_stay_known()
    ensures steps { (profile : Profile) (insn : Insn) (s : Situation) (f : Fact) → Spares insn f → Entails s f
        → OnSituation f (stepped profile insn s) }
    ensures edges { (f : Fact) (width : Width) (c : Comparison) (left : ℕ) (right : Operand) (taken : Bool)
        (s : Situation) → Entails s f → OnSituation f (edge width c left right taken s) }
    ensures copies { (f : Fact) (left : ℕ) (right : Operand) (o : Option Marking) (s : Situation) → Entails s f
        → EntailsIn (copies_tell left right o s) f }
    ensures joins { (profile : Profile) (f : Fact) (a b : Situation) → Entails a f → Entails b f
        → Entails (situation.joined profile a b) f }
{}
