//! That of a number no less is known than of another, and that the rules of numbers keep that order.
#![tactic(auto)]

ghost use Rattle.std.specs.Prelude.{◌≡◌, ℕ, ◌<◌, ◌^◌, Bool, Some, IfSome};
ghost use Rattle.span_context.specs.declared.profile.Profile.{Profile};
ghost use Rattle.span_context.specs.declared.profile.Profile.TheVariants.{Two, Three};
ghost use Rattle.bpf_words.specs.declared.instruction.Arithmetic.{Arithmetic};
ghost use Rattle.bpf_words.specs.declared.instruction.Comparison.{Comparison};
ghost use Rattle.bpf_words.specs.declared.instruction.Width.{Width};
ghost use Rattle.known_bits.specs.KnownBits.{KnownBits};
ghost use Rattle.intervals.specs.Interval.{Interval, from_to};
ghost use Rattle.abstract_state.specs.declared.region.Tails.{Tails};
ghost use Rattle.abstract_state.specs.Estimate.{Estimate, normal, joined, no_tails};
ghost use Rattle.abstract_state.specs.Comparing.{same, told, told_on};
ghost use Rattle.abstract_state.specs.Transfer.{added, taken_away, of_both, of_either, of_one, product, divided};
ghost use Rattle.abstract_state.specs.Transfer.{remaining, shifted_left_by, shifted_right_by, transferred};
ghost use Rattle.estimate_order.specs.Order.{AreBitsWithin, IsIntervalWithin, AreTailsWithin, IsWithin, IsBelow};
ghost use Rattle.estimate_order.specs.Order.{AreWords, IsNumber, FitsIn, IsToldWithin, IsSettled};
ghost use Rattle.estimate_order.specs.Order.{three_by_range};

/// Of bits, an interval and tails that say no less the normal form says no less: nothing to run.
pub fn normal_forms_are_ordered()
    ensures { (a x : KnownBits) (r s : Interval) (t u : Tails) → AreWords a → AreWords x → s.high < 2 ^ 64
        → AreBitsWithin a x → IsIntervalWithin r s → AreTailsWithin t u
        → IsBelow IsWithin (normal a r t) (normal x s u) }
{}

/// What either of two numbers is says no less, where both numbers say no less: nothing to run.
pub fn joins_are_ordered()
    ensures { (a b x y : Estimate) → AreWords a.bits → AreWords b.bits → AreWords x.bits → AreWords y.bits
        → x.range.high < 2 ^ 64 → y.range.high < 2 ^ 64 → IsWithin a x → IsWithin b y
        → IsBelow IsWithin (joined a b) (joined x y) }
{}

/// So does what two tell of one number, and it says no less than either of them: nothing to run.
pub fn tellings_are_ordered()
    ensures order { (a b x y : Estimate) → AreWords a.bits → AreWords b.bits → AreWords x.bits → AreWords y.bits
        → x.range.high < 2 ^ 64 → IsWithin a x → IsWithin b y → IsBelow IsWithin (same a b) (same x y) }
    ensures first { (x y : Estimate) → IsNumber x → IsNumber y → IsBelow IsWithin (same x y) (Some x) }
    ensures second { (x y : Estimate) → IsNumber x → IsNumber y → IsBelow IsWithin (same x y) (Some y) }
{}

/// Of a sum and a difference context 3 knows no less than context 2, where it knows no less of both numbers: nothing to
/// run.
pub fn sums_are_ordered()
    ensures sum { (width : Width) (a b x y : Estimate) → IsNumber a → IsNumber b → IsNumber x → IsNumber y
        → FitsIn width a → FitsIn width b → IsWithin a x → IsWithin b y
        → IsBelow IsWithin (added Three width a b) (added Two width x y) }
    ensures difference { (width : Width) (a b x y : Estimate) → IsNumber a → IsNumber b → IsNumber x → IsNumber y
        → FitsIn width a → IsWithin a x → IsWithin b y
        → IsBelow IsWithin (taken_away Three width a b) (taken_away Two width x y) }
{}

/// So it is of a product, a quotient and a remainder: nothing to run.
pub fn products_are_ordered()
    ensures product { (width : Width) (a b x y : Estimate) → IsNumber a → IsNumber b → IsNumber x → IsNumber y
        → IsWithin a x → IsWithin b y → IsBelow IsWithin (product width a b) (product width x y) }
    ensures quotient { (width : Width) (a b x y : Estimate) → IsNumber a → IsNumber b → IsNumber x
        → IsWithin a x → IsWithin b y → IsBelow IsWithin (divided Three width a b) (divided Two width x y) }
    ensures remainder { (width : Width) (a b x y : Estimate) → IsNumber a → IsNumber b → IsNumber x → IsNumber y
        → IsWithin a x → IsWithin b y → IsBelow IsWithin (remaining width a b) (remaining width x y) }
{}

/// And of what is done bit by bit: nothing to run.
pub fn bitwise_operations_are_ordered()
    ensures both { (width : Width) (a b x y : Estimate) → IsNumber a → IsNumber b → IsNumber x → IsNumber y
        → IsWithin a x → IsWithin b y → IsBelow IsWithin (of_both width a b) (of_both width x y) }
    ensures either { (width : Width) (a b x y : Estimate) → IsNumber a → IsNumber b → IsNumber x → IsNumber y
        → IsWithin a x → IsWithin b y → IsBelow IsWithin (of_either width a b) (of_either width x y) }
    ensures one { (width : Width) (a b x y : Estimate) → IsNumber a → IsNumber b → IsNumber x → IsNumber y
        → IsWithin a x → IsWithin b y → IsBelow IsWithin (of_one width a b) (of_one width x y) }
    ensures left { (width : Width) (a x : Estimate) (n : ℕ) → IsNumber a → IsNumber x → IsWithin a x
        → IsBelow IsWithin (shifted_left_by width a n) (shifted_left_by width x n) }
    ensures right { (width : Width) (a x : Estimate) (n : ℕ) → IsNumber a → IsNumber x → IsWithin a x
        → IsBelow IsWithin (shifted_right_by Three width a n) (shifted_right_by Two width x n) }
{}

/// So it is of what each operation makes of two numbers: nothing to run.
pub fn operations_are_ordered()
    ensures { (operation : Arithmetic) (width : Width) (a b x y : Estimate) → IsNumber a → IsNumber b → IsNumber x
        → IsNumber y → IsWithin a x → IsWithin b y
        → IsBelow IsWithin (transferred Three operation width a b) (transferred Two operation width x y) }
{}

/// What a comparison tells of both sides says no less, where no less is known of them, and no less than what was known:
/// nothing to run.
pub fn comparisons_are_ordered()
    ensures order { (width : Width) (comparison : Comparison) (taken : Bool) (a b x y : Estimate) → IsNumber a
        → IsNumber b → IsNumber x → IsNumber y → IsWithin a x → IsWithin b y
        → IsBelow IsToldWithin (told_on width comparison taken a b) (told_on width comparison taken x y) }
    ensures more { (width : Width) (comparison : Comparison) (taken : Bool) (x y : Estimate) → IsNumber x → IsNumber y
        → IsBelow IsToldWithin (told_on width comparison taken x y) (Some (told x y)) }
{}

/// What an operation makes of two numbers of a program is one, by each context: nothing to run.
pub fn results_are_numbers()
    ensures { (profile : Profile) (operation : Arithmetic) (width : Width) (a b : Estimate) → IsNumber a → IsNumber b
        → IfSome (transferred profile operation width a b) IsNumber }
{}

/// A join says no more than what is known of a settled side: nothing to run.
pub fn settled_sides_are_within_joins()
    ensures first { (a x y : Estimate) → IsNumber a → IsNumber x → IsNumber y → IsSettled a → IsWithin a x
        → IsBelow IsWithin (Some a) (joined x y) }
    ensures second { (b x y : Estimate) → IsNumber b → IsNumber x → IsNumber y → IsSettled b → IsWithin b y
        → IsBelow IsWithin (Some b) (joined x y) }
{}

/// Not each normal form is settled: joined to itself, one that isn't is better known. Nothing to run.
pub fn normal_forms_may_be_unsettled()
    ensures normal { normal (record { ones = 0; unknown = 11 }) (from_to 3 7) no_tails ≡ Some three_by_range }
    ensures unsettled { ¬ (IsBelow IsWithin (Some three_by_range) (joined three_by_range three_by_range)) }
{}
