//! Comparisons: what is known on either edge.
ghost use Rattle.std.specs.Prelude.{◌≡◌, ◌≢◌, ◌⊎◌, IfErr, [], ◌∷◌, ℕ, true, false, ◌+◌, ◌%◌, ◌^◌, ◌<◌, ◌≤◌, Option};
ghost use Rattle.std.specs.Prelude.{Some, Ok, IfSome, IfOk, IsOk, IsTrue, ◌↔◌};
ghost use Rattle.bpf_words.specs.declared.instruction.Width.TheVariants.{Narrow, Full};
ghost use Rattle.semantics.specs.State.{State, register_of, operand_in};
ghost use Rattle.semantics.specs.Value.{cut, holds_of};
ghost use Rattle.std.specs.Int.{cast_unsigned, w64};
ghost use Rattle.abstract_state.specs.Lent.{Lengths, base_of, bound_of, tail_of};
ghost use Rattle.abstract_state.specs.declared.region.Region.{Region};
ghost use Rattle.abstract_state.specs.Quantity.{Contains as ContainsNumber};
ghost use Rattle.abstract_state.specs.Known.{ContainsKnown, IsNumber};
ghost use Rattle.abstract_state.specs.Kinds.{HasNumberAt, HasNumberIn, KeepsAll, AreNumbersOn};
ghost use Rattle.abstract_state.specs.State.{Contains, WithinState, register_at};
ghost use Rattle.abstract_state.specs.Branch.{WithinPair, IsOrder, ReadsAs, Edge, LongFrom, LeavesSides};
ghost use Rattle.abstract_state.specs.Relation.{EndsFrom};
ghost use Rattle.abstract_state.specs.Exact.{Fact, Says, Holds};
ghost use Rattle.abstract_state.specs.declared.state.AbsReg.TheVariants.{Unset, Set};
ghost use Rattle.abstract_state.specs.Guard.{Writes, SameMemory, LengthensMemory};
ghost use Rattle.abstract_state.specs.Steps.{after};
ghost use Rattle.abstract_state.specs.Unset.{HasUnset};
ghost use Rattle.bpf_words.specs.Flow.{read_operand};
ghost use Rattle.std.specs.Prelude.{option_map};
ghost use Rattle.abstract_state.specs.Estimate.{estimate_of, constant};
ghost use Rattle.abstract_state.specs.Comparing.{told_on};
ghost use Rattle.abstract_state.specs.Addresses.{content_of, answer_of};
ghost use Rattle.abstract_state.specs.Situation.{registers_of, situation_of, put, Flows, IsSituation, AnswersStep};
ghost use Rattle.abstract_state.specs.Edges as rules;
ghost use Rattle.abstract_state.specs.Edges.{both_of};

use crate::address::LentAddress;
use crate::known::Known;
use crate::quantity::Quantity;
use crate::refusal::Refusal;
use crate::relation::{Sides, edge};
use crate::state::{AbsState, extended};
use crate::step::Flow;
use bpf_words::instruction::{Comparison, Operand, Width};
use bpf_words::register::Register;

/// What is known of the two sides of a comparison.
#[derive(Clone, Copy)]
pub struct Pair {
    pub left: Known,
    pub right: Known,
}

/// The states after a comparison, `None` where no run goes that way.
#[derive(Clone, Copy)]
pub struct Edges {
    pub taken: Option<AbsState>,
    pub untaken: Option<AbsState>,
}

/// Whether a test asks for the order of its sides without sign, or whether they are equal.
fn is_order(comparison: Comparison) -> bool
    ensures order { IsTrue result ↔ IsOrder comparison }
    ensures rule { result ≡ rules.is_order comparison }
{
    match comparison {
        Comparison::Equal
        | Comparison::NotEqual
        | Comparison::Greater
        | Comparison::GreaterOrEqual
        | Comparison::Less
        | Comparison::LessOrEqual => true,
        _ => false,
    }
}

/// Both sides on an edge of a comparison of two numbers.
fn numbers_on(
    width: Width,
    comparison: Comparison,
    taken: bool,
    x: Quantity,
    y: Quantity,
) -> Option<Pair>
    ensures sound { (lengths : Lengths) (m n : ℕ) → ContainsNumber x lengths m → ContainsNumber y lengths n
        → holds_of comparison width (cut width m) (cut width n) ≡ taken → WithinPair result lengths m n }
    ensures numbers { AreNumbersOn result }
    ensures rule { option_map both_of result
        ≡ option_map rules.two_numbers (told_on width comparison taken (estimate_of x) (estimate_of y)) }
{
    let Some(sides) = edge(width, comparison, taken, x, y) else {
        return None;
    };
    Some(Pair {
        left: Known::Number(sides.left),
        right: Known::Number(sides.right),
    })
}

/// An address of which more is known.
fn narrowed(address: LentAddress, offset: Quantity) -> Known
    requires { offset.range.high ≤ address.offset.range.high }
    ensures sound { (lengths : Lengths) (n x : ℕ) → n ≡ base_of address.region + x → ContainsNumber offset lengths x
        → ContainsKnown result lengths n }
    ensures ends { (region : Region) (n : ℕ) → EndsFrom region n offset → LongFrom region n result }
    ensures rule { content_of result ≡ rules.InRegion address.region (estimate_of offset) }
{
    Known::Lent(LentAddress {
        region: address.region,
        offset,
    })
}

/// Both sides on an edge of a comparison of two addresses in one lent region.
fn addresses_on(comparison: Comparison, taken: bool, x: LentAddress, y: LentAddress) -> Option<Pair>
    requires order { IsOrder comparison }
    requires region { x.region ≡ y.region }
    ensures sound { (lengths : Lengths) (m n : ℕ) → ContainsKnown (Known.Lent x) lengths m
        → ContainsKnown (Known.Lent y) lengths n → holds_of comparison Full (cut Full m) (cut Full n) ≡ taken
        → WithinPair result lengths m n }
    ensures guards { (region : Region) → comparison ≡ Comparison.Greater → taken ≡ false → (t : ℕ)
        → tail_of y.offset.tails region ≡ Some t → IfSome result (λ p. LongFrom region x.offset.range.low p.left) }
    ensures rule { option_map both_of result
        ≡ option_map (rules.two_addresses x.region)
        (told_on Full comparison taken (estimate_of x.offset) (estimate_of y.offset)) }
{
    let Some(sides) = edge(Width::Full, comparison, taken, x.offset, y.offset) else {
        return None;
    };
    Some(Pair {
        left: narrowed(x, sides.left),
        right: narrowed(y, sides.right),
    })
}

/// Both sides on an edge of a comparison.
#[tactic(auto, unfolding(crate::specs::Edges::sides_on))]
fn pair_on(
    width: Width,
    comparison: Comparison,
    taken: bool,
    a: Known,
    b: Known,
) -> Result<Option<Pair>, Refusal>
    ensures sound { IfOk result (λ o. (lengths : Lengths) (m n : ℕ) → ContainsKnown a lengths m
        → ContainsKnown b lengths n → holds_of comparison width (cut width m) (cut width n) ≡ taken
        → WithinPair o lengths m n) }
    ensures regions { (p q : LentAddress) → width ≡ Full → IsOrder comparison → a ≡ Known.Lent p → b ≡ Known.Lent q
        → p.region ≡ q.region → IsOk result }
    ensures guards { (p q : LentAddress) (t : ℕ) → width ≡ Full → comparison ≡ Comparison.Greater → taken ≡ false
        → a ≡ Known.Lent p → b ≡ Known.Lent q → p.region ≡ q.region → tail_of q.offset.tails p.region ≡ Some t
        → IfOk result (λ o. IfSome o (λ sides. LongFrom p.region p.offset.range.low sides.left)) }
    ensures floor { IsNumber a → IsNumber b → IsOk result }
    ensures numbers { IsNumber a → IsNumber b → IfOk result (λ o. AreNumbersOn o) }
    ensures not_unset { IfErr result (λ e. e ≢ Refusal.UnsetRegister) }
    ensures rule { answer_of (option_map both_of) result
        ≡ rules.sides_on width comparison taken (content_of a) (content_of b) }
{
    match (a, b, width) {
        (Known::Number(x), Known::Number(y), _) => Ok(numbers_on(width, comparison, taken, x, y)),
        (Known::Lent(x), Known::Lent(y), Width::Full) => {
            if x.region == y.region && is_order(comparison) {
                Ok(addresses_on(comparison, taken, x, y))
            } else {
                Err(Refusal::PointerCompare)
            }
        }
        _ => Err(Refusal::PointerCompare),
    }
}

/// Whether both sides are one register.
fn is_one_register(left: Register, right: &Operand) -> bool
    ensures apart { (r : ℕ) → right.now ≡ Operand.Source r → left ≢ r → result ≡ false }
    ensures rule { result ≡ rules.is_register left right.now }
{
    match *right {
        Operand::Source(register) => register.index() == left.index(),
        Operand::Immediate(_) => false,
    }
}

/// What is known before the comparison, where that is to stay.
fn unless(same: bool, pair: Option<Pair>, a: Known, b: Known) -> Option<Pair>
    ensures sound { (lengths : Lengths) (m n : ℕ) → ContainsKnown a lengths m → ContainsKnown b lengths n
        → WithinPair pair lengths m n → WithinPair result lengths m n }
    ensures apart { same ≡ false → result ≡ pair }
    ensures numbers { IsNumber a → IsNumber b → AreNumbersOn pair → AreNumbersOn result }
    ensures rule { option_map both_of result
        ≡ rules.unless same (rules.two (content_of a) (content_of b)) (option_map both_of pair) }
{
    if same {
        return Some(Pair { left: a, right: b });
    }
    pair
}

/// An immediate as a comparison of the width reads it.
fn compared(width: Width, value: i32) -> Quantity
    ensures contains { (lengths : Lengths) → (n : ℕ) × (cut width n ≡ cut width (cast_unsigned w64 value))
        × ContainsNumber result lengths n }
    ensures rule { estimate_of result ≡ rules.compared width value }
{
    let value = extended(value);
    match width {
        Width::Full => Quantity::constant(value),
        Width::Narrow => Quantity::constant(value % (1 << 32)),
    }
}

/// What is known, if a run can come there.
fn live(flow: Flow, state: &AbsState) -> Option<AbsState>
    ensures { result ≡ after flow state.now }
{
    match flow {
        Flow::Live => Some(*state),
        Flow::Dead => None,
    }
}

impl AbsState {
    /// The right side of a comparison.
    fn right_side(&self, width: Width, right: &Operand) -> Result<Known, Refusal>
        ensures sound { IfOk result (λ k. (lengths : Lengths) (s : State) → Contains self.now lengths s
            → (n : ℕ)
            × ((r : ℕ) × (operand_in s right.now ≡ Ok n) × (cut width r ≡ cut width n) × ReadsAs s right.now r
            × ContainsKnown k lengths r)) }
        ensures holds { (r : ℕ) (fact : Fact) → right.now ≡ Operand.Source r
            → Holds fact (register_at self.now.registers r) → IsOk result × IfOk result (λ k. Says fact k) }
        ensures floor { HasNumberIn self.now right.now → IsOk result }
        ensures numbers { HasNumberIn self.now right.now → IfOk result (λ k. IsNumber k) }
        ensures unset { IfErr result (λ e. (e ≡ Refusal.UnsetRegister) × HasUnset self.now (read_operand right.now)) }
        ensures set { IfOk result (λ _. HasUnset self.now (read_operand right.now) → ⊥) }
        ensures rule { answer_of content_of result
            ≡ rules.right_side width (registers_of self.now.registers) right.now }
    {
        match *right {
            Operand::Immediate(value) => Ok(Known::Number(compared(width, value))),
            Operand::Source(register) => self.read(register),
        }
    }

    /// Notes what more is known of a register.
    fn keep(&mut self, register: Register, known: Known)
        ensures sound { (lengths : Lengths) (s : State) (n : ℕ) → Contains self.old lengths s
            → register_of s register ≡ Ok n → ContainsKnown known lengths n → Contains self.new lengths s }
        ensures others { Writes register self.old self.new }
        ensures memory { SameMemory self.old self.new }
        ensures kinds { HasNumberAt self.old register → IsNumber known → KeepsAll self.old self.new }
        ensures rule { IsSituation self.new (put register (content_of known) (situation_of self.old)) }
    {
        self.put(register, known);
    }

    /// Notes what more is known of a right side.
    fn keep_right(&mut self, right: &Operand, known: Known)
        ensures sound { (lengths : Lengths) (s : State) (n : ℕ) → Contains self.old lengths s → ReadsAs s right.now n
            → ContainsKnown known lengths n → Contains self.new lengths s }
        ensures others { (i : ℕ) → (right.now ≡ Operand.Source i → ⊥)
            → register_at self.new.registers i ≡ register_at self.old.registers i }
        ensures set { (i : ℕ) → (right.now ≡ Operand.Source i) ⊎ (register_at self.old.registers i ≢ Unset)
            → register_at self.new.registers i ≢ Unset }
        ensures memory { SameMemory self.old self.new }
        ensures kinds { HasNumberIn self.old right.now → IsNumber known → KeepsAll self.old self.new }
        ensures rule { IsSituation self.new (rules.put_right right.now (content_of known) (situation_of self.old)) }
    {
        if let Operand::Source(register) = *right {
            self.keep(register, known);
        }
    }

    /// Notes that lent regions are as long as a side says.
    #[tactic(auto, unfolding(crate::specs::Edges::raised))]
    fn raise(&mut self, known: Known) -> Flow
        ensures sound { (lengths : Lengths) (s : State) (n : ℕ) → Contains self.old lengths s
            → ContainsKnown known lengths n → WithinState (after result self.new) lengths s }
        ensures same { self.new.registers ≡ self.old.registers }
        ensures stack { IfSome (after result self.new) (λ b. b.stack ≡ self.old.stack) }
        ensures raised { (region : Region) (n : ℕ) → LongFrom region n known
            → IfSome (after result self.new) (λ b. n ≤ bound_of b.bounds region) }
        ensures grows { (region : Region) → IfSome (after result self.new)
            (λ b. bound_of self.old.bounds region ≤ bound_of b.bounds region) }
        ensures rule { Flows (rules.raised (content_of known) (situation_of self.old)) result self.new }
    {
        match known {
            Known::Number(quantity) => self.lengthen(quantity),
            Known::Lent(address) => self.lengthen(address.offset),
            Known::Context(_) => Flow::Live,
            Known::Stack(_) => Flow::Live,
        }
    }

    /// Notes that lent regions are as long as a quantity says.
    #[tactic(auto, unfolding(crate::specs::Situation::lengthened))]
    fn lengthen(&mut self, quantity: Quantity) -> Flow
        ensures sound { (lengths : Lengths) (s : State) (x : ℕ) → Contains self.old lengths s
            → ContainsNumber quantity lengths x → WithinState (after result self.new) lengths s }
        ensures same { self.new.registers ≡ self.old.registers }
        ensures stack { IfSome (after result self.new) (λ b. b.stack ≡ self.old.stack) }
        ensures raised { (region : Region) (n : ℕ) → EndsFrom region n quantity
            → IfSome (after result self.new) (λ b. n ≤ bound_of b.bounds region) }
        ensures grows { (region : Region) → IfSome (after result self.new)
            (λ b. bound_of self.old.bounds region ≤ bound_of b.bounds region) }
        ensures rule { Flows (rules.lengthened (estimate_of quantity) (situation_of self.old)) result self.new }
    {
        let Some(bounds) = self.bounds.raise(quantity) else {
            return Flow::Dead;
        };
        self.bounds = bounds;
        Flow::Live
    }

    /// Notes what is known on an edge.
    fn refine(&mut self, left: Register, right: &Operand, pair: Option<Pair>) -> Flow
        ensures sound { (lengths : Lengths) (s : State) (m n : ℕ) → Contains self.old lengths s
            → register_of s left ≡ Ok m → ReadsAs s right.now n → WithinPair pair lengths m n
            → WithinState (after result self.new) lengths s }
        ensures others { IfSome (after result self.new) (λ b. LeavesSides left right.now self.old b) }
        ensures memory { IfSome (after result self.new) (λ b. LengthensMemory self.old b) }
        ensures raised { (region : Region) (n : ℕ) → IfSome pair (λ p. LongFrom region n p.left)
            → IfSome (after result self.new) (λ b. n ≤ bound_of b.bounds region) }
        ensures kinds { HasNumberAt self.old left → HasNumberIn self.old right.now → AreNumbersOn pair
            → IfSome (after result self.new) (λ b. KeepsAll self.old b) }
        ensures rule { Flows (rules.refined left right.now (option_map both_of pair) (situation_of self.old)) result
            self.new }
    {
        let Some(pair) = pair else {
            return Flow::Dead;
        };
        self.keep(left, pair.left);
        self.keep_right(right, pair.right);
        match self.raise(pair.left) {
            Flow::Live => self.raise(pair.right),
            Flow::Dead => Flow::Dead,
        }
    }

    /// Whether the sides of a comparison alone tell that no run goes along an edge: then no state is made for it.
    pub fn is_dead_edge(
        &self,
        width: Width,
        comparison: Comparison,
        left: Register,
        right: &Operand,
        taken: bool,
    ) -> bool
        ensures sound { IsTrue result → Edge self.now width comparison left right.now taken None }
        ensures rule { IsTrue result
            → rules.edge width comparison left right.now taken (situation_of self.now) ≡ Ok None }
    {
        let (Ok(a), Ok(b)) = (self.read(left), self.right_side(width, right)) else {
            return false;
        };
        match pair_on(width, comparison, taken, a, b) {
            Ok(None) => !is_one_register(left, right),
            _ => false,
        }
    }

    /// Goes along the edge where the comparison holds, or along the other.
    pub fn take_edge(
        &mut self,
        width: Width,
        comparison: Comparison,
        left: Register,
        right: &Operand,
        taken: bool,
    ) -> Result<Flow, Refusal>
        ensures sound { IfOk result (λ flow. Edge self.old width comparison left right.now taken
            (after flow self.new)) }
        ensures others { IfOk result (λ flow. IfSome (after flow self.new)
            (λ b. LeavesSides left right.now self.old b)) }
        ensures memory { IfOk result (λ flow. IfSome (after flow self.new) (λ b. LengthensMemory self.old b)) }
        ensures regions { (r : ℕ) (p q : LentAddress) → right.now ≡ Operand.Source r → width ≡ Full → IsOrder comparison
            → register_at self.old.registers left ≡ Set (Known.Lent p)
            → register_at self.old.registers r ≡ Set (Known.Lent q) → p.region ≡ q.region → IsOk result }
        ensures guards { (r t : ℕ) (p q : LentAddress) → right.now ≡ Operand.Source r → left ≢ r → width ≡ Full
            → comparison ≡ Comparison.Greater → taken ≡ false
            → register_at self.old.registers left ≡ Set (Known.Lent p)
            → register_at self.old.registers r ≡ Set (Known.Lent q) → p.region ≡ q.region
            → tail_of q.offset.tails p.region ≡ Some t
            → IfOk result (λ flow.
            IfSome (after flow self.new) (λ b. p.offset.range.low ≤ bound_of b.bounds p.region)) }
        ensures floor { HasNumberAt self.old left → HasNumberIn self.old right.now → IsOk result }
        ensures kinds { HasNumberAt self.old left → HasNumberIn self.old right.now
            → IfOk result (λ flow. IfSome (after flow self.new) (λ b. KeepsAll self.old b)) }
        ensures unset { IfErr result (λ e. (e ≡ Refusal.UnsetRegister)
            ↔ HasUnset self.old (left ∷ read_operand right.now)) }
        ensures set { IfOk result (λ _. HasUnset self.old (left ∷ read_operand right.now) → ⊥) }
        ensures rule { AnswersStep (rules.edge width comparison left right.now taken (situation_of self.old)) result
            self.new }
    {
        let a = self.read(left)?;
        let b = self.right_side(width, right)?;
        let pair = pair_on(width, comparison, taken, a, b)?;
        let same = is_one_register(left, right);
        let pair = unless(same, pair, a, b);
        Ok(self.refine(left, right, pair))
    }

    /// The states after a comparison that holds, and after one that doesn't.
    pub fn branch(
        &self,
        width: Width,
        comparison: Comparison,
        left: Register,
        right: &Operand,
    ) -> Result<Edges, Refusal>
        ensures taken { IfOk result (λ edges. Edge self.now width comparison left right.now true edges.taken) }
        ensures untaken { IfOk result (λ edges. Edge self.now width comparison left right.now false edges.untaken) }
        ensures taken_others { IfOk result (λ edges. IfSome edges.taken (λ b. LeavesSides left right.now self.now b)) }
        ensures untaken_others { IfOk result (λ edges. IfSome edges.untaken
            (λ b. LeavesSides left right.now self.now b)) }
        ensures taken_memory { IfOk result (λ edges. IfSome edges.taken (λ b. LengthensMemory self.now b)) }
        ensures untaken_memory { IfOk result (λ edges. IfSome edges.untaken (λ b. LengthensMemory self.now b)) }
        ensures regions { (r : ℕ) (p q : LentAddress) → right.now ≡ Operand.Source r → width ≡ Full → IsOrder comparison
            → register_at self.now.registers left ≡ Set (Known.Lent p)
            → register_at self.now.registers r ≡ Set (Known.Lent q) → p.region ≡ q.region → IsOk result }
        ensures guards { (r t : ℕ) (p q : LentAddress) → right.now ≡ Operand.Source r → left ≢ r → width ≡ Full
            → comparison ≡ Comparison.Greater → register_at self.now.registers left ≡ Set (Known.Lent p)
            → register_at self.now.registers r ≡ Set (Known.Lent q) → p.region ≡ q.region
            → tail_of q.offset.tails p.region ≡ Some t
            → IfOk result (λ edges. IfSome edges.untaken (λ b. p.offset.range.low ≤ bound_of b.bounds p.region)) }
        ensures floor { HasNumberAt self.now left → HasNumberIn self.now right.now → IsOk result }
        ensures taken_kinds { HasNumberAt self.now left → HasNumberIn self.now right.now
            → IfOk result (λ edges. IfSome edges.taken (λ b. KeepsAll self.now b)) }
        ensures untaken_kinds { HasNumberAt self.now left → HasNumberIn self.now right.now
            → IfOk result (λ edges. IfSome edges.untaken (λ b. KeepsAll self.now b)) }
        ensures unset { IfErr result (λ e. (e ≡ Refusal.UnsetRegister)
            ↔ HasUnset self.now (left ∷ read_operand right.now)) }
        ensures set { IfOk result (λ _. HasUnset self.now (left ∷ read_operand right.now) → ⊥) }
        ensures rule { rules.AnswersBranch (rules.branched width comparison left right.now (situation_of self.now))
            result }
    {
        let mut taken = *self;
        let holds = taken.take_edge(width, comparison, left, right, true)?;
        let mut untaken = *self;
        let fails = untaken.take_edge(width, comparison, left, right, false)?;
        Ok(Edges {
            taken: live(holds, &taken),
            untaken: live(fails, &untaken),
        })
    }
}
