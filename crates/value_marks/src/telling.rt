//! What a comparison that tells of one value tells of all that bear a mark of its origin.
ghost use Rattle.std.specs.Prelude.{◌≡◌, ◌≢◌, ℕ, ◌+◌, ◌*◌, ◌%◌, ◌^◌, ◌<◌, ◌≤◌, Option, Some, None, IfSome, option_map};
ghost use Rattle.std.specs.Prelude.{false, option_and_then, slice_index_or};
ghost use Rattle.value_marks.specs.declared.mark.Mark.{Mark as TheMark};
ghost use Rattle.semantics.specs.State.{State};
ghost use Rattle.semantics.specs.Value.{bits_of, cut, value_of};
ghost use Rattle.bpf_words.specs.declared.instruction.Arithmetic.TheVariants.{Add};
ghost use Rattle.abstract_state.specs.Lent.{Lengths};
ghost use Rattle.abstract_state.specs.Quantity.{Contains as ContainsNumber, Within as WithinNumber, Fits};
ghost use Rattle.abstract_state.specs.Known.{ContainsKnown, WithinKnown};
ghost use Rattle.abstract_state.specs.State.{Contains, WithinState, bytes_of, HasNumber};
ghost use Rattle.abstract_state.specs.Steps.{after};
ghost use Rattle.abstract_state.specs.Estimate.{estimate_of};
ghost use Rattle.abstract_state.specs.Addresses.{Content, content_of, InRegion};
ghost use Rattle.abstract_state.specs.Situation.{Situation, IsSituation, Flows, situation_of, put, lengthened};
ghost use Rattle.abstract_state.specs.Edges.{raised};
ghost use Rattle.value_marks.specs.Mark.{Agrees, mark_at};
ghost use Rattle.value_marks.specs.Marking.{marking_of};
ghost use Rattle.value_marks.specs.Bearing.{Bears, BearsBy};
ghost use Rattle.value_marks.specs.Telling as rules;

use crate::mark::Mark;
use crate::marks::Marks;
use abstract_state::address::LentAddress;
use abstract_state::known::{Known, number};
use abstract_state::quantity::Quantity;
use abstract_state::relation::edge;
use abstract_state::slot::Slot;
use abstract_state::stack::spill;
use abstract_state::state::{AbsReg, AbsState};
use abstract_state::step::Flow;
use abstract_state::transfer::greatest;
use bpf_words::instruction::{Comparison, Operand, Width};
use bpf_words::register::Register;
use span_context::profile::Profile;

/// What is known of a number that is so far ahead of another, modulo the width.
#[tactic(auto, unfolding(crate::specs::Telling::told))]
fn told(width: Width, ahead: u64, x: Quantity, y: Quantity) -> Option<Quantity>
    requires { ahead < 2 ^ bits_of width }
    ensures sound { (lengths : Lengths) (m n : ℕ) → ContainsNumber x lengths m → ContainsNumber y lengths n
        → cut width n ≡ cut width (m + ahead) → WithinNumber result lengths n }
    ensures within { IfSome result (λ q. q.range.high ≤ y.range.high) }
    ensures rule { option_map estimate_of result ≡ rules.told width ahead (estimate_of x) (estimate_of y) }
{
    let greatest = greatest(width);
    if x.range.high > greatest || y.range.high > greatest {
        return Some(y);
    }
    let Some(sum) = x.add(Profile::Three, Quantity::constant(ahead), width) else {
        return None;
    };
    let Some(sides) = edge(Width::Full, Comparison::Equal, true, y, sum) else {
        return None;
    };
    Some(sides.left)
}

/// What is known of an address that is so far ahead of another in its region, modulo the width.
fn told_address(width: Width, ahead: u64, x: LentAddress, y: LentAddress) -> Option<Known>
    requires fits { ahead < 2 ^ bits_of width }
    requires region { x.region ≡ y.region }
    ensures sound { (lengths : Lengths) (m n : ℕ) → ContainsKnown (Known.Lent x) lengths m
        → ContainsKnown (Known.Lent y) lengths n → cut width n ≡ cut width (m + ahead) → WithinKnown result lengths n }
    ensures rule { option_map content_of result
        ≡ option_map (InRegion y.region) (rules.told width ahead (estimate_of x.offset) (estimate_of y.offset)) }
{
    let Some(offset) = told(width, ahead, x.offset, y.offset) else {
        return None;
    };
    Some(Known::Lent(LentAddress {
        region: y.region,
        offset,
    }))
}

/// What is known of a value that is so far ahead of another, modulo the width.
#[tactic(auto, unfolding(crate::specs::Telling::told_content))]
fn told_known(width: Width, ahead: u64, x: Known, y: Known) -> Option<Known>
    requires { ahead < 2 ^ bits_of width }
    ensures sound { (lengths : Lengths) (m n : ℕ) → ContainsKnown x lengths m → ContainsKnown y lengths n
        → cut width n ≡ cut width (m + ahead) → WithinKnown result lengths n }
    ensures rule { option_map content_of result ≡ rules.told_content width ahead (content_of x) (content_of y) }
{
    match (x, y) {
        (Known::Number(x), Known::Number(y)) => number(told(width, ahead, x, y)),
        (Known::Lent(x), Known::Lent(y)) if x.region == y.region => {
            told_address(width, ahead, x, y)
        }
        _ => Some(y),
    }
}

/// What a place learns.
#[derive(Clone, Copy)]
pub enum Lesson {
    Nothing,
    More(Known),
    /// No run comes there.
    Never,
}

/// A register that tells: its mark, and what it holds.
#[derive(Clone, Copy)]
pub struct Teller {
    pub register: Register,
    pub mark: Mark,
    pub known: Known,
}

impl Teller {
    /// What a place of the same origin holds then.
    #[tactic(auto, unfolding(crate::specs::Telling::learned))]
    fn teach(&self, mark: Mark, known: Known) -> Option<Known>
        ensures sound { (lengths : Lengths) (origins : ℕ → ℕ) (m n : ℕ) → self.now.mark.origin ≡ mark.origin
            → ContainsKnown self.now.known lengths m → Agrees origins self.now.mark m
            → ContainsKnown known lengths n → Agrees origins mark n → WithinKnown result lengths n }
        ensures rule { option_map content_of result ≡ rules.learned (rules.teller_of self.now) mark (content_of known) }
    {
        let width = self.mark.common_width(mark);
        told_known(width, self.mark.distance_to(mark, width), self.known, known)
    }

    /// Whether a place with a mark may learn: only one of the same origin does.
    #[tactic(auto, unfolding(crate::specs::Telling::lesson))]
    fn is_heard(&self, mark: &Option<Mark>) -> bool
        ensures { result ≡ false → (content : Content)
            → rules.lesson (rules.teller_of self.now) mark.now content ≡ Some None }
    {
        match mark {
            Some(mark) => mark.origin == self.mark.origin,
            None => false,
        }
    }

    /// What a place with a mark learns.
    #[tactic(auto, unfolding(crate::specs::Telling::lesson))]
    fn lesson(&self, mark: Option<Mark>, known: Known) -> Lesson
        ensures sound { (lengths : Lengths) (origins : ℕ → ℕ) (n : ℕ) → rules.Tells self.now lengths origins
            → ContainsKnown known lengths n → ((m : TheMark) → mark ≡ Some m → Agrees origins m n)
            → rules.IsTrueOf result lengths n }
        ensures rule { rules.lesson_of result ≡ rules.lesson (rules.teller_of self.now) mark (content_of known) }
    {
        let Some(mark) = mark else {
            return Lesson::Nothing;
        };
        if mark.origin != self.mark.origin {
            return Lesson::Nothing;
        }
        match self.teach(mark, known) {
            Some(known) => Lesson::More(known),
            None => Lesson::Never,
        }
    }
}

/// Notes that lent regions are as long as a quantity says.
#[tactic(auto, unfolding(abstract_state::specs::Situation::lengthened))]
fn lengthen(state: &mut AbsState, quantity: Quantity) -> Flow
    ensures sound { (lengths : Lengths) (s : State) (x : ℕ) → Contains state.old lengths s
        → ContainsNumber quantity lengths x → WithinState (after result state.new) lengths s }
    ensures rule { Flows (lengthened (estimate_of quantity) (situation_of state.old)) result state.new }
{
    let Some(bounds) = state.bounds.raise(quantity) else {
        return Flow::Dead;
    };
    state.bounds = bounds;
    Flow::Live
}

/// Notes that lent regions are as long as a place says.
#[tactic(auto, unfolding(abstract_state::specs::Edges::raised))]
fn raise(state: &mut AbsState, known: Known) -> Flow
    ensures sound { (lengths : Lengths) (s : State) (n : ℕ) → Contains state.old lengths s
        → ContainsKnown known lengths n → WithinState (after result state.new) lengths s }
    ensures rule { Flows (raised (content_of known) (situation_of state.old)) result state.new }
{
    match known {
        Known::Number(quantity) => lengthen(state, quantity),
        Known::Lent(address) => lengthen(state, address.offset),
        Known::Context(_) => Flow::Live,
        Known::Stack(_) => Flow::Live,
    }
}

/// Notes what more is known of a register.
fn note_register(state: &mut AbsState, register: usize, known: Known) -> Flow
    requires { register < 11 }
    ensures sound { (lengths : Lengths) (s : State) (n : ℕ) → Contains state.old lengths s
        → slice_index_or s.registers register None ≡ Some n → ContainsKnown known lengths n
        → WithinState (after result state.new) lengths s }
    ensures rule { (was : Situation) → IsSituation state.old was
        → Flows (raised (content_of known) (put register (content_of known) was)) result state.new }
{
    state.registers[register] = AbsReg::Set(known);
    raise(state, known)
}

/// Notes what more is known of a slot of the stack.
fn note_slot(state: &mut AbsState, slot: usize, known: Known) -> Flow
    requires { slot < 64 }
    ensures sound { (lengths : Lengths) (s : State) (n : ℕ) → Contains state.old lengths s
        → HasNumber (bytes_of s.stack) (8 * slot) n → ContainsKnown known lengths n
        → WithinState (after result state.new) lengths s }
    ensures rule { (was : Situation) → IsSituation state.old was
        → Flows (raised (content_of known) (rules.fill slot (content_of known) was)) result state.new }
{
    spill(&mut state.stack, slot, known);
    raise(state, known)
}

impl Teller {
    /// Tells a register.
    #[tactic(auto, unfolding(crate::specs::Telling::register_hears, crate::specs::Telling::heard))]
    fn tell_register(&self, state: &mut AbsState, marks: &Marks, register: usize) -> Flow
        requires { register < 11 }
        ensures sound { (lengths : Lengths) (origins : ℕ → ℕ) (s : State) → rules.Tells self.now lengths origins
            → BearsBy origins (marking_of marks.now) s → Contains state.old lengths s
            → WithinState (after result state.new) lengths s }
        ensures rule { (was : Situation) → IsSituation state.old was
            → Flows (rules.register_hears (rules.teller_of self.now) (marking_of marks.now) register was) result
            state.new }
    {
        if register == self.register.index() {
            return Flow::Live;
        }
        if !self.is_heard(&marks.registers[register]) {
            return Flow::Live;
        }
        let AbsReg::Set(known) = state.registers[register] else {
            return Flow::Live;
        };
        match self.lesson(marks.registers[register], known) {
            Lesson::Nothing => Flow::Live,
            Lesson::More(known) => note_register(state, register, known),
            Lesson::Never => Flow::Dead,
        }
    }

    /// Tells a slot of the stack.
    #[tactic(auto, unfolding(crate::specs::Telling::slot_hears, crate::specs::Telling::heard))]
    fn tell_slot(&self, state: &mut AbsState, marks: &Marks, slot: usize) -> Flow
        requires { slot < 64 }
        ensures sound { (lengths : Lengths) (origins : ℕ → ℕ) (s : State) → rules.Tells self.now lengths origins
            → BearsBy origins (marking_of marks.now) s → Contains state.old lengths s
            → WithinState (after result state.new) lengths s }
        ensures rule { (was : Situation) → IsSituation state.old was
            → Flows (rules.slot_hears (rules.teller_of self.now) (marking_of marks.now) slot was) result state.new }
    {
        if !self.is_heard(&marks.slots[slot]) {
            return Flow::Live;
        }
        let Slot::Spilled(known) = state.stack[slot] else {
            return Flow::Live;
        };
        match self.lesson(marks.slots[slot], known) {
            Lesson::Nothing => Flow::Live,
            Lesson::More(known) => note_slot(state, slot, known),
            Lesson::Never => Flow::Dead,
        }
    }
    /// Tells each register.
    fn tell_registers(&self, state: &mut AbsState, marks: &Marks) -> Flow
        ensures sound { (lengths : Lengths) (origins : ℕ → ℕ) (s : State) → rules.Tells self.now lengths origins
            → BearsBy origins (marking_of marks.now) s → Contains state.old lengths s
            → WithinState (after result state.new) lengths s }
        ensures rule { (was : Situation) → IsSituation state.old was
            → Flows (rules.each (rules.register_hears (rules.teller_of self.now) (marking_of marks.now)) 11 was) result
            state.new }
    {
        for register in 0..11 {
            match self.tell_register(state, marks, register) {
                Flow::Live => {}
                Flow::Dead => return Flow::Dead,
            }
        }
        Flow::Live
    }

    /// Tells each slot of the stack.
    fn tell_slots(&self, state: &mut AbsState, marks: &Marks) -> Flow
        ensures sound { (lengths : Lengths) (origins : ℕ → ℕ) (s : State) → rules.Tells self.now lengths origins
            → BearsBy origins (marking_of marks.now) s → Contains state.old lengths s
            → WithinState (after result state.new) lengths s }
        ensures rule { (was : Situation) → IsSituation state.old was
            → Flows (rules.each (rules.slot_hears (rules.teller_of self.now) (marking_of marks.now)) 64 was) result
            state.new }
    {
        for slot in 0..64 {
            match self.tell_slot(state, marks, slot) {
                Flow::Live => {}
                Flow::Dead => return Flow::Dead,
            }
        }
        Flow::Live
    }

    /// Tells all.
    fn tell(&self, state: &mut AbsState, marks: &Marks) -> Flow
        ensures sound { (lengths : Lengths) (origins : ℕ → ℕ) (s : State) → rules.Tells self.now lengths origins
            → BearsBy origins (marking_of marks.now) s → Contains state.old lengths s
            → WithinState (after result state.new) lengths s }
        ensures rule { (was : Situation) → IsSituation state.old was
            → Flows (rules.all_hear (rules.teller_of self.now) (marking_of marks.now) was) result state.new }
    {
        match self.tell_registers(state, marks) {
            Flow::Live => self.tell_slots(state, marks),
            Flow::Dead => Flow::Dead,
        }
    }
}

/// A register tells what is known of it, if it bears a mark.
#[tactic(auto, unfolding(crate::specs::Telling::tells))]
fn register_tells(state: &mut AbsState, marks: &Marks, register: Register) -> Flow
    ensures sound { (lengths : Lengths) (s : State) → Bears (marking_of marks.now) s → Contains state.old lengths s
        → WithinState (after result state.new) lengths s }
    ensures rule { (was : Situation) → IsSituation state.old was
        → Flows (rules.register_tells register (marking_of marks.now) was) result state.new }
{
    let Some(mark) = marks.registers[register.index()] else {
        return Flow::Live;
    };
    let AbsReg::Set(known) = state.registers[register.index()] else {
        return Flow::Live;
    };
    let teller = Teller {
        register,
        mark,
        known,
    };
    teller.tell(state, marks)
}

/// The right side of a comparison tells, if it is a register.
#[tactic(auto, unfolding(crate::specs::Telling::operand_tells))]
fn operand_tells(state: &mut AbsState, marks: &Marks, right: &Operand) -> Flow
    ensures sound { (lengths : Lengths) (s : State) → Bears (marking_of marks.now) s → Contains state.old lengths s
        → WithinState (after result state.new) lengths s }
    ensures rule { (was : Situation) → IsSituation state.old was
        → Flows (rules.operand_tells right.now (marking_of marks.now) was) result state.new }
{
    match *right {
        Operand::Source(register) => register_tells(state, marks, register),
        Operand::Immediate(_) => Flow::Live,
    }
}

/// Both sides of a comparison tell what is known of them on an edge.
pub fn sides_tell(state: &mut AbsState, marks: &Marks, left: Register, right: &Operand) -> Flow
    ensures sound { (lengths : Lengths) (s : State) → Bears (marking_of marks.now) s → Contains state.old lengths s
        → WithinState (after result state.new) lengths s }
    ensures rule { (was : Situation) → IsSituation state.old was
        → Flows (rules.sides_tell left right.now (marking_of marks.now) was) result state.new }
{
    match register_tells(state, marks, left) {
        Flow::Live => operand_tells(state, marks, right),
        Flow::Dead => Flow::Dead,
    }
}
