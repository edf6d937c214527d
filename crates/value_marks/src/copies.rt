//! Marks where they are kept at all: without them nothing is copied, and nothing is asked.
ghost use Rattle.std.specs.Prelude.{◌≡◌, ℕ, ℤ, ◌+◌, Option, Some, None, Ok, IfOk, option_map, option_and_then};
ghost use Rattle.semantics.specs.State.{State};
ghost use Rattle.semantics.specs.Step.{On};
ghost use Rattle.abstract_state.specs.Lent.{Lengths};
ghost use Rattle.abstract_state.specs.State.{Span, lengths_of, Contains, WithinState, does};
ghost use Rattle.abstract_state.specs.Steps.{after};
ghost use Rattle.abstract_state.specs.Situation.{Situation, IsSituation, IsSituationIn, Flows, situation_of};
ghost use Rattle.value_marks.specs.Marking.{Marking, marking_of, followed, no_marks};
ghost use Rattle.value_marks.specs.Copies as rules;
ghost use Rattle.value_marks.specs.Copies.{AreMarking, Bear, LieBelow};

use crate::marks::Marks;
use crate::telling::sides_tell;
use abstract_state::state::AbsState;
use abstract_state::step::Flow;
use bpf_words::instruction::{Insn, Operand};
use bpf_words::register::Register;
use std::alloc::{AllocError, Global};

/// Which values are copies of one another, where that is followed.
#[derive(Drop)]
pub struct Copies {
    pub marks: Option<Box<Marks>>,
}

impl Copies {
    /// Copies aren't followed.
    pub fn untracked() -> Copies
        ensures { rules.kept result ≡ None }
    {
        Copies { marks: None }
    }

    /// No value is known as a copy yet.
    pub fn tracked(alloc: Global) -> Result<Copies, AllocError>
        ensures rule { IfOk result (λ c. AreMarking (rules.kept c) (Some no_marks)) }
        ensures below { IfOk result (λ c. LieBelow 0 (rules.kept c)) }
    {
        let marks = Box::new(alloc, Marks::none())?;
        Ok(Copies { marks: Some(marks) })
    }

    /// The same once more.
    pub fn copy(&self, alloc: Global) -> Result<Copies, AllocError>
        ensures { IfOk result (λ c. rules.kept c ≡ rules.kept self.now) }
    {
        let Some(marks) = &self.marks else {
            return Ok(Copies { marks: None });
        };
        let marks = Box::new(alloc, **marks)?;
        Ok(Copies { marks: Some(marks) })
    }

    /// Notes what the instruction at a slot copies, by what is known before it.
    pub fn follow(&mut self, at: usize, insn: &Insn, known: &AbsState)
        ensures rule { (o : Option Marking) → AreMarking (rules.kept self.old) o
            → AreMarking (rules.kept self.new) (option_map (followed at insn.now (situation_of known.now)) o) }
        ensures below { LieBelow at (rules.kept self.old) → LieBelow (at + 1) (rules.kept self.new) }
        ensures sound { (span : Span) (s next : State) (far : ℤ) → Contains known.now (lengths_of span) s
            → LieBelow at (rules.kept self.old) → Bear (rules.kept self.old) s → does span s insn.now ≡ Ok (On next far)
            → Bear (rules.kept self.new) next }
    {
        let Some(mut marks) = self.marks.take() else {
            return;
        };
        marks.follow(at, insn, known);
        self.marks = Some(marks);
    }

    /// Keeps the marks that another way has too.
    pub fn join(&mut self, other: &Copies)
        ensures left { (s : State) → Bear (rules.kept self.old) s → Bear (rules.kept self.new) s }
        ensures right { (s : State) → Bear (rules.kept other.now) s → Bear (rules.kept self.new) s }
        ensures below { (k : ℕ) → LieBelow k (rules.kept self.old) → LieBelow k (rules.kept self.new) }
        ensures rule { (v w : Option Marking) → AreMarking (rules.kept self.old) v → AreMarking (rules.kept other.now) w
            → AreMarking (rules.kept self.new) (rules.joined_copies v w) }
    {
        let Some(mut marks) = self.marks.take() else {
            return;
        };
        let Some(others) = &other.marks else {
            return;
        };
        marks.join(others);
        self.marks = Some(marks);
    }

    /// Both sides of a comparison tell their copies what is known of them on an edge.
    pub fn tell(&self, state: &mut AbsState, left: Register, right: &Operand) -> Flow
        ensures sound { (lengths : Lengths) (s : State) → Bear (rules.kept self.now) s → Contains state.old lengths s
            → WithinState (after result state.new) lengths s }
        ensures rule { (was : Situation) → IsSituation state.old was
            → Flows (rules.copies_tell left right.now (option_map marking_of (rules.kept self.now)) was) result
            state.new }
        ensures untracked { rules.kept self.now ≡ None → after result state.new ≡ Some state.old }
    {
        let Some(marks) = &self.marks else {
            return Flow::Live;
        };
        sides_tell(state, marks, left, right)
    }

    /// The edge of a comparison, with what the copies of its sides learn.
    pub fn tell_edge(
        &self,
        edge: Option<AbsState>,
        left: Register,
        right: &Operand,
    ) -> Option<AbsState>
        ensures sound { (lengths : Lengths) (s : State) → Bear (rules.kept self.now) s → WithinState edge lengths s
            → WithinState result lengths s }
        ensures rule { (was : Option Situation) → IsSituationIn edge was
            → IsSituationIn result
            (option_and_then (rules.copies_tell left right.now (option_map marking_of (rules.kept self.now))) was) }
        ensures untracked { rules.kept self.now ≡ None → result ≡ edge }
    {
        let Some(mut state) = edge else {
            return None;
        };
        match self.tell(&mut state, left, right) {
            Flow::Live => Some(state),
            Flow::Dead => None,
        }
    }
}
