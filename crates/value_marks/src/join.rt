//! Marks where ways join.
ghost use Rattle.std.specs.Prelude.{◌≡◌, ℕ, ◌<◌, Option, Some, None, length};
ghost use Rattle.semantics.specs.State.{State};
ghost use Rattle.value_marks.specs.Mark.{mark_at};
ghost use Rattle.value_marks.specs.Marking as rules;
ghost use Rattle.value_marks.specs.Marking.{Marking, IsMarking, marking_of};
ghost use Rattle.value_marks.specs.Bearing.{AreBelow, Bears};

use crate::mark::Mark;
use crate::marks::Marks;
use bpf_words::instruction::Width;

fn same_width(a: Width, b: Width) -> bool
    ensures { result ≡ rules.same_width a b }
{
    match (a, b) {
        (Width::Narrow, Width::Narrow) => true,
        (Width::Full, Width::Full) => true,
        _ => false,
    }
}

/// The mark of a place that either way may lead to: the one that both have.
fn mark_of_both(a: &Option<Mark>, b: &Option<Mark>) -> Option<Mark>
    ensures { result ≡ rules.mark_of_both a.now b.now }
{
    let Some(m) = a else {
        return None;
    };
    let Some(n) = b else {
        return None;
    };
    if m.origin == n.origin && m.addend == n.addend && same_width(m.width, n.width) {
        Some(*m)
    } else {
        None
    }
}

fn join_registers(a: &mut [Option<Mark>; 11], b: &[Option<Mark>; 11])
    ensures rule { (i : ℕ) → i < 11 → mark_at a.new i ≡ rules.mark_of_both (mark_at a.old i) (mark_at b.now i) }
    ensures size { length a.new ≡ 11 }
{
    for i in 0..11 {
        a[i] = mark_of_both(&a[i], &b[i]);
    }
}

fn join_slots(a: &mut [Option<Mark>; 64], b: &[Option<Mark>; 64])
    ensures rule { (i : ℕ) → i < 64 → mark_at a.new i ≡ rules.mark_of_both (mark_at a.old i) (mark_at b.now i) }
    ensures size { length a.new ≡ 64 }
{
    for i in 0..64 {
        a[i] = mark_of_both(&a[i], &b[i]);
    }
}

impl Marks {
    /// Keeps the marks that another way has too.
    pub fn join(&mut self, other: &Marks)
        ensures left { (s : State) → Bears (marking_of self.old) s → Bears (marking_of self.new) s }
        ensures right { (s : State) → Bears (marking_of other.now) s → Bears (marking_of self.new) s }
        ensures below { (k : ℕ) → AreBelow k (marking_of self.old) → AreBelow k (marking_of self.new) }
        ensures rule { (v w : Marking) → IsMarking self.old v → IsMarking other.now w
            → IsMarking self.new (rules.joined v w) }
    {
        join_registers(&mut self.registers, &other.registers);
        join_slots(&mut self.slots, &other.slots);
    }
}
