//! Whether a potential falls on an edge.
ghost use Rattle.std.specs.Prelude.{◌≡◌, ◌↔◌, ◌<◌, ◌≤◌, ◌^◌, pos, ◌≤ℤ◌, ◌-ℤ◌, IsTrue, IfSome, Some, None, List};
ghost use Rattle.std.specs.Prelude.{unsigned_abs, length, map, zip};
ghost use Rattle.potentials.specs.Least.{least_of};
ghost use Rattle.potential_edges.specs.declared.rest.Rest.{Rest as TheRest};
ghost use Rattle.label_potentials.specs.Views.{potential_of};
ghost use Rattle.potential_edges.specs.Edges as rules;
ghost use Rattle.potential_edges.specs.Edges.{rest_in, IsDifference, FallsBy, Falls};

use crate::rest::rest_of;
use crate::source::writes_one;
use abstract_state::state::AbsState;
use bpf_words::instruction::Insn;
use label_potentials::counted::is_whole;
use label_potentials::positive::{is_above, nothing};
use label_potentials::potential::{Potential, term_at};
use potentials::{Form, Weighed};
use tracked_state::state::TrackedState;

/// A potential before an edge less one behind it: a constant, and what is weighed.
#[derive(Clone, Copy)]
pub struct Difference {
    pub constant: i128,
    pub weighed: [Weighed; 8],
}

/// A potential has eight terms: nothing to run.
fn has_eight(potential: &Potential)
    ensures { length potential.now.less ≡ 8 }
{
    let _term = potential.less[0];
}

/// A constant less another.
fn constant_less(one: i64, other: i64) -> i128
    ensures value { result ≡ one -ℤ other }
    ensures small { unsigned_abs result ≤ 2 ^ 65 }
{
    i128::from(one) - i128::from(other)
}

/// What each byte has, less what it has in another potential.
fn byte_less(one: i32, other: i32) -> i64
    ensures { result ≡ one -ℤ other }
{
    i64::from(one) - i64::from(other)
}

/// A potential before an edge less one behind it, by what is known of both.
fn compared(
    state: &TrackedState,
    insn: &Insn,
    behind: &AbsState,
    first: &Potential,
    second: &Potential,
) -> Option<Difference>
    ensures known { IfSome result (λ difference.
        IsDifference state.now insn.now behind.now first.now second.now difference) }
    ensures room { IfSome result (λ difference. unsigned_abs difference.constant < 2 ^ 100) }
    ensures unknown { result ≡ None → (rests : List TheRest)
        → map (rest_in state.now insn.now behind.now) (zip first.now.less second.now.less) ≡ map Some rests → ⊥ }
{
    has_eight(first);
    has_eight(second);
    let mut constant = constant_less(first.constant, second.constant);
    let mut weighed = [nothing(); 8];
    for i in 0..8 {
        let before = term_at(&first.less, i);
        let after = term_at(&second.less, i);
        let rest = rest_of(state, insn, behind, &before, &after)?;
        weighed[i] = rest.less;
        constant += rest.more;
    }
    Some(Difference { constant, weighed })
}

/// Whether the difference of two potentials is at least 1.
fn is_more(state: &AbsState, first: &Potential, second: &Potential, difference: &Difference) -> bool
    requires { unsigned_abs difference.now.constant < 2 ^ 100 }
    ensures { IsTrue result ↔ pos 1 ≤ℤ least_of (rules.form_with first.now second.now difference.now.constant)
        difference.now.weighed state.now.bounds.text state.now.bounds.link }
{
    let form = Form {
        constant: difference.constant,
        per_byte: byte_less(first.per_byte, second.per_byte),
        per_link_byte: byte_less(first.per_link_byte, second.per_link_byte),
    };
    is_above(state, &form, &difference.weighed)
}

/// Whether the second potential behind an edge is less than the first before it, by what is known of both.
pub fn falls(
    state: &TrackedState,
    insn: &Insn,
    behind: &AbsState,
    first: &Potential,
    second: &Potential,
) -> bool
    ensures rule { IsTrue result ↔ FallsBy state.now insn.now behind.now first.now second.now }
    ensures sound { IsTrue result
        → Falls state.now insn.now behind.now (potential_of first.now) (potential_of second.now) }
{
    is_whole(&state.state);
    is_whole(behind);
    has_eight(first);
    has_eight(second);
    writes_one(insn);
    match compared(state, insn, behind, first, second) {
        Some(difference) => is_more(&state.state, first, second, &difference),
        None => false,
    }
}
