//! Whether a potential is at least 1 in each state of the machine that an abstract state contains.
ghost use Rattle.std.specs.Prelude.{◌≡◌, ◌↔◌, ◌<◌, ◌^◌, pos, ◌≤ℤ◌, IsTrue, IfSome, Some, None, List, map, unsigned_abs};
ghost use Rattle.semantics.specs.State.{State};
ghost use Rattle.loop_labels.specs.Potential.{potential_at};
ghost use Rattle.potentials.specs.declared.Weighed.{Weighed as TheWeighed};
ghost use Rattle.potentials.specs.Least.{least_of};
ghost use Rattle.abstract_state.specs.State.{Span, lengths_of, Contains};
ghost use Rattle.label_potentials.specs.Views.{potential_of};
ghost use Rattle.label_potentials.specs.Weights.{weighed_in, no_weight, Weighs, form_of, IsPositive};

use crate::counted::{counted, is_whole};
use crate::potential::{Potential, Term, term_at};
use abstract_state::state::AbsState;
use potentials::{Form, Weighed};

/// What a term of weight 0 weighs.
pub fn nothing() -> Weighed
    ensures { result ≡ no_weight }
{
    Weighed {
        weight: 0,
        low: 0,
        high: 0,
        tail: None,
        link_tail: None,
    }
}

/// What is known of what a term weighs.
pub fn weighed_of(state: &AbsState, term: &Term) -> Option<Weighed>
    ensures rule { result ≡ weighed_in state.now term.now }
    ensures sound { IfSome result (λ weighed. Weighs state.now term.now weighed) }
{
    is_whole(state);
    if term.weight == 0 {
        return Some(nothing());
    }
    let quantity = counted(state, term.holder, term.base)?;
    Some(Weighed {
        weight: term.weight,
        low: quantity.range.low,
        high: quantity.range.high,
        tail: quantity.tails.text,
        link_tail: quantity.tails.link,
    })
}

/// What is known of what each term weighs.
fn weighed_each(state: &AbsState, terms: &[Term; 8]) -> Option<[Weighed; 8]>
    ensures known { IfSome result (λ weighed. map (weighed_in state.now) terms.now ≡ map Some weighed) }
    ensures unknown { result ≡ None → (weighed : List TheWeighed)
        → map (weighed_in state.now) terms.now ≡ map Some weighed → ⊥ }
{
    let mut weighed = [nothing(); 8];
    for i in 0..8 {
        let term = term_at(terms, i);
        weighed[i] = weighed_of(state, &term)?;
    }
    Some(weighed)
}

/// Whether a form is at least 1 at all values of which that is known.
pub fn is_above(state: &AbsState, form: &Form, weighed: &[Weighed; 8]) -> bool
    requires { unsigned_abs form.now.constant < 2 ^ 100 }
    ensures { IsTrue result ↔ pos 1 ≤ℤ least_of form.now weighed.now state.now.bounds.text state.now.bounds.link }
{
    let text = state.bounds.text as u32;
    let link = state.bounds.link as u32;
    potentials::falls(form, weighed, text, link)
}

/// Whether the potential is at least 1 at all values of which that is known.
fn is_enough(state: &AbsState, potential: &Potential, weighed: &[Weighed; 8]) -> bool
    ensures { IsTrue result ↔ pos 1 ≤ℤ least_of (form_of potential.now) weighed.now state.now.bounds.text
        state.now.bounds.link }
{
    let form = Form {
        constant: i128::from(potential.constant),
        per_byte: i64::from(potential.per_byte),
        per_link_byte: i64::from(potential.per_link_byte),
    };
    is_above(state, &form, weighed)
}

/// Whether a potential is at least 1, by what is known of what its terms weigh.
pub fn is_positive(state: &AbsState, potential: &Potential) -> bool
    ensures rule { IsTrue result ↔ IsPositive state.now potential.now }
    ensures sound { IsTrue result → (span : Span) (s : State) → Contains state.now (lengths_of span) s
        → pos 1 ≤ℤ potential_at span.bytes s (potential_of potential.now) }
{
    is_whole(state);
    match weighed_each(state, &potential.less) {
        Some(weighed) => is_enough(state, potential, &weighed),
        None => false,
    }
}
