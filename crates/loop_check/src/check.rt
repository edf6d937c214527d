//! Whether labels of a program hold, so that each run ends within the bound.
ghost use Rattle.std.specs.Prelude.{◌≡◌, ◌↔◌, ℕ, [], IsTrue, IfOk, IfErr};
ghost use Rattle.span_context.specs.declared.profile.Profile.TheVariants.{Three};
ghost use Rattle.bpf_words.specs.Words.{program_of};
ghost use Rattle.loop_labels.specs.Potential as law;
ghost use Rattle.loop_labels.specs.Bounded.{EndsWithin};
ghost use Rattle.loop_labels.specs.Labels.{Label as TheLabel, IsAmong, AreInductive};
ghost use Rattle.loop_labels.specs.Rules.{BeginsBy, IsKeptBy, AreInductiveBy};
ghost use Rattle.label_potentials.specs.Views.{potential_of, terms_of};
ghost use Rattle.loop_check.specs.declared.label.Label.{Label as Known};
ghost use Rattle.loop_check.specs.Labels.{labels_of, bound_of, HasForm};
ghost use Rattle.loop_check.specs.Rules.{contains, loop_rules};
ghost use Rattle.loop_check.specs.Meanings.{meanings};
ghost use Rattle.loop_check.specs.Leads.{IsKeptAt};
ghost use Rattle.loop_check.specs.Always.{BeginsAlways, KeepsAlwaysAt, HoldAlways};

use crate::kept::keep;
use crate::label::{Bound, Label};
use crate::leads::label_at;
use crate::refusal::{CheckError, Failure, LabelFault};
use bpf_words::words::Words;
use label_potentials::potential::{Potential, Term, term_at};
use loop_states::state::entry;
use loop_states::within::is_within;
use std::alloc::Global;

/// Whether terms weigh nothing.
fn weigh_nothing(terms: &[Term; 8]) -> bool
    ensures { IsTrue result ↔ (terms_of terms.now ≡ []) }
{
    for i in 0..8 {
        let term = term_at(terms, i);
        if term.weight != 0 {
            return false;
        }
    }
    true
}

/// Whether a potential is the bound, but for its terms.
fn has_form(potential: &Potential, bound: &Bound) -> bool
    ensures { IsTrue result ↔ HasForm potential.now bound.now }
{
    i128::from(potential.constant) == i128::from(bound.constant)
        && i64::from(potential.per_byte) == i64::from(bound.per_byte)
        && i64::from(potential.per_link_byte) == i64::from(bound.per_link_byte)
}

/// Whether a potential is the bound.
fn is_bound(potential: &Potential, bound: &Bound) -> bool
    ensures { IsTrue result ↔ (potential_of potential.now ≡ law.potential_of (bound_of bound.now)) }
{
    has_form(potential, bound) && weigh_nothing(&potential.less)
}

/// Whether the first label holds at each start, and its potential is the bound.
fn begin(alloc: Global, labels: &[Option<Label>], bound: &Bound) -> Result<(), Failure>
    ensures rule { IfOk result (λ _. BeginsBy loop_rules (labels_of labels.now) (bound_of bound.now)) }
    ensures sound { IfOk result (λ _. BeginsBy meanings (labels_of labels.now) (bound_of bound.now)) }
    ensures complete { BeginsAlways labels.now (bound_of bound.now)
        → IfErr result (λ failure. failure ≡ Failure.OutOfMemory) }
{
    let Some(first) = label_at(labels, 0) else {
        return Err(Failure::Fault(LabelFault::NotContained));
    };
    if !is_bound(&first.potential, bound) {
        return Err(Failure::Fault(LabelFault::NotTheBound));
    }
    let start = entry(alloc)?;
    if !is_within(&start, &first.state) {
        return Err(Failure::Fault(LabelFault::NotContained));
    }
    Ok(())
}

/// Whether the label at a slot is kept, if there is one.
fn keep_at(
    alloc: Global,
    words: &Words<'_>,
    labels: &[Option<Label>],
    slot: usize,
) -> Result<(), CheckError>
    ensures rule { IfOk result (λ _. IsKeptAt loop_rules (program_of words.now) labels.now slot) }
    ensures sound { IfOk result (λ _. IsKeptAt meanings (program_of words.now) labels.now slot) }
    ensures complete { KeepsAlwaysAt (program_of words.now) labels.now slot
        → IfErr result (λ error. error ≡ CheckError.OutOfMemory) }
{
    let Some(label) = label_at(labels, slot) else {
        return Ok(());
    };
    match keep(alloc, words, labels, slot, label) {
        Ok(()) => Ok(()),
        Err(failure) => Err(failure.at(slot)),
    }
}

/// Whether each label is kept.
fn keep_each(alloc: Global, words: &Words<'_>, labels: &[Option<Label>]) -> Result<(), CheckError>
    ensures rule { IfOk result (λ _. (label : TheLabel Known) → IsAmong (labels_of labels.now) label
        → IsKeptBy loop_rules (program_of words.now) (labels_of labels.now) label) }
    ensures sound { IfOk result (λ _. (label : TheLabel Known) → IsAmong (labels_of labels.now) label
        → IsKeptBy meanings (program_of words.now) (labels_of labels.now) label) }
    ensures complete { ((slot : ℕ) → KeepsAlwaysAt (program_of words.now) labels.now slot)
        → IfErr result (λ error. error ≡ CheckError.OutOfMemory) }
{
    for slot in 0..labels.len() {
        keep_at(alloc, words, labels, slot)?;
    }
    Ok(())
}

/// Whether the labels of a program hold, one for a slot or none: each says no more than is known on the edges into its
/// slot, and its potential is less there. The first holds at each start, and its potential is the bound. Then every run
/// on what the third profile lends ends with a number, within the bound's steps.
pub fn check(
    alloc: Global,
    words: &Words<'_>,
    labels: &[Option<Label>],
    bound: &Bound,
) -> Result<(), CheckError>
    ensures exact { IfOk result (λ _.
        AreInductiveBy loop_rules (program_of words.now) (labels_of labels.now) (bound_of bound.now)) }
    ensures sound { IfOk result (λ _.
        AreInductive contains Three (program_of words.now) (labels_of labels.now) (bound_of bound.now)) }
    ensures ends { IfOk result (λ _. EndsWithin Three (program_of words.now) (bound_of bound.now)) }
    ensures complete { HoldAlways (program_of words.now) labels.now (bound_of bound.now)
        → IfErr result (λ error. error ≡ CheckError.OutOfMemory) }
{
    if let Err(failure) = begin(alloc, labels, bound) {
        return Err(failure.at(0));
    }
    keep_each(alloc, words, labels)?;
    Ok(())
}
