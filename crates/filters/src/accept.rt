//! Which programs are accepted as filters.
ghost use Rattle.std.specs.Prelude.{◌≡◌, IfOk, IfErr};
ghost use Rattle.span_context.specs.declared.profile.Profile.{Profile as TheProfile};
ghost use Rattle.span_context.specs.declared.profile.Profile.TheVariants.{Three};
ghost use Rattle.bpf_words.specs.Words.{program_of};
ghost use Rattle.block_layout.specs.Meaning.{IsForward};
ghost use Rattle.block_layout.specs.Structure.{FirstBack};
ghost use Rattle.verifier.specs.Decides.{IsAllowed};
ghost use Rattle.verifier.specs.declared.refusal.VerifyError.TheVariants.{OutOfMemory};
ghost use Rattle.filters.specs.Accepted.{IsAccepted, IsRefused};
ghost use Rattle.filters.specs.declared.rules.RuleSet.TheVariants.{Straight, Looping};

use crate::filter::{Code, Filter};
use crate::refusal::{FilterError, of_loop, of_way};
use crate::rules::RuleSet;
use block_layout::structure::{check, first_back};
use bpf_words::words::Words;
use decoded_rows::rows::Rows;
use loop_verifier::verify::verify_loops;
use span_context::profile::Profile;
use std::alloc::Global;
use verifier::refusal::VerifyError;
use verifier::verify::verify;

/// Accepts a program by a profile's rules.
fn accept_straight(
    alloc: Global,
    words: &Words<'_>,
    profile: Profile,
) -> Result<Filter, FilterError>
    ensures same { IfOk result (λ filter. filter ≡ program_of words.now) }
    ensures accepted { IfOk result (λ _. IsAccepted (Straight profile) (program_of words.now)) }
    ensures refused { IfErr result (IsRefused (Straight profile) (program_of words.now)) }
    ensures complete { IsAllowed profile (program_of words.now)
        → IfErr result (λ e. e ≡ FilterError.Program OutOfMemory) }
{
    match verify(alloc, words, profile) {
        Ok(program) => Ok(Filter {
            code: Code::Straight(program),
        }),
        Err(error) => Err(FilterError::Program(error)),
    }
}

/// Accepts a program with a jump back, the first of which is at a slot.
fn accept_loops(alloc: Global, words: &Words<'_>, back: usize) -> Result<Filter, FilterError>
    requires { FirstBack (program_of words.now) back }
    ensures same { IfOk result (λ filter. filter ≡ program_of words.now) }
    ensures accepted { IfOk result (λ _. IsAccepted Looping (program_of words.now)) }
    ensures refused { IfErr result (IsRefused Looping (program_of words.now)) }
{
    if let Err(wrong) = check(words) {
        return Err(of_way(wrong));
    }
    let bound = match verify_loops(alloc, words) {
        Ok(bound) => bound,
        Err(error) => return Err(of_loop(error, back)),
    };
    match Rows::of(alloc, words) {
        Ok(rows) => Ok(Filter {
            code: Code::Looping(rows, bound),
        }),
        Err(_) => Err(FilterError::Program(VerifyError::OutOfMemory)),
    }
}

/// Accepts a program of which every run on a span ends with a number, and that reads of a span no more than the rules
/// let it. By the rules of a profile it is accepted exactly where they allow it (`accepted`, `complete`); by those of
/// loops the same holds of a program without a jump back (`straight`), and one with a jump back has a bound for which
/// it has inductive labels (`accepted`). Besides, memory may run out.
pub fn accept(alloc: Global, words: &Words<'_>, rules: RuleSet) -> Result<Filter, FilterError>
    ensures same { IfOk result (λ filter. filter ≡ program_of words.now) }
    ensures accepted { IfOk result (λ _. IsAccepted rules (program_of words.now)) }
    ensures refused { IfErr result (IsRefused rules (program_of words.now)) }
    ensures complete { (profile : TheProfile) → rules ≡ Straight profile → IsAllowed profile (program_of words.now)
        → IfErr result (λ e. e ≡ FilterError.Program OutOfMemory) }
    ensures straight { rules ≡ Looping → IsForward (program_of words.now) → IsAllowed Three (program_of words.now)
        → IfErr result (λ e. e ≡ FilterError.Program OutOfMemory) }
{
    match rules {
        RuleSet::Straight(profile) => accept_straight(alloc, words, profile),
        RuleSet::Looping => match first_back(words) {
            Some(back) => accept_loops(alloc, words, back),
            None => {
                // For its bound: a program has at most 4,096 slots.
                let _slots = words.len();
                accept_straight(alloc, words, Profile::Three)
            }
        },
    }
}
