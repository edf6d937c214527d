//! The command `test`: whether a filter gives the verdicts that cases want.
ghost use Rattle.std.specs.Prelude.{◌≡◌, ℕ, IfOk, IfSome, List, map};
ghost use Rattle.bpf_words.specs.Words.{program_of};
ghost use Rattle.filter_cases.specs.Marks.{bytes_of};
ghost use Rattle.filters.specs.Accepted.{IsAccepted};
ghost use Rattle.filters.specs.Filters.{whole_outcome};
ghost use Rattle.filters.specs.declared.rules.RuleSet.{RuleSet as TheRules};
ghost use Rattle.semantics.specs.declared.Outcome.TheVariants.{Done};
ghost use Rattle.hub_commands.specs.Answers.{IsAnswered};
ghost use Rattle.hub_commands.specs.Tested.{tried_on, report_reply, IsTestedReply, IsTestReply};

use crate::answer::{Answer, Ending};
use crate::failure::Failure;
use crate::input::read_input;
use crate::output::write_answer;
use bpf_words::words::Words;
use filter_cases::case::Case;
use filter_cases::cases::read_cases;
use filter_cases::refusal::BadCase;
use filter_cases::report::{ReportForm, Tried, failed, report};
use filters::accept::accept;
use filters::filter::Filter;
use filters::rules::RuleSet;
use refusals::reason::Reason;
use std::alloc::{AllocError, Global};
use std::io::{Read, Write};

/// The verdict of a filter on the span of a case.
fn verdict(filter: &Filter, case: &Case) -> u64
    ensures { whole_outcome filter.now (bytes_of case.now.marks case.now.text) ≡ Done result }
{
    filter.run(&case.context(), case.text().as_bytes(), case.link())
}

/// Each case with the filter's verdict on its span.
fn tried(alloc: Global, filter: &Filter, cases: Vec<Case>) -> Result<Vec<Tried>, AllocError>
    ensures { IfOk result (λ all. all.items ≡ map (tried_on filter.now) cases.items) }
{
    let mut all = Vec::new(alloc);
    for case in cases {
        let got = verdict(filter, &case);
        all.push(Tried { case, got })?;
    }
    Ok(all)
}

/// What is reported of the cases, and whether all passed.
fn report_answer(alloc: Global, form: ReportForm, all: &[Tried]) -> Result<Answer, AllocError>
    ensures { IfOk result (λ answer. answer ≡ report_reply form all.now) }
{
    let text = report(alloc, form, all)?;
    let ending = if failed(all) == 0 {
        Ending::Done
    } else {
        Ending::Failed
    };
    Ok(Answer { ending, text })
}

/// What `test` answers to an accepted program, on the cases of an input.
fn cases_answer(
    alloc: Global,
    words: &Words<'_>,
    filter: &Filter,
    form: ReportForm,
    input: &[u8],
) -> Result<Answer, AllocError>
    requires { filter.now ≡ program_of words.now }
    ensures { IfOk result (λ answer. (rules : TheRules) → IsAccepted rules (program_of words.now)
        → IsTestedReply rules form input.now words.now answer) }
{
    match read_cases(alloc, input)? {
        Ok(cases) => {
            let all = tried(alloc, filter, cases)?;
            report_answer(alloc, form, &all)
        }
        Err(line) => Answer::refused(alloc, &BadCase { line }),
    }
}

/// What `test` answers to a program, on the cases that the input is. They are read only where the program is accepted.
fn tested_answer<R: Read>(
    alloc: Global,
    words: &Words<'_>,
    rules: RuleSet,
    form: ReportForm,
    reader: &mut R,
) -> Result<Answer, Failure>
    ensures { IfOk result (λ answer. IfSome (R.remaining reader.old)
        (λ input. IsTestedReply rules form input words.now answer)) }
{
    match accept(alloc, words, rules) {
        Ok(filter) => {
            let input = read_input(alloc, reader)?;
            Ok(cases_answer(alloc, words, &filter, form, &input)?)
        }
        Err(error) => Ok(Answer::refused(alloc, &Reason::Unverified(error))?),
    }
}

/// What `test` answers to a program in hexadecimal.
fn test_answer<R: Read>(
    alloc: Global,
    digits: &[u8],
    rules: RuleSet,
    form: ReportForm,
    reader: &mut R,
) -> Result<Answer, Failure>
    ensures { IfOk result (λ answer. IfSome (R.remaining reader.old)
        (λ input. IsTestReply rules form digits.now input answer)) }
{
    let Some(bytes) = hex_table::decode(alloc, digits)? else {
        return Ok(Answer::refused(alloc, &Reason::BadHex)?);
    };
    match Words::new(&bytes) {
        Ok(words) => tested_answer(alloc, &words, rules, form, reader),
        Err(error) => Ok(Answer::refused(alloc, &Reason::Words(error))?),
    }
}

/// The command `test`: one program, in hexadecimal, that these rules accept, on the spans of the cases that the input
/// is.
pub fn test<R: Read, W: Write>(
    alloc: Global,
    digits: &[u8],
    rules: RuleSet,
    form: ReportForm,
    reader: &mut R,
    writer: &mut W,
) -> Result<u8, Failure>
    ensures { IfOk result (λ status. IsAnswered (IsTestReply rules form digits.now) (R.remaining reader.old)
        (W.contents writer.old) (W.contents writer.new) status) }
{
    let answer = test_answer(alloc, digits, rules, form, reader)?;
    write_answer(writer, &answer)
}
