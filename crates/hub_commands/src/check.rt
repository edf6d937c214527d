ghost use Rattle.std.specs.Prelude.{◌≡◌, ℕ, List, IfOk, IfSome};
ghost use Rattle.bpf_words.specs.Words.{program_of};
ghost use Rattle.hub_commands.specs.Answers.{IsAnswered};
ghost use Rattle.span_context.specs.declared.profile.Profile.{Profile as TheProfile};
ghost use Rattle.verifier.specs.Judged.{IsJudged};
ghost use Rattle.hub_commands.specs.Digits.{AreDigits};
ghost use Rattle.hub_commands.specs.Hexadecimal.{without_blanks};
ghost use Rattle.hub_commands.specs.Hints.{digits_hint};
ghost use Rattle.hub_commands.specs.Programs.{IsAcceptanceReply, IsCheckReply};

use crate::answer::Answer;
use crate::digits::Digits;
use crate::ended::Ended;
use crate::failure::Failure;
use crate::hex_input::HexInput;
use crate::output::write_answer;
use bpf_words::words::Words;
use filters::refusal::FilterError;
use refusals::reason::Reason;
use span_context::profile::Profile;
use std::alloc::{AllocError, Global};
use std::io::{Read, Write};
use verifier::refusal::VerifyError;
use verifier::verify::verify;

/// Why a program isn't accepted, unless it is.
pub fn rejection(alloc: Global, words: &Words<'_>, profile: Profile) -> Option<VerifyError>
    ensures { IsJudged profile (program_of words.now) result }
{
    verify(alloc, words, profile).err()
}

/// What is answered to a program, by why it isn't accepted: the number of its slots where it is.
pub fn acceptance_answer(
    alloc: Global,
    words: &Words<'_>,
    rejection: Option<VerifyError>,
) -> Result<Answer, AllocError>
    ensures { (profile : TheProfile) → IsJudged profile (program_of words.now) rejection
        → IfOk result (λ answer. IsAcceptanceReply profile words.now answer) }
{
    if let Some(error) = rejection {
        return Answer::refused(alloc, &Reason::Unverified(FilterError::Program(error)));
    }
    let slots = words.len();
    let text = format!(in alloc; "accepted {slots}\n")?;
    Ok(Answer::done(text))
}

/// What `check` answers to a program in hexadecimal.
pub fn check_answer(alloc: Global, profile: Profile, digits: &Digits) -> Result<Answer, AllocError>
    ensures { IfOk result (λ answer. (input : List ℕ) → AreDigits (without_blanks input) digits.now
        → IsCheckReply profile input answer) }
{
    let Some(bytes) = digits.bytes(alloc)? else {
        return Answer::refused(alloc, &Reason::BadHex);
    };
    match Words::new(&bytes) {
        Ok(words) => acceptance_answer(alloc, &words, rejection(alloc, &words, profile)),
        Err(error) => Answer::refused(alloc, &Reason::Words(error)),
    }
}

/// The command `check`: whether a program in hexadecimal is accepted.
pub fn check<R: Read, W: Write>(
    alloc: Global,
    profile: Profile,
    reader: &mut R,
    writer: &mut W,
) -> Result<Ended, Failure>
    ensures answered { IfOk result (λ ended. IsAnswered (IsCheckReply profile) (R.remaining reader.old)
        (W.contents writer.old) (W.contents writer.new) ended.status) }
    ensures hinted { IfOk result (λ ended. IfSome (R.remaining reader.old) (λ input. ended.hint ≡ digits_hint input)) }
{
    let input = HexInput::read(alloc, reader)?;
    let answer = check_answer(alloc, profile, &input.digits)?;
    let status = write_answer(writer, &answer)?;
    Ok(Ended {
        status,
        hint: input.hint(),
        word: None,
    })
}
