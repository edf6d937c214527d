ghost use Rattle.std.specs.Prelude.{◌≡◌, ℕ, List, IfOk, IfSome};
ghost use Rattle.filters.specs.declared.refusal.FilterError.TheVariants.{Program};
ghost use Rattle.refusals.specs.declared.reason.Reason.TheVariants as TheReason;
ghost use Rattle.hub_commands.specs.Answers.{IsAnswered};
ghost use Rattle.hub_commands.specs.Digits.{AreDigits};
ghost use Rattle.hub_commands.specs.Hexadecimal.{without_blanks};
ghost use Rattle.hub_commands.specs.Hints.{digits_hint};
ghost use Rattle.hub_commands.specs.Straightened.{structure_fault, reason_of, IsStraightReply, IsStraightenReply};

use crate::answer::Answer;
use crate::digits::Digits;
use crate::ended::Ended;
use crate::failure::Failure;
use crate::hex_input::HexInput;
use crate::hexadecimal::slot_lines;
use crate::output::write_answer;
use block_layout::refusal::{StraightenError, WayFault};
use block_layout::straighten::straighten as straightened;
use bpf_words::refusal::WordError;
use bpf_words::words::Words;
use filters::refusal::FilterError;
use refusals::reason::Reason;
use std::alloc::{AllocError, Global};
use std::io::{Read, Write};
use verifier::refusal::{StructureFault, VerifyError};

fn structure_fault(fault: WayFault) -> StructureFault
    ensures { result ≡ structure_fault fault }
{
    match fault {
        WayFault::JumpOut => StructureFault::JumpOut,
        WayFault::JumpIntoWide => StructureFault::JumpIntoWide,
        WayFault::FallOff => StructureFault::FallOff,
    }
}

fn refused(error: VerifyError) -> Reason
    ensures { result ≡ TheReason.Unverified (Program error) }
{
    Reason::Unverified(FilterError::Program(error))
}

/// Why a program isn't straightened: a fault of its structure, as `check` names it, or its length without jumps back.
fn reason_of(error: StraightenError) -> Reason
    ensures { result ≡ reason_of error }
{
    match error {
        StraightenError::Misplaced { slot, fault } => refused(VerifyError::Structure {
            slot,
            fault: structure_fault(fault),
        }),
        StraightenError::Loop { slot } => refused(VerifyError::Structure {
            slot,
            fault: StructureFault::BackwardJump,
        }),
        StraightenError::NoLayout => Reason::Words(WordError::TooLong),
        StraightenError::OutOfMemory => refused(VerifyError::OutOfMemory),
    }
}

/// What is answered to a program: the slots of one that does without its jumps back.
fn straight_answer(alloc: Global, words: &Words<'_>) -> Result<Answer, AllocError>
    ensures { IfOk result (λ answer. IsStraightReply words.now answer) }
{
    match straightened(alloc, words) {
        Ok(bytes) => Ok(Answer::done(slot_lines(alloc, &bytes)?)),
        Err(error) => Answer::refused(alloc, &reason_of(error)),
    }
}

/// What `straighten` answers to a program in hexadecimal.
pub fn straighten_answer(alloc: Global, digits: &Digits) -> Result<Answer, AllocError>
    ensures { IfOk result (λ answer. (input : List ℕ) → AreDigits (without_blanks input) digits.now
        → IsStraightenReply input answer) }
{
    let Some(bytes) = digits.bytes(alloc)? else {
        return Answer::refused(alloc, &Reason::BadHex);
    };
    match Words::new(&bytes) {
        Ok(words) => straight_answer(alloc, &words),
        Err(error) => Answer::refused(alloc, &Reason::Words(error)),
    }
}

/// The command `straighten`: a program in hexadecimal without its jumps back.
pub fn straighten<R: Read, W: Write>(
    alloc: Global,
    reader: &mut R,
    writer: &mut W,
) -> Result<Ended, Failure>
    ensures answered { IfOk result (λ ended. IsAnswered IsStraightenReply (R.remaining reader.old)
        (W.contents writer.old) (W.contents writer.new) ended.status) }
    ensures hinted { IfOk result (λ ended. IfSome (R.remaining reader.old) (λ input. ended.hint ≡ digits_hint input)) }
{
    let input = HexInput::read(alloc, reader)?;
    let answer = straighten_answer(alloc, &input.digits)?;
    let status = write_answer(writer, &answer)?;
    Ok(Ended {
        status,
        hint: input.hint(),
        word: None,
    })
}
