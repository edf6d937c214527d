ghost use Rattle.std.specs.Prelude.{◌≡◌, ℕ, List, IfOk, IfSome};
ghost use Rattle.hub_commands.specs.Answers.{IsAnswered};
ghost use Rattle.hub_commands.specs.Digits.{AreDigits};
ghost use Rattle.hub_commands.specs.Hexadecimal.{without_blanks};
ghost use Rattle.hub_commands.specs.Hints.{digits_hint};
ghost use Rattle.hub_commands.specs.Programs.{IsDisReply};

use crate::answer::Answer;
use crate::digits::Digits;
use crate::ended::Ended;
use crate::failure::Failure;
use crate::hex_input::HexInput;
use crate::output::write_answer;
use bpf_words::words::Words;
use disassembler::disassemble::disassemble;
use refusals::reason::Reason;
use std::alloc::{AllocError, Global};
use std::io::{Read, Write};

/// What `dis` answers to a program in hexadecimal: its canonical text.
pub fn dis_answer(alloc: Global, digits: &Digits) -> Result<Answer, AllocError>
    ensures { IfOk result (λ answer. (input : List ℕ) → AreDigits (without_blanks input) digits.now
        → IsDisReply input answer) }
{
    let Some(bytes) = digits.bytes(alloc)? else {
        return Answer::refused(alloc, &Reason::BadHex);
    };
    match Words::new(&bytes) {
        Ok(words) => {
            let mut text = String::new(alloc);
            disassemble(&words, &mut text)?;
            Ok(Answer::done(text))
        }
        Err(error) => Answer::refused(alloc, &Reason::Words(error)),
    }
}

/// The command `dis`: the canonical text of a program in hexadecimal.
pub fn dis<R: Read, W: Write>(
    alloc: Global,
    reader: &mut R,
    writer: &mut W,
) -> Result<Ended, Failure>
    ensures answered { IfOk result (λ ended. IsAnswered IsDisReply (R.remaining reader.old)
        (W.contents writer.old) (W.contents writer.new) ended.status) }
    ensures hinted { IfOk result (λ ended. IfSome (R.remaining reader.old) (λ input. ended.hint ≡ digits_hint input)) }
{
    let input = HexInput::read(alloc, reader)?;
    let answer = dis_answer(alloc, &input.digits)?;
    let status = write_answer(writer, &answer)?;
    Ok(Ended {
        status,
        hint: input.hint(),
        word: None,
    })
}
