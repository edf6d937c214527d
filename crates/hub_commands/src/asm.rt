ghost use Rattle.std.specs.Prelude.{◌≡◌, IfOk, IfSome};
ghost use Rattle.hub_commands.specs.Answers.{IsAnswered};
ghost use Rattle.hub_commands.specs.Hints.{source_hint};
ghost use Rattle.hub_commands.specs.Programs.{IsAsmReply};

use crate::answer::Answer;
use crate::ended::Ended;
use crate::failure::Failure;
use crate::hexadecimal::slot_lines;
use crate::hint::source_hint;
use crate::input::read_input;
use crate::output::write_answer;
use crate::word_fault::refused_word;
use assembler::assembly::assemble;
use refusals::reason::Reason;
use std::alloc::{AllocError, Global};
use std::io::{Read, Write};

/// What `asm` answers to a source: its slots in hexadecimal.
pub fn asm_answer(alloc: Global, input: &[u8]) -> Result<Answer, AllocError>
    ensures { IfOk result (λ answer. IsAsmReply input.now answer) }
{
    let Ok(source) = std::str::from_utf8(input) else {
        return Answer::refused(alloc, &Reason::TextRefused);
    };
    match assemble(alloc, source) {
        Ok(bytes) => Ok(Answer::done(slot_lines(alloc, &bytes)?)),
        Err(error) => Answer::refused(alloc, &Reason::Source(error)),
    }
}

/// The command `asm`: the slots of assembler text, in hexadecimal.
pub fn asm<R: Read, W: Write>(
    alloc: Global,
    reader: &mut R,
    writer: &mut W,
) -> Result<Ended, Failure>
    ensures answered { IfOk result (λ ended. IsAnswered IsAsmReply (R.remaining reader.old)
        (W.contents writer.old) (W.contents writer.new) ended.status) }
    ensures hinted { IfOk result (λ ended. IfSome (R.remaining reader.old) (λ input. ended.hint ≡ source_hint input)) }
{
    let input = read_input(alloc, reader)?;
    let answer = asm_answer(alloc, &input)?;
    let word = refused_word(alloc, &input, answer.ending)?;
    let status = write_answer(writer, &answer)?;
    Ok(Ended {
        status,
        hint: source_hint(&input),
        word,
    })
}
