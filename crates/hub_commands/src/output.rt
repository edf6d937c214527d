ghost use Rattle.std.specs.Prelude.{IfOk};
ghost use Rattle.hub_commands.specs.Answers.{IsWritten};

use crate::answer::Answer;
use crate::failure::Failure;
use std::io::Write;

/// Prints what a command answers, and gives its exit status.
pub fn write_answer<W: Write>(writer: &mut W, answer: &Answer) -> Result<u8, Failure>
    ensures { IfOk result (λ status. IsWritten answer.now (W.contents writer.old) (W.contents writer.new) status) }
{
    writer
        .write_all(answer.text.as_bytes())
        .map_err(Failure::of_write)?;
    Ok(answer.ending.status())
}
