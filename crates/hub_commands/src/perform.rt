ghost use Rattle.std.specs.Prelude.{◌≡◌, IfOk, IfSome};
ghost use Rattle.hub_commands.specs.Answers.{IsAnswered};
ghost use Rattle.hub_commands.specs.Hints.{hint_to};
ghost use Rattle.hub_commands.specs.Requests.{IsReplyTo};

use crate::asm::asm;
use crate::check::check;
use crate::check_loops::check_loops;
use crate::dis::dis;
use crate::ended::Ended;
use crate::explain::explain;
use crate::failure::Failure;
use crate::filter_test::test;
use crate::hint::pairs_hint;
use crate::join::join;
use crate::run::run;
use crate::spans::spans;
use crate::straighten::straighten;
use filters::rules::RuleSet;
use hub_requests::{Command, Detail};
use std::alloc::Global;
use std::io::{Read, Write};

/// Does what is asked for with the input, prints the answer, and gives the exit status and the hint to the input.
pub fn perform<R: Read, W: Write>(
    alloc: Global,
    command: &Command,
    reader: &mut R,
    writer: &mut W,
) -> Result<Ended, Failure>
    ensures answered { IfOk result (λ ended. IsAnswered (IsReplyTo command.now) (R.remaining reader.old)
        (W.contents writer.old) (W.contents writer.new) ended.status) }
    ensures hinted { IfOk result (λ ended. IfSome (R.remaining reader.old)
        (λ input. ended.hint ≡ hint_to command.now input)) }
{
    match command {
        Command::Asm => asm(alloc, reader, writer),
        Command::Check { detail, rules } => match rules {
            RuleSet::Straight(profile) => match detail {
                Detail::Verdict => check(alloc, *profile, reader, writer),
                Detail::Reason => explain(alloc, *profile, false, reader, writer),
                Detail::Listing => explain(alloc, *profile, true, reader, writer),
            },
            RuleSet::Looping => check_loops(alloc, *detail, reader, writer),
        },
        Command::Dis => dis(alloc, reader, writer),
        Command::Join { size } => join(alloc, *size, reader, writer),
        Command::Run {
            shown,
            digits,
            options,
        } => Ok(Ended {
            status: run(alloc, digits.as_bytes(), options, *shown, reader, writer)?,
            hint: pairs_hint(digits.as_bytes()),
            word: None,
        }),
        Command::Spans { size } => spans(alloc, *size, reader, writer),
        Command::Straighten => straighten(alloc, reader, writer),
        Command::Test {
            rules,
            form,
            digits,
        } => Ok(Ended {
            status: test(alloc, digits.as_bytes(), *rules, *form, reader, writer)?,
            hint: pairs_hint(digits.as_bytes()),
            word: None,
        }),
    }
}
