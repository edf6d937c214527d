//! The cases of a whole input.
ghost use Rattle.std.specs.Prelude.{IfOk, MatchBool, MatchResult};
ghost use Rattle.filter_cases.specs.Cases.{Adds, AreCases, IsNoCase, StopsAt};

use crate::case::{Case, case_of};
use crate::lines::{first_line, is_left_out};
use std::alloc::{AllocError, Global};

/// Takes in the line of a number, unless it is no case.
fn take_line(
    alloc: Global,
    cases: &mut Vec<Case>,
    number: usize,
    line: &[u8],
) -> Result<bool, AllocError>
    ensures { IfOk result (λ taken. MatchBool taken (Adds line.now number cases.old.items cases.new.items)
        (IsNoCase line.now)) }
{
    if is_left_out(line) {
        return Ok(true);
    }
    let Some(case) = case_of(alloc, number, line)? else {
        return Ok(false);
    };
    cases.push(case)?;
    Ok(true)
}

/// The cases of an input, or the number of the first line that is none, from 1.
pub fn read_cases(alloc: Global, input: &[u8]) -> Result<Result<Vec<Case>, usize>, AllocError>
    ensures { IfOk result (λ read. MatchResult read (λ cases. AreCases input.now cases.items) (StopsAt input.now)) }
{
    let mut cases = Vec::new(alloc);
    let mut number = 1;
    let mut rest = input;
    while !rest.is_empty() {
        let (line, behind) = first_line(rest);
        let taken = take_line(alloc, &mut cases, number, line)?;
        if !taken {
            return Ok(Err(number));
        }
        number += 1;
        rest = behind;
    }
    Ok(Ok(cases))
}
