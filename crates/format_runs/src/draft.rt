//! Runs in the making.
ghost use Rattle.std.specs.Prelude.{◌≡◌, ◌<◌, ◌≤◌, ◌+◌, ◌*◌, ◌^◌, ◌++◌, ◌∷◌, [], IfOk, IfSome, IsFalse, IsTrue};
ghost use Rattle.std.specs.Prelude.{List, Some, drop, length, replicate, slice_get, slice_range, take};
ghost use Rattle.mark_anchors.specs.Formatting.{Format};
ghost use Rattle.span_flatten.specs.declared.version.Row.{Row};
ghost use Rattle.format_runs.specs.Budgets.{format_bytes};
ghost use Rattle.format_runs.specs.Runs.{AreAlike, AreApart, AreMaximal, IsBetween, IsInside, IsLast, Run};
ghost use Rattle.format_runs.specs.Runs.{character_count};
ghost use Rattle.format_runs.specs.Runs.{formats_of, of_size, runs_in};

use crate::run::Run;
use memory_budget::Budget;
use span_flatten::version::Row;
use std::alloc::{AllocError, Global};

/// Adds a run.
fn push(runs: &mut Vec<Run>, run: Run) -> Result<(), AllocError>
    ensures { IfOk result (λ _. runs.new.items ≡ runs.old.items ++ run ∷ []) }
{
    runs.push(run)?;
    Ok(())
}

/// Adds the runs, whose formats are not copied.
pub fn share_all(runs: &mut Vec<Run>, more: &[Run]) -> Result<(), AllocError>
    ensures { IfOk result (λ _. runs.new.items ≡ runs.old.items ++ more.now) }
{
    runs.reserve(more.len())?;
    for run in more {
        runs.push(run.of_size(run.characters())?)?;
    }
    Ok(())
}

/// The runs with so many characters in that of an index. No format is copied.
pub fn sized(
    alloc: Global,
    runs: &[Run],
    index: usize,
    characters: usize,
) -> Result<Vec<Run>, AllocError>
    requires { index < length runs.now }
    ensures { (run : Run) → slice_get runs.now index ≡ Some run → IfOk result (λ next. next.items
        ≡ take index runs.now ++ (of_size run characters ∷ drop (index + 1) runs.now)) }
{
    let mut next = Vec::with_capacity(alloc, runs.len())?;
    share_all(&mut next, &runs[..index])?;
    push(&mut next, runs[index].of_size(characters)?)?;
    share_all(&mut next, &runs[index + 1..])?;
    Ok(next)
}

/// Makes the last run so many characters longer.
fn lengthen(runs: &mut Vec<Run>, characters: usize) -> Result<(), AllocError>
    requires few { character_count runs.old.items + characters < 2 ^ 62 }
    requires maximal { AreMaximal runs.old.items }
    ensures formats { (format : Format) → IsLast (formats_of runs.old.items) format → IfOk result (λ _.
        formats_of runs.new.items ≡ formats_of runs.old.items ++ replicate characters format) }
    ensures maximal { IfOk result (λ _. AreMaximal runs.new.items) }
    ensures count { IfOk result (λ _. length runs.new.items ≤ length runs.old.items) }
{
    match runs.pop() {
        None => Ok(()),
        Some(last) => push(runs, last.longer(characters)),
    }
}

/// Moves runs behind those that are there.
fn move_all(runs: &mut Vec<Run>, mut more: Vec<Run>) -> Result<(), AllocError>
    ensures { IfOk result (λ _. runs.new.items ≡ runs.old.items ++ more.items) }
{
    runs.append(&mut more)
}

/// Adds runs that are maximal. The last run that is there is lengthened by the first of them where they join, which
/// only runs of one format do. So no formats are compared, which is dear where a character has many comments.
pub fn add_runs(runs: &mut Vec<Run>, more: Vec<Run>, join: bool) -> Result<(), AllocError>
    requires few { character_count runs.old.items + character_count more.items < 2 ^ 62 }
    requires maximal { AreMaximal runs.old.items }
    requires maximal_more { AreMaximal more.items }
    requires alike { IsTrue join → AreAlike (formats_of runs.old.items) (formats_of more.items) }
    requires apart { IsFalse join → AreApart (formats_of runs.old.items) (formats_of more.items) }
    ensures formats { IfOk result (λ _. formats_of runs.new.items
        ≡ formats_of runs.old.items ++ formats_of more.items) }
    ensures maximal { IfOk result (λ _. AreMaximal runs.new.items) }
    ensures count { IfOk result (λ _. length runs.new.items ≤ length runs.old.items + length more.items) }
{
    if !join {
        return move_all(runs, more);
    }
    let Some((first, others)) = more.as_slice().split_first() else {
        return Ok(());
    };
    lengthen(runs, first.characters())?;
    share_all(runs, others)
}

/// Adds a run of the format of so many characters, if there are any.
fn add_some(runs: &mut Vec<Run>, run: &Run, characters: usize) -> Result<(), AllocError>
    requires maximal { AreMaximal runs.old.items }
    requires apart { 0 < characters → AreApart (formats_of runs.old.items) (run.now.format ∷ []) }
    ensures formats { IfOk result (λ _. formats_of runs.new.items
        ≡ formats_of runs.old.items ++ replicate characters run.now.format) }
    ensures maximal { IfOk result (λ _. AreMaximal runs.new.items) }
    ensures count { IfOk result (λ _. length runs.new.items ≤ length runs.old.items + 1) }
{
    if characters == 0 {
        return Ok(());
    }
    push(runs, run.of_size(characters)?)
}

/// The runs of the characters from the one place up to the other, as far as there are any, with room for so many more
/// runs behind them.
pub fn between(
    alloc: Global,
    runs: &[Run],
    from: usize,
    to: usize,
    room: usize,
) -> Result<Vec<Run>, AllocError>
    requires room { room < 2 ^ 62 }
    requires short { character_count runs.now < 2 ^ 62 }
    requires maximal { AreMaximal runs.now }
    ensures formats { IfOk result (λ part. formats_of part.items ≡ slice_range (formats_of runs.now) from to) }
    ensures maximal { IfOk result (λ part. AreMaximal part.items) }
    ensures count { IfOk result (λ part. length part.items ≤ length runs.now) }
{
    let mut part = Vec::with_capacity(alloc, runs.len() + room)?;
    let mut start: usize = 0;
    for run in runs {
        let end = start + run.characters();
        let low = from.max(start);
        let high = to.min(end);
        add_some(&mut part, run, high.saturating_sub(low))?;
        start = end;
    }
    Ok(part)
}

/// Whether the place lies inside a run, so that the characters before it and at it have one format. Otherwise a run
/// begins there, or the last one ends there.
pub fn is_inside(runs: &[Run], place: usize) -> bool
    requires short { character_count runs.now < 2 ^ 62 }
    requires within { place ≤ character_count runs.now }
    ensures inside { IsTrue result → IsInside runs.now place }
    ensures between { IsFalse result → IsBetween runs.now place }
{
    let mut start: usize = 0;
    for run in runs {
        let end = start + run.characters();
        if place < end {
            return start < place;
        }
        start = end;
    }
    false
}

/// The run of a row. It shares the format of a run that is known to have the same one. Otherwise it shares that of the
/// run before the last one where that is cheap to compare and equal: so the formats of marks that come and go are kept
/// once.
fn run_of(
    alloc: Global,
    runs: &[Run],
    row: &Row,
    known: Option<&Run>,
    budget: &mut Budget,
) -> Result<Run, AllocError>
    requires { IfSome known (λ run. run.now.format ≡ row.now.format) }
    ensures run { IfOk result (λ run. run ≡ record { format = row.now.format; characters = row.now.characters }) }
    ensures spent { budget.old ≤ budget.new + format_bytes }
    ensures less { budget.new ≤ budget.old }
{
    if let Some(run) = known {
        return run.of_size(row.characters);
    }
    // Comments are mostly others, and dear to compare.
    if row.format.comment_count() == 0 && runs.len() >= 2 {
        let earlier = &runs[runs.len() - 2];
        if *earlier.format() == row.format {
            return earlier.of_size(row.characters);
        }
    }
    Run::new(alloc, &row.format, row.characters, budget)
}

/// Adds the run of a row.
fn push_row(
    alloc: Global,
    runs: &mut Vec<Run>,
    row: &Row,
    known: Option<&Run>,
    budget: &mut Budget,
) -> Result<(), AllocError>
    requires { IfSome known (λ run. run.now.format ≡ row.now.format) }
    ensures runs { IfOk result (λ _. runs.new.items
        ≡ runs.old.items ++ record { format = row.now.format; characters = row.now.characters } ∷ []) }
    ensures spent { budget.old ≤ budget.new + format_bytes }
    ensures less { budget.new ≤ budget.old }
{
    let run = run_of(alloc, runs.as_slice(), row, known, budget)?;
    push(runs, run)
}

/// Adds a run for each row.
fn push_rows(
    alloc: Global,
    runs: &mut Vec<Run>,
    rows: &[Row],
    budget: &mut Budget,
) -> Result<(), AllocError>
    ensures runs { IfOk result (λ _. runs.new.items ≡ runs.old.items ++ runs_in rows.now) }
    ensures spent { budget.old ≤ budget.new + format_bytes * length rows.now }
    ensures less { budget.new ≤ budget.old }
{
    for row in rows {
        push_row(alloc, runs, row, None, budget)?;
    }
    Ok(())
}

/// A run for each row. The first and the last one share the formats of the runs that are known to have theirs.
pub fn runs_of(
    alloc: Global,
    rows: &[Row],
    begin: Option<&Run>,
    end: Option<&Run>,
    budget: &mut Budget,
) -> Result<Vec<Run>, AllocError>
    requires begin { IfSome begin (λ run. (row : Row) (others : List Row) → rows.now ≡ row ∷ others
        → run.now.format ≡ row.format) }
    requires end { IfSome end (λ run. (others : List Row) (row : Row) → rows.now ≡ others ++ row ∷ []
        → run.now.format ≡ row.format) }
    ensures runs { IfOk result (λ runs. runs.items ≡ runs_in rows.now) }
    ensures spent { budget.old ≤ budget.new + format_bytes * length rows.now }
    ensures less { budget.new ≤ budget.old }
{
    let mut runs = Vec::with_capacity(alloc, rows.len())?;
    let Some((first, others)) = rows.split_first() else {
        return Ok(runs);
    };
    let Some((last, middle)) = others.split_last() else {
        push_row(alloc, &mut runs, first, begin.or(end), budget)?;
        return Ok(runs);
    };
    push_row(alloc, &mut runs, first, begin, budget)?;
    push_rows(alloc, &mut runs, middle, budget)?;
    push_row(alloc, &mut runs, last, end, budget)?;
    Ok(runs)
}
