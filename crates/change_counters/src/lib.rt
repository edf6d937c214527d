//! The counters of a change's operations: the greatest, and where a change goes above a number.
#![tactic(auto)]

ghost use Rattle.std.specs.Prelude.{◌≡◌, ◌+◌, ◌-◌, ◌<◌, ◌≤◌, IfSome, length, max, position};
ghost use Rattle.change_ops.specs.Changes.{operations};
ghost use Rattle.change_ops.specs.Lines.{ops_of, ops_of_lines};
ghost use Rattle.change_counters.specs.Counters.{greatest_counter, goes_above, line_above};

use change_ops::change::Change;
use change_ops::id_run::IdRun;
use change_ops::line::Line;

/// The counter of the last operation of a run of removals or of revivals.
fn last_counter(run: IdRun) -> u64
    ensures value { result ≡ run.id.counter + (run.count - 1) }
    ensures some { 1 ≤ run.count }
{
    run.id().counter() + (run.count() as u64 - 1)
}

/// The greatest counter of the operations that a line means, which is that of the last one.
fn greatest_of_line(line: &Line) -> u64
    ensures { result ≡ greatest_counter (ops_of line.now) }
{
    match line {
        Line::Operation(op) => op.id().counter(),
        Line::Run(run) => run.id().counter() + (run.characters().len() as u64 - 1),
        Line::Removals(run) => last_counter(*run),
        Line::Revivals(run) => last_counter(*run),
    }
}

/// Whether an operation of the line has a counter more than `jump` above `counter`.
fn goes_above(line: &Line, counter: u64, jump: u64) -> bool
    ensures { result ≡ goes_above (counter + jump) line.now }
{
    let greatest = greatest_of_line(line);
    greatest > counter && greatest - counter > jump
}

/// The greatest of a counter and those of the operations of lines.
fn greatest_with_lines(counter: u64, lines: &[Line]) -> u64
    ensures { result ≡ max counter (greatest_counter (ops_of_lines lines.now)) }
{
    let mut greatest = counter;
    for line in lines {
        greatest = greatest.max(greatest_of_line(line));
    }
    greatest
}

/// The greatest of a counter and those of a change's operations.
pub fn greatest_with(counter: u64, change: &Change) -> u64
    ensures { result ≡ max counter (greatest_counter (operations change.now)) }
{
    greatest_with_lines(counter, change.lines())
}

/// The index of the first of these lines with an operation whose counter is more than `jump` above `counter`.
fn index_of_jump(lines: &[Line], counter: u64, jump: u64) -> Option<usize>
    ensures index { result ≡ position (goes_above (counter + jump)) lines.now }
    ensures bound { IfSome result (λ at. at < length lines.now) }
{
    lines
        .iter()
        .position(|line| goes_above(line, counter, jump))
}

/// The first line of a change with an operation whose counter is more than `jump` above `counter`, as the lines of its
/// text are counted: from 1 on, and the first begins the change.
pub fn first_jump(change: &Change, counter: u64, jump: u64) -> Option<usize>
    ensures { result ≡ line_above (counter + jump) change.now }
{
    match index_of_jump(change.lines(), counter, jump) {
        Some(index) => Some(index + 2),
        None => None,
    }
}
