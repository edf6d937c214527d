//! Plays a script, events on a core or a hub of its own, and tells what each event answered.
//!
//! The lines of a script that begin with `#` say nothing. The first other line says what it is played on. It is told as
//! it stands.
//!
//! | line | what it is played on |
//! |---|---|
//! | `core NAME` | a core with sinks that keep what they are sent, to which all events are handed at once |
//! | `hub NAME` | a hub with queues, by its calls |
//! | `hub NAME N` | the same, with N shares that ingest, 1 to 239 |
//! | `threads NAME N` | a hub with two shares, by which two threads ingest N changes each; there is no further line |
//!
//! Each further line is an event, and is answered by a line with its first word. Programs, subscribers, jobs, shares
//! and queues are named by their indexes, from 0. A core takes the events down to `program`. Each call of a hub is the
//! first share's, where nothing else is said; workers have shares of their own.
//!
//! | event | what it asks for | what it answers |
//! |---|---|---|
//! | `submit CHANGE`, on a hub `ingest CHANGE` | a change, whose lines are parted by ` / `; without one the kept text
//! is taken | the version |
//! | `sub CAPACITY PROGRAM` | a subscriber with a sink or queue for CAPACITY items | its id |
//! | `job` | a job | its subscriber and version |
//! | `commit JOB` | the batch of a job is computed and committed | `done` |
//! | `pump ID`, `reissue ID`, `close ID` | that call | how many items, or `done` |
//! | `program DIGITS` | a program is published, of the kept text and these digits; on a core the digits alone, before
//! all events | its index |
//! | `ingest-by SHARE CHANGE` | a change by another share than the first | the version |
//! | `batch JOB`, `filter JOB` | the batch of a job, by one thread or by several | its items |
//! | `offer ID VERSION JOB JOB` | the batch of a job that was made up: for this subscriber and version, of the first
//! job's program on the other's version | its items |
//! | `commit` | the batch that was computed last and not committed yet | `done` |
//! | `take QUEUE`, `take-all QUEUE` | an item, or all | the items |
//! | `catch-up ID` | the subscriber catches up by one batch | 1, or 0 where it waits for none |
//! | `work WORKERS TURNS` | WORKERS workers take turns | how many batches were committed |
//! | `work-second-first WORKERS TURNS` | the same, where version 1 waits until version 2 is done | the same, or `late`
//! |
//! | `work-close-at-3 WORKERS TURNS` | the same, where the subscriber is closed before the batch of version 3 | the
//! same |
//! | `work-commit-first WORKERS TURNS` | the same, where another commits the batch of version 1 first | the same |
//! | `without-memory CALL` | nothing | what `sub`, `commit` or `queue` would say where no memory is found |
//!
//! A refusal is told by its number and name, and for a change by the index of its line, as `op`. What isn't there is
//! `none`. These lines are no events:
//!
//! | line | what it says |
//! |---|---|
//! | `line TEXT`, `text TEXT` | the text is kept for the next event, with a line feed or without |
//! | `times N LINE` | the line N times; of events only the last answer is told, and those that are refusals |
//! | `count M N LINE` | a line for each number n from M to N, with n for `{n}` and n - 1 for `{n-1}`; told of in the
//! same way |
//!
//! An item is told as `VERSION:SPAN=VERDICT` or `VERSION/SPANS`; where there are more than 12, how many they are, their
//! digest, and the last. At the end of a script on a core, each sink that has items is told with them, and how many
//! versions and programs were published. At the end of one on a hub, the shares are settled, the hub is dropped, and
//! what still waits in each queue is told.
#![tactic(auto)]

mod answer;
mod core_case;
mod findings;
mod hub_case;
mod machine;
mod programs;
mod script;
mod spare;
mod tricks;
mod two_threads;

use crate::core_case::play_core;
use crate::hub_case::play_hub;
use crate::script::{number, parted, written_out};
use crate::two_threads::play_threads;
use std::alloc::{AllocError, Global};
use std::sync::Wait;
use std::thread::Threads;

/// Plays a script, and tells what its events answered.
pub fn play<R: Threads + Wait + Copy + Send + Sync>(
    rt: R,
    alloc: Global,
    script: &str,
    told: &mut String,
) -> Result<(), AllocError> {
    let lines = written_out(alloc, script)?;
    let (head, lines) = lines.as_str().split_once('\n').unwrap_or(("", ""));
    let (kind, rest) = parted(head);
    let (_, count) = parted(rest);
    let count = if count.is_empty() { 1 } else { number(count) };
    told.push_str(head)?;
    told.push('\n')?;
    match kind {
        "core" => play_core(&rt, alloc, lines, told),
        "hub" => play_hub(rt, alloc, count, lines, told),
        "threads" => play_threads(&rt, alloc, count as u64, told),
        _ => told.push_str("no case\n"),
    }
}
