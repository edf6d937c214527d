//! Texts: changes read and taken in, and versions made.
ghost use Rattle.std.specs.Prelude.{ℕ, IfSome};
ghost use Rattle.change_history.specs.Accepted.{operations_of};
ghost use Rattle.span_flatten.specs.Version.{IsVersion};

use change_history::history::History;
use change_ops::change::read_change;
use change_ops::size::Size;
use memory_budget::Budget;
use std::alloc::Global;
use version_pieces::version::PieceVersion;

/// Reads the change at the front of a text, and answers what follows it.
fn pass_change(alloc: Global, text: &str) -> Option<&str> {
    match read_change(alloc, text) {
        Ok((_change, rest)) => Some(rest),
        Err(_) => None,
    }
}

/// Takes in the change at the front of a text, and answers what follows it.
fn take_change<'a>(alloc: Global, history: &mut History, text: &'a str) -> Option<&'a str> {
    let Ok((change, rest)) = read_change(alloc, text) else {
        return None;
    };
    match history.accept(change) {
        Ok(()) => Some(rest),
        Err(_) => None,
    }
}

/// Takes in `count` changes of a text, and answers what follows them.
fn take_changes<'a>(
    alloc: Global,
    history: &mut History,
    text: &'a str,
    count: u32,
) -> Option<&'a str> {
    let mut rest: &str = text;
    for _change in 0..count {
        rest = take_change(alloc, history, rest)?;
    }
    Some(rest)
}

/// How many spans the version of a history has; 0 where there was no memory for it.
fn spans_of(alloc: Global, history: &History) -> u64 {
    match history.version(alloc) {
        Ok(version) => version.span_count() as u64,
        Err(_) => 0,
    }
}

/// Takes in the change at the front of a text, and answers the version that it makes of the one before, and what
/// follows it.
fn follow_change<'a>(
    alloc: Global,
    history: &mut History,
    previous: &PieceVersion,
    text: &'a str,
) -> Option<(PieceVersion, &'a str)>
    requires { (number : ℕ) × IsVersion (operations_of history.old.changes) number previous.now }
    ensures { IfSome result (λ followed. (number : ℕ)
        × IsVersion (operations_of history.new.changes) number followed.0) }
{
    let Ok((change, rest)) = read_change(alloc, text) else {
        return None;
    };
    let Ok(draft) = history.draft(change) else {
        return None;
    };
    let Ok(next) = history.next_version(alloc, previous, &draft, &mut Budget::unlimited()) else {
        return None;
    };
    history.put(draft);
    let (version, _) = next.into_parts();
    Some((version, rest))
}

/// Takes in `count` changes of a text, each with its version, behind the version that the history has.
fn follow_changes(alloc: Global, history: &mut History, text: &str, count: u32) -> u64 {
    let mut rest: &str = text;
    let Ok(mut version) = history.version(alloc) else {
        return 0;
    };
    for _change in 0..count {
        let Some((next, behind)) = follow_change(alloc, history, &version, rest) else {
            return 0;
        };
        version = next;
        rest = behind;
    }
    version.span_count() as u64
}

/// Reads `count` changes of a text. It answers how many bytes follow them.
#[unsafe(no_mangle)]
pub extern "C" fn bench_read(alloc: Global, text: &[u8], count: u32) -> u64 {
    let Ok(mut rest) = std::str::from_utf8(text) else {
        return u64::MAX;
    };
    for _change in 0..count {
        let Some(next) = pass_change(alloc, rest) else {
            return u64::MAX;
        };
        rest = next;
    }
    rest.len() as u64
}

/// Takes in `count` changes of a text. It answers how many characters were inserted.
#[unsafe(no_mangle)]
pub extern "C" fn bench_accept(alloc: Global, text: &[u8], count: u32) -> u64 {
    let Ok(text) = std::str::from_utf8(text) else {
        return u64::MAX;
    };
    let mut history = History::new(alloc, Size::Small);
    match take_changes(alloc, &mut history, text, count) {
        Some(_rest) => history.inserted() as u64,
        None => u64::MAX,
    }
}

/// Takes in `alone` changes of a text, makes their version, and then takes in `followed` more, each with its version,
/// made of the one before. It answers how many spans the last version has.
#[unsafe(no_mangle)]
pub extern "C" fn bench_follow(alloc: Global, text: &[u8], alone: u32, followed: u32) -> u64 {
    let Ok(text) = std::str::from_utf8(text) else {
        return u64::MAX;
    };
    let mut history = History::new(alloc, Size::Small);
    match take_changes(alloc, &mut history, text, alone) {
        Some(rest) => follow_changes(alloc, &mut history, rest, followed),
        None => u64::MAX,
    }
}

/// Takes in `count` changes of a text, and then makes its version `rounds` times. It answers how many spans the version
/// has.
#[unsafe(no_mangle)]
pub extern "C" fn bench_version(alloc: Global, text: &[u8], count: u32, rounds: u32) -> u64 {
    let Ok(text) = std::str::from_utf8(text) else {
        return u64::MAX;
    };
    let mut history = History::new(alloc, Size::Small);
    if take_changes(alloc, &mut history, text, count).is_none() {
        return u64::MAX;
    }
    let mut spans = 0;
    for _round in 0..rounds {
        spans = spans_of(alloc, &history);
    }
    spans
}
