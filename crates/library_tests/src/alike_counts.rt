use change_history::history::History;
use change_ops::change::read_change;
use change_ops::size::Size;
use memory_budget::Budget;
use std::alloc::{AllocError, Global};
use std::test::Fail;
use test_inputs::ids::Id;
use test_inputs::lines::lines;
use test_inputs::random::Random;
use version_pieces::alike::Alike;
use version_pieces::iter::{SpanTexts, spans_from};
use version_pieces::span_text::SpanText;
use version_pieces::version::PieceVersion;

/// Whether the next span is the same.
fn is_next(rest: &mut SpanTexts<'_>, older: SpanText<'_>) -> bool {
    match rest.next() {
        Some(newer) => older.text.is_same(newer.text) && *older.format == *newer.format,
        None => false,
    }
}

/// How many spans from the first one on are the same.
fn same_front(older: &PieceVersion, newer: &PieceVersion) -> usize {
    let mut rest = spans_from(newer, 0);
    let mut count: usize = 0;
    for span in spans_from(older, 0) {
        if !is_next(&mut rest, span) {
            return count;
        }
        count = count.saturating_add(1);
    }
    count
}

/// How many spans up to the last one are the same.
fn same_behind(older: &PieceVersion, newer: &PieceVersion) -> usize {
    let least = older.span_count().min(newer.span_count());
    let mut rest = spans_from(newer, newer.span_count() - least);
    let mut count: usize = 0;
    for span in spans_from(older, older.span_count() - least) {
        if is_next(&mut rest, span) {
            count = count.saturating_add(1);
        } else {
            count = 0;
        }
    }
    count
}

/// A text in the making, whose operations all show something: a character stands once, and a comment is set once.
#[derive(Drop)]
struct Making {
    random: Random,
    visible: Vec<Id>,
    counter: u64,
}

impl Making {
    /// The id of the next operation.
    fn next_id(&mut self) -> Id {
        self.counter = self.counter.wrapping_add(1);
        Id {
            counter: self.counter,
            node: 1,
        }
    }

    /// Adds an insert at any place.
    fn insert(&mut self, alloc: Global, text: &mut String) -> Result<(), AllocError> {
        let id = self.next_id();
        let character = id.counter.wrapping_add(0x4e00);
        let most = self.visible.len();
        let place = self.random.below(most + 1).min(most);
        let line = if place == 0 {
            format!(in alloc; " / i {id} - {character:x}")?
        } else {
            let parent = self.visible[place - 1];
            format!(in alloc; " / i {id} {parent} {character:x}")?
        };
        self.visible.insert(place, id)?;
        text.push_str(line.as_str())
    }

    /// Adds a removal of any character that stood before the change.
    fn remove(&mut self, alloc: Global, text: &mut String, old: u64) -> Result<(), AllocError> {
        let id = self.next_id();
        let count = self.visible.len();
        let place = self.random.below(count);
        if place >= count || self.visible[place].counter > old {
            return self.comment(alloc, text, id);
        }
        let target = self.visible.remove(place);
        let line = format!(in alloc; " / d {id} {target}")?;
        text.push_str(line.as_str())
    }

    /// Adds a comment on some characters.
    fn comment(&mut self, alloc: Global, text: &mut String, id: Id) -> Result<(), AllocError> {
        let Some(last) = self.visible.len().checked_sub(1) else {
            return Ok(());
        };
        let first = self.random.below(last).min(last);
        let end = first.saturating_add(self.random.below(4)).min(last);
        let (from, to) = (self.visible[first], self.visible[end]);
        let number = id.counter;
        let line = format!(in alloc; " / m {id} comment:{number} - <{from} >{to}")?;
        text.push_str(line.as_str())
    }

    /// A change of some operations.
    fn change(&mut self, alloc: Global) -> Result<String, AllocError> {
        let old = self.counter;
        let count = self.random.one_of(&[1usize, 2, 3]);
        let mut text = format!(in alloc; "change 1 {count}")?;
        for _one in 0..count {
            if self.visible.len() > 20 && self.random.below(2) == 0 {
                self.remove(alloc, &mut text, old)?;
            } else {
                self.insert(alloc, &mut text)?;
            }
        }
        Ok(text)
    }
}

/// What a change's step tells, and what a comparison of the two versions finds.
fn counts(alloc: Global, history: &mut History, text: &str) -> Result<(Alike, Alike), Fail> {
    let text = lines(alloc, text)?;
    let (change, _) = read_change(alloc, text.as_str())?;
    let older = history.version(alloc)?;
    let draft = history.draft(change)?;
    let next = history.next_version(alloc, &older, &draft, &mut Budget::unlimited())?;
    history.put(draft);
    let found = Alike {
        front: same_front(&older, &next.version),
        behind: same_behind(&older, &next.version),
    };
    Ok((next.alike, found))
}

/// Whether the count is the one that was found, or one less.
fn is_close(count: usize, found: usize) -> bool {
    count <= found && found - count <= 1
}

/// Whether both counts are.
fn are_close(told: Alike, found: Alike) -> bool {
    is_close(told.front, found.front) && is_close(told.behind, found.behind)
}

#[test]
fn counts_are_the_most_but_for_one(rt: HostRuntime) -> Result<(), Fail> {
    let alloc = rt.alloc();
    let mut history = History::new(alloc, Size::Large);
    let mut making = Making {
        random: Random::new(7),
        visible: Vec::new(alloc),
        counter: 0,
    };
    for _round in 0..200 {
        let text = making.change(alloc)?;
        let (told, found) = counts(alloc, &mut history, text.as_str())?;
        assert!(&rt; are_close(told, found));
    }
    Ok(())
}
