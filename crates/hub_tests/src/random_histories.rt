use crate::answers::is_answered;
use std::alloc::{AllocError, Global};
use std::fmt;
use std::fmt::Write;
use std::fs::Files;
use std::net::{Net, TcpListener, TcpStream};
use std::rt::Clock;
use std::sync::Wait;
use std::test::Fail;
use std::thread::Threads;
use test_inputs::ids::{Anchor, Id};
use test_inputs::random::Random;

/// The character that an inserted one stands behind, as a line names it.
#[derive(Clone, Copy)]
struct Parent(Option<Id>);

impl fmt::Display for Parent {
    fn fmt<W: fmt::Write>(&self, f: &mut fmt::Formatter<W>) -> fmt::Result {
        match self.0 {
            Some(id) => write!(f, "{id}"),
            None => write!(f, "-"),
        }
    }
}

#[derive(Clone, Copy)]
struct Letter {
    id: Id,
    parent: Option<Id>,
    code: char,
}

/// A removal of a character, and whether it is taken back.
#[derive(Clone, Copy)]
struct Removal {
    id: Id,
    target: Id,
    is_back: bool,
}

/// An operation on one of the keys of `KEYS`, by its index; a removal has no value.
#[derive(Clone, Copy)]
struct Mark {
    id: Id,
    key: usize,
    value: Option<&'static str>,
    start: Anchor,
    end: Anchor,
}

/// A key as a line of a change names it, with two values of its marks, each as the line has it and as it is printed.
static KEYS: [(&str, &str, &str, &str, &str); 7] = [
    ("strong", "-", "strong", "-", "strong"),
    ("em", "-", "em", "-", "em"),
    ("code", "-", "code", "-", "code"),
    ("link", "a", "link=a", "b/!", "link=b/!"),
    ("color", "00000a", "color=00000a", "ff0080", "color=ff0080"),
    ("comment:2", "-", "comment:2", "-", "comment:2"),
    ("comment:10", "-", "comment:10", "-", "comment:10"),
];

/// The key that changes of the first form don't have, by its index.
const CODE: usize = 2;

/// The form of a change.
#[derive(Clone, Copy)]
enum Form {
    First,
    Second,
    Third,
}

/// How many of a history's characters and removals were there before a round.
#[derive(Clone, Copy)]
struct Known {
    letters: usize,
    removals: usize,
}

/// A history of three peers: its operations, and the text of each change by rounds. In a round the peers
/// know what was there before it, so that its changes may be accepted in any order.
#[derive(Drop)]
struct History {
    letters: Vec<Letter>,
    removals: Vec<Removal>,
    marks: Vec<Mark>,
    rounds: Vec<[String; 3]>,
}

fn any_anchor(random: &mut Random, known: &[Letter]) -> Anchor {
    let letter = known.get(random.below(known.len()));
    match (letter, random.below(8)) {
        (_, 0) | (None, _) => Anchor::Start,
        (_, 1) => Anchor::End,
        (Some(letter), 2 | 3 | 4) => Anchor::Before(letter.id),
        (Some(letter), _) => Anchor::After(letter.id),
    }
}

/// A key by its index in `KEYS`, its name, and one of its values, as a line has it and as it is printed.
#[derive(Clone, Copy)]
struct Choice {
    key: usize,
    name: &'static str,
    value: &'static str,
    printed: &'static str,
}

fn any_form(random: &mut Random) -> Form {
    match random.below(3) {
        0 => Form::First,
        1 => Form::Second,
        _ => Form::Third,
    }
}

/// One of the keys that the form has, by its index.
fn any_key(random: &mut Random, form: Form) -> usize {
    let key = random.below(KEYS.len());
    match form {
        Form::First if key == CODE => 0,
        Form::First | Form::Second | Form::Third => key,
    }
}

/// How many characters an insertion of the form has.
fn any_count(random: &mut Random, form: Form) -> usize {
    match form {
        Form::First => 1,
        Form::Second | Form::Third => random.below(3).saturating_add(1),
    }
}

/// The id of the same peer whose counter is greater by one.
fn next_id(id: Id) -> Id {
    Id {
        counter: id.counter.saturating_add(1),
        node: id.node,
    }
}

/// How many of these ids follow one another from the first on, at most as many as `most`.
fn run_length(first: Id, ids: &[Id], most: usize) -> usize {
    let mut length: usize = 1;
    let mut next = next_id(first);
    for _ in 1..most {
        if !ids.contains(&next) {
            break;
        }
        length = length.saturating_add(1);
        next = next_id(next);
    }
    length
}

fn letter_ids(alloc: Global, letters: &[Letter]) -> Result<Vec<Id>, AllocError> {
    let mut ids = Vec::new(alloc);
    for letter in letters {
        ids.push(letter.id)?;
    }
    Ok(ids)
}

fn removal_ids(alloc: Global, removals: &[Removal]) -> Result<Vec<Id>, AllocError> {
    let mut ids = Vec::new(alloc);
    for removal in removals {
        ids.push(removal.id)?;
    }
    Ok(ids)
}

/// How many removals or revivals a line of the form has at most.
fn most_of(random: &mut Random, form: Form) -> usize {
    match form {
        Form::First | Form::Second => 1,
        Form::Third => random.below(3).saturating_add(1),
    }
}

/// Writes the line of a removal, of a revival or of a run of them.
fn write_run(
    text: &mut String,
    kind: &str,
    id: Id,
    first: Id,
    count: usize,
) -> Result<(), AllocError> {
    if count == 1 {
        write!(text, "{kind} {id} {first}\n")
    } else {
        write!(text, "{kind} {id} {first} {count}\n")
    }
}

/// The character of an id; that of the next counter is another.
fn code_of(id: Id) -> char {
    match (id.node, id.counter % 2) {
        (1, 0) => 'w',
        (1, _) => 'x',
        (_, 0) => 'y',
        (_, _) => 'z',
    }
}

fn any_choice(random: &mut Random, form: Form) -> Option<Choice> {
    let key = any_key(random, form);
    let second = random.below(2) == 1;
    let &(name, first_value, first_printed, second_value, second_printed) = KEYS.get(key)?;
    Some(Choice {
        key,
        name,
        value: if second { second_value } else { first_value },
        printed: if second {
            second_printed
        } else {
            first_printed
        },
    })
}

impl History {
    /// Adds `count` letters, each behind the one before it, and writes their codes.
    fn push_letters(
        &mut self,
        first: Id,
        parent: Option<Id>,
        count: usize,
        text: &mut String,
    ) -> Result<(), AllocError> {
        let mut id = first;
        let mut parent = parent;
        for _ in 0..count {
            let code = code_of(id);
            write!(text, " {:x}", code as u32)?;
            self.letters.push(Letter { id, parent, code })?;
            parent = Some(id);
            id = next_id(id);
        }
        text.push('\n')
    }

    fn insert(
        &mut self,
        random: &mut Random,
        form: Form,
        id: Id,
        known: Known,
        text: &mut String,
    ) -> Result<(), AllocError> {
        let index = random.below(known.letters.saturating_add(1));
        let parent = match self.letters.get(index) {
            Some(letter) if index < known.letters => Some(letter.id),
            _ => None,
        };
        let after = Parent(parent);
        let count = any_count(random, form);
        if count == 1 {
            write!(text, "i {id} {after}")?;
        } else {
            write!(text, "r {id} {after} {count}")?;
        }
        self.push_letters(id, parent, count, text)
    }

    /// Removes characters that were inserted one after the other, hidden ones too.
    fn remove(
        &mut self,
        random: &mut Random,
        form: Form,
        id: Id,
        known: Known,
        text: &mut String,
    ) -> Result<(), AllocError> {
        let front = self.letters.get(..known.letters).unwrap_or_default();
        let Some(letter) = front.get(random.below(known.letters)) else {
            return Ok(());
        };
        let first = letter.id;
        let ids = letter_ids(*self.letters.allocator(), front)?;
        let count = run_length(first, ids.as_slice(), most_of(random, form));
        let mut removal = Removal {
            id,
            target: first,
            is_back: false,
        };
        for _ in 0..count {
            self.removals.push(removal)?;
            removal.id = next_id(removal.id);
            removal.target = next_id(removal.target);
        }
        write_run(text, "d", id, first, count)
    }

    /// Takes removals back that were made one after the other, those that are taken back already too.
    fn revive(
        &mut self,
        random: &mut Random,
        form: Form,
        id: Id,
        known: Known,
        text: &mut String,
    ) -> Result<(), AllocError> {
        let front = self.removals.get(..known.removals).unwrap_or_default();
        let Some(removal) = front.get(random.below(known.removals)) else {
            return Ok(());
        };
        let first = removal.id;
        let ids = removal_ids(*self.removals.allocator(), front)?;
        let count = run_length(first, ids.as_slice(), most_of(random, form));
        let mut next = first;
        for _ in 0..count {
            for removal in self.removals.iter_mut() {
                removal.is_back = removal.is_back || removal.id == next;
            }
            next = next_id(next);
        }
        write_run(text, "v", id, first, count)
    }

    /// Whether the character is visible: each of its removals is taken back.
    fn is_visible(&self, id: Id) -> bool {
        self.removals
            .iter()
            .all(|removal| removal.target != id || removal.is_back)
    }

    fn mark(
        &mut self,
        random: &mut Random,
        form: Form,
        id: Id,
        known: Known,
        text: &mut String,
    ) -> Result<(), AllocError> {
        let Some(choice) = any_choice(random, form) else {
            return Ok(());
        };
        let front = self.letters.get(..known.letters).unwrap_or_default();
        let start = any_anchor(random, front);
        let end = any_anchor(random, front);
        let Choice {
            key,
            name,
            value,
            ..
        } = choice;
        let added = random.below(4) > 0;
        if added {
            write!(text, "m {id} {name} {value} {start} {end}\n")?;
        } else {
            write!(text, "u {id} {name} {start} {end}\n")?;
        }
        self.marks.push(Mark {
            id,
            key,
            value: if added { Some(choice.printed) } else { None },
            start,
            end,
        })?;
        Ok(())
    }

    /// A change of one line, of any form.
    fn change(
        &mut self,
        alloc: Global,
        random: &mut Random,
        id: Id,
        known: Known,
    ) -> Result<String, AllocError> {
        let form = any_form(random);
        let name = match form {
            Form::First => "change",
            Form::Second => "change2",
            Form::Third => "change3",
        };
        let mut text = format!(in alloc; "{name} {} 1\n", id.node)?;
        match (form, random.below(10)) {
            (Form::Third, 1 | 2) if known.removals > 0 => {
                self.revive(random, form, id, known, &mut text)?
            }
            (_, 0) | (Form::Third, 1..=3) if known.letters > 0 => {
                self.remove(random, form, id, known, &mut text)?
            }
            (_, 1..=4) if known.letters > 0 => self.mark(random, form, id, known, &mut text)?,
            _ => self.insert(random, form, id, known, &mut text)?,
        }
        Ok(text)
    }
}

fn made_history(alloc: Global, seed: u64) -> Result<History, AllocError> {
    let mut random = Random::new(seed);
    let mut history = History {
        letters: Vec::new(alloc),
        removals: Vec::new(alloc),
        marks: Vec::new(alloc),
        rounds: Vec::new(alloc),
    };
    for round in 0..16u64 {
        // A round's runs have at most three operations.
        let counter = round.saturating_mul(3).saturating_add(1);
        let known = Known {
            letters: history.letters.len(),
            removals: history.removals.len(),
        };
        let first = history.change(alloc, &mut random, Id { counter, node: 1 }, known)?;
        let second = history.change(alloc, &mut random, Id { counter, node: 2 }, known)?;
        let third = history.change(alloc, &mut random, Id { counter, node: 3 }, known)?;
        history.rounds.push([first, second, third])?;
    }
    Ok(history)
}

/// The ids from the root of the tree down to this character.
fn path_of(alloc: Global, letters: &[Letter], id: Id) -> Result<Vec<Id>, AllocError> {
    let mut path = Vec::new(alloc);
    let mut next = Some(id);
    for _ in 0..letters.len() {
        let Some(here) = next else {
            break;
        };
        path.push(here)?;
        next = letters
            .iter()
            .find(|letter| letter.id == here)
            .and_then(|letter| letter.parent);
    }
    path.reverse();
    Ok(path)
}

/// Whether a path is a front of the other, or has the greater id where they part.
fn is_before(path: &[Id], other: &[Id]) -> bool {
    for (left, right) in path.iter().zip(other) {
        if left != right {
            return left > right;
        }
    }
    path.len() < other.len()
}

/// The number of characters, removed ones too, before this one.
fn place_of(alloc: Global, letters: &[Letter], id: Id) -> Result<usize, AllocError> {
    let path = path_of(alloc, letters, id)?;
    let mut count: usize = 0;
    for letter in letters {
        if is_before(&path_of(alloc, letters, letter.id)?, &path) {
            count = count.saturating_add(1);
        }
    }
    Ok(count)
}

/// The anchor's index among all anchors, of which each character has two.
fn anchor_of(alloc: Global, letters: &[Letter], anchor: Anchor) -> Result<usize, AllocError> {
    match anchor {
        Anchor::Start => Ok(0),
        Anchor::Before(id) => Ok(
            place_of(alloc, letters, id)?
                .saturating_mul(2)
                .saturating_add(1),
        ),
        Anchor::After(id) => Ok(
            place_of(alloc, letters, id)?
                .saturating_mul(2)
                .saturating_add(2),
        ),
        Anchor::End => Ok(usize::MAX),
    }
}

/// The covering operation on this key with the greatest id, of a character with these two anchors.
fn newest_of(
    alloc: Global,
    history: &History,
    key: usize,
    before: usize,
    after: usize,
) -> Result<Option<Mark>, AllocError> {
    let mut newest: Option<Mark> = None;
    for mark in &history.marks {
        let starts = anchor_of(alloc, &history.letters, mark.start)?;
        let ends = anchor_of(alloc, &history.letters, mark.end)?;
        let newer = newest.map_or(true, |old| old.id < mark.id);
        if mark.key == key && starts <= before && after <= ends && newer {
            newest = Some(*mark);
        }
    }
    Ok(newest)
}

/// What is printed of the character's format: for each key what the covering operation with the greatest id says.
fn format_of(alloc: Global, history: &History, id: Id) -> Result<String, AllocError> {
    let before = anchor_of(alloc, &history.letters, Anchor::Before(id))?;
    let after = anchor_of(alloc, &history.letters, Anchor::After(id))?;
    let mut out = String::new(alloc);
    for key in 0..KEYS.len() {
        let newest = newest_of(alloc, history, key, before, after)?;
        if let Some(value) = newest.and_then(|mark| mark.value) {
            let comma = if out.is_empty() { "" } else { "," };
            write!(out, "{comma}{value}")?;
        }
    }
    if out.is_empty() {
        out.push_str("plain")?;
    }
    Ok(out)
}

/// The character at a place, where it is visible.
fn visible_at(
    alloc: Global,
    history: &History,
    place: usize,
) -> Result<Option<Letter>, AllocError> {
    for letter in &history.letters {
        if place_of(alloc, &history.letters, letter.id)? == place && history.is_visible(letter.id) {
            return Ok(Some(*letter));
        }
    }
    Ok(None)
}

/// The lines of spans, as far as they have been written.
#[derive(Drop)]
struct Lines {
    text: String,
    count: usize,
    format: String,
}

impl Lines {
    fn push(&mut self, format: String, code: char) -> Result<(), AllocError> {
        if format != self.format {
            let end = if self.count == 0 { "" } else { "\n" };
            let index = self.count;
            write!(self.text, "{end}{index} {format} ")?;
            self.count = self.count.saturating_add(1);
            self.format = format;
        }
        self.text.push(code)
    }
}

/// The lines of the spans.
fn spans_of(alloc: Global, history: &History) -> Result<String, AllocError> {
    let mut lines = Lines {
        text: String::new(alloc),
        count: 0,
        format: String::new(alloc),
    };
    for place in 0..history.letters.len() {
        if let Some(letter) = visible_at(alloc, history, place)? {
            lines.push(format_of(alloc, history, letter.id)?, letter.code)?;
        }
    }
    if lines.count > 0 {
        lines.text.push('\n')?;
    }
    Ok(lines.text)
}

/// The orders in which the three changes of a round may come.
static ORDERS: [[usize; 3]; 6] = [
    [0, 1, 2],
    [2, 1, 0],
    [1, 2, 0],
    [0, 2, 1],
    [1, 0, 2],
    [2, 0, 1],
];

/// The changes, each round in the next of the orders, the first round in that of this index.
fn in_orders(alloc: Global, history: &History, first: usize) -> Result<String, AllocError> {
    let mut out = String::new(alloc);
    for (number, round) in history.rounds.iter().enumerate() {
        let index = number.wrapping_add(first) % ORDERS.len();
        let order = ORDERS.get(index).copied().unwrap_or_default();
        for peer in order {
            if let Some(change) = round.get(peer) {
                out.push_str(change.as_str())?;
            }
        }
    }
    Ok(out)
}

/// The changes of the first of the histories whose spans aren't those of the reference, in the first such order, if
/// there are any.
fn first_wrong<
    H: AllocGlobal
        + Threads
        + Wait
        + Net<Listener = TcpListener, Stream = TcpStream>
        + Files
        + Clock
        + Copy
        + Send
        + Sync,
>(rt: &H, seeds: u64) -> Result<Option<String>, Fail> {
    let alloc = rt.alloc();
    for seed in 1..=seeds {
        let history = made_history(alloc, seed)?;
        let want = spans_of(alloc, &history)?;
        for first in 0..ORDERS.len() {
            let input = in_orders(alloc, &history, first)?;
            if !is_answered(rt, "hub spans", &input, 0, &want)? {
                return Ok(Some(input));
            }
        }
    }
    Ok(None)
}

#[test]
fn replicas_agree_with_a_plain_reference(rt: HostRuntime) -> Result<(), Fail> {
    assert_eq!(rt; first_wrong(&rt, 8)?, None);
    Ok(())
}
