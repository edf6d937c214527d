//! Random sessions, each also with refused requests among its own: those are refused by their numbers, and change no
//! reply.

use crate::answers::{answer, is_answered};
use crate::refused_requests::{LAST, REFUSED};
use std::alloc::{AllocError, Global};
use std::fmt::Write;
use std::fs::Files;
use std::net::{Net, TcpListener, TcpStream};
use std::rt::Clock;
use std::sync::Wait;
use std::test::Fail;
use std::thread::Threads;
use test_inputs::ids::Id;
use test_inputs::random::Random;

/// Programs that subscribers have: 1 on each span, on a strong one, and on one whose text ends with a question mark.
static PROGRAMS: [&str; 3] = [
    "b7000000010000009500000000000000",
    "611018000000000057000000010000009500000000000000",
    "b700000000000000791208000000000079110000000000003d210400000000007121ffff00000000b400000001000000160101003f000000b4000000000000009500000000000000",
];

/// The first change of each session, so that the id `1@1` is used from then on.
const FIRST: &str = "change 1 1\ni 1@1 - 61\n";

/// What the good requests of a session may name, so that none of them is refused.
#[derive(Drop)]
struct Known {
    random: Random,
    /// That of the newest operation.
    counter: u64,
    characters: Vec<Id>,
    /// The ids of the subscribers that aren't closed.
    open: Vec<usize>,
    subscribers: usize,
}

impl Known {
    /// What is known after the first change.
    fn after_first(alloc: Global, seed: u64) -> Known {
        Known {
            random: Random::new(seed),
            counter: 1,
            characters: Vec::new(alloc),
            open: Vec::new(alloc),
            subscribers: 0,
        }
    }

    fn any_character(&mut self) -> Id {
        let index = self.random.below(self.characters.len());
        let first = Id {
            counter: 1,
            node: 1,
        };
        self.characters.get(index).copied().unwrap_or(first)
    }

    fn next_id(&mut self, node: u64) -> Id {
        self.counter = self.counter.saturating_add(1);
        Id {
            counter: self.counter,
            node,
        }
    }

    /// Appends the line of an operation.
    fn push_operation(&mut self, node: u64, text: &mut String) -> Result<(), AllocError> {
        let one = self.any_character();
        let other = self.any_character();
        let id = self.next_id(node);
        match self.random.below(8) {
            0 => write!(text, "d {id} {one}\n"),
            1 => write!(text, "m {id} strong - <{one} >{other}\n"),
            2 => write!(text, "m {id} link a >{one} <{other}\n"),
            3 => write!(text, "u {id} strong <{one} $\n"),
            4 => {
                self.characters.push(id)?;
                write!(text, "i {id} - 3f\n")
            }
            _ => {
                self.characters.push(id)?;
                write!(text, "i {id} {one} 61\n")
            }
        }
    }

    /// Appends a change of 1 to 4 operations.
    fn push_change(&mut self, text: &mut String) -> Result<(), AllocError> {
        let node = self.random.one_of(&[1, 2, 3]);
        let count = self.random.one_of(&[1, 2, 3, 4]);
        write!(text, "change {node} {count}\n")?;
        for _ in 0..count {
            self.push_operation(node, text)?;
        }
        Ok(())
    }

    fn push_subscribe(&mut self, text: &mut String) -> Result<(), AllocError> {
        let capacity = self.random.one_of(&[1, 2, 8, 1024]);
        let program = self.random.one_of(&PROGRAMS);
        self.open.push(self.subscribers)?;
        self.subscribers = self.subscribers.saturating_add(1);
        write!(text, "sub {capacity} {program}\n")
    }

    fn push_pull(&mut self, text: &mut String) -> Result<(), AllocError> {
        let id = self.random.one_of(&self.open);
        let count = self.random.one_of(&[1, 3, 10, 1024]);
        write!(text, "pull {id} {count}\n")
    }

    fn push_close(&mut self, text: &mut String) -> Result<(), AllocError> {
        match self.open.pop() {
            Some(id) => write!(text, "close {id}\n"),
            None => Ok(()),
        }
    }

    /// Appends a good request.
    fn push_request(&mut self, text: &mut String) -> Result<(), AllocError> {
        let some = !self.open.is_empty();
        match self.random.below(16) {
            0..=6 => self.push_change(text),
            7..=12 if some => self.push_pull(text),
            13 if some => self.push_close(text),
            _ => self.push_subscribe(text),
        }
    }
}

/// A session, and the same with refused requests.
#[derive(Drop)]
struct Session {
    good: String,
    spoiled: String,
    /// The replies to the refused requests behind each of the good ones.
    refusals: Vec<String>,
}

impl Session {
    /// The session of the first change.
    fn first(alloc: Global) -> Result<Session, AllocError> {
        Ok(Session {
            good: FIRST.to_string(alloc)?,
            spoiled: FIRST.to_string(alloc)?,
            refusals: Vec::new(alloc),
        })
    }

    /// Adds a good request.
    fn push_good(&mut self, known: &mut Known) -> Result<(), AllocError> {
        let begin = self.good.len();
        known.push_request(&mut self.good)?;
        let request = self.good.get(begin..).unwrap_or_default();
        self.spoiled.push_str(request)
    }

    /// Adds `count` refused requests of a table of requests and replies, behind a good one.
    fn push_refused(
        &mut self,
        alloc: Global,
        random: &mut Random,
        count: usize,
        table: &[(&str, &str)],
    ) -> Result<(), AllocError> {
        let mut replies = String::new(alloc);
        for _ in 0..count {
            let (request, reply) = random.one_of(table);
            self.spoiled.push_str(request)?;
            write!(replies, "{reply}\n")?;
        }
        self.refusals.push(replies)?;
        Ok(())
    }
}

/// A session of 26 good requests, of which some stand on more than one line.
fn made_session(
    alloc: Global,
    seed: u64,
    refused: &[(&str, &str)],
    last: &[(&str, &str)],
) -> Result<Session, AllocError> {
    let mut known = Known::after_first(alloc, seed);
    let mut session = Session::first(alloc)?;
    for _ in 0..25 {
        let count = known.random.below(3);
        session.push_refused(alloc, &mut known.random, count, refused)?;
        session.push_good(&mut known)?;
    }
    session.push_refused(alloc, &mut known.random, 1, last)?;
    Ok(session)
}

/// The replies to the good requests, each with the refusals behind it, if there are as many.
fn merged(alloc: Global, replies: &str, refusals: &[String]) -> Result<Option<String>, AllocError> {
    let mut out = String::new(alloc);
    let mut count = 0;
    for line in replies.lines() {
        write!(out, "{line}\n")?;
        if line.starts_with("ok ") {
            if let Some(behind) = refusals.get(count) {
                out.push_str(behind)?;
            }
            count = count.saturating_add(1);
        }
    }
    Ok(Some(out).filter(|_| count == refusals.len()))
}

/// Whether the refused requests change no reply, and are replied to as they must be.
fn is_unchanged<
    H: AllocGlobal
        + Threads
        + Wait
        + Net<Listener = TcpListener, Stream = TcpStream>
        + Files
        + Clock
        + Copy
        + Send
        + Sync,
>(rt: &H, session: &Session) -> Result<bool, Fail> {
    let (status, replies) = answer(rt, "hub replay", &session.good)?;
    match merged(rt.alloc(), &replies, &session.refusals)? {
        Some(want) if status == 0 => { is_answered(rt, "hub replay", &session.spoiled, 0, &want) }
        _ => Ok(false),
    }
}

/// The first of the sessions, with its refused requests, whose good requests are replied to otherwise than without
/// them, if there is one.
fn first_spoiled<
    H: AllocGlobal
        + Threads
        + Wait
        + Net<Listener = TcpListener, Stream = TcpStream>
        + Files
        + Clock
        + Copy
        + Send
        + Sync,
>(rt: &H, seeds: u64) -> Result<Option<String>, Fail> {
    for seed in 1..=seeds {
        let session = made_session(rt.alloc(), seed, &REFUSED, &LAST)?;
        if !is_unchanged(rt, &session)? {
            return Ok(Some(session.spoiled));
        }
    }
    Ok(None)
}

#[test]
fn refused_requests_change_no_reply(rt: HostRuntime) -> Result<(), Fail> {
    assert_eq!(rt; first_spoiled(&rt, 30)?, None);
    Ok(())
}
