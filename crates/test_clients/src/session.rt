use crate::client::{Client, number_behind};
use crate::fault::Fault;
use crate::stream::{Stream, letter};
use std::alloc::Global;
use std::fmt::Write;

/// How many changes a session sends.
pub const CHANGES: usize = 125;

/// How many of them it sends at a time.
const ROUND: usize = 5;

/// The verdict is a span's first eight bytes, as a number whose lowest byte is the first, or the number of bytes of a
/// shorter span.
const FIRST_EIGHT: &str = "79120000000000007913080000000000bf240000000000000704000008000000\
    2d340200000000007920000000000000950000000000000061101000000000009500000000000000";

/// A session's client, and what it has been told.
#[derive(Drop)]
pub struct Session {
    client: Client,
    pub peer: usize,
    /// The number of the version of each of its changes.
    pub versions: Vec<usize>,
    /// Its subscriber, once it has one.
    pub subscriber: Option<usize>,
    /// How many of its changes had been answered when it subscribed.
    changes_before: usize,
    /// The lines of its subscriber's items.
    items: String,
    /// How it went.
    pub told: Result<(), Fault>,
}

impl Session {
    pub fn new(alloc: Global, client: Client, peer: usize) -> Session {
        Session {
            client,
            peer,
            versions: Vec::new(alloc),
            subscriber: None,
            changes_before: 0,
            items: String::new(alloc),
            told: Ok(()),
        }
    }

    /// Sends all changes.
    pub fn change(&mut self, alloc: Global) {
        self.told = self.send_changes(alloc);
    }

    /// Pulls the items that are left.
    pub fn finish(&mut self, alloc: Global) {
        if self.told.is_ok() {
            self.told = self.pull_rest(alloc);
        }
    }

    /// Sends all changes, and somewhere between them subscribes: each peer before another round.
    fn send_changes(&mut self, alloc: Global) -> Result<(), Fault> {
        for round in 0..CHANGES / ROUND {
            if round == self.peer {
                self.subscribe(alloc)?;
            }
            self.send_round(alloc, round.saturating_mul(ROUND))?;
        }
        Ok(())
    }

    fn subscribe(&mut self, alloc: Global) -> Result<(), Fault> {
        let line = format!(in alloc; "sub 3 {FIRST_EIGHT}\n")?;
        self.client.send(line.as_str())?;
        let reply = self.client.line(alloc)?;
        let subscriber = number_behind(reply.as_str(), "ok sub ").ok_or(Fault::Reply)?;
        self.subscriber = Some(subscriber);
        self.changes_before = self.versions.len();
        Ok(())
    }

    /// Sends a round of changes and a pull of few items at once, and reads the replies.
    fn send_round(&mut self, alloc: Global, sent: usize) -> Result<(), Fault> {
        let text = self.round(alloc, sent)?;
        self.client.send(text.as_str())?;
        for _ in 0..ROUND {
            let reply = self.client.line(alloc)?;
            let version = number_behind(reply.as_str(), "ok version ").ok_or(Fault::Reply)?;
            self.versions.push(version)?;
        }
        if self.subscriber.is_some() {
            self.read_items(alloc)?;
        }
        Ok(())
    }

    /// The lines of a round, behind `sent` changes: each puts a character at the start.
    fn round(&self, alloc: Global, sent: usize) -> Result<String, Fault> {
        let mut text = String::new(alloc);
        let peer = self.peer;
        let letter = letter(peer);
        for index in 1..=ROUND {
            let counter = sent.saturating_add(index);
            writeln!(text, "change {peer} 1\ni {counter}@{peer} - {letter:x}")?;
        }
        if let Some(subscriber) = self.subscriber {
            writeln!(text, "pull {subscriber} 7")?;
        }
        Ok(text)
    }

    /// Reads the reply to a pull, and answers how many items it had.
    fn read_items(&mut self, alloc: Global) -> Result<usize, Fault> {
        for count in 0..1025usize {
            let line = self.client.line(alloc)?;
            let line = line.as_str();
            if line.starts_with("hit ") || line.starts_with("end ") {
                self.items.push_str(line)?;
            } else if number_behind(line, "ok items ") == Some(count) {
                return Ok(count);
            } else {
                return Err(Fault::Reply);
            }
        }
        Err(Fault::Reply)
    }

    /// Pulls until no items are left.
    fn pull_rest(&mut self, alloc: Global) -> Result<(), Fault> {
        let subscriber = self.subscriber.ok_or(Fault::Reply)?;
        let line = format!(in alloc; "pull {subscriber} 1024\n")?;
        for _ in 0..10u8 {
            self.client.send(line.as_str())?;
            if self.read_items(alloc)? == 0 {
                return Ok(());
            }
        }
        Err(Fault::Items(self.peer))
    }

    /// Whether the items are the stream from the version on that was the latest when the session subscribed: not before
    /// its change before, and before its next one.
    pub fn has_its_items(&self, stream: &Stream) -> bool {
        let Some(first) = stream.first_version(self.items.as_str()) else {
            return false;
        };
        let Some((before, behind)) = self.versions.split_at_checked(self.changes_before) else {
            return false;
        };
        before.last().is_some_and(|version| *version <= first)
            && behind.first().is_some_and(|version| first < *version)
    }
}
