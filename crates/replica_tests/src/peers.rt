//! Peers that number their operations as Lamport's clocks do, and what they send.
use std::alloc::{AllocError, Global};
use test_inputs::ids::Id;
use test_inputs::random::Random;

/// A message as it is sent: the counter of the peer's last operation before it, and the change's text.
#[derive(Drop)]
pub struct Sent {
    pub previous: u64,
    pub text: String,
}

/// Some peers, and the ids that an operation may name.
#[derive(Drop)]
pub struct Peers {
    random: Random,
    last: Vec<u64>,
    characters: Vec<Id>,
    removals: Vec<Id>,
}

impl Peers {
    pub fn new(alloc: Global, seed: u64, count: usize) -> Result<Peers, AllocError> {
        let mut last = Vec::new(alloc);
        for _peer in 0..count {
            last.push(0)?;
        }
        Ok(Peers {
            random: Random::new(seed),
            last,
            characters: Vec::new(alloc),
            removals: Vec::new(alloc),
        })
    }

    /// The next id of a peer, above those that its operation names.
    fn next_id(&mut self, peer: usize, named: u64) -> Id {
        let mut counter = named;
        if let Some(last) = self.last.get_mut(peer) {
            counter = counter
                .max(*last)
                .wrapping_add(1)
                .wrapping_add(self.random.below(2) as u64);
            *last = counter;
        }
        Id {
            counter,
            node: (peer as u64).wrapping_add(1),
        }
    }

    fn any_character(&mut self) -> Option<Id> {
        let index = self.random.below(self.characters.len());
        self.characters.get(index).copied()
    }

    fn any_removal(&mut self) -> Option<Id> {
        let index = self.random.below(self.removals.len());
        self.removals.get(index).copied()
    }

    /// The line of an insert.
    fn insert(&mut self, alloc: Global, peer: usize) -> Result<String, AllocError> {
        let character = self.random.below(26).wrapping_add(97);
        let parent = self.any_character();
        match parent {
            Some(parent) => {
                let id = self.next_id(peer, parent.counter);
                self.characters.push(id)?;
                format!(in alloc; "i {id} {parent} {character:x}\n")
            }
            None => {
                let id = self.next_id(peer, 0);
                self.characters.push(id)?;
                format!(in alloc; "i {id} - {character:x}\n")
            }
        }
    }

    /// The line of an operation on what is there, of an insert where nothing is.
    fn line(&mut self, alloc: Global, peer: usize) -> Result<String, AllocError> {
        let kind = self.random.below(8);
        let Some(one) = self.any_character() else {
            return self.insert(alloc, peer);
        };
        if kind == 0 {
            let id = self.next_id(peer, one.counter);
            self.removals.push(id)?;
            return format!(in alloc; "d {id} {one}\n");
        }
        if kind == 1 {
            if let Some(removal) = self.any_removal() {
                let id = self.next_id(peer, removal.counter);
                return format!(in alloc; "v {id} {removal}\n");
            }
        }
        if kind == 2 {
            let id = self.next_id(peer, one.counter);
            return format!(in alloc; "m {id} strong - <{one} $\n");
        }
        if kind == 3 {
            let id = self.next_id(peer, one.counter);
            return format!(in alloc; "u {id} strong <{one} $\n");
        }
        self.insert(alloc, peer)
    }

    /// What a peer sends next.
    pub fn send(&mut self, alloc: Global) -> Result<Sent, AllocError> {
        let peer = self.random.below(self.last.len());
        let previous = self.last.get(peer).copied().unwrap_or(0);
        let count = self.random.below(4).wrapping_add(1);
        let node = peer.wrapping_add(1);
        let mut text = format!(in alloc; "change3 {node} {count}\n")?;
        for _line in 0..count {
            let line = self.line(alloc, peer)?;
            text.push_str(line.as_str())?;
        }
        Ok(Sent { previous, text })
    }
}
