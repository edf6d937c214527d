use crate::fault::Fault;
use crate::session::Session;
use std::alloc::{AllocError, Global};
use std::fmt::Write;

/// The id of a character. Of characters at the start the one with the greater id is nearer to it.
#[derive(Clone, Copy, PartialEq, Eq, PartialOrd, Ord)]
struct Id {
    counter: usize,
    peer: usize,
}

/// The id of the character that each version has first; None for version 0.
///
/// The sessions' changes make as many versions as they are: over all sessions the numbers are each number from 1 on
/// once, and within a session they rise.
fn order(alloc: Global, sessions: &[Session], changes: usize) -> Result<Vec<Option<Id>>, Fault> {
    let mut order = vec![in alloc; None; changes.saturating_add(1)]?;
    for session in sessions {
        put_ids(&mut order, session)?;
    }
    Ok(order)
}

/// Puts the ids of a session's characters at the indexes of their versions.
fn put_ids(order: &mut [Option<Id>], session: &Session) -> Result<(), Fault> {
    let peer = session.peer;
    let mut last = 0usize;
    for (index, version) in session.versions.iter().enumerate() {
        let counter = index.saturating_add(1);
        match order.get_mut(*version) {
            Some(entry) if entry.is_none() && *version > last => *entry = Some(Id {
                counter,
                peer,
            }),
            _ => return Err(Fault::Versions),
        }
        last = *version;
    }
    Ok(())
}

/// The program's verdict on characters of which these are the first eight, or all where there are fewer.
fn verdict(front: &[Id]) -> usize {
    if front.len() < 8 {
        return front.len();
    }
    let mut verdict = 0usize;
    for id in front.iter().rev() {
        verdict = verdict.wrapping_mul(256).wrapping_add(letter(id.peer));
    }
    verdict
}

/// The letter of a peer's characters: a for the first peer.
pub fn letter(peer: usize) -> usize {
    peer.wrapping_add(0x60)
}

/// What the program's items are from version 0 on, if the changes were accepted in the order that their answers tell.
#[derive(Drop)]
pub struct Stream {
    /// The lines of the items.
    lines: String,
    /// Where the lines of each version begin.
    starts: Vec<usize>,
}

impl Stream {
    pub fn new(alloc: Global, sessions: &[Session], changes: usize) -> Result<Stream, Fault> {
        let order = order(alloc, sessions, changes)?;
        let mut stream = Stream {
            lines: String::from_str(alloc, "end 0 0\n")?,
            starts: vec![in alloc; 0]?,
        };
        let mut front = Vec::new(alloc);
        for (version, id) in order.iter().enumerate().skip(1) {
            let id = id.ok_or(Fault::Versions)?;
            stream.push(version, id, &mut front)?;
        }
        Ok(stream)
    }

    /// Appends the items of the version that has the character first; `front` has the first eight characters.
    fn push(&mut self, version: usize, id: Id, front: &mut Vec<Id>) -> Result<(), AllocError> {
        front.push(id)?;
        front.sort_unstable_by(|a, b| b.cmp(a));
        front.truncate(8);
        self.starts.push(self.lines.len())?;
        let verdict = verdict(front);
        writeln!(self.lines, "hit {version} 0 {verdict}\nend {version} 1")?;
        Ok(())
    }

    /// The version from which on the lines are the stream, to its end.
    pub fn first_version(&self, lines: &str) -> Option<usize> {
        let start = self.lines.len().checked_sub(lines.len())?;
        if !self.lines.as_str().ends_with(lines) {
            return None;
        }
        self.starts.iter().position(|at| *at == start)
    }
}
