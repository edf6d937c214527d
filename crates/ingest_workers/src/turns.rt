use std::array;
use std::sync::Wait;
use std::sync::atomic::{AtomicU64, Ordering};

/// How many words there are to wait at. While no more threads wait, each waits at a word of its own, so that the end
/// of a turn wakes one thread and not all.
const WORDS: u64 = 256;

/// The order in which threads come to what they share: first come, first served. Each takes a ticket and waits until
/// the one before it has left. It keeps no two threads apart by itself: a lock does, which only the thread whose turn
/// it is asks for.
#[derive(Drop)]
pub(crate) struct Turns {
    /// The ticket that the next thread takes.
    next: AtomicU64,
    /// At the word of a ticket, the last ticket of that word whose turn came.
    admitted: [AtomicU64; WORDS as usize],
}

/// A thread's turn, which ends when it is dropped.
pub(crate) struct Turn<'t> {
    turns: &'t Turns,
    ticket: u64,
}

impl Turns {
    /// No thread has come yet. The first ticket is 0, and its turn has come.
    pub(crate) fn new() -> Turns {
        Turns {
            next: AtomicU64::new(0),
            admitted: array::from_fn(|_| AtomicU64::new(0)),
        }
    }

    /// The word that tells that a ticket's turn came.
    fn word(&self, ticket: u64) -> &AtomicU64 {
        &self.admitted[(ticket % WORDS) as usize]
    }

    /// Waits for a turn behind all threads that came before.
    pub(crate) fn wait<R: Wait>(&self, rt: &R) -> Turn<'_> {
        let ticket = self.next.fetch_add(1, Ordering::SeqCst);
        let word = self.word(ticket);
        for _ in rt.forever() {
            let admitted = word.load(Ordering::SeqCst);
            if admitted == ticket {
                break;
            }
            // It sleeps only while the low half is as it was: tickets of one word that wait at once differ in it.
            word.park(rt, (admitted & 0xffff_ffff) as u32);
        }
        Turn {
            turns: self,
            ticket,
        }
    }

    /// Begins the turn of the ticket behind this one. A thread that takes that ticket only afterwards finds that its
    /// turn has come, so it needs no wake.
    fn admit_after(&self, ticket: u64) {
        let admitted = ticket.wrapping_add(1);
        let word = self.word(admitted);
        word.store(admitted, Ordering::SeqCst);
        if self.next.load(Ordering::SeqCst) != admitted {
            word.wake_all();
        }
    }
}

impl Drop for Turn<'_> {
    fn drop(self) {
        let Turn { turns, ticket } = self;
        turns.admit_after(ticket);
    }
}
