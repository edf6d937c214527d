//! The threads that accept the connections of doors.
use crate::door::{Door, DoorKind};
use crate::ending::turn_away;
use crate::fault::ConnectionFault;
use crate::house::House;
use crate::journal::Surroundings;
use crate::lines::serve_lines;
use crate::session_share::SessionShare;
use crate::stream::{Peer, Stream};
use crate::web::{refuse_handshake, serve_browser};
use call_history::knowledge::HistoryNaming;
use change_keeping::keeping::Keeping;
use lending_pool::Lent;
use std::io::ErrorKind;
use std::rt::Clock;
use std::sync::Wait;
use std::sync::atomic::{AtomicU64, Ordering};
use std::sync::ledger::Ledger;
use std::thread;
use std::thread::Threads;
use version_history::published::Naming;

/// What comes to a door.
#[derive(Drop)]
enum Arrival {
    Came(Stream, Peer),
    /// An accept that failed.
    Missed,
    /// Nobody waits there now.
    Nobody,
    /// No session begins any more.
    Over,
}

/// What comes next.
fn next<
    N: Naming + HistoryNaming + Ledger + Keeping + Send + Sync,
    R: Threads + Wait + Clock + Copy + Send + Sync,
    J: Surroundings + Send + Sync,
>(house: &House<'_, '_, '_, '_, N, R, J>, door: &Door) -> Arrival {
    if house.is_closed() {
        return Arrival::Over;
    }
    match door.next() {
        Ok((stream, peer)) => Arrival::Came(stream, peer),
        Err(error) if error.kind() == ErrorKind::WouldBlock => {
            house.look_later();
            Arrival::Nobody
        }
        Err(error) => {
            house.miss(ConnectionFault::Accept(error));
            Arrival::Missed
        }
    }
}

/// One of a door's connections, and for which of them no thread could be made: what was to serve that one looks here
/// first, since it is then called by who accepts connections.
#[derive(Clone, Copy)]
struct Turn<'d> {
    number: u64,
    threadless: &'d AtomicU64,
}

impl Turn<'_> {
    /// No thread could be made for it.
    fn give_up(self) {
        self.threadless.store(self.number, Ordering::SeqCst);
    }

    /// Whether it has none.
    fn is_given_up(self) -> bool {
        self.threadless.load(Ordering::SeqCst) == self.number
    }
}

/// Serves a connection of lines; without a thread of its own it is turned away, and its share is free again.
fn serve_or_turn_away<
    'h,
    N: Naming + HistoryNaming + Ledger + Keeping + Send + Sync,
    R: Threads + Wait + Clock + Copy + Send + Sync,
    J: Surroundings + Send + Sync,
>(
    house: &House<'h, '_, '_, '_, N, R, J>,
    door: &Door,
    peer: Peer,
    lent: Lent<'h, SessionShare<N>, R>,
    stream: Stream,
    turn: Turn<'_>,
) {
    if turn.is_given_up() {
        drop(lent);
        turn_away(&stream, &house.state.is_halted);
    } else {
        serve_lines(house, door.kind(), peer, lent, stream);
    }
}

/// Accepts one connection of lines after another, each of which is a session in a thread of its own.
fn accept_lines<
    N: Naming + HistoryNaming + Ledger + Keeping + Send + Sync,
    R: Threads + Wait + Clock + Copy + Send + Sync,
    J: Surroundings + Send + Sync,
>(house: &House<'_, '_, '_, '_, N, R, J>, door: &Door) {
    // Where sessions are counted no further one will be free, and a client more is told nothing.
    let is_told = !house.uses_up();
    let threadless = AtomicU64::new(0);
    let threadless = &threadless;
    thread::scope(thread::scope_env(), &house.rt, move |scope| {
        let mut number = 0u64;
        for _ in house.rt.forever() {
            let (stream, peer) = match next(house, door) {
                Arrival::Came(stream, peer) => (stream, peer),
                Arrival::Missed | Arrival::Nobody => continue,
                Arrival::Over => return,
            };
            let Some(lent) = house.shares.lend(&house.rt) else {
                if is_told {
                    turn_away(&stream, &house.state.is_halted);
                }
                continue;
            };
            number = number.wrapping_add(1);
            let turn = Turn { number, threadless };
            let serving = move || serve_or_turn_away(house, door, peer, lent, stream, turn);
            if let Err(refused) = scope.spawn(serving) {
                turn.give_up();
                (refused.value)();
            }
        }
    })
}

/// Serves a browser's connection; without a thread of its own it is refused, and its place is free again.
fn serve_or_refuse<
    'h,
    N: Naming + HistoryNaming + Ledger + Keeping + Send + Sync,
    R: Threads + Wait + Clock + Copy + Send + Sync,
    J: Surroundings + Send + Sync,
>(
    house: &House<'h, '_, '_, '_, N, R, J>,
    peer: Peer,
    place: Lent<'h, (), R>,
    stream: Stream,
    turn: Turn<'_>,
) {
    if turn.is_given_up() {
        drop(place);
        refuse_handshake(&stream, &house.state.is_halted);
    } else {
        serve_browser(house, peer, place, stream);
    }
}

/// Accepts one browser's connection after another, each of which is served in a thread of its own, where there is a
/// place for its handshake.
fn accept_browsers<
    N: Naming + HistoryNaming + Ledger + Keeping + Send + Sync,
    R: Threads + Wait + Clock + Copy + Send + Sync,
    J: Surroundings + Send + Sync,
>(house: &House<'_, '_, '_, '_, N, R, J>, door: &Door) {
    let threadless = AtomicU64::new(0);
    let threadless = &threadless;
    thread::scope(thread::scope_env(), &house.rt, move |scope| {
        let mut number = 0u64;
        for _ in house.rt.forever() {
            let (stream, peer) = match next(house, door) {
                Arrival::Came(stream, peer) => (stream, peer),
                Arrival::Missed | Arrival::Nobody => continue,
                Arrival::Over => return,
            };
            let Some(place) = house.handshakes.lend(&house.rt) else {
                refuse_handshake(&stream, &house.state.is_halted);
                continue;
            };
            number = number.wrapping_add(1);
            let turn = Turn { number, threadless };
            let serving = move || serve_or_refuse(house, peer, place, stream, turn);
            if let Err(refused) = scope.spawn(serving) {
                turn.give_up();
                (refused.value)();
            }
        }
    })
}

/// Accepts one connection after another until no session begins any more, and returns when all of them have ended.
pub(crate) fn accept_all<
    N: Naming + HistoryNaming + Ledger + Keeping + Send + Sync,
    R: Threads + Wait + Clock + Copy + Send + Sync,
    J: Surroundings + Send + Sync,
>(house: &House<'_, '_, '_, '_, N, R, J>, door: &Door) {
    if house.may_close()
        && let Err(error) = door.wait_for_nothing()
    {
        let _ = house.state.fault.try_set(ConnectionFault::Accept(error));
        return house.halt();
    }
    match door.kind() {
        DoorKind::Web => accept_browsers(house, door),
        DoorKind::Port | DoorKind::Unix => accept_lines(house, door),
    }
}
