//! A session of lines.
use crate::door::DoorKind;
use crate::ending::read_rest;
use crate::fault::ConnectionFault;
use crate::house::House;
use crate::journal::Surroundings;
use crate::link::{Link, Patient, Traffic};
use crate::session_share::SessionShare;
use crate::stream::{Peer, Stream};
use crate::tally::{Tallied, Tally};
use call_history::knowledge::HistoryNaming;
use change_keeping::clerk::Clerk;
use change_keeping::keeping::Keeping;
use hub_sessions::conversation::SessionFault;
use lending_pool::Lent;
use std::io;
use std::io::ErrorKind;
use std::rt::Clock;
use std::sync::Wait;
use std::sync::ledger::Ledger;
use std::thread::Threads;
use version_history::published::Naming;

/// Runs a session over a connection.
fn session_over<
    N: Naming + HistoryNaming + Ledger + Keeping + Send + Sync,
    R: Threads + Wait + Clock + Copy + Send + Sync,
    J: Surroundings + Send + Sync,
>(
    house: &House<'_, '_, '_, '_, N, R, J>,
    kind: DoorKind,
    share: &mut SessionShare<N>,
    stream: &Stream,
    tally: &Tally,
    traffic: &Traffic,
) -> Result<(), SessionFault> {
    stream.send_at_once();
    let halted = &house.state.is_halted;
    let link = Link::new(stream, house.patience(kind), halted, traffic).map_err(
        SessionFault::Read,
    )?;
    let Ok(mut clerk) = Clerk::new(house.rt, house.alloc, house.desk) else {
        return Err(SessionFault::Read(io::Error::from(ErrorKind::OutOfMemory)));
    };
    share.session(
        &house.rt,
        house.alloc,
        house.hub,
        house.published,
        &mut clerk,
        Patient::new(link),
        &mut Tallied::new(link, tally),
        house.terms.workers.count(),
        house.terms.options,
    )
}

/// Runs a session over a connection by a share, which is given back once the connection has ended.
pub(crate) fn serve_lines<
    'h,
    N: Naming + HistoryNaming + Ledger + Keeping + Send + Sync,
    R: Threads + Wait + Clock + Copy + Send + Sync,
    J: Surroundings + Send + Sync,
>(
    house: &House<'h, '_, '_, '_, N, R, J>,
    kind: DoorKind,
    peer: Peer,
    lent: Lent<'h, SessionShare<N>, R>,
    stream: Stream,
) {
    let mut lent = lent;
    let visit = house.begin(kind, peer);
    let tally = Tally::new(house.terms.is_logged);
    let traffic = Traffic::new();
    let ended = session_over(house, kind, &mut lent.value, &stream, &tally, &traffic);
    if let Err(fault) = ended {
        house.note_fault(ConnectionFault::Session(fault));
    }
    read_rest(&house.rt, &stream, &house.state.is_halted);
    drop(stream);
    house.end(&visit, &tally, &traffic);
    house.give_back(lent);
}
