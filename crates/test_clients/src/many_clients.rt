use crate::client::Client;
use crate::fault::Fault;
use crate::session::{CHANGES, Session};
use crate::stream::Stream;
use std::alloc::Global;
use std::net::{Net, TcpStream};
use std::thread::{Threads, for_each_mut};

/// How many sessions there are at once. Their peers are numbered from 1.
const SESSIONS: usize = 8;

/// Whether the subscribers are numbered from 0.
fn are_numbered(sessions: &[Session]) -> bool {
    (0..SESSIONS).all(|number| sessions
        .iter()
        .any(|session| session.subscriber == Some(number)))
}

/// Looks at what all sessions were told.
fn look(alloc: Global, sessions: &[Session]) -> Result<(), Fault> {
    for session in sessions {
        session.told?;
    }
    let stream = Stream::new(alloc, sessions, SESSIONS * CHANGES)?;
    for session in sessions {
        if !session.has_its_items(&stream) {
            return Err(Fault::Items(session.peer));
        }
    }
    if are_numbered(sessions) {
        Ok(())
    } else {
        Err(Fault::Subscribers)
    }
}

/// Sessions at once, each with changes, a subscriber and pulls, and then with pulls alone; at the end one session after
/// another pulls what is left.
pub fn many<H: Threads + Net<Stream = TcpStream> + Sync>(
    rt: &H,
    alloc: Global,
    port: u16,
) -> Result<(), Fault> {
    let mut sessions = Vec::new(alloc);
    for peer in 1..=SESSIONS {
        let client = Client::connect(rt, alloc, port)?;
        sessions.push(Session::new(alloc, client, peer))?;
    }
    for_each_mut(
        rt,
        &mut sessions,
        SESSIONS,
        &|_, session| session.change(alloc),
    );
    for_each_mut(
        rt,
        &mut sessions,
        SESSIONS,
        &|_, session| session.finish(alloc),
    );
    for session in &mut sessions {
        session.finish(alloc);
    }
    look(alloc, &sessions)
}
