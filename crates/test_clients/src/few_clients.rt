use crate::client::{Client, connect, expect, expect_session};
use crate::fault::Fault;
use std::alloc::Global;
use std::io::{Read, Write};
use std::net::{Ipv4Addr, Net, TcpStream};
use std::thread::{Threads, join};

/// A subscriber whose program's verdict is 1 on every span, and a pull of its first items.
const SUBSCRIBE_AND_PULL: &str = "sub 8 b7000000010000009500000000000000\npull 0 9\n";

/// A change, and a subscriber of that program.
const CHANGE_AND_SUBSCRIBE: &str =
    "change 2 1\ni 1@2 - 62\nsub 8 b7000000010000009500000000000000\n";

/// A subscriber of that program, a pull of its first items, and one of a subscriber that is closed.
const SUBSCRIBE_AND_PULL_TWICE: &str =
    "sub 8 b7000000010000009500000000000000\npull 1 9\npull 0 9\n";

/// Two clients send a change each, at once, and are answered in some order.
fn two_at_once<H: Threads + Net<Stream = TcpStream>>(
    rt: &H,
    alloc: Global,
    port: u16,
) -> Result<(), Fault> {
    let mut one = Client::connect(rt, alloc, port)?;
    let mut two = Client::connect(rt, alloc, port)?;
    let (one, two) = join(
        rt,
        move || one.answered(alloc, "change 1 1\ni 1@1 - 61\n"),
        move || two.answered(alloc, "change 2 1\ni 1@2 - 62\n"),
    );
    let (one, two) = (one?, two?);
    match (one.as_str(), two.as_str()) {
        ("ok version 1\n", "ok version 2\n") | ("ok version 2\n", "ok version 1\n") => Ok(()),
        _ => Err(Fault::Reply),
    }
}

/// No connection to another address of the same machine is accepted.
fn refused_elsewhere<H: Net<Stream = TcpStream>>(rt: &H, port: u16) -> Result<(), Fault> {
    match TcpStream::connect(rt, (Ipv4Addr::new(127, 0, 0, 2), port)) {
        Ok(_) => Err(Fault::Address),
        Err(_) => Ok(()),
    }
}

/// When the two have ended a third is told of the version that both made.
pub fn three<H: Threads + Net<Stream = TcpStream>>(
    rt: &H,
    alloc: Global,
    port: u16,
) -> Result<(), Fault> {
    refused_elsewhere(rt, port)?;
    two_at_once(rt, alloc, port)?;
    expect_session(
        rt,
        alloc,
        port,
        SUBSCRIBE_AND_PULL,
        "ok sub 0\nhit 2 0 1\nend 2 1\nok items 2\n",
    )
}

/// A client that has a change accepted and subscribes, and is gone while a reply lies unread at its end, so that the
/// server's next read of it fails.
fn vanish<H: Net<Stream = TcpStream>>(rt: &H, port: u16) -> Result<(), Fault> {
    let stream = connect(rt, port)?;
    let mut end = &stream;
    end.write_all(CHANGE_AND_SUBSCRIBE.as_bytes())?;
    // The first reply, and one byte of the second.
    let mut read = [0u8; 14];
    end.read_exact(&mut read)?;
    if read == *b"ok version 1\no" {
        Ok(())
    } else {
        Err(Fault::Reply)
    }
}

/// Two more clients, after one that vanished: its change stands, and its subscription is closed.
fn served_beside<H: Net<Stream = TcpStream>>(
    rt: &H,
    alloc: Global,
    port: u16,
) -> Result<(), Fault> {
    expect_session(
        rt,
        alloc,
        port,
        SUBSCRIBE_AND_PULL_TWICE,
        "ok sub 1\nhit 1 0 1\nend 1 1\nok items 2\nno 52 NoSubscriber\n",
    )?;
    expect_session(
        rt,
        alloc,
        port,
        "change 3 1\ni 2@3 1@2 63\nsub 9\n",
        "ok version 2\nno 60 BadCommand\n",
    )
}

/// A client that sends on though its session has ended, behind a line that is too long, has its reply.
fn sends_on<H: Net<Stream = TcpStream>>(rt: &H, alloc: Global, port: u16) -> Result<(), Fault> {
    let line = "a".repeat(alloc, 2_000_000)?;
    expect_session(rt, alloc, port, line.as_str(), "no 61 LineTooLong\n")
}

/// While a client is silent in the middle of a line, another vanishes, and three more are served beside them: the
/// change that was answered stands, and the subscription is closed. Then the silent one is served too.
pub fn silent_and_vanishing<H: Net<Stream = TcpStream>>(
    rt: &H,
    alloc: Global,
    port: u16,
) -> Result<(), Fault> {
    let mut silent = Client::connect(rt, alloc, port)?;
    silent.send("change 1 1\ni 1@1")?;
    vanish(rt, port)?;
    served_beside(rt, alloc, port)?;
    sends_on(rt, alloc, port)?;
    let told = silent.answered(alloc, " - 61\n")?;
    expect(told.as_str(), "ok version 3\n")
}
