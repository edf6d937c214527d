//! Runs the program's command `serve` on 127.0.0.1 at a port that the system chooses, with clients over TCP that know
//! what they are to be told whatever the schedule, and prints for each trial whether they were told that, and the
//! server's exit status.
#![tactic(auto)]

mod client;
mod crowd;
mod fault;
mod few_clients;
mod limited_clients;
mod many_clients;
mod server;
mod session;
mod stream;
mod trial;

use crate::trial::Trial;
use std::alloc::Global;
use std::fs::Files;
use std::io;
use std::io::Write;
use std::net::{Net, TcpListener, TcpStream};
use std::rt::Clock;
use std::sync::Wait;
use std::thread::Threads;

/// Runs all trials, and prints a line for each.
pub fn trials<
    H: Threads
        + Wait
        + Net<Listener = TcpListener, Stream = TcpStream>
        + Files
        + Clock
        + Copy
        + Send
        + Sync,
    W: Write,
>(rt: &H, alloc: Global, writer: &mut W) -> io::Result<()> {
    for trial in [
        Trial::Three,
        Trial::SilentAndVanishing,
        Trial::Many,
        Trial::Limited,
        Trial::Crowd,
    ] {
        let (status, told) = trial.run(rt, alloc);
        match told {
            Ok(()) => writeln!(
                writer,
                "{}: as expected, then status {status}",
                trial.name()
            )?,
            Err(fault) => writeln!(writer, "{}: {fault}, then status {status}", trial.name())?,
        }
    }
    Ok(())
}
