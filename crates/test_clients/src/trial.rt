use crate::client::connect;
use crate::crowd::{CROWD, crowd};
use crate::fault::Fault;
use crate::few_clients::{silent_and_vanishing, three};
use crate::limited_clients::limited;
use crate::many_clients::many;
use crate::server::{Port, serve};
use std::alloc::Global;
use std::fs::Files;
use std::net::{Net, TcpListener, TcpStream};
use std::rt::Clock;
use std::sync::{OnceLock, Wait};
use std::thread;
use std::thread::Threads;

/// A server and its clients.
#[derive(Clone, Copy)]
pub enum Trial {
    /// Two clients at once, and then a third.
    Three,
    /// One that is silent in the middle of a line, one that vanishes, one that sends on at its end, and others beside
    /// them.
    SilentAndVanishing,
    /// Eight at once, with 1,000 changes together.
    Many,
    /// One that has nothing left that it may have accepted, one that sends the greatest counter, and what they may do.
    Limited,
    /// 65 at once at a large hub whose changes are kept.
    Crowd,
}

static THREE_WORDS: [&str; 8] = [
    "hub",
    "serve",
    "--port",
    "0",
    "--sessions",
    "3",
    "--workers",
    "2",
];

static SILENT_WORDS: [&str; 8] = [
    "hub",
    "serve",
    "--port",
    "0",
    "--sessions",
    "5",
    "--workers",
    "2",
];

static MANY_WORDS: [&str; 8] = [
    "hub",
    "serve",
    "--port",
    "0",
    "--sessions",
    "8",
    "--workers",
    "2",
];

static LIMITED_WORDS: [&str; 10] = [
    "hub",
    "serve",
    "--port",
    "0",
    "--sessions",
    "2",
    "--counter-jump",
    "1000",
    "--per-session",
    "changes=2,subscribers=1",
];

static CROWD_WORDS: [&str; 10] = [
    "hub",
    "serve",
    "--port",
    "0",
    "--size",
    "large",
    "--sessions",
    "65",
    "--store",
    "kept",
];

impl Trial {
    pub fn name(self) -> &'static str {
        match self {
            Trial::Three => "three clients",
            Trial::SilentAndVanishing => "a silent client, one that vanishes, one that sends on",
            Trial::Many => "eight clients with 1,000 changes",
            Trial::Limited => "a session with nothing left, and the greatest counter",
            Trial::Crowd => "65 clients at once",
        }
    }

    /// What the server is asked for.
    fn words(self) -> &'static [&'static str] {
        match self {
            Trial::Three => THREE_WORDS.as_slice(),
            Trial::SilentAndVanishing => SILENT_WORDS.as_slice(),
            Trial::Many => MANY_WORDS.as_slice(),
            Trial::Limited => LIMITED_WORDS.as_slice(),
            Trial::Crowd => CROWD_WORDS.as_slice(),
        }
    }

    fn clients<H: Threads + Net<Stream = TcpStream> + Sync>(
        self,
        rt: &H,
        alloc: Global,
        port: u16,
    ) -> Result<(), Fault> {
        match self {
            Trial::Three => three(rt, alloc, port),
            Trial::SilentAndVanishing => silent_and_vanishing(rt, alloc, port),
            Trial::Many => many(rt, alloc, port),
            Trial::Limited => limited(rt, alloc, port),
            Trial::Crowd => crowd(rt, alloc, port),
        }
    }

    /// Runs the clients once the port is there. Where they fail, the sessions that the server still waits for end at
    /// once.
    fn clients_at<H: Threads + Wait + Net<Stream = TcpStream> + Sync>(
        self,
        rt: &H,
        alloc: Global,
        port: &Port,
    ) -> Result<(), Fault> {
        let port = port.wait(rt).ok_or(Fault::Port)?;
        let told = self.clients(rt, alloc, port);
        if told.is_err() {
            for _ in 0..CROWD {
                let _ = connect(rt, port);
            }
        }
        told
    }

    /// Runs the server and its clients. Answers the server's exit status, and what went wrong with the clients.
    pub fn run<
        H: Threads
            + Wait
            + Net<Listener = TcpListener, Stream = TcpStream>
            + Files
            + Clock
            + Copy
            + Send
            + Sync,
    >(self, rt: &H, alloc: Global) -> (u8, Result<(), Fault>) {
        let opened = OnceLock::new();
        let port = &opened;
        // Only the clients get a thread: what serves has bounds that hold for the calling thread alone.
        let ((status, is_port_alone), told) = thread::scope(
            thread::scope_env(),
            rt,
            move |scope| match scope.spawn(move || self.clients_at(rt, alloc, port)) {
                Ok(clients) => {
                    let served = serve(rt, alloc, self.words(), port);
                    (served, clients.join(rt))
                }
                Err(_) => ((0, true), Err(Fault::Memory)),
            },
        );
        match told {
            Ok(()) if !is_port_alone => (status, Err(Fault::Port)),
            told => (status, told),
        }
    }
}
