use std::alloc::{AllocError, AllocFailed};
use std::fmt::{Display, Formatter, Write};
use std::{fmt, io};

/// Why a trial failed.
#[derive(Clone, Copy)]
pub enum Fault {
    /// No memory was found, by the clients.
    Memory,
    /// A client couldn't connect, write or read.
    Connection(io::ErrorKind),
    /// The server didn't write the line of its port first, or wrote more.
    Port,
    /// The server is there at another address than 127.0.0.1 too.
    Address,
    /// A client was answered otherwise than it should be.
    Reply,
    /// The numbers of the versions aren't each number once, or don't rise within a session.
    Versions,
    /// The subscribers' numbers aren't each number once.
    Subscribers,
    /// The items of this peer's subscriber aren't its part of the stream.
    Items(usize),
}

impl From<AllocError> for Fault {
    fn from(_error: AllocError) -> Fault {
        Fault::Memory
    }
}

impl<T: Drop> From<AllocFailed<T>> for Fault {
    fn from(_error: AllocFailed<T>) -> Fault {
        Fault::Memory
    }
}

impl From<io::Error> for Fault {
    fn from(error: io::Error) -> Fault {
        Fault::Connection(error.kind())
    }
}

impl Display for Fault {
    fn fmt<W: Write>(&self, f: &mut Formatter<W>) -> fmt::Result {
        match self {
            Fault::Memory => f.write_str("no memory"),
            Fault::Connection(kind) => write!(f, "a connection failed: {kind:?}"),
            Fault::Port => f.write_str("not just the line of the port"),
            Fault::Address => f.write_str("served at another address"),
            Fault::Reply => f.write_str("a wrong reply"),
            Fault::Versions => f.write_str("wrong numbers of versions"),
            Fault::Subscribers => f.write_str("wrong numbers of subscribers"),
            Fault::Items(peer) => write!(f, "wrong items of peer {peer}"),
        }
    }
}
