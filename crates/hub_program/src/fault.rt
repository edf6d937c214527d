use hub_doors::door::DoorKind;
use hub_doors::fault::ConnectionFault;
use hub_doors::socket_file::SocketFault;
use hub_sessions::conversation::SessionFault;
use std::fmt::{Display, Formatter};
use std::{fmt, io};

/// What goes wrong outside of what a command answers: one line on standard error.
#[derive(Clone, Copy)]
pub enum Fault {
    /// Standard input can't be read.
    Input(io::Error),
    /// Standard output can't be written.
    Output(io::Error),
    /// A port can't be bound, or its number can't be asked for.
    Port { kind: DoorKind, error: io::Error },
    /// The socket file can't be had.
    Socket(SocketFault),
    /// A connection can't be accepted, read or written.
    Connection(ConnectionFault),
    /// The system gives no random bytes.
    Random(io::Error),
    /// An argument isn't UTF-8.
    Argument,
}

/// What is said of a socket file that can't be had.
fn write_socket<W: fmt::Write>(f: &mut Formatter<W>, fault: &SocketFault) -> fmt::Result {
    match fault {
        SocketFault::InUse => f.pad("the socket file: another process listens there"),
        SocketFault::NoSocket => f.pad("the socket file: another kind of file stands there"),
        SocketFault::Failed(error) => write!(f, "the socket file: {error}"),
        SocketFault::OutOfMemory => f.pad("the socket file: no memory"),
    }
}

/// What is said of a connection that wasn't served to its end.
fn write_connection<W: fmt::Write>(f: &mut Formatter<W>, fault: &ConnectionFault) -> fmt::Result {
    match fault {
        ConnectionFault::Accept(error) => {
            write!(f, "a connection could not be accepted: {error}")
        }
        ConnectionFault::NoThread => f.pad("no thread could be made"),
        ConnectionFault::Session(SessionFault::Read(error)) => {
            write!(f, "a connection could not be read: {error}")
        }
        ConnectionFault::Session(SessionFault::Write(error)) => {
            write!(f, "a connection could not be written: {error}")
        }
    }
}

impl Display for Fault {
    fn fmt<W: fmt::Write>(&self, f: &mut Formatter<W>) -> fmt::Result {
        match self {
            Fault::Input(error) => write!(f, "standard input could not be read: {error}"),
            Fault::Output(error) => write!(f, "standard output could not be written: {error}"),
            Fault::Port { kind, error } => write!(f, "the port of --{kind}: {error}"),
            Fault::Socket(fault) => write_socket(f, fault),
            Fault::Connection(fault) => write_connection(f, fault),
            Fault::Random(error) => write!(f, "the system gives no random bytes: {error}"),
            Fault::Argument => f.pad("an argument isn't UTF-8"),
        }
    }
}
