//! Where connections come in.
ghost use Rattle.std.specs.Prelude.{IfErr};
ghost use Rattle.hub_doors.specs.Serving.{IsUnserved};

use crate::server::ServeError;
use crate::socket_file;
use crate::stream::{Peer, Stream};
use hub_requests::serving::Doors;
use std::alloc::Global;
use std::fmt::{Display, Formatter};
use std::fs::Files;
use std::io::Write;
use std::net::{IpAddr, Net, SocketAddr, TcpListener, TcpStream};
use std::os::unix::net::UnixListener;
use std::{fmt, io};

/// What sessions at a door are.
#[derive(Clone, Copy, PartialEq, Eq)]
pub enum DoorKind {
    /// Lines over TCP.
    Port,
    /// Messages of WebSockets.
    Web,
    /// Lines over a socket file.
    Unix,
}

impl Display for DoorKind {
    fn fmt<W: fmt::Write>(&self, f: &mut Formatter<W>) -> fmt::Result {
        f.pad(match self {
            DoorKind::Port => "port",
            DoorKind::Web => "web",
            DoorKind::Unix => "unix",
        })
    }
}

/// What listens at a door.
#[derive(Drop)]
enum Listener {
    Tcp(TcpListener),
    /// At a file of this path.
    Unix(UnixListener, String),
}

/// A door that is open.
#[derive(Drop)]
pub struct Door {
    kind: DoorKind,
    listener: Listener,
}

impl Door {
    pub(crate) fn kind(&self) -> DoorKind {
        self.kind
    }

    /// The next connection.
    pub(crate) fn next(&self) -> io::Result<(Stream, Peer)> {
        match &self.listener {
            Listener::Tcp(listener) => {
                let (stream, address) = listener.accept()?;
                Ok((Stream::Tcp(stream), Peer::At(address)))
            }
            Listener::Unix(listener, _) => {
                let (stream, _) = listener.accept()?;
                Ok((Stream::Unix(stream), Peer::Local))
            }
        }
    }

    /// Lets no thread wait for a connection: where there is none it is told so.
    pub(crate) fn wait_for_nothing(&self) -> io::Result<()> {
        match &self.listener {
            Listener::Tcp(listener) => listener.set_nonblocking(true),
            Listener::Unix(listener, _) => listener.set_nonblocking(true),
        }
    }

    fn at_port<R: Net<Listener = TcpListener, Stream = TcpStream>>(
        rt: &R,
        kind: DoorKind,
        host: IpAddr,
        port: u16,
    ) -> io::Result<Door> {
        let listener = TcpListener::bind(rt, SocketAddr::new(host, port))?;
        Ok(Door {
            kind,
            listener: Listener::Tcp(listener),
        })
    }

    /// Writes the line that tells of it.
    fn tell<W: Write>(&self, writer: &mut W) -> Result<(), ServeError>
        ensures { IfErr result IsUnserved }
    {
        let kind = self.kind;
        match &self.listener {
            Listener::Tcp(listener) => {
                let address = listener
                    .local_addr()
                    .map_err(|error| ServeError::Port(kind, error))?;
                let port = address.port();
                writeln!(writer, "{kind} {port}").map_err(ServeError::Output)
            }
            Listener::Unix(_, path) => {
                writeln!(writer, "{kind} {path}").map_err(ServeError::Output)
            }
        }
    }

    /// Takes the socket file away; of a port nothing stays.
    pub(crate) fn leave<R: Files>(&self, rt: &R) {
        if let Listener::Unix(_, path) = &self.listener {
            socket_file::remove(rt, path.as_str());
        }
    }
}

/// Opens the doors that are asked for.
fn open_each<R: Net<Listener = TcpListener, Stream = TcpStream> + Files>(
    rt: &R,
    alloc: Global,
    asked: &Doors,
) -> Result<Vec<Door>, ServeError>
    ensures { IfErr result IsUnserved }
{
    let mut doors = Vec::with_capacity(alloc, 3)?;
    if let Some(port) = asked.port {
        let door = Door::at_port(rt, DoorKind::Port, asked.host, port);
        doors.push_reserved(door.map_err(|error| ServeError::Port(DoorKind::Port, error))?);
    }
    if let Some(web) = &asked.web {
        let door = Door::at_port(rt, DoorKind::Web, asked.host, web.port);
        doors.push_reserved(door.map_err(|error| ServeError::Port(DoorKind::Web, error))?);
    }
    if let Some(path) = &asked.unix {
        let path = path.clone()?;
        let listener = socket_file::listen(rt, alloc, path.as_str()).map_err(ServeError::Socket)?;
        doors.push_reserved(Door {
            kind: DoorKind::Unix,
            listener: Listener::Unix(listener, path),
        });
    }
    Ok(doors)
}

/// Opens the doors that are asked for, and writes a line for each.
pub(crate) fn open<R: Net<Listener = TcpListener, Stream = TcpStream> + Files, W: Write>(
    rt: &R,
    alloc: Global,
    asked: &Doors,
    writer: &mut W,
) -> Result<Vec<Door>, ServeError>
    ensures { IfErr result IsUnserved }
{
    let doors = open_each(rt, alloc, asked)?;
    for door in &doors {
        door.tell(writer)?;
    }
    writer.flush().map_err(ServeError::Output)?;
    Ok(doors)
}
