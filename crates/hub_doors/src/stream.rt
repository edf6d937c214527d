//! A connection of either kind, and who is at its other end.
ghost use Rattle.std.specs.Io.{ReadsAtMost, WritesAtMost};

use std::fmt::{Display, Formatter};
use std::io::{Read, Write};
use std::net::{Shutdown, SocketAddr, TcpStream};
use std::os::unix::net::UnixStream;
use std::time::Duration;
use std::{fmt, io};

/// A connection.
#[derive(Drop)]
pub enum Stream {
    Tcp(TcpStream),
    Unix(UnixStream),
}

/// Who is at the other end of a connection.
#[derive(Clone, Copy)]
pub enum Peer {
    At(SocketAddr),
    /// Whoever may open the socket file.
    Local,
}

impl Display for Peer {
    fn fmt<W: fmt::Write>(&self, f: &mut Formatter<W>) -> fmt::Result {
        match self {
            Peer::At(address) => write!(f, "{address}"),
            Peer::Local => f.pad("local"),
        }
    }
}

impl Stream {
    /// A reply is sent at once. Where that can't be had it only comes later.
    pub(crate) fn send_at_once(&self) {
        if let Stream::Tcp(stream) = self {
            let _ = stream.set_nodelay(true);
        }
    }

    /// Lets each read and each write wait for so long.
    pub(crate) fn limit(&self, time: Option<Duration>) -> io::Result<()> {
        match self {
            Stream::Tcp(stream) => {
                stream.set_read_timeout(time)?;
                stream.set_write_timeout(time)
            }
            Stream::Unix(stream) => {
                stream.set_read_timeout(time)?;
                stream.set_write_timeout(time)
            }
        }
    }

    /// Lets no read and no write wait.
    pub(crate) fn wait_for_nothing(&self) -> io::Result<()> {
        match self {
            Stream::Tcp(stream) => stream.set_nonblocking(true),
            Stream::Unix(stream) => stream.set_nonblocking(true),
        }
    }

    /// Tells the other end that nothing more is sent.
    pub(crate) fn end_writing(&self) -> io::Result<()> {
        match self {
            Stream::Tcp(stream) => stream.shutdown(Shutdown::Write),
            Stream::Unix(stream) => stream.shutdown(Shutdown::Write),
        }
    }
}

fn read_tcp(stream: &TcpStream, buf: &mut [u8]) -> io::Result<usize>
    ensures { ReadsAtMost result buf.new }
{
    let mut stream = stream;
    stream.read(buf)
}

fn read_unix(stream: &UnixStream, buf: &mut [u8]) -> io::Result<usize>
    ensures { ReadsAtMost result buf.new }
{
    let mut stream = stream;
    stream.read(buf)
}

fn write_tcp(stream: &TcpStream, buf: &[u8]) -> io::Result<usize>
    ensures { WritesAtMost result buf.now }
{
    let mut stream = stream;
    stream.write(buf)
}

fn write_unix(stream: &UnixStream, buf: &[u8]) -> io::Result<usize>
    ensures { WritesAtMost result buf.now }
{
    let mut stream = stream;
    stream.write(buf)
}

impl Stream {
    /// Reads what comes next.
    fn receive(&self, buf: &mut [u8]) -> io::Result<usize>
        ensures { ReadsAtMost result buf.new }
    {
        match self {
            Stream::Tcp(stream) => read_tcp(stream, buf),
            Stream::Unix(stream) => read_unix(stream, buf),
        }
    }

    /// Writes as many bytes as go out.
    fn send(&self, buf: &[u8]) -> io::Result<usize>
        ensures { WritesAtMost result buf.now }
    {
        match self {
            Stream::Tcp(stream) => write_tcp(stream, buf),
            Stream::Unix(stream) => write_unix(stream, buf),
        }
    }
}

impl Read for &Stream {
    fn read(&mut self, buf: &mut [u8]) -> io::Result<usize> {
        self.receive(buf)
    }
}

impl Write for &Stream {
    fn write(&mut self, buf: &[u8]) -> io::Result<usize> {
        self.send(buf)
    }

    fn flush(&mut self) -> io::Result<()> {
        Ok(())
    }
}
