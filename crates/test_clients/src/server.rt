use crate::client::number_behind;
use hub_program::command;
use hub_program::system::InMemory;
use std::alloc::Global;
use std::fs::Files;
use std::io;
use std::net::{Net, TcpListener, TcpStream};
use std::rt::Clock;
use std::sync::{OnceLock, Wait};
use std::thread::Threads;

/// The port that a server listens on; None where it came to none.
pub type Port = OnceLock<Option<u16>>;

/// The server's standard output, which gives the port away once its line is flushed.
#[derive(Drop)]
struct Printed<'a> {
    bytes: Vec<u8>,
    port: &'a Port,
}

impl Printed<'_> {
    /// The port, where its line is all that was printed.
    fn port(&self) -> Option<u16> {
        let text = std::str::from_utf8(&self.bytes).ok()?;
        u16::try_from(number_behind(text, "port ")?).ok()
    }
}

impl io::Write for Printed<'_> {
    fn write(&mut self, buf: &[u8]) -> io::Result<usize> {
        self.bytes.extend_from_slice(buf)?;
        Ok(buf.len())
    }

    fn flush(&mut self) -> io::Result<()> {
        let _ = self.port.try_set(self.port());
        Ok(())
    }
}

/// Serves sessions as these words of a command line ask for. Answers the exit status, and whether the line of the port
/// was all that was printed.
pub fn serve<
    H: Threads
        + Wait
        + Net<Listener = TcpListener, Stream = TcpStream>
        + Files
        + Clock
        + Copy
        + Send
        + Sync,
>(rt: &H, alloc: Global, words: &[&str], port: &Port) -> (u8, bool) {
    let mut printed = Printed {
        bytes: Vec::new(alloc),
        port,
    };
    let status = command(
        rt,
        alloc,
        &InMemory { alloc },
        &InMemory { alloc },
        words,
        &mut io::empty(),
        &mut printed,
        &mut io::sink(),
    );
    let _ = port.try_set(None);
    (status, printed.port().is_some())
}
