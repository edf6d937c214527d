use crate::fault::Fault;
use std::alloc::Global;
use std::io;
use std::io::{BufRead, Write};
use std::net::{Ipv4Addr, Net, Shutdown, TcpStream};
use std::time::Duration;

/// Connects to the server. A reply that does not come in 30 seconds is an error.
pub fn connect<H: Net<Stream = TcpStream>>(rt: &H, port: u16) -> Result<TcpStream, Fault> {
    let stream = TcpStream::connect(rt, (Ipv4Addr::LOCALHOST, port))?;
    stream.set_read_timeout(Some(Duration::from_secs(30)))?;
    stream.set_nodelay(true)?;
    Ok(stream)
}

/// A client, which reads line by line.
#[derive(Drop)]
pub struct Client {
    reader: io::BufReader<TcpStream>,
}

impl Client {
    pub fn connect<H: Net<Stream = TcpStream>>(
        rt: &H,
        alloc: Global,
        port: u16,
    ) -> Result<Client, Fault> {
        let reader = io::BufReader::new(alloc, connect(rt, port)?)?;
        Ok(Client { reader })
    }

    pub fn send(&mut self, text: &str) -> Result<(), Fault> {
        let mut stream = self.reader.get_ref();
        stream.write_all(text.as_bytes())?;
        Ok(())
    }

    /// The next line, with its line feed.
    pub fn line(&mut self, alloc: Global) -> Result<String, Fault> {
        let mut line = String::new(alloc);
        self.reader.read_line(&mut line)?;
        Ok(line)
    }

    /// Sends no more, and reads until the server ends the session.
    pub fn finish(&mut self, alloc: Global) -> Result<String, Fault> {
        self.reader.get_ref().shutdown(Shutdown::Write)?;
        Ok(io::read_to_string(alloc, &mut self.reader)?)
    }

    /// Sends these lines as the last, and reads all that they are answered.
    pub fn answered(&mut self, alloc: Global, lines: &str) -> Result<String, Fault> {
        self.send(lines)?;
        self.finish(alloc)
    }
}

/// What a whole session of these lines is answered.
pub fn answered<H: Net<Stream = TcpStream>>(
    rt: &H,
    alloc: Global,
    port: u16,
    lines: &str,
) -> Result<String, Fault> {
    let mut client = Client::connect(rt, alloc, port)?;
    client.answered(alloc, lines)
}

/// Whether this is what was to be answered.
pub fn expect(got: &str, want: &str) -> Result<(), Fault> {
    if got == want {
        Ok(())
    } else {
        Err(Fault::Reply)
    }
}

/// A whole session of these lines, which is to be answered this.
pub fn expect_session<H: Net<Stream = TcpStream>>(
    rt: &H,
    alloc: Global,
    port: u16,
    lines: &str,
    want: &str,
) -> Result<(), Fault> {
    let got = answered(rt, alloc, port, lines)?;
    expect(got.as_str(), want)
}

/// The number behind the words, where the line has nothing else.
pub fn number_behind(line: &str, words: &str) -> Option<usize> {
    line.strip_prefix(words)?.strip_suffix("\n")?.parse().ok()
}
