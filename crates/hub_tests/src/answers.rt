use hub_program::command;
use hub_program::system::InMemory;
use std::fs::Files;
use std::io;
use std::net::{Net, TcpListener, TcpStream};
use std::rt::Clock;
use std::sync::Wait;
use std::test::Fail;
use std::thread::Threads;

/// The exit status and the output of the program for these words, separated by single spaces, and this input.
pub fn answer<
    H: AllocGlobal
        + Threads
        + Wait
        + Net<Listener = TcpListener, Stream = TcpStream>
        + Files
        + Clock
        + Copy
        + Send
        + Sync,
>(rt: &H, line: &str, input: &str) -> Result<(u8, String), Fail> {
    let alloc = rt.alloc();
    let words: Vec<&str> = line.split(' ').collect(alloc)?;
    let mut reader = input.as_bytes();
    let mut output = Vec::new(alloc);
    let status = command(
        rt,
        alloc,
        &InMemory { alloc },
        &InMemory { alloc },
        &words,
        &mut reader,
        &mut output,
        &mut io::sink(),
    );
    Ok((status, String::from_utf8(output)?))
}

/// Whether the program answers just so.
pub fn is_answered<
    H: AllocGlobal
        + Threads
        + Wait
        + Net<Listener = TcpListener, Stream = TcpStream>
        + Files
        + Clock
        + Copy
        + Send
        + Sync,
>(rt: &H, line: &str, input: &str, status: u8, output: &str) -> Result<bool, Fail> {
    let (got, printed) = answer(rt, line, input)?;
    Ok(got == status && printed.as_str() == output)
}
