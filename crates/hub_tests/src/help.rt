use crate::answers::answer;
use std::fs::Files;
use std::net::{Net, TcpListener, TcpStream};
use std::rt::Clock;
use std::sync::Wait;
use std::test::Fail;
use std::thread::Threads;

/// Command lines that ask for help, and what the help has to say.
static HELPS: [(&str, &str); 6] = [
    ("hub --help", "exit status"),
    ("hub asm --help", "Standard input"),
    ("hub check --help", "Standard input"),
    ("hub dis --help", "Standard input"),
    ("hub run --help", "decimal"),
    ("hub spans --help", "Standard input"),
];

/// The first command line whose help doesn't say so, if there is one.
fn first_silent<
    'a,
    H: AllocGlobal
        + Threads
        + Wait
        + Net<Listener = TcpListener, Stream = TcpStream>
        + Files
        + Clock
        + Copy
        + Send
        + Sync,
>(rt: &H, helps: &[(&'a str, &str)]) -> Result<Option<&'a str>, Fail> {
    for &(line, text) in helps {
        let (status, printed) = answer(rt, line, "")?;
        if status != 0 || !printed.contains(text) {
            return Ok(Some(line));
        }
    }
    Ok(None)
}

#[test]
fn commands_explain_themselves(rt: HostRuntime) -> Result<(), Fail> {
    assert_eq!(rt; first_silent(&rt, &HELPS)?, None);
    Ok(())
}
