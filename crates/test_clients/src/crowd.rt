use crate::client::{Client, expect};
use crate::fault::Fault;
use std::alloc::Global;
use std::net::{Net, TcpStream};

/// How many sessions there are at once, one more than a small hub has.
pub const CROWD: usize = 65;

/// More sessions at once than a small hub has: while all of them are there, each has a change accepted.
pub fn crowd<H: Net<Stream = TcpStream>>(rt: &H, alloc: Global, port: u16) -> Result<(), Fault> {
    let mut clients = Vec::new(alloc);
    for _ in 0..CROWD {
        clients.push(Client::connect(rt, alloc, port)?)?;
    }
    for (number, client) in clients.iter_mut().enumerate() {
        let peer = number + 1;
        let change = format!(in alloc; "change {peer} 1\ni 1@{peer} - 61\n")?;
        client.send(change.as_str())?;
        let want = format!(in alloc; "ok version {peer}\n")?;
        let got = client.line(alloc)?;
        expect(got.as_str(), want.as_str())?;
    }
    for client in &mut clients {
        let rest = client.finish(alloc)?;
        expect(rest.as_str(), "")?;
    }
    Ok(())
}
