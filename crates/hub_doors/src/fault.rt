use hub_sessions::conversation::SessionFault;
use std::io;

/// Why a session was not served to its end.
#[derive(Clone, Copy)]
pub enum ConnectionFault {
    /// Its connection can't be accepted.
    Accept(io::Error),
    /// No thread can be made that accepts connections at a door.
    NoThread,
    /// A read or a write of it failed.
    Session(SessionFault),
}
