//! Where sessions come in, and on what terms they are served.
use crate::limits::SessionOptions;
use crate::{Sessions, Workers};
use change_ops::size::Size;
use std::net::IpAddr;
use std::time::Duration;

/// How long sessions are served, and how many of them.
#[derive(Clone, Copy)]
pub enum Service {
    /// Until so many have ended.
    Sessions(Sessions),
    /// Until the program is killed, so many at once.
    AtOnce(Sessions),
}

impl Service {
    /// How many sessions there may be, in all or at once.
    pub fn sessions(&self) -> Sessions {
        match self {
            Service::Sessions(sessions) | Service::AtOnce(sessions) => *sessions,
        }
    }
}

/// A door for browsers.
#[derive(Drop)]
pub struct WebDoor {
    /// At port 0 the system chooses one.
    pub port: u16,
    /// Whose pages may begin a session.
    pub origins: Vec<String>,
    /// The folder whose files are served.
    pub files: Option<String>,
}

/// Where sessions come in.
#[derive(Drop)]
pub struct Doors {
    /// The address that the ports are at.
    pub host: IpAddr,
    /// Lines over TCP. At port 0 the system chooses one.
    pub port: Option<u16>,
    /// Lines in the messages of WebSockets.
    pub web: Option<WebDoor>,
    /// Lines over a socket file of this path.
    pub unix: Option<String>,
}

/// A file that keeps changes.
#[derive(Drop)]
pub struct StoreFile {
    pub path: String,
    /// Whether it is opened also where its log is damaged, without the changes behind the damage.
    pub accepts_loss: bool,
}

/// On what terms sessions are served.
#[derive(Clone, Copy)]
pub struct Terms {
    pub service: Service,
    pub workers: Workers,
    /// How much the text that the sessions share may hold.
    pub size: Size,
    pub options: SessionOptions,
    /// A session ends where its client says nothing for so long.
    pub idle: Option<Duration>,
    /// Whether a line is written at each session's begin and end.
    pub is_logged: bool,
}
