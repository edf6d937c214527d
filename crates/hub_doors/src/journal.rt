//! What is told of sessions while they are served.
use crate::door::DoorKind;
use crate::link::Traffic;
use crate::stream::Peer;
use crate::tally::Tally;
use std::alloc::{AllocError, Global};
use std::fs::File;
use std::io;
use std::rt::Clock;
use std::sync::Wait;

/// A file that is open.
#[derive(Drop)]
pub struct FoundFile {
    pub file: File,
    /// How many bytes it has.
    pub length: u64,
    /// It is another one once the file has changed. It stands in quotes, and has none within.
    pub tag: String,
}

/// What stands around a server, for all of its threads: where its lines go, and where files come from.
pub trait Surroundings {
    /// Takes a line, without its end. A server calls it only where it waits for nobody who reads the lines.
    fn note<R: Wait + Clock>(&self, rt: &R, line: &str);

    /// Opens a folder's file of this name; None where it has none, or a link that leads out of it.
    fn open(&self, folder: &str, name: &str) -> io::Result<Option<FoundFile>>;
}

/// Which session it is.
#[derive(Clone, Copy)]
pub(crate) struct Visit {
    pub number: u64,
    pub kind: DoorKind,
    pub peer: Peer,
}

impl Visit {
    /// The line of its begin, at this version.
    pub(crate) fn begin_line(&self, alloc: Global, version: u64) -> Result<String, AllocError> {
        let Visit { number, kind, peer } = *self;
        format!(in alloc; "session {number} begins: {kind} {peer}, version {version}")
    }

    /// The line of its end, at this version.
    pub(crate) fn end_line(
        &self,
        alloc: Global,
        version: u64,
        tally: &Tally,
        traffic: &Traffic,
    ) -> Result<String, AllocError> {
        let Visit { number, kind, peer } = *self;
        let replies = tally.replies();
        let refusals = tally.refusals();
        let received = traffic.received();
        let sent = traffic.sent();
        format!(in alloc;
            "session {number} ends: {kind} {peer}, version {version}, {replies} requests, {refusals} refused, {received} bytes in, {sent} bytes out"
        )
    }
}
