//! What a session may do, and how much of it.
ghost use Rattle.std.specs.Prelude.{◌≡◌, None, IsTrue};
ghost use Rattle.hub_requests.specs.Limits.{has_room, less, takes_change, after_change, takes_subscriber};
ghost use Rattle.hub_requests.specs.Limits.{after_subscriber};

use crate::identity::HubId;

/// What a session may still have accepted, beside what the hub takes of all; None where it has no limit of its own.
#[derive(Clone, Copy)]
pub struct SessionLimits {
    /// How many changes.
    pub changes: Option<u64>,
    /// How many subscribers, closed ones counted.
    pub subscribers: Option<u64>,
    /// How many bytes of changes' texts.
    pub bytes: Option<u64>,
}

/// What a session may do.
#[derive(Clone, Copy)]
pub struct SessionOptions {
    /// Whether it may read of the text.
    pub reads: bool,
    /// Which hub it is a session of; None where the hub has no id.
    pub hub: Option<HubId>,
    /// By how much a counter of a change may be above all accepted ones; None for however much.
    pub counter_jump: Option<u64>,
    /// How many bytes the document may take, with all its versions; None for as many as there are.
    pub memory: Option<u64>,
    /// What it may have accepted in all.
    pub limits: SessionLimits,
}

/// Whether there is room for this much more.
fn has_room(left: Option<u64>, more: u64) -> bool
    ensures { result ≡ has_room left more }
{
    match left {
        None => true,
        Some(left) => more <= left,
    }
}

/// What is left after this much more.
fn less(left: Option<u64>, more: u64) -> Option<u64>
    requires { IsTrue (has_room left more) }
    ensures { result ≡ less left more }
{
    match left {
        None => None,
        Some(left) => Some(left - more),
    }
}

impl SessionLimits {
    /// No limits.
    pub fn none() -> Self
        ensures { result ≡ record { changes = None; subscribers = None; bytes = None } }
    {
        SessionLimits {
            changes: None,
            subscribers: None,
            bytes: None,
        }
    }

    /// Whether one change more may be accepted, whose text has `bytes` bytes.
    pub fn takes_change(&self, bytes: u64) -> bool
        ensures { result ≡ takes_change self.now bytes }
    {
        has_room(self.changes, 1) && has_room(self.bytes, bytes)
    }

    /// Counts a change that was accepted, whose text has `bytes` bytes.
    pub fn spend_change(&mut self, bytes: u64)
        requires { IsTrue (takes_change self.old bytes) }
        ensures { self.new ≡ after_change self.old bytes }
    {
        self.changes = less(self.changes, 1);
        self.bytes = less(self.bytes, bytes);
    }

    /// Whether one subscriber more may be added.
    pub fn takes_subscriber(&self) -> bool
        ensures { result ≡ takes_subscriber self.now }
    {
        has_room(self.subscribers, 1)
    }

    /// Counts a subscriber that was added.
    pub fn spend_subscriber(&mut self)
        requires { IsTrue (takes_subscriber self.old) }
        ensures { self.new ≡ after_subscriber self.old }
    {
        self.subscribers = less(self.subscribers, 1);
    }
}

impl SessionOptions {
    /// No limits, of a hub that has no id; it may read of the text or may not.
    pub fn unlimited(reads: bool) -> Self
        ensures reads { result.reads ≡ reads }
        ensures hub { result.hub ≡ None }
        ensures jump { result.counter_jump ≡ None }
        ensures memory { result.memory ≡ None }
        ensures limits { result.limits ≡ record { changes = None; subscribers = None; bytes = None } }
    {
        SessionOptions {
            reads,
            hub: None,
            counter_jump: None,
            memory: None,
            limits: SessionLimits::none(),
        }
    }
}
