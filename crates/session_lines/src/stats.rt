//! What an operator is told of a hub.

/// A number for each limit of a hub.
#[derive(Clone, Copy)]
pub struct PerLimit {
    /// Of the accepted changes.
    pub changes: u64,
    /// Of the characters that are inserted: those that were, removed ones too, and the bytes of the visible ones.
    pub characters: u64,
    /// Of the mark operations.
    pub marks: u64,
    /// Of the subscribers, closed ones too.
    pub subscribers: u64,
}

/// The most that a hub takes, by its size.
#[derive(Clone, Copy)]
pub struct Limits {
    /// Accepted changes.
    pub changes: u64,
    /// Characters that are inserted, removed ones too.
    pub characters: u64,
    /// Bytes of the visible text.
    pub bytes: u64,
    /// Mark operations.
    pub marks: u64,
    /// Subscribers, closed ones too.
    pub subscribers: u64,
    /// Subscribers that are open.
    pub open_subscribers: u64,
}

/// The memory of a document.
#[derive(Clone, Copy)]
pub struct Memory {
    /// The bytes that its changes and its versions have taken.
    pub used: u64,
    /// The bytes that it may take.
    pub limit: u64,
}

/// How much there is of a hub.
#[derive(Clone, Copy)]
pub struct Stats {
    /// The number of the latest version.
    pub versions: u64,
    /// The visible characters.
    pub characters: u64,
    /// The characters that were inserted and are not visible any more.
    pub removed: u64,
    /// The mark operations.
    pub marks: u64,
    /// The subscribers that are open.
    pub subscribers: u64,
    /// The subscribers that were ever added, closed ones too.
    pub subscribed: u64,
    /// The sessions that there are.
    pub sessions: u64,
    /// The bytes of the visible text.
    pub bytes: u64,
    /// How many versions the slowest open subscriber was not sent whole.
    pub lag: u64,
    /// How much of each limit is used, in parts of a thousand.
    pub used: PerLimit,
    /// The hub's limits.
    pub limits: Limits,
    /// None where its document's memory has no limit.
    pub memory: Option<Memory>,
}
