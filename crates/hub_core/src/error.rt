use refusal_titles::{NO_SUBSCRIBER, NO_VERSION, OUT_OF_MEMORY, STALE, SUBSCRIBERS_FULL};
use thiserror::Error;

/// Why a subscriber was not added.
#[derive(Clone, Copy, Debug, PartialEq, Eq, Error)]
pub enum SubscribeError {
    /// As many subscribers were added, closed ones counted, or are open, as the size of the hub allows.
    #[error("{SUBSCRIBERS_FULL}")]
    SubscribersFull,
    /// The first version is above the latest one.
    #[error("{NO_VERSION}")]
    NoVersion,
    /// No memory was found.
    #[error("{OUT_OF_MEMORY}")]
    OutOfMemory,
}

/// Why a batch was not taken.
#[derive(Clone, Copy, Debug, PartialEq, Eq, Error)]
pub enum CommitError {
    /// No subscriber has this id, or it is closed.
    #[error("{NO_SUBSCRIBER}")]
    NoSubscriber,
    /// The subscriber doesn't wait for this batch: it is held, was sent, is too far ahead, or is of another program or
    /// version.
    #[error("{STALE}")]
    Stale,
    /// No memory was found.
    #[error("{OUT_OF_MEMORY}")]
    OutOfMemory,
}

/// No subscriber has this id, or it is closed.
#[derive(Clone, Copy, Debug, PartialEq, Eq, Error)]
#[error("{NO_SUBSCRIBER}")]
pub struct NoSubscriber;
