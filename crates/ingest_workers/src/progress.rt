//! How far the subscribers of sessions were given their versions.
use change_ops::size::Size;
use std::alloc::{AllocError, Global};
use std::sync::atomic::{AtomicU64, Ordering};

/// What stands for a subscriber that isn't open, which is never behind.
const NOT_OPEN: u64 = u64::MAX;

/// Of each subscriber, by its id, the first version that it wasn't given whole.
#[derive(Drop)]
pub(crate) struct Progress {
    versions: Vec<AtomicU64>,
}

impl Progress {
    /// None is open yet; it has a place for each subscriber that the size allows.
    pub(crate) fn new(alloc: Global, size: Size) -> Result<Progress, AllocError> {
        let most = size.subscribers();
        let mut versions = Vec::with_capacity(alloc, most)?;
        for _subscriber in 0..most {
            versions.push(AtomicU64::new(NOT_OPEN))?;
        }
        Ok(Progress { versions })
    }

    /// Notes the first version that a subscriber wasn't given whole.
    pub(crate) fn note(&self, subscriber: usize, version: u64) {
        if let Some(place) = self.versions.get(subscriber) {
            place.store(version, Ordering::SeqCst);
        }
    }

    /// Notes that a subscriber is closed.
    pub(crate) fn close(&self, subscriber: usize) {
        self.note(subscriber, NOT_OPEN);
    }

    /// How many versions the slowest open subscriber wasn't given whole, where this is the number of the latest.
    pub(crate) fn lag(&self, latest: u64) -> u64 {
        let mut slowest = NOT_OPEN;
        for place in &self.versions {
            slowest = slowest.min(place.load(Ordering::SeqCst));
        }
        latest.saturating_add(1).saturating_sub(slowest)
    }
}
