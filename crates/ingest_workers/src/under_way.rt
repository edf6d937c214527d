//! How many sessions are under way, and how much memory the changes may take that are.
use std::sync::atomic::{AtomicU64, Ordering};

/// Counts those that began and didn't end, each by its amount.
#[derive(Drop)]
pub(crate) struct UnderWay {
    count: AtomicU64,
}

/// One that is counted until this is dropped.
pub struct Counted<'c> {
    all: &'c UnderWay,
    amount: u64,
}

impl UnderWay {
    /// There is none.
    pub(crate) fn new() -> UnderWay {
        UnderWay {
            count: AtomicU64::new(0),
        }
    }

    pub(crate) fn count(&self) -> u64 {
        self.count.load(Ordering::SeqCst)
    }

    /// Counts one more, of this amount.
    pub(crate) fn begin(&self, amount: u64) -> Counted<'_> {
        self.count.fetch_add(amount, Ordering::SeqCst);
        Counted { all: self, amount }
    }
}

impl Drop for Counted<'_> {
    fn drop(self) {
        let Counted { all, amount } = self;
        all.count.fetch_sub(amount, Ordering::SeqCst);
    }
}
