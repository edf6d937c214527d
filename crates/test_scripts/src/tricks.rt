use crate::spare::Spare;
use call_history::knowledge::HistoryNaming;
use feeds::batch::Batch;
use feeds::item::Job;
use filter_workers::gate::Gate;
use ingest_workers::hub::Hub;
use std::alloc::Global;
use std::sync::atomic::{AtomicU64, Ordering};
use std::sync::ledger::Ledger;
use std::sync::{Mutex, Wait};
use std::thread::yield_now;
use version_history::published::{Naming, Published};

/// What is done before the batch of a job is computed.
#[derive(Clone, Copy)]
pub enum Trick {
    Nothing,
    /// It waits until version 2 is done.
    SecondFirst,
    /// The subscriber is closed.
    Close,
    /// Another commits the batch.
    Commit,
}

/// A gate that plays a trick on the jobs of one version.
#[derive(Drop)]
pub struct Tricks<'a, 'b, 'p, 'q, N: Naming + HistoryNaming + Ledger, R: Wait + Copy> {
    pub rt: R,
    pub alloc: Global,
    pub hub: &'a Hub<'p, N, R>,
    pub published: &'b Published<'q, N>,
    pub spare: &'b Mutex<Spare<N>>,
    pub trick: Trick,
    pub at: u64,
    pub second_is_done: AtomicU64,
    pub is_late: AtomicU64,
}

impl<'a, 'b, 'p, 'q, N: Naming + HistoryNaming + Ledger, R: Wait + Copy> Tricks<
    'a,
    'b,
    'p,
    'q,
    N,
    R,
> {
    fn wait_for_second(&self) {
        for _ in 0..1_000_000u32 {
            if self.second_is_done.load(Ordering::SeqCst) == 1 {
                return;
            }
            yield_now();
        }
        self.is_late.store(1, Ordering::SeqCst);
    }

    fn commit(&self, job: &Job<N>) {
        if let Ok(batch) = Batch::compute(self.alloc, self.published, job) {
            self.spare.lock(&self.rt).commit(&self.rt, self.hub, batch);
        }
    }

    fn close(&self, job: &Job<N>) {
        self.spare
            .lock(&self.rt)
            .close(&self.rt, self.hub, job.subscriber);
    }

    fn play(&self, job: &Job<N>) {
        match self.trick {
            Trick::Nothing => {}
            Trick::SecondFirst => self.wait_for_second(),
            Trick::Close => self.close(job),
            Trick::Commit => self.commit(job),
        }
    }
}

impl<
    'a,
    'b,
    'p,
    'q,
    N: Naming + HistoryNaming + Ledger + Send + Sync,
    R: Wait + Copy + Send + Sync,
> Gate<N> for Tricks<'a, 'b, 'p, 'q, N, R> {
    fn before(&self, job: &Job<N>) {
        if job.number == self.at {
            self.play(job);
        }
    }

    fn after(&self, job: &Job<N>) {
        if job.number == 2 {
            self.second_is_done.store(1, Ordering::SeqCst);
        }
    }
}
