use feeds::item::Job;
use version_history::published::Naming;

/// What workers call in each turn that has a job, outside the lock: once before its batch is computed, and once after
/// all else.
pub trait Gate<N: Naming>: Sync {
    fn before(&self, job: &Job<N>);

    fn after(&self, job: &Job<N>);
}

/// A gate that does nothing.
#[derive(Drop)]
pub struct Open;

impl<N: Naming> Gate<N> for Open {
    fn before(&self, _job: &Job<N>) {}

    fn after(&self, _job: &Job<N>) {}
}
