//! A server's lines on standard error: a thread of its own writes them, so that no session waits for who reads them.
use hub_program::log_queue::LogQueue;
use std::alloc::Global;
use std::io::Write;
use std::sync::{Arc, Condvar, Mutex, Wait};
use std::thread;
use std::thread::Threads;

/// Where a server leaves the queue of its lines for the thread that writes them.
#[derive(Drop)]
pub(crate) struct Handover {
    queue: Mutex<Option<Arc<LogQueue, Global>>>,
    came: Condvar,
}

impl Handover {
    /// Leaves a queue.
    pub(crate) fn leave<R: Wait>(&self, rt: &R, queue: Arc<LogQueue, Global>) {
        let mut place = self.queue.lock(rt);
        *place = Some(queue);
        drop(place);
        self.came.notify_all();
    }

    /// Takes the queue, once it is left.
    fn take<R: Wait>(&self, rt: &R) -> Option<Arc<LogQueue, Global>> {
        let place = self.queue.lock(rt);
        let mut place = self.came.wait_while(rt, place, |place| place.is_none());
        place.take()
    }

    /// Writes the lines of the queue that is left, to the last one.
    fn write_out<R: Wait, W: Write>(&self, rt: &R, writer: &mut W) {
        if let Some(queue) = self.take(rt) {
            queue.write_out(rt, writer);
        }
    }
}

/// Starts the thread, which nobody waits for; None where there is none.
pub(crate) fn start_writer<
    R: Threads + Wait + Copy + Send + Sync + 'static,
    W: Write + Send + Drop + 'static,
>(threads: R, alloc: Global, errors: W) -> Option<Arc<Handover, Global>> {
    let handover = Arc::new(
        alloc,
        Handover {
            queue: Mutex::new(None),
            came: Condvar::new(),
        },
    )
    .ok()?;
    let left = Arc::try_clone(&handover).ok()?;
    let writing = move || {
        let mut errors = errors;
        left.write_out(&threads, &mut errors);
    };
    match thread::spawn(&threads, writing) {
        Ok(_) => Some(handover),
        Err(_) => None,
    }
}
