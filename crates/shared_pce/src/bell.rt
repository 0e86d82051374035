//! The bell on which the workers sleep until a ticket waits.
use std::sync::Condvar;
use std::sync::atomic::{AtomicBool, Ordering};

/// The bell of the workers, and whether the end was announced.
#[derive(Drop)]
pub(crate) struct Bell {
    pub work: Condvar,
    over: AtomicBool,
}

impl Bell {
    pub fn new() -> Bell {
        Bell {
            work: Condvar::new(),
            over: AtomicBool::new(false),
        }
    }

    /// Wakes a worker.
    pub fn ring(&self) {
        self.work.notify_one();
    }

    /// Announces the end, and wakes all workers.
    pub fn ring_out(&self) {
        self.over.store(true, Ordering::SeqCst);
        self.work.notify_all();
    }

    /// Tests whether the end was announced.
    pub fn is_over(&self) -> bool {
        self.over.load(Ordering::SeqCst)
    }
}
