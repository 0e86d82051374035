//! Looks whose time is measured.
use crate::context::Moments;
use history_core::Database;
use shared_pce::Look;
use std::alloc::{AllocError, Global};
use std::cell::Cell;
use std::time::Clock;

/// A look that notes how long it holds the lock, in microseconds.
#[derive(Drop)]
pub struct TimedLook<'a, 'm, R: Clock, L: Look> {
    pub(crate) moments: &'a Moments<'m, R>,
    pub(crate) look: &'a L,
    pub(crate) held_us: Cell<u64>,
}

impl<'a, 'm, R: Clock, L: Look> Look for TimedLook<'a, 'm, R, L> {
    type Seen = L::Seen;

    ghost sees = { λ timed d seen. L.sees timed.look.now d seen };

    fn see(&self, alloc: Global, database: &Database) -> Result<L::Seen, AllocError> {
        let since_us = self.moments.now_us();
        let seen = self.look.see(alloc, database);
        let held_us = self.moments.now_us().saturating_sub(since_us);
        self.held_us.set(held_us);
        seen
    }
}
