//! When bytes of a connection came last, and until when reading pauses.
use std::cell::Cell;

/// The moments of a connection's reading, in milliseconds.
#[derive(Drop)]
pub(crate) struct Reading {
    heard_ms: Cell<u64>,
    until_ms: Cell<u64>,
}

impl Reading {
    /// Makes the moments of a connection that begins now.
    pub fn new(now_ms: u64) -> Reading {
        Reading {
            heard_ms: Cell::new(now_ms),
            until_ms: Cell::new(0),
        }
    }

    /// Notes that bytes came at this moment.
    pub fn hear(&self, now_ms: u64) {
        self.heard_ms.set(now_ms);
    }

    /// Returns when bytes came last.
    pub fn heard_ms(&self) -> u64 {
        self.heard_ms.get()
    }

    /// Pauses reading until this moment.
    pub fn pause_until(&self, until_ms: u64) {
        self.until_ms.set(until_ms);
    }

    /// Returns how long reading still pauses at this moment.
    pub fn pause_ms(&self, now_ms: u64) -> u64 {
        self.until_ms.get().saturating_sub(now_ms)
    }
}
