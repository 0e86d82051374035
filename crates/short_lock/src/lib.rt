//! Locks that are held for microseconds.
#![tactic(auto)]

use std::sync::{Mutex, MutexGuard, Wait};
use std::thread;

/// How often a lock is tried for before its thread sleeps: for some tens of microseconds.
const TRIES: u32 = 100;

/// Takes a lock that is held for microseconds. It is tried for before the thread sleeps, since a sleeping thread takes longer
/// than that to wake; between two tries other threads may run.
pub fn acquire<'a, R: Wait, T>(rt: &R, lock: &'a Mutex<T>) -> MutexGuard<'a, T> {
    for _ in 0..TRIES {
        if let Some(guard) = lock.try_lock() {
            return guard;
        }
        thread::yield_now();
    }
    lock.lock(rt)
}
