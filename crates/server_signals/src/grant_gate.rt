//! Tells whether paths may be granted yet.
use server_rules::Settling;
use short_lock::acquire;
use std::sync::atomic::{AtomicBool, Ordering};
use std::sync::{Mutex, Wait};

/// What a look at the gate finds.
#[derive(Clone, Copy, PartialEq, Eq, Debug)]
pub enum GrantGateLook {
    Closed,
    /// It is open now, and was closed at the last look.
    Opened,
    Open,
}

/// A gate that opens once and then stays open.
#[derive(Drop)]
pub struct GrantGate {
    settling: Mutex<Settling>,
    is_open: AtomicBool,
}

impl GrantGate {
    /// Makes a gate. It is open from the start if nothing is waited for.
    pub fn new(settling: Settling) -> GrantGate {
        let is_open = settling.has_settled(0);
        GrantGate {
            settling: Mutex::new(settling),
            is_open: AtomicBool::new(is_open),
        }
    }

    /// Notes that the router has reported all of its LSPs, or that its session has ended.
    pub fn note<R: Wait>(&self, rt: &R, address: u32, is_in_sync: bool) {
        acquire(rt, &self.settling).note(address, is_in_sync);
    }

    /// Tests whether a look has found the gate open.
    pub fn is_open(&self) -> bool {
        self.is_open.load(Ordering::SeqCst)
    }

    pub fn look<R: Wait>(&self, rt: &R, now_ms: u64) -> GrantGateLook {
        if self.is_open.load(Ordering::SeqCst) {
            return GrantGateLook::Open;
        }
        if !acquire(rt, &self.settling).has_settled(now_ms) {
            return GrantGateLook::Closed;
        }
        if self.is_open.swap(true, Ordering::SeqCst) {
            return GrantGateLook::Open;
        }
        GrantGateLook::Opened
    }
}
