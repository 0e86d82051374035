//! Tells whether and why a run should end.
ghost use Rattle.std.specs.Prelude.{◌≡◌, Some};
ghost use Rattle.history_core.specs.declared.fault.Fault.TheVariants.{OutOfMemory};
ghost use Rattle.server_signals.specs.Texts.{run_text};
ghost use Rattle.server_signals.specs.declared.run.RunFault.TheVariants.{Store};

use history_core::Fault;
use history_seats::AuditFault;
use server_rules::{RunHappening, RunState};
use short_lock::acquire;
use std::alloc::AllocError;
use std::sync::atomic::{AtomicBool, Ordering};
use std::sync::{Mutex, Wait};
use std::{error, fmt};

/// Why a run has no audit. `Display` gives the text for standard error.
#[derive(Clone, Copy, PartialEq, Eq, Debug)]
pub enum RunFault {
    /// The listener, the operator's reader or its writer failed, or no thread could be started.
    Device,
    /// A worker's turn failed four times in a row, or memory ran out before the first connection or after the last.
    Store(Fault),
    /// The audit at the end failed.
    Audit(AuditFault),
}

impl fmt::Display for RunFault {
    ghost output = { λ fault. Some (run_text fault) };

    fn fmt<W: fmt::Write>(&self, f: &mut fmt::Formatter<W>) -> fmt::Result {
        match *self {
            RunFault::Device => f.write_str("device fault"),
            RunFault::Store(fault) => write!(f, "{fault}"),
            RunFault::Audit(fault) => write!(f, "{fault}"),
        }
    }
}

impl error::Error for RunFault {}

/// The end of a run, asked for or forced by a fault; and whether memory is short, which the timer thread looks after.
#[derive(Drop)]
pub struct Run {
    state: Mutex<RunState<RunFault>>,
    /// What the state says, to be read without its lock. These are set while the lock is held.
    is_closing: AtomicBool,
    is_memory_short: AtomicBool,
}

impl Run {
    pub fn new() -> Run {
        Run {
            state: Mutex::new(RunState::new()),
            is_closing: AtomicBool::new(false),
            is_memory_short: AtomicBool::new(false),
        }
    }

    fn note<R: Wait>(&self, rt: &R, what: RunHappening<RunFault>) {
        let mut state = acquire(rt, &self.state);
        state.note(what);
        self.is_closing.store(state.is_closing(), Ordering::SeqCst);
        self.is_memory_short
            .store(state.is_memory_short(), Ordering::SeqCst);
    }

    /// Notes that memory ran out for a thread that can't roll the history itself.
    pub fn note_short_memory<R: Wait>(&self, rt: &R) {
        self.note(rt, RunHappening::MemoryShort);
    }

    /// Notes that the history was rolled because memory ran out, if there was anything to roll.
    pub fn spared_memory<R: Wait>(&self, rt: &R) {
        self.note(rt, RunHappening::MemorySpared);
    }

    pub fn is_memory_short(&self) -> bool {
        self.is_memory_short.load(Ordering::SeqCst)
    }

    /// Asks for the end: no more connections are accepted, and each session is closed.
    pub fn close<R: Wait>(&self, rt: &R) {
        self.note(rt, RunHappening::Closed);
    }

    /// Tests whether the end was asked for or forced.
    pub fn is_closing(&self) -> bool {
        self.is_closing.load(Ordering::SeqCst)
    }

    /// Forces the end. The first fault stays.
    pub fn cut<R: Wait>(&self, rt: &R, fault: RunFault) {
        self.note(rt, RunHappening::Failed(fault));
    }

    /// Returns the fault that forced the end, if one did.
    pub fn fault<R: Wait>(&self, rt: &R) -> Option<RunFault> {
        acquire(rt, &self.state).fault()
    }
}

impl From<Fault> for RunFault {
    ghost from_gives = { λ fault e. e ≡ Store fault };

    fn from(fault: Fault) -> RunFault {
        RunFault::Store(fault)
    }
}

impl From<AllocError> for RunFault {
    ghost from_gives = { λ _ e. e ≡ Store OutOfMemory };

    fn from(_e: AllocError) -> RunFault {
        RunFault::Store(Fault::OutOfMemory)
    }
}
