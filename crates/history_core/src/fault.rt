//! Why an event was not applied.
ghost use Rattle.std.specs.Prelude.{◌≡◌, Some};
ghost use Rattle.history_core.specs.declared.fault.Fault.TheVariants.{OutOfMemory};
ghost use Rattle.history_core.specs.Faults.{fault_number, fault_text};

use std::alloc::{AllocError, AllocFailed};
use std::{error, fmt};

/// Why an event was not applied. Nothing has changed, and no step is kept.
#[derive(Clone, Copy, Debug, PartialEq, Eq)]
pub enum Fault {
    /// Memory ran out.
    OutOfMemory,
    /// 1,048,576 steps are kept, or 2^62 were ever taken.
    HistoryFull,
}

impl Fault {
    /// Returns the place of the fault in the order of the variants, 1 or 2.
    pub fn number(self) -> u8
        ensures { result ≡ fault_number self }
    {
        match self {
            Fault::OutOfMemory => 1,
            Fault::HistoryFull => 2,
        }
    }
}

impl fmt::Display for Fault {
    ghost output = { λ fault. Some (fault_text fault) };

    fn fmt<W: fmt::Write>(&self, f: &mut fmt::Formatter<W>) -> fmt::Result {
        match *self {
            Fault::OutOfMemory => f.write_str("out of memory"),
            Fault::HistoryFull => f.write_str("history full"),
        }
    }
}

impl error::Error for Fault {}

impl From<AllocError> for Fault {
    ghost from_gives = { λ _ e. e ≡ OutOfMemory };

    fn from(_e: AllocError) -> Fault {
        Fault::OutOfMemory
    }
}

impl<T: Drop> From<AllocFailed<T>> for Fault {
    ghost from_gives = { λ _ e. e ≡ OutOfMemory };

    fn from(_e: AllocFailed<T>) -> Fault {
        Fault::OutOfMemory
    }
}
