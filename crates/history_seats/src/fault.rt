//! Why an audit failed.
ghost use Rattle.std.specs.Prelude.{◌≡◌, Some};
ghost use Rattle.history_seats.specs.declared.fault.AuditFault.TheVariants.{OutOfMemory};
ghost use Rattle.history_seats.specs.Faults.{audit_fault_number, audit_fault_text};

use std::alloc::{AllocError, AllocFailed};
use std::{error, fmt};

/// The first test of an audit that failed, in the order of the variants. Nothing has changed.
#[derive(Clone, Copy, Debug, PartialEq, Eq)]
pub enum AuditFault {
    /// Not all seats were given.
    SeatMissing,
    /// The seats received more or fewer steps than were taken. This never comes: the seats' shares rule it out.
    StepsDiffer,
    /// The seats received more or fewer grants than there were. This never comes either.
    GrantsDiffer,
    /// A receipt of this place has another event or another brief than the step there, or there is no such
    /// step.
    ReceiptDiffers(u64),
    /// Two receipts have one place. This never comes: each place is drawn once.
    PlaceTwice,
    /// The places of one seat don't rise. This never comes either.
    PlacesFall,
    /// Memory ran out. This never comes: an audit allocates nothing.
    OutOfMemory,
}

impl AuditFault {
    /// Returns the place of the fault in the order of the variants, 1 to 7.
    pub fn number(self) -> u8
        ensures { result ≡ audit_fault_number self }
    {
        match self {
            AuditFault::SeatMissing => 1,
            AuditFault::StepsDiffer => 2,
            AuditFault::GrantsDiffer => 3,
            AuditFault::ReceiptDiffers(_) => 4,
            AuditFault::PlaceTwice => 5,
            AuditFault::PlacesFall => 6,
            AuditFault::OutOfMemory => 7,
        }
    }
}

impl fmt::Display for AuditFault {
    ghost output = { λ fault. Some (audit_fault_text fault) };

    fn fmt<W: fmt::Write>(&self, f: &mut fmt::Formatter<W>) -> fmt::Result {
        match *self {
            AuditFault::SeatMissing => f.write_str("audit fault 1"),
            AuditFault::StepsDiffer => f.write_str("audit fault 2"),
            AuditFault::GrantsDiffer => f.write_str("audit fault 3"),
            AuditFault::ReceiptDiffers(_) => f.write_str("audit fault 4"),
            AuditFault::PlaceTwice => f.write_str("audit fault 5"),
            AuditFault::PlacesFall => f.write_str("audit fault 6"),
            AuditFault::OutOfMemory => f.write_str("out of memory"),
        }
    }
}

impl error::Error for AuditFault {}

impl From<AllocError> for AuditFault {
    ghost from_gives = { λ _ e. e ≡ OutOfMemory };

    fn from(_e: AllocError) -> AuditFault {
        AuditFault::OutOfMemory
    }
}

impl<T: Drop> From<AllocFailed<T>> for AuditFault {
    ghost from_gives = { λ _ e. e ≡ OutOfMemory };

    fn from(_e: AllocFailed<T>) -> AuditFault {
        AuditFault::OutOfMemory
    }
}
